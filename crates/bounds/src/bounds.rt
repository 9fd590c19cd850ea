//! The box around points. That of (3, 4) and (-1, 9) goes from (-1, 4) to (3, 9).

ghost use Rattle.std.specs.Prelude.{◌≡◌};
ghost use Rattle.bounds.specs.Boxes.{alone, nothing, grown, low_of, high_of};

use crate::point::Point;

/// A box: the lowest and the highest x and y.
#[derive(Clone, Copy, PartialEq, Eq, Debug)]
pub struct Bounds {
    pub left: i64,
    pub right: i64,
    pub bottom: i64,
    pub top: i64,
}

impl Bounds {
    /// The box of one point.
    pub fn at(p: Point) -> Self
        ensures alone { result ≡ alone p }
    {
        Bounds {
            left: p.x,
            right: p.x,
            bottom: p.y,
            top: p.y,
        }
    }

    /// The box of the origin.
    pub fn origin() -> Self
        ensures alone { result ≡ nothing }
    {
        Bounds::at(Point::ORIGIN)
    }

    /// The box with one point more.
    pub fn grow(self, p: Point) -> Self
        ensures around { result ≡ grown self p }
    {
        Bounds {
            left: self.left.min(p.x),
            right: self.right.max(p.x),
            bottom: self.bottom.min(p.y),
            top: self.top.max(p.y),
        }
    }

    /// The corner at the lower left.
    pub fn low(self) -> Point
        ensures corner { result ≡ low_of self }
    {
        Point {
            x: self.left,
            y: self.bottom,
        }
    }

    /// The corner at the upper right.
    pub fn high(self) -> Point
        ensures corner { result ≡ high_of self }
    {
        Point {
            x: self.right,
            y: self.top,
        }
    }
}
