//! A point of the grid, or an offset between two.

ghost use Rattle.std.specs.Prelude.{◌≡◌, ◌^◌};
ghost use Rattle.bounds.specs.Points.{reach, sum, spot_at, within, Near};

use std::ops::Add;

/// How far from the origin a place may be on each axis.
pub const REACH: u64 = 1_099_511_627_775;

/// How far an offset may go on each axis: from one end of the reach to the other.
pub const FAR_REACH: u64 = 2_199_023_255_550;

/// A point of the grid, or an offset.
#[derive(Clone, Copy, Debug, PartialEq, Eq)]
pub struct Point {
    pub x: i64,
    pub y: i64,
}

// A `Point<T>` over both integers would be no plainer: their sums ask and promise different bounds, and only this one is wide.
/// A place before it is known to be in reach.
#[derive(Clone, Copy, Debug, PartialEq, Eq)]
pub struct Spot {
    pub x: i128,
    pub y: i128,
}

impl Point {
    /// The origin.
    pub const ORIGIN: Point = Point { x: 0, y: 0 };

    /// Whether a point is at most `n` away from the origin on each axis.
    pub fn reaches(self, n: u64) -> bool
        ensures tells { result ≡ within n self }
    {
        self.x.unsigned_abs() <= n && self.y.unsigned_abs() <= n
    }
}

impl Spot {
    /// Whether a place is at most `n` away from the origin on each axis.
    pub fn reaches(self, n: u64) -> bool
        ensures tells { result ≡ within n (spot_at self) }
    {
        let limit = u128::from(n);
        self.x.unsigned_abs() <= limit && self.y.unsigned_abs() <= limit
    }
}

/// The point that is an offset away from another.
impl Add for Point {
    type Output = Point;

    ghost can_add = { λ p q. Near (2 ^ 60) p × Near (2 ^ 60) q };

    ghost add_gives = { λ p q r. r ≡ sum p q };

    fn add(self, by: Point) -> Point {
        Point {
            x: self.x + by.x,
            y: self.y + by.y,
        }
    }
}

/// The place that is an offset away from another.
impl Add<Point> for Spot {
    type Output = Spot;

    ghost can_add = { λ s p. Near (2 ^ 100) (spot_at s) };

    ghost add_gives = { λ s p r. (spot_at r ≡ sum (spot_at s) p) × (Near reach (spot_at s) → Near (2 ^ 64) (spot_at r)) };

    fn add(self, by: Point) -> Spot {
        Spot {
            x: self.x + i128::from(by.x),
            y: self.y + i128::from(by.y),
        }
    }
}
