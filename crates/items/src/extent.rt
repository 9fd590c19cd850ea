//! The box of a figure. A rectangle at (3, 4), 10 wide and 5 high, has the box from (3, 4) to (13, 9).

ghost use Rattle.std.specs.Prelude.{◌≡◌, ◌&&◌, if◌then◌else◌, Some, None};
ghost use Rattle.bounds.specs.Points.{reach, within};
ghost use Rattle.items.specs.Things.{thing_of};
ghost use Rattle.items.specs.Validity.{sized, Valid};
ghost use Rattle.items.specs.Extents.{corners, points_of, box_around, box_of, Boxed};

use crate::item::Item;
use crate::validity::are_at_most;
use bounds::{Bounds, Point, REACH};

// The box of some points.
fn box_around(points: &[Point]) -> Option<Bounds>
    ensures { result ≡ box_around points.now }
{
    let (first, rest) = points.split_first()?;
    Some(rest.iter().fold(Bounds::at(*first), |b, p| b.grow(*p)))
}

// The box of a rectangle in reach.
fn rectangle_box(at: Point, width: u64, height: u64) -> Option<Bounds>
    ensures { result ≡ (if sized width height && within reach at then box_around (corners at width height) else None) }
{
    (are_at_most(REACH, width, height) && at.reaches(REACH)).then(|| Bounds {
        left: at.x,
        right: at.x + width as i64,
        bottom: at.y,
        top: at.y + height as i64,
    })
}

/// The box of a figure: of a rectangle's corners, or of a polygon's or a path's vertices. Nothing else has one, and a
/// rectangle with its corner or its size out of reach has none.
#[tactic(auto, using(crate::proofs::Boxes::boxed))]
pub fn box_of(item: Item<'_>) -> Option<Bounds>
    ensures finds { result ≡ box_of (thing_of item.entry) }
    ensures law { Valid (thing_of item.entry) → Boxed (points_of (thing_of item.entry)) result }
{
    match item {
        Item::Rectangle {
            width,
            height,
            at,
            ..
        } => rectangle_box(at, width, height),
        Item::Polygon { vertices, .. } | Item::Path { vertices, .. } => box_around(vertices),
        _ => None,
    }
}
