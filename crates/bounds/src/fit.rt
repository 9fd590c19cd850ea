//! Whether every vertex of every copy of a shape is in reach, told by boxes alone.

ghost use Rattle.std.specs.Prelude.{◌≡◌, List};
ghost use Rattle.bounds.specs.Points.{reach, sum, spot_at, Near, within, all_within, places, Rooted};
ghost use Rattle.bounds.specs.Boxes.{bounds_of, boxes_fit};

use crate::bounds::Bounds;
use crate::point::{Point, REACH, Spot};

// Whether two offsets, one behind the other from a place in reach, lead to a place in reach.
fn corner_fits(place: Spot, copy: Point, vertex: Point) -> bool
    requires { Near reach (spot_at place) }
    ensures { result ≡ within reach (sum (sum (spot_at place) copy) vertex) }
{
    (place + copy + vertex).reaches(REACH)
}

// Whether a place, and both corners of two boxes added up at it, are in reach.
fn boxes_fit(place: Spot, copies: Bounds, shape: Bounds) -> bool
    ensures { result ≡ boxes_fit (spot_at place) copies shape }
{
    place.reaches(REACH)
        && corner_fits(place, copies.low(), shape.low())
        && corner_fits(place, copies.high(), shape.high())
}

/// Whether every vertex of every copy is in reach. `place` is where the first vertex of the first copy stands, `copies` is
/// the box of the copies' offsets, and `shape` that of the vertices' offsets.
pub fn all_fit(place: Spot, copies: Bounds, shape: Bounds) -> bool
    ensures tests { result ≡ boxes_fit (spot_at place) copies shape }
    ensures law { (os vs : List Point) → Rooted os → Rooted vs → copies ≡ bounds_of os → shape ≡ bounds_of vs → result ≡ all_within reach (places (spot_at place) os vs) }
{
    boxes_fit(place, copies, shape)
}
