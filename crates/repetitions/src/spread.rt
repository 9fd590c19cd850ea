//! Copies by a list of spaces, in one pass.
//!
//! `05 01 0A 03 04` has, on a grid of 10, the spaces 3 and 4 across: copies at (0, 0), (30, 0) and (70, 0).

ghost use Rattle.std.specs.Prelude.{◌≡◌, ◌<◌, Some};
ghost use Rattle.bounds.specs.Points.{origin, spot_at};
ghost use Rattle.bounds.specs.Boxes.{nothing};
ghost use Rattle.repetitions.specs.Offsets.{scaled};
ghost use Rattle.repetitions.specs.Plans.{most_copies};
ghost use Rattle.repetitions.specs.Repetitions.{reachable, reached, spaces_at, boxed};

use crate::plan::Listing;
use crate::space::read_space;
use bounds::{Bounds, FAR_REACH, Point, Spot};
use tokens::{Read, TokenFault};

// No `From`, since it multiplies by the grid.
fn widened(grid: u64, p: Point) -> Spot
    ensures { spot_at result ≡ scaled grid p }
{
    let x = i128::from(grid) * i128::from(p.x);
    let y = i128::from(grid) * i128::from(p.y);
    Spot { x, y }
}

// No `TryFrom`, since it tests the reach, which is less than a point can hold.
fn narrowed(place: Spot) -> Option<Point>
    ensures { result ≡ reachable (spot_at place) }
{
    // Not `then`: with its closure the loop over spaces took a fifth more time.
    if !place.reaches(FAR_REACH) {
        return None;
    }
    Some(Point {
        x: place.x as i64,
        y: place.y as i64,
    })
}

// A point on the grid, where that is in reach.
pub fn on_grid(grid: u64, p: Point) -> Option<Point>
    ensures stands { result ≡ reachable (scaled grid p) }
{
    narrowed(widened(grid, p))
}

// The box with one point more, while all are in reach.
fn grow_reached(bounds: Option<Bounds>, point: Option<Point>) -> Option<Bounds>
    ensures { result ≡ reached bounds point }
{
    Some(bounds?.grow(point?))
}

// The box around the copies whose spaces stand from the place `at` on, or none where a copy is out of reach.
pub fn read_spread(
    file: &[u8],
    at: usize,
    listing: Listing,
) -> Result<Read<Option<Bounds>>, TokenFault>
    requires { listing.spaces < most_copies }
    ensures reads { result ≡ boxed listing.grid origin (Some nothing) (spaces_at listing file.now at) }
{
    let mut place = at;
    let mut whole = Point::ORIGIN;
    let mut bounds = Some(Bounds::origin());
    for _i in 0..listing.spaces {
        let space = read_space(file, place, listing.axis)?;
        place = space.next;
        whole = whole + space.value;
        bounds = grow_reached(bounds, on_grid(listing.grid, whole));
    }
    Ok(Read {
        value: bounds,
        next: place,
    })
}
