//! Where an element stands: its coordinates and its repetition, which are the last fields of every element, and then the test
//! that each vertex of each copy is in reach.

ghost use Rattle.std.specs.Prelude.{◌≡◌};
ghost use Rattle.bounds.specs.Points.{reach, Near, spot_at};
ghost use Rattle.fields.specs.Shapes.{shape_bounds, shape_of, Drawn};
ghost use Rattle.fields.specs.Anchors.{coordinate, spot, settled, anchor};

use crate::copies::{Repeated, Spread, read_copies};
use crate::vertices::Outline;
use bounds::{Bounds, Point, Spot, all_fit};
use tokens::{FaultKind, Read, TokenFault, read_signed, refuse};

/// Which of the last fields are present.
#[derive(Clone, Copy)]
pub struct Present {
    pub x: bool,
    pub y: bool,
    pub repetition: bool,
}

/// What the last fields inherit.
#[derive(Clone, Copy)]
pub struct AnchorVariables {
    pub relative: bool,
    pub at: Point,
    pub repetition: Option<usize>,
}

/// Where an element stands: its first vertex, its repetition if it has one, and the place of the repetition that is stored
/// after it.
#[derive(Clone, Copy)]
pub struct Anchor {
    pub at: Point,
    pub repetition: Option<Repeated>,
    pub stored: Option<usize>,
}

// A coordinate: given, given from the one before, or inherited. It is tested only when the record was read, so it may leave 64
// bits before that.
fn read_coordinate(
    file: &[u8],
    at: usize,
    present: bool,
    relative: bool,
    variable: i64,
) -> Result<Read<i128>, TokenFault>
    ensures reads { result ≡ coordinate file.now at present relative variable }
{
    if !present {
        return Ok(Read {
            value: i128::from(variable),
            next: at,
        });
    }
    let given = read_signed(file, at)?.map(i128::from);
    if relative {
        return Ok(given.map(|step| i128::from(variable) + step));
    }
    Ok(given)
}

// Both coordinates.
fn read_spot(
    file: &[u8],
    at: usize,
    present: Present,
    v: AnchorVariables,
) -> Result<Read<Spot>, TokenFault>
    ensures reads { result ≡ spot file.now at present v }
{
    let x = read_coordinate(file, at, present.x, v.relative, v.at.x)?;
    let y = read_coordinate(file, x.next, present.y, v.relative, v.at.y)?;
    Ok(y.map(|y| Spot { x: x.value, y }))
}

// The box around the vertices of an element: of its list, or of its one vertex.
fn shape_bounds(shape: Option<Outline>) -> Bounds
    ensures { result ≡ shape_bounds shape }
{
    shape.map_or_else(Bounds::origin, |outline| outline.bounds)
}

// The anchor at a place that is in reach.
fn settle(spot: Spot, spread: Spread) -> Anchor
    requires { Near reach (spot_at spot) }
    ensures { result ≡ settled (spot_at spot) spread }
{
    Anchor {
        at: Point {
            x: spot.x as i64,
            y: spot.y as i64,
        },
        repetition: spread.repetition,
        stored: spread.stored,
    }
}

/// The coordinates and the repetition of the record whose first byte is at `first`, for an element with the vertices of a
/// list, or with one vertex.
pub fn read_anchor(
    file: &[u8],
    at: usize,
    first: usize,
    present: Present,
    v: AnchorVariables,
    shape: Option<Outline>,
) -> Result<Read<Anchor>, TokenFault>
    requires { Drawn file.now shape }
    ensures reads { result ≡ anchor file.now at first present v (shape_of file.now shape) }
{
    let spot = read_spot(file, at, present, v)?;
    let spread = read_copies(file, spot.next, first, present.repetition, v.repetition)?;
    if !all_fit(spot.value, spread.value.bounds, shape_bounds(shape)) {
        return refuse(FaultKind::Reach, first);
    }
    Ok(spread.map(|spread| settle(spot.value, spread)))
}
