//! Numbers that are given or inherited: layers and datatypes, widths and heights.

ghost use Rattle.std.specs.Prelude.{◌≡◌, ◌≤◌, IfOk};
ghost use Rattle.bounds.specs.Points.{reach};
ghost use Rattle.fields.specs.Numbers.{inherited as inherited_value, field, measure, layers, sides};

use crate::variables::{LayerVariables, SideVariables};
use bounds::REACH;
use tokens::{FaultKind, Read, TokenFault, has_flag, read_unsigned, refuse};

// The flag of an info byte that announces a layer, or a textlayer.
const LAYER: u8 = 0x01;

// The flag of an info byte that announces a datatype, or a texttype.
const DATATYPE: u8 = 0x02;

/// The flag of a rectangle's info byte that announces a height.
pub const HEIGHT: u8 = 0x20;

// The flag of a rectangle's info byte that announces a width.
const WIDTH: u8 = 0x40;

/// The flag of a rectangle's info byte that says that it is a square.
pub const SQUARE: u8 = 0x80;

/// A layer and a datatype.
#[derive(Clone, Copy)]
pub struct Layers {
    pub layer: u64,
    pub datatype: u64,
}

/// A width and a height.
#[derive(Clone, Copy)]
pub struct Sides {
    pub width: u64,
    pub height: u64,
}

/// A variable's value for a field that is absent at the place `at`, or a fault of the record whose first byte is at `first`.
pub fn inherited<T: Copy>(
    at: usize,
    first: usize,
    variable: Option<T>,
) -> Result<Read<T>, TokenFault>
    ensures takes { result ≡ inherited_value at first variable }
{
    variable
        .map(|value| Read { value, next: at })
        .ok_or(TokenFault {
            kind: FaultKind::Undefined,
            place: first,
        })
}

/// A number that is present at the place `at`, or inherited.
// Readers keep `present` beside the variable: each may stand without the other, some need both, and what they read differs.
pub fn read_field(
    file: &[u8],
    at: usize,
    first: usize,
    present: bool,
    variable: Option<u64>,
) -> Result<Read<u64>, TokenFault>
    ensures reads { result ≡ field file.now at first present variable }
{
    if present {
        return read_unsigned(file, at);
    }
    inherited(at, first, variable)
}

/// A width, a height or a half-width: a number within the reach.
pub fn read_measure(
    file: &[u8],
    at: usize,
    first: usize,
    present: bool,
    variable: Option<u64>,
) -> Result<Read<u64>, TokenFault>
    ensures reads { result ≡ measure file.now at first present variable }
    ensures near { IfOk result (λ x. x.value ≤ reach) }
{
    let size = read_field(file, at, first, present, variable)?;
    if size.value > REACH {
        return refuse(FaultKind::Reach, at);
    }
    Ok(size)
}

/// The layer and the datatype that the info byte announces, or those that are inherited.
pub fn read_layers(
    file: &[u8],
    at: usize,
    first: usize,
    info: u8,
    v: LayerVariables,
) -> Result<Read<Layers>, TokenFault>
    ensures reads { result ≡ layers file.now at first info v }
{
    let layer = read_field(file, at, first, has_flag(info, LAYER), v.layer)?;
    let datatype = read_field(
        file,
        layer.next,
        first,
        has_flag(info, DATATYPE),
        v.datatype,
    )?;
    Ok(datatype.map(|datatype| Layers {
        layer: layer.value,
        datatype,
    }))
}

/// The width and the height of a rectangle. A square has only a width.
pub fn read_sides(
    file: &[u8],
    at: usize,
    first: usize,
    info: u8,
    v: SideVariables,
) -> Result<Read<Sides>, TokenFault>
    ensures reads { result ≡ sides file.now at first info v }
{
    let width = read_measure(file, at, first, has_flag(info, WIDTH), v.width)?;
    if has_flag(info, SQUARE) {
        return Ok(width.map(|width| Sides {
            width,
            height: width,
        }));
    }
    let height = read_measure(file, width.next, first, has_flag(info, HEIGHT), v.height)?;
    Ok(height.map(|height| Sides {
        width: width.value,
        height,
    }))
}
