//! One record, whose fields stand behind its ID.

ghost use Rattle.std.specs.Prelude.{◌≡◌};
ghost use Rattle.steps.specs.Contents.{begun, closed as closed_by, cell_named, text_named, cell_opened, drawn_in, performed};

use crate::dispatch::Action;
use crate::state::{Context, FileState, Found, Record, keep, reset, set_mode};
use elements::{Drawn, read_path, read_placement, read_polygon, read_rectangle, read_text};
use fields::{Reference, read_reference_number, read_reference_string};
use frames::{read_end, read_start};
use names::{CellNames, TextStrings, read_name};
use tokens::{Read, StringRule, TokenFault};

// Each kind of record has a function of its own: one match that makes all of them, with closures or without, took a tenth more
// instructions on small records; why was not shown.

// START: the file is open, and no cell.
fn begin(file: &[u8], at: usize) -> Result<Read<Found>, TokenFault>
    ensures { result ≡ begun file.now at }
{
    let start = read_start(file, at)?;
    Ok(Read {
        value: reset(FileState::Top, start.value.late, Record::Start(start.value)),
        next: start.next,
    })
}

// END: nothing may follow.
fn close(file: &[u8], at: usize, first: usize, c: Context) -> Result<Read<Found>, TokenFault>
    ensures { result ≡ closed_by file.now at first c }
{
    let end = read_end(file, at, first, c.late)?;
    Ok(Read {
        value: reset(FileState::Ended, c.late, Record::End(end.value)),
        next: end.next,
    })
}

// A name record of cell names, which closes the cell.
fn name_cell(file: &[u8], at: usize, c: Context, id: u64) -> Result<Read<Found>, TokenFault>
    ensures { result ≡ cell_named file.now at c id }
{
    let name = read_name::<CellNames>(file, at, id)?;
    Ok(Read {
        value: reset(FileState::Top, c.late, Record::CellName(name.value)),
        next: name.next,
    })
}

// A name record of text strings, which closes the cell.
fn name_text(file: &[u8], at: usize, c: Context, id: u64) -> Result<Read<Found>, TokenFault>
    ensures { result ≡ text_named file.now at c id }
{
    let name = read_name::<TextStrings>(file, at, id)?;
    Ok(Read {
        value: reset(FileState::Top, c.late, Record::TextString(name.value)),
        next: name.next,
    })
}

// A CELL record with this name, which opens the cell.
fn open_cell(
    c: Context,
    name: Result<Read<Reference>, TokenFault>,
) -> Result<Read<Found>, TokenFault>
    ensures { result ≡ cell_opened c name }
{
    let name = name?;
    Ok(Read {
        value: reset(FileState::Cell, c.late, Record::Cell(name.value)),
        next: name.next,
    })
}

// An element, in its cell.
fn draw(c: Context, drawn: Result<Read<Drawn>, TokenFault>) -> Result<Read<Found>, TokenFault>
    ensures { result ≡ drawn_in c drawn }
{
    let drawn = drawn?;
    Ok(Read {
        value: Found {
            content: Record::Element(drawn.value.element),
            context: Context {
                modals: drawn.value.modals,
                ..c
            },
        },
        next: drawn.next,
    })
}

/// The record with this ID whose first byte is at `first`, and whose fields stand from the place `at` on.
pub fn read_record(
    file: &[u8],
    at: usize,
    first: usize,
    c: Context,
    id: u64,
    action: Action,
) -> Result<Read<Found>, TokenFault>
    ensures reads { result ≡ performed file.now at first c id action }
{
    match action {
        Action::Pad => Ok(Read {
            value: keep(c, Record::Pad),
            next: at,
        }),
        Action::Start => begin(file, at),
        Action::End => close(file, at, first, c),
        Action::CellName => name_cell(file, at, c, id),
        Action::TextString => name_text(file, at, c, id),
        Action::CellByNumber => open_cell(c, read_reference_number(file, at)),
        Action::CellByName => open_cell(c, read_reference_string(file, at, StringRule::Name)),
        Action::Absolute => Ok(Read {
            value: set_mode(c, false),
            next: at,
        }),
        Action::Relative => Ok(Read {
            value: set_mode(c, true),
            next: at,
        }),
        Action::Placement => draw(c, read_placement(file, at, first, c.modals)),
        Action::Text => draw(c, read_text(file, at, first, c.modals)),
        Action::Rectangle => draw(c, read_rectangle(file, at, first, c.modals)),
        Action::Polygon => draw(c, read_polygon(file, at, first, c.modals)),
        Action::Path => draw(c, read_path(file, at, first, c.modals)),
    }
}
