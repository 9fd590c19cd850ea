//! What a record holds, and what is known between two records.

ghost use Rattle.std.specs.Prelude.{◌≡◌};
ghost use Rattle.steps.specs.States.{kept, reset as reset_to, moded};

use elements::Element;
use fields::{Modals, Reference};
use frames::{End, Start};
use names::NameFields;

/// How far a file has come.
#[derive(Clone, Copy, Debug, PartialEq, Eq)]
pub enum FileState {
    /// Before START.
    Start,
    /// After START, with no cell open.
    Top,
    /// In a cell.
    Cell,
    /// After END.
    Ended,
}

/// A record, with its fields by their final values.
#[derive(Clone, Copy)]
pub enum Record {
    Pad,
    Start(Start),
    End(End),
    /// The fields of a name record of cell names.
    CellName(NameFields),
    /// The fields of a name record of text strings.
    TextString(NameFields),
    Cell(Reference),
    /// Whether coordinates are relative from here on: the modal variable `relative` as it is after the record.
    Mode(bool),
    Element(Element),
}

/// What is known between two records: the state of the file, whether the table offsets stand in END, and the modal variables.
#[derive(Clone, Copy)]
pub struct Context {
    pub state: FileState,
    /// The flag of START, as `read_end` takes it.
    pub late: bool,
    pub modals: Modals,
}

/// A record that was read, and what is known after it.
#[derive(Clone, Copy)]
pub struct Found {
    pub content: Record,
    pub context: Context,
}

/// A place in the file where a record is due, and what is known there.
#[derive(Clone, Copy)]
pub struct Position {
    pub at: usize,
    pub context: Context,
}

/// A record of the file, with the place of its first byte and its ID.
#[derive(Clone, Copy)]
pub struct RecordAt {
    pub place: usize,
    pub id: u64,
    pub content: Record,
}

/// A record of the file, and the position after it.
#[derive(Clone, Copy)]
pub struct Step {
    pub found: RecordAt,
    pub after: Position,
}

/// A record that changes nothing.
pub fn keep(c: Context, content: Record) -> Found
    ensures keeps { result ≡ kept c content }
{
    Found {
        content,
        context: c,
    }
}

/// A record that resets the modal variables, and the state after it.
pub fn reset(state: FileState, late: bool, content: Record) -> Found
    ensures resets { result ≡ reset_to state late content }
{
    Found {
        content,
        context: Context {
            state,
            late,
            modals: Modals::reset(),
        },
    }
}

/// A record that says how coordinates are read from here on.
pub fn set_mode(c: Context, relative: bool) -> Found
    ensures sets { result ≡ moded c relative }
{
    Found {
        content: Record::Mode(relative),
        context: Context {
            modals: Modals {
                relative,
                ..c.modals
            },
            ..c
        },
    }
}
