//! Which record may stand where.
//!
//! A file is START, then name records, cells and PADs in any order, and END. Elements and modes stand in a cell, which goes on
//! to the next CELL, name record or END.

ghost use Rattle.std.specs.Prelude.{◌≡◌};
ghost use Rattle.steps.specs.Standings.{allowed};

use crate::state::FileState;
use tokens::FaultKind;

/// What a record-ID asks for: a kind for each kind of record, so that the dispatch reads as the table of record-IDs.
#[derive(Clone, Copy, Debug, PartialEq, Eq)]
pub enum Action {
    Pad,
    Start,
    End,
    CellName,
    TextString,
    CellByNumber,
    CellByName,
    Absolute,
    Relative,
    Placement,
    Text,
    Rectangle,
    Polygon,
    Path,
}

/// What the record-ID asks for in this state of the file, or why no such record may stand here.
pub fn action_of(state: FileState, id: u64) -> Result<Action, FaultKind>
    ensures allows { result ≡ allowed state id }
{
    match (state, id) {
        (FileState::Start, 1) => Ok(Action::Start),
        (FileState::Start | FileState::Ended, _) | (_, 1) => Err(FaultKind::OutOfPlace),
        (_, 0) => Ok(Action::Pad),
        (_, 2) => Ok(Action::End),
        (_, 3..=4) => Ok(Action::CellName),
        (_, 5..=6) => Ok(Action::TextString),
        (_, 13) => Ok(Action::CellByNumber),
        (_, 14) => Ok(Action::CellByName),
        (FileState::Cell, 15) => Ok(Action::Absolute),
        (FileState::Cell, 16) => Ok(Action::Relative),
        (FileState::Cell, 17) => Ok(Action::Placement),
        (FileState::Cell, 19) => Ok(Action::Text),
        (FileState::Cell, 20) => Ok(Action::Rectangle),
        (FileState::Cell, 21) => Ok(Action::Polygon),
        (FileState::Cell, 22) => Ok(Action::Path),
        (_, 15..=17 | 19..=22) => Err(FaultKind::OutOfPlace),
        (_, _) => Err(FaultKind::NotCarried),
    }
}
