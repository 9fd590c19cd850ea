//! One step over a file: the record at a position, and the position after it.

ghost use Rattle.std.specs.Prelude.{◌≡◌};
ghost use Rattle.steps.specs.Steps.{body, step_of, stepped};

use crate::dispatch::action_of;
use crate::fault::{Fault, in_record};
use crate::read::read_record;
use crate::state::{Found, Position, RecordAt, Step};
use tokens::{Read, TokenFault, read_unsigned};

// The record with this ID at the position, whose fields stand from the place `next` on.
fn read_body(file: &[u8], p: Position, id: u64, next: usize) -> Result<Read<Found>, TokenFault>
    ensures { result ≡ body file.now p id next }
{
    let action = action_of(p.context.state, id).map_err(|kind| TokenFault { kind, place: p.at })?;
    read_record(file, next, p.at, p.context, id, action)
}

// The record that was found, and the position after it.
fn step_of(place: usize, id: u64, found: Read<Found>) -> Step
    ensures { result ≡ step_of place id found }
{
    Step {
        found: RecordAt {
            place,
            id,
            content: found.value.content,
        },
        after: Position {
            at: found.next,
            context: found.value.context,
        },
    }
}

/// The record at a position, and the position after it. A record whose ID is at fault counts as one with the ID 0.
pub fn step_at(file: &[u8], p: Position) -> Result<Step, Fault>
    ensures steps { result ≡ stepped file.now p }
{
    let id = in_record(read_unsigned(file, p.at), p.at, 0)?;
    let found = in_record(read_body(file, p, id.value, id.next), p.at, id.value)?;
    Ok(step_of(p.at, id.value, found))
}
