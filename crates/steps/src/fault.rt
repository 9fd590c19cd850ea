//! A fault of a file: what is wrong and where, and in which record.

ghost use Rattle.std.specs.Prelude.{◌≡◌};
ghost use Rattle.steps.specs.Steps.{enclosed};

use tokens::{FaultKind, TokenFault};

/// A fault, the place that it names, and the place and the ID of the record that it is in.
#[derive(Clone, Copy, Debug, PartialEq, Eq)]
pub struct Fault {
    pub kind: FaultKind,
    pub place: usize,
    pub first: usize,
    pub id: u64,
}

/// A fault of a token becomes one of the record with this ID whose first byte is at `first`.
pub fn in_record<T>(r: Result<T, TokenFault>, first: usize, id: u64) -> Result<T, Fault>
    ensures encloses { result ≡ enclosed first id r }
{
    r.map_err(|e| Fault {
        kind: e.kind,
        place: e.place,
        first,
        id,
    })
}
