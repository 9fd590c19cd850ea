//! The repetition of a record: present, reused or none.

ghost use Rattle.std.specs.Prelude.{◌≡◌, IfOk};
ghost use Rattle.fields.specs.Shapes.{spread_at, copies, offsets_of, Boxed};

use crate::number::inherited;
use bounds::Bounds;
use repetitions::read_repetition;
use tokens::{Read, TokenFault, read_unsigned};

// The type of a repetition that is the one used last.
const REUSED: u64 = 0;

/// Where a repetition stands, and how many copies it makes.
#[derive(Clone, Copy)]
pub struct Repeated {
    pub place: usize,
    pub copies: u64,
}

/// The copies of an element: its repetition, if it has one; the place that the variable holds after it; and the box around
/// the copies' offsets.
#[derive(Clone, Copy)]
pub struct Spread {
    pub repetition: Option<Repeated>,
    pub stored: Option<usize>,
    pub bounds: Bounds,
}

// The copies by the repetition that stands at the place `place`.
fn read_at(file: &[u8], place: usize) -> Result<Read<Spread>, TokenFault>
    ensures reads { result ≡ spread_at file.now place }
    ensures boxed { IfOk result (λ x. Boxed (offsets_of file.now x.value.repetition) x.value.bounds) }
{
    Ok(read_repetition(file, place)?.map(|summary| Spread {
        repetition: Some(Repeated {
            place,
            copies: summary.copies,
        }),
        stored: Some(place),
        bounds: summary.bounds,
    }))
}

/// The copies of the record whose first byte is at `first`, by the repetition at the place `at` if it is present.
pub fn read_copies(
    file: &[u8],
    at: usize,
    first: usize,
    present: bool,
    variable: Option<usize>,
) -> Result<Read<Spread>, TokenFault>
    ensures reads { result ≡ copies file.now at first present variable }
    ensures boxed { IfOk result (λ x. Boxed (offsets_of file.now x.value.repetition) x.value.bounds) }
{
    if !present {
        return Ok(Read {
            value: Spread {
                repetition: None,
                stored: variable,
                bounds: Bounds::origin(),
            },
            next: at,
        });
    }
    let kind = read_unsigned(file, at)?;
    if kind.value == REUSED {
        let old = inherited(kind.next, first, variable)?;
        let spread = read_at(file, old.value)?;
        return Ok(Read {
            next: old.next,
            ..spread
        });
    }
    read_at(file, at)
}
