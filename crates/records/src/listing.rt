//! The lines of a whole file: one for each record, up to END or to the first fault.

ghost use Rattle.std.specs.Prelude.{◌≡◌, IfOk};
ghost use Rattle.runs.specs.Runs.{run};
ghost use Rattle.records.specs.Listings.{trail_lines, listing_of};

use crate::text::{append_fault, append_line};
use runs::Walk;
use std::alloc::{AllocError, Global};

/// The most bytes that a file may have here.
pub const LONGEST: usize = 65_536;

// What is said of a longer one.
const TOO_LONG: &str = "input longer than 65536 bytes\n";

// The lines of the records of a file, and of the fault that ended them.
fn lines_of(heap: Global, file: &[u8]) -> Result<Vec<u8>, AllocError>
    ensures lines { IfOk result (λ v. v.items ≡ trail_lines file.now (run file.now)) }
{
    let mut out = Vec::new(heap);
    // The walk's own `next` and no `for`: the iterator copies each record once more.
    let mut walk = match Walk::over(file) {
        Ok(walk) => walk,
        Err(fault) => {
            append_fault(heap, &mut out, fault)?;
            return Ok(out);
        }
    };
    loop {
        match walk.next() {
            Ok(Some(found)) => append_line(heap, &mut out, file, found)?,
            Ok(None) => return Ok(out),
            Err(fault) => {
                append_fault(heap, &mut out, fault)?;
                return Ok(out);
            }
        }
    }
}

/// What the program prints for an input.
pub fn listing(heap: Global, file: &[u8]) -> Result<Vec<u8>, AllocError>
    ensures lines { IfOk result (λ v. v.items ≡ listing_of file.now) }
{
    if file.len() > LONGEST {
        return Vec::from_slice(heap, TOO_LONG.as_bytes());
    }
    lines_of(heap, file)
}
