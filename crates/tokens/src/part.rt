//! Parts of a file, by their place and their size.
//!
//! The string `03 41 42 43` at place 7 has its text `ABC` in the part of place 8 and size 3.

ghost use Rattle.std.specs.Prelude.{◌≡◌, ◌+◌, ◌<◌, ◌≤◌, length, IfOk};
ghost use Rattle.tokens.specs.Chains.{largest};
ghost use Rattle.tokens.specs.Parts.{bytes_in, part};

use crate::fault::{Read, TokenFault};
use crate::text::{StringRule, read_string};

/// A part of the file.
#[derive(Clone, Copy, PartialEq, Eq, Default, Debug)]
pub struct Part {
    /// The place of its first byte.
    pub place: usize,
    /// How many bytes it has.
    pub size: usize,
}

impl Part {
    /// The bytes of the part, as far as they stand in the file.
    pub fn bytes_in(self, file: &[u8]) -> &[u8]
        ensures shows { result.now ≡ bytes_in file.now self }
    {
        let rest = file.get(self.place..).unwrap_or(&[]);
        rest.get(..self.size).unwrap_or(rest)
    }
}

/// The text of the string at the place `at`, as a part of the file.
pub fn read_part(file: &[u8], at: usize, rule: StringRule) -> Result<Read<Part>, TokenFault>
    ensures reads { result ≡ part rule file.now at }
    ensures within { IfOk result (λ x. (at < x.value.place) × (x.value.place + x.value.size ≡ x.next) × (x.value.size ≤ largest) × (x.next ≤ length file.now)) }
{
    let text = read_string(file, at, rule)?;
    let size = text.value.len();
    let place = text.next - size;
    Ok(text.with(Part { place, size }))
}
