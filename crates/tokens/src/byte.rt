//! Info bytes: one byte of flags.
//!
//! `63` is an info byte of four flags: 40, 20, 02 and 01.

ghost use Rattle.std.specs.Prelude.{◌≡◌, IfOk};
ghost use Rattle.tokens.specs.Bytes.{byte_at, flag};
ghost use Rattle.tokens.specs.Readers.{GoesOn};

use crate::fault::{FaultKind, Read, TokenFault};

/// The byte at the place `at`.
#[tactic(auto, unfolding(crate::specs::Bytes::byte_at))]
pub fn read_byte(file: &[u8], at: usize) -> Result<Read<u8>, TokenFault>
    ensures reads { result ≡ byte_at file.now at }
    ensures within { IfOk result (λ x. GoesOn file.now at x) }
{
    let byte = file.get(at).ok_or(FaultKind::Cut.at(at))?;
    Ok(Read {
        value: *byte,
        next: at + 1,
    })
}

/// Whether the info byte has a flag of the mask.
pub fn has_flag(info: u8, mask: u8) -> bool
    ensures tells { result ≡ flag info mask }
{
    info & mask != 0
}
