//! Integers: chains of bytes, seven bits to a byte and the lowest first. Each byte but the last is 128 or more.
//!
//! `80 80 01` is 16384, and `80 00` is 0. As signed integers, where bit 0 is the sign, `81 80 01` is -8192.

ghost use Rattle.std.specs.Prelude.{◌≡◌, ◌+◌, ◌^◌, ◌<◌, ◌≤◌, length, IfOk, Ok, unsigned_abs};
ghost use Rattle.tokens.specs.Chains.{largest, chain_bytes, chain, placed, unsigned};
ghost use Rattle.tokens.specs.Deltas.{largest_size, signed_of, signed};
ghost use Rattle.tokens.specs.Readers.{GoesOn};

use crate::fault::{FaultKind, Read, TokenFault, refuse};

/// The greatest integer that a file may hold.
pub const LARGEST: u64 = 17_592_186_044_415;

/// The most bytes that a chain may have.
pub const CHAIN_BYTES: usize = 10;

// How many values the seven bits of a byte have. A byte below it is the last of its chain.
const RADIX: u8 = 128;

// The answer for a chain of `size` bytes at the place `at`. Ten bytes have seventy bits, so a chain's value may be above any u64.
fn limited(value: u128, at: usize, size: usize) -> Result<Read<u64>, TokenFault>
    requires { at + size < 2 ^ 64 }
    ensures { result ≡ placed at (Ok (value, size)) }
{
    if value > u128::from(LARGEST) {
        return refuse(FaultKind::Wide, at);
    }
    Ok(Read {
        value: value as u64,
        next: at + size,
    })
}

// The integer at the front of `rest`, which stands at the place `at` of its file.
fn read_chain(rest: &[u8], at: usize) -> Result<Read<u64>, TokenFault>
    requires { at + length rest.now < 2 ^ 64 }
    ensures { result ≡ placed at (chain chain_bytes rest.now) }
{
    let mut value: u128 = 0;
    let mut scale: u128 = 1;
    for k in 0..CHAIN_BYTES {
        let Some(byte) = rest.get(k) else {
            return refuse(FaultKind::Cut, at);
        };
        value += u128::from(byte % RADIX) * scale;
        if *byte < RADIX {
            return limited(value, at, k + 1);
        }
        scale *= u128::from(RADIX);
    }
    refuse(FaultKind::Wide, at)
}

/// The unsigned integer at the place `at`.
#[tactic(auto, using(crate::proofs::ChainLaws::unsigned_within, crate::proofs::Chains::past_end), unfolding(crate::specs::Chains::unsigned))]
pub fn read_unsigned(file: &[u8], at: usize) -> Result<Read<u64>, TokenFault>
    ensures reads { result ≡ unsigned file.now at }
    ensures within { IfOk result (λ x. (x.value ≤ largest) × GoesOn file.now at x) }
{
    if at > file.len() {
        return refuse(FaultKind::Cut, at);
    }
    read_chain(&file[at..], at)
}

/// The integer whose bit 0 is the sign and whose other bits are the size.
pub fn signed_of(v: u64) -> i64
    ensures means { result ≡ signed_of v }
{
    let size = (v / 2) as i64;
    if v % 2 == 0 { size } else { -size }
}

/// The signed integer at the place `at`.
#[tactic(auto, unfolding(crate::specs::Deltas::signed))]
pub fn read_signed(file: &[u8], at: usize) -> Result<Read<i64>, TokenFault>
    ensures reads { result ≡ signed file.now at }
    ensures within { IfOk result (λ x. (unsigned_abs x.value ≤ largest_size) × GoesOn file.now at x) }
{
    Ok(read_unsigned(file, at)?.map(signed_of))
}
