//! Deltas: displacements, as one integer of direction and size, or as two signed integers.
//!
//! `9B 2A` is the 2-delta (0, -1350), and `D7 07` the 3-delta (122, -122). As g-deltas, `EC 05` is (-46, -46) in one integer,
//! and `BB 01 B7 0F` is (-46, -987) in two.

ghost use Rattle.std.specs.Prelude.{◌≡◌, ◌/◌, ◌%◌, ◌^◌, ◌<◌, ◌≤◌, pos, IfOk};
ghost use Rattle.tokens.specs.Deltas.{largest_size, Sizes, all_ways, toward, two_delta, three_delta, g_delta};
ghost use Rattle.tokens.specs.Readers.{GoesOn};

use crate::fault::{Read, TokenFault};
use crate::integer::{read_signed, read_unsigned, signed_of};

// How many directions a 2-delta has: east, north, west and south.
const STRAIGHT_WAYS: u64 = 4;

// How many directions a 3-delta has: the straight ones, then north-east, north-west, south-west and south-east.
const ALL_WAYS: u64 = 8;

// `size` steps in one of eight directions. They stay numbers: an enum of eight would be made from them by this same match, and
// matched again.
fn steps(direction: u64, size: u64) -> (i64, i64)
    requires { (direction < all_ways) × (size < 2 ^ 63) }
    ensures { result ≡ toward direction (pos size) }
{
    let m = size as i64;
    match direction {
        0 => (m, 0),
        1 => (0, m),
        2 => (-m, 0),
        3 => (0, -m),
        4 => (m, m),
        5 => (-m, m),
        6 => (-m, -m),
        _ => (m, -m),
    }
}

// The displacement of an integer that is a number of steps times `WAYS`, and one of so many directions.
fn displaced<const WAYS: u64>(v: u64) -> (i64, i64)
    requires { (2 ≤ WAYS) × (WAYS ≤ all_ways) }
    ensures { result ≡ toward (v % WAYS) (pos (v / WAYS)) }
{
    steps(v % WAYS, v / WAYS)
}

/// The 2-delta at the place `at`.
#[tactic(auto, unfolding(crate::specs::Deltas::two_delta))]
pub fn read_two_delta(file: &[u8], at: usize) -> Result<Read<(i64, i64)>, TokenFault>
    ensures reads { result ≡ two_delta file.now at }
    ensures within { IfOk result (λ x. Sizes largest_size x.value × GoesOn file.now at x) }
{
    Ok(read_unsigned(file, at)?.map(displaced::<STRAIGHT_WAYS>))
}

/// The 3-delta at the place `at`.
#[tactic(auto, unfolding(crate::specs::Deltas::three_delta))]
pub fn read_three_delta(file: &[u8], at: usize) -> Result<Read<(i64, i64)>, TokenFault>
    ensures reads { result ≡ three_delta file.now at }
    ensures within { IfOk result (λ x. Sizes largest_size x.value × GoesOn file.now at x) }
{
    Ok(read_unsigned(file, at)?.map(displaced::<ALL_WAYS>))
}

/// The g-delta at the place `at`.
#[tactic(auto, unfolding(crate::specs::Deltas::g_delta))]
pub fn read_g_delta(file: &[u8], at: usize) -> Result<Read<(i64, i64)>, TokenFault>
    ensures reads { result ≡ g_delta file.now at }
    ensures within { IfOk result (λ x. Sizes largest_size x.value × GoesOn file.now at x) }
{
    let code = read_unsigned(file, at)?;
    if code.value % 2 == 0 {
        return Ok(code.map(|v| displaced::<ALL_WAYS>(v / 2)));
    }
    Ok(read_signed(file, code.next)?.map(|y| (signed_of(code.value / 2), y)))
}
