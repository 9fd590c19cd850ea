//! The unit: the number of grid steps to a micron, a real number that has to be a whole number of at least 1.
//!
//! `00 E8 07` is the whole number 1000, and `04 D0 0F 02` the ratio 2000 / 2, which is the same unit.

ghost use Rattle.std.specs.Prelude.{◌≡◌, ◌≤◌, IfOk};
ghost use Rattle.tokens.specs.Chains.{largest};
ghost use Rattle.tokens.specs.Readers.{GoesOn};
ghost use Rattle.tokens.specs.Units.{quotient, unit_from, unit};

use crate::fault::{FaultKind, Read, TokenFault, refuse};
use crate::integer::read_unsigned;

// The type of a real number that is a whole number.
const WHOLE: u64 = 0;

// The type of one that is 1 over a whole number.
const RECIPROCAL: u64 = 2;

// The type of one that is a whole number over another.
const RATIO: u64 = 4;

// The unit p / q, which was read from the place `at` to the place `next`.
fn divide(at: usize, p: u64, q: u64, next: usize) -> Result<Read<u64>, TokenFault>
    ensures { result ≡ quotient at p q next }
{
    if q == 0 || p == 0 || p % q != 0 {
        return refuse(FaultKind::BadUnit, at);
    }
    Ok(Read { value: p / q, next })
}

// The unit of the type `shape`, whose integers stand from the place `next`. The types stay numbers: an enum of the three would be
// made from them by this same match, and matched again.
fn read_quotient(file: &[u8], at: usize, shape: u64, next: usize) -> Result<Read<u64>, TokenFault>
    ensures { result ≡ unit_from file.now at shape next }
{
    match shape {
        WHOLE => {
            let p = read_unsigned(file, next)?;
            divide(at, p.value, 1, p.next)
        }
        RECIPROCAL => {
            let q = read_unsigned(file, next)?;
            divide(at, 1, q.value, q.next)
        }
        RATIO => {
            let p = read_unsigned(file, next)?;
            let q = read_unsigned(file, p.next)?;
            divide(at, p.value, q.value, q.next)
        }
        _ => refuse(FaultKind::BadUnit, at),
    }
}

/// The unit at the place `at`.
#[tactic(auto, using(crate::proofs::Units::unit_within), unfolding(crate::specs::Units::unit))]
pub fn read_unit(file: &[u8], at: usize) -> Result<Read<u64>, TokenFault>
    ensures reads { result ≡ unit file.now at }
    ensures within { IfOk result (λ x. (1 ≤ x.value) × (x.value ≤ largest) × GoesOn file.now at x) }
{
    let shape = read_unsigned(file, at)?;
    read_quotient(file, at, shape.value, shape.next)
}
