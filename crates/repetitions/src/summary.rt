//! A repetition in short: how many copies it has, and the box around their offsets.
//!
//! `01 00 01 0A 14` has six copies, in the box from (0, 0) to (10, 40).

ghost use Rattle.std.specs.Prelude.{◌≡◌, ◌<◌, ◌≤◌, ◌&&◌, length, IfOk};
ghost use Rattle.bounds.specs.Points.{far_reach, within};
ghost use Rattle.bounds.specs.Boxes.{low_of, high_of};
ghost use Rattle.repetitions.specs.Plans.{most_copies, copies_of, Sized};
ghost use Rattle.repetitions.specs.Repetitions.{reaching, listed, repetition, summarised, Modest};

use crate::plan::{Listing, Matrix, Plan, read_plan};
use crate::spread::read_spread;
use bounds::{Bounds, FAR_REACH};
use tokens::{FaultKind, Read, TokenFault, refuse};

/// A repetition in short.
#[derive(Clone, Copy, Debug, PartialEq, Eq)]
pub struct Summary {
    /// How many copies there are, the first one counted.
    pub copies: u64,
    /// The box around their offsets.
    pub bounds: Bounds,
}

fn is_in_reach(bounds: Bounds) -> bool
    ensures { result ≡ (within far_reach (low_of bounds) && within far_reach (high_of bounds)) }
{
    bounds.low().reaches(FAR_REACH) && bounds.high().reaches(FAR_REACH)
}

fn sum_up_matrix(at: usize, matrix: Matrix, next: usize) -> Result<Read<Summary>, TokenFault>
    requires { Sized matrix }
    ensures { result ≡ summarised (reaching at (copies_of matrix) next) }
{
    let bounds = matrix.bounds();
    if !is_in_reach(bounds) {
        return refuse(FaultKind::Reach, at);
    }
    let value = Summary {
        copies: matrix.columns * matrix.rows,
        bounds,
    };
    Ok(Read { value, next })
}

fn sum_up_listing(
    file: &[u8],
    at: usize,
    listing: Listing,
    next: usize,
) -> Result<Read<Summary>, TokenFault>
    requires { listing.spaces < most_copies }
    ensures { result ≡ summarised (listed file.now at listing next) }
{
    let spread = read_spread(file, next, listing)?;
    let bounds = spread.value.ok_or(TokenFault {
        kind: FaultKind::Reach,
        place: at,
    })?;
    let value = Summary {
        copies: listing.spaces + 1,
        bounds,
    };
    Ok(Read {
        value,
        next: spread.next,
    })
}

/// The repetition at the place `at`, in short.
pub fn read_repetition(file: &[u8], at: usize) -> Result<Read<Summary>, TokenFault>
    ensures reads { result ≡ summarised (repetition file.now at) }
    ensures within { IfOk result (λ x. (1 ≤ x.value.copies) × (x.value.copies ≤ most_copies) × Modest far_reach x.value.bounds × (at < x.next) × (x.next ≤ length file.now)) }
{
    let plan = read_plan(file, at)?;
    match plan.value {
        Plan::Uniform(matrix) => sum_up_matrix(at, matrix, plan.next),
        Plan::Listed(listing) => sum_up_listing(file, at, listing, plan.next),
    }
}
