//! A walk over the copies of a repetition, one after the other.
//!
//! The walk over `01 00 01 0A 14` gives (0, 0), (10, 0), (0, 20), (10, 20), (0, 40), (10, 40), and then nothing.

ghost use Rattle.std.specs.Prelude.{◌≡◌, ℕ, ◌-◌, ◌<◌, List, [], ⊤};
ghost use Rattle.std.specs.Iterator.{YieldsFirst, item_count, MakesProgress};
ghost use Rattle.tokens.specs.Answers.{got};
ghost use Rattle.bounds.specs.Points.{Near, sum};
ghost use Rattle.repetitions.specs.Spaces.{space_at};
ghost use Rattle.repetitions.specs.Plans.{plan, Sound};
ghost use Rattle.repetitions.specs.Repetitions.{repetition};
ghost use Rattle.repetitions.specs.Walks.{furthest, inside, following, trail, matrix_left, list_left, left_in, to_give, planned, begun, LeadsTo, opened, OpensTo};

use crate::plan::{Listing, Matrix, Plan, read_plan};
use crate::space::read_space;
use crate::spread::on_grid;
use bounds::Point;
use std::iter::FusedIterator;
use tokens::TokenFault;

// No sum of the spaces of a repetition is further than this on an axis.
const FURTHEST: u64 = 1_152_921_504_606_846_976;

// A walk over a matrix: the next copy is that at `column` and `row`.
#[derive(Clone, Copy)]
struct MatrixWalk {
    matrix: Matrix,
    column: u64,
    row: u64,
}

// A walk by a list of spaces: `left` copies are left, the next one is at `whole` times the grid, and the space after it
// stands at the place `place`.
#[derive(Clone, Copy)]
struct ListWalk {
    listing: Listing,
    left: u64,
    place: usize,
    whole: Point,
}

#[derive(Clone, Copy)]
enum Walk {
    InMatrix(MatrixWalk),
    ByList(ListWalk),
}

/// A walk over the copies of a repetition: their offsets, one after the other. It holds no part of the file, and is handed the
/// file at each step.
#[derive(Clone, Copy)]
pub struct CopyWalk {
    walk: Walk,
}

/// A walk over the copies of a repetition, beside its file: their offsets, one after the other.
#[derive(Clone, Copy)]
pub struct Copies<'f> {
    file: &'f [u8],
    walk: CopyWalk,
}

impl MatrixWalk {
    // Whether the walk has a copy to give.
    fn is_inside(self) -> bool
        ensures { result ≡ inside self.matrix self.column self.row }
    {
        self.column < self.matrix.columns && self.row < self.matrix.rows && self.matrix.is_sized()
    }

    fn next_copy(&mut self) -> Option<Point>
        ensures { YieldsFirst matrix_left self.old result self.new }
    {
        if !self.is_inside() {
            return None;
        }
        let copy = self.matrix.copy_at(self.column, self.row);
        if self.column + 1 < self.matrix.columns {
            self.column += 1;
        } else {
            self.column = 0;
            self.row += 1;
        }
        Some(copy)
    }
}

impl ListWalk {
    // The walk with nothing left to give.
    fn ended(self) -> Self
        ensures { (file : List ℕ) → list_left file result ≡ [] }
    {
        ListWalk { left: 0, ..self }
    }

    // The walk after its next copy, which is not too far for a sum. No space stands after the last copy.
    fn onward(self, file: &[u8]) -> Self
        requires { (0 < self.left) × Near furthest self.whole }
        ensures { list_left file.now result ≡ following (space_at self.listing.axis file.now self.place) (λ d n. trail self.listing.axis self.listing.grid file.now (self.left - 1) n (sum self.whole d)) }
    {
        if self.left == 1 {
            return self.ended();
        }
        match read_space(file, self.place, self.listing.axis) {
            Ok(space) => ListWalk {
                left: self.left - 1,
                place: space.next,
                whole: self.whole + space.value,
                ..self
            },
            Err(_) => self.ended(),
        }
    }

    fn next_copy(&mut self, file: &[u8]) -> Option<Point>
        ensures { YieldsFirst (list_left file.now) self.old result self.new }
    {
        if self.left == 0 {
            return None;
        }
        if !self.whole.reaches(FURTHEST) {
            return None;
        }
        let copy = on_grid(self.listing.grid, self.whole)?;
        *self = self.onward(file);
        Some(copy)
    }
}

impl Walk {
    // The walk over what is planned, where `next` is the place after the plan.
    fn begin(plan: Plan, next: usize) -> Self
        requires { Sound plan }
        ensures { result ≡ planned plan next }
    {
        match plan {
            Plan::Uniform(matrix) => Walk::InMatrix(MatrixWalk {
                matrix,
                column: 0,
                row: 0,
            }),
            Plan::Listed(listing) => Walk::ByList(ListWalk {
                listing,
                left: listing.spaces + 1,
                place: next,
                whole: Point::ORIGIN,
            }),
        }
    }
}

impl CopyWalk {
    /// The offset of the next copy in this file, or `None` after the last one.
    pub fn next_copy(&mut self, file: &[u8]) -> Option<Point>
        ensures gives { YieldsFirst (left_in file.now) self.old result self.new }
    {
        match &mut self.walk {
            Walk::InMatrix(walk) => walk.next_copy(),
            Walk::ByList(walk) => walk.next_copy(file),
        }
    }
}

impl Iterator for Copies<'_> {
    type Item = Point;

    ghost next_gives = { YieldsFirst to_give };

    ghost remaining = { item_count to_give };

    /// The offset of the next copy, or `None` after the last one.
    fn next(&mut self) -> Option<Point>
        ensures steps { YieldsFirst to_give self.old result self.new }
        ensures goes { MakesProgress (λ _. ⊤) (item_count to_give) self.old result self.new }
        ensures stays { self.new.file ≡ self.old.file }
    {
        self.walk.next_copy(self.file)
    }
}

impl FusedIterator for Copies<'_> {}

/// A walk over the copies of the repetition at the place `at`, which is handed the file at each step. Only what stands before a
/// list of spaces is read here, and no copy is tested: of a repetition that is at fault the walk may give some copies all the
/// same.
pub fn open_walk(file: &[u8], at: usize) -> Result<CopyWalk, TokenFault>
    ensures opens { result ≡ begun (plan file.now at) }
    ensures gives { (ps : List Point) (n : ℕ) → repetition file.now at ≡ got ps n → LeadsTo file.now result ps }
{
    let plan = read_plan(file, at)?;
    let walk = Walk::begin(plan.value, plan.next);
    Ok(CopyWalk { walk })
}

/// A walk over the copies of the repetition at the place `at`, as an iterator. Only what stands before a list of spaces is read
/// here, and no copy is tested: of a repetition that is at fault the walk may give some copies all the same.
pub fn open_copies(file: &[u8], at: usize) -> Result<Copies<'_>, TokenFault>
    ensures opens { result ≡ opened file.entry (plan file.now at) }
    ensures gives { (ps : List Point) (n : ℕ) → repetition file.now at ≡ got ps n → OpensTo file.now result ps }
{
    let walk = open_walk(file, at)?;
    Ok(Copies { file, walk })
}
