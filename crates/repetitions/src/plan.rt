//! The plan of a repetition: its type, its dimensions, and what stands before a list of spaces.
//!
//! `01 00 01 0A 14` plans a matrix of two columns and three rows. `05 01 0A 03 04` plans two spaces across on a grid of 10,
//! which stand from its place 3 on.

ghost use Rattle.std.specs.Prelude.{◌≡◌, ◌+◌, ◌*◌, ◌≤◌, nat_le, IfOk};
ghost use Rattle.repetitions.specs.Plans.{most_copies, matrix_at, dimension_at, line_at, grid_at, list_at, plan_from, plan};

use crate::space::{Axis, read_space};
use bounds::Point;
use tokens::{FaultKind, Read, TokenFault, read_unsigned, refuse};

/// The most copies that a repetition may have.
pub const MOST_COPIES: u64 = 65_536;

// A dimension counts the copies on its axis, but two of them.
const UNCOUNTED: u64 = 2;

// The types. Those on a grid have a list of spaces, each times the grid; the spaced ones have a list too.
const MATRIX: u64 = 1;

const ROW: u64 = 2;

const COLUMN: u64 = 3;

const SPACED_ROW: u64 = 4;

const GRID_ROW: u64 = 5;

const SPACED_COLUMN: u64 = 6;

const GRID_COLUMN: u64 = 7;

const SLANTED_MATRIX: u64 = 8;

const SLANTED_LINE: u64 = 9;

const SPACED_FREELY: u64 = 10;

const GRID_FREELY: u64 = 11;

// That a matrix was read stands in no ghost field: the definition of a plan builds it, and would carry the proof of each bound.
// Copies in columns and rows: copy (i, j) is i times `across` and j times `up` from the first.
#[derive(Clone, Copy)]
pub struct Matrix {
    pub columns: u64,
    pub rows: u64,
    pub across: Point,
    pub up: Point,
}

// Copies by a list of spaces: each is a space, times the grid, from the one before.
#[derive(Clone, Copy)]
pub struct Listing {
    pub axis: Axis,
    pub spaces: u64,
    pub grid: u64,
}

// What stands in a repetition before its list of spaces, if it has one.
#[derive(Clone, Copy)]
pub enum Plan {
    Uniform(Matrix),
    Listed(Listing),
}

// Whether a matrix of two dimensions has few enough copies.
fn is_few(n: u64, m: u64) -> bool
    ensures { result ≡ nat_le ((n + 2) * (m + 2)) most_copies }
{
    n.saturating_add(UNCOUNTED)
        .saturating_mul(m.saturating_add(UNCOUNTED))
        <= MOST_COPIES
}

// A matrix whose dimensions stand at the place `at`, and its two spaces after them.
#[tactic(auto, unfolding(crate::specs::Plans::matrix_at))]
fn read_matrix(file: &[u8], at: usize, a: Axis, b: Axis) -> Result<Read<Plan>, TokenFault>
    ensures { result ≡ matrix_at a b file.now at }
{
    let n = read_unsigned(file, at)?;
    let m = read_unsigned(file, n.next)?;
    if !is_few(n.value, m.value) {
        return refuse(FaultKind::Copies, n.next);
    }
    let across = read_space(file, m.next, a)?;
    let up = read_space(file, across.next, b)?;
    let columns = n.value + UNCOUNTED;
    let rows = m.value + UNCOUNTED;
    let across = across.value;
    Ok(up.map(|up| Plan::Uniform(Matrix {
        columns,
        rows,
        across,
        up,
    })))
}

// The dimension at the place `at`, where it is the only one.
#[tactic(auto, unfolding(crate::specs::Plans::dimension_at))]
fn read_dimension(file: &[u8], at: usize) -> Result<Read<u64>, TokenFault>
    ensures reads { result ≡ dimension_at file.now at }
    ensures few { IfOk result (λ n. n.value + 2 ≤ most_copies) }
{
    let n = read_unsigned(file, at)?;
    if n.value + UNCOUNTED > MOST_COPIES {
        return refuse(FaultKind::Copies, at);
    }
    Ok(n)
}

// A line whose dimension stands at the place `at`, and its space after it: a matrix of one row.
#[tactic(auto, unfolding(crate::specs::Plans::line_at))]
fn read_line(file: &[u8], at: usize, axis: Axis) -> Result<Read<Plan>, TokenFault>
    ensures { result ≡ line_at axis file.now at }
{
    let n = read_dimension(file, at)?;
    let space = read_space(file, n.next, axis)?;
    let columns = n.value + UNCOUNTED;
    let up = Point::ORIGIN;
    Ok(space.map(|across| Plan::Uniform(Matrix {
        columns,
        rows: 1,
        across,
        up,
    })))
}

// The grid at the place `at`, or 1 where none is given. A flag and no closure: the types differ in this yes or no alone.
#[tactic(auto, unfolding(crate::specs::Plans::grid_at))]
fn read_grid(file: &[u8], at: usize, gridded: bool) -> Result<Read<u64>, TokenFault>
    ensures { result ≡ grid_at gridded file.now at }
{
    if gridded {
        return read_unsigned(file, at);
    }
    Ok(Read { value: 1, next: at })
}

// A list whose dimension stands at the place `at`, and after it a grid where one is given.
#[tactic(auto, unfolding(crate::specs::Plans::list_at))]
fn read_listing(file: &[u8], at: usize, axis: Axis, gridded: bool) -> Result<Read<Plan>, TokenFault>
    ensures { result ≡ list_at axis gridded file.now at }
{
    let n = read_dimension(file, at)?;
    let grid = read_grid(file, n.next, gridded)?;
    let spaces = n.value + 1;
    Ok(grid.map(|grid| Plan::Listed(Listing { axis, spaces, grid })))
}

// The plan of a repetition of the type `kind`, which stands at the place `first`. Its dimensions stand at the place `at`. It is a
// rule of the project that all types are told apart in one match over their numbers.
fn read_planned(file: &[u8], first: usize, kind: u64, at: usize) -> Result<Read<Plan>, TokenFault>
    ensures { result ≡ plan_from file.now first kind at }
{
    match kind {
        MATRIX => read_matrix(file, at, Axis::Across, Axis::Up),
        ROW => read_line(file, at, Axis::Across),
        COLUMN => read_line(file, at, Axis::Up),
        SPACED_ROW => read_listing(file, at, Axis::Across, false),
        GRID_ROW => read_listing(file, at, Axis::Across, true),
        SPACED_COLUMN => read_listing(file, at, Axis::Up, false),
        GRID_COLUMN => read_listing(file, at, Axis::Up, true),
        SLANTED_MATRIX => read_matrix(file, at, Axis::Both, Axis::Both),
        SLANTED_LINE => read_line(file, at, Axis::Both),
        SPACED_FREELY => read_listing(file, at, Axis::Both, false),
        GRID_FREELY => read_listing(file, at, Axis::Both, true),
        _ => refuse(FaultKind::BadType, first),
    }
}

// The plan of the repetition at the place `at`.
#[tactic(auto, unfolding(crate::specs::Plans::plan))]
pub fn read_plan(file: &[u8], at: usize) -> Result<Read<Plan>, TokenFault>
    ensures reads { result ≡ plan file.now at }
{
    let kind = read_unsigned(file, at)?;
    read_planned(file, at, kind.value, kind.next)
}
