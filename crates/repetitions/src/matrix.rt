//! The box around the copies of a matrix, from its corners alone.
//!
//! `01 00 01 0A 14` has its last copy at (10, 40), and its box from (0, 0) to there.

ghost use Rattle.std.specs.Prelude.{◌≡◌, ◌^◌, ◌≤◌};
ghost use Rattle.tokens.specs.Chains.{largest};
ghost use Rattle.bounds.specs.Points.{Near};
ghost use Rattle.bounds.specs.Boxes.{bounds_of};
ghost use Rattle.repetitions.specs.Offsets.{scaled, copy_at};
ghost use Rattle.repetitions.specs.Plans.{most_copies, Sized, copies_of};
ghost use Rattle.repetitions.specs.Walks.{sized};

use crate::plan::{MOST_COPIES, Matrix};
use bounds::{Bounds, Point};
use tokens::LARGEST;

// A point k times as far.
fn scale(k: u64, p: Point) -> Point
    requires { (k ≤ most_copies) × (Near largest p) }
    ensures value { result ≡ scaled k p }
    ensures near { Near (2 ^ 60) result }
{
    let k = k as i64;
    Point {
        x: k * p.x,
        y: k * p.y,
    }
}

impl Matrix {
    // Whether a matrix is no larger than one that was read.
    pub fn is_sized(self) -> bool
        ensures { result ≡ sized self }
    {
        self.columns <= MOST_COPIES
            && self.rows <= MOST_COPIES
            && self.across.reaches(LARGEST)
            && self.up.reaches(LARGEST)
    }

    // Copy (i, j).
    pub fn copy_at(self, i: u64, j: u64) -> Point
        requires { (i ≤ most_copies) × (j ≤ most_copies) × Near largest self.across × Near largest self.up }
        ensures { result ≡ copy_at self.across self.up i j }
    {
        scale(i, self.across) + scale(j, self.up)
    }

    // The box around all copies.
    pub fn bounds(self) -> Bounds
        requires { Sized self }
        ensures around { result ≡ bounds_of (copies_of self) }
    {
        let a = scale(self.columns - 1, self.across);
        let b = scale(self.rows - 1, self.up);
        Bounds {
            left: a.x.min(0) + b.x.min(0),
            right: a.x.max(0) + b.x.max(0),
            bottom: a.y.min(0) + b.y.min(0),
            top: a.y.max(0) + b.y.max(0),
        }
    }
}
