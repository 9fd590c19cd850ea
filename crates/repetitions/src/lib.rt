//! Repetitions: the offsets of the copies of a figure, from its first copy.
//!
//! `01 00 01 0A 14` is a matrix of two columns, 10 apart, and three rows, 20 apart: six copies.

#![tactic(auto)]

mod copies;
mod laws;
mod matrix;
mod plan;
mod space;
mod spread;
mod summary;

pub use copies::{Copies, CopyWalk, open_copies, open_walk};
pub use laws::laws_of_repetitions;
pub use plan::MOST_COPIES;
pub use summary::{Summary, read_repetition};
