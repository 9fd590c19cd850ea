//! The run of a file: its records in order, from START to END or to the first fault.
//!
//! A file is the 13 magic bytes and then records, each directly behind the one before, up to END at the file's last byte.

#![tactic(auto)]

mod laws;
mod open;
mod pass;
mod walk;

pub use laws::laws_of_runs;
pub use open::open_file;
pub use pass::{Pass, run_pass};
pub use walk::Walk;
