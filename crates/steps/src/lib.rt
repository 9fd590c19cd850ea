//! The records of a file, one by one: which may stand where, what each holds, and what is known after it.
//!
//! `0E 03 41 42 43` is a CELL record with the name `ABC`: the cell is open after it, and the modal variables are reset.

#![tactic(auto)]

mod dispatch;
mod fault;
mod read;
mod state;
mod step;

pub use dispatch::{Action, action_of};
pub use fault::{Fault, in_record};
pub use read::read_record;
pub use state::{Context, FileState, Found, Position, Record, RecordAt, Step};
pub use step::step_at;
