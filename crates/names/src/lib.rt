//! Names: cell names and text strings, each with a reference number.
//!
//! A name record is its string, and then its number where the record gives one. `03 41 42 43` is the name `ABC` of a record
//! that gives no number, and `03 41 42 43 05` that of one that gives 5.

#![tactic(auto)]

mod class;
mod laws;
mod read;

pub use class::{CellNames, NameClass, TextStrings};
pub use laws::laws_of_name_records;
pub use read::{NameFields, read_name};
