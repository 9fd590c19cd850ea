//! The names of a file: which name records agree, and what a reference number means.
//!
//! A record without a number is numbered by how many such records of its class came before it. After the cell names `A` and
//! `B` of two such records, `B` has the number 1; a third record with the name `A` disagrees with the first.

#![tactic(auto)]

mod compare;
mod laws;
mod row;
mod table;

pub use laws::laws_of_names;
pub use row::{NameKey, NamePart, NameRow};
pub use table::Names;
