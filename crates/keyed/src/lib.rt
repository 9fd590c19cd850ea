//! One table for every kind of key: rows that are found by a key, in memory that the caller lends.
//!
//! A table means the list of its rows in the order in which their keys came first. After `(3, 0)` with `a` and `(1, 0)` with
//! `b` were inserted it is that list of two rows, and the rows of the memory behind them are as they were.

#![tactic(auto)]

mod key;
mod table;

pub use key::{Key, Zero};
pub use table::{Entry, NoRow, Table, clear_rows};
