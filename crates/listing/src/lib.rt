//! The listing of items: a line of text for each.
//!
//! A rectangle on layer 1 with datatype 2, 100 wide and 50 high, at (-3, 4), is the line `R 1 2 100 50 -3 4`.

#![tactic(auto)]

mod field;
mod laws;
mod line;
mod number;

pub use laws::worked_examples;
pub use line::{line_size, put_line};
