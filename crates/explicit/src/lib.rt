//! The explicit bytes of records: every field given, nothing inherited, coordinates absolute.
//!
//! `14 7B 01 02 64 32 00 00` are the explicit bytes of a rectangle on layer 1 with datatype 2, 100 wide and 50 high, at the
//! origin. They are read as that rectangle in every cell, whatever stands before them.

#![tactic(auto)]

mod laws;

pub use laws::laws_of_explicit_bytes;
