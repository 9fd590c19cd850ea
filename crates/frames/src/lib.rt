//! The two records that frame a layout file: START, the first one, and END, the last one.
//!
//! START tells the version and the unit. END is 256 bytes long, ends the file, and may hold a checksum of it. Each of them
//! may hold the offsets of the name tables, which are read over and not used.

#![tactic(auto)]

mod end;
mod laws;
mod start;
mod table;

pub use end::{End, read_end};
pub use laws::{laws_of_frames, worked_examples};
pub use start::{Start, read_start};
