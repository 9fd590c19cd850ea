//! CHECKSUM32, the validation sum of a file: all its bytes from the first record on are added up,
//! and the sum is cut to 32 bits.
//!
//! The first record stands behind the magic bytes, and the sum itself is stored in four bytes, low byte first.

#![tactic(auto)]

mod ends;
mod sum;

pub use ends::{MAGIC, STORED_BYTES, has_magic, stored_at};
pub use sum::{Checksum, checksum32};
