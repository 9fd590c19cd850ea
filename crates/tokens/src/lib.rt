//! The tokens of a layout file: integers, deltas, info bytes, strings and the unit, each read at a place of the file.
//!
//! A reader takes the whole file and a place in it. It answers the value that stands there with the place after it,
//! or a fault with its kind and its place.

#![tactic(auto)]

mod byte;
mod delta;
mod fault;
mod integer;
mod laws;
mod part;
mod text;
mod unit;

pub use byte::{has_flag, read_byte};
pub use delta::{read_g_delta, read_three_delta, read_two_delta};
pub use fault::{FaultKind, Read, TokenFault, refuse};
pub use integer::{CHAIN_BYTES, LARGEST, read_signed, read_unsigned, signed_of};
pub use laws::{
    laws_of_chains, laws_of_encodings, laws_of_faults, laws_of_readers, worked_examples,
};
pub use part::{Part, read_part};
pub use text::{StringRule, obeys, read_string};
pub use unit::read_unit;
