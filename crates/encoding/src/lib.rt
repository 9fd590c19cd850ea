//! Tokens put into a lent buffer, each in its shortest form.
//!
//! A method puts a token at the place of the buffer, and moves the place behind it. The caller has tested the room, for
//! which there is a size of each token. All other bytes of the buffer stay as they were.

#![tactic(auto)]

mod put;
mod size;

pub use put::Buffer;
pub use size::{code_of, g_delta_size, signed_size, string_size, unsigned_size};
