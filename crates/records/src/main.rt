//! Lists the records of an OASIS file, a line for each.
//!
//! The file comes on standard input, at most 65,536 bytes. A line has the place of the record's first byte, its ID and its
//! fields; behind the last record that could be read, a line with an `F` says what is at fault.

#![tactic(auto)]

mod listing;
mod numbers;
mod text;

use std::io;
use std::io::{Read, Write};

// One byte more than a file may have, so that a longer one shows.
const ENOUGH: u64 = listing::LONGEST as u64 + 1;

fn main(rt: HostRuntime) -> io::Result<()> {
    let mut file = Vec::new(rt.alloc());
    rt.stdin().take(ENOUGH).read_to_end(&mut file)?;
    let lines = listing::listing(rt.alloc(), file.as_slice())?;
    rt.stdout().write_all(lines.as_slice())
}
