//! Says whether a file carries the OASIS magic and whether its stored checksum is its content's.
//!
//! The file comes on standard input; the answer is one fact a line.

#![tactic(auto)]

mod report;
mod text;

use std::io;
use std::io::Read;

fn main(rt: HostRuntime) -> io::Result<()> {
    let mut file = Vec::new(rt.alloc());
    rt.stdin().read_to_end(&mut file)?;
    let report = report::examine(file.as_slice());
    rt.print(text::text_of(rt.alloc(), report)?)
}
