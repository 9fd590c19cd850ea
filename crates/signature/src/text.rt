//! The report as text, one fact a line.

ghost use Rattle.std.specs.Prelude.{◌≡◌, Some, IfOk, string_bytes};
ghost use Rattle.signature.specs.Lines.{yes_no, reason_of, checksum_lines, text_of};

use crate::report::{Absence, Report, Signature};
use std::alloc::{AllocError, Global};
use std::fmt;

fn yes_no(answer: bool) -> &'static str
    ensures word { result.now ≡ yes_no answer }
{
    if answer { "yes" } else { "no" }
}

impl fmt::Display for Absence {
    ghost output = { λ a. Some (reason_of a) };

    fn fmt<W: fmt::Write>(&self, f: &mut fmt::Formatter<W>) -> fmt::Result {
        f.write_str(match self {
            Absence::Empty => "the input is empty",
            Absence::TooShort => "the input has fewer than 17 bytes",
            Absence::NoMagic => "the input does not begin with the magic bytes",
        })
    }
}

/// The lines of both checksums.
impl fmt::Display for Signature {
    ghost output = { λ s. Some (checksum_lines s) };

    fn fmt<W: fmt::Write>(&self, f: &mut fmt::Formatter<W>) -> fmt::Result {
        let computed = self.computed;
        let stored = self.stored;
        let agree = yes_no(self.agrees());
        write!(
            f,
            "checksum: {computed}\nstored: {stored}\nagree: {agree}\n"
        )
    }
}

/// The lines of a report.
impl fmt::Display for Report {
    ghost output = { λ r. Some (text_of r) };

    fn fmt<W: fmt::Write>(&self, f: &mut fmt::Formatter<W>) -> fmt::Result {
        let length = self.length;
        let magic = yes_no(self.magic);
        match self.signature {
            Ok(signature) => write!(f, "bytes: {length}\nmagic: {magic}\n{signature}"),
            Err(absence) => write!(
                f,
                "bytes: {length}\nmagic: {magic}\nsignature: none, {absence}\n"
            ),
        }
    }
}

/// The lines of a report, made whole before any of them is printed: what is printed is the text, or nothing.
pub fn text_of(heap: Global, report: Report) -> Result<String, AllocError>
    ensures text { IfOk result (λ s. string_bytes s ≡ text_of report) }
{
    format!(in heap; "{report}")
}
