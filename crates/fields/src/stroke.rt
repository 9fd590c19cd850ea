//! The half-width of a path, and how far it extends before its first vertex and behind its last.
//!
//! An extension scheme has a code of two bits for each end. In the scheme `0B` the code of the start is 2: it extends by the
//! half-width. That of the end is 3: its extension follows as a signed integer.

ghost use Rattle.std.specs.Prelude.{◌≡◌, ◌<◌, MatchOption};
ghost use Rattle.fields.specs.Strokes.{code_of, scheme_of, extension, extensions_by, extensions, stroke};

use crate::number::{inherited, read_measure};
use crate::variables::PathVariables;
use bounds::REACH;
use tokens::{FaultKind, Read, TokenFault, has_flag, read_signed, read_unsigned, refuse};

// The flag of a path's info byte that announces a half-width.
const HALF_WIDTH: u8 = 0x40;

// The flag of a path's info byte that announces an extension scheme.
const EXTENSIONS: u8 = 0x80;

// How many codes there are for one end.
const CODES: u64 = 4;

// How the extension of one end is told.
#[derive(Clone, Copy)]
enum EndCode {
    // It is the one that was used last.
    Stored,
    // There is none.
    Flush,
    // It is the half-width.
    Half,
    // It follows as a signed integer.
    Given,
}

impl EndCode {
    // What a code says, if it is one of two bits.
    fn from_code(code: u64) -> Option<Self>
        ensures { MatchOption result (3 < code) (λ e. code_of e ≡ code) }
    {
        match code {
            0 => Some(EndCode::Stored),
            1 => Some(EndCode::Flush),
            2 => Some(EndCode::Half),
            3 => Some(EndCode::Given),
            _ => None,
        }
    }
}

// What a path has for each of its ends: its extension, or how it is told.
#[derive(Clone, Copy)]
struct Ends<T> {
    start: T,
    end: T,
}

// An extension scheme.
impl Ends<EndCode> {
    // The scheme of a path that gives none.
    const STORED: Self = Ends {
        start: EndCode::Stored,
        end: EndCode::Stored,
    };

    // What a scheme's number says, if it is one of four bits: the upper two are of the start, the lower two of the end.
    fn from_number(number: u64) -> Option<Self>
        ensures { MatchOption result (15 < number) (λ s. scheme_of s ≡ number) }
    {
        Some(Ends {
            start: EndCode::from_code(number / CODES)?,
            end: EndCode::from_code(number % CODES)?,
        })
    }
}

/// The half-width and both extensions of a path.
// The extensions stand beside the half-width: as a field of their own they would only be named twice, as in `stroke.ends.start`.
#[derive(Clone, Copy)]
pub struct Stroke {
    pub half: u64,
    pub start: i64,
    pub end: i64,
}

// The extension of one end by its code.
fn read_extension(
    file: &[u8],
    at: usize,
    first: usize,
    code: EndCode,
    half: i64,
    variable: Option<i64>,
) -> Result<Read<i64>, TokenFault>
    ensures reads { result ≡ extension file.now at first (code_of code) half variable }
{
    match code {
        EndCode::Stored => inherited(at, first, variable),
        EndCode::Flush => Ok(Read { value: 0, next: at }),
        EndCode::Half => Ok(Read {
            value: half,
            next: at,
        }),
        EndCode::Given => {
            let size = read_signed(file, at)?;
            if size.value.unsigned_abs() > REACH {
                return refuse(FaultKind::Reach, at);
            }
            Ok(size)
        }
    }
}

// Both extensions by the scheme, the start first.
#[tactic(auto, using(crate::proofs::Codes::start_code, crate::proofs::Codes::end_code))]
fn read_both(
    file: &[u8],
    at: usize,
    first: usize,
    scheme: Ends<EndCode>,
    half: i64,
    v: PathVariables,
) -> Result<Read<Ends<i64>>, TokenFault>
    ensures reads { result ≡ extensions_by file.now at first (scheme_of scheme) half v }
{
    let start = read_extension(file, at, first, scheme.start, half, v.start)?;
    let end = read_extension(file, start.next, first, scheme.end, half, v.end)?;
    Ok(end.map(|end| Ends {
        start: start.value,
        end,
    }))
}

// Both extensions, by the scheme that stands at the place `at` if it is present; else both are inherited.
fn read_extensions(
    file: &[u8],
    at: usize,
    first: usize,
    present: bool,
    half: i64,
    v: PathVariables,
) -> Result<Read<Ends<i64>>, TokenFault>
    ensures reads { result ≡ extensions file.now at first present half v }
{
    if !present {
        return read_both(file, at, first, Ends::STORED, half, v);
    }
    let number = read_unsigned(file, at)?;
    let Some(scheme) = Ends::from_number(number.value) else {
        return refuse(FaultKind::Reserved, at);
    };
    read_both(file, number.next, first, scheme, half, v)
}

/// The half-width and the extensions that the info byte announces, or those that are inherited.
pub fn read_stroke(
    file: &[u8],
    at: usize,
    first: usize,
    info: u8,
    v: PathVariables,
) -> Result<Read<Stroke>, TokenFault>
    ensures reads { result ≡ stroke file.now at first info v }
{
    let half = read_measure(file, at, first, has_flag(info, HALF_WIDTH), v.half)?;
    let size = half.value as i64;
    let ends = read_extensions(file, half.next, first, has_flag(info, EXTENSIONS), size, v)?;
    Ok(ends.map(|ends| Stroke {
        half: half.value,
        start: ends.start,
        end: ends.end,
    }))
}
