//! END: the table offsets where they were not in START, a padding string, the validation scheme, and the signature.
//!
//! After the record-ID, `F8 01` and 248 times `00` are the padding, `02` is the scheme CHECKSUM32, and `7F 02 00 00` is
//! the signature 639. With its ID the record has 256 bytes.

ghost use Rattle.std.specs.Prelude.{◌≡◌, ◌+◌, ◌<◌, ◌≤◌, ◌&&◌, length, IfOk, ◌==◌};
ghost use Rattle.frames.specs.Ends.{end_size, last_scheme, scheme_of, signature_of, stored_at, validation_at, sum_to, ended, end};

use crate::table::read_tables;
use checksum::{MAGIC, STORED_BYTES, checksum32, stored_at};
use tokens::{FaultKind, Read, StringRule, TokenFault, read_string, read_unsigned, refuse};

// The place of the first record, behind the magic bytes. The checksum begins here.
const FIRST_RECORD: usize = MAGIC.len();

// How many bytes END has, with its record-ID.
const END_SIZE: usize = 256;

// The scheme of a file without a signature.
const UNSIGNED: u64 = 0;

// The scheme of a file with a CRC.
const CRC32: u64 = 1;

// The scheme of a file with a checksum.
const CHECKSUM32: u64 = 2;

/// What END tells: the validation scheme, with the signature that is stored, low byte first.
#[derive(Clone, Copy, PartialEq, Eq, Debug)]
pub enum End {
    /// There is no signature.
    Unsigned,
    /// The signature is a CRC, which is not compared with the file.
    Crc32(u32),
    /// The signature is the checksum of the file.
    Checksum32(u32),
}

impl End {
    /// The number of the validation scheme: 0 for none, 1 for a CRC, or 2 for a checksum.
    pub fn scheme(self) -> u64
        ensures numbers { result ≡ scheme_of self }
    {
        match self {
            End::Unsigned => UNSIGNED,
            End::Crc32(_) => CRC32,
            End::Checksum32(_) => CHECKSUM32,
        }
    }

    /// The stored signature; 0 where there is none.
    pub fn signature(self) -> u32
        ensures stored { result ≡ signature_of self }
    {
        match self {
            End::Unsigned => 0,
            End::Crc32(signature) | End::Checksum32(signature) => signature,
        }
    }
}

// The signature in the four bytes at the place `at`.
#[tactic(auto, unfolding(crate::specs::Ends::stored_at))]
fn read_signature(file: &[u8], at: usize) -> Result<Read<u32>, TokenFault>
    requires { at ≤ length file.now }
    ensures reads { result ≡ stored_at file.now at }
{
    if file.len() - at < STORED_BYTES {
        return refuse(FaultKind::Cut, at);
    }
    Ok(Read {
        value: stored_at(file, at),
        next: at + STORED_BYTES,
    })
}

// The validation scheme at the place `at`, and its signature.
#[tactic(auto, unfolding(crate::specs::Ends::scheme_at, crate::specs::Ends::signature_at, crate::specs::Ends::validation_at))]
fn read_validation(file: &[u8], at: usize) -> Result<Read<End>, TokenFault>
    ensures reads { result ≡ validation_at file.now at }
{
    let scheme = read_unsigned(file, at)?;
    match scheme.value {
        UNSIGNED => Ok(scheme.with(End::Unsigned)),
        CRC32 => Ok(read_signature(file, scheme.next)?.map(End::Crc32)),
        CHECKSUM32 => Ok(read_signature(file, scheme.next)?.map(End::Checksum32)),
        _ => refuse(FaultKind::BadType, at),
    }
}

// The checksum of the file from its first record to the place `at`. The closure names a function of another crate, which the check
// takes as a value only where it stands in that crate's root.
#[tactic(auto, unfolding(crate::specs::Ends::sum_to))]
fn sum_to(file: &[u8], at: usize) -> u32
    requires { at ≤ length file.now }
    ensures { result ≡ sum_to file.now at }
{
    file.get(FIRST_RECORD..at)
        .map_or(0, |bytes| checksum32(bytes))
}

// Whether a record from the place `first` to the place `next` has the size of END, and ends the file.
fn ends_file(file: &[u8], first: usize, next: usize) -> bool
    ensures { result ≡ (next == first + end_size && next == length file.now) }
{
    first.checked_add(END_SIZE) == Some(next) && next == file.len()
}

// The last tests: END ends the file, and a checksum is the file's.
#[tactic(auto, unfolding(crate::specs::Ends::ended))]
fn finish(file: &[u8], first: usize, end: Read<End>) -> Result<Read<End>, TokenFault>
    ensures { result ≡ ended file.now first end.value end.next }
{
    if !ends_file(file, first, end.next) {
        return refuse(FaultKind::BadEnd, first);
    }
    if let End::Checksum32(stored) = end.value {
        let place = end.next - STORED_BYTES;
        if stored != sum_to(file, place) {
            return refuse(FaultKind::Checksum, place);
        }
    }
    Ok(end)
}

/// The fields of END, which stand from the place `at` on, in a record whose first byte is at the place `first`.
/// The table offsets stand here if START said so, by `late`.
#[tactic(auto, unfolding(crate::specs::Ends::end))]
pub fn read_end(file: &[u8], at: usize, first: usize, late: bool) -> Result<Read<End>, TokenFault>
    ensures reads { result ≡ end file.now at first late }
    ensures within { IfOk result (λ x. (scheme_of x.value ≤ last_scheme) × (at < x.next) × (x.next ≡ first + end_size) × (x.next ≡ length file.now)) }
{
    let tables = read_tables(file, at, late)?;
    let padding = read_string(file, tables.next, StringRule::Binary)?;
    let end = read_validation(file, padding.next)?;
    finish(file, first, end)
}

#[cfg(test)]
mod tests {
    use super::*;

    // Reads an END behind 13 bytes, with a padding of 248 bytes, in a file of 269 bytes or one more.
    fn answer(
        scheme: u8,
        signature: [u8; 4],
        longer: bool,
        first: usize,
    ) -> Result<Read<End>, TokenFault> {
        let mut file: [u8; 270] = [0; 270];
        file[13] = 2;
        file[14] = 0xf8;
        file[15] = 1;
        file[264] = scheme;
        file[265] = signature[0];
        file[266] = signature[1];
        file[267] = signature[2];
        file[268] = signature[3];
        if longer {
            return read_end(&file, 14, first, false);
        }
        read_end(&file[0..269], 14, first, false)
    }

    #[test]
    fn the_checksum_is_compared(rt: HostRuntime) {
        assert_eq!(rt;
            answer(2, [0xfd, 0, 0, 0], false, 13),
            Ok(Read {
                value: End::Checksum32(253),
                next: 269
            })
        );
        assert_eq!(rt;
            answer(2, [0xfe, 0, 0, 0], false, 13)
                .err()
                .map(TokenFault::told),
            Some((19, 265))
        );
        assert_eq!(rt;
            answer(2, [0, 0, 0, 0xfd], false, 13)
                .err()
                .map(TokenFault::told),
            Some((19, 265))
        );
        assert_eq!(rt;
            answer(1, [1, 2, 3, 4], false, 13),
            Ok(Read {
                value: End::Crc32(0x0403_0201),
                next: 269
            })
        );
    }

    #[test]
    fn the_end_is_the_end(rt: HostRuntime) {
        assert_eq!(rt;
            answer(2, [0xfd, 0, 0, 0], true, 13)
                .err()
                .map(TokenFault::told),
            Some((18, 13))
        );
        assert_eq!(rt;
            answer(2, [0xfe, 0, 0, 0], true, 13)
                .err()
                .map(TokenFault::told),
            Some((18, 13))
        );
        assert_eq!(rt;
            answer(2, [0xfd, 0, 0, 0], false, 12)
                .err()
                .map(TokenFault::told),
            Some((18, 12))
        );
        assert_eq!(rt;
            answer(3, [0, 0, 0, 0], false, 13)
                .err()
                .map(TokenFault::told),
            Some((11, 264))
        );
        assert_eq!(rt;
            answer(2, [0xfd, 0, 0, 0], false, usize::MAX)
                .err()
                .map(TokenFault::told),
            Some((18, usize::MAX))
        );
    }
}
