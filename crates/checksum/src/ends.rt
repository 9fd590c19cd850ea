//! The two ends of a file: it begins with 13 magic bytes, `%SEMI-OASIS` and a line end, and one with a checksum ends with four
//! bytes that hold it, low byte first. `7F 02 00 00` is 639.

ghost use Rattle.std.specs.Prelude.{◌≡◌, take, drop, slice_index};
ghost use Rattle.checksum.specs.Ends.{has_magic, low_first};

/// The bytes that every file begins with. The checksum counts from behind them.
pub const MAGIC: [u8; 13] = *b"%SEMI-OASIS\r\n";

/// How many bytes hold a checksum.
pub const STORED_BYTES: usize = 4;

/// Whether a file begins with the magic bytes.
pub fn has_magic(file: &[u8]) -> bool
    ensures begins { result ≡ has_magic file.now }
{
    file.starts_with(&MAGIC)
}

// Byte k of some bytes, or 0 where there are not so many.
fn byte(bytes: &[u8], k: usize) -> u8
    ensures { result ≡ slice_index bytes.now k }
{
    bytes.get(k).copied().unwrap_or(0)
}

/// The checksum that the four bytes from the place `at` hold. Bytes behind the end of the file count as zeros.
pub fn stored_at(file: &[u8], at: usize) -> u32
    ensures holds { result ≡ low_first (take 4 (drop at file.now)) }
{
    let rest = file.get(at..).unwrap_or(&[]);
    u32::from_le_bytes([byte(rest, 0), byte(rest, 1), byte(rest, 2), byte(rest, 3)])
}

#[cfg(test)]
mod tests {
    use super::*;

    #[test]
    fn bytes_behind_the_end_are_zeros(rt: HostRuntime) {
        let file = [1, 2, 3, 4, 5];
        assert_eq!(rt; stored_at(&file, 0), 0x0403_0201);
        assert_eq!(rt; stored_at(&file, 1), 0x0504_0302);
        assert_eq!(rt; stored_at(&file, 2), 0x0005_0403);
        assert_eq!(rt; stored_at(&file, 4), 5);
        assert_eq!(rt; stored_at(&file, 5), 0);
        assert_eq!(rt; stored_at(&file, 6), 0);
        assert_eq!(rt; stored_at(&file, usize::MAX), 0);
    }
}
