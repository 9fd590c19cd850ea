//! A running sum. The bytes `01 FF 80` have the sum 1 + 255 + 128 = 384.

ghost use Rattle.std.specs.Prelude.{◌≡◌, ℕ, ◌+◌, ◌%◌, ◌^◌, ◌≤◌, List, [], ◌∷◌, ◌++◌, length, fold, sum};
ghost use Rattle.checksum.specs.Sums.{checksum_of, added, joined_checksum, Taken};

/// What the sum of a file is cut to: 2^32.
const MODULUS: u64 = 0x1_0000_0000;

/// A running sum over bytes.
///
/// It is kept in 64 bits. The bytes of a file, at most 4,294,967,295 of them, add up to no more than
/// 1,095,216,660,225, so nothing is cut off a file's sum; a longer run of bytes is summed modulo 2^64.
#[derive(Clone, Copy)]
pub struct Checksum {
    sum: u64,
}

impl Checksum {
    /// The sum of no bytes.
    pub const fn new() -> Self
        ensures zero { result.sum ≡ 0 }
        ensures taken { Taken result.sum [] }
    {
        Checksum { sum: 0 }
    }

    /// Adds one byte.
    pub fn add_byte(&mut self, byte: u8)
        ensures sum { self.new.sum ≡ added self.old.sum (byte ∷ []) }
        ensures taken { (past : List ℕ) → Taken self.old.sum past → Taken self.new.sum (past ++ byte ∷ []) }
    {
        self.sum = self.whole().wrapping_add(u64::from(byte));
    }

    /// Adds all bytes of a slice: the same as adding them one by one.
    pub fn add_slice(&mut self, bytes: &[u8])
        ensures sum { self.new.sum ≡ added self.old.sum bytes.now }
        ensures taken { (past : List ℕ) → Taken self.old.sum past → Taken self.new.sum (past ++ bytes.now) }
        ensures bytewise { self.new.sum ≡ fold (λ s b. added s (b ∷ [])) self.old.sum bytes.now }
        ensures uncut { self.old.sum ≡ 0 → length bytes.now ≤ 4294967295 → (self.new.sum ≡ sum bytes.now) × (self.new.sum ≤ 1095216660225) }
    {
        self.sum = bytes.iter().fold(self.whole(), |sum, byte| sum.wrapping_add(u64::from(*byte)));
    }

    // The running sum as it is kept.
    const fn whole(&self) -> u64
        ensures same { result ≡ self.now.sum }
    {
        self.sum
    }

    /// The sum, cut to 32 bits.
    pub const fn value(&self) -> u32
        ensures cut { result ≡ self.now.sum % 2 ^ 32 }
        ensures taken { (past : List ℕ) → Taken self.now.sum past → result ≡ checksum_of past }
    {
        (self.whole() % MODULUS) as u32
    }
}

/// The CHECKSUM32 of some bytes.
pub fn checksum32(bytes: &[u8]) -> u32
    ensures value { result ≡ checksum_of bytes.now }
    ensures parts { (front back : List ℕ) → bytes.now ≡ front ++ back → result ≡ joined_checksum (checksum_of front) (checksum_of back) }
{
    let mut checksum = Checksum::new();
    checksum.add_slice(bytes);
    checksum.value()
}

#[cfg(test)]
mod tests {
    use super::*;

    #[test]
    fn sums_bytes(rt: HostRuntime) {
        assert_eq!(rt; checksum32(b""), 0);
        assert_eq!(rt; checksum32(&[0x01, 0xff, 0x80]), 384);
        assert_eq!(rt; checksum32(b"OASIS"), 0x4f + 0x41 + 0x53 + 0x49 + 0x53);
    }

    #[test]
    fn slices_and_bytes_agree(rt: HostRuntime) {
        let mut slices = Checksum::new();
        slices.add_slice(&[1, 2, 250]);
        slices.add_slice(&[]);
        slices.add_slice(&[255, 255]);
        let mut bytes = Checksum::new();
        for b in [1u8, 2, 250, 255, 255] {
            bytes.add_byte(b);
        }
        assert_eq!(rt; slices.value(), 763);
        assert_eq!(rt; bytes.value(), 763);
    }

    #[test]
    fn cuts_to_32_bits(rt: HostRuntime) {
        let mut sum = Checksum { sum: 0xffff_ffff };
        sum.add_byte(2);
        assert_eq!(rt; sum.value(), 1);
        let mut whole = Checksum { sum: u64::MAX };
        whole.add_slice(&[3]);
        assert_eq!(rt; whole.value(), 2);
    }
}
