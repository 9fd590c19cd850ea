//! What the two ends of a file say: the magic bytes that it begins with, and the checksum that its last four bytes hold.

ghost use Rattle.std.specs.Prelude.{◌≡◌, ℕ, ◌≤◌, List, length, Ok, OnOk, ◌==◌};
ghost use Rattle.checksum.specs.Ends.{has_magic};
ghost use Rattle.signature.specs.Frames.{signature_of, findings, report_of, signed_by, Framed};

use checksum::{MAGIC, STORED_BYTES, checksum32, has_magic, stored_at};

/// The shortest file that has room for the magic and a checksum.
const SHORTEST: usize = MAGIC.len() + STORED_BYTES;

/// The checksum of a file's content, and the one that its last four bytes hold.
#[derive(Clone, Copy, PartialEq, Eq, Debug)]
pub struct Signature {
    pub computed: u32,
    pub stored: u32,
}

impl Signature {
    /// Whether the stored checksum is the content's.
    pub fn agrees(self) -> bool
        ensures same { result ≡ (self.computed == self.stored) }
    {
        self.computed == self.stored
    }
}

/// Why an input has no checksum to compare.
#[derive(Clone, Copy, PartialEq, Eq, Debug)]
pub enum Absence {
    /// There are no bytes at all.
    Empty,
    /// Magic and checksum need 17 bytes.
    TooShort,
    /// The input does not begin with the magic bytes.
    NoMagic,
}

/// What is said of an input.
#[derive(Clone, Copy, PartialEq, Eq, Debug)]
pub struct Report {
    /// How many bytes it has.
    pub length: usize,
    /// Whether it begins with the magic bytes.
    pub magic: bool,
    pub signature: Result<Signature, Absence>,
}

// Both checksums of a file that has room for them.
fn read_signature(file: &[u8]) -> Signature
    requires { 17 ≤ length file.now }
    ensures both { result ≡ signature_of file.now }
{
    let end = file.len() - STORED_BYTES;
    Signature {
        computed: checksum32(&file[MAGIC.len()..end]),
        stored: stored_at(file, end),
    }
}

// Both checksums of a file with or without the magic, or why there are none.
fn find_signature(file: &[u8], magic: bool) -> Result<Signature, Absence>
    requires { magic ≡ has_magic file.now }
    ensures found { result ≡ findings file.now }
    ensures framed { (body mark : List ℕ) → Framed file.now body mark → result ≡ Ok (signed_by body mark) }
    ensures unframed { OnOk result ((body : List ℕ) × (mark : List ℕ) × Framed file.now body mark) }
{
    let length = file.len();
    if length == 0 {
        Err(Absence::Empty)
    } else if length < SHORTEST {
        Err(Absence::TooShort)
    } else if magic {
        Ok(read_signature(file))
    } else {
        Err(Absence::NoMagic)
    }
}

/// What an input says of itself.
pub fn examine(file: &[u8]) -> Report
    ensures report { result ≡ report_of file.now }
    ensures framed { (body mark : List ℕ) → Framed file.now body mark → result.signature ≡ Ok (signed_by body mark) }
    ensures unframed { OnOk result.signature ((body : List ℕ) × (mark : List ℕ) × Framed file.now body mark) }
{
    let magic = has_magic(file);
    Report {
        length: file.len(),
        magic,
        signature: find_signature(file, magic),
    }
}

#[cfg(test)]
mod tests {
    use super::*;

    // The magic, the body `01 FF` and the checksum 256.
    const SMALL: [u8; 19] = [
        0x25, 0x53, 0x45, 0x4d, 0x49, 0x2d, 0x4f, 0x41, 0x53, 0x49, 0x53, 0x0d, 0x0a, 0x01, 0xff,
        0x00, 0x01, 0x00, 0x00,
    ];

    #[test]
    fn reads_both_checksums(rt: HostRuntime) {
        let signature = Signature {
            computed: 256,
            stored: 256,
        };
        assert_eq!(rt;
            examine(&SMALL),
            Report {
                length: 19,
                magic: true,
                signature: Ok(signature),
            }
        );
        assert!(rt; signature.agrees());
    }

    #[test]
    fn an_empty_body_sums_to_nothing(rt: HostRuntime) {
        let file = [
            0x25, 0x53, 0x45, 0x4d, 0x49, 0x2d, 0x4f, 0x41, 0x53, 0x49, 0x53, 0x0d, 0x0a, 1, 2, 3,
            4,
        ];
        let signature = Signature {
            computed: 0,
            stored: 0x0403_0201,
        };
        assert_eq!(rt; examine(&file).signature, Ok(signature));
        assert!(rt; !signature.agrees());
    }

    #[test]
    fn refuses_what_has_no_signature(rt: HostRuntime) {
        assert_eq!(rt; examine(&[]).signature, Err(Absence::Empty));
        assert_eq!(rt; examine(&SMALL[0..16]).signature, Err(Absence::TooShort));
        assert!(rt; examine(&SMALL[0..16]).magic);
        assert_eq!(rt; examine(&SMALL[1..19]).signature, Err(Absence::NoMagic));
        assert!(rt; !examine(&SMALL[0..12]).magic);
    }
}
