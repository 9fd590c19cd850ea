//! Bytes and tokens put into a buffer. The integer 16384 at the place 2 fills the places 2, 3 and 4 with `80 80 01`.

ghost use Rattle.std.specs.Prelude.{◌≡◌, ◌<◌, ◌≤◌, [], ◌∷◌, length};
ghost use Rattle.tokens.specs.declared.text.StringRule.{StringRule};
ghost use Rattle.tokens.specs.Answers.{got};
ghost use Rattle.tokens.specs.Chains.{largest, unsigned};
ghost use Rattle.tokens.specs.Deltas.{signed, g_delta};
ghost use Rattle.tokens.specs.Texts.{text};
ghost use Rattle.tokens.specs.Encodings.{shortest, signed_bytes, g_delta_bytes, text_bytes, FitsSigned, FitsDelta, FitsText};
ghost use Rattle.encoding.specs.Laid.{Room, Put};

use crate::size::{RADIX, code_of};

/// A lent buffer, and the place at which the next byte goes.
// It has no model: contracts name all bytes of the buffer, and these are the fields.
#[derive(Drop)]
pub struct Buffer<'b> {
    bytes: &'b mut [u8],
    at: usize,
}

impl<'b> Buffer<'b> {
    /// The buffer whose next byte goes at a place of these bytes, which stay as they are.
    pub fn new(bytes: &'b mut [u8], at: usize) -> Buffer<'b>
        ensures bytes { result.bytes.now ≡ bytes.old }
        ensures place { result.at ≡ at }
        ensures lender { result.bytes.ghost_name ≡ bytes.entry.ghost_name }
    {
        Buffer { bytes, at }
    }

    /// The place at which the next byte goes.
    pub fn at(&self) -> usize
        ensures place { result ≡ self.now.at }
    {
        self.at
    }

    /// Puts one byte.
    pub fn put_byte(&mut self, byte: u8)
        requires { self.old.at < length self.old.bytes.now }
        ensures puts { Put self.old (byte ∷ []) self.new }
    {
        self.bytes[self.at] = byte;
        self.at += 1;
    }

    /// Puts bytes as they are.
    pub fn put_bytes(&mut self, bytes: &[u8])
        requires { Room self.old bytes.now }
        ensures puts { Put self.old bytes.now self.new }
    {
        let end = self.at + bytes.len();
        self.bytes[self.at..end].copy_from_slice(bytes);
        self.at = end;
    }

    /// Puts the shortest chain for an integer.
    pub fn put_unsigned(&mut self, n: u64)
        requires { Room self.old (shortest n) }
        ensures puts { Put self.old (shortest n) self.new }
        ensures again { n ≤ largest → unsigned self.new.bytes.now self.old.at ≡ got n self.new.at }
    {
        let mut left = n;
        while left >= RADIX {
            self.put_byte((left % RADIX + RADIX) as u8);
            left /= RADIX;
        }
        self.put_byte(left as u8);
    }

    /// Puts a signed integer that a file can hold.
    pub fn put_signed(&mut self, z: i64)
        requires fits { FitsSigned z }
        requires room { Room self.old (signed_bytes z) }
        ensures puts { Put self.old (signed_bytes z) self.new }
        ensures again { signed self.new.bytes.now self.old.at ≡ got z self.new.at }
    {
        self.put_unsigned(code_of(z));
    }

    /// Puts a displacement as a g-delta of two integers.
    pub fn put_g_delta(&mut self, delta: (i64, i64))
        requires fits { FitsDelta delta }
        requires room { Room self.old (g_delta_bytes delta) }
        ensures puts { Put self.old (g_delta_bytes delta) self.new }
        ensures again { g_delta self.new.bytes.now self.old.at ≡ got delta self.new.at }
    {
        let (x, y) = delta;
        self.put_unsigned(2 * code_of(x) + 1);
        self.put_signed(y);
    }

    /// Puts a string: the length of its text, then the text.
    pub fn put_string(&mut self, bytes: &[u8])
        requires { Room self.old (text_bytes bytes.now) }
        ensures puts { Put self.old (text_bytes bytes.now) self.new }
        ensures again { (rule : StringRule) → FitsText rule bytes.now → text rule self.new.bytes.now self.old.at ≡ got bytes.now self.new.at }
    {
        self.put_unsigned(bytes.len() as u64);
        self.put_bytes(bytes);
    }
}
