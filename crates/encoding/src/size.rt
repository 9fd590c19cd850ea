//! How many bytes a token takes: 16384 takes three, `80 80 01`.

ghost use Rattle.std.specs.Prelude.{◌≡◌, ◌≤◌, min, length};
ghost use Rattle.tokens.specs.Chains.{largest};
ghost use Rattle.tokens.specs.Encodings.{shortest, code_of, signed_bytes, g_delta_bytes, text_bytes, FitsSigned, FitsDelta};

// How many values the seven bits of a byte have. A byte that another one follows is this or more.
pub(crate) const RADIX: u64 = 128;

/// How many bytes the shortest chain for an integer has.
pub fn unsigned_size(n: u64) -> usize
    ensures bytes { result ≡ length (shortest n) }
    ensures few { (1 ≤ result) × (result ≤ 10) × (n ≤ largest → result ≤ 7) }
{
    n.checked_ilog(RADIX).map_or(1, |log| log as usize + 1)
}

/// The integer whose bit 0 is the sign of `z` and whose other bits are its size.
pub fn code_of(z: i64) -> u64
    requires { FitsSigned z }
    ensures code { result ≡ code_of z }
{
    let size = z.unsigned_abs();
    if z < 0 { 2 * size + 1 } else { 2 * size }
}

/// How many bytes a signed integer takes.
pub fn signed_size(z: i64) -> usize
    requires { FitsSigned z }
    ensures bytes { result ≡ length (signed_bytes z) }
    ensures few { (1 ≤ result) × (result ≤ 7) }
{
    unsigned_size(code_of(z))
}

/// How many bytes a g-delta of two integers takes.
pub fn g_delta_size(delta: (i64, i64)) -> usize
    requires { FitsDelta delta }
    ensures bytes { result ≡ length (g_delta_bytes delta) }
    ensures few { (2 ≤ result) × (result ≤ 14) }
{
    let (x, y) = delta;
    unsigned_size(2 * code_of(x) + 1) + signed_size(y)
}

/// How many bytes a string takes, or the greatest `usize` where they are more than that.
pub fn string_size(bytes: &[u8]) -> usize
    ensures bytes { result ≡ min (length (text_bytes bytes.now)) 18446744073709551615 }
{
    unsigned_size(bytes.len() as u64).saturating_add(bytes.len())
}
