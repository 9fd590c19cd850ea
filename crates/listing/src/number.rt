//! Numbers in decimal: -12 is a minus sign and the digits `12`.

ghost use Rattle.std.specs.Prelude.{◌≡◌, ◌≤◌, length, decimal};
ghost use Rattle.std.specs.Fmt.{signed_decimal};
ghost use Rattle.encoding.specs.Laid.{Room, Put};

use encoding::Buffer;

// How many digits there are.
const RADIX: u64 = 10;

const MINUS: u8 = b'-';

/// How many digits an integer has.
pub fn decimal_size(n: u64) -> u128
    ensures digits { result ≡ length (decimal n) }
    ensures few { result ≤ 20 }
{
    n.checked_ilog10().map_or(1, |log| u128::from(log) + 1)
}

/// How many bytes a signed integer takes.
pub fn integer_size(z: i64) -> u128
    ensures bytes { result ≡ length (signed_decimal z) }
    ensures few { result ≤ 21 }
{
    decimal_size(z.unsigned_abs()) + u128::from(z < 0)
}

/// Puts the digits of an integer.
pub fn put_decimal(out: &mut Buffer<'_>, n: u64)
    requires { Room out.old (decimal n) }
    ensures puts { Put out.old (decimal n) out.new }
{
    let digit = b'0' + (n % RADIX) as u8;
    if n < RADIX {
        out.put_byte(digit);
        return;
    }
    put_decimal(out, n / RADIX);
    out.put_byte(digit);
}

/// Puts a signed integer.
pub fn put_integer(out: &mut Buffer<'_>, z: i64)
    requires { Room out.old (signed_decimal z) }
    ensures puts { Put out.old (signed_decimal z) out.new }
{
    let size = z.unsigned_abs();
    if z >= 0 {
        put_decimal(out, size);
        return;
    }
    out.put_byte(MINUS);
    put_decimal(out, size);
}
