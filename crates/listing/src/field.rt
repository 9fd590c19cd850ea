//! The fields of a line, each after a space: the number -3 is ` -3`, and the point (-3, 4) is ` -3 4`.

ghost use Rattle.std.specs.Prelude.{◌≡◌, ◌*◌, ◌^◌, ◌≤◌, [], ◌∷◌, length, decimal};
ghost use Rattle.std.specs.List.{flat_map, sum_by};
ghost use Rattle.std.specs.Fmt.{signed_decimal};
ghost use Rattle.encoding.specs.Laid.{Room, Put};
ghost use Rattle.listing.specs.Lines.{spaced, coordinates};
ghost use Rattle.listing.specs.Parts.{written, most};

use crate::number::{decimal_size, integer_size, put_decimal, put_integer};
use bounds::Point;
use encoding::Buffer;

const SPACE: u8 = b' ';

/// What stands at one place of a line.
#[derive(Clone, Copy)]
pub enum Field<'a> {
    Unsigned(u64),
    Signed(i64),
    /// A name or a text, as it is.
    Text(&'a [u8]),
    /// The coordinates of points, each after a space.
    Points(&'a [Point]),
}

// How many bytes the coordinates of points take.
fn points_size(points: &[Point]) -> u128
    ensures bytes { result ≡ length (spaced (coordinates points.now)) }
    ensures few { result ≤ 44 * length points.now }
{
    points
        .iter()
        .map(|p| integer_size(p.x) + integer_size(p.y) + 2)
        .sum()
}

// How many bytes a field takes, if there is one.
fn field_size(field: Option<Field<'_>>) -> u128
    ensures bytes { result ≡ length (spaced (written field.entry)) }
    ensures few { result ≤ most field.entry }
{
    match field {
        None => 0,
        Some(Field::Unsigned(n)) => decimal_size(n) + 1,
        Some(Field::Signed(z)) => integer_size(z) + 1,
        Some(Field::Text(bytes)) => bytes.len() as u128 + 1,
        Some(Field::Points(points)) => points_size(points),
    }
}

/// How many bytes fields take.
pub fn fields_size(fields: &[Option<Field<'_>>]) -> u128
    requires { sum_by most fields.now ≤ 2 ^ 70 }
    ensures bytes { result ≡ length (spaced (flat_map written fields.now)) }
    ensures few { result ≤ sum_by most fields.now }
{
    fields.iter().map(|f| field_size(*f)).sum()
}

// Puts a signed integer behind a space.
fn put_coordinate(out: &mut Buffer<'_>, z: i64)
    requires { Room out.old (spaced (signed_decimal z ∷ [])) }
    ensures { Put out.old (spaced (signed_decimal z ∷ [])) out.new }
{
    out.put_byte(SPACE);
    put_integer(out, z);
}

// Puts the coordinates of a point.
fn put_point(out: &mut Buffer<'_>, p: Point)
    requires { Room out.old (spaced (coordinates (p ∷ []))) }
    ensures { Put out.old (spaced (coordinates (p ∷ []))) out.new }
{
    put_coordinate(out, p.x);
    put_coordinate(out, p.y);
}

// Puts the coordinates of points.
fn put_points(out: &mut Buffer<'_>, points: &[Point])
    requires { Room out.old (spaced (coordinates points.now)) }
    ensures { Put out.old (spaced (coordinates points.now)) out.new }
{
    for p in points {
        put_point(out, *p);
    }
}

// Puts a field, if there is one. Each case puts its own space, since points have one before each coordinate.
fn put_field(out: &mut Buffer<'_>, field: Option<Field<'_>>)
    requires { Room out.old (spaced (written field)) }
    ensures { Put out.old (spaced (written field.entry)) out.new }
{
    match field {
        None => {}
        Some(Field::Unsigned(n)) => {
            out.put_byte(SPACE);
            put_decimal(out, n);
        }
        Some(Field::Signed(z)) => put_coordinate(out, z),
        Some(Field::Text(bytes)) => {
            out.put_byte(SPACE);
            out.put_bytes(bytes);
        }
        Some(Field::Points(points)) => put_points(out, points),
    }
}

/// Puts fields.
pub fn put_fields(out: &mut Buffer<'_>, fields: &[Option<Field<'_>>])
    requires { Room out.old (spaced (flat_map written fields.now)) }
    ensures puts { Put out.old (spaced (flat_map written fields.now)) out.new }
{
    for field in fields {
        put_field(out, *field);
    }
}
