//! The line of an item: its letter and its fields. The start with the unit 1000 is `S 1000`.

ghost use Rattle.std.specs.Prelude.{◌≡◌, ◌^◌, ◌≤◌, length};
ghost use Rattle.std.specs.List.{flat_map, sum_by};
ghost use Rattle.encoding.specs.Laid.{Room, Put};
ghost use Rattle.items.specs.Things.{thing_of};
ghost use Rattle.listing.specs.Lines.{letter_of, fields_of, line_of};
ghost use Rattle.listing.specs.Parts.{written, most};

use crate::field::{Field, fields_size, put_fields};
use encoding::Buffer;
use items::Item;

const LINE_FEED: u8 = b'\n';

// How many fields an item has at most, where coordinates of vertices are one.
const MOST_FIELDS: usize = 7;

// The letter of an item.
fn letter_of(item: Item<'_>) -> u8
    ensures { result ≡ letter_of (thing_of item.entry) }
{
    match item {
        Item::Start { .. } => b'S',
        Item::Cell { .. } => b'C',
        Item::Placement { .. } => b'L',
        Item::Text { .. } => b'T',
        Item::Rectangle { .. } => b'R',
        Item::Polygon { .. } => b'P',
        Item::Path { .. } => b'H',
        Item::End => b'E',
    }
}

// The fields of an item, in their order.
fn fields_of(item: Item<'_>) -> [Option<Field<'_>>; MOST_FIELDS]
    ensures fields { flat_map written result ≡ fields_of (thing_of item.entry) }
    ensures few { sum_by most result ≤ 2 ^ 70 }
{
    match item {
        Item::Start { unit } => [
            Some(Field::Unsigned(unit)),
            None,
            None,
            None,
            None,
            None,
            None,
        ],
        Item::Cell { name } => [Some(Field::Text(name)), None, None, None, None, None, None],
        Item::Placement {
            name,
            at,
            angle,
            flip,
        } => [
            Some(Field::Text(name)),
            Some(Field::Signed(at.x)),
            Some(Field::Signed(at.y)),
            Some(Field::Unsigned(u64::from(angle))),
            Some(Field::Unsigned(u64::from(flip))),
            None,
            None,
        ],
        Item::Text {
            textlayer,
            texttype,
            at,
            text,
        } => [
            Some(Field::Unsigned(textlayer)),
            Some(Field::Unsigned(texttype)),
            Some(Field::Signed(at.x)),
            Some(Field::Signed(at.y)),
            Some(Field::Text(text)),
            None,
            None,
        ],
        Item::Rectangle {
            layer,
            datatype,
            width,
            height,
            at,
        } => [
            Some(Field::Unsigned(layer)),
            Some(Field::Unsigned(datatype)),
            Some(Field::Unsigned(width)),
            Some(Field::Unsigned(height)),
            Some(Field::Signed(at.x)),
            Some(Field::Signed(at.y)),
            None,
        ],
        Item::Polygon {
            layer,
            datatype,
            vertices,
        } => [
            Some(Field::Unsigned(layer)),
            Some(Field::Unsigned(datatype)),
            Some(Field::Unsigned(vertices.len() as u64)),
            Some(Field::Points(vertices)),
            None,
            None,
            None,
        ],
        Item::Path {
            layer,
            datatype,
            half,
            start,
            end,
            vertices,
        } => [
            Some(Field::Unsigned(layer)),
            Some(Field::Unsigned(datatype)),
            Some(Field::Unsigned(half)),
            Some(Field::Signed(start)),
            Some(Field::Signed(end)),
            Some(Field::Unsigned(vertices.len() as u64)),
            Some(Field::Points(vertices)),
        ],
        Item::End => [None; MOST_FIELDS],
    }
}

/// How many bytes the line of an item takes.
pub fn line_size(item: Item<'_>) -> u128
    ensures bytes { result ≡ length (line_of (thing_of item.entry)) }
    ensures few { result ≤ 2 ^ 71 }
{
    fields_size(&fields_of(item)) + 2
}

/// Puts the line of an item into a buffer.
pub fn put_line(out: &mut Buffer<'_>, item: Item<'_>)
    requires { Room out.old (line_of (thing_of item)) }
    ensures puts { Put out.old (line_of (thing_of item.entry)) out.new }
{
    out.put_byte(letter_of(item));
    put_fields(out, &fields_of(item));
    out.put_byte(LINE_FEED);
}
