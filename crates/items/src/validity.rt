//! Which items a file can give. A unit is 1 to `LARGEST`, a flip is 0 or 1, and a polygon has three vertices at least.

ghost use Rattle.std.specs.Prelude.{◌≡◌, Decides};
ghost use Rattle.bounds.specs.Points.{reach, all_within};
ghost use Rattle.items.specs.Things.{thing_of};
ghost use Rattle.items.specs.Validity.{at_most, turned, held, drawn, valid, Valid};

use crate::item::Item;
use bounds::{Point, REACH};
use tokens::{LARGEST, StringRule, obeys};

// The greatest angle, in quarter turns.
const LAST_ANGLE: u8 = 3;

// The fewest vertices of a polygon, and of a path.
const POLYGON_VERTICES: u64 = 3;

const PATH_VERTICES: u64 = 1;

/// Whether both numbers are `most` at most.
pub fn are_at_most(most: u64, a: u64, b: u64) -> bool
    ensures tests { result ≡ at_most most a b }
{
    a <= most && b <= most
}

// Whether these are an angle and a flip.
fn is_turn(angle: u8, flip: u8) -> bool
    ensures { result ≡ turned angle flip }
{
    angle <= LAST_ANGLE && flip <= 1
}

// Whether a string of a file that obeys the rule can hold the bytes.
fn is_string(bytes: &[u8], rule: StringRule) -> bool
    ensures { result ≡ held rule bytes.now }
{
    obeys(bytes, rule) && bytes.len() as u64 <= LARGEST
}

// Whether all points are in reach.
fn are_near(points: &[Point]) -> bool
    ensures { result ≡ all_within reach points.now }
{
    points.iter().all(|p| p.reaches(REACH))
}

// Whether these are the vertices of a figure that has `few` at least.
fn are_vertices(points: &[Point], few: u64) -> bool
    ensures { result ≡ drawn few points.now }
{
    let count = points.len() as u64;
    few <= count && count <= LARGEST + 1 && are_near(points)
}

// Whether the fields of an item are what its kind wants. In `is_valid` itself its law stays open at six of the returns.
fn are_fields(item: Item<'_>) -> bool
    ensures { result ≡ valid (thing_of item.entry) }
{
    match item {
        Item::Start { unit } => 1 <= unit && unit <= LARGEST,
        Item::Cell { name } => is_string(name, StringRule::Name),
        Item::Placement {
            name,
            at,
            angle,
            flip,
        } => is_string(name, StringRule::Name) && at.reaches(REACH) && is_turn(angle, flip),
        Item::Text {
            textlayer,
            texttype,
            at,
            text,
        } => are_at_most(LARGEST, textlayer, texttype)
            && at.reaches(REACH)
            && is_string(text, StringRule::Ascii),
        Item::Rectangle {
            layer,
            datatype,
            width,
            height,
            at,
        } => are_at_most(LARGEST, layer, datatype)
            && are_at_most(REACH, width, height)
            && at.reaches(REACH),
        Item::Polygon {
            layer,
            datatype,
            vertices,
        } => are_at_most(LARGEST, layer, datatype) && are_vertices(vertices, POLYGON_VERTICES),
        Item::Path {
            layer,
            datatype,
            half,
            start,
            end,
            vertices,
        } => {
            are_at_most(LARGEST, layer, datatype)
                && half <= REACH
                && are_at_most(REACH, start.unsigned_abs(), end.unsigned_abs())
                && are_vertices(vertices, PATH_VERTICES)
        }
        Item::End => true,
    }
}

/// Whether a file can give the item.
pub fn is_valid(item: Item<'_>) -> bool
    ensures tests { result ≡ valid (thing_of item.entry) }
    ensures law { Decides result (Valid (thing_of item.entry)) }
{
    are_fields(item)
}
