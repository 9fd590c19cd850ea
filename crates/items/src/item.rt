//! The items. A rectangle on layer 1 with datatype 2, 100 wide and 50 high, at the origin, is
//! `Item::rectangle(1, 2, 100, 50, Point { x: 0, y: 0 })`.

ghost use Rattle.std.specs.Prelude.{◌≡◌};
ghost use Rattle.items.specs.Things.{thing_of, a_start, a_rectangle, an_end};

use bounds::Point;

/// One thing that is handed out. Names and texts are bytes.
#[derive(Clone, Copy, PartialEq, Eq, Debug)]
pub enum Item<'a> {
    /// The beginning of a drawing, with its unit.
    Start {
        unit: u64,
    },
    /// The beginning of a cell.
    Cell {
        name: &'a [u8],
    },
    /// A copy of the cell of that name, turned by quarters and flipped.
    Placement {
        name: &'a [u8],
        at: Point,
        // The angle and the flip stay numbers: a caller may give any, and `is_valid` tells which a file can hold.
        angle: u8,
        flip: u8,
    },
    /// A text at a place.
    Text {
        textlayer: u64,
        texttype: u64,
        at: Point,
        text: &'a [u8],
    },
    /// A rectangle, by its lower left corner and its size.
    Rectangle {
        layer: u64,
        datatype: u64,
        width: u64,
        height: u64,
        at: Point,
    },
    /// A polygon, by its vertices.
    Polygon {
        layer: u64,
        datatype: u64,
        vertices: &'a [Point],
    },
    /// A path, by its middle line, half its width, and how far it goes on at both ends.
    Path {
        layer: u64,
        datatype: u64,
        half: u64,
        start: i64,
        end: i64,
        vertices: &'a [Point],
    },
    /// The end of the drawing.
    End,
}

// The items that borrow nothing, at any lifetime.
impl<'a> Item<'a> {
    /// The beginning of a drawing.
    pub fn start(unit: u64) -> Item<'a>
        ensures means { thing_of result ≡ a_start unit }
    {
        Item::Start { unit }
    }

    /// A rectangle.
    pub fn rectangle(layer: u64, datatype: u64, width: u64, height: u64, at: Point) -> Item<'a>
        ensures means { thing_of result ≡ a_rectangle layer datatype width height at }
    {
        Item::Rectangle {
            layer,
            datatype,
            width,
            height,
            at,
        }
    }

    /// The end of a drawing.
    pub fn end() -> Item<'a>
        ensures means { thing_of result ≡ an_end }
    {
        Item::End
    }
}
