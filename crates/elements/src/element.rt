//! What an element is, with nothing left to inherit. Point lists and repetitions stay in the file, at their places.

use bounds::Point;
use fields::{Layers, Modals, Reference, Repeated, Sides, Stroke};

/// A cell that is placed: turned by so many quarters, and flipped before that if `flip` is 1.
// Both stay numbers: a listed record prints them as numbers, and the drawing of a file is stated with them as numbers.
#[derive(Clone, Copy)]
pub struct Placement {
    pub cell: Reference,
    pub angle: u8,
    pub flip: u8,
    pub at: Point,
    pub repetition: Option<Repeated>,
}

/// A text, with its textlayer and texttype.
#[derive(Clone, Copy)]
pub struct Text {
    pub text: Reference,
    pub layers: Layers,
    pub at: Point,
    pub repetition: Option<Repeated>,
}

/// A rectangle, by its lower left corner.
#[derive(Clone, Copy)]
pub struct Rectangle {
    pub layers: Layers,
    pub sides: Sides,
    pub at: Point,
    pub repetition: Option<Repeated>,
}

/// A polygon: the place of its point list, how many vertices it has, and the first of them.
#[derive(Clone, Copy)]
pub struct Polygon {
    pub layers: Layers,
    pub list: usize,
    pub vertices: u64,
    pub at: Point,
    pub repetition: Option<Repeated>,
}

/// A path: its half-width and extensions, the place of its point list, how many vertices it has, and the first of them.
#[derive(Clone, Copy)]
pub struct Path {
    pub layers: Layers,
    pub stroke: Stroke,
    pub list: usize,
    pub vertices: u64,
    pub at: Point,
    pub repetition: Option<Repeated>,
}

/// An element of any kind.
#[derive(Clone, Copy)]
pub enum Element {
    Placement(Placement),
    Text(Text),
    Rectangle(Rectangle),
    Polygon(Polygon),
    Path(Path),
}

/// An element that was read, and the modal variables after it.
#[derive(Clone, Copy)]
pub struct Drawn {
    pub element: Element,
    pub modals: Modals,
}
