//! The records of elements: placements, texts, rectangles, polygons and paths.
//!
//! Each is an info byte, whose flags say which fields are present, and then the fields. `7B 01 02 64 32 00 00` is a rectangle
//! on layer 1 with datatype 2, 100 wide and 50 high, at the origin; `00` after it is the same rectangle again.

#![tactic(auto)]

mod element;
mod figure;
mod info;
mod laws;
mod name;

pub use element::{Drawn, Element, Path, Placement, Polygon, Rectangle, Text};
pub use figure::{read_path, read_polygon, read_rectangle};
pub use laws::laws_of_elements;
pub use name::{read_placement, read_text};
