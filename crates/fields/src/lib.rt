//! Fields of records: given in the record, or inherited from the modal variables.
//!
//! Of the bytes `01 05`, read as a layer that its info byte announces from place 0, the layer is 1 and the next field stands at
//! place 1. Where the info byte does not announce it, the layer is the variable's value and the next field stands at place 0.
//!
//! A reader takes the file and the place `at` where the field stands. One whose fault may name the whole record takes `first` too,
//! the place of the record's first byte. What a field inherits is called `variable`, or `v` where it is more than one value.

#![tactic(auto)]

mod anchor;
mod copies;
mod number;
mod reference;
mod stroke;
mod variables;
mod vertices;

pub use anchor::{Anchor, AnchorVariables, Present, read_anchor};
pub use copies::Repeated;
pub use number::{HEIGHT, Layers, SQUARE, Sides, read_layers, read_sides};
pub use reference::{
    Form, Reference, ReferenceNumber, read_reference, read_reference_number, read_reference_string,
};
pub use stroke::{Stroke, read_stroke};
pub use variables::{
    FigureVariables, LayerVariables, Modals, PathVariables, PlacementVariables, SideVariables,
    TextVariables,
};
pub use vertices::{Outline, read_outline};
