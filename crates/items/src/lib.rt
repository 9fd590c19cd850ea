//! What a layout holds, handed out item by item: the start, cells, placements, texts, figures and the end.
//!
//! A drawing with one cell `A` and a rectangle in it is four items: a start, the cell `A`, the rectangle and an end.

#![tactic(auto)]

mod extent;
mod item;
mod laws;
mod stage;
mod validity;

pub use extent::box_of;
pub use item::Item;
pub use laws::{laws_of_sequences, worked_examples};
pub use stage::{Stage, stage_after};
pub use validity::is_valid;
