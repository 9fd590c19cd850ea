//! Points on the grid, the box around points, and whether points are in reach.

#![tactic(auto)]

mod bounds;
mod fit;
mod point;

pub use bounds::Bounds;
pub use fit::all_fit;
pub use point::{FAR_REACH, Point, REACH, Spot};
