//! Point lists: the vertices of a polygon or a path, as displacements from one to the next.
//!
//! A list is its type, the number of its displacements, and the displacements. `04 02 44 09 0D` is of type 4 and has the
//! vertices (0, 0), (-4, 0) and (-2, -6), as offsets from the first.

#![tactic(auto)]

mod fill;
mod kind;
mod laws;
mod read;
mod walk;

pub use fill::fill_list;
pub use kind::{ListKind, UnknownListType};
pub use laws::{laws_of_lists, worked_examples};
pub use read::{ListSummary, read_list};
