//! The order of items: a start first and only first, elements after a cell, and nothing after an end.
//!
//! Start, cell, rectangle, cell, end is in order. A rectangle right after the start is not.

ghost use Rattle.std.specs.Prelude.{◌≡◌};
ghost use Rattle.items.specs.Things.{thing_of};
ghost use Rattle.items.specs.Sequences.{following};

use crate::item::Item;

/// How far a sequence of items has come.
#[derive(Clone, Copy, PartialEq, Eq, Debug)]
pub enum Stage {
    /// Nothing has come.
    Before,
    /// The start has come, and no cell.
    Top,
    /// A cell has come, and elements may.
    Cell,
    /// The end has come.
    Ended,
}

/// The stage after an item, or none where the item may not come.
pub fn stage_after(stage: Stage, item: Item<'_>) -> Option<Stage>
    ensures follows { result ≡ following stage (thing_of item.entry) }
{
    match (stage, item) {
        (Stage::Before, Item::Start { .. }) => Some(Stage::Top),
        (Stage::Top | Stage::Cell, Item::Cell { .. }) => Some(Stage::Cell),
        (
            Stage::Cell,
            Item::Placement { .. }
            | Item::Text { .. }
            | Item::Rectangle { .. }
            | Item::Polygon { .. }
            | Item::Path { .. },
        ) => Some(Stage::Cell),
        (Stage::Top | Stage::Cell, Item::End) => Some(Stage::Ended),
        _ => None,
    }
}
