//! What the records of a file draw, and the explicit bytes of items, as promises of a function that does nothing.
//!
//! The rectangle on layer 1 with datatype 2, 100 wide and 50 high, at the origin has the explicit bytes
//! `14 7B 01 02 64 32 00 00`. In every cell they are read as one record, which draws exactly that rectangle.

#![tactic(auto)]

ghost use Rattle.drawing.specs.Laws.{ElementsRead, CellsRead, StartsRead, EndsRead};

/// The explicit bytes of a valid item are read as records that draw exactly that item.
pub fn laws_of_drawings()
    ensures start { StartsRead }
    ensures cell { CellsRead }
    ensures element { ElementsRead }
    ensures end { EndsRead }
{}
