//! What holds of every record that the run of a file gives, as promises of a function that does nothing.
//!
//! A layer is at most 17,592,186,044,415, a width is in reach, a name obeys its rule, and so is each vertex of each copy of
//! an element in reach: given in the record or inherited.

#![tactic(auto)]

ghost use Rattle.legality.specs.Laws.{ElementsLegal, RunLegal};

/// An element that is read with legal variables is legal, and so are the variables after it; and each record of a run, whole
/// or broken off by a fault, is legal.
pub fn laws_of_legality()
    ensures elements { ElementsLegal }
    ensures run { RunLegal }
{}
