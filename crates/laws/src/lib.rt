//! Whole files: which are allowed, which items they define, and what is proved of explicit forms, as promises of a function that
//! does nothing.
//!
//! A start with the unit 1000 and an end have an explicit form of 290 bytes. It is an allowed file, needs no name records, and
//! its items are that start and that end.

#![tactic(auto)]

ghost use Rattle.laws.specs.Laws.{Reread, FormsDistinct};

/// The explicit form of valid items in sequence, from start to end, is an allowed file without names that defines exactly those
/// items; two such lists with the same explicit form are the same.
pub fn laws_of_rereading()
    ensures reread { Reread }
    ensures distinct { FormsDistinct }
{}
