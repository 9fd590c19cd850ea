//! What is proved of items, as promises of functions that do nothing.
//!
//! Start, cell, end ends at the stage `Ended`: it is a whole sequence. Without the end it is the beginning of one.

ghost use Rattle.items.specs.Examples.{ExamplesHold};
ghost use Rattle.items.specs.Sequences.{StagesTell, StagesBegin, StagesEnd};

/// Items are in sequence exactly where no stage refuses one; they are the beginning of a whole sequence then, and the last
/// stage tells whether they are all of it.
pub fn laws_of_sequences()
    ensures order { StagesTell }
    ensures beginning { StagesBegin }
    ensures whole { StagesEnd }
{}

/// Worked examples.
pub fn worked_examples()
    ensures hold { ExamplesHold }
{}
