//! What is proved of lines, as promises of a function that does nothing. The cell `TOP` is the line `C TOP`.

ghost use Rattle.listing.specs.Examples.{ExamplesHold};

/// Worked examples: a line of each kind.
pub fn worked_examples()
    ensures hold { ExamplesHold }
{}
