//! What is proved of START and END, as promises of functions that do nothing.
//!
//! One of them says that END, where it is read, ends the file.

ghost use Rattle.frames.specs.Laws.{StartMade, StartLocal, StartExactly, StartBack, EndMade, EndExactly, EndBack};
ghost use Rattle.frames.specs.Examples.{ExamplesHold};

/// How far the fields go and what they are, that START is read from nothing else, which files END ends,
/// and that what is written is read again.
pub fn laws_of_frames()
    ensures start { StartMade }
    ensures start_local { StartLocal }
    ensures start_exactly { StartExactly }
    ensures start_back { StartBack }
    ensures end { EndMade }
    ensures end_exactly { EndExactly }
    ensures end_back { EndBack }
{}

/// Worked examples.
pub fn worked_examples()
    ensures hold { ExamplesHold }
{}
