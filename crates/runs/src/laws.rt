//! What is proved of the run of a file, as promises of a function that does nothing.

ghost use Rattle.runs.specs.Laws.{RunIsSequence, SequenceIsRun, RunUnfolds};

/// The run of a file is exactly the sequence of records that stand one behind the other from the magic on.
pub fn laws_of_runs()
    ensures unfolds { RunUnfolds }
    ensures sound { RunIsSequence }
    ensures complete { SequenceIsRun }
{}
