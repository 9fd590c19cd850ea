//! What is proved of repetitions, as promises of a function that does nothing.
//!
//! One of them says that the bytes `01 00 01 0A 14` are the copies (0, 0), (10, 0), (0, 20), (10, 20), (0, 40) and (10, 40).

ghost use Rattle.repetitions.specs.Examples.{ExamplesHold};
ghost use Rattle.repetitions.specs.Laws.{RepetitionMade, RepetitionLocal};
ghost use Rattle.repetitions.specs.Laws.{MatrixInOrder, MatrixWhole, ListInOrder, ListWhole};

/// How far a repetition goes, what holds of its copies, that it is read from its own bytes, the order of the copies, and
/// worked examples.
pub fn laws_of_repetitions()
    ensures made { RepetitionMade }
    ensures local { RepetitionLocal }
    ensures matrix_order { MatrixInOrder }
    ensures matrix_whole { MatrixWhole }
    ensures list_order { ListInOrder }
    ensures list_whole { ListWhole }
    ensures examples { ExamplesHold }
{}
