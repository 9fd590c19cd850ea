//! What is proved of point lists, as promises of functions that do nothing.

ghost use Rattle.point_lists.specs.Examples.{ExamplesHold};
ghost use Rattle.point_lists.specs.Laws.{ListBack, ListLocal, ListMade};

/// How far a list goes and what holds of its vertices, that it reads nothing else, and that what is written is read again.
pub fn laws_of_lists()
    ensures made { ListMade }
    ensures local { ListLocal }
    ensures back { ListBack }
{}

/// Worked examples.
pub fn worked_examples()
    ensures hold { ExamplesHold }
{}
