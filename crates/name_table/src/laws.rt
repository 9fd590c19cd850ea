//! What is proved of all name records of a file, as promises of a function that does nothing.
//!
//! Of three records of which the third disagrees with the first, the third is the one that is refused, with the fault 16.

ghost use Rattle.name_table.specs.Laws.{EachRunJudged};

/// Which lists of name records are taken, what is held after them, and where and why any other is refused.
pub fn laws_of_names()
    ensures runs { EachRunJudged }
{}
