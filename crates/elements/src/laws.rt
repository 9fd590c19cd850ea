//! What is proved of the records of elements, as promises of a function that does nothing.

ghost use Rattle.elements.specs.Laws.{ElementsGoOn};

/// Each element takes at least one byte and stays in the file.
pub fn laws_of_elements()
    ensures onward { ElementsGoOn }
{}
