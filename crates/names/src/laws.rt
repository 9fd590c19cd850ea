//! What is proved of name records, as promises of a function that does nothing.

ghost use Rattle.names.specs.Laws.{NameMade, NameLocal, NameBack};

/// How far a name record's fields go and what they are, that nothing else is read, and that what is written is read again.
pub fn laws_of_name_records()
    ensures made { NameMade }
    ensures local { NameLocal }
    ensures back { NameBack }
{}
