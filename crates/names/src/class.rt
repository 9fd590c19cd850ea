//! The classes of names. Each has its own numbers, two kinds of records and a rule for its strings.

ghost use Rattle.std.specs.Prelude.{ℕ};
ghost use Rattle.tokens.specs.declared.text.StringRule.{StringRule};
ghost use Rattle.tokens.specs.declared.text.StringRule.TheVariants.{Name, Ascii};

use tokens::StringRule;

/// A class of names.
pub trait NameClass {
    /// The ID of records whose names are numbered in their order.
    const IMPLICIT: u64;

    ghost IMPLICIT: { ℕ };
    /// The ID of records that give the number.
    const EXPLICIT: u64;

    ghost EXPLICIT: { ℕ };
    /// What the names may be.
    const RULE: StringRule;

    ghost RULE: { StringRule };
}

/// The names of cells.
pub struct CellNames;

impl NameClass for CellNames {
    const IMPLICIT: u64 = 3;

    ghost IMPLICIT = { 3 };

    const EXPLICIT: u64 = 4;

    ghost EXPLICIT = { 4 };

    const RULE: StringRule = StringRule::Name;

    ghost RULE = { Name };
}

/// The strings of texts.
pub struct TextStrings;

impl NameClass for TextStrings {
    const IMPLICIT: u64 = 5;

    ghost IMPLICIT = { 5 };

    const EXPLICIT: u64 = 6;

    ghost EXPLICIT = { 6 };

    const RULE: StringRule = StringRule::Ascii;

    ghost RULE = { Ascii };
}
