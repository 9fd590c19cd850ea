//! The rows that names are kept in.
//!
//! The cell name `ABC` with the number 5, which stands from place 40 on in a record that gives its number, has the row of
//! class 3 and number 5, with place 40, size 3 and a number that was given.

ghost use Rattle.name_table.specs.Keys.{same_pair, no_key, no_part};
ghost use Rattle.std.proofs.Common.{rules};

use keyed::{Entry, Key, Zero};
use tokens::Part;

/// A class of names and a number in it.
#[derive(Clone, Copy, PartialEq, Eq, Default, Debug)]
pub struct NameKey {
    /// The ID of the class's records without a number. Any type can be a class, so no enum lists them.
    pub class: u64,
    /// The reference number.
    pub number: u64,
}

/// Where a name stands in the file, and how its number came.
#[derive(Clone, Copy, Default, PartialEq, Eq, Debug)]
pub struct NamePart {
    /// The part of the file.
    pub part: Part,
    /// Whether the record gave the number. The key has the number in either case, so this is no `Option`.
    pub given: bool,
}

/// A name with its class and number.
pub type NameRow = Entry<NameKey, NamePart>;

impl Key for NameKey {
    ghost same = { same_pair };

    ghost decides = { Prim.search rules };

    fn is(&self, other: &NameKey) -> bool {
        self == other
    }
}

impl Zero for NameKey {
    ghost zero = { no_key };

    fn zeroed() -> NameKey {
        NameKey::default()
    }
}

impl Zero for NamePart {
    ghost zero = { no_part };

    fn zeroed() -> NamePart {
        NamePart::default()
    }
}
