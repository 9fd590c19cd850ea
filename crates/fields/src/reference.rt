//! Names and texts in records: a string, or the reference number of a name record.

ghost use Rattle.std.specs.Prelude.{◌≡◌};
ghost use Rattle.fields.specs.References.{number_at, string_at, reference};

use crate::number::inherited;
use tokens::{Part, Read, StringRule, TokenFault, read_part, read_unsigned};

/// A reference number, and the place where it stands.
#[derive(Clone, Copy)]
pub struct ReferenceNumber {
    pub number: u64,
    pub place: usize,
}

/// A name or a text: its bytes, or a number that refers to them.
#[derive(Clone, Copy)]
pub enum Reference {
    Given(Part),
    Number(ReferenceNumber),
}

/// How a record gives a name or a text.
#[derive(Clone, Copy)]
pub enum Form {
    Absent,
    ByString,
    ByNumber,
}

/// The reference number at the place `at`.
pub fn read_reference_number(file: &[u8], at: usize) -> Result<Read<Reference>, TokenFault>
    ensures reads { result ≡ number_at file.now at }
{
    let number = read_unsigned(file, at)?;
    Ok(number.map(|number| Reference::Number(ReferenceNumber { number, place: at })))
}

/// The string at the place `at`.
pub fn read_reference_string(
    file: &[u8],
    at: usize,
    rule: StringRule,
) -> Result<Read<Reference>, TokenFault>
    ensures reads { result ≡ string_at rule file.now at }
{
    Ok(read_part(file, at, rule)?.map(Reference::Given))
}

/// A name or a text that is present at the place `at`, by its number or as a string of the rule, or inherited.
pub fn read_reference(
    file: &[u8],
    at: usize,
    first: usize,
    rule: StringRule,
    form: Form,
    variable: Option<Reference>,
) -> Result<Read<Reference>, TokenFault>
    ensures reads { result ≡ reference rule file.now at first form variable }
{
    match form {
        Form::Absent => inherited(at, first, variable),
        Form::ByNumber => read_reference_number(file, at),
        Form::ByString => read_reference_string(file, at, rule),
    }
}
