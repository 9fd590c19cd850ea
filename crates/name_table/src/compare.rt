//! A row compared with those before it: whether it disagrees with one, and which number it gets.
//!
//! A row of class 3 with the number 1 and the name `A` disagrees with one of class 3 with the number 0 and the name `A`, and
//! agrees with one of class 5 with the number 0 and the name `A`.

ghost use Rattle.std.specs.Prelude.{◌≡◌};
ghost use Rattle.std.specs.Str.{bytes_eq};
ghost use Rattle.tokens.specs.Parts.{bytes_in};
ghost use Rattle.name_table.specs.Enter.{row_of, clash, any_clash, rows_in, laid_row};

use crate::row::{NameKey, NamePart, NameRow};
use names::NameFields;
use tokens::Part;

// Whether two parts of the file have the same bytes.
fn same_name(file: &[u8], a: Part, b: Part) -> bool
    ensures { result ≡ bytes_eq (bytes_in file.now a) (bytes_in file.now b) }
{
    a.bytes_in(file) == b.bytes_in(file)
}

// Whether the rows are of one class, and of two kinds, or one of number and name is the same and the other is not.
fn clashes(file: &[u8], row: &NameRow, new: &NameRow) -> bool
    ensures { result ≡ clash (row_of file.now row.now) (row_of file.now new.now) }
{
    row.key.class == new.key.class
        && (row.value.given != new.value.given
            || (row.key.number == new.key.number)
                != same_name(file, row.value.part, new.value.part))
}

/// Whether the row clashes with one of the rows.
pub fn any_clash(file: &[u8], rows: &[NameRow], new: NameRow) -> bool
    ensures { result ≡ any_clash file.now new rows.now }
{
    rows.iter().any(|row| clashes(file, row, &new))
}

// How many of the rows are of the class.
fn count_class(rows: &[NameRow], class: u64) -> usize
    ensures { result ≡ rows_in class rows.now }
{
    rows.iter().filter(|row| row.key.class == class).count()
}

/// The row for a record of the class: with the number that it gives, or else the next in the class.
pub fn row_for(rows: &[NameRow], class: u64, fields: NameFields) -> NameRow
    ensures { result ≡ laid_row class rows.now fields }
{
    let number = fields
        .number
        .unwrap_or_else(|| count_class(rows, class) as u64);
    NameRow {
        key: NameKey { class, number },
        value: NamePart {
            part: fields.part,
            given: fields.number.is_some(),
        },
    }
}
