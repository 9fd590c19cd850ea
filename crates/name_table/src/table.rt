//! The names of a file in lent rows.
//!
//! Two records without numbers take two rows. A third record with the number 0 is refused, since the records of a class all
//! give their numbers or none does.

ghost use Rattle.std.specs.Prelude.{◌≡◌, List, [], length};
ghost use Rattle.std.specs.Option.{option_map};
ghost use Rattle.tokens.specs.Outcomes.{left_by, told};
ghost use Rattle.std.specs.List.{find};
ghost use Rattle.keyed.specs.Rows.{table as rows_of, memory, room, laid};
ghost use Rattle.name_table.specs.Records.{Seen, has_key, name_of};
ghost use Rattle.name_table.specs.Enter.{row_of, shown, view, seen, decided, enter_row, enter, told_at, memory_after};
ghost use Rattle.name_table.specs.Laws.{Holds, Added, Means};

use crate::compare::{any_clash, row_for};
use crate::row::{NameKey, NamePart, NameRow};
use keyed::Table;
use names::{NameClass, NameFields};
use tokens::{FaultKind, TokenFault};

/// The names of a file that came so far, in lent rows.
#[derive(Drop)]
pub struct Names<'f, 'r> {
    file: &'f [u8],
    table: Table<'r, NameKey, NamePart>,
}

// Enters the row, unless it clashes with another, is there already or finds no room.
fn enter_row(
    file: &[u8],
    table: &mut Table<NameKey, NamePart>,
    new: NameRow,
) -> Result<(), FaultKind>
    ensures answer { result ≡ told (enter_row (room table.old) (shown file.now (rows_of table.old)) (row_of file.now new)) }
    ensures rows { shown file.now (rows_of table.new) ≡ left_by (shown file.now (rows_of table.old)) (enter_row (room table.old) (shown file.now (rows_of table.old)) (row_of file.now new)) }
    ensures memory { memory table.new ≡ decided (shown file.now (rows_of table.old)) (row_of file.now new) (memory table.old) (memory table.old) (laid (memory table.old) (length (rows_of table.old)) new) }
    ensures lender { table.new.rows.ghost_name ≡ table.old.rows.ghost_name }
{
    if any_clash(file, table.live(), new) {
        return Err(FaultKind::NameConflict);
    }
    if table.find(new.key).is_some() {
        return Ok(());
    }
    table
        .insert(new.key, new.value)
        .map(|_| ())
        .map_err(|_| FaultKind::FewRows)
}

impl<'f, 'r> Names<'f, 'r> {
    /// No names yet, in the rows, which may hold anything and stay as they are.
    pub fn new(file: &'f [u8], rows: &'r mut [NameRow]) -> Names<'f, 'r>
        ensures empty { view result ≡ [] }
        ensures holds { Holds [] (view result) }
        ensures memory { memory result.table ≡ rows.old }
        ensures room { room result.table ≡ length rows.old }
        ensures file { result.file.now ≡ file.now }
        ensures lender { result.table.rows.ghost_name ≡ rows.entry.ghost_name }
    {
        let table = Table::new(rows);
        Names { file, table }
    }

    // Adds a record of the class.
    fn take(&mut self, at: usize, class: u64, fields: NameFields) -> Result<(), TokenFault>
        ensures answer { result ≡ told_at at (enter (room self.old.table) (view self.old) (seen self.old.file.now class fields)) }
        ensures rows { view self.new ≡ left_by (view self.old) (enter (room self.old.table) (view self.old) (seen self.old.file.now class fields)) }
        ensures memory { memory self.new.table ≡ memory_after self.old class fields }
        ensures file { self.new.file.now ≡ self.old.file.now }
        ensures lender { self.new.table.rows.ghost_name ≡ self.old.table.rows.ghost_name }
    {
        let new = row_for(self.table.live(), class, fields);
        enter_row(self.file, &mut self.table, new).map_err(|kind| TokenFault { kind, place: at })
    }

    /// Adds the name record that stands at the place `at`, or refuses it as one that disagrees or finds no row.
    pub fn add<C: NameClass>(&mut self, at: usize, fields: NameFields) -> Result<(), TokenFault>
        ensures answer { result ≡ told_at at (enter (room self.old.table) (view self.old) (seen self.old.file.now C.NameClass.IMPLICIT fields)) }
        ensures rows { view self.new ≡ left_by (view self.old) (enter (room self.old.table) (view self.old) (seen self.old.file.now C.NameClass.IMPLICIT fields)) }
        ensures law { (rs : List Seen) → Holds rs (view self.old) → Added (room self.old.table) rs (seen self.old.file.now C.NameClass.IMPLICIT fields) at result (view self.new) }
        ensures memory { memory self.new.table ≡ memory_after self.old C.NameClass.IMPLICIT fields }
        ensures room { room self.new.table ≡ room self.old.table }
        ensures file { self.new.file.now ≡ self.old.file.now }
        ensures lender { self.new.table.rows.ghost_name ≡ self.old.table.rows.ghost_name }
    {
        self.take(at, C::IMPLICIT, fields)
    }

    /// The name that the number means in the class, as a part of the file.
    pub fn find<C: NameClass>(&self, number: u64) -> Option<&'f [u8]>
        ensures part { option_map (λ x. x.now) result ≡ name_of (find (has_key C.NameClass.IMPLICIT number) (view self.now)) }
        ensures law { (rs : List Seen) → Holds rs (view self.now) → Means rs C.NameClass.IMPLICIT number (option_map (λ x. x.now) result) }
    {
        let key = NameKey {
            class: C::IMPLICIT,
            number,
        };
        self.table
            .get(key)
            .map(|name| name.part.bytes_in(self.file))
    }

    /// How many rows are in use.
    pub fn len(&self) -> usize
        ensures counts { result ≡ length (view self.now) }
    {
        self.table.len()
    }
}
