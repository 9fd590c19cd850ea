//! Switches, and the table offsets: for each of six name tables a switch and the offset of the table in the file.
//!
//! `01 80 01` is a table with the switch 1 at the offset 128, and twelve times `00` is six tables that are not there.

ghost use Rattle.std.specs.Prelude.{◌≡◌};
ghost use Rattle.frames.specs.Tables.{switch, table, table_count, tables, tables_where};

use tokens::{FaultKind, Read, TokenFault, read_unsigned, refuse};

// How many name tables there are.
const TABLES: usize = 6;

// The greatest value of a switch.
const ON: u64 = 1;

/// The switch at the place `at`: 0 for off, or 1 for on.
#[tactic(auto, unfolding(crate::specs::Tables::switch))]
pub fn read_switch(file: &[u8], at: usize) -> Result<Read<bool>, TokenFault>
    ensures { result ≡ switch file.now at }
{
    let flag = read_unsigned(file, at)?;
    if flag.value > ON {
        return refuse(FaultKind::Reserved, at);
    }
    Ok(flag.map(|value| value == ON))
}

// The switch and the offset of one table, of which nothing is kept.
#[tactic(auto, unfolding(crate::specs::Tables::table))]
fn read_table(file: &[u8], at: usize) -> Result<Read<()>, TokenFault>
    ensures { result ≡ table file.now at }
{
    let strict = read_switch(file, at)?;
    Ok(read_unsigned(file, strict.next)?.map(|_offset| ()))
}

// All table offsets from the place `at`.
#[tactic(auto, using(crate::proofs::Tables::tables_more, crate::proofs::Tables::tables_stop, crate::proofs::Tables::tables_none))]
fn read_all_tables(file: &[u8], at: usize) -> Result<Read<()>, TokenFault>
    ensures { result ≡ tables table_count file.now at }
{
    let mut place = at;
    for _i in 0..TABLES {
        place = read_table(file, place)?.next;
    }
    Ok(Read {
        value: (),
        next: place,
    })
}

/// The table offsets from the place `at`, or nothing where they do not stand here. A flag and no closure: START and END both have
/// it from START's switch.
pub fn read_tables(file: &[u8], at: usize, here: bool) -> Result<Read<()>, TokenFault>
    ensures { result ≡ tables_where here file.now at }
{
    if !here {
        return Ok(Read {
            value: (),
            next: at,
        });
    }
    read_all_tables(file, at)
}
