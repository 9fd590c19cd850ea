//! Name records that are read from small files, added and looked up: numbers by count and given ones, each sort of conflict,
//! rows that are too few, and names that come again.

use keyed::clear_rows;
use name_table::{NameKey, NamePart, NameRow, Names};
use names::{CellNames, NameClass, TextStrings, read_name};
use std::process::Abort;
use std::test::Fail;
use tokens::Part;

// A row that was used before.
fn used_row() -> NameRow {
    NameRow {
        key: NameKey {
            class: 3,
            number: 0,
        },
        value: NamePart {
            part: Part { place: 1, size: 1 },
            given: true,
        },
    }
}

// Reads the record of the class at the place and adds it: none, or the number of the fault, which names the record.
fn add<C: NameClass>(
    rt: &impl Abort,
    names: &mut Names,
    file: &[u8],
    at: usize,
    id: u8,
) -> Result<Option<u8>, Fail> {
    let Ok(read) = read_name::<C>(file, at.saturating_add(1), id as u64) else {
        return Err(Fail::new("a name was due"));
    };
    let refused = names.add::<C>(at, read.value).err();
    assert!(rt; refused.is_none_or(|fault| fault.place == at));
    Ok(refused.map(|fault| fault.kind.number()))
}

// Adds the records at the places, each of which gives this answer.
fn adds(
    rt: &impl Abort,
    names: &mut Names,
    file: &[u8],
    records: &[(usize, Option<u8>)],
) -> Result<(), Fail> {
    for (at, due) in records {
        let Some(id) = file.get(*at) else {
            return Err(Fail::new("a record was due"));
        };
        let answer = if *id < 5 {
            add::<CellNames>(rt, names, file, *at, *id)?
        } else {
            add::<TextStrings>(rt, names, file, *at, *id)?
        };
        assert_eq!(rt; answer, *due);
    }
    Ok(())
}

// The number means this name in the class.
fn means<C: NameClass>(rt: &impl Abort, names: &Names, number: u64, name: &[u8]) {
    assert_eq!(rt; names.find::<C>(number), Some(name));
}

#[test]
fn names_are_numbered_in_their_order(rt: HostRuntime) -> Result<(), Fail> {
    let file: [u8; 10] = [3, 1, 0x41, 3, 2, 0x42, 0x43, 3, 1, 0x41];
    let mut rows = [used_row(); 3];
    let mut names = Names::new(&file, &mut rows);
    assert!(rt; names.find::<CellNames>(0).is_none());
    adds(
        &rt,
        &mut names,
        &file,
        &[(0, None), (3, None), (7, Some(16))],
    )?;
    assert_eq!(rt; names.len(), 2);
    means::<CellNames>(&rt, &names, 0, &[0x41]);
    means::<CellNames>(&rt, &names, 1, &[0x42, 0x43]);
    assert!(rt; names.find::<CellNames>(2).is_none());
    Ok(())
}

#[test]
fn records_give_numbers_in_any_order(rt: HostRuntime) -> Result<(), Fail> {
    let file: [u8; 20] = [
        4, 1, 0x41, 9, 4, 1, 0x42, 2, 4, 1, 0x41, 9, 4, 1, 0x43, 9, 4, 1, 0x42, 3,
    ];
    let mut rows = [used_row(); 3];
    let mut names = Names::new(&file, &mut rows);
    adds(
        &rt,
        &mut names,
        &file,
        &[
            (0, None),
            (4, None),
            (8, None),
            (12, Some(16)),
            (16, Some(16)),
        ],
    )?;
    assert_eq!(rt; names.len(), 2);
    means::<CellNames>(&rt, &names, 9, &[0x41]);
    means::<CellNames>(&rt, &names, 2, &[0x42]);
    Ok(())
}

#[test]
fn a_class_has_one_kind_of_records(rt: HostRuntime) -> Result<(), Fail> {
    let file: [u8; 7] = [3, 1, 0x41, 4, 1, 0x41, 0];
    let mut rows = [used_row(); 3];
    adds(
        &rt,
        &mut Names::new(&file, &mut rows),
        &file,
        &[(0, None), (3, Some(16))],
    )?;
    adds(
        &rt,
        &mut Names::new(&file, &mut rows),
        &file,
        &[(3, None), (0, Some(16))],
    )
}

#[test]
fn each_class_has_its_own_numbers(rt: HostRuntime) -> Result<(), Fail> {
    let file: [u8; 14] = [3, 1, 0x41, 6, 1, 0x42, 0, 3, 1, 0x42, 6, 1, 0x41, 7];
    let mut rows = [used_row(); 4];
    let mut names = Names::new(&file, &mut rows);
    adds(
        &rt,
        &mut names,
        &file,
        &[(0, None), (3, None), (7, None), (10, None)],
    )?;
    assert_eq!(rt; names.len(), 4);
    means::<CellNames>(&rt, &names, 1, &[0x42]);
    means::<TextStrings>(&rt, &names, 0, &[0x42]);
    means::<TextStrings>(&rt, &names, 7, &[0x41]);
    assert!(rt; names.find::<TextStrings>(1).is_none());
    Ok(())
}

#[test]
fn a_conflict_is_told_before_rows_that_are_too_few(rt: HostRuntime) -> Result<(), Fail> {
    let file: [u8; 16] = [4, 1, 0x41, 1, 4, 1, 0x42, 2, 4, 1, 0x42, 1, 4, 1, 0x41, 1];
    let mut rows = [used_row(); 1];
    let mut names = Names::new(&file, &mut rows);
    adds(
        &rt,
        &mut names,
        &file,
        &[(0, None), (4, Some(21)), (8, Some(16)), (12, None)],
    )?;
    assert_eq!(rt; names.len(), 1);
    Ok(())
}

#[test]
fn rows_are_cleared_to_zeros(rt: HostRuntime) {
    let mut rows = [used_row(); 2];
    clear_rows(&mut rows);
    for row in &rows {
        let key = NameKey {
            class: 0,
            number: 0,
        };
        let value = NamePart {
            part: Part { place: 0, size: 0 },
            given: false,
        };
        assert_eq!(rt; *row, NameRow { key, value });
    }
}
