//! Repetitions: each type with small numbers, as it is read in short and copy by copy, the most copies, and the ends of the
//! reach.

use bounds::Point;
use repetitions::{CopyWalk, open_copies, open_walk, read_repetition};
use std::process::Abort;
use std::test::Fail;
use tokens::{Read, TokenFault};

fn refused(rt: &impl Abort, file: &[u8], number: u8, place: usize) {
    assert_eq!(rt;
        read_repetition(file, 0).err().map(TokenFault::told),
        Some((number, place))
    );
}

// The repetition has so many copies and takes the whole file.
fn counted(rt: &impl Abort, file: &[u8], copies: u64) {
    let counted = read_repetition(file, 0).map(|read| read.map(|short| short.copies));
    assert_eq!(rt;
        counted,
        Ok(Read {
            value: copies,
            next: file.len()
        })
    );
}

// The walk gives these offsets and then nothing, and no cut of the repetition is one.
fn copied(rt: &impl Abort, file: &[u8], offsets: &[(i64, i64)]) -> Result<(), Fail> {
    counted(rt, file, offsets.len() as u64);
    let Ok(mut copies) = open_copies(file, 0) else {
        return Err(Fail::new("a walk was due"));
    };
    assert!(rt;
        copies
            .by_ref()
            .eq(offsets.iter().map(|&(x, y)| Point { x, y }))
    );
    assert!(rt; copies.next().is_none());
    for size in 0..file.len() {
        assert!(rt; read_repetition(&file[0..size], 0).is_err());
    }
    Ok(())
}

#[test]
fn uniform_types(rt: HostRuntime) -> Result<(), Fail> {
    copied(
        &rt,
        &[0x01, 0x00, 0x01, 0x0a, 0x14],
        &[(0, 0), (10, 0), (0, 20), (10, 20), (0, 40), (10, 40)],
    )?;
    copied(&rt, &[0x02, 0x01, 0x0a], &[(0, 0), (10, 0), (20, 0)])?;
    copied(&rt, &[0x03, 0x01, 0x0a], &[(0, 0), (0, 10), (0, 20)])?;
    copied(
        &rt,
        &[0x08, 0x00, 0x00, 0x15, 0x06, 0x35, 0x08],
        &[(0, 0), (5, 3), (13, 4), (18, 7)],
    )?;
    copied(
        &rt,
        &[0x09, 0x01, 0xec, 0x05],
        &[(0, 0), (-46, -46), (-92, -92)],
    )
}

#[test]
fn listed_types(rt: HostRuntime) -> Result<(), Fail> {
    copied(&rt, &[0x04, 0x01, 0x03, 0x04], &[(0, 0), (3, 0), (7, 0)])?;
    copied(
        &rt,
        &[0x05, 0x01, 0x0a, 0x03, 0x04],
        &[(0, 0), (30, 0), (70, 0)],
    )?;
    copied(&rt, &[0x06, 0x01, 0x03, 0x04], &[(0, 0), (0, 3), (0, 7)])?;
    copied(
        &rt,
        &[0x07, 0x01, 0x0a, 0x03, 0x04],
        &[(0, 0), (0, 30), (0, 70)],
    )?;
    copied(&rt, &[0x0a, 0x01, 0x10, 0x22], &[(0, 0), (1, 0), (1, 2)])?;
    copied(
        &rt,
        &[0x0b, 0x00, 0x0a, 0xbb, 0x01, 0xb7, 0x0f],
        &[(0, 0), (-460, -9870)],
    )
}

// The next copy in this file is at x.
fn stepped(rt: &impl Abort, walk: &mut CopyWalk, file: &[u8], x: i64) {
    assert_eq!(rt; walk.next_copy(file), Some(Point { x, y: 0 }));
}

// The walk holds no part of the file: each step reads the next space in the file that it is handed.
#[test]
fn a_walk_is_handed_its_file(rt: HostRuntime) -> Result<(), Fail> {
    let mut file = [0x04, 0x01, 0x0a, 0x14];
    let Ok(mut walk) = open_walk(&file, 0) else {
        return Err(Fail::new("a walk was due"));
    };
    let mut cut = walk;
    file[2] = 0x0b;
    stepped(&rt, &mut walk, &file, 0);
    let mut other = walk;
    file[3] = 0x15;
    stepped(&rt, &mut walk, &file, 11);
    stepped(&rt, &mut walk, &file, 32);
    assert!(rt; walk.next_copy(&file).is_none());
    stepped(&rt, &mut other, &[0, 0, 0, 0x64], 11);
    stepped(&rt, &mut other, &[], 111);
    assert!(rt; other.next_copy(&file).is_none());
    stepped(&rt, &mut cut, &[], 0);
    assert!(rt; cut.next_copy(&file).is_none());
    Ok(())
}

#[test]
fn types_and_counts(rt: HostRuntime) {
    refused(&rt, &[0x00], 11, 0);
    refused(&rt, &[0x0c, 0x00], 11, 0);
    counted(&rt, &[0x02, 0xfe, 0xff, 0x03, 0x00], 65_536);
    refused(&rt, &[0x02, 0xff, 0xff, 0x03, 0x00], 14, 1);
    counted(&rt, &[0x01, 0xfe, 0x01, 0xfe, 0x01, 0x00, 0x00], 65_536);
    refused(&rt, &[0x01, 0xfe, 0x01, 0xff, 0x01, 0x00, 0x00], 14, 3);
    refused(&rt, &[0x0a, 0xff, 0xff, 0x03], 14, 1);
}

#[test]
fn the_ends_of_the_reach(rt: HostRuntime) {
    counted(&rt, &[0x02, 0x00, 0xfe, 0xff, 0xff, 0xff, 0xff, 0x3f], 2);
    refused(
        &rt,
        &[0x02, 0x00, 0xff, 0xff, 0xff, 0xff, 0xff, 0x3f],
        13,
        0,
    );
    counted(
        &rt,
        &[
            0x04, 0x01, 0xff, 0xff, 0xff, 0xff, 0xff, 0x1f, 0xff, 0xff, 0xff, 0xff, 0xff, 0x1f,
        ],
        3,
    );
    refused(
        &rt,
        &[0x06, 0x01, 0xfe, 0xff, 0xff, 0xff, 0xff, 0x3f, 0x01],
        13,
        0,
    );
    refused(
        &rt,
        &[0x05, 0x00, 0x02, 0xff, 0xff, 0xff, 0xff, 0xff, 0x3f],
        13,
        0,
    );
}
