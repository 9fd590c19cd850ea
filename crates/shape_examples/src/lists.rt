//! Point lists: one of each type, each cut of them, counts, zero and closing displacements, and the ends of the reach.

use bounds::{Bounds, Point};
use point_lists::{fill_list, read_list};
use std::process::Abort;
use tokens::{Read, TokenFault};

fn refused(rt: &impl Abort, file: &[u8], closed: bool, number: u8, place: usize) {
    assert_eq!(rt;
        read_list(file, 0, closed).err().map(TokenFault::told),
        Some((number, place))
    );
}

// The list has these vertices, as it is read in short and as it is written, and no cut of it is a list.
fn polygon(rt: &impl Abort, file: &[u8], vertices: &[(i64, i64)]) {
    let counted = read_list(file, 0, true).map(|list| list.map(|short| short.vertices));
    assert_eq!(rt;
        counted,
        Ok(Read {
            value: vertices.len() as u64,
            next: file.len()
        })
    );
    let mut out = [Point { x: 77, y: 77 }; 12];
    assert_eq!(rt;
        fill_list(file, 0, true, Point { x: 100, y: -200 }, &mut out),
        Some(vertices.len())
    );
    for (p, (x, y)) in out.iter().zip(vertices.iter()) {
        assert_eq!(rt; p.x.checked_sub(100), Some(*x));
        assert_eq!(rt; p.y.checked_add(200), Some(*y));
    }
    if vertices.len() < 12 {
        assert_eq!(rt; out[vertices.len()].x, 77);
    }
    for size in 0..file.len() {
        no_list(rt, &file[0..size]);
    }
}

fn no_list(rt: &impl Abort, file: &[u8]) {
    let mut out = [Point { x: 77, y: 77 }; 12];
    assert!(rt; read_list(file, 0, true).is_err());
    assert_eq!(rt;
        fill_list(file, 0, true, Point { x: 0, y: 0 }, &mut out),
        None
    );
    assert_eq!(rt; out[0].x, 77);
}

#[test]
fn one_of_each_type(rt: HostRuntime) {
    polygon(
        &rt,
        &[0x00, 0x04, 0x0c, 0x08, 0x11, 0x05],
        &[(0, 0), (6, 0), (6, 4), (-2, 4), (-2, 2), (0, 2)],
    );
    polygon(
        &rt,
        &[0x01, 0x04, 0x11, 0x04, 0x04, 0x04],
        &[(0, 0), (0, -8), (2, -8), (2, -6), (4, -6), (4, 0)],
    );
    polygon(
        &rt,
        &[0x02, 0x05, 0x20, 0x19, 0x12, 0x0b, 0x12],
        &[(0, 0), (8, 0), (8, 6), (4, 6), (4, 4), (0, 4)],
    );
    polygon(
        &rt,
        &[0x03, 0x04, 0x15, 0x21, 0x30, 0x13],
        &[(0, 0), (-2, 2), (-2, 6), (4, 6), (4, 4)],
    );
    polygon(
        &rt,
        &[0x04, 0x02, 0x44, 0x09, 0x0d],
        &[(0, 0), (-4, 0), (-2, -6)],
    );
}

#[test]
fn changing_displacements(rt: HostRuntime) {
    let file = [
        0x05, 0x09, 0x01, 0x03, 0x29, 0x00, 0x01, 0x04, 0x01, 0x03, 0x01, 0x03, 0x2b, 0x04, 0x2b,
        0x00, 0x01, 0x03, 0x01, 0x03,
    ];
    polygon(
        &rt,
        &file,
        &[
            (0, 0),
            (0, -1),
            (10, -2),
            (20, -1),
            (30, -1),
            (40, -2),
            (40, -1),
            (30, 0),
            (20, 0),
            (10, -1),
        ],
    );
}

#[test]
fn boxes(rt: HostRuntime) {
    let file = [0x00, 0x04, 0x0c, 0x08, 0x11, 0x05];
    assert_eq!(rt;
        read_list(&file, 0, true).map(|list| list.value.bounds),
        Ok(Bounds {
            left: -2,
            right: 6,
            bottom: 0,
            top: 4
        })
    );
}

#[test]
fn faults(rt: HostRuntime) {
    refused(&rt, &[0x06, 0x02], true, 11, 0);
    refused(&rt, &[0x04, 0x01, 0x44], true, 15, 1);
    refused(&rt, &[0x01, 0x03, 0x04, 0x04, 0x04], true, 15, 1);
    refused(&rt, &[0x00, 0x02, 0x00, 0x04], true, 15, 2);
    refused(&rt, &[0x00, 0x04, 0x0c, 0x08, 0x0d, 0x04], true, 15, 0);
    refused(&rt, &[0x02, 0x02, 0x10, 0x11], true, 15, 0);
    assert!(rt; read_list(&[0x02, 0x02, 0x10, 0x10], 0, true).is_ok());
    assert!(rt; read_list(&[0x03, 0x02, 0x20, 0x21], 0, true).is_ok());
    refused(&rt, &[0x03, 0x02, 0x20, 0x11], true, 15, 0);
    assert!(rt; read_list(&[0x02, 0x02, 0x10, 0x11], 0, false).is_ok());
    assert!(rt; read_list(&[0x01, 0x00], 0, false).is_ok());
    refused(&rt, &[0x04, 0x02, 0x44, 0x09], true, 3, 4);
}

#[test]
fn the_ends_of_the_reach(rt: HostRuntime) {
    assert!(rt; read_list(&[0x00, 0x01, 0xfc, 0xff, 0xff, 0xff, 0xff, 0x7f], 0, false).is_ok());
    refused(
        &rt,
        &[0x00, 0x01, 0xfe, 0xff, 0xff, 0xff, 0xff, 0x7f],
        false,
        13,
        2,
    );
    assert!(rt; read_list(&[0x01, 0x01, 0xfd, 0xff, 0xff, 0xff, 0xff, 0x7f], 0, false).is_ok());
    refused(
        &rt,
        &[0x01, 0x03, 0xfd, 0xff, 0xff, 0xff, 0xff, 0x7f, 0x02, 0x03],
        false,
        13,
        9,
    );
}

#[test]
fn memory_that_is_too_small(rt: HostRuntime) {
    let file = [0x00, 0x04, 0x0c, 0x08, 0x11, 0x05];
    let mut out = [Point { x: 5, y: 5 }; 5];
    assert_eq!(rt;
        fill_list(&file, 0, true, Point { x: 0, y: 0 }, &mut out),
        None
    );
    assert_eq!(rt; out[0].x, 5);
    let mut six = [Point { x: 5, y: 5 }; 6];
    assert_eq!(rt;
        fill_list(
            &file,
            0,
            true,
            Point {
                x: 1_099_511_627_776,
                y: 0,
            },
            &mut six,
        ),
        None
    );
    assert_eq!(rt; six[0].x, 5);
    assert_eq!(rt;
        fill_list(
            &file,
            0,
            true,
            Point {
                x: 1_099_511_627_775,
                y: 0,
            },
            &mut six,
        ),
        Some(6)
    );
    assert_eq!(rt; six[1].x, 1_099_511_627_781);
}
