//! A file that is changed or cut under its reader. A walk decodes a row when it gives it: it finds a changed length or flag of a row when it
//! comes to that row, downwards a length on its way to it, and a cut at the first block that isn't whole. What may be any bytes is given as it
//! stands, and what isn't read again is not missed.

use crate::tests::doubted::Doubted;
use crate::tests::shapes::{FILE, Shape, is_entry, spelled};
use alt_cells::{RowSource, SourceFault};
use alt_disk::Disk;
use alt_rowfile::RowFile;
use std::alloc::Global;

/// How many rows come as they were written, and what is told then; none where the walk ends or a row comes that was written otherwise.
type Course = (u32, Option<SourceFault>);

// The course of a walk over a whole file.
fn course(
    alloc: Global,
    disk: &mut Doubted,
    file: &RowFile,
    shape: &Shape,
    forward: bool,
) -> Option<Course> {
    let mut walk = file.walk();
    walk.seek(disk, None, forward).ok()?;
    for count in 0..1000u32 {
        match walk.next(disk) {
            Ok(Some((key, row))) => {
                let i = if forward {
                    count
                } else {
                    shape.0.checked_sub(count + 1)?
                };
                if !is_entry(alloc, shape, i, &key, &row)? {
                    return Some((count, None));
                }
            }
            Ok(None) => return Some((count, None)),
            Err(fault) => return Some((count, Some(fault))),
        }
    }
    None
}

fn damaged(at: u64) -> Option<SourceFault> {
    Some(SourceFault::Damaged { file: FILE, at })
}

/// A block of four rows, at the place 8 behind the header: its length, and from 16 on rows of 60 bytes. Behind it, from 256 on, comes the index.
static SMALL: Shape = (4, 2, 3);

// The course where the byte at this place is changed. In a row stand the length of the key, the key from 8 on, the length of the row from 14 on,
// whether there is a tombstone, the number of columns, from 31 on the length of the name, the name and the number of its write, from 48 on
// whether there is a value and the value's length, and the value from 57 on.
fn course_at(at: u32, forward: bool) -> Course {
    if at < 8 || at >= 256 {
        return (4, None);
    }
    let Some(within) = at.checked_sub(16) else {
        return (0, damaged(8));
    };
    let row = within / 60;
    let before = if forward {
        row
    } else {
        3u32.saturating_sub(row)
    };
    match within % 60 {
        8..=13 | 39..=47 | 57..=59 => (before, None),
        0..=7 | 14..=21 if !forward => (0, damaged(8)),
        _ => (before, damaged(8)),
    }
}

// A disk on which the file has these bytes.
fn disk_of(alloc: Global, bytes: &[u8]) -> Option<Doubted> {
    let mut disk = Doubted::new(alloc);
    disk.write_at(FILE, 0, bytes).ok()?;
    Some(disk)
}

// The course over the file with the byte at a place changed once it was recovered.
fn changed(alloc: Global, at: u32, forward: bool) -> Option<Course> {
    let (bytes, _) = spelled(alloc, &SMALL)?;
    let mut disk = disk_of(alloc, &bytes)?;
    let Ok(file) = RowFile::recover(alloc, &mut disk, FILE) else {
        return None;
    };
    let byte = *bytes.get(at as usize)?;
    disk.write_at(FILE, u64::from(at), &[byte ^ 1]).ok()?;
    course(alloc, &mut disk, &file, &SMALL, forward)
}

fn length_of(alloc: Global, shape: &Shape) -> Option<u32> {
    let (bytes, _) = spelled(alloc, shape)?;
    u32::try_from(bytes.len()).ok()
}

#[test]
fn a_walk_finds_each_changed_length_and_flag_at_its_row(rt: HostRuntime) {
    let Some(length) = length_of(rt.alloc(), &SMALL) else {
        assert!(rt; false);
        return;
    };
    for at in 0..length {
        for forward in [true, false] {
            assert!(rt;
                changed(rt.alloc(), at, forward) == Some(course_at(at, forward)),
                "byte {at}, forward {forward}"
            );
        }
    }
}

// The course over the file that was cut to a length once it was recovered.
fn cut(alloc: Global, shape: &Shape, length: u32, forward: bool) -> Option<Course> {
    let (bytes, _) = spelled(alloc, shape)?;
    let mut disk = disk_of(alloc, &bytes)?;
    let Ok(file) = RowFile::recover(alloc, &mut disk, FILE) else {
        return None;
    };
    let rest = bytes.get(..length as usize)?;
    disk.remove(FILE).ok()?;
    disk.write_at(FILE, 0, rest).ok()?;
    course(alloc, &mut disk, &file, shape, forward)
}

#[test]
fn a_walk_finds_each_cut_of_its_block(rt: HostRuntime) {
    for length in 0..256u32 {
        assert!(rt;
            cut(rt.alloc(), &SMALL, length, true) == Some((0, damaged(8)))
                && cut(rt.alloc(), &SMALL, length, false) == Some((0, damaged(8))),
            "cut to {length}"
        );
    }
    assert!(rt; cut(rt.alloc(), &SMALL, 256, true) == Some((4, None)));
}

/// Three blocks of 5,063 bytes, each of one row: at 8, 5,071 and 10,134; the index stands at 15,197.
static BLOCKS: Shape = (3, 0, 5000);

/// A length, both sides of each block's end, and the course upwards.
static CUTS: [(u32, Course); 8] = [
    (8, (0, Some(SourceFault::Damaged { file: FILE, at: 8 }))),
    (5070, (0, Some(SourceFault::Damaged { file: FILE, at: 8 }))),
    (
        5071,
        (
            1,
            Some(SourceFault::Damaged {
                file: FILE,
                at: 5071,
            }),
        ),
    ),
    (
        10133,
        (
            1,
            Some(SourceFault::Damaged {
                file: FILE,
                at: 5071,
            }),
        ),
    ),
    (
        10134,
        (
            2,
            Some(SourceFault::Damaged {
                file: FILE,
                at: 10134,
            }),
        ),
    ),
    (
        15196,
        (
            2,
            Some(SourceFault::Damaged {
                file: FILE,
                at: 10134,
            }),
        ),
    ),
    (15197, (3, None)),
    (15200, (3, None)),
];

#[test]
fn a_walk_gives_the_blocks_before_a_cut(rt: HostRuntime) {
    for (length, course) in &CUTS {
        assert!(rt;
            cut(rt.alloc(), &BLOCKS, *length, true) == Some(*course),
            "cut to {length}"
        );
    }
}
