//! The disk in memory: what a stop leaves by the bytes of choice, in each kind of outcome, and each call once.

use alt_disk::{Disk, MemoryDisk};
use std::alloc::Global;

// Whether the disk has this file as wanted, of at most eight bytes.
fn reads_as(alloc: Global, disk: &mut MemoryDisk, f: u32, want: Option<&[u8]>) -> bool {
    let mut list = Vec::new(alloc);
    let Ok(()) = disk.names(&mut list) else {
        return false;
    };
    let Some(want) = want else {
        return !list.contains(&f);
    };
    let mut buf = [0u8; 9];
    let Ok(count) = disk.read(f, 0, &mut buf) else {
        return false;
    };
    list.contains(&f) && &buf[..count] == want
}

// Writes at a place within the file.
fn write(disk: &mut MemoryDisk, f: u32, at: u64, bytes: &[u8]) -> bool {
    let Ok(size) = disk.size(f) else {
        return false;
    };
    at <= size && disk.write_at(f, at, bytes).is_ok()
}

// Whether a stop at this moment leaves the file as wanted.
fn leaves(
    alloc: Global,
    disk: &MemoryDisk,
    moment: u64,
    choice: &[u8],
    f: u32,
    want: Option<&[u8]>,
) -> bool {
    let (now, _) = disk.counts();
    let Ok(mut left) = disk.stopped(moment.min(now), choice) else {
        return false;
    };
    reads_as(alloc, &mut left, f, want)
}

// Whether each call does its work and is counted.
fn each_call_works(alloc: Global) -> bool {
    let mut disk = MemoryDisk::new(alloc);
    let written = write(&mut disk, 7, 0, b"abc")
        && write(&mut disk, 7, 3, b"de")
        && write(&mut disk, 7, 1, b"BC");
    let synced = disk.sync(7).is_ok();
    let read = reads_as(alloc, &mut disk, 7, Some(b"aBCde")) && disk.size(7) == Ok(5);
    let removed = disk.remove(7).is_ok() && reads_as(alloc, &mut disk, 7, None);
    written && synced && read && removed && disk.counts() == (12, 1)
}

#[test]
fn each_call_is_counted_and_does_its_work(rt: HostRuntime) {
    assert!(rt; each_call_works(rt.alloc()));
}

// A file that was made, synced, removed and made again, none where something failed.
fn made_again(alloc: Global) -> Option<MemoryDisk> {
    let mut disk = MemoryDisk::new(alloc);
    let first = write(&mut disk, 1, 0, b"old") && disk.sync(1).is_ok();
    let again = disk.remove(1).is_ok() && write(&mut disk, 1, 0, b"new!");
    if first && again { Some(disk) } else { None }
}

// The moment of a stop, the bytes of choice, and what it then leaves of the file that was made again.
static MADE_AGAIN: [(u64, &[u8], Option<&[u8]>); 12] = [
    // before anything, and before the first sync: there or not, any length, any bytes
    (0, &[9], None),
    (2, &[0], None),
    (2, &[9, 0], Some(&[])),
    (2, &[9, 1, 5, 6], Some(&[5, 6, 0])),
    // synced: nothing is open
    (3, &[0, 0], Some(b"old")),
    // removed: missing, or back
    (4, &[0], None),
    (4, &[2], Some(b"old")),
    (4, &[1], Some(b"old")),
    // made again: missing, the old one, the new one
    (6, &[], None),
    (6, &[2], Some(b"old")),
    (6, &[3, 1, 8, 9], Some(&[8, 9, 0, 0])),
    (6, &[1, 2, 8, 9], Some(&[8, 9])),
];

#[test]
fn a_file_made_again_is_left_missing_old_or_new(rt: HostRuntime) {
    let Some(disk) = made_again(rt.alloc()) else {
        assert!(rt; false);
        return;
    };
    for (moment, choice, want) in &MADE_AGAIN {
        assert!(rt;
            leaves(rt.alloc(), &disk, *moment, choice, 1, *want),
            "at {moment}"
        );
    }
}

// Two files of which one was synced and written to again, none where something failed.
fn two_files(alloc: Global) -> Option<MemoryDisk> {
    let mut disk = MemoryDisk::new(alloc);
    let first = write(&mut disk, 2, 0, b"abcdef") && disk.sync(2).is_ok();
    let then = write(&mut disk, 2, 2, b"XY") && write(&mut disk, 1, 0, b"z");
    if first && then { Some(disk) } else { None }
}

// The bytes of choice, a file, and what a stop at the end leaves of it. File 1 lies below and takes its choice first.
static TWO_FILES: [(&[u8], u32, &[u8]); 4] = [
    (&[7, 2, 10, 11, 0, 8, 9], 1, &[10, 11]),
    (&[7, 2, 10, 11, 0, 8, 9], 2, b"ab\x08\x09ef"),
    (&[0, 2, 8, 9, 3], 2, b"ab\x08\x09ef\x03\0"),
    (&[0, 1, 8], 2, b"ab\x08\0ef"),
];

#[test]
fn a_written_range_and_the_end_are_open_until_the_sync(rt: HostRuntime) {
    let Some(disk) = two_files(rt.alloc()) else {
        assert!(rt; false);
        return;
    };
    let (now, _) = disk.counts();
    for (choice, f, want) in &TWO_FILES {
        assert!(rt;
            leaves(rt.alloc(), &disk, now, choice, *f, Some(*want)),
            "file {f}"
        );
    }
}

// A disk on which a write and a removal failed by the list, and whether each call answered as it should.
fn with_failures(alloc: Global) -> Option<MemoryDisk> {
    let mut disk = MemoryDisk::new(alloc);
    let written = write(&mut disk, 1, 0, b"ab") && disk.sync(1).is_ok();
    let listed = disk.fail(3).is_ok() && disk.fail(5).is_ok() && disk.fail(6).is_ok();
    let failed = disk.write_at(1, 0, b"XY").is_err() && disk.counts() == (4, 0);
    let removed = disk.sync(1).is_ok() && disk.remove(1).is_err();
    let missing = disk.write_at(3, 0, b"c").is_err();
    if written && listed && failed && removed && missing {
        Some(disk)
    } else {
        None
    }
}

// The moment of a stop, the bytes of choice, a file, and what it then leaves.
static FAILED: [(u64, &[u8], u32, Option<&[u8]>); 7] = [
    // a write that failed counts as written
    (4, &[0, 7, 8], 1, Some(&[7, 8])),
    (4, &[1, 7, 8], 1, Some(&[7, 8])),
    (5, &[0, 7, 8], 1, Some(b"ab")),
    // a removal that failed may have been made
    (6, &[0], 1, None),
    (6, &[1], 1, Some(b"ab")),
    // a write that failed may have made the file
    (7, &[1, 1, 2, 4, 5], 3, Some(&[4, 5])),
    (7, &[1, 0], 3, None),
];

#[test]
fn the_call_at_a_moment_that_is_to_fail_fails(rt: HostRuntime) {
    let Some(mut disk) = with_failures(rt.alloc()) else {
        assert!(rt; false);
        return;
    };
    for (moment, choice, f, want) in &FAILED {
        assert!(rt;
            leaves(rt.alloc(), &disk, *moment, choice, *f, *want),
            "at {moment}"
        );
    }
    // what a read gives is as before
    assert!(rt; reads_as(rt.alloc(), &mut disk, 1, Some(b"ab")));
    assert!(rt; reads_as(rt.alloc(), &mut disk, 3, None));
}
