//! Batches that want more numbers than there are left, and such as take the last ones.

use super::asking::{Request, asked, empty, known, opened};
use super::batches::BATCHES;
use super::stops::ask_some;
use alt_disk::{Disk, MemoryDisk};
use alt_dispatch::{answer, operation_named};
use alt_tables::TableFault;
use json::Scratch;
use std::alloc::Global;

/// Where a store's first version has the number of the next write.
const NEXT_WRITE: u64 = 21;

/// From it on two numbers are left.
const LATE: u64 = 4_611_686_018_427_387_901;

/// Three puts that each change something.
static THREE: Request = (
    "BatchWriteItem",
    r#"{"RequestItems":{"Tab":[{"PutRequest":{"Item":{"k":{"S":"a"},"n":{"N":"1"}}}},{"PutRequest":{"Item":{"k":{"S":"b"}}}}],"Two":[{"PutRequest":{"Item":{"k":{"S":"a"},"r":{"N":"-1"}}}}]}}"#,
);

/// Three writes of which one changes nothing.
static TWO: Request = (
    "BatchWriteItem",
    r#"{"RequestItems":{"Tab":[{"PutRequest":{"Item":{"k":{"S":"a"},"n":{"N":"1"}}}},{"DeleteRequest":{"Key":{"k":{"S":"c"}}}}],"Two":[{"PutRequest":{"Item":{"k":{"S":"a"},"r":{"N":"-1"}}}}]}}"#,
);

// Lets the next number of a store be 2^62 - 3.
fn make_late(disk: &mut MemoryDisk) -> Option<()> {
    let size = disk.size(1).ok()?;
    if NEXT_WRITE > size {
        return None;
    }
    disk.write_at(1, NEXT_WRITE, &LATE.to_be_bytes()).ok()?;
    disk.sync(1).ok()
}

// A store with the two tables, whose next number is that.
fn late(alloc: Global) -> Option<MemoryDisk> {
    let mut disk = empty(alloc)?;
    let mut tables = opened(alloc, &mut disk)?;
    ask_some(alloc, &mut tables, &mut disk, &BATCHES, 2)?;
    make_late(&mut disk)?;
    Some(disk)
}

// What a store on a disk is known by.
fn known_now(alloc: Global, disk: &MemoryDisk) -> Option<Vec<String>> {
    let (now, _) = disk.counts();
    let mut left = disk.stopped(now, &[]).ok()?;
    let mut tables = opened(alloc, &mut left)?;
    known(alloc, &mut tables, &mut left)
}

// The number that a request lacks.
fn lacked(alloc: Global, disk: &mut MemoryDisk, request: &Request) -> Option<u64> {
    let mut tables = opened(alloc, disk)?;
    let operation = operation_named(request.0.as_bytes());
    let mut scratch = Scratch::new(alloc);
    match answer(
        alloc,
        &mut scratch,
        &mut tables,
        disk,
        operation,
        request.1.as_bytes(),
        1_700_000_000,
    ) {
        Err(TableFault::Spent { number }) => Some(number),
        _ => None,
    }
}

// Whether three writes lack a number where two are left, and nothing of them is there then.
fn none_is_made(alloc: Global) -> Option<bool> {
    let mut disk = late(alloc)?;
    let before = known_now(alloc, &disk)?;
    let number = lacked(alloc, &mut disk, &THREE)?;
    let after = known_now(alloc, &disk)?;
    Some(number == LATE + 2 && after.as_slice() == before.as_slice())
}

#[test]
fn a_batch_that_wants_a_number_too_many_writes_nothing(rt: HostRuntime) {
    assert!(rt; none_is_made(rt.alloc()) == Some(true));
}

// Whether three writes of which one changes nothing take the last two numbers, and a further one has none.
fn two_are_made(alloc: Global) -> Option<bool> {
    let mut disk = late(alloc)?;
    let mut tables = opened(alloc, &mut disk)?;
    let _ = asked(alloc, &mut tables, &mut disk, &TWO)?;
    let after = known(alloc, &mut tables, &mut disk)?;
    let kept = known_now(alloc, &disk)?;
    let number = lacked(alloc, &mut disk, &THREE)?;
    Some(
        number == LATE + 2
            && kept.as_slice() == after.as_slice()
            && after.last()?.as_str() == "4611686018427387903",
    )
}

#[test]
fn a_member_that_changes_nothing_wants_no_number(rt: HostRuntime) {
    assert!(rt; two_are_made(rt.alloc()) == Some(true));
}
