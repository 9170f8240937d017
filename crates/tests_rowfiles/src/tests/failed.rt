//! Reads that fail, one after another: each is told at that very call, and the next one works.

use crate::tests::shapes::{FILE, Shape, disk_of, key_of, spelled};
use crate::tests::walked::gives;
use alt_cells::{RowSource, SourceFault};
use alt_disk::MemoryDisk;
use alt_rowfile::{RowFile, RowFileFault};
use std::alloc::Global;

// A file of several blocks.
static SHAPE: Shape = (40, 0, 400);

fn disk_of_rows(alloc: Global) -> Option<MemoryDisk> {
    let (bytes, _) = spelled(alloc, &SHAPE)?;
    disk_of(alloc, &bytes)
}

// How many calls a recovery makes.
fn calls_of_recovery(alloc: Global) -> Option<u64> {
    let mut disk = disk_of_rows(alloc)?;
    let (before, _) = disk.counts();
    let file = RowFile::recover(alloc, &mut disk, FILE);
    if file.is_err() {
        return None;
    }
    let (after, _) = disk.counts();
    after.checked_sub(before)
}

// Whether the recovery fails whose call of this number does, and the one after it doesn't.
fn recovery_fails(alloc: Global, call: u64) -> Option<bool> {
    let mut disk = disk_of_rows(alloc)?;
    let (now, _) = disk.counts();
    disk.fail(now.checked_add(call)?).ok()?;
    let failed = match RowFile::recover(alloc, &mut disk, FILE) {
        Err(RowFileFault::Failed) => true,
        _ => false,
    };
    let again = RowFile::recover(alloc, &mut disk, FILE);
    Some(failed && again.is_ok())
}

#[test]
fn each_call_of_a_recovery_that_fails_is_told(rt: HostRuntime) {
    let Some(calls) = calls_of_recovery(rt.alloc()) else {
        assert!(rt; false);
        return;
    };
    assert!(rt; calls > 4);
    for call in 0..calls {
        assert!(rt;
            recovery_fails(rt.alloc(), call) == Some(true),
            "call {call}"
        );
    }
}

/// Lets the next call of the disk fail.
pub(crate) fn fail_next(disk: &mut MemoryDisk) -> Option<()> {
    let (now, _) = disk.counts();
    disk.fail(now).ok()
}

// Whether the look for a row fails and then finds it.
fn look_fails(alloc: Global) -> Option<bool> {
    let mut disk = disk_of_rows(alloc)?;
    let Ok(file) = RowFile::recover(alloc, &mut disk, FILE) else {
        return None;
    };
    let key = key_of(alloc, &SHAPE, 20, b"")?;
    fail_next(&mut disk)?;
    let failed = match file.row(&mut disk, &key) {
        Err(SourceFault::Failed) => true,
        _ => false,
    };
    let found = file.row(&mut disk, &key).ok()?;
    Some(failed && found.is_some())
}

#[test]
fn a_look_that_fails_is_not_none(rt: HostRuntime) {
    assert!(rt; look_fails(rt.alloc()) == Some(true));
}

/// How many rows come before the walk fails; none where it ends or goes on.
pub(crate) fn rows_before_fault<S: RowSource<MemoryDisk>>(
    disk: &mut MemoryDisk,
    source: &mut S,
) -> Option<u32> {
    for count in 0..1000 {
        match source.next(disk) {
            Ok(Some(_)) => {}
            Ok(None) => return None,
            Err(SourceFault::Failed) => return Some(count),
            Err(_) => return None,
        }
    }
    None
}

// Whether a walk fails at the block of this number, where it has rows in front of it, and gives all when it is sought anew.
fn walk_fails(alloc: Global, forward: bool, block: u64) -> Option<bool> {
    let mut disk = disk_of_rows(alloc)?;
    let Ok(file) = RowFile::recover(alloc, &mut disk, FILE) else {
        return None;
    };
    let mut walk = file.walk();
    walk.seek(&mut disk, None, forward).ok()?;
    let (now, _) = disk.counts();
    disk.fail(now.checked_add(block)?).ok()?;
    let rows = rows_before_fault(&mut disk, &mut walk)?;
    walk.seek(&mut disk, None, forward).ok()?;
    let first = if forward { 0 } else { SHAPE.0.checked_sub(1)? };
    let went = gives(alloc, &mut disk, &mut walk, &SHAPE, first, SHAPE.0, forward)?;
    Some(went && rows < SHAPE.0 && (rows == 0) == (block == 0))
}

#[test]
fn a_walk_fails_at_the_block_that_does_and_may_be_sought_anew(rt: HostRuntime) {
    let Some((_, blocks)) = spelled(rt.alloc(), &SHAPE) else {
        assert!(rt; false);
        return;
    };
    assert!(rt; blocks > 3);
    for block in 0..blocks {
        assert!(rt;
            walk_fails(rt.alloc(), true, block) == Some(true),
            "block {block}"
        );
        assert!(rt;
            walk_fails(rt.alloc(), false, block) == Some(true),
            "block {block}"
        );
    }
}

// Whether a seek whose block can't be read fails, in both directions.
fn seek_fails(alloc: Global, forward: bool) -> Option<bool> {
    let mut disk = disk_of_rows(alloc)?;
    let Ok(file) = RowFile::recover(alloc, &mut disk, FILE) else {
        return None;
    };
    let key = key_of(alloc, &SHAPE, 20, b"")?;
    let mut walk = file.walk();
    fail_next(&mut disk)?;
    let failed = walk.seek(&mut disk, Some(&key), forward) == Err(SourceFault::Failed);
    walk.seek(&mut disk, Some(&key), forward).ok()?;
    let first = if forward { 20 } else { 19 };
    Some(failed && gives(alloc, &mut disk, &mut walk, &SHAPE, first, 20, forward)?)
}

#[test]
fn a_seek_that_fails_is_told_and_may_be_made_again(rt: HostRuntime) {
    assert!(rt; seek_fails(rt.alloc(), true) == Some(true));
    assert!(rt; seek_fails(rt.alloc(), false) == Some(true));
}
