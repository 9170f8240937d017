//! Batches that are written as one entry.

ghost use Rattle.std.specs.Prelude.{IfSome};
ghost use Rattle.alt_disk.specs.MemoryState.{state_of};
ghost use Rattle.tests_engine.specs.Ready.{IsReady};

use crate::tests::written::{Write, batch_of, opened};
use alt_cells::Batch;
use alt_disk::{Disk, MemoryDisk};
use alt_engine::Engine;
use alt_hand::EngineFault;
use std::alloc::Global;

// A batch for each of these writes.
fn batches_of(alloc: Global, writes: &[Write]) -> Option<Vec<Batch>> {
    let mut batches = Vec::new(alloc);
    for write in writes {
        batches.push(batch_of(alloc, write.0, write.1)?).ok()?;
    }
    Some(batches)
}

// Makes these writes as one.
pub(super) fn put_all(
    alloc: Global,
    engine: &mut Engine,
    disk: &mut MemoryDisk,
    writes: &[Write],
) -> Option<u64>
    requires { IsReady (state_of disk.old) engine.old }
    ensures { IfSome result (λ _. IsReady (state_of disk.new) engine.new) }
{
    let batches = batches_of(alloc, writes)?;
    if batches.is_empty() {
        return None;
    }
    match engine.apply_all(disk, batches.as_slice()) {
        Ok(number) => Some(number),
        Err(_) => None,
    }
}

// A store whose next number is 2^62 - 3.
static LATE: [(u32, &[u8]); 2] = [
    (
        1,
        b"ALTLOG01\x01\0\0\0\0\0\0\0\x20\0\0\0\x03\x3f\xff\xff\xff\xff\xff\xff\xfd\0\0\0\0\0\0\0\x01\0\0\0\x02\0\0\0\0\0\0\0\0\0",
    ),
    (2, b"ALTLOG02\0"),
];

// Two numbers are left in it.
const LEFT: u64 = 4_611_686_018_427_387_901;

// Three writes.
static THREE: [Write; 3] = [(b"a", b"one"), (b"b", b"two"), (b"c", b"three")];

// A disk with these files.
pub(super) fn disk_of(alloc: Global, files: &[(u32, &[u8])]) -> Option<MemoryDisk> {
    let mut disk = MemoryDisk::new(alloc);
    for (file, bytes) in files {
        disk.write_at(*file, 0, bytes).ok()?;
    }
    Some(disk)
}

// What comes of so many of the writes in the store whose next number is 2^62 - 3, and how many calls of the disk were made.
fn tried(alloc: Global, count: usize) -> Option<(Result<u64, EngineFault>, u64)> {
    let mut disk = disk_of(alloc, &LATE)?;
    let mut engine = opened(alloc, &mut disk)?;
    let batches = batches_of(alloc, THREE.get(..count)?)?;
    if batches.is_empty() {
        return None;
    }
    let (before, _) = disk.counts();
    let came = engine.apply_all(&mut disk, batches.as_slice());
    let (after, _) = disk.counts();
    Some((came, after - before))
}

#[test]
fn two_writes_take_the_last_two_numbers(rt: HostRuntime) {
    assert!(rt; tried(rt.alloc(), 2) == Some((Ok(LEFT), 4)));
}

#[test]
fn three_writes_want_a_number_too_many_and_none_is_made(rt: HostRuntime) {
    let spent = EngineFault::Spent { number: LEFT + 2 };
    assert!(rt; tried(rt.alloc(), 3) == Some((Err(spent), 0)));
}
