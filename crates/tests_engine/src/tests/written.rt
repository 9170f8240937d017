//! A store that is written, stopped, and opened again.

ghost use Rattle.std.specs.Prelude.{IfSome};
ghost use Rattle.alt_disk.specs.MemoryState.{state_of};
ghost use Rattle.tests_engine.specs.Ready.{IsReady};

use alt_cells::{Batch, CellList, RowChange, ShownRow};
use alt_disk::{Disk, MemoryDisk};
use alt_engine::{Engine, Limits, make_store};
use alt_fields::Bytes;
use alt_keyorder::KeyRange;
use std::alloc::Global;

/// No family is flushed by itself.
pub(super) const LIMITS: Limits = Limits {
    flush: 1 << 40,
    merge: 8,
};

// Rows of family 7, by what the writes below leave: a key, and the value of column `v`.
static LEFT: [(&[u8], &[u8]); 3] = [(b"a", b"two"), (b"c", b"three"), (b"cc", b"four")];

// A key, and its value, or none where the row goes.
pub(super) type Write = (&'static [u8], &'static [u8]);

// The writes.
static WRITES: [Write; 6] = [
    (b"a", b"one"),
    (b"b", b"one"),
    (b"cc", b"four"),
    (b"a", b"two"),
    (b"b", b""),
    (b"c", b"three"),
];

// A batch that makes or removes one row.
pub(super) fn batch_of(alloc: Global, key: &[u8], value: &[u8]) -> Option<Batch> {
    let mut cells = CellList::new(alloc);
    if !value.is_empty() {
        let name = Bytes::new(alloc, b"v").ok()?;
        let value = Bytes::new(alloc, value).ok()?;
        cells.push(name, Some(value)).ok()?;
    }
    let key = Bytes::new(alloc, key).ok()?;
    let mut batch = Batch::new(alloc);
    batch
        .add(RowChange {
            family: 7,
            key,
            clear: true,
            cells,
        })
        .ok()?;
    Some(batch)
}

// The engine of the store on a disk.
pub(super) fn opened(alloc: Global, disk: &mut MemoryDisk) -> Option<Engine>
    ensures { IfSome result (IsReady (state_of disk.new)) }
{
    match Engine::recover(alloc, disk, LIMITS) {
        Ok(engine) => Some(engine),
        Err(_) => None,
    }
}

// Makes one write.
pub(super) fn put(
    alloc: Global,
    engine: &mut Engine,
    disk: &mut MemoryDisk,
    write: &Write,
) -> Option<u64>
    requires { IsReady (state_of disk.old) engine.old }
    ensures { IfSome result (λ _. IsReady (state_of disk.new) engine.new) }
{
    let batch = batch_of(alloc, write.0, write.1)?;
    match engine.apply(disk, &batch) {
        Ok(number) => Some(number),
        Err(_) => None,
    }
}

// A disk with a fresh store.
pub(super) fn fresh(alloc: Global) -> Option<MemoryDisk> {
    let mut disk = MemoryDisk::new(alloc);
    match make_store(alloc, &mut disk) {
        Ok(()) => Some(disk),
        Err(_) => None,
    }
}

// A disk with a store of all writes.
pub(super) fn written(alloc: Global) -> Option<MemoryDisk> {
    let mut disk = fresh(alloc)?;
    let mut engine = opened(alloc, &mut disk)?;
    for write in &WRITES {
        let _ = put(alloc, &mut engine, &mut disk, write)?;
    }
    Some(disk)
}

// Whether the row is the one that is left there.
fn is_left(row: &(Bytes, ShownRow), left: &(&[u8], &[u8])) -> bool {
    let Some(value) = row.1.get(b"v") else {
        return false;
    };
    row.0.as_slice() == left.0 && value.as_slice() == left.1
}

// Whether the rows of all keys are those that are left, in a direction.
pub(super) fn shows(
    alloc: Global,
    engine: &mut Engine,
    disk: &mut MemoryDisk,
    forward: bool,
) -> Option<bool> {
    let range = KeyRange {
        from: Bytes::new(alloc, b"").ok()?,
        to: None,
    };
    let mut out = Vec::new(alloc);
    engine.rows(disk, 7, &range, forward, 9, &mut out).ok()?;
    if out.len() != LEFT.len() {
        return Some(false);
    }
    for i in 0..LEFT.len() {
        let at = if forward { i } else { LEFT.len() - 1 - i };
        if !is_left(&out[i], &LEFT[at]) {
            return Some(false);
        }
    }
    Some(true)
}

// Whether a store that was stopped and opened again shows what was written, and goes on.
fn lasts(alloc: Global) -> Option<bool> {
    let disk = written(alloc)?;
    let (now, _) = disk.counts();
    let mut left = disk.stopped(now, &[]).ok()?;
    let mut engine = opened(alloc, &mut left)?;
    let gone = engine.row(&mut left, 7, b"b").ok()?.is_none();
    let first = engine.first_from(&mut left, 3).ok()??;
    Some(
        engine.next_number() == 7
            && gone
            && first.0 == 7
            && first.1.as_slice() == b"a".as_slice()
            && shows(alloc, &mut engine, &mut left, true)?
            && shows(alloc, &mut engine, &mut left, false)?,
    )
}

#[test]
fn what_was_written_lasts(rt: HostRuntime) {
    assert!(rt; lasts(rt.alloc()) == Some(true));
}

// Bytes by which a stop may pick what it leaves: the first of everything, all of it, and something between.
static CHOICES: [&[u8]; 3] = [&[], &[1; 99], &[2, 0, 255, 7, 1, 1, 0, 3, 128, 1, 0, 1]];

// Whether a stop at this moment leaves the first `count` writes, or one more.
fn leaves(
    alloc: Global,
    disk: &MemoryDisk,
    moment: u64,
    choice: &[u8],
    count: u64,
) -> Option<bool> {
    let (now, _) = disk.counts();
    if moment > now {
        return None;
    }
    let mut left = disk.stopped(moment, choice).ok()?;
    let next = opened(alloc, &mut left)?.next_number();
    Some(next > count && next - count <= 2)
}

// The same for each way to pick what is left.
fn leaves_always(alloc: Global, disk: &MemoryDisk, moment: u64, count: u64) -> Option<bool> {
    for choice in &CHOICES {
        if !leaves(alloc, disk, moment, choice, count)? {
            return Some(false);
        }
    }
    Some(true)
}

// Makes one more write, and whether a stop at each of its moments leaves it whole or not at all.
fn stops_whole(
    alloc: Global,
    disk: &mut MemoryDisk,
    engine: &mut Engine,
    write: &Write,
    count: u64,
) -> Option<bool>
    requires { IsReady (state_of disk.old) engine.old }
    ensures { IfSome result (λ _. IsReady (state_of disk.new) engine.new) }
{
    let (from, _) = disk.counts();
    let _ = put(alloc, engine, disk, write)?;
    let (to, _) = disk.counts();
    for moment in from..to {
        if !leaves_always(alloc, disk, moment, count)? {
            return Some(false);
        }
    }
    if from > to || count >= 9 {
        return None;
    }
    Some(to - from == 4 && leaves_always(alloc, disk, to, count + 1)?)
}

// Whether each write is four calls, and each stop leaves it whole or not at all.
fn each_stop(alloc: Global) -> Option<bool> {
    let mut disk = fresh(alloc)?;
    let mut engine = opened(alloc, &mut disk)?;
    for (count, write) in WRITES.iter().enumerate() {
        if !stops_whole(alloc, &mut disk, &mut engine, write, count as u64)? {
            return Some(false);
        }
    }
    Some(true)
}

#[test]
fn a_stop_leaves_each_write_whole_or_not_at_all(rt: HostRuntime) {
    assert!(rt; each_stop(rt.alloc()) == Some(true));
}

// What becomes of a write whose call of this number fails: the store that is opened again has it, or doesn't.
fn fails_whole(alloc: Global, call: u64) -> Option<bool> {
    let mut disk = fresh(alloc)?;
    let mut engine = opened(alloc, &mut disk)?;
    let (now, _) = disk.counts();
    disk.fail(now.checked_add(call)?).ok()?;
    if put(alloc, &mut engine, &mut disk, &WRITES[0]).is_some() {
        return Some(false);
    }
    let (after, _) = disk.counts();
    leaves_always(alloc, &disk, after, 0)
}

#[test]
fn a_write_that_failed_is_there_whole_or_not_at_all(rt: HostRuntime) {
    for call in 0..4u64 {
        assert!(rt; fails_whole(rt.alloc(), call) == Some(true), "call {call}");
    }
}

// Versions, and entries of which the last has the last number.
static LAST: [(u32, &[u8]); 2] = [
    (
        1,
        b"ALTLOG01\x01\0\0\0\0\0\0\0\x20\0\0\0\x03\0\0\0\0\0\0\0\x01\0\0\0\0\0\0\0\x01\0\0\0\x02\0\0\0\0\0\0\0\0\0",
    ),
    (
        2,
        b"ALTLOG01\x01\0\0\0\0\0\0\0\x10\x3f\xff\xff\xff\xff\xff\xff\xfe\0\0\0\0\0\0\0\0\0",
    ),
];

// Whether a write behind the last number is refused, and makes no call of the disk.
fn spends(alloc: Global) -> Option<bool> {
    let mut disk = MemoryDisk::new(alloc);
    for (file, bytes) in &LAST {
        disk.write_at(*file, 0, bytes).ok()?;
    }
    let mut engine = opened(alloc, &mut disk)?;
    let before = disk.counts();
    let none = put(alloc, &mut engine, &mut disk, &WRITES[0]).is_none();
    Some(none && engine.next_number() == 4_611_686_018_427_387_903 && disk.counts() == before)
}

#[test]
fn behind_the_last_number_there_is_none(rt: HostRuntime) {
    assert!(rt; spends(rt.alloc()) == Some(true));
}
