//! A store whose rows lie in files, and one that is stopped while they are put there.

ghost use Rattle.std.specs.Prelude.{IfSome};
ghost use Rattle.alt_disk.specs.MemoryState.{state_of};
ghost use Rattle.tests_engine.specs.Ready.{IsReady};

use crate::tests::written::{Write, opened, put, shows, written};
use alt_disk::{Disk, MemoryDisk};
use alt_engine::{Engine, Task};
use std::alloc::Global;

// Puts the rows of family 7 into a file, under a new and empty log.
pub(super) fn flush(engine: &mut Engine, disk: &mut MemoryDisk) -> Option<()>
    requires { IsReady (state_of disk.old) engine.old }
    ensures { IfSome result (λ _. IsReady (state_of disk.new) engine.new) }
{
    match engine.work(disk, Task::FlushAll, &[0, 7]) {
        Ok(_) => Some(()),
        Err(_) => None,
    }
}

// Whether all rows are shown that were written, in either direction.
fn shows_all(alloc: Global, engine: &mut Engine, disk: &mut MemoryDisk) -> Option<bool> {
    let gone = engine.row(disk, 7, b"b").ok()?.is_none();
    let first = engine.first_from(disk, 3).ok()??;
    Some(
        gone && first.0 == 7
            && first.1.as_slice() == b"a".as_slice()
            && shows(alloc, engine, disk, true)?
            && shows(alloc, engine, disk, false)?,
    )
}

// How many bytes of a file are read, of at most 64.
fn count_of(disk: &mut MemoryDisk, f: u32) -> Option<usize> {
    let mut buf = [0u8; 64];
    disk.read(f, 0, &mut buf).ok()
}

// Whether the rows are shown from a file, also by a store that is opened again.
fn flushed(alloc: Global) -> Option<bool> {
    let mut disk = written(alloc)?;
    let mut engine = opened(alloc, &mut disk)?;
    flush(&mut engine, &mut disk)?;
    let there = count_of(&mut disk, 3)? == 64;
    let before = shows_all(alloc, &mut engine, &mut disk)?;
    let (now, _) = disk.counts();
    let mut left = disk.stopped(now, &[]).ok()?;
    let mut again = opened(alloc, &mut left)?;
    let after = shows_all(alloc, &mut again, &mut left)?;
    Some(there && before && after && again.next_number() == 7)
}

#[test]
fn rows_in_a_file_are_shown(rt: HostRuntime) {
    assert!(rt; flushed(rt.alloc()) == Some(true));
}

// Writes behind a flush, which leave what the others left: a row that lies in the file goes and comes again, and one is new and goes.
pub(super) static MORE: [Write; 4] = [(b"a", b""), (b"d", b"five"), (b"a", b"two"), (b"d", b"")];

// Whether memory and files show together what was written, or two files do, and so does a store that is opened again.
fn joined(alloc: Global, twice: bool) -> Option<bool> {
    let mut disk = written(alloc)?;
    let mut engine = opened(alloc, &mut disk)?;
    flush(&mut engine, &mut disk)?;
    for write in &MORE {
        let _ = put(alloc, &mut engine, &mut disk, write)?;
    }
    if twice {
        flush(&mut engine, &mut disk)?;
    }
    let before = shows_all(alloc, &mut engine, &mut disk)?;
    let (now, _) = disk.counts();
    let mut left = disk.stopped(now, &[]).ok()?;
    let mut again = opened(alloc, &mut left)?;
    let after = shows_all(alloc, &mut again, &mut left)?;
    Some(before && after && again.next_number() == 11)
}

#[test]
fn rows_in_memory_and_in_files_are_joined(rt: HostRuntime) {
    assert!(rt; joined(rt.alloc(), false) == Some(true));
    assert!(rt; joined(rt.alloc(), true) == Some(true));
}

// How many reads a row takes that lies in a file.
fn reads_of(alloc: Global, key: &[u8]) -> Option<u64> {
    let mut disk = written(alloc)?;
    let mut engine = opened(alloc, &mut disk)?;
    flush(&mut engine, &mut disk)?;
    let (_, before) = disk.counts();
    let _ = engine.row(&mut disk, 7, key).ok()?;
    let (_, after) = disk.counts();
    after.checked_sub(before)
}

#[test]
fn a_row_in_a_file_is_read_once(rt: HostRuntime) {
    assert!(rt; reads_of(rt.alloc(), b"c") == Some(1));
    // Before the file's first key nothing is read, nor behind its last.
    assert!(rt; reads_of(rt.alloc(), b"") == Some(0));
    assert!(rt; reads_of(rt.alloc(), b"d") == Some(0));
}

// Bytes by which a stop may pick what it leaves.
static CHOICES: [&[u8]; 3] = [&[], &[1; 99], &[2, 0, 255, 7, 1, 1, 0, 3, 128, 1, 0, 1]];

// Whether a stop at this moment leaves all rows, however it picks.
fn leaves_all(alloc: Global, disk: &MemoryDisk, moment: u64) -> Option<bool> {
    let (now, _) = disk.counts();
    if moment > now {
        return None;
    }
    for choice in &CHOICES {
        let mut left = disk.stopped(moment, choice).ok()?;
        let mut engine = opened(alloc, &mut left)?;
        if !shows_all(alloc, &mut engine, &mut left)? {
            return Some(false);
        }
    }
    Some(true)
}

// Whether a stop at each moment of a flush leaves all rows.
fn stops(alloc: Global) -> Option<bool> {
    let mut disk = written(alloc)?;
    let mut engine = opened(alloc, &mut disk)?;
    let (from, _) = disk.counts();
    flush(&mut engine, &mut disk)?;
    let (to, _) = disk.counts();
    for moment in from..to {
        if !leaves_all(alloc, &disk, moment)? {
            return Some(false);
        }
    }
    leaves_all(alloc, &disk, to)
}

#[test]
fn a_stop_within_a_flush_leaves_the_rows(rt: HostRuntime) {
    assert!(rt; stops(rt.alloc()) == Some(true));
}

// What becomes of a flush whose call of this number fails: none where it has fewer calls, else whether all rows are left.
fn fails_at(alloc: Global, call: u64) -> Option<bool> {
    let mut disk = written(alloc)?;
    let mut engine = opened(alloc, &mut disk)?;
    let (now, _) = disk.counts();
    disk.fail(now.checked_add(call)?).ok()?;
    if flush(&mut engine, &mut disk).is_some() {
        return None;
    }
    let (after, _) = disk.counts();
    leaves_all(alloc, &disk, after)
}

// How many calls a flush makes.
fn calls_of(alloc: Global) -> Option<u64> {
    let mut disk = written(alloc)?;
    let mut engine = opened(alloc, &mut disk)?;
    let (from, _) = disk.counts();
    flush(&mut engine, &mut disk)?;
    let (to, _) = disk.counts();
    to.checked_sub(from)
}

#[test]
fn a_flush_fails_at_each_of_its_calls_and_leaves_the_rows(rt: HostRuntime) {
    let Some(calls) = calls_of(rt.alloc()) else {
        assert!(rt; false);
        return;
    };
    // The last of them removes the old log: a flush that went on without it would be done.
    for call in 0..calls {
        assert!(rt; fails_at(rt.alloc(), call) == Some(true), "call {call}");
    }
    assert!(rt; fails_at(rt.alloc(), calls).is_none());
}
