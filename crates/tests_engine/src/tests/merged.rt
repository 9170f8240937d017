//! A store whose files are merged, step by step between other calls or all at once, and one that is stopped meanwhile.

ghost use Rattle.std.specs.Prelude.{IfSome};
ghost use Rattle.alt_disk.specs.MemoryState.{state_of};
ghost use Rattle.tests_engine.specs.Ready.{IsReady};

use crate::tests::written::{Write, fresh, put};
use alt_cells::{Batch, CellList, RowChange};
use alt_disk::{Disk, MemoryDisk};
use alt_engine::{Engine, Limits, Task, Worked};
use alt_fields::Bytes;
use std::alloc::Global;

/// No family is flushed by itself, and two files of one are merged.
const LIMITS: Limits = Limits {
    flush: 1 << 40,
    merge: 2,
};

// The engine of the store on a disk.
fn opened(alloc: Global, disk: &mut MemoryDisk) -> Option<Engine>
    ensures { IfSome result (IsReady (state_of disk.new)) }
{
    match Engine::recover(alloc, disk, LIMITS) {
        Ok(engine) => Some(engine),
        Err(_) => None,
    }
}

// Does a task on families 0 and 7.
fn work(engine: &mut Engine, disk: &mut MemoryDisk, task: Task) -> Option<Worked>
    requires { IsReady (state_of disk.old) engine.old }
    ensures { IfSome result (λ _. IsReady (state_of disk.new) engine.new) }
{
    match engine.work(disk, task, &[0, 7]) {
        Ok(worked) => Some(worked),
        Err(_) => None,
    }
}

// Makes a step for which family 7 isn't there any more.
fn step_without(engine: &mut Engine, disk: &mut MemoryDisk) -> Option<Worked>
    requires { IsReady (state_of disk.old) engine.old }
    ensures { IfSome result (λ _. IsReady (state_of disk.new) engine.new) }
{
    match engine.work(disk, Task::Step, &[0]) {
        Ok(worked) => Some(worked),
        Err(_) => None,
    }
}

// A batch of so many rows of family 7, whose keys are numbers from one on.
fn rows(alloc: Global, from: u32, count: u32) -> Option<Batch> {
    let mut batch = Batch::new(alloc);
    for i in 0..count {
        let mut cells = CellList::new(alloc);
        let name = Bytes::new(alloc, b"v").ok()?;
        let value = Bytes::new(alloc, b"x").ok()?;
        cells.push(name, Some(value)).ok()?;
        let number = from.checked_add(i)?;
        let key = Bytes::new(alloc, &number.to_be_bytes()).ok()?;
        if batch.has(7, key.as_slice()) {
            return None;
        }
        let change = RowChange {
            family: 7,
            key,
            clear: true,
            cells,
        };
        batch.add(change).ok()?;
    }
    Some(batch)
}

// Makes one write.
fn write(engine: &mut Engine, disk: &mut MemoryDisk, batch: &Batch) -> Option<u64>
    requires { IsReady (state_of disk.old) engine.old }
    ensures { IfSome result (λ _. IsReady (state_of disk.new) engine.new) }
{
    match engine.apply(disk, batch) {
        Ok(number) => Some(number),
        Err(_) => None,
    }
}

// Writes so many rows and flushes them into a file of their own.
fn filed(
    alloc: Global,
    engine: &mut Engine,
    disk: &mut MemoryDisk,
    from: u32,
    count: u32,
) -> Option<()>
    requires { IsReady (state_of disk.old) engine.old }
    ensures { IfSome result (λ _. IsReady (state_of disk.new) engine.new) }
{
    let batch = rows(alloc, from, count)?;
    let _ = write(engine, disk, &batch)?;
    let _ = work(engine, disk, Task::FlushAll)?;
    Some(())
}

// The files that are there.
fn files(alloc: Global, disk: &mut MemoryDisk) -> Option<Vec<u32>> {
    let mut names = Vec::new(alloc);
    disk.names(&mut names).ok()?;
    Some(names)
}

// What a step answers, as a letter.
fn letter(worked: Worked) -> u8 {
    match worked {
        Worked::Idle => b'i',
        Worked::Went => b'w',
        Worked::Done => b'd',
    }
}

// What eight steps answer where two files have so many rows together.
fn steps(alloc: Global, count: u32) -> Option<Vec<u8>> {
    let mut disk = fresh(alloc)?;
    let mut engine = opened(alloc, &mut disk)?;
    filed(alloc, &mut engine, &mut disk, 0, 1)?;
    filed(alloc, &mut engine, &mut disk, 1, count.checked_sub(1)?)?;
    let mut said = Vec::new(alloc);
    'steps: for _ in 0..5 {
        let worked = work(&mut engine, &mut disk, Task::Step)?;
        said.push(letter(worked)).ok()?;
    }
    Some(said)
}

fn says(alloc: Global, count: u32, wanted: &[u8]) -> Option<bool> {
    Some(steps(alloc, count)?.as_slice() == wanted)
}

#[test]
fn a_step_takes_256_rows(rt: HostRuntime) {
    // The first step makes the file and takes none.
    assert!(rt; says(rt.alloc(), 255, b"wdiii") == Some(true));
    assert!(rt; says(rt.alloc(), 256, b"wdiii") == Some(true));
    assert!(rt; says(rt.alloc(), 257, b"wwdii") == Some(true));
    assert!(rt; says(rt.alloc(), 512, b"wwdii") == Some(true));
    assert!(rt; says(rt.alloc(), 513, b"wwwdi") == Some(true));
}

// Whether so many rows are shown.
fn has(engine: &mut Engine, disk: &mut MemoryDisk, count: u32) -> Option<bool> {
    for i in 0..count {
        if engine.row(disk, 7, &i.to_be_bytes()).ok()?.is_none() {
            return Some(false);
        }
    }
    Some(engine.row(disk, 7, &count.to_be_bytes()).ok()?.is_none())
}

// Whether all rows are shown where a file is flushed between two steps of a merge: while it is under way, or once it is ended; and then also
// by a store that is opened again.
fn beside(alloc: Global, ended: bool) -> Option<bool> {
    let mut disk = fresh(alloc)?;
    let mut engine = opened(alloc, &mut disk)?;
    filed(alloc, &mut engine, &mut disk, 0, 200)?;
    filed(alloc, &mut engine, &mut disk, 200, 100)?;
    let began = work(&mut engine, &mut disk, Task::Step)?;
    let went = work(&mut engine, &mut disk, Task::Step)?;
    filed(alloc, &mut engine, &mut disk, 300, 2)?;
    if !ended {
        let shown = has(&mut engine, &mut disk, 302)?;
        return Some(shown && began == Worked::Went && went == Worked::Went);
    }
    let done = work(&mut engine, &mut disk, Task::Step)?;
    let after = has(&mut engine, &mut disk, 302)?;
    // The versions, what was made, the file that was flushed meanwhile, and the segment.
    let named = files(alloc, &mut disk)?.len() == 4;
    let mut again = opened(alloc, &mut disk)?;
    let shown = has(&mut again, &mut disk, 302)?;
    Some(done == Worked::Done && after && named && shown)
}

#[test]
fn a_file_flushed_meanwhile_stays(rt: HostRuntime) {
    assert!(rt; beside(rt.alloc(), false) == Some(true));
    assert!(rt; beside(rt.alloc(), true) == Some(true));
}

// How many files there are once a merge was begun, or was given up since its family isn't live any more.
fn begun(alloc: Global, dropped: bool) -> Option<usize> {
    let mut disk = fresh(alloc)?;
    let mut engine = opened(alloc, &mut disk)?;
    filed(alloc, &mut engine, &mut disk, 0, 1)?;
    filed(alloc, &mut engine, &mut disk, 1, 1)?;
    let began = work(&mut engine, &mut disk, Task::Step)?;
    if dropped {
        let idle = step_without(&mut engine, &mut disk)?;
        if idle != Worked::Idle {
            return None;
        }
    }
    if began != Worked::Went {
        return None;
    }
    Some(files(alloc, &mut disk)?.len())
}

#[test]
fn a_merge_of_a_dropped_family_is_given_up(rt: HostRuntime) {
    // The versions, the segment, the two files, and that of the merge.
    assert!(rt; begun(rt.alloc(), false) == Some(5));
    assert!(rt; begun(rt.alloc(), true) == Some(4));
}

// The files that a stop now leaves.
fn left(alloc: Global, disk: &MemoryDisk) -> Option<Vec<u32>> {
    let (now, _) = disk.counts();
    let mut copy = disk.stopped(now, &[]).ok()?;
    files(alloc, &mut copy)
}

// Whether merges of all leave one file, and do nothing when they are asked for again.
fn all_once(alloc: Global) -> Option<bool> {
    let mut disk = fresh(alloc)?;
    let mut engine = opened(alloc, &mut disk)?;
    let none = work(&mut engine, &mut disk, Task::MergeAll)?;
    filed(alloc, &mut engine, &mut disk, 0, 1)?;
    // One file whose rows have tombstones is merged too.
    let one = work(&mut engine, &mut disk, Task::MergeAll)?;
    let before = left(alloc, &disk)?;
    let again = work(&mut engine, &mut disk, Task::MergeAll)?;
    let after = left(alloc, &disk)?;
    let shown = has(&mut engine, &mut disk, 1)?;
    Some(
        none == Worked::Idle
            && one == Worked::Done
            && again == Worked::Idle
            && before.as_slice() == after.as_slice()
            && shown,
    )
}

#[test]
fn merges_of_all_are_made_once(rt: HostRuntime) {
    assert!(rt; all_once(rt.alloc()) == Some(true));
}

// Writes of one key, each flushed into a file of its own: old cells, that they are gone, and newer ones.
static WRITES: [Write; 5] = [
    (b"a", b"one"),
    (b"b", b"two"),
    (b"a", b""),
    (b"b", b""),
    (b"b", b"three"),
];

// A store with a file of each write.
fn layered(alloc: Global, engine: &mut Engine, disk: &mut MemoryDisk) -> Option<()>
    requires { IsReady (state_of disk.old) engine.old }
    ensures { IfSome result (λ _. IsReady (state_of disk.new) engine.new) }
{
    for write in &WRITES {
        let _ = put(alloc, engine, disk, write)?;
        let _ = work(engine, disk, Task::FlushAll)?;
    }
    Some(())
}

// Whether the rows that are left of these writes are shown, and no other.
fn shows_last(engine: &mut Engine, disk: &mut MemoryDisk) -> Option<bool> {
    let gone = engine.row(disk, 7, b"a").ok()?.is_none();
    let Some(row) = engine.row(disk, 7, b"b").ok()? else {
        return Some(false);
    };
    let Some(value) = row.get(b"v") else {
        return Some(false);
    };
    Some(gone && value.as_slice() == b"three".as_slice())
}

// Bytes by which a stop may pick what it leaves.
static CHOICES: [&[u8]; 3] = [&[], &[1; 99], &[2, 0, 255, 7, 1, 1, 0, 3, 128, 1, 0, 1]];

// Whether a stop at this moment leaves the rows, however it picks.
fn leaves_last(alloc: Global, disk: &MemoryDisk, moment: u64) -> Option<bool> {
    let (now, _) = disk.counts();
    if moment > now {
        return None;
    }
    for choice in &CHOICES {
        let mut left = disk.stopped(moment, choice).ok()?;
        let mut engine = opened(alloc, &mut left)?;
        if !shows_last(&mut engine, &mut left)? {
            return Some(false);
        }
    }
    Some(true)
}

// Whether a stop at each moment of merges leaves the rows: step by step, or all at once.
fn stops(alloc: Global, task: Task) -> Option<bool> {
    let mut disk = fresh(alloc)?;
    let mut engine = opened(alloc, &mut disk)?;
    layered(alloc, &mut engine, &mut disk)?;
    let (from, _) = disk.counts();
    let _ = work(&mut engine, &mut disk, task)?;
    let _ = work(&mut engine, &mut disk, task)?;
    let (to, _) = disk.counts();
    for moment in from..to {
        if !leaves_last(alloc, &disk, moment)? {
            return Some(false);
        }
    }
    let last = leaves_last(alloc, &disk, to)?;
    // The versions, the segment and one file.
    Some(last && files(alloc, &mut disk)?.len() == 3)
}

#[test]
fn a_stop_within_a_merge_leaves_the_rows(rt: HostRuntime) {
    assert!(rt; stops(rt.alloc(), Task::Step) == Some(true));
    assert!(rt; stops(rt.alloc(), Task::MergeAll) == Some(true));
}
