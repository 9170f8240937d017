//! The writes of segments, joined to the rows in memory where no row file has them.

ghost use Rattle.std.specs.Prelude.{◌≡◌, ◌<◌, ℕ, List, [], ◌∷◌, length, get_or, IfOk, IfErr, OnOk, IsErrOf, IsTrue};
ghost use Rattle.alt_base.specs.Counts.{Rose};
ghost use Rattle.alt_disk.specs.Disk.{Goes};
ghost use Rattle.alt_disk.specs.Runs.{Quiet};
ghost use Rattle.alt_gatelog.specs.InHand.{count_of, file_of_gate_log, form_of, ReadsEntries};
ghost use Rattle.alt_layout.specs.Entries.{HoldWrites, IsEntry};
ghost use Rattle.alt_layout.specs.Files.{AreSegments, all_of};
ghost use Rattle.alt_layout.specs.Sizes.{SegmentsAreSized, bytes_in};
ghost use Rattle.alt_writes.specs.Bytes.{AllHeld};
ghost use Rattle.alt_writes.specs.Reading.{writes_of};
ghost use Rattle.alt_writes.specs.Writes.{AreRising, Write};
ghost use Rattle.alt_recovery.specs.Entries.{ExplainsEntry};
ghost use Rattle.alt_recovery.specs.Flushed.{flushed_in};
ghost use Rattle.alt_recovery.specs.Replays.{ExplainsBadEntry, ExplainsSegment, ExplainsSegments, IsJoinedTo, Replays, ReplaysLast};

use crate::entries::read_entry;
use alt_base::NoMemory;
use alt_cells::RowChange;
use alt_disk::Disk;
use alt_families::{Family, put_changes, with_more};
use alt_gatelog::{GateLog, LogFault};
use alt_writes::LoggedWrite;
use std::alloc::Global;
use std::collections::BTreeMap;

/// Families, their flushed numbers, the least number that the next write may have, and the bytes of the entries so far.
#[derive(Drop)]
pub struct Replay {
    pub families: BTreeMap<u32, Family>,
    pub flushed: BTreeMap<u32, u64>,
    pub least: u64,
    pub length: u64,
}

/// Joins the writes of segments to the rows, and answers the log of the last one.
pub fn replay_segments<D: Disk>(
    alloc: Global,
    disk: &mut D,
    segments: &[u32],
    replay: &mut Replay,
) -> Result<GateLog, LogFault>
    ensures ok { IfOk result (λ log. IsTrue (D.state disk.old).tells
        → ReplaysLast (D.state disk.new) segments.now replay.old replay.new log) }
    ensures explained { IsTrue (D.state disk.old).tells
        → IfErr result (ExplainsSegments (D.state disk.old).file segments.now replay.old.least) }
    ensures quiet { IsTrue (D.state disk.old).tells
        → Quiet (D.state disk.old) (D.state disk.new) }
    ensures goes { Goes (D.state disk.old) (D.state disk.new) }
    ensures cause { IsErrOf result LogFault.Failed
        → Rose (D.state disk.old).faults (D.state disk.new).faults }
    ensures well { (IsErrOf result LogFault.Failed → ⊥)
        → (D.state disk.new).faults ≡ (D.state disk.old).faults }
{
    if segments.is_empty() {
        // A version has a segment.
        return Err(LogFault::NoMemory);
    }
    let last = segments.len() - 1;
    match replay_firsts(alloc, disk, &segments[..last], replay) {
        Ok(()) => {}
        Err(fault) => return Err(fault),
    }
    replay_segment(alloc, disk, segments[last], replay)
}

/// Joins the writes of the segments before the last one.
fn replay_firsts<D: Disk>(
    alloc: Global,
    disk: &mut D,
    segments: &[u32],
    replay: &mut Replay,
) -> Result<(), LogFault>
    ensures ok { IsTrue (D.state disk.old).tells → OnOk result ((parts : List (List Write))
        × (bytes : ℕ) × AreSegments (D.state disk.old).file segments.now parts
        × SegmentsAreSized (D.state disk.old).file segments.now bytes
        × Replays replay.old replay.new (all_of parts) bytes) }
    ensures explained { IsTrue (D.state disk.old).tells
        → IfErr result (ExplainsSegments (D.state disk.old).file segments.now replay.old.least) }
    ensures quiet { IsTrue (D.state disk.old).tells
        → Quiet (D.state disk.old) (D.state disk.new) }
    ensures goes { Goes (D.state disk.old) (D.state disk.new) }
    ensures cause { IsErrOf result LogFault.Failed
        → Rose (D.state disk.old).faults (D.state disk.new).faults }
    ensures well { (IsErrOf result LogFault.Failed → ⊥)
        → (D.state disk.new).faults ≡ (D.state disk.old).faults }
{
    for f in segments {
        match replay_segment(alloc, disk, *f, replay) {
            Ok(_) => {}
            Err(fault) => return Err(fault),
        }
    }
    Ok(())
}

/// Joins the writes of a segment, and answers its log.
fn replay_segment<D: Disk>(
    alloc: Global,
    disk: &mut D,
    f: u32,
    replay: &mut Replay,
) -> Result<GateLog, LogFault>
    ensures file { IfOk result (λ log. file_of_gate_log log ≡ f) }
    ensures ok { IfOk result (λ log. IsTrue (D.state disk.old).tells → (ws : List Write)
        × (entries : List (List ℕ)) × ReadsEntries (D.state disk.new) log entries
        × HoldWrites (form_of log) entries ws
        × Replays replay.old replay.new ws (bytes_in entries)) }
    ensures explained { IsTrue (D.state disk.old).tells
        → IfErr result (ExplainsSegment f replay.old.least ((D.state disk.old).file f)) }
    ensures quiet { IsTrue (D.state disk.old).tells
        → Quiet (D.state disk.old) (D.state disk.new) }
    ensures goes { Goes (D.state disk.old) (D.state disk.new) }
    ensures cause { IsErrOf result LogFault.Failed
        → Rose (D.state disk.old).faults (D.state disk.new).faults }
    ensures well { (IsErrOf result LogFault.Failed → ⊥)
        → (D.state disk.new).faults ≡ (D.state disk.old).faults }
{
    let mut log = match GateLog::recover(alloc, disk, f) {
        Ok(log) => log,
        Err(fault) => return Err(fault),
    };
    match replay_log(alloc, disk, f, &mut log, replay) {
        Ok(()) => Ok(log),
        Err(fault) => Err(fault),
    }
}

/// Joins the writes of a log, entry by entry.
fn replay_log<D: Disk>(
    alloc: Global,
    disk: &mut D,
    f: u32,
    log: &mut GateLog,
    replay: &mut Replay,
) -> Result<(), LogFault>
    ensures log { log.new ≡ log.old }
    ensures ok { IsTrue (D.state disk.old).tells → (entries : List (List ℕ))
        → ReadsEntries (D.state disk.old) log.old entries → OnOk result ((ws : List Write)
        × HoldWrites (form_of log.old) entries ws
        × Replays replay.old replay.new ws (bytes_in entries)) }
    ensures damaged { IsTrue (D.state disk.old).tells → (entries : List (List ℕ))
        → ReadsEntries (D.state disk.old) log.old entries
        → IfErr result (ExplainsBadEntry (form_of log.old) f entries replay.old.least) }
    ensures quiet { IsTrue (D.state disk.old).tells
        → Quiet (D.state disk.old) (D.state disk.new) }
    ensures goes { Goes (D.state disk.old) (D.state disk.new) }
    ensures cause { IsErrOf result LogFault.Failed
        → Rose (D.state disk.old).faults (D.state disk.new).faults }
    ensures well { (IsErrOf result LogFault.Failed → ⊥)
        → (D.state disk.new).faults ≡ (D.state disk.old).faults }
{
    for i in 0..log.entries() {
        match replay_entry(alloc, disk, f, log, i, replay) {
            Ok(()) => {}
            Err(fault) => return Err(fault),
        }
    }
    Ok(())
}

/// Joins the writes of an entry, and counts its bytes.
fn replay_entry<D: Disk>(
    alloc: Global,
    disk: &mut D,
    f: u32,
    log: &mut GateLog,
    i: usize,
    replay: &mut Replay,
) -> Result<(), LogFault>
    requires { i < count_of log.old }
    ensures log { log.new ≡ log.old }
    ensures ok { IsTrue (D.state disk.old).tells → (entries : List (List ℕ))
        → ReadsEntries (D.state disk.old) log.old entries → OnOk result ((ws : List Write)
        × IsEntry (form_of log.old) (get_or entries i []) ws
        × Replays replay.old replay.new ws (length (get_or entries i []))) }
    ensures damaged { IsTrue (D.state disk.old).tells → (entries : List (List ℕ))
        → ReadsEntries (D.state disk.old) log.old entries
        → IfErr result (ExplainsEntry (form_of log.old) f entries i replay.old.least) }
    ensures quiet { IsTrue (D.state disk.old).tells
        → Quiet (D.state disk.old) (D.state disk.new) }
    ensures goes { Goes (D.state disk.old) (D.state disk.new) }
    ensures cause { IsErrOf result LogFault.Failed
        → Rose (D.state disk.old).faults (D.state disk.new).faults }
    ensures well { (IsErrOf result LogFault.Failed → ⊥)
        → (D.state disk.new).faults ≡ (D.state disk.old).faults }
{
    let read = match read_entry(alloc, disk, f, log, i, replay.least) {
        Ok(read) => read,
        Err(fault) => return Err(fault),
    };
    match join_writes(alloc, replay, read.writes.as_slice()) {
        Ok(()) => {}
        Err(_) => return Err(LogFault::NoMemory),
    }
    replay.length = with_more(replay.length, read.length);
    Ok(())
}

/// Joins writes whose numbers rise, one after another.
fn join_writes(alloc: Global, replay: &mut Replay, writes: &[LoggedWrite]) -> Result<(), NoMemory>
    requires held { AllHeld (writes_of writes.now) }
    requires rising { AreRising replay.old.least (writes_of writes.now) }
    ensures joined { OnOk result (Replays replay.old replay.new (writes_of writes.now) 0) }
    ensures length { replay.new.length ≡ replay.old.length }
{
    for write in writes {
        join_later(
            alloc,
            &mut replay.families,
            &replay.flushed,
            write.number,
            write.changes.as_slice(),
        )?;
        replay.least = write.number + 1;
    }
    Ok(())
}

/// Joins those changes of a write whose family's row files don't have it.
fn join_later(
    alloc: Global,
    families: &mut BTreeMap<u32, Family>,
    flushed: &BTreeMap<u32, u64>,
    number: u64,
    changes: &[RowChange],
) -> Result<(), NoMemory>
    ensures { OnOk result (IsJoinedTo flushed.now families.old families.new
        (record { number = number; changes = changes.now })) }
{
    for change in changes {
        join_one(alloc, families, flushed, number, change)?;
    }
    Ok(())
}

fn join_one(
    alloc: Global,
    families: &mut BTreeMap<u32, Family>,
    flushed: &BTreeMap<u32, u64>,
    number: u64,
    change: &RowChange,
) -> Result<(), NoMemory>
    ensures { OnOk result (IsJoinedTo flushed.now families.old families.new
        (record { number = number; changes = change.now ∷ [] })) }
{
    if number <= flushed_of(flushed, change.family) {
        return Ok(());
    }
    put_changes(alloc, families, number, std::slice::from_ref(change))
}

fn flushed_of(flushed: &BTreeMap<u32, u64>, family: u32) -> u64
    ensures { result ≡ flushed_in flushed.now family }
{
    match flushed.get(&family) {
        Some(number) => *number,
        None => 0,
    }
}
