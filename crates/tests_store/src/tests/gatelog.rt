//! The gated log over a disk in memory: stops and failures at each call of an append, the ways of being damaged, and sizes.

ghost use Rattle.std.specs.Prelude.{◌≡◌, None, IfSome};
ghost use Rattle.alt_disk.specs.MemoryState.{state_of};

use alt_disk::{Disk, MemoryDisk};
use alt_gatelog::{Form, GateLog, LogFault};
use std::alloc::{AllocError, Global};

// A log of file 2 with two entries, none where a call failed.
fn log_with(alloc: Global, disk: &mut MemoryDisk, first: &[u8], second: &[u8]) -> Option<GateLog>
    requires { (state_of disk.old).file 2 ≡ None }
{
    let Ok(mut log) = GateLog::make(alloc, disk, 2, Form::Two) else {
        return None;
    };
    let Ok(()) = log.append(disk, first) else {
        return None;
    };
    match log.append(disk, second) {
        Ok(()) => Some(log),
        Err(_) => None,
    }
}

// An empty disk on which the call at this moment fails.
fn failing_disk(alloc: Global, call: u64) -> Option<MemoryDisk>
    ensures { IfSome result (λ disk. (state_of disk).file 2 ≡ None) }
{
    let mut disk = MemoryDisk::new(alloc);
    match disk.fail(call) {
        Ok(()) => Some(disk),
        Err(_) => None,
    }
}

// Whether the log has this entry.
fn has_entry(
    alloc: Global,
    disk: &mut MemoryDisk,
    log: &mut GateLog,
    i: usize,
    want: &[u8],
) -> bool {
    if i >= log.entries() {
        return false;
    }
    let mut out = Vec::new(alloc);
    log.entry(disk, i, &mut out).is_ok() && out.as_slice() == want
}

// How many entries the log of this file has, none where it isn't a log.
fn count_of_log(alloc: Global, disk: &mut MemoryDisk, f: u32) -> Option<usize> {
    match GateLog::recover(alloc, disk, f) {
        Ok(log) => Some(log.entries()),
        Err(_) => None,
    }
}

// Whether the file has so many entries.
fn counts_within(alloc: Global, disk: &mut MemoryDisk, least: usize, most: usize) -> bool {
    match count_of_log(alloc, disk, 2) {
        Some(count) => least <= count && count <= most,
        None => false,
    }
}

// Whether a stop at this moment leaves a log with so many entries.
fn leaves_within(
    alloc: Global,
    disk: &MemoryDisk,
    moment: u64,
    choice: &[u8],
    least: usize,
    most: usize,
) -> bool {
    let (now, _) = disk.counts();
    let Ok(mut left) = disk.stopped(moment.min(now), choice) else {
        return false;
    };
    counts_within(alloc, &mut left, least, most)
}

// So many sevens.
fn sevens(alloc: Global, count: usize) -> Result<Vec<u8>, AllocError> {
    vec![in alloc; 7u8; count]
}

// Whether a large and an empty entry are read again.
fn reads_again(alloc: Global) -> bool {
    let Ok(large) = sevens(alloc, 4 << 20) else {
        return false;
    };
    let Some(mut disk) = failing_disk(alloc, 1000) else {
        return false;
    };
    let Some(mut log) = log_with(alloc, &mut disk, large.as_slice(), b"") else {
        return false;
    };
    let first = has_entry(alloc, &mut disk, &mut log, 0, large.as_slice());
    let second = has_entry(alloc, &mut disk, &mut log, 1, b"");
    log.entries() == 2 && first && second && counts_within(alloc, &mut disk, 2, 2)
}

#[test]
fn entries_are_read_again(rt: HostRuntime) {
    assert!(rt; reads_again(rt.alloc()));
}

// The moment of a stop while a log was made and had two entries added, and the least and the most entries that it then leaves.
static STOPS: [(u64, usize, usize); 9] = [
    (2, 0, 0),
    (3, 0, 0),
    (4, 0, 0),
    (5, 0, 1),
    (6, 1, 1),
    (7, 1, 1),
    (8, 1, 1),
    (9, 1, 2),
    (10, 2, 2),
];

// Bytes of choice: all zeros; a gate that is open, and the length of a read; a gate of another byte, and more behind the end.
static CHOICES: [&[u8]; 3] = [&[], &[1, 1, 1, 1, 1, 1, 1], &[90, 7, 7, 7, 7, 7]];

// Whether a stop at this moment leaves so many entries, whatever is chosen.
fn each_choice_leaves(
    alloc: Global,
    disk: &MemoryDisk,
    moment: u64,
    least: usize,
    most: usize,
) -> bool {
    for choice in &CHOICES {
        if !leaves_within(alloc, disk, moment, *choice, least, most) {
            return false;
        }
    }
    true
}

// A disk on which a log was made and had two entries added, by ten calls.
fn two_added(alloc: Global) -> Option<MemoryDisk> {
    let mut disk = failing_disk(alloc, 1000)?;
    let Some(_) = log_with(alloc, &mut disk, b"one", b"two") else {
        return None;
    };
    Some(disk)
}

#[test]
fn a_stop_at_each_call_leaves_each_entry_whole_or_not_at_all(rt: HostRuntime) {
    let Some(disk) = two_added(rt.alloc()) else {
        assert!(rt; false);
        return;
    };
    assert!(rt; disk.counts().0 == 10);
    for (moment, least, most) in &STOPS {
        assert!(rt;
            each_choice_leaves(rt.alloc(), &disk, *moment, *least, *most),
            "at {moment}"
        );
    }
}

// Whether an append whose call of this moment fails leaves the list, or the entry too.
fn fails_whole(alloc: Global, call: u64, most: usize) -> bool {
    let Some(mut disk) = failing_disk(alloc, call) else {
        return false;
    };
    let None = log_with(alloc, &mut disk, b"one", b"two") else {
        return false;
    };
    counts_within(alloc, &mut disk, 0, most)
}

// The moment of the call that fails, and the most entries that the file then has.
static FAILURES: [(u64, usize); 4] = [(2, 0), (3, 0), (4, 0), (5, 1)];

#[test]
fn an_append_whose_call_fails_leaves_the_list_or_the_entry_too(rt: HostRuntime) {
    for (call, most) in &FAILURES {
        assert!(rt; fails_whole(rt.alloc(), *call, *most), "call {call}");
    }
}

// The bytes of a file, and how many entries it has, or else the place where it is damaged.
static DAMAGE: [(&[u8], Result<usize, u64>); 12] = [
    (b"", Err(0)),
    (b"ALTLOG0", Err(0)),
    (b"ALTLOG00\x00", Err(0)),
    (b"ALTLOG03\x00", Err(0)),
    (b"ALTLOG01", Err(8)),
    (b"ALTLOG01\x00", Ok(0)),
    (b"ALTLOG02\x00", Ok(0)),
    (b"ALTLOG01\x07\x01\x01", Ok(0)),
    (b"ALTLOG01\x01\0\0\0\0\0\0\0", Err(8)),
    (b"ALTLOG01\x01\0\0\0\0\0\0\0\x02x", Err(8)),
    (b"ALTLOG01\x01\0\0\0\0\0\0\0\x01x", Err(18)),
    (b"ALTLOG01\x01\0\0\0\0\0\0\0\x01x\x02rest", Ok(1)),
];

// Whether a file of these bytes is read so.
fn read_so(alloc: Global, bytes: &[u8], want: Result<usize, u64>) -> bool {
    let mut disk = MemoryDisk::new(alloc);
    let Ok(()) = disk.write_at(2, 0, bytes) else {
        return false;
    };
    match (GateLog::recover(alloc, &mut disk, 2), want) {
        (Ok(log), Ok(count)) => log.entries() == count,
        (Err(fault), Err(at)) => fault == LogFault::Damaged { file: 2, at },
        _ => false,
    }
}

// The form that the log of a file of these bytes has.
fn form_of(alloc: Global, bytes: &[u8]) -> Option<Form> {
    let mut disk = MemoryDisk::new(alloc);
    disk.write_at(2, 0, bytes).ok()?;
    match GateLog::recover(alloc, &mut disk, 2) {
        Ok(log) => Some(log.form()),
        Err(_) => None,
    }
}

#[test]
fn the_header_names_the_form(rt: HostRuntime) {
    assert!(rt; form_of(rt.alloc(), b"ALTLOG01\0") == Some(Form::One));
    assert!(rt; form_of(rt.alloc(), b"ALTLOG02\x01\0\0\0\0\0\0\0\x01x\0") == Some(Form::Two));
}

#[test]
fn damage_is_named_by_its_place(rt: HostRuntime) {
    for (bytes, want) in &DAMAGE {
        assert!(rt; read_so(rt.alloc(), *bytes, *want), "{} bytes", bytes.len());
    }
}

// The bytes of a log of so many entries of four bytes each.
fn many(alloc: Global, count: u32) -> Result<Vec<u8>, AllocError> {
    let mut bytes = Vec::new(alloc);
    bytes.extend_from_slice(b"ALTLOG01")?;
    for i in 0..count {
        bytes.extend_from_slice(b"\x01\0\0\0\0\0\0\0\x04")?;
        bytes.extend_from_slice(&i.to_be_bytes())?;
    }
    bytes.push(0)?;
    Ok(bytes)
}

#[test]
fn ten_thousand_entries_are_read(rt: HostRuntime) {
    let alloc = rt.alloc();
    let Ok(bytes) = many(alloc, 10_000) else {
        assert!(rt; false);
        return;
    };
    assert!(rt; read_so(alloc, bytes.as_slice(), Ok(10_000)));
}
