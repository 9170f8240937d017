//! A fresh store: its bytes, and calls that fail.

use alt_disk::{Disk, MemoryDisk};
use alt_engine::{MakeFault, make_store};
use alt_gatelog::GateLog;
use std::alloc::Global;

// The files of a fresh store.
static FRESH: [(u32, &[u8]); 2] = [
    (
        1,
        b"ALTLOG01\x01\0\0\0\0\0\0\0\x20\0\0\0\x03\0\0\0\0\0\0\0\x01\0\0\0\0\0\0\0\x01\0\0\0\x02\0\0\0\0\0\0\0\0\0",
    ),
    (2, b"ALTLOG02\0"),
];

// Whether the file has these bytes, of at most 63.
fn has_bytes(disk: &mut MemoryDisk, f: u32, want: &[u8]) -> bool {
    let mut buf = [0u8; 64];
    let Ok(count) = disk.read(f, 0, &mut buf) else {
        return false;
    };
    &buf[..count] == want
}

// A disk with a fresh store, none where a call failed.
fn fresh(alloc: Global) -> Option<MemoryDisk> {
    let mut disk = MemoryDisk::new(alloc);
    match make_store(alloc, &mut disk) {
        Ok(()) => Some(disk),
        Err(_) => None,
    }
}

#[test]
fn a_fresh_store_has_these_bytes(rt: HostRuntime) {
    let Some(mut disk) = fresh(rt.alloc()) else {
        assert!(rt; false);
        return;
    };
    for (f, want) in &FRESH {
        assert!(rt; has_bytes(&mut disk, *f, want), "file {f}");
    }
    assert!(rt; make_store(rt.alloc(), &mut disk) == Err(MakeFault::NotEmpty { first: 1 }));
}

// Whether the making fails where the call of this moment does.
fn fails_at(alloc: Global, call: u64) -> bool {
    let mut disk = MemoryDisk::new(alloc);
    let Ok(()) = disk.fail(call) else {
        return false;
    };
    make_store(alloc, &mut disk) == Err(MakeFault::Failed)
}

#[test]
fn each_call_that_fails_is_told(rt: HostRuntime) {
    for call in 0..9u64 {
        assert!(rt; fails_at(rt.alloc(), call), "call {call}");
    }
}

// Whether a stop after the last call leaves both logs, with so many entries.
fn left_whole(alloc: Global) -> bool {
    let Some(disk) = fresh(alloc) else {
        return false;
    };
    let (now, _) = disk.counts();
    let Ok(mut left) = disk.stopped(now, &[]) else {
        return false;
    };
    match (
        GateLog::recover(alloc, &mut left, 1),
        GateLog::recover(alloc, &mut left, 2),
    ) {
        (Ok(versions), Ok(entries)) => versions.entries() == 1 && entries.entries() == 0,
        _ => false,
    }
}

#[test]
fn a_stop_leaves_it_whole(rt: HostRuntime) {
    assert!(rt; left_whole(rt.alloc()));
}
