//! Files that a store is opened from, and why it isn't.

use crate::tests::written::LIMITS;
use alt_disk::{Disk, MemoryDisk};
use alt_engine::{Engine, RecoverFault};
use std::alloc::Global;

// The versions of a store.
const VERSIONS: &[u8] =
    b"ALTLOG01\x01\0\0\0\0\0\0\0\x20\0\0\0\x03\0\0\0\0\0\0\0\x01\0\0\0\0\0\0\0\x01\0\0\0\x02\0\0\0\0\0\0\0\0\0";

// Files 1 and 2, of which an empty one isn't made; and the place that is damaged.
static BAD: [(&[u8], &[u8], u32, u64); 17] = [
    // No files, or no entries.
    (b"", b"", 1, 0),
    (VERSIONS, b"", 2, 0),
    // Versions of the second form, without a header, without an entry, and with one that is none.
    (b"ALTLOG02\0", b"ALTLOG01\0", 1, 0),
    (b"ALTLOG03\0", b"ALTLOG01\0", 1, 0),
    (b"ALTLOG01\0", b"ALTLOG01\0", 1, 8),
    (b"ALTLOG01\x01\0\0\0\0\0\0\0\x01\0\0", b"ALTLOG01\0", 1, 8),
    // Entries without a whole header, without a gate, and cut.
    (VERSIONS, b"ALTLOG0", 2, 0),
    (VERSIONS, b"ALTLOG01", 2, 8),
    (VERSIONS, b"ALTLOG01\x01\0\0\0\0\0\0\0\x10\0", 2, 8),
    // An entry of one byte, and one with more changes told than there are bytes.
    (VERSIONS, b"ALTLOG01\x01\0\0\0\0\0\0\0\x01\0\0", 2, 8),
    (
        VERSIONS,
        b"ALTLOG01\x01\0\0\0\0\0\0\0\x10\0\0\0\0\0\0\0\x01\xff\0\0\0\0\0\0\0\0",
        2,
        8,
    ),
    // The numbers 0 and 2^62 - 1, and the number 1 twice.
    (
        VERSIONS,
        b"ALTLOG01\x01\0\0\0\0\0\0\0\x10\0\0\0\0\0\0\0\0\0\0\0\0\0\0\0\0\0",
        2,
        8,
    ),
    (
        VERSIONS,
        b"ALTLOG01\x01\0\0\0\0\0\0\0\x10\x3f\xff\xff\xff\xff\xff\xff\xff\0\0\0\0\0\0\0\0\0",
        2,
        8,
    ),
    (
        VERSIONS,
        b"ALTLOG01\x01\0\0\0\0\0\0\0\x10\0\0\0\0\0\0\0\x01\0\0\0\0\0\0\0\0\x01\0\0\0\0\0\0\0\x10\0\0\0\0\0\0\0\x01\0\0\0\0\0\0\0\0\0",
        2,
        33,
    ),
    // Groups: of no write, with one write less than is told, and of two writes of one number.
    (
        VERSIONS,
        b"ALTLOG02\x01\0\0\0\0\0\0\0\x08\0\0\0\0\0\0\0\0\0",
        2,
        8,
    ),
    (
        VERSIONS,
        b"ALTLOG02\x01\0\0\0\0\0\0\0\x18\0\0\0\0\0\0\0\x02\0\0\0\0\0\0\0\x01\0\0\0\0\0\0\0\0\0",
        2,
        8,
    ),
    (
        VERSIONS,
        b"ALTLOG02\x01\0\0\0\0\0\0\0\x28\0\0\0\0\0\0\0\x02\0\0\0\0\0\0\0\x01\0\0\0\0\0\0\0\0\0\0\0\0\0\0\0\x01\0\0\0\0\0\0\0\0\0",
        2,
        8,
    ),
];

// Entries that are writes, and the number behind them.
static GOOD: [(&[u8], u64); 5] = [
    (b"ALTLOG01\0", 1),
    (
        b"ALTLOG01\x01\0\0\0\0\0\0\0\x10\0\0\0\0\0\0\0\x05\0\0\0\0\0\0\0\0\0",
        6,
    ),
    // A group of the writes 5 and 7.
    (b"ALTLOG02\0", 1),
    (
        b"ALTLOG02\x01\0\0\0\0\0\0\0\x28\0\0\0\0\0\0\0\x02\0\0\0\0\0\0\0\x05\0\0\0\0\0\0\0\0\0\0\0\0\0\0\0\x07\0\0\0\0\0\0\0\0\0",
        8,
    ),
    // The last number that a write may have.
    (
        b"ALTLOG01\x01\0\0\0\0\0\0\0\x10\x3f\xff\xff\xff\xff\xff\xff\xfe\0\0\0\0\0\0\0\0\0",
        4_611_686_018_427_387_903,
    ),
];

// Puts bytes into a new file, unless there are none.
fn put(disk: &mut MemoryDisk, f: u32, bytes: &[u8]) -> bool {
    if bytes.is_empty() {
        return true;
    }
    disk.write_at(f, 0, bytes).is_ok()
}

fn opened(alloc: Global, versions: &[u8], entries: &[u8]) -> Result<u64, RecoverFault> {
    let mut disk = MemoryDisk::new(alloc);
    if !put(&mut disk, 1, versions) {
        return Err(RecoverFault::Failed);
    }
    if !put(&mut disk, 2, entries) {
        return Err(RecoverFault::Failed);
    }
    match Engine::recover(alloc, &mut disk, LIMITS) {
        Ok(engine) => Ok(engine.next_number()),
        Err(fault) => Err(fault),
    }
}

#[test]
fn what_is_no_store_is_named(rt: HostRuntime) {
    for (versions, entries, file, at) in &BAD {
        let fault = RecoverFault::Damaged {
            file: *file,
            at: *at,
        };
        let found = opened(rt.alloc(), versions, entries);
        assert!(rt; found == Err(fault), "file {file}, place {at}");
    }
}

#[test]
fn numbers_may_be_left_out(rt: HostRuntime) {
    for (entries, next) in &GOOD {
        assert!(rt;
            opened(rt.alloc(), VERSIONS, entries) == Ok(*next),
            "{next}"
        );
    }
}

// A version that names family 7, with its rows up to write 1 in file 3.
const WITH_FILE: &[u8] =
    b"ALTLOG01\x01\0\0\0\0\0\0\0\x38\0\0\0\x04\0\0\0\0\0\0\0\x02\0\0\0\0\0\0\0\x01\0\0\0\x02\0\0\0\0\0\0\0\x01\0\0\0\x07\0\0\0\0\0\0\0\x01\0\0\0\0\0\0\0\x01\0\0\0\x03\0";

// The digest of no bytes.
const NOTHING: [u8; 32] = [
    0xe3, 0xb0, 0xc4, 0x42, 0x98, 0xfc, 0x1c, 0x14, 0x9a, 0xfb, 0xf4, 0xc8, 0x99, 0x6f, 0xb9, 0x24,
    0x27, 0xae, 0x41, 0xe4, 0x64, 0x9b, 0x93, 0x4c, 0xa4, 0x95, 0x99, 0x1b, 0x78, 0x52, 0xb8, 0x55,
];

// Why a store isn't opened whose file 3 has these bytes.
fn refused(alloc: Global, rows: &[u8]) -> Option<RecoverFault> {
    let mut disk = MemoryDisk::new(alloc);
    if put(&mut disk, 1, WITH_FILE) && put(&mut disk, 2, b"ALTLOG01\0") && put(&mut disk, 3, rows) {
        return Engine::recover(alloc, &mut disk, LIMITS).err();
    }
    None
}

#[test]
fn a_row_file_that_is_none_is_named(rt: HostRuntime) {
    let none = Some(RecoverFault::Damaged { file: 3, at: 0 });
    // It isn't there, is too short, or is nothing behind a digest that is right.
    assert!(rt; refused(rt.alloc(), b"") == none);
    assert!(rt; refused(rt.alloc(), &[0; 31]) == none);
    assert!(rt; refused(rt.alloc(), &NOTHING) == none);
}

#[test]
fn a_digest_that_differs_is_told_with_both(rt: HostRuntime) {
    let differs = RecoverFault::DigestDiffers {
        file: 3,
        kept: [0; 32],
        found: NOTHING,
    };
    assert!(rt; refused(rt.alloc(), &[0; 32]) == Some(differs));
}

// A store with a file that no version names.
fn with_another(alloc: Global) -> Option<MemoryDisk> {
    let mut disk = MemoryDisk::new(alloc);
    if put(&mut disk, 1, VERSIONS) && put(&mut disk, 2, b"ALTLOG01\0") && put(&mut disk, 9, b"x") {
        return Some(disk);
    }
    None
}

// How many calls its opening makes.
fn calls_of(alloc: Global) -> Option<u64> {
    let mut disk = with_another(alloc)?;
    let (from, _) = disk.counts();
    let _ = Engine::recover(alloc, &mut disk, LIMITS).ok()?;
    let (to, _) = disk.counts();
    to.checked_sub(from)
}

// Whether the opening fails where its call of this number does, and the next one goes on and leaves the other file out.
fn fails_at(alloc: Global, call: u64) -> Option<bool> {
    let mut disk = with_another(alloc)?;
    let (now, _) = disk.counts();
    disk.fail(now.checked_add(call)?).ok()?;
    let failed = Engine::recover(alloc, &mut disk, LIMITS).err() == Some(RecoverFault::Failed);
    let opened = Engine::recover(alloc, &mut disk, LIMITS).is_ok();
    Some(failed && opened && disk.size(9) == Ok(0))
}

#[test]
fn an_opening_fails_at_each_of_its_calls(rt: HostRuntime) {
    let Some(calls) = calls_of(rt.alloc()) else {
        assert!(rt; false);
        return;
    };
    // One of them removes the file that no version names: an opening that went on without it would be done.
    for call in 0..calls {
        assert!(rt; fails_at(rt.alloc(), call) == Some(true), "call {call}");
    }
    assert!(rt; fails_at(rt.alloc(), calls) == Some(false));
}
