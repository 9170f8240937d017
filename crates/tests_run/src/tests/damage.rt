//! Stores that are none, each of which ends a run with 3 and a note of what is wrong.

use super::over::{REPLAY, ended, fresh, shell_over};
use alt_disk::{Disk, MemoryDisk};
use std::alloc::Global;

/// Bytes that are written at a place of a file of a fresh store, none where the file is removed, and the note.
type Row = (u32, u64, &'static [u8], &'static [u8]);

/// The entry of write 1 alone, with the row of the table `Tab` in the catalog, whose cell `t` is one byte 0, and the closed gate behind it.
const BAD_ROW: &[u8] =
    b"\x01\0\0\0\0\0\0\0\x43\0\0\0\0\0\0\0\x01\0\0\0\0\0\0\0\x01\0\0\0\0\0\0\0\x01\0\0\0\0\0\0\0\0\0\0\0\x03Tab\0\0\0\0\0\0\0\0\x01\0\0\0\0\0\0\0\x01t\x01\0\0\0\0\0\0\0\x01\0\0";

static ROWS: [Row; 5] = [
    (1, 0, b"\0", b"alternator: damaged: file 1 at 0\n"),
    (1, 8, b"\0", b"alternator: damaged: file 1 at 8\n"),
    (2, 0, b"", b"alternator: damaged: file 2 at 0\n"),
    (2, 8, b"\x01", b"alternator: damaged: file 2 at 8\n"),
    (2, 8, BAD_ROW, b"alternator: row: family 0 key 546162\n"),
];

// Writes bytes over what is there, and makes them last.
fn overwritten(disk: &mut MemoryDisk, file: u32, at: u64, bytes: &[u8]) -> Option<()> {
    let size = disk.size(file).ok()?;
    if at > size {
        return None;
    }
    disk.write_at(file, at, bytes).ok()?;
    disk.sync(file).ok()
}

// A fresh store with that damage.
fn damaged(alloc: Global, row: &Row) -> Option<MemoryDisk> {
    let (file, at, bytes, _) = row;
    let mut disk = fresh(alloc)?;
    if bytes.is_empty() {
        disk.remove(*file).ok()?;
    } else {
        overwritten(&mut disk, *file, *at, *bytes)?;
    }
    Some(disk)
}

// Whether a run over it ends so, and says nothing.
fn is_told(alloc: Global, row: &Row) -> Option<bool> {
    let mut shell = shell_over(alloc, damaged(alloc, row)?, &["ListTables {}"])?;
    let status = ended(alloc, &REPLAY, &mut shell)?;
    Some(status == 3 && shell.said(None).is_empty() && shell.noted() == row.3)
}

#[test]
fn a_store_that_is_none_is_named_by_its_first_fault(rt: HostRuntime) {
    for row in &ROWS {
        assert!(rt; is_told(rt.alloc(), row) == Some(true), "file {}", row.0);
    }
}
