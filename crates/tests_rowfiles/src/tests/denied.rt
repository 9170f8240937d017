//! A key between two of a file's rows costs no read in most cases: the filter of its block denies it. No row is denied.

use crate::tests::doubted::Doubted;
use crate::tests::shapes::{FILE, Shape, disk_of, key_of, row_of_shape, spelled};
use alt_cells::RowWriter;
use alt_disk::MemoryDisk;
use alt_rowfile::{RowFile, RowFileWriter};
use std::alloc::Global;

// A thousand rows of some 250 bytes, some sixteen in a block.
static ROWS: Shape = (1000, 0, 200);

// Their file, as its writer gives it.
fn written_file(alloc: Global) -> Option<(RowFile, MemoryDisk)> {
    let mut disk = Doubted::new(alloc);
    let mut writer = RowFileWriter::make(alloc, &mut disk, FILE).ok()?;
    for i in 0..ROWS.0 {
        let key = key_of(alloc, &ROWS, i, b"")?;
        let row = row_of_shape(alloc, &ROWS, i)?;
        writer.add(&mut disk, &key, &row).ok()?;
    }
    let file = writer.finish(&mut disk).ok()?;
    Some((file, disk.disk))
}

// And as it is recovered.
fn recovered_file(alloc: Global) -> Option<(RowFile, MemoryDisk)> {
    let (bytes, _) = spelled(alloc, &ROWS)?;
    let mut disk = disk_of(alloc, &bytes)?;
    let Ok(file) = RowFile::recover(alloc, &mut disk, FILE) else {
        return None;
    };
    Some((file, disk))
}

// How many rows are found at these keys, and what that costs in reads.
fn found(alloc: Global, file: &RowFile, disk: &mut MemoryDisk, more: &[u8]) -> Option<(u32, u64)> {
    let (_, before) = disk.counts();
    let mut count = 0u32;
    for i in 0..ROWS.0 {
        let key = key_of(alloc, &ROWS, i, more)?;
        if file.row(disk, &key).ok()?.is_some() {
            count = count.saturating_add(1);
        }
    }
    let (_, after) = disk.counts();
    Some((count, after.saturating_sub(before)))
}

// Whether each row is found, and the looks for keys between them cost five reads in a hundred at most.
fn denies(alloc: Global, made: Option<(RowFile, MemoryDisk)>) -> Option<bool> {
    let (file, disk) = made?;
    let mut disk = disk;
    let rows = found(alloc, &file, &mut disk, b"")?;
    let (none, reads) = found(alloc, &file, &mut disk, b"!")?;
    Some(rows == (1000, 1000) && none == 0 && reads <= 50)
}

#[test]
fn a_key_between_two_costs_a_read_five_times_in_a_hundred_at_most(rt: HostRuntime) {
    assert!(rt; denies(rt.alloc(), written_file(rt.alloc())) == Some(true));
    assert!(rt; denies(rt.alloc(), recovered_file(rt.alloc())) == Some(true));
}
