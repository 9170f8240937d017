//! Walks over row files, both ways, from each key and from none.

use crate::tests::shapes::{FILE, Shape, disk_of, is_entry, key_of, spelled};
use alt_cells::RowSource;
use alt_disk::MemoryDisk;
use alt_memtable::Memtable;
use alt_rowfile::RowFile;
use std::alloc::Global;

/// Whether a walk that was sought gives so many rows from this number on, up or down, and then none, twice.
pub(crate) fn gives<S: RowSource<MemoryDisk>>(
    alloc: Global,
    disk: &mut MemoryDisk,
    source: &mut S,
    shape: &Shape,
    first: u32,
    count: u32,
    forward: bool,
) -> Option<bool> {
    for j in 0..count {
        let i = if forward {
            first.checked_add(j)?
        } else {
            first.checked_sub(j)?
        };
        let (key, row) = source.next(disk).ok()??;
        if !is_entry(alloc, shape, i, &key, &row)? {
            return Some(false);
        }
    }
    let end = source.next(disk).ok()?.is_none();
    Some(end && source.next(disk).ok()?.is_none())
}

// Whether a walk from a key, in both directions, gives the `above` last rows, and those before them.
fn splits<S: RowSource<MemoryDisk>>(
    alloc: Global,
    disk: &mut MemoryDisk,
    source: &mut S,
    shape: &Shape,
    key: &[u8],
    below: u32,
) -> Option<bool> {
    let above = shape.0.checked_sub(below)?;
    source.seek(disk, Some(key), true).ok()?;
    let up = gives(alloc, disk, source, shape, below, above, true)?;
    source.seek(disk, Some(key), false).ok()?;
    let last = below.saturating_sub(1);
    let down = gives(alloc, disk, source, shape, last, below, false)?;
    Some(up && down)
}

// The same from each key, from between the keys, and from none.
fn goes<S: RowSource<MemoryDisk>>(
    alloc: Global,
    disk: &mut MemoryDisk,
    source: &mut S,
    shape: &Shape,
) -> Option<bool> {
    for i in 0..shape.0 {
        let key = key_of(alloc, shape, i, b"")?;
        let behind = key_of(alloc, shape, i, b"!")?;
        if !splits(alloc, disk, source, shape, &key, i)? {
            return Some(false);
        }
        if !splits(alloc, disk, source, shape, &behind, i + 1)? {
            return Some(false);
        }
    }
    source.seek(disk, None, false).ok()?;
    let last = shape.0.saturating_sub(1);
    let down = gives(alloc, disk, source, shape, last, shape.0, false)?;
    Some(down && splits(alloc, disk, source, shape, b"", 0)?)
}

// Files of one block and of several, of rows over a block, and of none.
static SHAPES: [Shape; 5] = [
    (0, 0, 0),
    (1, 0, 5),
    (5, 0, 5000),
    (60, 0, 200),
    (9, 2048, 3),
];

fn file_goes(alloc: Global, shape: &Shape) -> Option<bool> {
    let (bytes, _) = spelled(alloc, shape)?;
    let mut disk = disk_of(alloc, &bytes)?;
    let Ok(file) = RowFile::recover(alloc, &mut disk, FILE) else {
        return None;
    };
    let mut walk = file.walk();
    goes(alloc, &mut disk, &mut walk, shape)
}

#[test]
fn a_file_is_walked_both_ways_from_each_key(rt: HostRuntime) {
    for shape in &SHAPES {
        assert!(rt; file_goes(rt.alloc(), shape) == Some(true), "{shape:?}");
    }
}

// The rows put into memory, the last one first.
fn table_of(alloc: Global, shape: &Shape) -> Option<Memtable> {
    let mut table = Memtable::new(alloc);
    for j in 0..shape.0 {
        let i = shape.0 - 1 - j;
        let key = key_of(alloc, shape, i, b"")?;
        let row = crate::tests::shapes::row_of_shape(alloc, shape, i)?;
        table.put(&key, row).ok()?;
    }
    Some(table)
}

fn table_goes(alloc: Global, shape: &Shape) -> Option<bool> {
    let mut disk = MemoryDisk::new(alloc);
    let table = table_of(alloc, shape)?;
    let mut walk = table.walk();
    let went = goes(alloc, &mut disk, &mut walk, shape)?;
    let empty = MemoryDisk::new(alloc);
    Some(went && disk.counts() == empty.counts())
}

#[test]
fn a_table_in_memory_is_walked_both_ways_with_no_call_of_the_disk(rt: HostRuntime) {
    for shape in &SHAPES {
        assert!(rt; table_goes(rt.alloc(), shape) == Some(true), "{shape:?}");
    }
}

// Rows, of which a walk is as many reads as the file has blocks.
static LARGE: [Shape; 2] = [(300, 0, 200), (20, 2048, 100)];

fn reads_each_once(alloc: Global, shape: &Shape, forward: bool) -> Option<bool> {
    let (bytes, blocks) = spelled(alloc, shape)?;
    let mut disk = disk_of(alloc, &bytes)?;
    let Ok(file) = RowFile::recover(alloc, &mut disk, FILE) else {
        return None;
    };
    let (_, before) = disk.counts();
    let mut walk = file.walk();
    walk.seek(&mut disk, None, forward).ok()?;
    let first = if forward {
        0
    } else {
        shape.0.saturating_sub(1)
    };
    let went = gives(alloc, &mut disk, &mut walk, shape, first, shape.0, forward)?;
    let (_, after) = disk.counts();
    Some(went && after == before.checked_add(blocks)?)
}

#[test]
fn a_walk_reads_each_block_once(rt: HostRuntime) {
    for shape in &LARGE {
        assert!(rt;
            reads_each_once(rt.alloc(), shape, true) == Some(true)
                && reads_each_once(rt.alloc(), shape, false) == Some(true),
            "{shape:?}"
        );
    }
}
