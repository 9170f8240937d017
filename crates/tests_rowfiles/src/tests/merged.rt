//! A table in memory and two row files walked as one: the newest cell of a column stays, a tombstone goes before a value of the same
//! write, and a source whose read fails fails that very `next`.

use crate::tests::doubted::Doubted;
use crate::tests::given::{GivenRow, is_given, recovered, table_of_given, write};
use crate::tests::source::Source;
use alt_cells::{RowCells, RowSource, SourceFault};
use alt_disk::MemoryDisk;
use alt_fields::Bytes;
use alt_memtable::Memtable;
use alt_merge::Merge;
use alt_rowfile::RowFile;
use std::alloc::Global;

// The rows of the older file, of the newer one, and of the table. At `b` all three have a row, at `d` two.
static OLDER: [GivenRow; 4] = [
    (b"a", None, Some(1), Some(b"a1")),
    (b"b", None, Some(2), Some(b"b2")),
    (b"d", None, Some(4), Some(b"d4")),
    (b"e", None, Some(5), Some(b"e5")),
];

static NEWER: [GivenRow; 3] = [
    (b"b", Some(7), Some(7), Some(b"b7")),
    (b"c", None, Some(6), Some(b"c6")),
    (b"e", None, Some(5), None),
];

static TABLE: [GivenRow; 3] = [
    (b"b", None, Some(3), Some(b"b3")),
    (b"d", Some(9), Some(4), Some(b"d3")),
    (b"f", None, Some(8), Some(b"f8")),
];

// What the three come to.
static JOINED: [GivenRow; 6] = [
    (b"a", None, Some(1), Some(b"a1")),
    (b"b", Some(7), Some(7), Some(b"b7")),
    (b"c", None, Some(6), Some(b"c6")),
    (b"d", Some(9), Some(4), Some(b"d4")),
    (b"e", None, Some(5), None),
    (b"f", None, Some(8), Some(b"f8")),
];

fn disk_of_files(alloc: Global) -> Option<MemoryDisk> {
    let mut disk = Doubted::new(alloc);
    write(alloc, &mut disk, 3, &OLDER)?;
    write(alloc, &mut disk, 4, &NEWER)?;
    Some(disk.disk)
}

// The three as one.
fn merge_of<'a>(
    alloc: Global,
    older: &'a RowFile,
    newer: &'a RowFile,
    table: &'a Memtable,
) -> Option<Merge<Source<'a>>> {
    let mut sources = Vec::new(alloc);
    sources.push(Source::File(older.walk())).ok()?;
    sources.push(Source::Table(table.walk())).ok()?;
    sources.push(Source::File(newer.walk())).ok()?;
    Some(Merge::new(alloc, sources))
}

// Whether the next row is the joined one of this place.
fn is_joined(alloc: Global, place: usize, key: &Bytes, row: &RowCells) -> Option<bool> {
    if place >= JOINED.len() {
        return None;
    }
    is_given(alloc, &JOINED[place], key, row)
}

// Whether a merge that was sought gives the joined rows from a place on, up or down, so many, and then none.
fn gives(
    alloc: Global,
    disk: &mut MemoryDisk,
    merge: &mut Merge<Source<'_>>,
    first: usize,
    count: usize,
    forward: bool,
) -> Option<bool> {
    for j in 0..count {
        let place = if forward {
            first.checked_add(j)?
        } else {
            first.checked_sub(j)?
        };
        let (key, row) = merge.next(disk).ok()??;
        if !is_joined(alloc, place, &key, &row)? {
            return Some(false);
        }
    }
    Some(merge.next(disk).ok()?.is_none())
}

// A place to seek, and how many rows are below it.
static PLACES: [(&[u8], usize); 9] = [
    (b"", 0),
    (b"a", 0),
    (b"aa", 1),
    (b"b", 1),
    (b"c", 2),
    (b"d", 3),
    (b"e", 4),
    (b"f", 5),
    (b"g", 6),
];

fn splits(
    alloc: Global,
    disk: &mut MemoryDisk,
    merge: &mut Merge<Source<'_>>,
    key: &[u8],
    below: usize,
) -> Option<bool> {
    merge.seek(disk, Some(key), true).ok()?;
    let above = JOINED.len().checked_sub(below)?;
    let up = gives(alloc, disk, merge, below, above, true)?;
    merge.seek(disk, Some(key), false).ok()?;
    let down = gives(alloc, disk, merge, below.saturating_sub(1), below, false)?;
    Some(up && down)
}

fn splits_at(alloc: Global, key: &[u8], below: usize) -> Option<bool> {
    let mut disk = disk_of_files(alloc)?;
    let older = recovered(alloc, &mut disk, 3)?;
    let newer = recovered(alloc, &mut disk, 4)?;
    let table = table_of_given(alloc, &TABLE)?;
    let mut merge = merge_of(alloc, &older, &newer, &table)?;
    splits(alloc, &mut disk, &mut merge, key, below)
}

#[test]
fn three_sources_are_walked_as_one_both_ways(rt: HostRuntime) {
    for (key, below) in &PLACES {
        assert!(rt; splits_at(rt.alloc(), key, *below) == Some(true), "{key:?}");
    }
}

// Whether a merge that wasn't sought has no row, and one without sources none either.
fn has_none(alloc: Global) -> Option<bool> {
    let mut disk = disk_of_files(alloc)?;
    let older = recovered(alloc, &mut disk, 3)?;
    let newer = recovered(alloc, &mut disk, 4)?;
    let table = table_of_given(alloc, &TABLE)?;
    let mut merge = merge_of(alloc, &older, &newer, &table)?;
    let unsought = merge.next(&mut disk).ok()?.is_none();
    let mut empty: Merge<Source<'_>> = Merge::new(alloc, Vec::new(alloc));
    empty.seek(&mut disk, None, true).ok()?;
    Some(unsought && empty.next(&mut disk).ok()?.is_none())
}

#[test]
fn what_was_not_sought_and_what_has_no_source_has_no_row(rt: HostRuntime) {
    assert!(rt; has_none(rt.alloc()) == Some(true));
}

// Whether the merge fails where the read of a file does, and gives all rows when it is sought anew.
fn fails_at(alloc: Global, read: u64, forward: bool) -> Option<bool> {
    let mut disk = disk_of_files(alloc)?;
    let older = recovered(alloc, &mut disk, 3)?;
    let newer = recovered(alloc, &mut disk, 4)?;
    let table = table_of_given(alloc, &TABLE)?;
    let mut merge = merge_of(alloc, &older, &newer, &table)?;
    merge.seek(&mut disk, None, forward).ok()?;
    let (now, _) = disk.counts();
    disk.fail(now.checked_add(read)?).ok()?;
    let failed = match merge.next(&mut disk) {
        Err(SourceFault::Failed) => true,
        _ => false,
    };
    merge.seek(&mut disk, None, forward).ok()?;
    let first = if forward {
        0
    } else {
        JOINED.len().checked_sub(1)?
    };
    Some(failed && gives(alloc, &mut disk, &mut merge, first, JOINED.len(), forward)?)
}

#[test]
fn a_source_that_fails_fails_that_next_and_is_not_dropped(rt: HostRuntime) {
    for read in 0..2u64 {
        assert!(rt;
            fails_at(rt.alloc(), read, true) == Some(true),
            "read {read}"
        );
        assert!(rt;
            fails_at(rt.alloc(), read, false) == Some(true),
            "read {read}"
        );
    }
}
