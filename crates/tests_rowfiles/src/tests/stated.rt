//! Walks as they are stated: of a table in memory and two files, which rows come, in which order; and a block that can't be read.

use crate::tests::doubted::Doubted;
use crate::tests::failed::{fail_next, rows_before_fault};
use crate::tests::given::{GivenRow, is_given, recovered, table_of_given, write};
use crate::tests::shapes::{FILE, Shape, disk_of, spelled};
use crate::tests::source::Source;
use crate::tests::walked::gives;
use alt_cells::RowSource;
use alt_disk::MemoryDisk;
use alt_memtable::Memtable;
use alt_merge::Merge;
use alt_rowfile::RowFile;
use std::alloc::Global;

// The rows of the table, of the one file and of the other, from where the walk goes and whether it rises, and the rows that come.
type Walk = (
    &'static [GivenRow],
    &'static [GivenRow],
    &'static [GivenRow],
    Option<&'static [u8]>,
    bool,
    &'static [GivenRow],
);

static WALKS: [Walk; 3] = [
    // The later write of a column stays.
    (
        &[(b"a", None, Some(5), Some(b"1"))],
        &[
            (b"a", None, Some(3), Some(b"2")),
            (b"c", None, Some(4), Some(b"3")),
        ],
        &[],
        None,
        true,
        &[
            (b"a", None, Some(5), Some(b"1")),
            (b"c", None, Some(4), Some(b"3")),
        ],
    ),
    // A tombstone leaves a cell of its own write, and falling is from behind.
    (
        &[(b"b", Some(7), None, None)],
        &[(b"b", None, Some(7), Some(b"1"))],
        &[(b"a", None, Some(2), Some(b"2"))],
        None,
        false,
        &[
            (b"b", Some(7), Some(7), Some(b"1")),
            (b"a", None, Some(2), Some(b"2")),
        ],
    ),
    // The same, rising from a key.
    (
        &[(b"b", Some(7), None, None)],
        &[(b"b", None, Some(7), Some(b"1"))],
        &[(b"a", None, Some(2), Some(b"2"))],
        Some(b"b"),
        true,
        &[(b"b", Some(7), Some(7), Some(b"1"))],
    ),
];

fn merge_of<'a>(
    alloc: Global,
    table: &'a Memtable,
    one: &'a RowFile,
    other: &'a RowFile,
) -> Option<Merge<Source<'a>>> {
    let mut sources = Vec::new(alloc);
    sources.push(Source::Table(table.walk())).ok()?;
    sources.push(Source::File(one.walk())).ok()?;
    sources.push(Source::File(other.walk())).ok()?;
    Some(Merge::new(alloc, sources))
}

// Whether a merge that was sought gives these rows, and then none.
fn gives_all(
    alloc: Global,
    disk: &mut MemoryDisk,
    merge: &mut Merge<Source<'_>>,
    rows: &[GivenRow],
) -> Option<bool> {
    for given in rows {
        let (key, row) = merge.next(disk).ok()??;
        if !is_given(alloc, given, &key, &row)? {
            return Some(false);
        }
    }
    Some(merge.next(disk).ok()?.is_none())
}

fn goes(alloc: Global, walk: &Walk) -> Option<bool> {
    let (in_table, in_one, in_other, from, forward, rows) = *walk;
    let mut disk = Doubted::new(alloc);
    write(alloc, &mut disk, 3, in_one)?;
    write(alloc, &mut disk, 4, in_other)?;
    let mut disk = disk.disk;
    let one = recovered(alloc, &mut disk, 3)?;
    let other = recovered(alloc, &mut disk, 4)?;
    let table = table_of_given(alloc, in_table)?;
    let mut merge = merge_of(alloc, &table, &one, &other)?;
    merge.seek(&mut disk, from, forward).ok()?;
    gives_all(alloc, &mut disk, &mut merge, rows)
}

#[test]
fn walks_give_the_rows_that_are_stated(rt: HostRuntime) {
    for (i, walk) in WALKS.iter().enumerate() {
        assert!(rt; goes(rt.alloc(), walk) == Some(true), "{i}");
    }
}

// A file of three blocks, each of one row.
static BLOCKS: Shape = (3, 0, 5000);

// Whether a merge of a table without rows and that file gives a row and fails at the next, and gives all when it is sought anew.
fn fails_at_second(alloc: Global, forward: bool) -> Option<bool> {
    let (bytes, _) = spelled(alloc, &BLOCKS)?;
    let mut disk = disk_of(alloc, &bytes)?;
    let file = recovered(alloc, &mut disk, FILE)?;
    let table = Memtable::new(alloc);
    let mut sources = Vec::new(alloc);
    sources.push(Source::Table(table.walk())).ok()?;
    sources.push(Source::File(file.walk())).ok()?;
    let mut merge = Merge::new(alloc, sources);
    merge.seek(&mut disk, None, forward).ok()?;
    let given = merge.next(&mut disk).ok()?.is_some();
    fail_next(&mut disk)?;
    let before = rows_before_fault(&mut disk, &mut merge)?;
    merge.seek(&mut disk, None, forward).ok()?;
    let first = if forward { 0 } else { 2 };
    let all = gives(alloc, &mut disk, &mut merge, &BLOCKS, first, 3, forward)?;
    Some(given && before == 0 && all)
}

#[test]
fn a_second_block_that_fails_is_no_end(rt: HostRuntime) {
    assert!(rt; fails_at_second(rt.alloc(), true) == Some(true));
    assert!(rt; fails_at_second(rt.alloc(), false) == Some(true));
}
