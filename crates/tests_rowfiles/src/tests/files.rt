//! The bytes that a writer writes, and what is read of files that are changed, cut, or no row files.

use crate::tests::doubted::Doubted;
use crate::tests::shapes::{
    FILE, Shape, bytes_of, digest_of, disk_of, key_of, row_of_shape, spelled, written,
};
use alt_cells::{Cell, CellMap, RowCells, RowWriter, row_bytes};
use alt_disk::MemoryDisk;
use alt_fields::Bytes;
use alt_rowfile::{RowFile, RowFileFault, RowFileWriter};
use std::alloc::Global;

// No row, one, one over a block, rows that fill a block to the byte before, to the byte, and past it; keys that share 2 KB; some hundred.
static SHAPES: [Shape; 8] = [
    (0, 0, 0),
    (1, 0, 5),
    (3, 0, 9000),
    (2, 0, 4040),
    (2, 0, 4041),
    (2, 0, 4042),
    (50, 2048, 9),
    (500, 0, 200),
];

// Many rows, in many blocks.
static MANY: Shape = (1500, 3, 9);

// Whether the bytes are those of the format.
fn is_spelled(alloc: Global, shape: &Shape) -> Option<bool> {
    let (want, _) = spelled(alloc, shape)?;
    let mut disk = written(alloc, shape)?;
    let bytes = bytes_of(alloc, &mut disk)?;
    Some(bytes.as_slice() == want.as_slice())
}

#[test]
fn a_writer_writes_what_the_format_says(rt: HostRuntime) {
    for shape in &SHAPES {
        assert!(rt; is_spelled(rt.alloc(), shape) == Some(true), "{shape:?}");
    }
    assert!(rt; is_spelled(rt.alloc(), &MANY) == Some(true));
}

// Whether the row of a number is found by one read, and none at the key with a byte more.
fn finds(
    alloc: Global,
    file: &RowFile,
    disk: &mut MemoryDisk,
    shape: &Shape,
    i: u32,
) -> Option<bool> {
    let key = key_of(alloc, shape, i, b"")?;
    let (_, before) = disk.counts();
    let found = file.row(disk, &key).ok()??;
    let (_, after) = disk.counts();
    let mut bytes = Vec::new(alloc);
    row_bytes(&found, &mut bytes).ok()?;
    let mut want = Vec::new(alloc);
    row_bytes(&row_of_shape(alloc, shape, i)?, &mut want).ok()?;
    let behind = key_of(alloc, shape, i, b"!")?;
    let none = file.row(disk, &behind).ok()?;
    let one = after == before.checked_add(1)?;
    Some(one && bytes.as_slice() == want.as_slice() && none.is_none())
}

// Whether each row is found, and without a read that there is none below the first key.
fn finds_each(alloc: Global, shape: &Shape) -> Option<bool> {
    let (bytes, _) = spelled(alloc, shape)?;
    let mut disk = disk_of(alloc, &bytes)?;
    let Ok(file) = RowFile::recover(alloc, &mut disk, FILE) else {
        return None;
    };
    for i in 0..shape.0 {
        if !finds(alloc, &file, &mut disk, shape, i)? {
            return Some(false);
        }
    }
    let (_, after) = disk.counts();
    let none = file.row(&mut disk, b"").ok()?.is_none();
    let (_, last) = disk.counts();
    Some(none && last == after)
}

#[test]
fn each_row_is_found_by_one_read(rt: HostRuntime) {
    for shape in &SHAPES {
        assert!(rt; finds_each(rt.alloc(), shape) == Some(true), "{shape:?}");
    }
}

// What recovery says of these bytes.
fn fault_of(alloc: Global, bytes: &[u8]) -> Option<RowFileFault> {
    let mut disk = disk_of(alloc, bytes)?;
    match RowFile::recover(alloc, &mut disk, FILE) {
        Ok(_) => None,
        Err(fault) => Some(fault),
    }
}

const DAMAGED: RowFileFault = RowFileFault::Damaged { file: FILE, at: 0 };

// What is to be said of bytes that don't end with their digest.
fn differs(bytes: &[u8]) -> RowFileFault {
    if bytes.len() < 32 {
        return DAMAGED;
    }
    let (rest, last) = bytes.split_at(bytes.len() - 32);
    let mut kept = [0u8; 32];
    kept.copy_from_slice(last);
    RowFileFault::DigestDiffers {
        file: FILE,
        kept,
        found: digest_of(rest),
    }
}

// Whether the bytes with one changed, and those before it, are found out.
fn is_found_out(alloc: Global, bytes: &[u8], at: usize) -> Option<bool> {
    let mut changed = Vec::from_slice(alloc, bytes).ok()?;
    if at >= changed.len() || at >= bytes.len() {
        return None;
    }
    changed[at] ^= 1;
    let cut = &bytes[..at];
    Some(
        fault_of(alloc, &changed) == Some(differs(&changed))
            && fault_of(alloc, cut) == Some(differs(cut)),
    )
}

// The first place at which a change or a cut isn't found out.
fn first_missed(alloc: Global, shape: &Shape) -> Option<usize> {
    let (bytes, _) = spelled(alloc, shape)?;
    for at in 0..bytes.len() {
        if is_found_out(alloc, &bytes, at) != Some(true) {
            return Some(at);
        }
    }
    None
}

static SMALL: [Shape; 2] = [(0, 0, 0), (4, 2, 3)];

#[test]
fn each_changed_byte_and_each_cut_is_found_out(rt: HostRuntime) {
    for shape in &SMALL {
        assert!(rt; spelled(rt.alloc(), shape).is_some(), "{shape:?}");
        let missed = first_missed(rt.alloc(), shape);
        assert!(rt; missed.is_none(), "{shape:?}: {missed:?}");
    }
}

// Bytes that are no row file, though their digest stands behind them.
static BODIES: [&[u8]; 12] = [
    b"",
    b"ALTROW01",
    // Of no rows: another header, a count of blocks or of rows too many, a place within the header and one past the end.
    b"ALTROW02\0\0\0\0\0\0\0\0\0\0\0\0\0\0\0\0\0\0\0\0\0\0\0\x08",
    b"ALTROW01\0\0\0\0\0\0\0\x01\0\0\0\0\0\0\0\0\0\0\0\0\0\0\0\x08",
    b"ALTROW01\0\0\0\0\0\0\0\0\0\0\0\0\0\0\0\x01\0\0\0\0\0\0\0\x08",
    b"ALTROW01\0\0\0\0\0\0\0\0\0\0\0\0\0\0\0\0\0\0\0\0\0\0\0\x07",
    b"ALTROW01\0\0\0\0\0\0\0\0\0\0\0\0\0\0\0\0\xff\xff\xff\xff\xff\xff\xff\xff",
    // A byte too many, before the index and behind it.
    b"ALTROW01!\0\0\0\0\0\0\0\0\0\0\0\0\0\0\0\0\0\0\0\0\0\0\0\x09",
    b"ALTROW01\0\0\0\0\0\0\0\0\0\0\0\0\0\0\0\0!\0\0\0\0\0\0\0\x08",
    // A block without rows, and one whose length no bytes have.
    b"ALTROW01\0\0\0\0\0\0\0\0\0\0\0\0\0\0\0\x01\0\0\0\0\0\0\0\x08\0\0\0\0\0\0\0\0\0\0\0\0\0\0\0\0\0\0\0\0\0\0\0\x10",
    b"ALTROW01\xff\xff\xff\xff\xff\xff\xff\xff\0\0\0\0\0\0\0\0\0\0\0\0\0\0\0\0\0\0\0\0\0\0\0\x10",
    // A count of blocks that no memory has.
    b"ALTROW01\xff\xff\xff\xff\xff\xff\xff\xff\0\0\0\0\0\0\0\0\0\0\0\0\0\0\0\x08",
];

fn is_damaged(alloc: Global, body: &[u8]) -> Option<bool> {
    let mut bytes = Vec::from_slice(alloc, body).ok()?;
    bytes.extend_from_slice(&digest_of(body)).ok()?;
    Some(fault_of(alloc, &bytes) == Some(DAMAGED))
}

#[test]
fn bytes_of_no_rows_are_damaged(rt: HostRuntime) {
    for body in &BODIES {
        assert!(rt; is_damaged(rt.alloc(), body) == Some(true), "{body:?}");
    }
}

// The row file of the format's page: its key, and all of its bytes.
const PAGE: &[u8] = b"ALTROW01\0\0\0\0\0\0\0\x35\0\0\0\0\0\0\0\x01k\0\0\0\0\0\0\0\x24\
    \0\0\0\0\0\0\0\0\x01\0\0\0\0\0\0\0\x01a\0\0\0\0\0\0\0\x07\x01\0\0\0\0\0\0\0\x01x\
    \0\0\0\0\0\0\0\x01\0\0\0\0\0\0\0\x08\0\0\0\0\0\0\0\x01k\0\0\0\0\0\0\0\x01\0\0\0\0\0\0\0\x45\
    \xa2\xa2\x68\xdd\x76\x9a\xa1\x3b\x88\x38\xea\x5e\xc7\x55\x99\x56\
    \x04\x0e\x53\xe2\x1d\xb0\x5c\x08\x56\x54\xfb\x52\x3e\xfa\xa1\xa1";

fn page_reads(alloc: Global) -> Option<bool> {
    let mut disk = disk_of(alloc, PAGE)?;
    let Ok(file) = RowFile::recover(alloc, &mut disk, FILE) else {
        return None;
    };
    let row = file.row(&mut disk, b"k").ok()??;
    let shown = row.shown().ok()??;
    Some(shown.get(b"a")?.as_slice() == b"x".as_slice())
}

// The bytes that a writer makes of the page's row.
fn page_written(alloc: Global) -> Option<Vec<u8>> {
    let mut disk = Doubted::new(alloc);
    let value = Some(Bytes::new(alloc, b"x").ok()?);
    let cells = CellMap::one(alloc, Bytes::new(alloc, b"a").ok()?, Cell { at: 7, value }).ok()?;
    let row = RowCells { gone: None, cells };
    let mut writer = RowFileWriter::make(alloc, &mut disk, FILE).ok()?;
    writer.add(&mut disk, b"k", &row).ok()?;
    let file = writer.finish(&mut disk);
    if file.is_err() {
        return None;
    }
    let mut disk = disk.disk;
    bytes_of(alloc, &mut disk)
}

fn is_page(written: &Option<Vec<u8>>, page: &[u8]) -> bool {
    match written {
        Some(bytes) => bytes.as_slice() == page,
        None => false,
    }
}

// The page's file without rows.
const EMPTY_PAGE: &[u8] = b"ALTROW01\0\0\0\0\0\0\0\0\0\0\0\0\0\0\0\0\0\0\0\0\0\0\0\x08\
    \x47\xae\x7a\x46\x25\xc8\x62\x48\x84\x6f\x7b\x3c\x14\xd1\xda\x69\
    \x9c\x29\x7e\x7c\x18\x8e\x93\x8d\x5d\x12\xd2\xd2\xd5\xe5\xb2\x88";

fn empty_written(alloc: Global) -> Option<Vec<u8>> {
    let mut disk = written(alloc, &(0, 0, 0))?;
    bytes_of(alloc, &mut disk)
}

#[test]
fn the_examples_of_the_page_are_written_and_read(rt: HostRuntime) {
    assert!(rt; page_reads(rt.alloc()) == Some(true));
    let page = page_written(rt.alloc());
    assert!(rt; is_page(&page, PAGE));
    let empty = empty_written(rt.alloc());
    assert!(rt; is_page(&empty, EMPTY_PAGE));
}
