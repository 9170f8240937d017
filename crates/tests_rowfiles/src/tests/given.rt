//! Rows that are given one by one, each with a tombstone, one column `c`, or both; files and tables of them.

use crate::tests::doubted::Doubted;
use alt_cells::{Cell, CellMap, RowCells, RowWriter, row_bytes};
use alt_disk::MemoryDisk;
use alt_fields::Bytes;
use alt_memtable::Memtable;
use alt_rowfile::{RowFile, RowFileWriter};
use std::alloc::Global;

/// A key, the row's tombstone, the number of the write of its column if it has one, and the value, or none where it was removed.
pub(crate) type GivenRow = (
    &'static [u8],
    Option<u64>,
    Option<u64>,
    Option<&'static [u8]>,
);

fn cells_of(alloc: Global, at: u64, value: Option<&[u8]>) -> Option<CellMap> {
    let value = match value {
        Some(bytes) => Some(Bytes::new(alloc, bytes).ok()?),
        None => None,
    };
    let name = Bytes::new(alloc, b"c").ok()?;
    CellMap::one(alloc, name, Cell { at, value }).ok()
}

/// The row itself.
pub(crate) fn row_of_given(alloc: Global, given: &GivenRow) -> Option<RowCells> {
    let (_, gone, at, value) = *given;
    let cells = match at {
        Some(at) => cells_of(alloc, at, value)?,
        None => CellMap::new(alloc),
    };
    Some(RowCells { gone, cells })
}

/// Whether a key and a row are the given ones.
pub(crate) fn is_given(
    alloc: Global,
    given: &GivenRow,
    key: &Bytes,
    row: &RowCells,
) -> Option<bool> {
    let mut want = Vec::new(alloc);
    row_bytes(&row_of_given(alloc, given)?, &mut want).ok()?;
    let mut bytes = Vec::new(alloc);
    row_bytes(row, &mut bytes).ok()?;
    Some(key.as_slice() == given.0 && bytes.as_slice() == want.as_slice())
}

/// Writes these rows as a file.
pub(crate) fn write(alloc: Global, disk: &mut Doubted, f: u32, rows: &[GivenRow]) -> Option<()> {
    let mut writer = RowFileWriter::make(alloc, disk, f).ok()?;
    for given in rows {
        let row = row_of_given(alloc, given)?;
        writer.add(disk, given.0, &row).ok()?;
    }
    let file = writer.finish(disk);
    if file.is_err() {
        return None;
    }
    Some(())
}

/// A table of these rows.
pub(crate) fn table_of_given(alloc: Global, rows: &[GivenRow]) -> Option<Memtable> {
    let mut table = Memtable::new(alloc);
    for given in rows {
        table.put(given.0, row_of_given(alloc, given)?).ok()?;
    }
    Some(table)
}

/// The row file of a file.
pub(crate) fn recovered(alloc: Global, disk: &mut MemoryDisk, f: u32) -> Option<RowFile> {
    match RowFile::recover(alloc, disk, f) {
        Ok(file) => Some(file),
        Err(_) => None,
    }
}
