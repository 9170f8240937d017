//! Rows made by a rule, and the bytes of their file, spelled out once more as docs/formats/row-file.md says them.

use crate::tests::doubted::Doubted;
use alt_cells::{Cell, CellMap, RowCells, RowWriter, row_bytes};
use alt_disk::{Disk, MemoryDisk};
use alt_fields::{Bytes, put_bytes, put_u64};
use alt_rowfile::RowFileWriter;
use sha2::{Digest, Sha256};
use std::alloc::Global;

/// The file of all of them.
pub(crate) const FILE: u32 = 7;

/// How many rows, how many bytes all keys begin with, and how many bytes a value has.
pub(crate) type Shape = (u32, usize, usize);

/// The key of the row of this number, with `more` behind it.
pub(crate) fn key_of(alloc: Global, shape: &Shape, i: u32, more: &[u8]) -> Option<Vec<u8>> {
    let mut key = Vec::new(alloc);
    key.resize(shape.1, b'p').ok()?;
    key.extend_from_slice(&i.to_be_bytes()).ok()?;
    key.extend_from_slice(more).ok()?;
    Some(key)
}

fn value_of(alloc: Global, shape: &Shape) -> Option<Vec<u8>> {
    let mut value = Vec::new(alloc);
    value.resize(shape.2, b'v').ok()?;
    Some(value)
}

/// The row of this number: one column, written by the write of this number.
pub(crate) fn row_of_shape(alloc: Global, shape: &Shape, i: u32) -> Option<RowCells> {
    let name = Bytes::new(alloc, b"c").ok()?;
    let value = Some(Bytes::from_vec(value_of(alloc, shape)?));
    let cells = CellMap::one(
        alloc,
        name,
        Cell {
            at: i as u64,
            value,
        },
    )
    .ok()?;
    Some(RowCells { gone: None, cells })
}

// The bytes of that row.
fn spelled_row(alloc: Global, shape: &Shape, i: u32) -> Option<Vec<u8>> {
    let mut row = Vec::new(alloc);
    row.extend_from_slice(b"\0\0\0\0\0\0\0\0\x01\0\0\0\0\0\0\0\x01c")
        .ok()?;
    put_u64(&mut row, i as u64).ok()?;
    row.push(1).ok()?;
    put_bytes(&mut row, &value_of(alloc, shape)?).ok()?;
    Some(row)
}

/// Whether a key and its row are those of this number.
pub(crate) fn is_entry(
    alloc: Global,
    shape: &Shape,
    i: u32,
    key: &Bytes,
    row: &RowCells,
) -> Option<bool> {
    let mut bytes = Vec::new(alloc);
    row_bytes(row, &mut bytes).ok()?;
    Some(
        key.as_slice() == key_of(alloc, shape, i, b"")?.as_slice()
            && bytes.as_slice() == spelled_row(alloc, shape, i)?.as_slice(),
    )
}

// A file that is spelled: what is done, the open block, the index, and how many blocks there are.
#[derive(Drop)]
struct Spelling {
    out: Vec<u8>,
    block: Vec<u8>,
    index: Vec<u8>,
    blocks: u64,
}

impl Spelling {
    fn add(&mut self, alloc: Global, shape: &Shape, i: u32) -> Option<()> {
        let key = key_of(alloc, shape, i, b"")?;
        if self.block.is_empty() {
            put_u64(&mut self.index, self.out.len() as u64).ok()?;
            put_bytes(&mut self.index, &key).ok()?;
            self.blocks = self.blocks.checked_add(1)?;
        }
        put_bytes(&mut self.block, &key).ok()?;
        put_bytes(&mut self.block, &spelled_row(alloc, shape, i)?).ok()?;
        if self.block.len() < 4096 {
            return Some(());
        }
        self.shut()
    }

    fn shut(&mut self) -> Option<()> {
        put_bytes(&mut self.out, &self.block).ok()?;
        self.block.clear();
        Some(())
    }

    fn finish(&mut self, rows: u32) -> Option<()> {
        if !self.block.is_empty() {
            self.shut()?;
        }
        let at = self.out.len() as u64;
        put_u64(&mut self.out, self.blocks).ok()?;
        self.out.extend_from_slice(&self.index).ok()?;
        put_u64(&mut self.out, rows as u64).ok()?;
        put_u64(&mut self.out, at).ok()?;
        Some(())
    }
}

/// The SHA-256 of bytes.
pub(crate) fn digest_of(bytes: &[u8]) -> [u8; 32] {
    let mut hasher = Sha256::new();
    hasher.update(bytes);
    hasher.finalize()
}

/// The bytes of the file of these rows, and how many blocks it has.
pub(crate) fn spelled(alloc: Global, shape: &Shape) -> Option<(Vec<u8>, u64)> {
    let mut file = Spelling {
        out: Vec::new(alloc),
        block: Vec::new(alloc),
        index: Vec::new(alloc),
        blocks: 0,
    };
    file.out.extend_from_slice(b"ALTROW01").ok()?;
    for i in 0..shape.0 {
        file.add(alloc, shape, i)?;
    }
    file.finish(shape.0)?;
    let Spelling { out, blocks, .. } = file;
    let mut out = out;
    let digest = digest_of(&out);
    out.extend_from_slice(&digest).ok()?;
    Some((out, blocks))
}

/// A disk on which the writer wrote these rows.
pub(crate) fn written(alloc: Global, shape: &Shape) -> Option<MemoryDisk> {
    let mut disk = Doubted::new(alloc);
    let mut writer = RowFileWriter::make(alloc, &mut disk, FILE).ok()?;
    for i in 0..shape.0 {
        let key = key_of(alloc, shape, i, b"")?;
        let row = row_of_shape(alloc, shape, i)?;
        writer.add(&mut disk, &key, &row).ok()?;
    }
    let file = writer.finish(&mut disk);
    if file.is_err() {
        return None;
    }
    Some(disk.disk)
}

/// A disk with these bytes.
pub(crate) fn disk_of(alloc: Global, bytes: &[u8]) -> Option<MemoryDisk> {
    let mut disk = MemoryDisk::new(alloc);
    disk.write_at(FILE, 0, bytes).ok()?;
    Some(disk)
}

/// All bytes of the file.
pub(crate) fn bytes_of(alloc: Global, disk: &mut MemoryDisk) -> Option<Vec<u8>> {
    let size = disk.size(FILE).ok()?;
    let mut bytes = Vec::new(alloc);
    bytes.resize(size as usize, 0).ok()?;
    let count = disk.read(FILE, 0, &mut bytes).ok()?;
    if count == bytes.len() {
        Some(bytes)
    } else {
        None
    }
}
