//! One block of a row file, read from the disk: in hand for its rows, or for the one of a key.

ghost use Rattle.std.specs.Prelude.{◌≡◌, ◌≤◌, ◌<◌, ◌+◌, ◌==◌, List, [], get_or, IfOk, IfErr, IsErrOf, IsTrue};
ghost use Rattle.std.specs.FinMap.Entries.{find};
ghost use Rattle.std.specs.Option.{option_copied};
ghost use Rattle.alt_base.specs.Counts.{Rose};
ghost use Rattle.alt_cells.specs.declared.source.SourceFault.TheVariants.{Damaged};
ghost use Rattle.alt_disk.specs.Disk.{Goes, contents};
ghost use Rattle.alt_disk.specs.Runs.{Quiet};
ghost use Rattle.alt_cells.specs.Keys.{key_cmp};
ghost use Rattle.alt_cells.specs.Walks.{IsDamaged};
ghost use Rattle.alt_rowblocks.specs.Format.{Entry, block_bytes};
ghost use Rattle.alt_rowfile.specs.Damage.{IsDamageIn};
ghost use Rattle.alt_rowfile.specs.Given.{AreRead, IsRowRead};
ghost use Rattle.alt_rowblocks.specs.Taken.{IsBegun};
ghost use Rattle.alt_rowblocks.specs.Holding.{IsCutBlock};
ghost use Rattle.alt_rowfile.specs.InHand.{ReadsRows, block_count, file_of};
ghost use Rattle.alt_rowblocks.specs.Loading.{next_place, LoadedAt};
ghost use Rattle.alt_rowfile.specs.Reading.{ReadsAtMostABlock, place_of_block};

use crate::rowfile::RowFile;
use alt_cells::{RowCells, SourceFault};
use alt_disk::{Disk, DiskFault};
use alt_rowblocks::{Hand, are_rows, bytes_at, row_at};

/// A block in hand, at the place where a walk begins in it, by one read of its bytes.
pub(crate) fn load<D: Disk>(
    file: &RowFile,
    disk: &mut D,
    i: usize,
    from: Option<&[u8]>,
    forward: bool,
) -> Result<Hand, SourceFault>
    requires { i < block_count file.now }
    ensures block { IsTrue (D.state disk.old).tells → (b : List Entry)
        → LoadedAt (contents (D.state disk.old) (file_of file.now)) file.now.marks.items
        file.now.end i b
        → IfOk result (λ hand. IsCutBlock hand (option_copied from.entry) forward b) }
    ensures undamaged { IsTrue (D.state disk.old).tells
        → (rows : List Entry) → ReadsRows (D.state disk.old) file.now rows
        → IfErr result (λ fault. IsDamaged fault → ⊥) }
    ensures given { IfOk result (λ hand. AreRead (D.state disk.old) file.now i hand.bytes.items) }
    ensures begun { IfOk result (λ hand. IsBegun hand (option_copied from.entry) forward) }
    ensures damage { IfErr result (IsDamageIn (D.state disk.old) file.now) }
    ensures quiet { IsTrue (D.state disk.old).tells
        → Quiet (D.state disk.old) (D.state disk.new) }
    ensures goes { Goes (D.state disk.old) (D.state disk.new) }
    ensures cause { IsErrOf result SourceFault.Failed
        → Rose (D.state disk.old).faults (D.state disk.new).faults }
    ensures well { (IsErrOf result SourceFault.Failed → ⊥)
        → (D.state disk.new).faults ≡ (D.state disk.old).faults }
    ensures one_block { ReadsAtMostABlock (D.state disk.old) (D.state disk.new) file.now }
    ensures reads { (D.state disk.new).reads ≤ (D.state disk.old).reads + 1 }
{
    match block_at(file, disk, i) {
        Ok(bytes) => match Hand::of_block(file.alloc, bytes, from, forward) {
            Ok(Some(hand)) => Ok(hand),
            Ok(None) => Err(damaged(file, i)),
            Err(_) => Err(SourceFault::NoMemory),
        },
        Err(fault) => Err(fault),
    }
}

/// Reads a block and tests each of its rows.
pub(crate) fn test<D: Disk>(file: &RowFile, disk: &mut D, i: usize) -> Result<(), SourceFault>
    requires { i < block_count file.now }
    ensures undamaged { IsTrue (D.state disk.old).tells
        → (rows : List Entry) → ReadsRows (D.state disk.old) file.now rows
        → IfErr result (λ fault. IsDamaged fault → ⊥) }
    ensures damage { IfErr result (IsDamageIn (D.state disk.old) file.now) }
    ensures quiet { IsTrue (D.state disk.old).tells
        → Quiet (D.state disk.old) (D.state disk.new) }
    ensures goes { Goes (D.state disk.old) (D.state disk.new) }
    ensures cause { IsErrOf result SourceFault.Failed
        → Rose (D.state disk.old).faults (D.state disk.new).faults }
    ensures well { (IsErrOf result SourceFault.Failed → ⊥)
        → (D.state disk.new).faults ≡ (D.state disk.old).faults }
    ensures one_block { ReadsAtMostABlock (D.state disk.old) (D.state disk.new) file.now }
    ensures reads { (D.state disk.new).reads ≤ (D.state disk.old).reads + 1 }
{
    match block_at(file, disk, i) {
        Ok(bytes) => match are_rows(file.alloc, &bytes) {
            Ok(true) => Ok(()),
            Ok(false) => Err(damaged(file, i)),
            Err(_) => Err(SourceFault::NoMemory),
        },
        Err(fault) => Err(fault),
    }
}

/// What a block has at a key, by one read of its bytes.
pub(crate) fn load_row<D: Disk>(
    file: &RowFile,
    disk: &mut D,
    i: usize,
    key: &[u8],
) -> Result<Option<RowCells>, SourceFault>
    requires { i < block_count file.now }
    ensures row { IsTrue (D.state disk.old).tells
        → (rows : List Entry) (reads : ReadsRows (D.state disk.old) file.now rows)
        → IfOk result (λ row. row ≡ find key_cmp key.now (get_or reads.as_file.blocks i [])) }
    ensures given { IfOk result (IsRowRead (D.state disk.old) file.now i key.now) }
    ensures undamaged { IsTrue (D.state disk.old).tells
        → (rows : List Entry) → ReadsRows (D.state disk.old) file.now rows
        → IfErr result (λ fault. IsDamaged fault → ⊥) }
    ensures damage { IfErr result (IsDamageIn (D.state disk.old) file.now) }
    ensures quiet { IsTrue (D.state disk.old).tells
        → Quiet (D.state disk.old) (D.state disk.new) }
    ensures goes { Goes (D.state disk.old) (D.state disk.new) }
    ensures cause { IsErrOf result SourceFault.Failed
        → Rose (D.state disk.old).faults (D.state disk.new).faults }
    ensures well { (IsErrOf result SourceFault.Failed → ⊥)
        → (D.state disk.new).faults ≡ (D.state disk.old).faults }
    ensures one_block { ReadsAtMostABlock (D.state disk.old) (D.state disk.new) file.now }
    ensures reads { (D.state disk.new).reads ≤ (D.state disk.old).reads + 1 }
{
    match block_at(file, disk, i) {
        Ok(bytes) => match row_at(file.alloc, &bytes, key) {
            Ok(Some(row)) => Ok(row),
            Ok(None) => Err(damaged(file, i)),
            Err(_) => Err(SourceFault::NoMemory),
        },
        Err(fault) => Err(fault),
    }
}

// The bytes of a block.
fn block_at<D: Disk>(file: &RowFile, disk: &mut D, i: usize) -> Result<Vec<u8>, SourceFault>
    requires { i < block_count file.now }
    ensures bytes { IsTrue (D.state disk.old).tells → (b : List Entry)
        → LoadedAt (contents (D.state disk.old) (file_of file.now)) file.now.marks.items
        file.now.end i b → IfOk result (λ v. v.items ≡ block_bytes b) }
    ensures given { IfOk result (λ v. AreRead (D.state disk.old) file.now i v.items) }
    ensures undamaged { IsTrue (D.state disk.old).tells
        → (rows : List Entry) → ReadsRows (D.state disk.old) file.now rows
        → IfErr result (λ fault. IsDamaged fault → ⊥) }
    ensures damage { IfErr result (IsDamageIn (D.state disk.old) file.now) }
    ensures quiet { IsTrue (D.state disk.old).tells
        → Quiet (D.state disk.old) (D.state disk.new) }
    ensures goes { Goes (D.state disk.old) (D.state disk.new) }
    ensures cause { IsErrOf result SourceFault.Failed
        → Rose (D.state disk.old).faults (D.state disk.new).faults }
    ensures well { (IsErrOf result SourceFault.Failed → ⊥)
        → (D.state disk.new).faults ≡ (D.state disk.old).faults }
    ensures one_block { ReadsAtMostABlock (D.state disk.old) (D.state disk.new) file.now }
    ensures reads { (D.state disk.new).reads ≤ (D.state disk.old).reads + 1 }
{
    let at = file.marks[i].0;
    let next = next_place(file, i);
    let count = next.saturating_sub(at) as usize;
    match bytes_at(file.alloc, disk, file.file, at, count) {
        Ok(Some(bytes)) => Ok(bytes),
        Ok(None) => Err(damaged(file, i)),
        Err(DiskFault::Failed) => Err(SourceFault::Failed),
        Err(DiskFault::NoMemory) => Err(SourceFault::NoMemory),
    }
}

/// Damage, of this block.
pub(crate) fn damaged(file: &RowFile, i: usize) -> SourceFault
    requires { i < block_count file.now }
    ensures { result ≡ Damaged (file_of file.now) (place_of_block file.now i) }
{
    SourceFault::Damaged {
        file: file.file,
        at: file.marks[i].0,
    }
}

// The place behind a block.
fn next_place(file: &RowFile, i: usize) -> u64
    requires { i < block_count file.now }
    ensures { result ≡ next_place file.now.marks.items file.now.end i }
{
    if i + 1 == file.marks.len() {
        file.end
    } else {
        file.marks[i + 1].0
    }
}
