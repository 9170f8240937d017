//! One row, joined of memory and files.

ghost use Rattle.std.specs.Prelude.{◌≡◌, ◌≤◌, ◌+◌, List, Some, length, option_and_then, IfOk, IfErr, IsErrOf, IsTrue};
ghost use Rattle.std.specs.BTreeMap.{get as tree_get};
ghost use Rattle.std.specs.FinMap.{get};
ghost use Rattle.std.specs.Ordering.{nat_cmp};
ghost use Rattle.alt_base.specs.Counts.{Rose};
ghost use Rattle.alt_cells.specs.Joined.{either};
ghost use Rattle.alt_cells.specs.Rows.{join_row};
ghost use Rattle.alt_cells.specs.Shown.{row_shown};
ghost use Rattle.alt_disk.specs.Disk.{Goes};
ghost use Rattle.alt_disk.specs.Runs.{Quiet};
ghost use Rattle.alt_layout.specs.Layout.{RowMap};
ghost use Rattle.alt_families.specs.Families.{files_in};
ghost use Rattle.alt_families.specs.Opened.{FamilyReads, IsOpen, SourceFaultIsUndamaged};
ghost use Rattle.alt_merge.specs.Merges.{Each2, all_rows};

use crate::family::Family;
use alt_base::NoMemory;
use alt_cells::{RowCells, ShownRow, SourceFault};
use alt_disk::Disk;
use alt_fields::Bytes;
use alt_memtable::Memtable;
use std::alloc::Global;
use std::collections::BTreeMap;

/// What the row of a family and key shows, None exactly where the family shows no row there.
pub fn shown_row<D: Disk>(
    alloc: Global,
    disk: &mut D,
    families: &BTreeMap<u32, Family>,
    family: u32,
    key: &[u8],
) -> Result<Option<ShownRow>, SourceFault>
    ensures row { IsTrue (D.state disk.old).tells → (rows : RowMap)
        → FamilyReads (D.state disk.old) (tree_get nat_cmp families.now family) rows
        → IfOk result (λ row. row ≡ option_and_then row_shown (get rows key.now)) }
    ensures undamaged { IsTrue (D.state disk.old).tells → (rows : RowMap)
        → FamilyReads (D.state disk.old) (tree_get nat_cmp families.now family) rows
        → IfErr result SourceFaultIsUndamaged }
    ensures quiet { IsTrue (D.state disk.old).tells
        → Quiet (D.state disk.old) (D.state disk.new) }
    ensures goes { Goes (D.state disk.old) (D.state disk.new) }
    ensures cause { IsErrOf result SourceFault.Failed
        → Rose (D.state disk.old).faults (D.state disk.new).faults }
    ensures well { (IsErrOf result SourceFault.Failed → ⊥)
        → (D.state disk.new).faults ≡ (D.state disk.old).faults }
    // Each of the family's files is read once at most.
    ensures reads { (D.state disk.new).reads ≤ (D.state disk.old).reads
        + length (files_in (tree_get nat_cmp families.now family)) }
{
    match families.get(&family) {
        Some(found) => shown_in(alloc, disk, found, key),
        None => Ok(None),
    }
}

/// What the row of a key shows, in memory and in files.
fn shown_in<D: Disk>(
    alloc: Global,
    disk: &mut D,
    family: &Family,
    key: &[u8],
) -> Result<Option<ShownRow>, SourceFault>
    ensures row { IsTrue (D.state disk.old).tells → (rows : RowMap)
        → FamilyReads (D.state disk.old) (Some family.now) rows
        → IfOk result (λ row. row ≡ option_and_then row_shown (get rows key.now)) }
    ensures undamaged { IsTrue (D.state disk.old).tells → (rows : RowMap)
        → FamilyReads (D.state disk.old) (Some family.now) rows → IfErr result SourceFaultIsUndamaged }
    ensures quiet { IsTrue (D.state disk.old).tells
        → Quiet (D.state disk.old) (D.state disk.new) }
    ensures goes { Goes (D.state disk.old) (D.state disk.new) }
    ensures cause { IsErrOf result SourceFault.Failed
        → Rose (D.state disk.old).faults (D.state disk.new).faults }
    ensures well { (IsErrOf result SourceFault.Failed → ⊥)
        → (D.state disk.new).faults ≡ (D.state disk.old).faults }
    ensures reads { (D.state disk.new).reads
        ≤ (D.state disk.old).reads + length family.now.files.items }
{
    match row_in_files(disk, family, key) {
        Ok(found) => Ok(shown_over(alloc, &family.table, key, found)?),
        Err(fault) => Err(fault),
    }
}

/// The row of a key in files, None exactly where none has one.
fn row_in_files<D: Disk>(
    disk: &mut D,
    family: &Family,
    key: &[u8],
) -> Result<Option<RowCells>, SourceFault>
    ensures row { IsTrue (D.state disk.old).tells → (maps : List RowMap)
        → Each2 (IsOpen (D.state disk.old)) family.now.files.items maps
        → IfOk result (λ row. row ≡ get (all_rows maps) key.now) }
    ensures undamaged { IsTrue (D.state disk.old).tells → (maps : List RowMap)
        → Each2 (IsOpen (D.state disk.old)) family.now.files.items maps
        → IfErr result SourceFaultIsUndamaged }
    ensures quiet { IsTrue (D.state disk.old).tells
        → Quiet (D.state disk.old) (D.state disk.new) }
    ensures goes { Goes (D.state disk.old) (D.state disk.new) }
    ensures cause { IsErrOf result SourceFault.Failed
        → Rose (D.state disk.old).faults (D.state disk.new).faults }
    ensures well { (IsErrOf result SourceFault.Failed → ⊥)
        → (D.state disk.new).faults ≡ (D.state disk.old).faults }
    ensures reads { (D.state disk.new).reads
        ≤ (D.state disk.old).reads + length family.now.files.items }
{
    let mut row = None;
    for file in &family.files {
        match file.row(disk, key) {
            Ok(more) => row = joined(row, more)?,
            Err(fault) => return Err(fault),
        }
    }
    Ok(row)
}

/// What the row of a key shows, of the one in memory and of that in files.
fn shown_over(
    alloc: Global,
    table: &Memtable,
    key: &[u8],
    found: Option<RowCells>,
) -> Result<Option<ShownRow>, NoMemory>
    ensures { IfOk result (λ shown. shown
        ≡ option_and_then row_shown (either join_row (get table.now.0 key.now) found)) }
{
    let key = Bytes::new(alloc, key)?;
    match table.get(&key) {
        Some(row) => shown_with(alloc, row, found),
        None => shown_of(alloc, found),
    }
}

/// What a row in memory shows, with the one in files where there is one. Where there is none, what isn't shown isn't copied.
fn shown_with(
    alloc: Global,
    row: &RowCells,
    found: Option<RowCells>,
) -> Result<Option<ShownRow>, NoMemory>
    ensures { IfOk result (λ shown. shown
        ≡ option_and_then row_shown (either join_row (Some row.now) found)) }
{
    match found {
        Some(found) => {
            let mut row = row.copy()?;
            row.absorb(found)?;
            row.into_shown(alloc)
        }
        None => row.shown(),
    }
}

/// What a row shows, if there is one. Its bytes are moved and not copied.
fn shown_of(alloc: Global, row: Option<RowCells>) -> Result<Option<ShownRow>, NoMemory>
    ensures { IfOk result (λ shown. shown ≡ option_and_then row_shown row) }
{
    match row {
        Some(row) => row.into_shown(alloc),
        None => Ok(None),
    }
}

/// Two rows joined, of which either may be missing.
fn joined(row: Option<RowCells>, more: Option<RowCells>) -> Result<Option<RowCells>, NoMemory>
    ensures { IfOk result (λ new. new ≡ either join_row row more) }
{
    match (row, more) {
        (None, more) => Ok(more),
        (row, None) => Ok(row),
        (Some(row), Some(more)) => {
            let mut row = row;
            row.absorb(more)?;
            Ok(Some(row))
        }
    }
}
