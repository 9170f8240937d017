//! A finished row file in hand.

use crate::fault::RowFileFault;
use crate::load::load_row;
use crate::recover::recover_file;
use crate::walk::RowFileWalk;
use alt_cells::{RowCells, SourceFault};
use alt_disk::Disk;
use alt_fields::Bytes;
use alt_filter::Filter;
use alt_rowblocks::{Hand, Summary, blocks_up_to, ends_below, is_denied};
use std::alloc::Global;

/// A row file: the places and first keys of its blocks, the place of its index, a summary of its rows, and a filter for each block. The
/// rows lie on the disk.
#[derive(Drop)]
pub struct RowFile {
    pub(crate) alloc: Global,
    pub(crate) file: u32,
    pub(crate) marks: Vec<(u64, Bytes)>,
    pub(crate) end: u64,
    pub(crate) summary: Summary,
    pub(crate) filters: Vec<Filter>,
}

impl RowFile {
    ghost use Rattle.std.specs.Prelude.{◌≡◌, ◌≤◌, ◌+◌, ◌==◌, ℕ, List, IfOk, IfErr, IsErrOf, IsTrue};
    ghost use Rattle.alt_base.specs.Counts.{Rose};
    ghost use Rattle.alt_disk.specs.Disk.{DiskState, Goes, contents};
    ghost use Rattle.alt_disk.specs.Runs.{Quiet};
    ghost use Rattle.alt_rowblocks.specs.Format.{Entry};
    ghost use Rattle.alt_rowfile.specs.Damage.{IsDamageIn};
    ghost use Rattle.alt_rowfile.specs.Given.{IsRowGiven};
    ghost use Rattle.alt_rowfile.specs.InHand.{ReadsRows, file_of};
    ghost use Rattle.alt_rowfile.specs.Reading.{ReadsAtMostABlock};
    ghost use Rattle.alt_rowblocks.specs.Summaries.{any_tombstone, latest_of};
    ghost use Rattle.alt_rowfile.specs.Walking.{walk_holds, walk_reads};
    ghost use Rattle.std.specs.FinMap.{entries};
    ghost use Rattle.alt_rowfile.specs.Recovery.{ExplainsFile};
    ghost use Rattle.alt_cells.specs.Walks.{IsDamaged, RowMap};
    ghost use Rattle.std.specs.FinMap.Entries.{find};
    ghost use Rattle.alt_cells.specs.Keys.{key_cmp};

    /// Reads the row file of a file and tests all of it.
    pub fn recover<D: Disk>(alloc: Global, disk: &mut D, f: u32) -> Result<RowFile, RowFileFault>
        ensures file { IfOk result (λ file. file_of file ≡ f) }
        ensures reads { IfOk result (λ file. IsTrue (D.state disk.old).tells → (rows : List Entry)
            × ReadsRows (D.state disk.new) file rows) }
        ensures explained { IsTrue (D.state disk.old).tells
            → IfErr result (ExplainsFile f (contents (D.state disk.old) f)) }
        ensures quiet { IsTrue (D.state disk.old).tells
            → Quiet (D.state disk.old) (D.state disk.new) }
        ensures goes { Goes (D.state disk.old) (D.state disk.new) }
        ensures cause { IsErrOf result RowFileFault.Failed
            → Rose (D.state disk.old).faults (D.state disk.new).faults }
        ensures well { (IsErrOf result RowFileFault.Failed → ⊥)
            → (D.state disk.new).faults ≡ (D.state disk.old).faults }
    {
        recover_file(alloc, disk, f)
    }

    /// The row of a key, None exactly where there is none. It reads one block at most, and none for a key below the first, above
    /// the last, or not in the filter of its block.
    pub fn row<D: Disk>(&self, disk: &mut D, key: &[u8]) -> Result<Option<RowCells>, SourceFault>
        ensures row { IsTrue (D.state disk.old).tells → (rows : List Entry)
            → ReadsRows (D.state disk.old) self.now rows
            → IfOk result (λ row. row ≡ find key_cmp key.now rows) }
        ensures given { IfOk result
            (IsRowGiven (D.state disk.old) (D.state disk.new) self.now key.now) }
        ensures undamaged { IsTrue (D.state disk.old).tells → (rows : List Entry)
            → ReadsRows (D.state disk.old) self.now rows → IfErr result (λ fault. IsDamaged fault → ⊥) }
        ensures damage { IfErr result (IsDamageIn (D.state disk.old) self.now) }
        ensures quiet { IsTrue (D.state disk.old).tells
            → Quiet (D.state disk.old) (D.state disk.new) }
        ensures goes { Goes (D.state disk.old) (D.state disk.new) }
        ensures cause { IsErrOf result SourceFault.Failed
            → Rose (D.state disk.old).faults (D.state disk.new).faults }
        ensures well { (IsErrOf result SourceFault.Failed → ⊥)
            → (D.state disk.new).faults ≡ (D.state disk.old).faults }
        ensures one_block { ReadsAtMostABlock (D.state disk.old) (D.state disk.new) self.now }
        ensures reads { (D.state disk.new).reads ≤ (D.state disk.old).reads + 1 }
    {
        if ends_below(&self.summary.last, key) {
            return Ok(None);
        }
        let count = blocks_up_to(&self.marks, key);
        if count == 0 {
            return Ok(None);
        }
        if is_denied(&self.filters, count - 1, key) {
            return Ok(None);
        }
        load_row(self, disk, count - 1, key)
    }

    /// The greatest timestamp of its rows, 0 where they have none.
    pub fn latest(&self) -> u64
        ensures { (s : DiskState) (rows : List Entry) → ReadsRows s self.now rows
            → result ≡ latest_of rows }
    {
        self.summary.latest
    }

    /// Whether a row of it has a tombstone, its own or one of a cell.
    pub fn has_tombstone(&self) -> bool
        ensures { (s : DiskState) (rows : List Entry) → ReadsRows s self.now rows
            → result ≡ any_tombstone rows }
    {
        self.summary.tombstone
    }

    /// A walk over its rows, which is to be sought first.
    pub fn walk(&self) -> RowFileWalk<'_>
        ensures holds { (s : DiskState) (rows : RowMap) → ReadsRows s self.now (entries rows)
            → walk_holds s result rows }
        ensures reads { (f : ℕ) → walk_reads result f ≡ (f == file_of self.now) }
    {
        RowFileWalk {
            file: self,
            forward: true,
            next: self.marks.len(),
            hand: Hand::empty(self.alloc),
        }
    }
}
