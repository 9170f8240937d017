//! Sources of rows in the order of their keys, which may read files and may fail.

ghost use Rattle.std.specs.Prelude.{◌≡◌, ◌≤◌, ◌+◌, ℕ, Bool, List, Option, IsTrue, IfOk, IfErr, OnOk};
ghost use Rattle.std.specs.Option.{option_copied};
ghost use Rattle.alt_disk.specs.Disk.{DiskState};
ghost use Rattle.alt_cells.specs.declared.row.RowCells.{RowCells};
ghost use Rattle.alt_cells.specs.Walks.{RowMap, RowList, rows_from, Gives, KeepsSource, Fails, SameFiles, answered_by};

use crate::RowCells;
use alt_base::NoMemory;
use alt_disk::{Disk, Failed};
use alt_fields::Bytes;

/// Why a source didn't go on: its file isn't right from a place on, the disk failed, or memory was
/// wanting. It may then only be sought anew.
#[derive(Clone, Copy, Debug, PartialEq, Eq)]
pub enum SourceFault {
    Damaged { file: u32, at: u64 },
    Failed,
    NoMemory,
}

impl From<Failed> for SourceFault {
    ghost use Rattle.std.specs.Prelude.{◌≡◌};
    ghost use Rattle.alt_cells.specs.declared.source.SourceFault.TheVariants as fault;

    ghost from_gives = { λ _ e. e ≡ fault.Failed };

    fn from(_: Failed) -> Self {
        SourceFault::Failed
    }
}

impl From<NoMemory> for SourceFault {
    ghost use Rattle.std.specs.Prelude.{◌≡◌};
    ghost use Rattle.alt_cells.specs.declared.source.SourceFault.TheVariants as fault;

    ghost from_gives = { λ _ e. e ≡ fault.NoMemory };

    fn from(_: NoMemory) -> Self {
        SourceFault::NoMemory
    }
}

/// Rows by key, of memory or of files, in either direction.
pub trait RowSource<D: Disk> {
    /// The files that it reads.
    ghost reads: { Self → ℕ → Bool };

    /// It stands for these rows, on a disk in this state.
    ghost holds: { DiskState → Self → RowMap → Type 0 };

    /// After a `seek`: these rows are left, in the direction sought.
    ghost left: { DiskState → Self → RowList → Type 0 };

    /// The most reads that one call of `seek` or `next` costs.
    ghost width: { Self → ℕ };

    /// What an Ok of `seek` says whatever the disk tells: of the disk's two states, the source before it, the place and the direction
    /// that were sought, and the source behind it.
    ghost seeks: { DiskState → DiskState → Self → Option (List ℕ) → Bool → Self → Type 0 };

    /// What an Ok of `next` says whatever the disk tells: of the disk's two states, the source before it, the row that is given, if there is
    /// one, and the source behind it.
    ghost nexts: { DiskState → DiskState → Self → Option (List ℕ × RowCells) → Self → Type 0 };

    /// Goes to a key: forward to the first one at or above it, backward to the last one below it. With no
    /// key it goes to the first, or to the last.
    fn seek(&mut self, disk: &mut D, from: Option<&[u8]>, forward: bool) -> Result<(), SourceFault>
        ensures sought { IsTrue (D.state disk.old).tells
            → (rows : RowMap) → holds (D.state disk.old) self.old rows
            → OnOk result (left (D.state disk.new) self.new
            (rows_from rows (option_copied from.entry) forward)) }
        ensures given { OnOk result (seeks (D.state disk.old) (D.state disk.new) self.old
            (option_copied from.entry) forward self.new) }
        ensures keeps { KeepsSource holds reads (D.state disk.old) (D.state disk.new) self.old self.new }
        ensures reads { (D.state disk.new).reads ≤ (D.state disk.old).reads + width self.old }
        ensures width { width self.new ≡ width self.old }
        ensures well { IsTrue (answered_by result)
            → (D.state disk.new).faults ≡ (D.state disk.old).faults }
        ensures fails { IfErr result (Fails holds reads (D.state disk.old)
            (D.state disk.new) self.old) };

    /// The next row. None is the end, and never a read that failed.
    fn next(&mut self, disk: &mut D) -> Result<Option<(Bytes, RowCells)>, SourceFault>
        ensures gives { IsTrue (D.state disk.old).tells
            → (rows : RowList) → left (D.state disk.old) self.old rows
            → IfOk result (Gives (left (D.state disk.new) self.new) rows) }
        ensures given { IfOk result (λ row. nexts (D.state disk.old) (D.state disk.new) self.old
            row self.new) }
        ensures keeps { KeepsSource holds reads (D.state disk.old) (D.state disk.new) self.old self.new }
        ensures reads { (D.state disk.new).reads ≤ (D.state disk.old).reads + width self.old }
        ensures width { width self.new ≡ width self.old }
        ensures well { IsTrue (answered_by result)
            → (D.state disk.new).faults ≡ (D.state disk.old).faults }
        ensures fails { IfErr result (Fails holds reads (D.state disk.old)
            (D.state disk.new) self.old) };

    /// What it holds and what is left last while the files that it reads stay as they read.
    ghost holds_on: { (old new : DiskState) (source : Self) (rows : RowMap)
        → SameFiles (reads source) old new → holds old source rows → holds new source rows };

    ghost left_on: { (old new : DiskState) (source : Self) (rows : RowList)
        → SameFiles (reads source) old new → left old source rows → left new source rows };
}
