//! Writers of rows in the order of their keys, which may write files and may fail.

ghost use Rattle.std.specs.Prelude.{◌≡◌, ◌++◌, ◌∷◌, [], ℕ, Bool, IsTrue, IsErrOf, OnOk, T};
ghost use Rattle.std.specs.FinMap.Entries.{is_sorted};
ghost use Rattle.alt_base.specs.Counts.{Rose};
ghost use Rattle.alt_disk.specs.Disk.{DiskState, IsTrusted, Goes, call_answered};
ghost use Rattle.alt_disk.specs.Runs.{Spans};
ghost use Rattle.alt_disk.specs.declared.disk.DiskFault.TheVariants as fault;
ghost use Rattle.alt_cells.specs.Keys.{key_cmp};
ghost use Rattle.alt_cells.specs.Walks.{RowList, SameFiles, Anything};

use crate::RowCells;
use alt_disk::{Disk, DiskFault};

/// Takes rows whose keys rise, one after another.
pub trait RowWriter<D: Disk> {
    /// The files that it writes.
    ghost writes: { Self → ℕ → Bool };

    /// It has taken these rows, and a disk in this state has what it wrote of them.
    ghost written: { DiskState → Self → RowList → Type 0 };

    /// Takes a row, whose key is above those taken so far. After an error it is spent.
    fn add(&mut self, disk: &mut D, key: &[u8], row: &RowCells) -> Result<(), DiskFault>
        requires { IsTrusted (D.state disk.old)
            → (rows : RowList) × written (D.state disk.old) self.old rows
            × T (is_sorted key_cmp (rows ++ (key.now, row.now) ∷ [])) }
        ensures added { OnOk result (IsTrusted (D.state disk.old) → (rows : RowList)
            → written (D.state disk.old) self.old rows
            → T (is_sorted key_cmp (rows ++ (key.now, row.now) ∷ []))
            → written (D.state disk.new) self.new (rows ++ (key.now, row.now) ∷ [])) }
        ensures files { writes self.new ≡ writes self.old }
        // Every other file stays, in reads and in what a stop leaves at each moment.
        ensures others { IsTrusted (D.state disk.old)
            → Spans (D.state disk.old) (D.state disk.new)
            (λ f. IsTrue (writes self.old f)) Anything }
        ensures goes { Goes (D.state disk.old) (D.state disk.new) }
        ensures cause { IsErrOf result fault.Failed
            → Rose (D.state disk.old).faults (D.state disk.new).faults }
        ensures well { IsTrue (call_answered result)
            → (D.state disk.new).faults ≡ (D.state disk.old).faults };

    /// What it has taken lasts while the files that it writes stay as they read.
    ghost written_on: { (old new : DiskState) (writer : Self) (rows : RowList)
        → SameFiles (writes writer) old new → written old writer rows → written new writer rows };
}
