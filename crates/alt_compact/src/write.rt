//! One row of a merge, written.

ghost use Rattle.std.specs.Prelude.{◌≡◌, ◌++◌, ◌∷◌, [], ℕ, Bool, IsTrue, IfOk, IfErr, OnOk, T, if◌then◌else◌};
ghost use Rattle.std.specs.FinMap.Entries.{is_sorted};
ghost use Rattle.alt_disk.specs.Disk.{IsTrusted};
ghost use Rattle.alt_cells.specs.Compacted.{compacted, is_bare};
ghost use Rattle.alt_cells.specs.Keys.{key_cmp};
ghost use Rattle.alt_cells.specs.Walks.{RowList, HasCause, IsDamaged, answered_by};
ghost use Rattle.alt_compact.specs.Jobs.{MovesOnlyTouched};

use alt_base::NoMemory;
use alt_cells::{RowCells, RowWriter, SourceFault};
use alt_disk::{Disk, DiskFault};
use alt_fields::Bytes;
use std::alloc::Global;

/// The least key above a key.
pub(crate) fn next_key(alloc: Global, key: &Bytes) -> Result<Bytes, NoMemory>
    ensures { IfOk result (λ next. next ≡ key.now ++ 0 ∷ []) }
{
    let mut bytes = Vec::from_slice(alloc, key.as_slice())?;
    bytes.push(0)?;
    Ok(Bytes::from_vec(bytes))
}

/// Adds what is left of a row, behind what is left of the rows before it.
pub(crate) fn write<D: Disk, W: RowWriter<D>>(
    disk: &mut D,
    into: &mut W,
    key: &Bytes,
    row: RowCells,
    purge: bool,
) -> Result<(), SourceFault>
    requires { IsTrusted (D.state disk.old) → (taken : RowList)
        × W.written (D.state disk.old) into.old (compacted purge taken)
        × T (is_sorted key_cmp (taken ++ (key.now, row) ∷ [])) }
    ensures written { OnOk result (IsTrusted (D.state disk.old) → (taken : RowList)
        → W.written (D.state disk.old) into.old (compacted purge taken)
        → T (is_sorted key_cmp (taken ++ (key.now, row) ∷ []))
        → W.written (D.state disk.new) into.new
        (compacted purge (taken ++ (key.now, row) ∷ []))) }
    ensures files { W.writes into.new ≡ W.writes into.old }
    ensures moves { MovesOnlyTouched (W.writes into.old) (D.state disk.old) (D.state disk.new) }
    ensures cause { (reads : ℕ → Bool)
        → IfErr result (HasCause reads (D.state disk.old) (D.state disk.new)) }
    ensures sound { IfErr result (λ fault. IsDamaged fault → ⊥) }
    ensures well { IsTrue (answered_by result)
        → (D.state disk.new).faults ≡ (D.state disk.old).faults }
{
    let mut row = row;
    row.compact(purge);
    put(disk, into, key, &row)
}

// Adds a row, unless nothing is left of it.
fn put<D: Disk, W: RowWriter<D>>(
    disk: &mut D,
    into: &mut W,
    key: &Bytes,
    row: &RowCells,
) -> Result<(), SourceFault>
    requires { IsTrusted (D.state disk.old) → (rows : RowList)
        × W.written (D.state disk.old) into.old rows
        × T (is_sorted key_cmp (rows ++ (key.now, row.now) ∷ [])) }
    ensures written { OnOk result (IsTrusted (D.state disk.old) → (rows : RowList)
        → W.written (D.state disk.old) into.old rows
        → T (is_sorted key_cmp (rows ++ (key.now, row.now) ∷ []))
        → W.written (D.state disk.new) into.new
        (rows ++ (if is_bare row.now then [] else ((key.now, row.now) ∷ [])))) }
    ensures files { W.writes into.new ≡ W.writes into.old }
    ensures moves { MovesOnlyTouched (W.writes into.old) (D.state disk.old) (D.state disk.new) }
    ensures cause { (reads : ℕ → Bool)
        → IfErr result (HasCause reads (D.state disk.old) (D.state disk.new)) }
    ensures sound { IfErr result (λ fault. IsDamaged fault → ⊥) }
    ensures well { IsTrue (answered_by result)
        → (D.state disk.new).faults ≡ (D.state disk.old).faults }
{
    if row.is_bare() {
        return Ok(());
    }
    match into.add(disk, key.as_slice(), row) {
        Ok(()) => Ok(()),
        Err(DiskFault::Failed) => Err(SourceFault::Failed),
        Err(DiskFault::NoMemory) => Err(SourceFault::NoMemory),
    }
}
