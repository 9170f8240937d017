//! The rows of a table in memory, written as a row file.

ghost use Rattle.std.specs.Prelude.{◌≡◌, ◌∷◌, [], None, IfOk, IsErrOf, MatchOption};
ghost use Rattle.std.specs.FinMap.{entries};
ghost use Rattle.alt_base.specs.Counts.{Rose};
ghost use Rattle.alt_disk.specs.Disk.{IsTrusted, Goes};
ghost use Rattle.alt_disk.specs.Runs.{Run};
ghost use Rattle.alt_rowfile.specs.InHand.{file_of, StandsForRows};
ghost use Rattle.alt_rowfile.specs.Sinks.{AnyFileContents};

use alt_cells::{RowCells, RowWriter};
use alt_disk::{Disk, DiskFault};
use alt_fields::Bytes;
use alt_memtable::Memtable;
use alt_rowfile::{RowFile, RowFileWriter};
use std::alloc::Global;
use std::collections::btree_map::Range;

/// Writes the rows of a table into a missing file, which then stands in every image.
pub fn write_rows<D: Disk>(
    alloc: Global,
    disk: &mut D,
    f: u32,
    table: &Memtable,
) -> Result<RowFile, DiskFault>
    requires { IsTrusted (D.state disk.old) → (D.state disk.old).file f ≡ None }
    ensures file { IfOk result (λ file. file_of file ≡ f) }
    ensures rows { IfOk result (λ file. IsTrusted (D.state disk.old)
        → StandsForRows (D.state disk.new) file (entries table.now.0)) }
    ensures any_moment { IsTrusted (D.state disk.old)
        → Run (D.state disk.old) (D.state disk.new) f AnyFileContents }
    ensures goes { Goes (D.state disk.old) (D.state disk.new) }
    ensures cause { IsErrOf result DiskFault.Failed
        → Rose (D.state disk.old).faults (D.state disk.new).faults }
    ensures well { (IsErrOf result DiskFault.Failed → ⊥)
        → (D.state disk.new).faults ≡ (D.state disk.old).faults }
{
    let mut writer = RowFileWriter::make(alloc, disk, f)?;
    let mut ahead = table.rows();
    while let Some((key, row)) = next_row(&mut ahead) {
        writer.add(disk, key.as_slice(), row)?;
    }
    writer.finish(disk)
}

/// The next row of a range, none exactly at its end.
fn next_row<'a>(ahead: &mut Range<'a, Bytes, RowCells>) -> Option<(&'a Bytes, &'a RowCells)>
    ensures { MatchOption result (ahead.old ≡ [])
        (λ p. ahead.old ≡ (p.0.now, p.1.now) ∷ ahead.new) }
{
    ahead.next()
}
