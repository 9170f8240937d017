//! The row files of a family, opened one by one and tested whole.

ghost use Rattle.std.specs.Prelude.{◌≡◌, List, IfOk, IfErr, IsErrOf, IsTrue};
ghost use Rattle.alt_base.specs.Counts.{Rose};
ghost use Rattle.alt_cells.specs.Walks.{RowMap};
ghost use Rattle.alt_disk.specs.Disk.{Goes};
ghost use Rattle.alt_disk.specs.Runs.{Quiet};
ghost use Rattle.alt_recovery.specs.Opening.{AreOpened, IsOpened, ExplainsOpening, ExplainsRows};

use alt_disk::Disk;
use alt_rowfile::{RowFile, RowFileFault};
use std::alloc::Global;

/// Opens row files of a family, of which no timestamp may be above its flushed number.
pub fn open_files<D: Disk>(
    alloc: Global,
    disk: &mut D,
    files: &[u32],
    flushed: u64,
) -> Result<Vec<RowFile>, RowFileFault>
    ensures ok { IfOk result (λ opened. IsTrue (D.state disk.old).tells → (maps : List RowMap)
        × AreOpened (D.state disk.new) flushed files.now opened.items maps) }
    ensures explained { IsTrue (D.state disk.old).tells
        → IfErr result (ExplainsOpening (D.state disk.old).file files.now flushed) }
    ensures quiet { IsTrue (D.state disk.old).tells
        → Quiet (D.state disk.old) (D.state disk.new) }
    ensures goes { Goes (D.state disk.old) (D.state disk.new) }
    ensures cause { IsErrOf result RowFileFault.Failed
        → Rose (D.state disk.old).faults (D.state disk.new).faults }
    ensures well { (IsErrOf result RowFileFault.Failed → ⊥)
        → (D.state disk.new).faults ≡ (D.state disk.old).faults }
{
    let mut opened = Vec::new(alloc);
    for f in files {
        match open_file(alloc, disk, *f, flushed) {
            Ok(file) => match opened.push(file) {
                Ok(()) => {}
                Err(_) => return Err(RowFileFault::NoMemory),
            },
            Err(fault) => return Err(fault),
        }
    }
    Ok(opened)
}

/// Opens one of them.
fn open_file<D: Disk>(
    alloc: Global,
    disk: &mut D,
    f: u32,
    flushed: u64,
) -> Result<RowFile, RowFileFault>
    ensures ok { IfOk result (λ file. IsTrue (D.state disk.old).tells → (m : RowMap)
        × IsOpened (D.state disk.new) flushed f file m) }
    ensures explained { IsTrue (D.state disk.old).tells
        → IfErr result (ExplainsRows f flushed ((D.state disk.old).file f)) }
    ensures quiet { IsTrue (D.state disk.old).tells
        → Quiet (D.state disk.old) (D.state disk.new) }
    ensures goes { Goes (D.state disk.old) (D.state disk.new) }
    ensures cause { IsErrOf result RowFileFault.Failed
        → Rose (D.state disk.old).faults (D.state disk.new).faults }
    ensures well { (IsErrOf result RowFileFault.Failed → ⊥)
        → (D.state disk.new).faults ≡ (D.state disk.old).faults }
{
    let file = match RowFile::recover(alloc, disk, f) {
        Ok(file) => file,
        Err(fault) => return Err(fault),
    };
    if file.latest() > flushed {
        return Err(RowFileFault::Damaged { file: f, at: 0 });
    }
    Ok(file)
}
