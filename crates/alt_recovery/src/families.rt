//! The row files of all families of a version, opened.

ghost use Rattle.std.specs.Prelude.{◌≡◌, IfOk, IfErr, IsErrOf, IsTrue};
ghost use Rattle.alt_base.specs.Counts.{Rose};
ghost use Rattle.alt_disk.specs.Disk.{Goes};
ghost use Rattle.alt_disk.specs.Runs.{Quiet};
ghost use Rattle.alt_layout.specs.Families.{Held};
ghost use Rattle.alt_recovery.specs.Families.{AreOpenedFamilies, ExplainsFamilies};

use crate::open::open_files;
use alt_disk::Disk;
use alt_families::Family;
use alt_manifest::FamilyVersion;
use alt_memtable::Memtable;
use alt_rowfile::RowFileFault;
use std::alloc::Global;
use std::collections::BTreeMap;

/// Opens the files of families, which have no rows in memory yet.
pub fn open_families<D: Disk>(
    alloc: Global,
    disk: &mut D,
    families: &[FamilyVersion],
) -> Result<BTreeMap<u32, Family>, RowFileFault>
    ensures ok { IfOk result (λ opened. IsTrue (D.state disk.old).tells → (held : Held)
        × AreOpenedFamilies (D.state disk.new) held families.now opened) }
    ensures explained { IsTrue (D.state disk.old).tells
        → IfErr result (ExplainsFamilies (D.state disk.old).file families.now) }
    ensures quiet { IsTrue (D.state disk.old).tells
        → Quiet (D.state disk.old) (D.state disk.new) }
    ensures goes { Goes (D.state disk.old) (D.state disk.new) }
    ensures cause { IsErrOf result RowFileFault.Failed
        → Rose (D.state disk.old).faults (D.state disk.new).faults }
    ensures well { (IsErrOf result RowFileFault.Failed → ⊥)
        → (D.state disk.new).faults ≡ (D.state disk.old).faults }
{
    let mut opened = BTreeMap::new(alloc);
    for i in 0..families.len() {
        // From the last one back, as the first one of a number counts.
        let family = &families[families.len() - 1 - i];
        match open_files(alloc, disk, family.files.as_slice(), family.flushed) {
            Ok(files) => {
                let table = Memtable::new(alloc);
                match opened.insert(family.family, Family { table, files }) {
                    Ok(_) => {}
                    Err(_) => return Err(RowFileFault::NoMemory),
                }
            }
            Err(fault) => return Err(fault),
        }
    }
    Ok(opened)
}
