//! All files of a disk, synced.

ghost use Rattle.std.specs.Prelude.{◌≡◌, ℕ, OnOk, OnErr, IsErrOf, IsTrue};
ghost use Rattle.alt_base.specs.Counts.{Rose};
ghost use Rattle.alt_disk.specs.Fates.{synced};
ghost use Rattle.alt_disk.specs.Disk.{IsTrusted, Goes, now};
ghost use Rattle.alt_hand.specs.Syncing.{Narrows, AllSynced, AreSynced};

use alt_disk::{Disk, DiskFault, Failed};
use std::alloc::Global;

/// Makes every file last that is there.
pub fn sync_all<D: Disk>(alloc: Global, disk: &mut D) -> Result<(), DiskFault>
    ensures synced { OnOk result (IsTrusted (D.state disk.old) → AllSynced (D.state disk.new)) }
    ensures files { IsTrue (D.state disk.old).tells → (f : ℕ)
        → (D.state disk.new).file f ≡ (D.state disk.old).file f }
    ensures any_moment { IsTrusted (D.state disk.old)
        → Narrows (D.state disk.old) (D.state disk.new) }
    ensures goes { Goes (D.state disk.old) (D.state disk.new) }
    ensures cause { IsErrOf result DiskFault.Failed
        → Rose (D.state disk.old).faults (D.state disk.new).faults }
    ensures well { (IsErrOf result DiskFault.Failed → ⊥)
        → (D.state disk.new).faults ≡ (D.state disk.old).faults }
{
    let mut list = Vec::new(alloc);
    match disk.names(&mut list) {
        Ok(()) => {}
        Err(fault) => return Err(fault),
    }
    match sync_files(disk, list.as_slice()) {
        Ok(()) => Ok(()),
        Err(Failed) => Err(DiskFault::Failed),
    }
}

/// Makes these files last.
fn sync_files<D: Disk>(disk: &mut D, list: &[u32]) -> Result<(), Failed>
    ensures synced { OnOk result (IsTrusted (D.state disk.old)
        → AreSynced (D.state disk.new) list.now) }
    ensures files { IsTrue (D.state disk.old).tells → (f : ℕ)
        → (D.state disk.new).file f ≡ (D.state disk.old).file f }
    ensures any_moment { IsTrusted (D.state disk.old)
        → Narrows (D.state disk.old) (D.state disk.new) }
    ensures goes { Goes (D.state disk.old) (D.state disk.new) }
    ensures cause { OnErr result (Rose (D.state disk.old).faults (D.state disk.new).faults) }
    ensures well { OnOk result ((D.state disk.new).faults ≡ (D.state disk.old).faults) }
{
    for f in list {
        match disk.sync(*f) {
            Ok(()) => {}
            Err(fault) => return Err(fault),
        }
    }
    Ok(())
}
