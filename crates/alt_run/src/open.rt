//! Opening the store: where a run begins, and again at the line `@reopen`.

ghost use Rattle.std.specs.Prelude.{◌≡◌, IfOk, IfErr, IsErrOf, IsTrue};
ghost use Rattle.alt_base.specs.Counts.{Rose};
ghost use Rattle.alt_disk.specs.Disk.{IsTrusted, Goes};
ghost use Rattle.alt_machine.specs.State.{State};
ghost use Rattle.alt_tables.specs.FilesLeft.{IsFirstGiven};
ghost use Rattle.alt_tables.specs.Stands.{Stands, bounds_of, limits_of_tables};
ghost use Rattle.alt_run.specs.Faults.{IsUnreadable};
ghost use Rattle.alt_talks.specs.Stops.{AtEach};
ghost use Rattle.alt_tables.specs.Images.{StandsFor};
ghost use Rattle.alt_tables.specs.OpeningRecovery.{WasLeft};

use alt_disk::Disk;
use alt_tables::{Limits, Tables};
use alt_talks::RunFault;
use std::alloc::Global;

/// The tables of the store that lies on the disk, whose engine gets these limits.
pub(crate) fn open<D: Disk>(alloc: Global, disk: &mut D, limits: Limits) -> Result<Tables, RunFault>
    ensures reads { IfOk result (λ t. IsTrue (D.state disk.old).tells
        → (s : State) × StandsFor (D.state disk.old).file s) }
    ensures stands { IfOk result (λ t. IsTrusted (D.state disk.old) → (s : State)
        → StandsFor (D.state disk.old).file s → Stands (D.state disk.new) t s) }
    ensures limits { IfOk result (λ t. limits_of_tables t ≡ limits) }
    ensures next_file { IfOk result (λ t. IsTrue (D.state disk.old).tells
        → IsFirstGiven (D.state disk.old).file (bounds_of t).file) }
    ensures files { IsTrue (D.state disk.old).tells → (s : State)
        → StandsFor (D.state disk.old).file s → StandsFor (D.state disk.new).file s }
    ensures leaves { AtEach (D.state disk.old) (D.state disk.new) (WasLeft (D.state disk.old)) }
    ensures unreadable { IsTrue (D.state disk.old).tells
        → IfErr result (IsUnreadable (D.state disk.old).file) }
    ensures goes { Goes (D.state disk.old) (D.state disk.new) }
    ensures cause { IsErrOf result RunFault.Failed
        → Rose (D.state disk.old).faults (D.state disk.new).faults }
{
    match Tables::recover(alloc, disk, limits) {
        Ok(tables) => Ok(tables),
        Err(fault) => Err(RunFault::from(fault)),
    }
}
