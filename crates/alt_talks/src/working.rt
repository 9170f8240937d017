//! Work on the store between two turns, for nobody's request.

ghost use Rattle.std.specs.Prelude.{◌≡◌, ◌≤◌, ◌+◌, IfErr, OnOk, IsErrOf};
ghost use Rattle.alt_base.specs.Counts.{Rose};
ghost use Rattle.alt_disk.specs.Disk.{Goes};
ghost use Rattle.alt_machine.specs.State.{State};
ghost use Rattle.alt_tables.specs.FilesLeft.{most_files};
ghost use Rattle.alt_tables.specs.Stands.{AreReady, Stands, bounds_of, limits_of_tables};
ghost use Rattle.alt_talks.specs.Faults.{IsFileFault};
ghost use Rattle.alt_talks.specs.Works.{AfterWork, WorksOnStore};

use crate::fault::RunFault;
use alt_disk::Disk;
use alt_tables::{Tables, Task};

/// Does a task on the store. The tables stand for the state for which they stood.
pub fn work<D: Disk>(tables: &mut Tables, disk: &mut D, task: Task) -> Result<(), RunFault>
    requires ready { AreReady (D.state disk.old) tables.old }
    ensures stands { (s : State) → Stands (D.state disk.old) tables.old s
        → OnOk result (Stands (D.state disk.new) tables.new s) }
    ensures works { (s : State) → Stands (D.state disk.old) tables.old s
        → WorksOnStore (D.state disk.old) (D.state disk.new) s }
    // A file is wanted where so many numbers from the next one on reach the last, and no more are taken.
    ensures fault { (s : State) → Stands (D.state disk.old) tables.old s
        → IfErr result (IsFileFault ((bounds_of tables.old).file + most_files)) }
    ensures files { (s : State) → Stands (D.state disk.old) tables.old s → OnOk result
        ((bounds_of tables.new).file ≤ (bounds_of tables.old).file + most_files) }
    ensures limits { limits_of_tables tables.new ≡ limits_of_tables tables.old }
    ensures entries { OnOk result (AfterWork task (limits_of_tables tables.old).flush
        (D.state disk.new)) }
    ensures goes { Goes (D.state disk.old) (D.state disk.new) }
    ensures cause { IsErrOf result RunFault.Failed
        → Rose (D.state disk.old).faults (D.state disk.new).faults }
{
    match tables.work(disk, task) {
        Ok(_) => Ok(()),
        Err(fault) => Err(RunFault::from(fault)),
    }
}
