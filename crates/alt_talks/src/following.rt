//! What the server does by itself between two requests of its clients: its own requests behind one of theirs (none), and behind a connection,
//! and a step of work.

ghost use Rattle.std.specs.Prelude.{◌≡◌, ◌≤◌, ◌+◌, None, true, IfErr, OnOk, IsErrOf};
ghost use Rattle.alt_base.specs.Counts.{Rose};
ghost use Rattle.alt_disk.specs.Disk.{Goes};
ghost use Rattle.alt_tables.specs.EngineDeclaredTask.TheVariants.{Step};
ghost use Rattle.alt_machine.specs.State.{State};
ghost use Rattle.alt_tables.specs.FilesLeft.{most_files};
ghost use Rattle.alt_tables.specs.Stands.{AreReady, Stands, bounds_of, limits_of_tables};
ghost use Rattle.alt_talks.specs.Own.{BetweenNot, FollowsNot, after_behind, own_behind, own_between};
ghost use Rattle.alt_talks.specs.private.Rungs.{after_between};
ghost use Rattle.alt_talks.specs.Works.{AfterWork, Follows};

use crate::expiring::{BETWEEN_EXPIRIES, MOST_EXPIRIES, expire_all};
use crate::fault::RunFault;
use crate::working::work;
use alt_disk::Disk;
use alt_dispatch::build;
use alt_tables::{Tables, Task};
use std::alloc::Global;

/// What follows a request: an index is built further, if one is being built, and then, where that is wanted, one step of work is made.
pub fn follow<D: Disk>(tables: &mut Tables, disk: &mut D, works: bool) -> Result<(), RunFault>
    requires ready { AreReady (D.state disk.old) tables.old }
    ensures stands { (s : State) → Stands (D.state disk.old) tables.old s
        → OnOk result (Stands (D.state disk.new) tables.new (after_behind s)) }
    ensures follows { (s : State) → Stands (D.state disk.old) tables.old s
        → Follows (D.state disk.old) (D.state disk.new) s (own_behind s).atoms }
    ensures enough { (s : State) → Stands (D.state disk.old) tables.old s
        → OnOk result ((own_behind s).lacks ≡ None) }
    ensures fault { (s : State) → Stands (D.state disk.old) tables.old s
        → IfErr result (FollowsNot works (bounds_of tables.old).file (own_behind s)) }
    ensures files { (s : State) → Stands (D.state disk.old) tables.old s → OnOk result
        ((bounds_of tables.new).file ≤ (bounds_of tables.old).file + most_files) }
    ensures entries { works ≡ true
        → OnOk result (AfterWork Step (limits_of_tables tables.old).flush (D.state disk.new)) }
    ensures limits { limits_of_tables tables.new ≡ limits_of_tables tables.old }
    ensures goes { Goes (D.state disk.old) (D.state disk.new) }
    ensures cause { IsErrOf result RunFault.Failed
        → Rose (D.state disk.old).faults (D.state disk.new).faults }
{
    match build(tables, disk) {
        Ok(_) => {}
        Err(fault) => return Err(RunFault::from(fault)),
    }
    if !works {
        return Ok(());
    }
    match work(tables, disk, Task::Step) {
        Ok(()) => Ok(()),
        Err(fault) => Err(fault),
    }
}

/// What follows a connection: the server's own requests behind it. So many connections have come by then, and this was the last moment that
/// was told while they were served, `None` where none was. Expired items are deleted behind every 64th, at that moment.
pub(crate) fn between<D: Disk>(
    alloc: Global,
    tables: &mut Tables,
    disk: &mut D,
    number: u32,
    moment: Option<u64>,
) -> Result<(), RunFault>
    requires ready { AreReady (D.state disk.old) tables.old }
    ensures stands { (s : State) → Stands (D.state disk.old) tables.old s
        → OnOk result (Stands (D.state disk.new) tables.new (after_between number moment s)) }
    ensures follows { (s : State) → Stands (D.state disk.old) tables.old s
        → Follows (D.state disk.old) (D.state disk.new) s (own_between number moment s).atoms }
    ensures enough { (s : State) → Stands (D.state disk.old) tables.old s
        → OnOk result ((own_between number moment s).lacks ≡ None) }
    ensures fault { (s : State) → Stands (D.state disk.old) tables.old s
        → IfErr result (BetweenNot (bounds_of tables.old).file
        (own_between number moment s)) }
    ensures limits { bounds_of tables.new ≡ bounds_of tables.old }
    ensures goes { Goes (D.state disk.old) (D.state disk.new) }
    ensures cause { IsErrOf result RunFault.Failed
        → Rose (D.state disk.old).faults (D.state disk.new).faults }
{
    if number % BETWEEN_EXPIRIES != 0 {
        return Ok(());
    }
    match moment {
        Some(moment) => expire_all(alloc, tables, disk, moment, MOST_EXPIRIES),
        None => Ok(()),
    }
}
