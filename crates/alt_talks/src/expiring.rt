//! The deletion of expired items by the server itself.

ghost use Rattle.std.specs.Prelude.{◌≡◌, None, IfErr, OnOk, IsErrOf};
ghost use Rattle.alt_base.specs.Counts.{Rose};
ghost use Rattle.alt_disk.specs.Disk.{Goes};
ghost use Rattle.alt_machine.specs.Outcomes.{last_state};
ghost use Rattle.alt_machine.specs.State.{State};
ghost use Rattle.alt_tables.specs.Stands.{AreReady, Stands, bounds_of};
ghost use Rattle.alt_talks.specs.Own.{BetweenNot, expiries};
ghost use Rattle.alt_talks.specs.Works.{Follows};

use crate::fault::RunFault;
use alt_disk::Disk;
use alt_dispatch::expire;
use alt_machine::MOST_EXPIRED;
use alt_tables::Tables;
use std::alloc::Global;

/// After so many connections expired items are deleted once more.
pub const BETWEEN_EXPIRIES: u32 = 64;

/// The most times that an ExpireItems is made after one connection.
pub const MOST_EXPIRIES: u32 = 40;

/// Deletes the items whose time is over at a moment, 25 at a time, until fewer of them are left, so many times at most.
pub(crate) fn expire_all<D: Disk>(
    alloc: Global,
    tables: &mut Tables,
    disk: &mut D,
    moment: u64,
    most: u32,
) -> Result<(), RunFault>
    requires ready { AreReady (D.state disk.old) tables.old }
    ensures stands { (s : State) → Stands (D.state disk.old) tables.old s
        → OnOk result (Stands (D.state disk.new) tables.new
        (last_state s (expiries most moment s).atoms)) }
    ensures follows { (s : State) → Stands (D.state disk.old) tables.old s
        → Follows (D.state disk.old) (D.state disk.new) s (expiries most moment s).atoms }
    ensures enough { (s : State) → Stands (D.state disk.old) tables.old s
        → OnOk result ((expiries most moment s).lacks ≡ None) }
    ensures fault { (s : State) → Stands (D.state disk.old) tables.old s
        → IfErr result (BetweenNot (bounds_of tables.old).file (expiries most moment s)) }
    ensures limits { bounds_of tables.new ≡ bounds_of tables.old }
    ensures goes { Goes (D.state disk.old) (D.state disk.new) }
    ensures cause { IsErrOf result RunFault.Failed
        → Rose (D.state disk.old).faults (D.state disk.new).faults }
{
    'rounds: for _ in 0..most {
        match expire(alloc, tables, disk, moment) {
            Ok(count) => {
                if count < MOST_EXPIRED {
                    return Ok(());
                }
            }
            Err(fault) => return Err(RunFault::from(fault)),
        }
    }
    Ok(())
}
