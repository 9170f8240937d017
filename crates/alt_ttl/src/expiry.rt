//! ExpireItems.

ghost use Rattle.std.specs.Prelude.{◌≡◌, false, length, codes, IfOk, IfErr, IsErrOf};
ghost use Rattle.serde_json.specs.Data.{number, unsigned};
ghost use Rattle.serde_json.specs.Written.{has_float};
ghost use Rattle.alt_base.specs.Counts.{Rose};
ghost use Rattle.alt_disk.specs.Disk.{Goes};
ghost use Rattle.alt_machine.specs.Expiry as machine;
ghost use Rattle.alt_machine.specs.Ops.ExpireItems as operation;
ghost use Rattle.alt_machine.specs.Replies.{answers};
ghost use Rattle.alt_machine.specs.State.{State};
ghost use Rattle.alt_request.specs.Carried.{Carries, Moves};
ghost use Rattle.alt_request.specs.Steps.{IsMemory};
ghost use Rattle.alt_shape.specs.Body.{body_json};
ghost use Rattle.alt_shape.specs.Refusals.{answer_of};
ghost use Rattle.alt_request.specs.TablesFaults.{Writes};
ghost use Rattle.alt_request.specs.TablesImages.{Leaves};
ghost use Rattle.alt_request.specs.TablesStands.{AreReady, Stands, bounds_of};

use crate::replies::shown;
use crate::search::deletions;
use alt_codec::Writer;
use alt_disk::Disk;
use alt_request::{Stop, TableFault, Tables};
use alt_shape::Reply;
use serde_json::{Map, Value};
use std::alloc::Global;

/// Deletes the first 25 of the items whose time is over, all of them or none, and says how many they are (docs/API.md). The reply is made
/// before they are deleted, so behind that nothing but the device keeps it back. Nothing refuses it.
pub fn expire_items<D: Disk>(
    alloc: Global,
    tables: &mut Tables,
    disk: &mut D,
    body: &Map<String, Value>,
    moment: u64,
) -> Result<Reply, Stop>
    requires ready { AreReady (D.state disk.old) tables.old }
    ensures carried { Carries (bounds_of tables.old).file (λ s. operation.expire_items s moment)
        (Stands (D.state disk.old) tables.old) (Stands (D.state disk.new) tables.new) result }
    ensures limits { bounds_of tables.new ≡ bounds_of tables.old }
    ensures moves { Moves (λ s. operation.expire_items s moment)
        (Stands (D.state disk.old) tables.old) (D.state disk.old) (D.state disk.new) result }
{
    let _ = body;
    let changes = deletions(alloc, tables, disk, moment)?;
    let reply = counted(alloc, changes.len())?;
    tables.write_all(disk, changes, moment, Writer::Expiry)?;
    Ok(reply)
}

/// The reply: how many they are.
fn counted(alloc: Global, count: usize) -> Result<Reply, Stop>
    ensures reply { IfOk result (λ reply. answer_of reply
        ≡ answers (codes "Expired") (number (unsigned count))) }
    ensures plain { IfOk result (λ reply. has_float (body_json reply.body) ≡ false) }
    ensures cause { IfErr result IsMemory }
{
    shown(alloc, "Expired", Value::from(count as u64))
}

/// Deletes them without a reply: how many they are.
pub fn expire<D: Disk>(
    alloc: Global,
    tables: &mut Tables,
    disk: &mut D,
    moment: u64,
) -> Result<usize, TableFault>
    requires ready { AreReady (D.state disk.old) tables.old }
    ensures writes { (s : State) → Stands (D.state disk.old) tables.old s
        → Writes (bounds_of tables.old).file (Stands (D.state disk.new) tables.new)
        (operation.expire_items s moment).wants s (operation.expire_items s moment).atoms result }
    ensures count { (s : State) → Stands (D.state disk.old) tables.old s
        → IfOk result (λ n. n ≡ length (machine.expiring s moment)) }
    ensures disk { (s : State) → Stands (D.state disk.old) tables.old s
        → Leaves (D.state disk.old) (D.state disk.new) s
        (operation.expire_items s moment).atoms }
    ensures limits { bounds_of tables.new ≡ bounds_of tables.old }
    ensures goes { Goes (D.state disk.old) (D.state disk.new) }
    ensures cause { IsErrOf result TableFault.Failed
        → Rose (D.state disk.old).faults (D.state disk.new).faults }
{
    let changes = match deletions(alloc, tables, disk, moment) {
        Ok(changes) => changes,
        Err(fault) => return Err(fault),
    };
    let count = changes.len();
    match tables.write_all(disk, changes, moment, Writer::Expiry) {
        Ok(_) => Ok(count),
        Err(fault) => Err(fault),
    }
}
