//! BatchGetItem.

ghost use Rattle.std.specs.Prelude.{◌≡◌};
ghost use Rattle.serde_json.specs.View.{members_view};
ghost use Rattle.alt_machine.specs.Ops.BatchGetItem.{batch_get_item};
ghost use Rattle.alt_request.specs.Carried.{Carries, Moves};
ghost use Rattle.alt_request.specs.TablesStands.{AreReady, Reads, Stands, bounds_of};

use crate::asked_reads::reads_asked;
use crate::reading::read_all;
use crate::replies::read_reply;
use alt_disk::Disk;
use alt_request::{Stop, Tables};
use alt_shape::Reply;
use serde_json::{Map, Value};
use std::alloc::Global;

/// Answers the items of keys, or what projections choose of them, up to the item at which their sizes reach 16 MB, and names the keys
/// behind it (API Reference, "BatchGetItem"). The refusals are those of docs/API.md.
pub fn batch_get_item<D: Disk>(
    alloc: Global,
    tables: &mut Tables,
    disk: &mut D,
    body: &Map<String, Value>,
    moment: u64,
) -> Result<Reply, Stop>
    requires ready { AreReady (D.state disk.old) tables.old }
    ensures carried { Carries (bounds_of tables.old).file (λ s. batch_get_item s (members_view body.now.entries))
        (Stands (D.state disk.old) tables.old) (Stands (D.state disk.new) tables.new) result }
    ensures limits { bounds_of tables.new ≡ bounds_of tables.old }
    ensures moves { Moves (λ s. batch_get_item s (members_view body.now.entries))
        (Stands (D.state disk.old) tables.old) (D.state disk.old) (D.state disk.new) result }
    ensures disk { Reads (D.state disk.old) (D.state disk.new) }
{
    let _ = moment;
    let asked = reads_asked(alloc, tables, body)?;
    let read = read_all(alloc, tables, disk, asked)?;
    read_reply(alloc, read)
}
