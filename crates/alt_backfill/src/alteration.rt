//! UpdateTable.

ghost use Rattle.std.specs.Prelude.{◌≡◌};
ghost use Rattle.serde_json.specs.View.{members_view};
ghost use Rattle.alt_machine.specs.Ops.UpdateTable.{update_table};
ghost use Rattle.alt_request.specs.Carried.{Carries, Moves};
ghost use Rattle.alt_request.specs.TablesStands.{AreReady, Stands, bounds_of};

use crate::asked::{Later, asked};
use alt_disk::Disk;
use alt_ops_table::described;
use alt_request::{Stop, Tables};
use alt_shape::Reply;
use serde_json::{Map, Value};
use std::alloc::Global;

/// Adds a global index to a table, or takes one from it, and answers the table's description then (API Reference, "UpdateTable"). The
/// refusals are those of docs/API.md.
pub fn update_table<D: Disk>(
    alloc: Global,
    tables: &mut Tables,
    disk: &mut D,
    body: &Map<String, Value>,
    moment: u64,
) -> Result<Reply, Stop>
    requires ready { AreReady (D.state disk.old) tables.old }
    ensures carried { Carries (bounds_of tables.old).file
        (λ s. update_table s (members_view body.now.entries))
        (Stands (D.state disk.old) tables.old) (Stands (D.state disk.new) tables.new) result }
    ensures limits { bounds_of tables.new ≡ bounds_of tables.old }
    ensures moves { Moves (λ s. update_table s (members_view body.now.entries))
        (Stands (D.state disk.old) tables.old) (D.state disk.old) (D.state disk.new) result }
{
    let _ = moment;
    let Later { schema, alters } = asked(alloc, tables, body)?;
    if !alters {
        return described(alloc, "TableDescription", &schema, "ACTIVE");
    }
    let reply = described(alloc, "TableDescription", &schema, "UPDATING")?;
    tables.alter(disk, schema)?;
    Ok(reply)
}
