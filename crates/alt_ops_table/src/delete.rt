//! DeleteTable.

ghost use Rattle.std.specs.Prelude.{◌≡◌};
ghost use Rattle.serde_json.specs.View.{members_view};
ghost use Rattle.alt_machine.specs.Ops.DeleteTable.{delete_table};
ghost use Rattle.alt_request.specs.Carried.{Carries, Moves};
ghost use Rattle.alt_request.specs.TablesStands.{AreReady, Stands, bounds_of};

use crate::replies::described;
use alt_disk::Disk;
use alt_request::{Rules, Stop, Tables, table_name, table_target};
use alt_shape::{Reply, bodies};
use serde_json::{Map, Value};
use std::alloc::Global;

static RULES: Rules = Rules {
    legacy: &[],
    texts: &[],
    joined: &[],
    named: &["TableName"],
};

/// Takes a table out with all its items and answers its description (API Reference, "DeleteTable"). It is gone at once. The
/// refusals are those of docs/API.md.
pub fn delete_table<D: Disk>(
    alloc: Global,
    tables: &mut Tables,
    disk: &mut D,
    body: &Map<String, Value>,
    moment: u64,
) -> Result<Reply, Stop>
    requires ready { AreReady (D.state disk.old) tables.old }
    ensures carried { Carries (bounds_of tables.old).file
        (λ s. delete_table s (members_view body.now.entries))
        (Stands (D.state disk.old) tables.old) (Stands (D.state disk.new) tables.new) result }
    ensures limits { bounds_of tables.new ≡ bounds_of tables.old }
    ensures moves { Moves (λ s. delete_table s (members_view body.now.entries))
        (Stands (D.state disk.old) tables.old) (D.state disk.old) (D.state disk.new) result }
{
    let _ = moment;
    let schema = table_target(tables, body, bodies::delete_table(body), &RULES)?;
    let reply = described(alloc, "TableDescription", schema, "DELETING")?;
    tables.drop_table(disk, table_name(body))?;
    Ok(reply)
}
