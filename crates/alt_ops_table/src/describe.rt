//! DescribeTable.

ghost use Rattle.std.specs.Prelude.{◌≡◌};
ghost use Rattle.serde_json.specs.View.{members_view};
ghost use Rattle.alt_machine.specs.Ops.DescribeTable.{describe_table};
ghost use Rattle.alt_request.specs.Carried.{Carries, Moves};
ghost use Rattle.alt_request.specs.TablesStands.{Stands, bounds_of};

use crate::replies::described;
use alt_disk::Disk;
use alt_request::{Rules, Stop, TableRead, Tables, read_table};
use alt_schema::TableSchema;
use alt_shape::{Broken, Reply, bodies};
use serde_json::{Map, Value};
use std::alloc::Global;

static RULES: Rules = Rules {
    legacy: &[],
    texts: &[],
    joined: &[],
    named: &["TableName"],
};

/// The description of a table.
struct Described;

impl TableRead for Described {
    ghost use Rattle.alt_machine.specs.Ops.DescribeTable.{rules, described};
    ghost use Rattle.alt_shape.specs.Bodies as bodies;

    ghost shape = { bodies.describe_table };

    ghost rules = { rules };

    ghost answer = { described };

    fn broken(&self, body: &Map<String, Value>) -> Option<Broken> {
        bodies::describe_table(body)
    }

    fn rules(&self) -> &'static Rules {
        &RULES
    }

    fn reply(&self, alloc: Global, schema: &TableSchema) -> Result<Reply, Stop> {
        described(alloc, "Table", schema, "ACTIVE")
    }
}

/// Answers a table's description (API Reference, "DescribeTable"). The refusals are those of docs/API.md.
#[tactic(auto, unfolding(alt_machine::specs::Ops::DescribeTable::describe_table))]
pub fn describe_table<D: Disk>(
    alloc: Global,
    tables: &mut Tables,
    disk: &mut D,
    body: &Map<String, Value>,
    moment: u64,
) -> Result<Reply, Stop>
    ensures carried { Carries (bounds_of tables.old).file
        (λ s. describe_table s (members_view body.now.entries))
        (Stands (D.state disk.old) tables.old) (Stands (D.state disk.new) tables.new) result }
    ensures limits { bounds_of tables.new ≡ bounds_of tables.old }
    ensures moves { Moves (λ s. describe_table s (members_view body.now.entries))
        (Stands (D.state disk.old) tables.old) (D.state disk.old) (D.state disk.new) result }
    ensures disk { D.state disk.new ≡ D.state disk.old }
{
    let _ = moment;
    read_table(alloc, &Described, tables, disk, body)
}
