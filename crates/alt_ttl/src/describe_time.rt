//! DescribeTimeToLive.

ghost use Rattle.std.specs.Prelude.{◌≡◌, false, Some, IfOk, IfErr};
ghost use Rattle.serde_json.specs.View.{view, members_view};
ghost use Rattle.serde_json.specs.Written.{has_float};
ghost use Rattle.alt_machine.specs.Ops.DescribeTimeToLive.{describe_time_to_live, described, time_json};
ghost use Rattle.alt_request.specs.Carried.{Carries, Moves};
ghost use Rattle.alt_request.specs.Steps.{IsMemory};
ghost use Rattle.alt_shape.specs.Body.{body_json};
ghost use Rattle.alt_shape.specs.Refusals.{answer_of};
ghost use Rattle.alt_request.specs.TablesStands.{Stands, bounds_of};

use crate::replies::shown;
use alt_base::NoMemory;
use alt_disk::Disk;
use alt_request::{Rules, Stop, TableFault, TableRead, Tables, read_table};
use alt_schema::TableSchema;
use alt_shape::{Broken, Reply, bodies};
use alt_value::Text;
use serde_json::{Map, Value, json};
use std::alloc::Global;

static RULES: Rules = Rules {
    legacy: &[],
    texts: &[],
    joined: &[],
    named: &["TableName"],
};

/// The time to live of a table.
struct TimeDescribed;

impl TableRead for TimeDescribed {
    ghost use Rattle.alt_machine.specs.Ops.DescribeTimeToLive.{rules, described};
    ghost use Rattle.alt_shape.specs.Bodies as bodies;

    ghost shape = { bodies.describe_table };

    ghost rules = { rules };

    ghost answer = { described };

    fn broken(&self, body: &Map<String, Value>) -> Option<Broken> {
        bodies::describe_table(body)
    }

    fn rules(&self) -> &'static Rules {
        &RULES
    }

    fn reply(&self, alloc: Global, schema: &TableSchema) -> Result<Reply, Stop> {
        described(alloc, schema)
    }
}

/// Answers whether a table's items have a time to live, and the attribute that tells it (API Reference, "DescribeTimeToLive"). The
/// refusals are those of docs/API.md.
#[tactic(auto, unfolding(alt_machine::specs::Ops::DescribeTimeToLive::describe_time_to_live))]
pub fn describe_time_to_live<D: Disk>(
    alloc: Global,
    tables: &mut Tables,
    disk: &mut D,
    body: &Map<String, Value>,
    moment: u64,
) -> Result<Reply, Stop>
    ensures carried { Carries (bounds_of tables.old).file (λ s. describe_time_to_live s (members_view body.now.entries))
        (Stands (D.state disk.old) tables.old) (Stands (D.state disk.new) tables.new) result }
    ensures limits { bounds_of tables.new ≡ bounds_of tables.old }
    ensures moves { Moves (λ s. describe_time_to_live s (members_view body.now.entries))
        (Stands (D.state disk.old) tables.old) (D.state disk.old) (D.state disk.new) result }
    ensures disk { D.state disk.new ≡ D.state disk.old }
{
    let _ = moment;
    read_table(alloc, &TimeDescribed, tables, disk, body)
}

/// The reply of a table.
fn described(alloc: Global, schema: &TableSchema) -> Result<Reply, Stop>
    ensures reply { IfOk result (λ reply. answer_of reply ≡ described schema.now) }
    ensures plain { IfOk result (λ reply. has_float (body_json reply.body) ≡ false) }
    ensures cause { IfErr result IsMemory }
{
    let Ok(value) = time_json(alloc, &schema.ttl) else {
        return Err(Stop::Fault(TableFault::NoMemory));
    };
    shown(alloc, "TimeToLiveDescription", value)
}

/// What it says of the attribute.
fn time_json(alloc: Global, ttl: &Option<Text>) -> Result<Value, NoMemory>
    ensures json { IfOk result (λ v. view v ≡ time_json ttl.now) }
    ensures plain { IfOk result (λ v. has_float (view v) ≡ false) }
{
    match ttl {
        Some(name) => enabled_json(alloc, name.as_str()),
        None => Ok(json!(in alloc; {"TimeToLiveStatus": "DISABLED"})?),
    }
}

/// The same where there is one.
fn enabled_json(alloc: Global, name: &str) -> Result<Value, NoMemory>
    ensures json { IfOk result (λ v. view v ≡ time_json (Some name.now)) }
    ensures plain { IfOk result (λ v. has_float (view v) ≡ false) }
{
    Ok(json!(in alloc; {"AttributeName": name, "TimeToLiveStatus": "ENABLED"})?)
}
