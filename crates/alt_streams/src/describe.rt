//! DescribeStream.

ghost use Rattle.std.specs.Prelude.{◌≡◌, false, IfOk, IfErr};
ghost use Rattle.std.specs.Option.{option_map_or};
ghost use Rattle.serde_json.specs.Data.{array, object, no_members};
ghost use Rattle.serde_json.specs.View.{view, members_view};
ghost use Rattle.serde_json.specs.Written.{has_float};
ghost use Rattle.alt_machine.specs.Ops.DescribeStream.{of_body, shard_json, shards_json, stream_json, described, describe_stream};
ghost use Rattle.alt_request.specs.Carried.{Carries, Moves};
ghost use Rattle.alt_request.specs.Steps.{IsMemory, Tested};
ghost use Rattle.alt_shape.specs.Body.{body_json};
ghost use Rattle.alt_shape.specs.Refusals.{answer_of};
ghost use Rattle.alt_request.specs.TablesStands.{Stands, bounds_of};

use crate::shown::{key_schema_json, text_json};
use crate::streams::{SHARD, arn_in, may_be_shard, stream_target};
use alt_base::NoMemory;
use alt_disk::Disk;
use alt_request::{Stop, TableFault, Tables, one_member};
use alt_schema::{TableSchema, View, label, stream_arn, view_word};
use alt_shape::{Refusal, Reply, bodies, given};
use serde_json::{Map, Value, json};
use std::alloc::Global;

/// Answers what a stream is, with its one shard (Streams API Reference, "DescribeStream"). The refusals are those of docs/API.md.
pub fn describe_stream<D: Disk>(
    alloc: Global,
    tables: &mut Tables,
    disk: &mut D,
    body: &Map<String, Value>,
    moment: u64,
) -> Result<Reply, Stop>
    ensures carried { Carries (bounds_of tables.old).file (λ s. describe_stream s (members_view body.now.entries))
        (Stands (D.state disk.old) tables.old) (Stands (D.state disk.new) tables.new) result }
    ensures limits { bounds_of tables.new ≡ bounds_of tables.old }
    ensures moves { Moves (λ s. describe_stream s (members_view body.now.entries))
        (Stands (D.state disk.old) tables.old) (D.state disk.old) (D.state disk.new) result }
    ensures disk { D.state disk.new ≡ D.state disk.old }
{
    let _ = disk;
    let _ = moment;
    unfit(body)?;
    let schema = stream_target(alloc, tables, arn_in(body))?;
    described(alloc, schema, body)
}

/// Why the request is refused, whatever streams there are.
fn unfit(body: &Map<String, Value>) -> Result<(), Stop>
    ensures tested { Tested (of_body (members_view body.now.entries)) result }
{
    if let Some(broken) = bodies::describe_stream(body) {
        return Err(Stop::Refused(Refusal::from(broken)));
    }
    if !may_be_shard(body, "ExclusiveStartShardId") {
        return Err(Stop::Refused(Refusal::BAD_STREAM_ARGUMENT));
    }
    Ok(())
}

/// The reply with the description of the stream of a table.
fn described(alloc: Global, schema: &TableSchema, body: &Map<String, Value>) -> Result<Reply, Stop>
    ensures reply { IfOk result (λ reply. answer_of reply
        ≡ described schema.now (members_view body.now.entries)) }
    ensures plain { IfOk result (λ reply. has_float (body_json reply.body) ≡ false) }
    ensures cause { IfErr result IsMemory }
{
    let Ok(description) = description_json(alloc, schema, body) else {
        return Err(Stop::Fault(TableFault::NoMemory));
    };
    match one_member(alloc, "StreamDescription", description) {
        Ok(reply) => Ok(reply),
        Err(_) => Err(Stop::Fault(TableFault::NoMemory)),
    }
}

/// The description of the stream of a table; a table that was found by its stream has one.
fn description_json(
    alloc: Global,
    schema: &TableSchema,
    body: &Map<String, Value>,
) -> Result<Value, NoMemory>
    ensures json { IfOk result (λ v. view v ≡ option_map_or
        (stream_json schema.now (members_view body.now.entries)) schema.now.view
        (object no_members)) }
    ensures plain { IfOk result (λ v. has_float (view v) ≡ false) }
{
    match schema.view {
        Some(shows) => stream_json(alloc, schema, body, shows),
        None => Ok(Value::Object(Map::new(alloc))),
    }
}

/// The description of a stream that shows so much.
fn stream_json(
    alloc: Global,
    schema: &TableSchema,
    body: &Map<String, Value>,
    shows: View,
) -> Result<Value, NoMemory>
    ensures json { IfOk result (λ v. view v
        ≡ stream_json schema.now (members_view body.now.entries) shows) }
    ensures plain { IfOk result (λ v. has_float (view v) ≡ false) }
{
    written(alloc, schema, body, shows)
}

fn written(
    alloc: Global,
    schema: &TableSchema,
    body: &Map<String, Value>,
    shows: View,
) -> Result<Value, NoMemory>
    ensures { IfOk result (λ v. view v
        ≡ stream_json schema.now (members_view body.now.entries) shows) }
{
    let keys = key_schema_json(alloc, &schema.hash, &schema.range)?;
    let shards = shards_json(alloc, schema, body)?;
    let arn = stream_arn(alloc, schema.name.as_str(), schema.number)?;
    let label = label(alloc, schema.number)?;
    let status = text_json(alloc, "ENABLED")?;
    let shows = text_json(alloc, view_word(shows))?;
    let name = text_json(alloc, schema.name.as_str())?;
    let mut members = Map::new(alloc);
    serde_json::put(
        &mut members,
        alloc,
        "CreationRequestDateTime",
        Value::from(schema.created),
    )?;
    serde_json::put(&mut members, alloc, "KeySchema", keys)?;
    serde_json::put(&mut members, alloc, "Shards", shards)?;
    serde_json::put(&mut members, alloc, "StreamArn", Value::String(arn))?;
    serde_json::put(&mut members, alloc, "StreamLabel", Value::String(label))?;
    serde_json::put(&mut members, alloc, "StreamStatus", status)?;
    serde_json::put(&mut members, alloc, "StreamViewType", shows)?;
    serde_json::put(&mut members, alloc, "TableName", name)?;
    Ok(Value::Object(members))
}

/// The shards behind the one to start after: the one shard, where the request names none to start after.
fn shards_json(
    alloc: Global,
    schema: &TableSchema,
    body: &Map<String, Value>,
) -> Result<Value, NoMemory>
    ensures { IfOk result (λ v. view v
        ≡ array (shards_json schema.now (members_view body.now.entries))) }
{
    if given(body, "ExclusiveStartShardId").is_some() {
        return Ok(Value::Array(Vec::new(alloc)));
    }
    let shard = shard_json(alloc, schema)?;
    Ok(json!(in alloc; [shard])?)
}

/// The shard, whose first number is that of the table's making.
fn shard_json(alloc: Global, schema: &TableSchema) -> Result<Value, NoMemory>
    ensures { IfOk result (λ v. view v ≡ shard_json schema.now) }
{
    let first = label(alloc, schema.number)?;
    Ok(json!(in alloc; {
        "SequenceNumberRange": {"StartingSequenceNumber": first.as_str()},
        "ShardId": SHARD,
    })?)
}
