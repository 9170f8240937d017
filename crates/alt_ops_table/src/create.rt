//! CreateTable.

ghost use Rattle.std.specs.Prelude.{◌≡◌, ◌+◌, ◌<◌, ◌≤◌};
ghost use Rattle.serde_json.specs.View.{members_view};
ghost use Rattle.alt_machine.specs.Ops.CreateTable.{shows, mismatched, of_stream, of_body, create_table};
ghost use Rattle.alt_ops_table.specs.private.Asked.{IsToBeMadeOrRefused};
ghost use Rattle.alt_request.specs.Carried.{Carries, Moves};
ghost use Rattle.alt_request.specs.Steps.{Tested};
ghost use Rattle.alt_shape.specs.Shape.{given};
ghost use Rattle.alt_request.specs.TablesStands.{AreReady, Stands, bounds_of};

use crate::replies::described;
use alt_disk::Disk;
use alt_machine::{FAMILIES_END, MOST_FAMILIES, MOST_TABLES};
use alt_request::{Stop, TableFault, Tables};
use alt_schema::{SchemaFault, TableSchema, schema_of_json};
use alt_shape::{Refusal, Reply, bodies, given, object_at, truth_at};
use serde_json::{Map, Value};
use std::alloc::Global;

/// Adds an empty table, made at a moment in whole seconds since 1970, and answers its description (API Reference,
/// "CreateTable"). The refusals are those of docs/API.md.
pub fn create_table<D: Disk>(
    alloc: Global,
    tables: &mut Tables,
    disk: &mut D,
    body: &Map<String, Value>,
    moment: u64,
) -> Result<Reply, Stop>
    requires ready { AreReady (D.state disk.old) tables.old }
    ensures carried { Carries (bounds_of tables.old).file
        (λ s. create_table s moment (members_view body.now.entries))
        (Stands (D.state disk.old) tables.old) (Stands (D.state disk.new) tables.new) result }
    ensures limits { bounds_of tables.new ≡ bounds_of tables.old }
    ensures moves { Moves (λ s. create_table s moment (members_view body.now.entries))
        (Stands (D.state disk.old) tables.old) (D.state disk.old) (D.state disk.new) result }
{
    let schema = asked(alloc, tables, body, moment)?;
    let reply = described(alloc, "TableDescription", &schema, "ACTIVE")?;
    tables.create(disk, schema)?;
    Ok(reply)
}

/// The table to be made, where nothing refuses the request.
fn asked(
    alloc: Global,
    tables: &Tables,
    body: &Map<String, Value>,
    moment: u64,
) -> Result<TableSchema, Stop>
    ensures asked { IsToBeMadeOrRefused tables.now moment (members_view body.now.entries) result }
{
    unfit(body)?;
    let family = first_family(tables.next_family());
    let schema = match schema_of_json(alloc, body, moment, tables.next_number(), family) {
        Ok(schema) => schema,
        Err(SchemaFault::NoMemory) => return Err(Stop::Fault(TableFault::NoMemory)),
        Err(SchemaFault::Refused(refusal)) => return Err(Stop::Refused(refusal)),
    };
    if tables.table(schema.name.as_str()).is_some() {
        return Err(Stop::Refused(Refusal::TABLE_EXISTS));
    }
    if tables.count() >= MOST_TABLES {
        return Err(Stop::Refused(Refusal::TOO_MANY_TABLES));
    }
    Ok(schema)
}

/// The next family, or the first of all where too few are free: then no table is made.
fn first_family(next: u32) -> u32
    ensures room { result + MOST_FAMILIES ≤ FAMILIES_END }
    ensures next { next + MOST_FAMILIES ≤ FAMILIES_END → result ≡ next }
{
    if next <= FAMILIES_END - MOST_FAMILIES {
        next
    } else {
        1
    }
}

/// Why the body alone is refused, before its names, keys and indexes are read.
fn unfit(body: &Map<String, Value>) -> Result<(), Stop>
    ensures tested { Tested (of_body (members_view body.now.entries)) result }
{
    if let Some(broken) = bodies::create_table(body) {
        return Err(Stop::Refused(Refusal::from(broken)));
    }
    if is_mismatched(body) {
        return Err(Stop::Refused(Refusal::NOT_TOGETHER));
    }
    Ok(())
}

/// Whether the stream is enabled without a view, or has a view and isn't enabled.
fn is_mismatched(body: &Map<String, Value>) -> bool
    ensures { result ≡ of_stream mismatched (members_view body.now.entries) }
{
    match object_at(body, "StreamSpecification") {
        Some(specification) => mismatched(specification),
        None => false,
    }
}

fn mismatched(specification: &Map<String, Value>) -> bool
    ensures { result ≡ mismatched (members_view specification.now.entries) }
{
    match truth_at(specification, "StreamEnabled") {
        Some(true) => !shows(specification),
        Some(false) => shows(specification),
        None => false,
    }
}

fn shows(specification: &Map<String, Value>) -> bool
    ensures { result ≡ shows (members_view specification.now.entries) }
{
    given(specification, "StreamViewType").is_some()
}
