//! GetRecords.

ghost use Rattle.std.specs.Prelude.{◌≡◌, true, false, Some, IfErr, IfOk, IsErrOf, IsSome, codes};
ghost use Rattle.std.specs.FinMap as map;
ghost use Rattle.serde_json.specs.View.{view, members_view};
ghost use Rattle.serde_json.specs.Written.{has_float};
ghost use Rattle.alt_base.specs.Counts.{Rose};
ghost use Rattle.alt_machine.specs.Changes.{record_size};
ghost use Rattle.alt_machine.specs.Ops.GetRecords.{changes_from, get_records, page_length, records_page, records_answer};
ghost use Rattle.alt_machine.specs.State.{State, Table};
ghost use Rattle.alt_request.specs.Carried.{Carries, Moves};
ghost use Rattle.alt_schema.specs.Stated.{text_of};
ghost use Rattle.alt_schema.specs.declared.schema.TableSchema.{TableSchema};
ghost use Rattle.alt_schema.specs.declared.schema.View.{View};
ghost use Rattle.alt_shape.specs.Body.{body_json};
ghost use Rattle.alt_shape.specs.Refusals.{answer_of};
ghost use Rattle.alt_streams.specs.private.Paged.{iterator_at, records_page_answer};
ghost use Rattle.alt_streams.specs.private.Placed.{OnPlace, OnStreaming, has_stream};
ghost use Rattle.alt_request.specs.TablesFaults.{IsFindFault};
ghost use Rattle.alt_request.specs.TablesLooking.{OnlyReads};
ghost use Rattle.alt_request.specs.TablesStands.{AreReady, Reads, Stands, catalog_of, bounds_of, trimmed_of};

use crate::page::Page;
use crate::paging::fill;
use crate::streams::{is_trimmed, stream_target};
use alt_base::NoMemory;
use alt_changes::{iterator_of, iterator_text};
use alt_disk::Disk;
use alt_machine::MOST_RECORDS;
use alt_request::{Stop, TableFault, Tables};
use alt_schema::TableSchema;
use alt_shape::{Body, Member, Part, Refusal, Reply, bodies, text_at, whole_at};
use alt_value::Text;
use serde_json::{Map, Value};
use std::alloc::Global;

/// The name of a table with a stream, and a number from which on its changes are read.
#[derive(Drop)]
struct Place {
    table: Text,
    from: u64,
}

/// Answers the records of the changes from an iterator's number on, and an iterator for those behind them (Streams API Reference,
/// "GetRecords"). The refusals are those of docs/API.md.
pub fn get_records<D: Disk>(
    alloc: Global,
    tables: &mut Tables,
    disk: &mut D,
    body: &Map<String, Value>,
    moment: u64,
) -> Result<Reply, Stop>
    requires ready { AreReady (D.state disk.old) tables.old }
    ensures carried { Carries (bounds_of tables.old).file (λ s. get_records s (members_view body.now.entries))
        (Stands (D.state disk.old) tables.old) (Stands (D.state disk.new) tables.new) result }
    ensures limits { bounds_of tables.new ≡ bounds_of tables.old }
    ensures moves { Moves (λ s. get_records s (members_view body.now.entries))
        (Stands (D.state disk.old) tables.old) (D.state disk.old) (D.state disk.new) result }
    ensures disk { Reads (D.state disk.old) (D.state disk.new) }
{
    let _ = moment;
    let most = page_length(body);
    let place = place_of(alloc, tables, body)?;
    match page_at(alloc, tables, disk, place.table.as_str(), place.from, most) {
        Ok(reply) => Ok(reply),
        Err(fault) => Err(Stop::Fault(fault)),
    }
}

/// How many records a page has at most.
fn page_length(body: &Map<String, Value>) -> u64
    ensures { result ≡ page_length (members_view body.now.entries) }
{
    whole_at(body, "Limit").unwrap_or(MOST_RECORDS)
}

/// The place that the iterator of a body stands for.
fn place_of(alloc: Global, tables: &Tables, body: &Map<String, Value>) -> Result<Place, Stop>
    ensures place { OnPlace (catalog_of tables.now) (trimmed_of tables.now)
        (members_view body.now.entries) result }
{
    if let Some(broken) = bodies::get_records(body) {
        return Err(Stop::Refused(Refusal::from(broken)));
    }
    let Some((arn, from)) = iterator_of(iterator_in(body)) else {
        return Err(Stop::Refused(Refusal::BAD_STREAM_ARGUMENT));
    };
    let table = match table_named(alloc, tables, arn) {
        Ok(table) => table,
        Err(stop) => return Err(stop),
    };
    if is_trimmed(tables.trimmed(table.as_str()), from) {
        return Err(Stop::Refused(Refusal::TRIMMED));
    }
    Ok(Place { table, from })
}

/// The text of the iterator of a body.
fn iterator_in(body: &Map<String, Value>) -> &str
    ensures { result.now ≡ text_of (codes "ShardIterator") (members_view body.now.entries) }
{
    text_at(body, "ShardIterator").unwrap_or("")
}

/// The name of the table whose stream has this name, or the refusal where there is none. Each table is found under its own name.
fn table_named(alloc: Global, tables: &Tables, arn: &str) -> Result<Text, Stop>
    ensures found { OnStreaming (catalog_of tables.now) arn.now result }
{
    let schema = stream_target(alloc, tables, arn)?;
    if !has_stream(tables, schema.name.as_str()) {
        return Err(Stop::Refused(Refusal::NOT_FOUND));
    }
    Ok(Text::new(alloc, schema.name.as_str())?)
}

/// Whether the table of that name is there and has a stream.
fn has_stream(tables: &Tables, name: &str) -> bool
    ensures { result ≡ has_stream (map.get (catalog_of tables.now) name.now) }
{
    match tables.table(name) {
        Some(schema) => schema.view.is_some(),
        None => false,
    }
}

/// Answers a page of at most so many records of the changes of a table with a stream, from a number on.
fn page_at<D: Disk>(
    alloc: Global,
    tables: &mut Tables,
    disk: &mut D,
    table: &str,
    from: u64,
    most: u64,
) -> Result<Reply, TableFault>
    requires ready { AreReady (D.state disk.old) tables.old }
    requires there { map.contains_key (catalog_of tables.old) table.now ≡ true }
    requires stream { (d : TableSchema) → map.get (catalog_of tables.old) table.now ≡ Some d
        → IsSome d.view }
    ensures reply { (s : State) (t : Table) (shows : View) → Stands (D.state disk.old) tables.old s
        → map.get s.tables table.now ≡ Some t → t.description.view ≡ Some shows
        → IfOk result (λ reply. answer_of reply
        ≡ records_answer t.description (iterator_at t.description from)
        (records_page most (record_size t.description shows) (changes_from from t.changes)) shows) }
    ensures plain { IfOk result (λ reply. has_float (body_json reply.body) ≡ false) }
    ensures only { OnlyReads (D.state disk.old) (D.state disk.new) tables.old tables.new }
    ensures fault { (s : State) → Stands (D.state disk.old) tables.old s
        → IfErr result IsFindFault }
    ensures cause { IsErrOf result TableFault.Failed
        → Rose (D.state disk.old).faults (D.state disk.new).faults }
{
    let mut page = Page::new(alloc, from, most);
    fill(alloc, tables, disk, table, &mut page)?;
    let Some(schema) = tables.table(table) else {
        unreachable!();
    };
    match page_reply(alloc, schema, page) {
        Ok(reply) => Ok(reply),
        Err(_) => Err(TableFault::NoMemory),
    }
}

/// The reply with the records of a page, and the iterator for the changes behind them.
#[tactic(auto, using(alt_shape::proofs::Plain::members_plain))]
fn page_reply(alloc: Global, schema: &TableSchema, page: Page) -> Result<Reply, NoMemory>
    ensures reply { IfOk result (λ reply. answer_of reply ≡ records_page_answer schema.now page) }
    ensures plain { IfOk result (λ reply. has_float (body_json reply.body) ≡ false) }
{
    let Page { records, next, .. } = page;
    let next = iterator_text(alloc, schema, next)?;
    let next = String::from_str(alloc, next.as_str())?;
    let mut members = Vec::with_capacity(alloc, 2)?;
    members.push(Member {
        name: "NextShardIterator",
        value: Part::Owned(next),
    })?;
    members.push(Member {
        name: "Records",
        value: Part::Objects(records),
    })?;
    Ok(Reply {
        status: 200,
        body: Body::Members(members),
    })
}
