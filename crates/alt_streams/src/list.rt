//! ListStreams.

ghost use Rattle.std.specs.Prelude.{◌≡◌, map as each, take, length, nat_lt, false, Some, None, option_map, is_some, codes, if◌then◌else◌, IfOk};
ghost use Rattle.std.specs.List.{find};
ghost use Rattle.serde_json.specs.View.{view, items_view, members_view};
ghost use Rattle.serde_json.specs.Written.{has_float};
ghost use Rattle.alt_machine.specs.Members.{may_name};
ghost use Rattle.alt_machine.specs.Ops.ListStreams.{list_streams, stream_json, streams_answer};
ghost use Rattle.alt_machine.specs.Ops.ListTables.{page_length};
ghost use Rattle.alt_request.specs.Carried.{Carries, Moves};
ghost use Rattle.alt_schema.specs.Json.{items_by};
ghost use Rattle.alt_shape.specs.Body.{body_json};
ghost use Rattle.alt_shape.specs.Refusals.{answer_of};
ghost use Rattle.alt_streams.specs.private.Listed.{TablesHaveOwnNames, StartsAfterOrRefused, IsStart, all_in, is_listed, last_table_of_page, name_given, streams_page_answer, start_table_name, streams_after};
ghost use Rattle.alt_request.specs.TablesStands.{Stands, catalog_of, bounds_of};

use crate::shown::stream_json;
use crate::streams::stream_named;
use alt_base::NoMemory;
use alt_disk::Disk;
use alt_machine::PAGE_LENGTH;
use alt_request::{Stop, TableFault, Tables};
use alt_schema::{TableSchema, is_name, stream_arn};
use alt_shape::{Refusal, Reply, bodies, text_at, whole_at};
use serde_json::{Map, Value};
use std::alloc::Global;

/// Tables with streams in the order of their names, and whether one stands after the last of them.
#[derive(Drop)]
struct Page<'t> {
    schemas: Vec<&'t TableSchema>,
    more: bool,
}

/// Answers the streams of tables, by the names of these, as many as a page takes (Streams API Reference, "ListStreams"). It names the
/// last of them as the place to go on from exactly where another follows it. The refusals are those of docs/API.md.
pub fn list_streams<D: Disk>(
    alloc: Global,
    tables: &mut Tables,
    disk: &mut D,
    body: &Map<String, Value>,
    moment: u64,
) -> Result<Reply, Stop>
    ensures carried { Carries (bounds_of tables.old).file (λ s. list_streams s (members_view body.now.entries))
        (Stands (D.state disk.old) tables.old) (Stands (D.state disk.new) tables.new) result }
    ensures limits { bounds_of tables.new ≡ bounds_of tables.old }
    ensures moves { Moves (λ s. list_streams s (members_view body.now.entries))
        (Stands (D.state disk.old) tables.old) (D.state disk.old) (D.state disk.new) result }
    ensures disk { D.state disk.new ≡ D.state disk.old }
{
    let _ = disk;
    let _ = moment;
    let start = asked(alloc, tables, body)?;
    match answer_of_page(alloc, tables, start, body) {
        Ok(reply) => Ok(reply),
        Err(_) => Err(Stop::Fault(TableFault::NoMemory)),
    }
}

// ---- the request

/// The table after whose stream the list starts, if one is given, where nothing refuses the request.
fn asked<'t>(
    alloc: Global,
    tables: &'t Tables,
    body: &Map<String, Value>,
) -> Result<Option<&'t TableSchema>, Stop>
    ensures asked { StartsAfterOrRefused (catalog_of tables.now) (members_view body.now.entries) result }
{
    if let Some(broken) = bodies::list_streams(body) {
        return Err(Stop::Refused(Refusal::from(broken)));
    }
    let start = start_of(alloc, tables, body)?;
    if !may_name(body) {
        return Err(Stop::Refused(Refusal::BAD_NAME));
    }
    Ok(start)
}

/// The table after whose stream the list starts, if one is given; one that is given has to be there.
fn start_of<'t>(
    alloc: Global,
    tables: &'t Tables,
    body: &Map<String, Value>,
) -> Result<Option<&'t TableSchema>, Stop>
    ensures start { IsStart (catalog_of tables.now) (members_view body.now.entries) result }
{
    let Some(arn) = text_at(body, "ExclusiveStartStreamArn") else {
        return Ok(None);
    };
    match stream_named(alloc, tables, arn) {
        Ok(Some(schema)) => Ok(Some(schema)),
        Ok(None) => Err(Stop::Refused(Refusal::BAD_STREAM_ARGUMENT)),
        Err(_) => Err(Stop::Fault(TableFault::NoMemory)),
    }
}

/// The member TableName, where it is there, is a name.
fn may_name(body: &Map<String, Value>) -> bool
    ensures { result ≡ may_name (members_view body.now.entries) (codes "TableName") }
{
    match text_at(body, "TableName") {
        Some(text) => is_name(text),
        None => true,
    }
}

/// How many streams are on the page at most.
fn page_length(body: &Map<String, Value>) -> u64
    ensures { result ≡ page_length (members_view body.now.entries) }
{
    whole_at(body, "Limit").unwrap_or(PAGE_LENGTH)
}

/// The name of the table to start after, the empty one where none is given.
fn start_name(start: Option<&TableSchema>) -> &str
    ensures { result.now ≡ start_table_name (option_map (λ d. d.now) start.entry) }
{
    match start {
        Some(schema) => schema.name.as_str(),
        None => "",
    }
}

// ---- the page

/// The page that is asked for.
fn answer_of_page(
    alloc: Global,
    tables: &Tables,
    start: Option<&TableSchema>,
    body: &Map<String, Value>,
) -> Result<Reply, NoMemory>
    ensures reply { TablesHaveOwnNames (catalog_of tables.now) → IfOk result (λ reply. answer_of reply
        ≡ streams_answer (page_length (members_view body.now.entries))
        (streams_after (start_table_name (option_map (λ d. d.now) start.entry))
        (name_given (members_view body.now.entries)) (catalog_of tables.now))) }
    ensures plain { IfOk result (λ reply. has_float (body_json reply.body) ≡ false) }
{
    let name = text_at(body, "TableName");
    let page = page_after(alloc, tables, start_name(start), name, page_length(body))?;
    listed(alloc, &page)
}

/// The first `most` streams after a table, each found from the one before; of the table of a name alone, where one is given.
fn page_after<'t>(
    alloc: Global,
    tables: &'t Tables,
    start: &str,
    name: Option<&str>,
    most: u64,
) -> Result<Page<'t>, NoMemory>
    ensures streams { TablesHaveOwnNames (catalog_of tables.now) → IfOk result (λ p.
        each (λ d. d.now) p.schemas.items ≡ take most (streams_after start.now
        (option_map (λ w. w.now) name.entry) (catalog_of tables.now))) }
    ensures more { TablesHaveOwnNames (catalog_of tables.now) → IfOk result (λ p. p.more
        ≡ nat_lt most (length (streams_after start.now
        (option_map (λ w. w.now) name.entry) (catalog_of tables.now)))) }
{
    let mut schemas = Vec::new(alloc);
    let mut last = start;
    for _ in 0..most {
        let Some(schema) = next_stream(tables, last, name) else {
            break;
        };
        last = schema.name.as_str();
        schemas.push(schema)?;
    }
    let more = next_stream(tables, last, name).is_some();
    Ok(Page { schemas, more })
}

/// The first table with a stream after a name; that of a name alone, where one is given.
fn next_stream<'t>(tables: &'t Tables, last: &str, name: Option<&str>) -> Option<&'t TableSchema>
    ensures next { TablesHaveOwnNames (catalog_of tables.now) → option_map (λ d. d.now) result
        ≡ find (is_listed last.now (option_map (λ w. w.now) name.entry))
        (all_in (catalog_of tables.now)) }
{
    match name {
        Some(name) => named_stream(tables, last, name),
        None => stream_after(tables, last),
    }
}

/// The table of a name, where it has a stream and stands after another name.
fn named_stream<'t>(tables: &'t Tables, last: &str, name: &str) -> Option<&'t TableSchema>
    ensures named { TablesHaveOwnNames (catalog_of tables.now) → option_map (λ d. d.now) result
        ≡ find (is_listed last.now (Some name.now)) (all_in (catalog_of tables.now)) }
{
    if !last.cmp(name).is_lt() {
        return None;
    }
    with_stream(tables.table(name)?)
}

fn with_stream(schema: &TableSchema) -> Option<&TableSchema>
    ensures { option_map (λ d. d.now) result
        ≡ (if is_some schema.now.view then Some schema.now else None) }
{
    if schema.view.is_some() {
        Some(schema)
    } else {
        None
    }
}

/// The first table with a stream after a name.
fn stream_after<'t>(tables: &'t Tables, name: &str) -> Option<&'t TableSchema>
    ensures next { TablesHaveOwnNames (catalog_of tables.now) → option_map (λ d. d.now) result
        ≡ find (is_listed name.now None) (all_in (catalog_of tables.now)) }
{
    let mut last = name;
    while let Some(schema) = tables.table_after(last) {
        if schema.view.is_some() {
            return Some(schema);
        }
        last = schema.name.as_str();
    }
    None
}

// ---- the reply

/// The reply of a page.
fn listed(alloc: Global, page: &Page) -> Result<Reply, NoMemory>
    ensures reply { IfOk result (λ reply. answer_of reply
        ≡ streams_page_answer page.now.more (each (λ d. d.now) page.now.schemas.items)) }
    ensures plain { IfOk result (λ reply. has_float (body_json reply.body) ≡ false) }
{
    written(alloc, page)
}

fn written(alloc: Global, page: &Page) -> Result<Reply, NoMemory>
    ensures { IfOk result (λ reply. answer_of reply
        ≡ streams_page_answer page.now.more (each (λ d. d.now) page.now.schemas.items)) }
{
    let streams = streams_json(alloc, page.schemas.as_slice())?;
    let mut members = Map::new(alloc);
    if let Some(last) = last_stream(page) {
        let arn = stream_arn(alloc, last.name.as_str(), last.number)?;
        serde_json::put(
            &mut members,
            alloc,
            "LastEvaluatedStreamArn",
            Value::String(arn),
        )?;
    }
    serde_json::put(&mut members, alloc, "Streams", Value::Array(streams))?;
    Ok(Reply::answered(members))
}

/// The last table of a page, where it isn't the last of all.
fn last_stream<'t>(page: &Page<'t>) -> Option<&'t TableSchema>
    ensures { option_map (λ d. d.now) result
        ≡ last_table_of_page page.now.more (each (λ d. d.now) page.now.schemas.items) }
{
    if !page.more {
        return None;
    }
    Some(*page.schemas.last()?)
}

/// The streams of tables, in their order.
fn streams_json(alloc: Global, schemas: &[&TableSchema]) -> Result<Vec<Value>, NoMemory>
    ensures { IfOk result (λ vs. items_view vs.items
        ≡ items_by stream_json (each (λ d. d.now) schemas.now)) }
{
    let mut values = Vec::new(alloc);
    for schema in schemas {
        values.push(stream_json(alloc, *schema)?)?;
    }
    Ok(values)
}
