//! A description as the client is shown it.

ghost use Rattle.std.specs.Prelude.{◌≡◌, false, option_map, string_bytes, IfOk, OnOk};
ghost use Rattle.serde_json.specs.Data.{array, string};
ghost use Rattle.serde_json.specs.View.{view, items_view, members_view};
ghost use Rattle.serde_json.specs.Written.{has_float};
ghost use Rattle.alt_description.specs.Json.{label, table_arn, index_arn, stream_arn, items_by, array_if_any, kind_word, definition_json, key_json, key_schema_json, projection_json, index_members, local_json, backfilling, status_word, global_json, view_word, specification_json, put_member_if, lasting_members, with_stream, with_stream_members, description_json};

use crate::{Built, IndexSchema, KeyAttr, Projection, TableSchema, View};
use alt_base::NoMemory;
use alt_value::{KeyKind, Text};
use serde_json::{Map, Value, json};
use std::alloc::Global;

/// A table's description with the given status, as DescribeTable shows it (API Reference,
/// "TableDescription"). The names of resources, the label of a stream and which members there are
/// stand in docs/API.md.
pub fn json_of_schema(alloc: Global, s: &TableSchema, status: &str) -> Result<Value, NoMemory>
    ensures json { IfOk result (λ v. view v ≡ description_json s.now status.now) }
    // So its text is the compact one.
    ensures no_float { IfOk result (λ v. has_float (view v) ≡ false) }
{
    shown(alloc, s, status)
}

#[tactic(auto, unfolding(crate::specs::Json::description_json))]
fn shown(alloc: Global, s: &TableSchema, status: &str) -> Result<Value, NoMemory>
    ensures { IfOk result (λ v. view v ≡ description_json s.now status.now) }
{
    let mut members = lasting(alloc, s, status)?;
    let globals = globals_json(alloc, s.name.as_str(), s.globals.as_slice())?;
    put_if(alloc, &mut members, "GlobalSecondaryIndexes", globals)?;
    let locals = locals_json(alloc, s.name.as_str(), s.locals.as_slice())?;
    put_if(alloc, &mut members, "LocalSecondaryIndexes", locals)?;
    put_stream(alloc, &mut members, s)?;
    Ok(Value::Object(members))
}

/// The members that each table has.
fn lasting(alloc: Global, s: &TableSchema, status: &str) -> Result<Map<String, Value>, NoMemory>
    ensures { IfOk result (λ ms. members_view ms.entries ≡ lasting_members s.now status.now) }
{
    let definitions = definitions_json(alloc, s.definitions.as_slice())?;
    let keys = key_schema_json(alloc, &s.hash, &s.range)?;
    let arn = table_arn(alloc, s.name.as_str())?;
    let name = text_json(alloc, s.name.as_str())?;
    let status = text_json(alloc, status)?;
    let mut members = Map::new(alloc);
    serde_json::put(&mut members, alloc, "AttributeDefinitions", definitions)?;
    serde_json::put(
        &mut members,
        alloc,
        "CreationDateTime",
        Value::from(s.created),
    )?;
    serde_json::put(&mut members, alloc, "KeySchema", keys)?;
    serde_json::put(&mut members, alloc, "TableArn", Value::String(arn))?;
    serde_json::put(&mut members, alloc, "TableName", name)?;
    serde_json::put(&mut members, alloc, "TableStatus", status)?;
    Ok(members)
}

fn put_if(
    alloc: Global,
    members: &mut Map<String, Value>,
    name: &str,
    value: Option<Value>,
) -> Result<(), NoMemory>
    ensures { OnOk result (members_view members.new.entries
        ≡ put_member_if name.now (option_map view value) (members_view members.old.entries)) }
{
    if let Some(value) = value {
        serde_json::put(members, alloc, name, value)?;
    }
    Ok(())
}

/// What a table with a stream has besides.
fn put_stream(
    alloc: Global,
    members: &mut Map<String, Value>,
    s: &TableSchema,
) -> Result<(), NoMemory>
    ensures { OnOk result (members_view members.new.entries
        ≡ with_stream s.now s.now.view (members_view members.old.entries)) }
{
    match s.view {
        Some(shows) => put_stream_members(alloc, members, s, shows),
        None => Ok(()),
    }
}

fn put_stream_members(
    alloc: Global,
    members: &mut Map<String, Value>,
    s: &TableSchema,
    shows: View,
) -> Result<(), NoMemory>
    ensures { OnOk result (members_view members.new.entries
        ≡ with_stream_members s.now shows (members_view members.old.entries)) }
{
    let arn = stream_arn(alloc, s.name.as_str(), s.number)?;
    let label = label(alloc, s.number)?;
    let specification = specification_json(alloc, shows)?;
    serde_json::put(members, alloc, "LatestStreamArn", Value::String(arn))?;
    serde_json::put(members, alloc, "LatestStreamLabel", Value::String(label))?;
    serde_json::put(members, alloc, "StreamSpecification", specification)?;
    Ok(())
}

fn text_json(alloc: Global, text: &str) -> Result<Value, NoMemory>
    ensures { IfOk result (λ v. view v ≡ string text.now) }
{
    Ok(Value::String(String::from_str(alloc, text)?))
}

// ---- names of resources

fn table_arn(alloc: Global, name: &str) -> Result<String, NoMemory>
    ensures { IfOk result (λ s. string_bytes s ≡ table_arn name.now) }
{
    Ok(format!(in alloc; "arn:aws:dynamodb:local:000000000000:table/{name}")?)
}

fn index_arn(alloc: Global, table: &str, name: &str) -> Result<String, NoMemory>
    ensures { IfOk result (λ s. string_bytes s ≡ index_arn table.now name.now) }
{
    let mut arn = table_arn(alloc, table)?;
    arn.push_str("/index/")?;
    arn.push_str(name)?;
    Ok(arn)
}

/// The name of a table's stream as a resource (Service Authorization Reference, "Resource types defined by Amazon DynamoDB"): its
/// table's name and the label of `number`, the number of the write that made the table. Fails for want of memory alone.
pub fn stream_arn(alloc: Global, table: &str, number: u64) -> Result<String, NoMemory>
    ensures named { IfOk result (λ s. string_bytes s ≡ stream_arn table.now number) }
{
    let mut arn = table_arn(alloc, table)?;
    arn.push_str("/stream/")?;
    arn.push_str(label(alloc, number)?.as_str())?;
    Ok(arn)
}

/// A write number in 21 digits, which labels a stream and tells a change's place in it (DynamoDB Streams API Reference, "Stream" and
/// "StreamRecord": StreamLabel, SequenceNumber). Fails for want of memory alone.
#[tactic(auto, unfolding(crate::specs::Json::label))]
pub fn label(alloc: Global, number: u64) -> Result<String, NoMemory>
    ensures digits { IfOk result (λ s. string_bytes s ≡ label number) }
{
    Ok(format!(in alloc; "{number:021}")?)
}

// ---- attributes, keys and projections

fn definitions_json(alloc: Global, definitions: &[KeyAttr]) -> Result<Value, NoMemory>
    ensures { IfOk result (λ v. view v ≡ array (items_by definition_json definitions.now)) }
{
    Ok(Value::Array(each_definition(alloc, definitions)?))
}

fn each_definition(alloc: Global, definitions: &[KeyAttr]) -> Result<Vec<Value>, NoMemory>
    ensures { IfOk result (λ vs. items_view vs.items ≡ items_by definition_json definitions.now) }
{
    let mut values = Vec::with_capacity(alloc, definitions.len())?;
    for definition in definitions {
        values.push(definition_json(alloc, definition)?)?;
    }
    Ok(values)
}

fn definition_json(alloc: Global, definition: &KeyAttr) -> Result<Value, NoMemory>
    ensures { IfOk result (λ v. view v ≡ definition_json definition.now) }
{
    Ok(json!(in alloc; {
        "AttributeName": definition.name.as_str(),
        "AttributeType": kind_word(definition.kind),
    })?)
}

fn kind_word(kind: KeyKind) -> &'static str
    ensures { result.now ≡ kind_word kind }
{
    match kind {
        KeyKind::S => "S",
        KeyKind::N => "N",
        KeyKind::B => "B",
    }
}

fn key_schema_json(
    alloc: Global,
    hash: &KeyAttr,
    range: &Option<KeyAttr>,
) -> Result<Value, NoMemory>
    ensures { IfOk result (λ v. view v ≡ key_schema_json hash.now range.now) }
{
    let hash = key_json(alloc, "HASH", hash)?;
    match range {
        Some(range) => {
            let range = key_json(alloc, "RANGE", range)?;
            Ok(json!(in alloc; [hash, range])?)
        }
        None => Ok(json!(in alloc; [hash])?),
    }
}

fn key_json(alloc: Global, role: &str, key: &KeyAttr) -> Result<Value, NoMemory>
    ensures { IfOk result (λ v. view v ≡ key_json role.now key.now) }
{
    Ok(json!(in alloc; {"AttributeName": key.name.as_str(), "KeyType": role})?)
}

fn projection_json(alloc: Global, projection: &Projection) -> Result<Value, NoMemory>
    ensures { IfOk result (λ v. view v ≡ projection_json projection.now) }
{
    match projection {
        Projection::All => Ok(json!(in alloc; {"ProjectionType": "ALL"})?),
        Projection::KeysOnly => Ok(json!(in alloc; {"ProjectionType": "KEYS_ONLY"})?),
        Projection::Include(names) => {
            let names = Value::Array(each_name(alloc, names.as_slice())?);
            Ok(json!(in alloc; {"NonKeyAttributes": names, "ProjectionType": "INCLUDE"})?)
        }
    }
}

fn each_name(alloc: Global, names: &[Text]) -> Result<Vec<Value>, NoMemory>
    ensures { IfOk result (λ vs. items_view vs.items ≡ items_by (λ name. string name) names.now) }
{
    let mut values = Vec::with_capacity(alloc, names.len())?;
    for name in names {
        values.push(text_json(alloc, name.as_str())?)?;
    }
    Ok(values)
}

// ---- indexes and the stream

/// The local indexes, where there are any.
fn locals_json(
    alloc: Global,
    table: &str,
    indexes: &[IndexSchema],
) -> Result<Option<Value>, NoMemory>
    ensures { IfOk result (λ o. option_map view o
        ≡ array_if_any (local_json table.now) indexes.now) }
{
    if indexes.is_empty() {
        return Ok(None);
    }
    Ok(Some(Value::Array(each_local(alloc, table, indexes)?)))
}

fn each_local(alloc: Global, table: &str, indexes: &[IndexSchema]) -> Result<Vec<Value>, NoMemory>
    ensures { IfOk result (λ vs. items_view vs.items
        ≡ items_by (local_json table.now) indexes.now) }
{
    let mut values = Vec::with_capacity(alloc, indexes.len())?;
    for index in indexes {
        values.push(local_json(alloc, table, index)?)?;
    }
    Ok(values)
}

fn local_json(alloc: Global, table: &str, index: &IndexSchema) -> Result<Value, NoMemory>
    ensures { IfOk result (λ v. view v ≡ local_json table.now index.now) }
{
    Ok(Value::Object(index_members(alloc, table, index)?))
}

/// What each index has.
fn index_members(
    alloc: Global,
    table: &str,
    index: &IndexSchema,
) -> Result<Map<String, Value>, NoMemory>
    ensures { IfOk result (λ ms. members_view ms.entries ≡ index_members table.now index.now) }
{
    let arn = index_arn(alloc, table, index.name.as_str())?;
    let name = text_json(alloc, index.name.as_str())?;
    let keys = key_schema_json(alloc, &index.hash, &index.range)?;
    let projection = projection_json(alloc, &index.projection)?;
    let mut members = Map::new(alloc);
    serde_json::put(&mut members, alloc, "IndexArn", Value::String(arn))?;
    serde_json::put(&mut members, alloc, "IndexName", name)?;
    serde_json::put(&mut members, alloc, "KeySchema", keys)?;
    serde_json::put(&mut members, alloc, "Projection", projection)?;
    Ok(members)
}

/// The global indexes, where there are any.
fn globals_json(
    alloc: Global,
    table: &str,
    indexes: &[IndexSchema],
) -> Result<Option<Value>, NoMemory>
    ensures { IfOk result (λ o. option_map view o
        ≡ array_if_any (global_json table.now) indexes.now) }
{
    if indexes.is_empty() {
        return Ok(None);
    }
    Ok(Some(Value::Array(each_global(alloc, table, indexes)?)))
}

fn each_global(alloc: Global, table: &str, indexes: &[IndexSchema]) -> Result<Vec<Value>, NoMemory>
    ensures { IfOk result (λ vs. items_view vs.items
        ≡ items_by (global_json table.now) indexes.now) }
{
    let mut values = Vec::with_capacity(alloc, indexes.len())?;
    for index in indexes {
        values.push(global_json(alloc, table, index)?)?;
    }
    Ok(values)
}

fn global_json(alloc: Global, table: &str, index: &IndexSchema) -> Result<Value, NoMemory>
    ensures { IfOk result (λ v. view v ≡ global_json table.now index.now) }
{
    let mut members = index_members(alloc, table, index)?;
    let status = text_json(alloc, status_word(&index.built))?;
    serde_json::put(&mut members, alloc, "IndexStatus", status)?;
    put_if(
        alloc,
        &mut members,
        "Backfilling",
        backfilling(&index.built),
    )?;
    Ok(Value::Object(members))
}

/// It is true of an index that is being built, and isn't shown of one that is whole.
fn backfilling(built: &Built) -> Option<Value>
    ensures { option_map view result ≡ backfilling built.now }
{
    match built {
        Built::Whole => None,
        Built::UpTo(_) => Some(Value::Bool(true)),
    }
}

fn status_word(built: &Built) -> &'static str
    ensures { result.now ≡ status_word built.now }
{
    match built {
        Built::Whole => "ACTIVE",
        Built::UpTo(_) => "CREATING",
    }
}

fn specification_json(alloc: Global, shows: View) -> Result<Value, NoMemory>
    ensures { IfOk result (λ v. view v ≡ specification_json shows) }
{
    Ok(json!(in alloc; {"StreamEnabled": true, "StreamViewType": view_word(shows)})?)
}

/// The word for what a stream's records show (DynamoDB API Reference, "StreamSpecification": StreamViewType).
pub fn view_word(view: View) -> &'static str
    ensures word { result.now ≡ view_word view }
{
    match view {
        View::KeysOnly => "KEYS_ONLY",
        View::NewImage => "NEW_IMAGE",
        View::OldImage => "OLD_IMAGE",
        View::NewAndOldImages => "NEW_AND_OLD_IMAGES",
    }
}
