//! What a BatchGetItem answers: the items, and the keys that it didn't read, as they may be asked for again.

ghost use Rattle.std.specs.Prelude.{◌≡◌, [], true, false, IfOk, IfErr, OnOk, codes, map, option_and_then, option_map};
ghost use Rattle.serde_json.specs.Data.{array, boolean, no_members, object, put, string};
ghost use Rattle.serde_json.specs.Find.{as_bool, as_str};
ghost use Rattle.serde_json.specs.View.{view, items_view, members_view};
ghost use Rattle.serde_json.specs.Written.{has_float, items_have_float, members_have_float};
ghost use Rattle.alt_machine.specs.Expressions.{names_member};
ghost use Rattle.alt_machine.specs.Ops.BatchGetItem as machine;
ghost use Rattle.alt_machine.specs.Ops.BatchGetItem.{attributes_member};
ghost use Rattle.alt_machine.specs.Ops.GetItem.{parts};
ghost use Rattle.alt_ops_batch.specs.private.Names.{ArePlain};
ghost use Rattle.alt_ops_batch.specs.private.Readings.{IsPlainRead, ResponsesAreWhole, name_left, read_so, reply_of, responses_of, rises};
ghost use Rattle.alt_request.specs.Steps.{IsMemory};
ghost use Rattle.alt_schema.specs.Json.{put_member_if};
ghost use Rattle.alt_shape.specs.Body.{body_json, items_json, tables_json};
ghost use Rattle.alt_shape.specs.Refusals.{answer_of};
ghost use Rattle.alt_shape.specs.Shape.{given};

use crate::reading::Read;
use alt_base::NoMemory;
use alt_codec::json_of_item;
use alt_expr::Paths;
use alt_projection::project;
use alt_request::Stop;
use alt_shape::{Body, Member, Part, Reply, TableItems, given, text_at, truth_at};
use alt_value::Item;
use serde_json::{Map, Value};
use std::alloc::Global;

/// The reply. Where no keys are left, it is written without a tree.
pub(crate) fn read_reply(alloc: Global, read: Read) -> Result<Reply, Stop>
    requires plain { IsPlainRead read }
    ensures reply { IfOk result (λ reply. answer_of reply ≡ machine.read_answer (read_so read)) }
    ensures plain { IfOk result (λ reply. has_float (body_json reply.body) ≡ false) }
    ensures cause { IfErr result IsMemory }
{
    let Read {
        responses,
        unprocessed,
        ..
    } = read;
    if is_whole(&responses, &unprocessed) {
        return Ok(whole_reply(alloc, responses)?);
    }
    Ok(tree_reply(alloc, &responses, unprocessed)?)
}

/// Whether no keys are left, and the tables may stand in their order.
fn is_whole(responses: &[TableItems], unprocessed: &Map<String, Value>) -> bool
    ensures whole { result ≡ true → ResponsesAreWhole responses.now (members_view unprocessed.now.entries) }
{
    if !unprocessed.is_empty() {
        return false;
    }
    rise(responses)
}

/// Whether the names of tables rise. They do in the order of a request.
#[tactic(auto, using(crate::proofs::Tables::rises_from))]
fn rise(tables: &[TableItems]) -> bool
    ensures { result ≡ rises [] tables.now }
{
    let mut last = "";
    for table in tables {
        let name = table.table.as_str();
        if !last.cmp(name).is_lt() {
            return false;
        }
        last = name;
    }
    true
}

/// The reply where no keys are left.
#[tactic(auto, using(alt_shape::proofs::Plain::members_plain))]
fn whole_reply(alloc: Global, responses: Vec<TableItems>) -> Result<Reply, NoMemory>
    ensures reply { IfOk result (λ reply. answer_of reply
        ≡ reply_of (tables_json responses.items) no_members) }
    ensures plain { IfOk result (λ reply. has_float (body_json reply.body) ≡ false) }
{
    let mut members = Vec::with_capacity(alloc, 2)?;
    members.push(Member {
        name: "Responses",
        value: Part::Tables(responses),
    })?;
    members.push(Member {
        name: "UnprocessedKeys",
        value: Part::Tables(Vec::new(alloc)),
    })?;
    Ok(Reply {
        status: 200,
        body: Body::Members(members),
    })
}

/// The reply as a tree.
fn tree_reply(
    alloc: Global,
    responses: &[TableItems],
    unprocessed: Map<String, Value>,
) -> Result<Reply, NoMemory>
    requires plain { members_have_float (members_view unprocessed.entries) ≡ false }
    ensures reply { IfOk result (λ reply. answer_of reply
        ≡ reply_of (responses_of no_members responses.now) (members_view unprocessed.entries)) }
    ensures plain { IfOk result (λ reply. has_float (body_json reply.body) ≡ false) }
{
    let responses = tables_tree(alloc, responses)?;
    let mut members = Map::new(alloc);
    serde_json::put(&mut members, alloc, "Responses", Value::Object(responses))?;
    serde_json::put(
        &mut members,
        alloc,
        "UnprocessedKeys",
        Value::Object(unprocessed),
    )?;
    Ok(Reply::answered(members))
}

/// Tables with their items.
#[tactic(auto, using(crate::proofs::Tables::responses_from, crate::proofs::Tables::all_plain))]
fn tables_tree(alloc: Global, tables: &[TableItems]) -> Result<Map<String, Value>, NoMemory>
    ensures tables { IfOk result (λ m. members_view m.entries
        ≡ responses_of no_members tables.now) }
    ensures plain { IfOk result (λ m. members_have_float (members_view m.entries) ≡ false) }
{
    let mut members = Map::new(alloc);
    for table in tables {
        put_table(alloc, &mut members, table)?;
    }
    Ok(members)
}

fn put_table(
    alloc: Global,
    members: &mut Map<String, Value>,
    table: &TableItems,
) -> Result<(), NoMemory>
    ensures put { OnOk result (members_view members.new.entries
        ≡ put table.now.table (array (items_json table.now.items.items))
        (members_view members.old.entries)) }
{
    let items = items_tree(alloc, table.items.as_slice())?;
    serde_json::put(members, alloc, table.table.as_str(), Value::Array(items))?;
    Ok(())
}

fn items_tree(alloc: Global, items: &[Item]) -> Result<Vec<Value>, NoMemory>
    ensures { IfOk result (λ v. items_view v.items ≡ items_json items.now) }
{
    let mut values = Vec::with_capacity(alloc, items.len())?;
    for item in items {
        values.push(json_of_item(alloc, item)?)?;
    }
    Ok(values)
}

/// What paths choose of an item, or all of it where there are no paths.
pub(crate) fn shown_parts(
    alloc: Global,
    paths: &Option<Paths>,
    item: Item,
) -> Result<Item, NoMemory>
    ensures parts { IfOk result (λ shown. shown ≡ parts paths.now item) }
{
    match paths {
        Some(paths) => project(alloc, paths, &item),
        None => Ok(item),
    }
}

/// Names a table with the keys that are left of it, where there are any.
pub(crate) fn put_left(
    alloc: Global,
    unprocessed: &mut Map<String, Value>,
    name: &str,
    body: &Map<String, Value>,
    left: Vec<Value>,
) -> Result<(), NoMemory>
    requires names { ArePlain (members_view body.now.entries) }
    requires left { items_have_float (items_view left.items) ≡ false }
    requires before { members_have_float (members_view unprocessed.old.entries) ≡ false }
    ensures put { OnOk result (members_view unprocessed.new.entries ≡ name_left name.now
        (members_view body.now.entries) (map view left.items)
        (members_view unprocessed.old.entries)) }
    ensures plain { OnOk result (members_have_float (members_view unprocessed.new.entries)
        ≡ false) }
{
    if left.is_empty() {
        return Ok(());
    }
    let asked = keys_asked(alloc, body, left)?;
    serde_json::put(unprocessed, alloc, name, asked)?;
    Ok(())
}

/// What is asked of keys, with those members of their table that were given.
fn keys_asked(alloc: Global, body: &Map<String, Value>, keys: Vec<Value>) -> Result<Value, NoMemory>
    requires names { ArePlain (members_view body.now.entries) }
    requires keys { items_have_float (items_view keys.items) ≡ false }
    ensures asked { IfOk result (λ v. view v ≡ machine.keys_object (members_view body.now.entries)
        (array (items_view keys.items))) }
    ensures plain { IfOk result (λ v. has_float (view v) ≡ false) }
{
    let mut members = Map::new(alloc);
    put_attributes(alloc, &mut members, body)?;
    put_truth(alloc, &mut members, body)?;
    put_names(alloc, &mut members, body)?;
    serde_json::put(&mut members, alloc, "Keys", Value::Array(keys))?;
    put_projection(alloc, &mut members, body)?;
    Ok(Value::Object(members))
}

fn put_attributes(
    alloc: Global,
    members: &mut Map<String, Value>,
    body: &Map<String, Value>,
) -> Result<(), NoMemory>
    ensures put { OnOk result (members_view members.new.entries
        ≡ put_member_if (codes "AttributesToGet")
        (option_map (λ names. array names) (attributes_member (members_view body.now.entries)))
        (members_view members.old.entries)) }
{
    if let Some(names) = attributes_at(body) {
        let names = names.clone()?;
        serde_json::put(members, alloc, "AttributesToGet", names)?;
    }
    Ok(())
}

fn put_truth(
    alloc: Global,
    members: &mut Map<String, Value>,
    body: &Map<String, Value>,
) -> Result<(), NoMemory>
    ensures put { OnOk result (members_view members.new.entries ≡ put_member_if (codes "ConsistentRead")
        (option_map (λ b. boolean b) (option_and_then as_bool
        (given (codes "ConsistentRead") (members_view body.now.entries))))
        (members_view members.old.entries)) }
{
    if let Some(truth) = truth_at(body, "ConsistentRead") {
        serde_json::put(members, alloc, "ConsistentRead", Value::Bool(truth))?;
    }
    Ok(())
}

fn put_names(
    alloc: Global,
    members: &mut Map<String, Value>,
    body: &Map<String, Value>,
) -> Result<(), NoMemory>
    ensures put { OnOk result (members_view members.new.entries
        ≡ put_member_if (codes "ExpressionAttributeNames")
        (option_map (λ names. object names) (names_member (members_view body.now.entries)))
        (members_view members.old.entries)) }
{
    if let Some(names) = names_at(body) {
        let names = names.clone()?;
        serde_json::put(members, alloc, "ExpressionAttributeNames", names)?;
    }
    Ok(())
}

fn put_projection(
    alloc: Global,
    members: &mut Map<String, Value>,
    body: &Map<String, Value>,
) -> Result<(), NoMemory>
    ensures put { OnOk result (members_view members.new.entries
        ≡ put_member_if (codes "ProjectionExpression") (option_map (λ text. string text)
        (option_and_then as_str
        (given (codes "ProjectionExpression") (members_view body.now.entries))))
        (members_view members.old.entries)) }
{
    if let Some(text) = text_at(body, "ProjectionExpression") {
        let text = Value::try_from_str(alloc, text)?;
        serde_json::put(members, alloc, "ProjectionExpression", text)?;
    }
    Ok(())
}

/// The names that are given, which are an object.
fn names_at(body: &Map<String, Value>) -> Option<&Value>
    ensures { option_map (λ v. view v.now) result ≡ option_map (λ names. object names)
        (names_member (members_view body.now.entries)) }
{
    match given(body, "ExpressionAttributeNames") {
        Some(names) if names.is_object() => Some(names),
        _ => None,
    }
}

/// The names of attributes that are given, which are an array.
fn attributes_at(body: &Map<String, Value>) -> Option<&Value>
    ensures { option_map (λ v. view v.now) result ≡ option_map (λ names. array names)
        (attributes_member (members_view body.now.entries)) }
{
    match given(body, "AttributesToGet") {
        Some(names) if names.is_array() => Some(names),
        _ => None,
    }
}
