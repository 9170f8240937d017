//! The writes that a BatchWriteItem asks for.

ghost use Rattle.std.specs.Prelude.{◌≡◌, ◌∷◌, ◌++◌, IfOk, IfErr, OnOk, map as each, option_map};
ghost use Rattle.std.specs.List.{list_all};
ghost use Rattle.serde_json.specs.View.{view, items_view, members_view};
ghost use Rattle.alt_machine.specs.Batches as machine;
ghost use Rattle.alt_machine.specs.Ops.BatchWriteItem as write;
ghost use Rattle.alt_machine.specs.Refusals.{first_answer, refuse_if, unless_answer};
ghost use Rattle.alt_ops_batch.specs.private.Batches.{requested_write};
ghost use Rattle.alt_request.specs.Steps.{Comes, IsMemory, Tested};
ghost use Rattle.alt_shape.specs.Refusals.{bad_batch};
ghost use Rattle.alt_request.specs.TablesStands.{catalog_of};

use crate::members::{
    Inside, all_are_names, elements_of, has_repeat, is_sized, known, place_all, tables_asked,
};
use alt_machine::{BatchMember, MOST_WRITES, PlacedMember, Sought};
use alt_request::{Stop, Tables, item_at, item_refusal};
use alt_shape::{Refusal, bodies, object_at};
use alt_value::Text;
use serde_json::{Map, Value};
use std::alloc::Global;

/// A write of a batch as its body has it, with the name of its table.
#[derive(Clone, Copy)]
pub(crate) struct Request<'b> {
    pub(crate) table: &'b str,
    pub(crate) value: &'b Value,
}

/// The writes that a BatchWriteItem asks for, with their places, where nothing refuses them. Each step is made over all of them before
/// the next one.
#[tactic(auto, unfolding(alt_machine::specs::Ops::BatchWriteItem::writes_asked))]
pub fn writes_asked(
    alloc: Global,
    tables: &Tables,
    body: &Map<String, Value>,
) -> Result<Vec<PlacedMember>, Stop>
    ensures asked { Comes (λ v. v.items) (write.writes_asked (catalog_of tables.now)
        (members_view body.now.entries)) result }
{
    let requests = requests(alloc, body)?;
    let read = read_all(alloc, requests)?;
    all_known(tables, body)?;
    let there = place_all(alloc, tables, read)?;
    match members_refusal(alloc, tables, &there) {
        Ok(()) => Ok(there),
        Err(stop) => Err(stop),
    }
}

/// The writes of a body that nothing refuses by itself.
#[tactic(auto, using(crate::proofs::Founds::all_one))]
fn requests<'b>(alloc: Global, body: &'b Map<String, Value>) -> Result<Vec<Request<'b>>, Stop>
    ensures asked { Comes (λ v. each requested_write v.items) (unless_answer
        (first_answer (write.of_body (members_view body.now.entries)))
        (write.requested_writes (members_view body.now.entries))) result }
{
    if let Some(broken) = bodies::batch_write_item(body) {
        return Err(Stop::Refused(Refusal::from(broken)));
    }
    let Some(tables) = tables_asked(body) else {
        return Err(Stop::Refused(Refusal::BAD_BATCH));
    };
    if !is_sized(Inside::Writes, MOST_WRITES, tables) {
        return Err(Stop::Refused(Refusal::BAD_BATCH));
    }
    let requests = requests_in(alloc, tables)?;
    if !all_are_one(&requests) {
        return Err(Stop::Refused(Refusal::BAD_BATCH));
    }
    if !all_are_names(tables) {
        return Err(Stop::Refused(Refusal::BAD_NAME));
    }
    Ok(requests)
}

/// The writes of each table, in their order.
fn requests_in<'b>(alloc: Global, tables: &'b Map<String, Value>) -> Result<Vec<Request<'b>>, Stop>
    ensures asked { IfOk result (λ v. each requested_write v.items
        ≡ machine.of_each machine.elements_in
        (machine.pairs_in (members_view tables.now.entries))) }
    ensures cause { IfErr result IsMemory }
{
    let mut requests = Vec::new(alloc);
    for (name, value) in tables {
        if let Some(elements) = elements_of(Inside::Writes, value) {
            push_requests(name.as_str(), elements, &mut requests)?;
        }
    }
    Ok(requests)
}

#[tactic(auto, using(crate::proofs::Founds::elements_from))]
fn push_requests<'b>(
    table: &'b str,
    elements: &'b [Value],
    requests: &mut Vec<Request<'b>>,
) -> Result<(), Stop>
    ensures asked { OnOk result (each requested_write requests.new.items
        ≡ each requested_write requests.old.items
        ++ each (λ d. (table.now, d)) (machine.array_elements (items_view elements.now))) }
    ensures cause { IfErr result IsMemory }
{
    for value in elements {
        requests.push(Request { table, value })?;
    }
    Ok(())
}

fn all_are_one(requests: &[Request<'_>]) -> bool
    ensures { result ≡ list_all (λ r. write.is_one (view r.value.now)) requests.now }
{
    requests.iter().all(|request| is_one(request.value))
}

/// Whether a write is one put or one delete.
fn is_one(value: &Value) -> bool
    ensures { result ≡ write.is_one (view value.now) }
{
    if object_in(value, "PutRequest").is_some() {
        object_in(value, "DeleteRequest").is_none()
    } else {
        object_in(value, "DeleteRequest").is_some()
    }
}

/// The object at a member of an object, where one is there.
fn object_in<'b>(value: &'b Value, name: &str) -> Option<&'b Map<String, Value>>
    ensures { option_map (λ m. members_view m.now.entries) result
        ≡ machine.object_in name.now (view value.now) }
{
    object_at(value.as_object()?, name)
}

/// The items that are put and the keys of those that are deleted, in their order.
#[tactic(auto, using(crate::proofs::Founds::founds, std::proofs::lemmas::List::map_push))]
fn read_all(alloc: Global, requests: Vec<Request<'_>>) -> Result<Vec<BatchMember>, Stop>
    ensures read { Comes (λ v. v.items) (machine.each_found write.read_write
        (each requested_write requests.entry.items)) result }
{
    let mut read = Vec::with_capacity(alloc, requests.len())?;
    for request in requests {
        read.push(read_write(alloc, request)?)?;
    }
    Ok(read)
}

fn read_write(alloc: Global, request: Request<'_>) -> Result<BatchMember, Stop>
    ensures read { Comes (λ m. m) (write.read_write (requested_write request.entry)) result }
{
    if let Some(put) = object_in(request.value, "PutRequest") {
        return read_member(alloc, request.table, Sought::Item, put);
    }
    match object_in(request.value, "DeleteRequest") {
        Some(delete) => read_member(alloc, request.table, Sought::Key, delete),
        None => Err(Stop::Refused(Refusal::MEMBER_MISSING)),
    }
}

fn read_member(
    alloc: Global,
    table: &str,
    sought: Sought,
    members: &Map<String, Value>,
) -> Result<BatchMember, Stop>
    ensures read { Comes (λ m. m) (write.read_member table.now sought
        (members_view members.now.entries)) result }
{
    let item = item_at(alloc, members, sought)?;
    let table = Text::new(alloc, table)?;
    Ok(BatchMember {
        table,
        sought,
        item,
    })
}

/// Refuses a body one of whose tables isn't there.
fn all_known(tables: &Tables, body: &Map<String, Value>) -> Result<(), Stop>
    ensures tested { Tested (machine.of_catalog (catalog_of tables.now)
        (machine.tables_asked (members_view body.now.entries))) result }
{
    match tables_asked(body) {
        Some(asked) => known(tables, asked),
        None => Ok(()),
    }
}

/// Refuses members of which a key stands twice, or an item that its table can't have.
pub(crate) fn members_refusal(
    alloc: Global,
    tables: &Tables,
    members: &[PlacedMember],
) -> Result<(), Stop>
    ensures tested { Tested (refuse_if (machine.has_repeat members.now) bad_batch
        ∷ write.of_members (catalog_of tables.now) members.now) result }
{
    if has_repeat(alloc, members)? {
        return Err(Stop::Refused(Refusal::BAD_BATCH));
    }
    each_taken(tables, members)
}

#[tactic(auto, using(crate::proofs::Founds::taken_on, crate::proofs::Founds::refused_at))]
fn each_taken(tables: &Tables, members: &[PlacedMember]) -> Result<(), Stop>
    ensures tested { Tested (write.of_members (catalog_of tables.now) members.now) result }
{
    for member in members {
        member_refusal(tables, member)?;
    }
    Ok(())
}

fn member_refusal(tables: &Tables, member: &PlacedMember) -> Result<(), Stop>
    ensures tested { Tested (write.of_member (catalog_of tables.now) member.now) result }
{
    match member.sought {
        Sought::Item => match tables.table(member.table.as_str()) {
            Some(schema) => item_refusal(schema, &member.item),
            None => Ok(()),
        },
        Sought::Key => Ok(()),
    }
}
