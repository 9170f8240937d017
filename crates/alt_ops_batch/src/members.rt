//! What both operations on batches do with their members: how many they are, their tables, their places, and that no key stands twice.

ghost use Rattle.std.specs.Prelude.{◌≡◌, Some, None, IfOk, length, codes, option_map, option_and_then};
ghost use Rattle.std.specs.List.{list_all};
ghost use Rattle.std.specs.FinMap as map;
ghost use Rattle.serde_json.specs.Find.{as_object};
ghost use Rattle.serde_json.specs.View.{view, items_view, members_view};
ghost use Rattle.alt_machine.specs.Batches as machine;
ghost use Rattle.alt_machine.specs.Refusals.{or_refused};
ghost use Rattle.alt_ops_batch.specs.private.Batches.{inside_of};
ghost use Rattle.alt_request.specs.Steps.{Comes, Tested};
ghost use Rattle.alt_schema.specs.Rules.{is_name};
ghost use Rattle.alt_shape.specs.Refusals.{not_found};
ghost use Rattle.alt_shape.specs.Shape.{given};
ghost use Rattle.alt_request.specs.TablesStands.{catalog_of};

use alt_base::NoMemory;
use alt_machine::{BatchMember, PlacedMember};
use alt_request::{Stop, Tables, fitting_place};
use alt_schema::{TableSchema, is_name};
use alt_shape::{Refusal, array_at, object_at};
use serde_json::{Map, Value};
use std::alloc::Global;
use std::collections::HashSet;

/// What the value of a table in a batch holds: an array of writes, or an object with the keys to read.
#[derive(Clone, Copy)]
pub(crate) enum Inside {
    Writes,
    Keys,
}

/// The tables that a batch names, each with what is asked of it.
pub(crate) fn tables_asked(body: &Map<String, Value>) -> Option<&Map<String, Value>>
    ensures { option_map (λ m. members_view m.now.entries) result
        ≡ option_and_then as_object (given (codes "RequestItems") (members_view body.now.entries)) }
{
    object_at(body, "RequestItems")
}

/// The writes or the keys of a table, None where its value has none.
pub(crate) fn elements_of(inside: Inside, value: &Value) -> Option<&Vec<Value>>
    ensures { machine.elements_if_array (option_map (λ v. items_view v.now.items) result)
        ≡ inside_of inside (view value.now) }
{
    match inside {
        Inside::Writes => value.as_array(),
        Inside::Keys => match value.as_object() {
            Some(asked) => array_at(asked, "Keys"),
            None => None,
        },
    }
}

#[tactic(auto, using(crate::proofs::Founds::elements_length))]
fn count_of(inside: Inside, value: &Value) -> usize
    ensures { result ≡ length (inside_of inside (view value.now)) }
{
    match elements_of(inside, value) {
        Some(elements) => elements.len(),
        None => 0,
    }
}

/// Whether there is a member, and there aren't more than so many.
#[tactic(auto, using(crate::proofs::Founds::of_each_length, crate::proofs::Founds::too_many, crate::proofs::Founds::sized_by_room))]
pub(crate) fn is_sized(inside: Inside, most: usize, tables: &Map<String, Value>) -> bool
    ensures { result ≡ machine.is_sized most (length (machine.of_each (inside_of inside)
        (machine.pairs_in (members_view tables.now.entries)))) }
{
    let mut room = most;
    for (_, value) in tables {
        let count = count_of(inside, value);
        if room < count {
            return false;
        }
        room -= count;
    }
    room < most
}

/// Whether each of these names may be that of a table.
pub(crate) fn all_are_names(tables: &Map<String, Value>) -> bool
    ensures { result ≡ list_all (λ t. is_name t.0) (machine.pairs_in
        (members_view tables.now.entries)) }
{
    for (name, _) in tables {
        if !is_name(name.as_str()) {
            return false;
        }
    }
    true
}

/// Refuses a batch one of whose tables isn't there.
pub(crate) fn known(tables: &Tables, asked: &Map<String, Value>) -> Result<(), Stop>
    ensures tested { Tested (machine.of_catalog (catalog_of tables.now)
        (machine.pairs_in (members_view asked.now.entries))) result }
{
    for (name, _) in asked {
        if tables.table(name.as_str()).is_none() {
            return Err(Stop::Refused(Refusal::NOT_FOUND));
        }
    }
    Ok(())
}

/// The members with their places, in their order.
#[tactic(auto, using(crate::proofs::Founds::founds))]
pub(crate) fn place_all(
    alloc: Global,
    tables: &Tables,
    members: Vec<BatchMember>,
) -> Result<Vec<PlacedMember>, Stop>
    ensures placed { Comes (λ v. v.items) (machine.each_found
        (machine.placed (catalog_of tables.now)) members.items) result }
{
    let mut there = Vec::with_capacity(alloc, members.len())?;
    for member in members {
        there.push(place(alloc, tables, member)?)?;
    }
    Ok(there)
}

/// A member with its place in the table that it names.
fn place(alloc: Global, tables: &Tables, member: BatchMember) -> Result<PlacedMember, Stop>
    ensures placed { Comes (λ m. m) (machine.placed (catalog_of tables.now) member) result }
{
    let schema = table_named(tables, member.table.as_str())?;
    let place = fitting_place(alloc, member.sought, schema, &member.item)?;
    let BatchMember {
        table,
        sought,
        item,
    } = member;
    Ok(PlacedMember {
        table,
        sought,
        item,
        place,
    })
}

/// The description of the table of that name.
pub(crate) fn table_named<'t>(tables: &'t Tables, name: &str) -> Result<&'t TableSchema, Stop>
    ensures found { Comes (λ d. d.now)
        (or_refused not_found (map.get (catalog_of tables.now) name.now)) result }
{
    match tables.table(name) {
        Some(schema) => Ok(schema),
        None => Err(Stop::Refused(Refusal::NOT_FOUND)),
    }
}

/// Whether a key stands twice.
#[tactic(auto, using(crate::proofs::Repeats::repeats_start))]
pub(crate) fn has_repeat(alloc: Global, members: &[PlacedMember]) -> Result<bool, NoMemory>
    ensures { IfOk result (λ repeat. repeat ≡ machine.has_repeat members.now) }
{
    let mut seen = HashSet::new(alloc);
    for member in members {
        if !seen.insert((member.table.as_str(), member.place.as_slice()))? {
            return Ok(true);
        }
    }
    Ok(false)
}
