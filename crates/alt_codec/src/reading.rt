//! Values of JSON trees.

ghost use Rattle.std.specs.Prelude.{◌≡◌, ◌≢◌, ℕ, [], List, Ok, Err, IfOk, IfErr, option_map};
ghost use Rattle.serde_json.specs.View.{view, members_view, items_view};
ghost use Rattle.alt_value.specs.Stands.{tree_of};
ghost use Rattle.alt_value.specs.Tree.{Tree, Pair};
ghost use Rattle.alt_value.specs.Values.{IsWhole, IsWholeItem};
ghost use Rattle.alt_decimal.specs.NumberText.{TextReadsAs};
ghost use Rattle.alt_codec.specs.JsonOf.{JsonOf, ItemJsonOf, SendsNumber, AnswersNumber};
ghost use Rattle.alt_codec.specs.Numbers.{number_of};
ghost use Rattle.alt_codec.specs.Reading.{value_in, item_in, only_present as the_only_present, payload_in, list_in, map_in, elements_in, fields_in};

use crate::ValueFault;
use crate::flat::flat_of;
use alt_value::{Attr, AttrList, Item, ItemBuilder, held};
use serde_json::{Map, Value};
use std::alloc::Global;

/// How deep lists and maps may nest.
const LEVELS: u32 = 32;

/// The value that a JSON tree stands for, else its one fault.
pub fn attr_of_json(alloc: Global, v: &Value) -> Result<Attr, ValueFault>
    ensures value { IfOk result (λ a. value_in 32 (view v.now) ≡ Ok (tree_of a)) }
    ensures fault { IfErr result (λ f. f ≢ ValueFault.NoMemory → value_in 32 (view v.now) ≡ Err f) }
    // So it is the value exactly where the JSON stands for one.
    ensures json { IfOk result (λ a. JsonOf 32 (view v.now) (tree_of a)) }
    ensures none { IfErr result (λ f. f ≢ ValueFault.NoMemory → (t : Tree)
        → JsonOf 32 (view v.now) t → ⊥) }
    // A text reads as a number, or is refused for its fault, as the grammar of number texts says: an N, and each member of a set.
    ensures numbers { (text : List ℕ) → TextReadsAs text (number_of text) }
    ensures number { (text : List ℕ) → SendsNumber (view v.now) text
        → AnswersNumber text result }
    // What is read is a value, and no set in it is empty.
    ensures whole { IfOk result (λ a. IsWhole (tree_of a)) }
{
    match value_at(alloc, v, LEVELS) {
        Ok(a) => {
            held(&a);
            Ok(a)
        }
        Err(fault) => Err(fault),
    }
}

/// The item that a JSON tree stands for, else its one fault.
pub fn item_of_json(alloc: Global, v: &Value) -> Result<Item, ValueFault>
    ensures value { IfOk result (λ i. item_in 32 (view v.now) ≡ Ok i) }
    ensures fault { IfErr result (λ f. f ≢ ValueFault.NoMemory → item_in 32 (view v.now) ≡ Err f) }
    // So it is the item exactly where the JSON stands for one.
    ensures json { IfOk result (λ i. ItemJsonOf 32 (view v.now) i) }
    ensures none { IfErr result (λ f. f ≢ ValueFault.NoMemory → (i : List Pair)
        → ItemJsonOf 32 (view v.now) i → ⊥) }
    // What is read is an item of values, and no set in it is empty.
    ensures whole { IfOk result IsWholeItem }
{
    match item_at(alloc, v) {
        Ok(item) => {
            let _count = item.len();
            Ok(item)
        }
        Err(fault) => Err(fault),
    }
}

fn item_at(alloc: Global, v: &Value) -> Result<Item, ValueFault>
    ensures value { IfOk result (λ i. item_in 32 (view v.now) ≡ Ok i) }
    ensures fault { IfErr result (λ f. f ≢ ValueFault.NoMemory → item_in 32 (view v.now) ≡ Err f) }
{
    let Some(members) = v.as_object() else {
        return Err(ValueFault::WrongJson);
    };
    fields_at(alloc, members, LEVELS)
}

/// The one member that isn't null.
#[tactic(auto, using(crate::proofs::Present::found_null, crate::proofs::Present::found_first, crate::proofs::Present::found_second, crate::proofs::Present::found_end, crate::proofs::Present::found_none))]
fn only_present(members: &Map<String, Value>) -> Option<(&str, &Value)>
    ensures { option_map (λ p. (p.0.now, view p.1.now)) result
        ≡ the_only_present (members_view members.now.entries) }
{
    let mut found = None;
    for (name, v) in members {
        if !v.is_null() {
            if found.is_some() {
                return None;
            }
            found = Some((name.as_str(), v));
        }
    }
    found
}

#[cycle(reading)]
fn value_at(alloc: Global, v: &Value, room: u32) -> Result<Attr, ValueFault>
    ensures value { IfOk result (λ a. value_in room (view v.now) ≡ Ok (tree_of a)) }
    ensures fault { IfErr result (λ f. f ≢ ValueFault.NoMemory
        → value_in room (view v.now) ≡ Err f) }
{
    match v.as_object() {
        Some(members) => match only_present(members) {
            Some((name, payload)) => payload_at(alloc, name, payload, room),
            None => Err(ValueFault::NotOneMember),
        },
        None => Err(ValueFault::WrongJson),
    }
}

/// The value of a kind's name and its payload.
#[cycle(reading)]
fn payload_at(alloc: Global, name: &str, v: &Value, room: u32) -> Result<Attr, ValueFault>
    ensures value { IfOk result (λ a. payload_in room name.now (view v.now) ≡ Ok (tree_of a)) }
    ensures fault { IfErr result (λ f. f ≢ ValueFault.NoMemory
        → payload_in room name.now (view v.now) ≡ Err f) }
{
    match name {
        "L" => list_at(alloc, v, room),
        "M" => map_at(alloc, v, room),
        _ => flat_of(alloc, name, v),
    }
}

#[cycle(reading)]
fn list_at(alloc: Global, v: &Value, room: u32) -> Result<Attr, ValueFault>
    ensures value { IfOk result (λ a. list_in room (view v.now) ≡ Ok (tree_of a)) }
    ensures fault { IfErr result (λ f. f ≢ ValueFault.NoMemory
        → list_in room (view v.now) ≡ Err f) }
{
    let Some(items) = v.as_array() else {
        return Err(ValueFault::WrongJson);
    };
    if room == 0 {
        return Err(ValueFault::TooDeep);
    }
    match elements_at(alloc, items, room - 1) {
        Ok(list) => Ok(Attr::L(list)),
        Err(fault) => Err(fault),
    }
}

#[cycle(reading)]
fn elements_at(alloc: Global, items: &[Value], room: u32) -> Result<AttrList, ValueFault>
    ensures value { IfOk result (λ l. elements_in room (items_view items.now) ≡ Ok l) }
    ensures fault { IfErr result (λ f. f ≢ ValueFault.NoMemory
        → elements_in room (items_view items.now) ≡ Err f) }
{
    let mut list = AttrList::new(alloc);
    for v in items {
        let element = value_at(alloc, v, room)?;
        list.push(element)?;
    }
    Ok(list)
}

#[cycle(reading)]
fn map_at(alloc: Global, v: &Value, room: u32) -> Result<Attr, ValueFault>
    ensures value { IfOk result (λ a. map_in room (view v.now) ≡ Ok (tree_of a)) }
    ensures fault { IfErr result (λ f. f ≢ ValueFault.NoMemory → map_in room (view v.now) ≡ Err f) }
{
    let Some(members) = v.as_object() else {
        return Err(ValueFault::WrongJson);
    };
    if room == 0 {
        return Err(ValueFault::TooDeep);
    }
    match fields_at(alloc, members, room - 1) {
        Ok(map) => Ok(Attr::M(map)),
        Err(fault) => Err(fault),
    }
}

#[cycle(reading)]
fn fields_at(alloc: Global, members: &Map<String, Value>, room: u32) -> Result<Item, ValueFault>
    ensures value { IfOk result (λ i. fields_in room [] (members_view members.now.entries) ≡ Ok i) }
    ensures fault { IfErr result (λ f. f ≢ ValueFault.NoMemory
        → fields_in room [] (members_view members.now.entries) ≡ Err f) }
{
    let mut item = ItemBuilder::new(alloc);
    for (name, v) in members {
        if name.is_empty() {
            return Err(ValueFault::EmptyName);
        }
        let value = value_at(alloc, v, room)?;
        item.put(name.as_str(), value)?;
    }
    match item.into_item() {
        Ok(item) => Ok(item),
        Err(_) => Err(ValueFault::NoMemory),
    }
}
