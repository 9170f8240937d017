//! Values as JSON trees.

ghost use Rattle.std.specs.Prelude.{◌≡◌, false, map, string_bytes, IfOk};
ghost use Rattle.base64.specs.Engines.{standard};
ghost use Rattle.base64.specs.GeneralPurpose.{encode_of};
ghost use Rattle.serde_json.specs.View.{view, items_view, members_view};
ghost use Rattle.serde_json.specs.Written.{has_float};
ghost use Rattle.alt_decimal.specs.Printed.{printed};
ghost use Rattle.alt_value.specs.Stands.{tree_of};
ghost use Rattle.alt_value.specs.Tree.{SS_tree, NS_tree, BS_tree, trees_of, fields_of};
ghost use Rattle.alt_codec.specs.ReadBack.{ReadsAsValue, ReadsAsItem, StandsForValue, StandsForItem};
ghost use Rattle.alt_codec.specs.Returning.{NumberReturns, Returns, ItemReturns, Each};
ghost use Rattle.alt_codec.specs.Writing.{of_kind as one_member, strings, json_of, json_items, json_members, json_of_pairs};

use alt_base::NoMemory;
use alt_decimal::Decimal;
use alt_value::{Attr, AttrList, BytesSet, Item, NumberSet, TextSet};
use base64::engine::general_purpose::STANDARD;
use serde_json::{Map, Value};
use std::alloc::Global;

/// The JSON tree of a value: one member, whose name is the value's kind (DynamoDB API Reference, "AttributeValue").
/// Sets are written in value order, numbers in plain notation and binaries in padded base64.
pub fn json_of_attr(alloc: Global, a: &Attr) -> Result<Value, NoMemory>
    ensures json { IfOk result (λ v. view v ≡ json_of (tree_of a.now)) }
    // It stands for the value, and reading gives that back, where no set in it is empty and it nests no deeper than may be read.
    ensures stands { IfOk result (λ v. StandsForValue 32 (view v) (tree_of a.now)) }
    ensures read_back { IfOk result (λ v. ReadsAsValue 32 (view v) (tree_of a.now)) }
    // So its text is the compact one.
    ensures no_float { IfOk result (λ v. has_float (view v) ≡ false) }
{
    json_of_value(alloc, a)
}

/// The JSON tree of an item: an object of its names, each with its value's tree.
pub fn json_of_item(alloc: Global, i: &Item) -> Result<Value, NoMemory>
    ensures json { IfOk result (λ v. view v ≡ json_of_pairs i.now) }
    // It stands for the item, and reading gives that back, where no set in it is empty and it nests no deeper than may be read.
    ensures stands { IfOk result (λ v. StandsForItem 32 (view v) i.now) }
    ensures read_back { IfOk result (λ v. ReadsAsItem 32 (view v) i.now) }
    ensures no_float { IfOk result (λ v. has_float (view v) ≡ false) }
{
    Ok(Value::Object(json_of_members(alloc, i)?))
}

#[cycle(writing)]
fn json_of_value(alloc: Global, a: &Attr) -> Result<Value, NoMemory>
    ensures json { IfOk result (λ v. view v ≡ json_of (tree_of a.now)) }
    ensures read_back { IfOk result (λ _. Returns (tree_of a.now)) }
{
    match a {
        Attr::S(text) => of_kind(
            alloc,
            "S",
            Value::String(String::from_str(alloc, text.as_str())?),
        ),
        Attr::N(number) => of_kind(alloc, "N", Value::String(number_text(alloc, number)?)),
        Attr::B(bytes) => of_kind(
            alloc,
            "B",
            Value::String(STANDARD.encode(alloc, bytes.as_slice())?),
        ),
        Attr::Bool(truth) => of_kind(alloc, "BOOL", Value::Bool(*truth)),
        Attr::Null => of_kind(alloc, "NULL", Value::Bool(true)),
        Attr::Ss(set) => of_kind(alloc, "SS", Value::Array(json_of_texts(alloc, set)?)),
        Attr::Ns(set) => of_kind(alloc, "NS", Value::Array(json_of_numbers(alloc, set)?)),
        Attr::Bs(set) => of_kind(alloc, "BS", Value::Array(json_of_byte_strings(alloc, set)?)),
        Attr::L(list) => of_kind(alloc, "L", Value::Array(json_of_elements(alloc, list)?)),
        Attr::M(map) => of_kind(alloc, "M", Value::Object(json_of_members(alloc, map)?)),
    }
}

#[cycle(writing)]
fn json_of_elements(alloc: Global, list: &AttrList) -> Result<Vec<Value>, NoMemory>
    ensures json { IfOk result (λ vs. items_view vs.items ≡ json_items (trees_of list.now)) }
    ensures read_back { IfOk result (λ _. Each Returns list.now) }
{
    let mut values = Vec::with_capacity(alloc, list.len())?;
    for place in 0..list.len() {
        let Some(element) = list.get(place) else {
            break;
        };
        values.push(json_of_value(alloc, element)?)?;
    }
    Ok(values)
}

#[cycle(writing)]
fn json_of_members(alloc: Global, i: &Item) -> Result<Map<String, Value>, NoMemory>
    ensures json { IfOk result (λ m. members_view m.entries ≡ json_members (fields_of i.now)) }
    ensures read_back { IfOk result (λ _. ItemReturns i.now) }
{
    let mut members = Map::new(alloc);
    for place in 0..i.len() {
        let Some((name, a)) = i.at(place) else {
            break;
        };
        let value = json_of_value(alloc, a)?;
        serde_json::put(&mut members, alloc, name, value)?;
    }
    Ok(members)
}

/// An object of one member, a kind and its payload.
fn of_kind(alloc: Global, kind: &str, payload: Value) -> Result<Value, NoMemory>
    ensures { IfOk result (λ v. view v ≡ one_member kind.now (view payload)) }
{
    let mut members = Map::new(alloc);
    serde_json::put(&mut members, alloc, kind, payload)?;
    Ok(Value::Object(members))
}

/// A number in plain notation.
fn number_text(alloc: Global, number: &Decimal) -> Result<String, NoMemory>
    ensures text { IfOk result (λ s. string_bytes s ≡ printed number.now) }
    ensures read_back { IfOk result (λ _. NumberReturns number.now) }
{
    let mut text = [0; 176];
    let len = number.print(&mut text);
    Ok(String::from_utf8_lossy(alloc, &text[..len])?)
}

fn json_of_texts(alloc: Global, set: &TextSet) -> Result<Vec<Value>, NoMemory>
    ensures json { IfOk result (λ vs. items_view vs.items ≡ strings set.now) }
    ensures read_back { IfOk result (λ _. Returns (SS_tree set.now)) }
{
    let mut values = Vec::with_capacity(alloc, set.len())?;
    for place in 0..set.len() {
        let Some(text) = set.get(place) else {
            break;
        };
        values.push(Value::String(String::from_str(alloc, text)?))?;
    }
    Ok(values)
}

fn json_of_numbers(alloc: Global, set: &NumberSet) -> Result<Vec<Value>, NoMemory>
    ensures json { IfOk result (λ vs. items_view vs.items ≡ strings (map printed set.now)) }
    ensures read_back { IfOk result (λ _. Returns (NS_tree set.now)) }
{
    let mut values = Vec::with_capacity(alloc, set.len())?;
    for place in 0..set.len() {
        let Some(number) = set.get(place) else {
            break;
        };
        values.push(Value::String(number_text(alloc, &number)?))?;
    }
    Ok(values)
}

fn json_of_byte_strings(alloc: Global, set: &BytesSet) -> Result<Vec<Value>, NoMemory>
    ensures json { IfOk result (λ vs. items_view vs.items
        ≡ strings (map (encode_of standard) set.now)) }
    ensures read_back { IfOk result (λ _. Returns (BS_tree set.now)) }
{
    let mut values = Vec::with_capacity(alloc, set.len())?;
    for place in 0..set.len() {
        let Some(bytes) = set.get(place) else {
            break;
        };
        values.push(Value::String(STANDARD.encode(alloc, bytes)?))?;
    }
    Ok(values)
}
