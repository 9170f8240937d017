//! Names, values and items of JSON texts.

ghost use Rattle.std.specs.Prelude.{◌≡◌, true, IsTrue};
ghost use Rattle.serde_json.specs.View.{view, members_view};
ghost use Rattle.alt_expr.specs.NamesIn.{gives_names, name_in};
ghost use Rattle.alt_expr.specs.Given.{is_given_name};

use alt_codec::{attr_of_json, item_of_json, json_of_item};
use alt_condparse::parse;
use alt_expr::{Boxed, Cond, ExprFault, Names, Values};
use alt_value::{Attr, Item};
use serde_json::{Map, Value};
use std::alloc::Global;

pub(crate) fn item(alloc: Global, json: &str) -> Option<Item> {
    let Ok(read) = Value::from_str(alloc, json) else {
        return None;
    };
    item_of_json(alloc, &read).ok()
}

/// Whether an item is written as that JSON.
pub(crate) fn is_written(alloc: Global, item: &Item, json: &str) -> bool {
    let Ok(written) = json_of_item(alloc, item) else {
        return false;
    };
    match written.to_string(alloc) {
        Ok(text) => text.as_str() == json,
        Err(_) => false,
    }
}

pub(crate) fn attr(alloc: Global, json: &str) -> Option<Attr> {
    let Ok(read) = Value::from_str(alloc, json) else {
        return None;
    };
    attr_of_json(alloc, &read).ok()
}

pub(crate) fn values(alloc: Global, json: &str) -> Option<Values> {
    let Some(given) = item(alloc, json) else {
        return None;
    };
    Values::of_item(alloc, given).ok()
}

pub(crate) fn names(alloc: Global, json: &str) -> Option<Names> {
    let Ok(read) = Value::from_str(alloc, json) else {
        return None;
    };
    let Some(members) = read.as_object() else {
        return None;
    };
    if !are_texts(members) {
        return None;
    }
    Names::of_json(alloc, Some(members)).ok()
}

/// Whether each member is a text that isn't empty.
fn are_texts(members: &Map<String, Value>) -> bool
    ensures { IsTrue result → gives_names (members_view members.now.entries) ≡ true }
{
    for (_, name) in members {
        if !is_text(name) {
            return false;
        }
    }
    true
}

fn is_text(name: &Value) -> bool
    ensures { result ≡ is_given_name (name_in (view name.now)) }
{
    match name.as_str() {
        Some(text) => !text.is_empty(),
        None => false,
    }
}

/// The condition of a text, on the heap.
pub(crate) fn condition(
    alloc: Global,
    text: &str,
    names: &mut Names,
    values: &mut Values,
) -> Result<Boxed<Cond>, ExprFault> {
    match parse(alloc, text, names, values) {
        Ok(condition) => boxed(alloc, condition),
        Err(fault) => Err(fault),
    }
}

fn boxed(alloc: Global, condition: Cond) -> Result<Boxed<Cond>, ExprFault> {
    match Boxed::new(alloc, condition) {
        Ok(boxed) => Ok(boxed),
        Err(_) => Err(ExprFault::NoMemory),
    }
}
