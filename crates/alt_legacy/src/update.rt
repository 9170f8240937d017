//! The update of AttributeUpdates.

ghost use Rattle.std.specs.Prelude.{◌≡◌, true, Some, map, option_map, IfOk, IfErr};
ghost use Rattle.serde_json.specs.View.{view, members_view};
ghost use Rattle.alt_expr.specs.UpdateLanguage.{begin_with_names};
ghost use Rattle.alt_legacy.specs.Answered.{IsBad};
ghost use Rattle.alt_legacy.specs.Changes as spec;
ghost use Rattle.alt_legacy.specs.Changes.{IsUpdate, changes_of_member, each_change, HasDistinctNames};
ghost use Rattle.alt_legacy.specs.Trees.{action_of, action_for, update_in};

use crate::fault::LegacyFault;
use crate::tree::path;
use crate::values::value_of;
use alt_expr::{Action, Items, Shared, Sum, Term, Update};
use alt_shape::{field, given};
use alt_value::{Attr, Text};
use serde_json::{Map, Value};
use std::alloc::Global;

/// The update of a member AttributeUpdates, with its actions by name in byte order.
pub fn update_of(alloc: Global, entries: &Value) -> Result<Update, LegacyFault>
    // It makes of each item what the entries do, or is refused for the same fault.
    ensures updates { IfOk result (IsUpdate (changes_of_member (view entries.now))) }
    ensures tree { IfOk result (λ u. update_in (view entries.now) ≡ Some u) }
    ensures begins { IfOk result (λ u. begin_with_names u ≡ true) }
    ensures cause { IfErr result (IsBad (changes_of_member (view entries.now))) }
{
    match entries.as_object() {
        Some(members) => {
            names_apart(members);
            actions(alloc, members)
        }
        None => Err(LegacyFault::Bad),
    }
}

/// Each name stands once in an object. The call does nothing: it is made where a proof needs the fact.
fn names_apart(members: &Map<String, Value>)
    ensures { HasDistinctNames (members_view members.now.entries) }
{
    let _names = members.keys();
}

fn actions(alloc: Global, members: &Map<String, Value>) -> Result<Update, LegacyFault>
    ensures ok { IfOk result (λ u. option_map (map action_of)
        (each_change (members_view members.now.entries)) ≡ Some u) }
    ensures err { IfErr result (IsBad (each_change (members_view members.now.entries))) }
{
    let mut found = Items::new(alloc);
    for (name, v) in members {
        let action = action(alloc, name.as_str(), v)?;
        found.push(action)?;
    }
    Ok(found)
}

fn action(alloc: Global, name: &str, v: &Value) -> Result<Action, LegacyFault>
    ensures ok { IfOk result
        (λ a. option_map action_of (spec.named_change name.now (view v.now)) ≡ Some a) }
    ensures err { IfErr result (IsBad (spec.named_change name.now (view v.now))) }
{
    if name.is_empty() {
        return Err(LegacyFault::Bad);
    }
    let Some(entry) = v.as_object() else {
        return Err(LegacyFault::Bad);
    };
    let name = Shared::new(alloc, Text::new(alloc, name)?)?;
    let value = given(entry, "Value");
    match field!(entry, "Action": text) {
        Some(word) => by_word(alloc, word, name, value),
        None => put(alloc, name, value),
    }
}

fn by_word(
    alloc: Global,
    word: &str,
    name: Shared<Text>,
    value: Option<&Value>,
) -> Result<Action, LegacyFault>
    ensures ok { IfOk result (λ a. option_map (action_for name)
        (spec.change_named word.now (option_map (λ v. view v.now) value.entry)) ≡ Some a) }
    ensures err { IfErr result
        (IsBad (spec.change_named word.now (option_map (λ v. view v.now) value.entry))) }
{
    match word {
        "PUT" => put(alloc, name, value),
        "ADD" => add(alloc, name, value),
        "DELETE" => delete(alloc, name, value),
        _ => Err(LegacyFault::Bad),
    }
}

fn put(alloc: Global, name: Shared<Text>, value: Option<&Value>) -> Result<Action, LegacyFault>
    ensures ok { IfOk result (λ a. option_map (action_for name)
        (spec.put_of (option_map (λ v. view v.now) value.entry)) ≡ Some a) }
    ensures err { IfErr result
        (IsBad (spec.put_of (option_map (λ v. view v.now) value.entry))) }
{
    let Some(value) = value else {
        return Err(LegacyFault::Bad);
    };
    let value = value_of(alloc, value)?;
    let value = Shared::new(alloc, value)?;
    let path = path(alloc, &name)?;
    Ok(Action::Set(path, Sum::One(Term::Value(value))))
}

fn add(alloc: Global, name: Shared<Text>, value: Option<&Value>) -> Result<Action, LegacyFault>
    ensures ok { IfOk result (λ a. option_map (action_for name)
        (spec.add_of (option_map (λ v. view v.now) value.entry)) ≡ Some a) }
    ensures err { IfErr result
        (IsBad (spec.add_of (option_map (λ v. view v.now) value.entry))) }
{
    let Some(value) = value else {
        return Err(LegacyFault::Bad);
    };
    let value = value_of(alloc, value)?;
    let value = Shared::new(alloc, value)?;
    Ok(Action::Add(name, value))
}

/// Without a value the attribute is removed, and with a set its members are taken out.
fn delete(alloc: Global, name: Shared<Text>, value: Option<&Value>) -> Result<Action, LegacyFault>
    ensures ok { IfOk result (λ a. option_map (action_for name)
        (spec.delete_of (option_map (λ v. view v.now) value.entry)) ≡ Some a) }
    ensures err { IfErr result
        (IsBad (spec.delete_of (option_map (λ v. view v.now) value.entry))) }
{
    let Some(value) = value else {
        let path = path(alloc, &name)?;
        return Ok(Action::Remove(path));
    };
    let value = value_of(alloc, value)?;
    if !is_set(&value) {
        return Err(LegacyFault::Bad);
    }
    let value = Shared::new(alloc, value)?;
    Ok(Action::Delete(name, value))
}

fn is_set(value: &Attr) -> bool
    ensures { result ≡ spec.is_set value.now }
{
    match value {
        Attr::Ss(_) | Attr::Ns(_) | Attr::Bs(_) => true,
        _ => false,
    }
}
