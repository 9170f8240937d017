//! The objects inside the members of the older interface, which stand in the place of expressions.

ghost use Rattle.std.specs.Prelude.{◌≡◌, codes, map};
ghost use Rattle.serde_json.specs.View.{view, members_view};
ghost use Rattle.alt_shape.specs.BodyParts as parts;
ghost use Rattle.alt_shape.specs.BodyParts.{in_entries, in_members, in_names, object_fault};
ghost use Rattle.alt_shape.specs.Shape.{demand_of, first_unmet};

use crate::checking::first_broken;
use crate::fields::object_at;
use crate::inside::each_text;
use crate::rule::{Broken, Rule};
use crate::{field, tables};
use serde_json::{Map, Value};

/// The entries of Expected.
pub(crate) fn expected(body: &Map<String, Value>) -> Option<Broken>
    ensures { result ≡ in_entries (codes "Expected") parts.expected_entry
        (members_view body.now.entries) }
{
    match field!(body, "Expected": object) {
        Some(entries) => each_entry(&tables::EXPECTED, entries),
        None => None,
    }
}

/// The entries of AttributeUpdates.
pub(crate) fn updates(body: &Map<String, Value>) -> Option<Broken>
    ensures { result ≡ in_entries (codes "AttributeUpdates") parts.update_entry
        (members_view body.now.entries) }
{
    match field!(body, "AttributeUpdates": object) {
        Some(entries) => each_entry(&tables::ATTRIBUTE_UPDATE, entries),
        None => None,
    }
}

/// The entries of KeyConditions, QueryFilter or ScanFilter.
pub(crate) fn conditions(body: &Map<String, Value>, name: &str) -> Option<Broken>
    ensures { result ≡ in_entries name.now parts.condition_entry
        (members_view body.now.entries) }
{
    match object_at(body, name) {
        Some(entries) => each_entry(&tables::CONDITION, entries),
        None => None,
    }
}

/// The elements of AttributesToGet, which are texts.
pub(crate) fn names(owner: &Map<String, Value>) -> Option<Broken>
    ensures { result ≡ in_names (members_view owner.now.entries) }
{
    match field!(owner, "AttributesToGet": array) {
        Some(elements) => each_text(elements),
        None => None,
    }
}

/// Entries of one kind, by the names of their attributes.
fn each_entry(rules: &[Rule], entries: &Map<String, Value>) -> Option<Broken>
    ensures { result ≡ in_members (object_fault (first_unmet (map demand_of rules.now)))
        (members_view entries.now.entries) }
{
    for (_, entry) in entries {
        if let Some(broken) = entry_broken(rules, entry) {
            return Some(broken);
        }
    }
    None
}

fn entry_broken(rules: &[Rule], entry: &Value) -> Option<Broken>
    ensures { result ≡ object_fault (first_unmet (map demand_of rules.now)) (view entry.now) }
{
    match entry.as_object() {
        Some(members) => first_broken(rules, members),
        None => Some(Broken::WrongKind),
    }
}
