//! The changes of indexes that a body asks for.

ghost use Rattle.std.specs.Prelude.{◌≡◌, true, codes, length, option_map};
ghost use Rattle.std.specs.List.{filter, list_all, list_any};
ghost use Rattle.std.specs.Option.{option_map_or};
ghost use Rattle.serde_json.specs.View.{view, items_view, members_view};
ghost use Rattle.alt_backfill.specs.private.Asked.{change_asked, first_asked, names_index};
ghost use Rattle.alt_machine.specs.Lists.{is_given};
ghost use Rattle.alt_machine.specs.Ops.UpdateTable.{acts, are_single, change_members, changes, is_one, changed_index_names_fit};
ghost use Rattle.alt_schema.specs.Stated.{stated_by, text_of};

use alt_schema::is_name;
use alt_shape::{array_at, given, object_at, text_at};
use serde_json::{Map, Value};

/// The changes.
pub(crate) fn changes(body: &Map<String, Value>) -> &[Value]
    ensures { stated_by change_members (items_view result.now) ≡ changes (members_view body.now.entries) }
{
    match array_at(body, "GlobalSecondaryIndexUpdates") {
        Some(list) => list.as_slice(),
        None => &[],
    }
}

/// Whether each change is one of the three, and in one of them at most an index comes or goes.
pub(crate) fn are_single(body: &Map<String, Value>) -> bool
    ensures { result ≡ are_single (members_view body.now.entries) }
{
    let list = changes(body);
    all_one(list) && acting(list) <= 1
}

/// Whether each is exactly one of the three.
fn all_one(list: &[Value]) -> bool
    ensures { result ≡ list_all is_one (stated_by change_members (items_view list.now)) }
{
    for change in list {
        if !is_one_of(change) {
            return false;
        }
    }
    true
}

/// Whether a value is no change, or exactly one of the three.
fn is_one_of(value: &Value) -> bool
    ensures { result ≡ list_all is_one (change_members (view value.now)) }
{
    match value.as_object() {
        Some(change) => is_one(change),
        None => true,
    }
}

/// Whether a change is exactly one of the three.
fn is_one(change: &Map<String, Value>) -> bool
    ensures { result ≡ is_one (members_view change.now.entries) }
{
    match (
        is_given(change, "Create"),
        is_given(change, "Update"),
        is_given(change, "Delete"),
    ) {
        (true, false, false) => true,
        (false, true, false) => true,
        (false, false, true) => true,
        _ => false,
    }
}

/// In how many of them an index comes or goes.
fn acting(list: &[Value]) -> usize
    ensures { result ≡ length (filter acts (stated_by change_members (items_view list.now))) }
{
    let mut count = 0;
    for change in list {
        if is_acting(change) {
            count += 1;
        }
    }
    count
}

/// Whether a value is a change in which an index comes or goes.
fn is_acting(value: &Value) -> bool
    ensures { result ≡ list_any acts (change_members (view value.now)) }
{
    match value.as_object() {
        Some(change) => acts(change),
        None => false,
    }
}

/// Whether an index comes or goes in a change.
fn acts(change: &Map<String, Value>) -> bool
    ensures { result ≡ acts (members_view change.now.entries) }
{
    is_given(change, "Create") || is_given(change, "Delete")
}

fn is_given(change: &Map<String, Value>, name: &str) -> bool
    ensures { result ≡ is_given name.now (members_view change.now.entries) }
{
    given(change, name).is_some()
}

/// What the first of the changes asks at a name.
pub(crate) fn first_asked<'v>(
    body: &'v Map<String, Value>,
    name: &str,
) -> Option<&'v Map<String, Value>>
    ensures { option_map (λ m. members_view m.now.entries) result
        ≡ first_asked name.now (members_view body.now.entries) }
{
    for change in changes(body) {
        if let Some(asked) = asked_of(change, name) {
            return Some(asked);
        }
    }
    None
}

/// What a value asks at a name, where it is a change.
fn asked_of<'v>(value: &'v Value, name: &str) -> Option<&'v Map<String, Value>>
    ensures { option_map (λ m. members_view m.now.entries) result
        ≡ change_asked name.now (view value.now) }
{
    object_at(value.as_object()?, name)
}

/// Whether the name of an index that comes, or goes, is good.
pub(crate) fn names_fit(body: &Map<String, Value>) -> bool
    ensures { are_single (members_view body.now.entries) ≡ true
        → result ≡ changed_index_names_fit (members_view body.now.entries) }
{
    is_name_asked(body, "Create") && is_name_asked(body, "Delete")
}

/// Whether what is asked at a name, where it is asked, has the name of an index.
fn is_name_asked(body: &Map<String, Value>, name: &str) -> bool
    ensures { result
        ≡ option_map_or names_index (first_asked name.now (members_view body.now.entries)) true }
{
    match first_asked(body, name) {
        Some(asked) => is_name(index_name(asked)),
        None => true,
    }
}

/// The name of an index in what is asked.
pub(crate) fn index_name(asked: &Map<String, Value>) -> &str
    ensures { result.now ≡ text_of (codes "IndexName") (members_view asked.now.entries) }
{
    text_at(asked, "IndexName").unwrap_or("")
}
