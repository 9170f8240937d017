//! The conditions of KeyConditions.

ghost use Rattle.std.specs.Prelude.{◌≡◌, ◌&&◌, option_map, is_some, IfOk, IfErr};
ghost use Rattle.serde_json.specs.View.{view};
ghost use Rattle.alt_expr.specs.KeyForm as form;
ghost use Rattle.alt_legacy.specs.Keys as spec;
ghost use Rattle.alt_legacy.specs.Keys.{key_of, IsKeyCondition, IsNoKey};
ghost use Rattle.alt_legacy.specs.Entries.{entries_in};
ghost use Rattle.alt_legacy.specs.declared.reading.Form.TheVariants as forms;

use crate::entry::{Entry, Test};
use crate::fault::LegacyFault;
use crate::reading::{Form, entries_of};
use crate::tree::condition_of;
use alt_expr::{Comparison, Cond};
use alt_schema::KeyAttr;
use alt_value::{Attr, KeyKind};
use serde_json::Value;
use std::alloc::Global;

/// The key condition of a member KeyConditions: EQ on the HASH attribute, and optionally one of EQ, LT, LE, GT, GE, BETWEEN and
/// BEGINS_WITH on the RANGE attribute, with values of the keys' kinds (API Reference, "Query", KeyConditions). `NotKey` for any
/// other entries, and for none.
pub fn key_of(
    alloc: Global,
    entries: &Value,
    hash: &KeyAttr,
    range: Option<&KeyAttr>,
) -> Result<Cond, LegacyFault>
    // It is a key condition that asks what the entries do, and holds of the items that meet them.
    ensures asks { IfOk result (IsKeyCondition (entries_in forms.Filter (view entries.now))
        (key_of hash.now) (option_map (λ r. key_of r.now) range.entry)) }
    ensures cause { IfErr result (IsNoKey (entries_in forms.Filter (view entries.now))
        (key_of hash.now) (option_map (λ r. key_of r.now) range.entry)) }
{
    let entries = entries_of(alloc, Form::Filter, entries)?;
    if !are_key(entries.as_slice(), hash, range) {
        return Err(LegacyFault::NotKey);
    }
    match condition_of(alloc, entries, false) {
        Ok(Some(condition)) => Ok(condition),
        Ok(None) => Err(LegacyFault::NotKey),
        Err(_) => Err(LegacyFault::NoMemory),
    }
}

/// Whether entries are a key condition.
fn are_key(entries: &[Entry], hash: &KeyAttr, range: Option<&KeyAttr>) -> bool
    ensures { result ≡ is_some (spec.asked_by_entries (key_of hash.now)
        (option_map (λ r. key_of r.now) range.entry) entries.now) }
{
    match entries {
        [only] => is_hash(only, hash),
        [first, second] => match range {
            Some(range) => are_both(first, second, hash, range)
                || are_both(second, first, hash, range),
            None => false,
        },
        _ => false,
    }
}

/// Whether the first is on the HASH attribute, and the second on the RANGE attribute.
fn are_both(first: &Entry, second: &Entry, hash: &KeyAttr, range: &KeyAttr) -> bool
    ensures { result ≡ is_some (form.ask_of_parts (spec.entry_hash_value (key_of hash.now) first.now)
        (spec.entry_range_test (key_of range.now) second.now)) }
{
    is_hash(first, hash) && is_range(second, range)
}

fn is_hash(entry: &Entry, key: &KeyAttr) -> bool
    ensures { result ≡ is_some (spec.entry_hash_value (key_of key.now) entry.now) }
{
    entry.name.as_str() == key.name.as_str() && asks_value(&entry.test, key.kind)
}

fn asks_value(test: &Test, kind: KeyKind) -> bool
    ensures { result ≡ is_some (spec.equal_value_of_kind kind test.now) }
{
    match test {
        Test::Compares(Comparison::Equal, value) => has_kind(value, kind),
        _ => false,
    }
}

fn is_range(entry: &Entry, key: &KeyAttr) -> bool
    ensures { result ≡ is_some (spec.entry_range_test (key_of key.now) entry.now) }
{
    entry.name.as_str() == key.name.as_str() && asks_range(&entry.test, key.kind)
}

fn asks_range(test: &Test, kind: KeyKind) -> bool
    ensures { result ≡ is_some (spec.range_test_of_kind kind test.now) }
{
    match test {
        Test::Compares(Comparison::NotEqual, _) => false,
        Test::Compares(_, value) => has_kind(value, kind),
        Test::Between(low, high) => has_kind(low, kind) && has_kind(high, kind),
        Test::Begins(value) => kind != KeyKind::N && has_kind(value, kind),
        _ => false,
    }
}

fn has_kind(value: &Attr, kind: KeyKind) -> bool
    ensures { result ≡ form.has_kind kind value.now }
{
    match (kind, value) {
        (KeyKind::S, Attr::S(_)) => true,
        (KeyKind::N, Attr::N(_)) => true,
        (KeyKind::B, Attr::B(_)) => true,
        _ => false,
    }
}
