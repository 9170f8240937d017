//! The first fault of the values that entries have.

ghost use Rattle.std.specs.Prelude.{◌≡◌, ◌≢◌, Some, None, OnOk, IfErr};
ghost use Rattle.serde_json.specs.View.{view, items_view, members_view};
ghost use Rattle.alt_legacy.specs.Faults as spec;

use alt_codec::{ValueFault, attr_of_json};
use alt_shape::{field, given};
use serde_json::{Map, Value};
use std::alloc::Global;

/// Whether each value of each entry stands for a value, else the fault of the first that doesn't: entries by name, in each Value
/// before the members of AttributeValueList in list order.
pub fn values_fit(alloc: Global, entries: &Value) -> Result<(), ValueFault>
    ensures ok { OnOk result (spec.entries_fault (view entries.now) ≡ None) }
    ensures cause { IfErr result (λ f. f ≢ ValueFault.NoMemory
        → spec.entries_fault (view entries.now) ≡ Some f) }
{
    match entries.as_object() {
        Some(members) => each_entry_fits(alloc, members),
        None => Ok(()),
    }
}

fn each_entry_fits(alloc: Global, members: &Map<String, Value>) -> Result<(), ValueFault>
    ensures ok { OnOk result (spec.each_fault (members_view members.now.entries) ≡ None) }
    ensures cause { IfErr result (λ f. f ≢ ValueFault.NoMemory
        → spec.each_fault (members_view members.now.entries) ≡ Some f) }
{
    for (_, entry) in members {
        entry_fits(alloc, entry)?;
    }
    Ok(())
}

fn entry_fits(alloc: Global, entry: &Value) -> Result<(), ValueFault>
    ensures ok { OnOk result (spec.entry_fault (view entry.now) ≡ None) }
    ensures cause { IfErr result (λ f. f ≢ ValueFault.NoMemory
        → spec.entry_fault (view entry.now) ≡ Some f) }
{
    match entry.as_object() {
        Some(members) => members_fit(alloc, members),
        None => Ok(()),
    }
}

fn members_fit(alloc: Global, members: &Map<String, Value>) -> Result<(), ValueFault>
    ensures ok { OnOk result (spec.members_fault (members_view members.now.entries) ≡ None) }
    ensures cause { IfErr result (λ f. f ≢ ValueFault.NoMemory
        → spec.members_fault (members_view members.now.entries) ≡ Some f) }
{
    if let Some(value) = given(members, "Value") {
        value_fits(alloc, value)?;
    }
    match field!(members, "AttributeValueList": array) {
        Some(values) => list_fits(alloc, values.as_slice()),
        None => Ok(()),
    }
}

fn list_fits(alloc: Global, values: &[Value]) -> Result<(), ValueFault>
    ensures ok { OnOk result (spec.list_fault (items_view values.now) ≡ None) }
    ensures cause { IfErr result (λ f. f ≢ ValueFault.NoMemory
        → spec.list_fault (items_view values.now) ≡ Some f) }
{
    for value in values {
        value_fits(alloc, value)?;
    }
    Ok(())
}

fn value_fits(alloc: Global, value: &Value) -> Result<(), ValueFault>
    ensures ok { OnOk result (spec.value_fault (view value.now) ≡ None) }
    ensures cause { IfErr result (λ f. f ≢ ValueFault.NoMemory
        → spec.value_fault (view value.now) ≡ Some f) }
{
    match attr_of_json(alloc, value) {
        Ok(_) => Ok(()),
        Err(fault) => Err(fault),
    }
}
