//! Entries, read from JSON.

ghost use Rattle.std.specs.Prelude.{◌≡◌, Some, IfOk, IfErr, option_map};
ghost use Rattle.serde_json.specs.View.{view, items_view, members_view};
ghost use Rattle.alt_legacy.specs.Answered.{IsBad};
ghost use Rattle.alt_legacy.specs.Operators as operators;
ghost use Rattle.alt_legacy.specs.Entries as spec;

use crate::entry::{Entry, Test};
use crate::fault::LegacyFault;
use crate::operator::{Operator, operator_of};
use crate::values::{no_value, one_value, some_values, two_values, value_of};
use alt_expr::Comparison;
use alt_shape::{field, given};
use alt_value::Text;
use serde_json::{Map, Value};
use std::alloc::Global;

/// Which form entries have: that of Expected, or that of KeyConditions, QueryFilter and ScanFilter.
#[derive(Clone, Copy, Debug, PartialEq, Eq)]
pub enum Form {
    Expected,
    Filter,
}

/// The entries of an object, by name.
pub(crate) fn entries_of(
    alloc: Global,
    form: Form,
    entries: &Value,
) -> Result<Vec<Entry>, LegacyFault>
    ensures ok { IfOk result (λ es. spec.entries_in form (view entries.now) ≡ Some es.items) }
    ensures err { IfErr result (IsBad (spec.entries_in form (view entries.now))) }
{
    match entries.as_object() {
        Some(members) => each_entry(alloc, form, members),
        None => Err(LegacyFault::Bad),
    }
}

fn each_entry(
    alloc: Global,
    form: Form,
    members: &Map<String, Value>,
) -> Result<Vec<Entry>, LegacyFault>
    ensures ok { IfOk result
        (λ es. spec.each_entry form (members_view members.now.entries) ≡ Some es.items) }
    ensures err { IfErr result
        (IsBad (spec.each_entry form (members_view members.now.entries))) }
{
    let mut found = Vec::new(alloc);
    for (name, v) in members {
        let entry = entry_of(alloc, form, name.as_str(), v)?;
        found.push(entry)?;
    }
    Ok(found)
}

fn entry_of(alloc: Global, form: Form, name: &str, v: &Value) -> Result<Entry, LegacyFault>
    ensures ok { IfOk result (λ e. spec.entry_of form name.now (view v.now) ≡ Some e) }
    ensures err { IfErr result (IsBad (spec.entry_of form name.now (view v.now))) }
{
    if name.is_empty() {
        return Err(LegacyFault::Bad);
    }
    let test = test_in(alloc, form, v)?;
    let name = Text::new(alloc, name)?;
    Ok(Entry { name, test })
}

fn test_in(alloc: Global, form: Form, v: &Value) -> Result<Test, LegacyFault>
    ensures ok { IfOk result (λ t. spec.test_in form (view v.now) ≡ Some t) }
    ensures err { IfErr result (IsBad (spec.test_in form (view v.now))) }
{
    let Some(entry) = v.as_object() else {
        return Err(LegacyFault::Bad);
    };
    match form {
        Form::Expected => expected_test(alloc, entry),
        Form::Filter => operator_test(alloc, entry),
    }
}

/// What an entry of Expected asks: an operator with its values, a value that is there, or that none is.
fn expected_test(alloc: Global, entry: &Map<String, Value>) -> Result<Test, LegacyFault>
    ensures ok { IfOk result
        (λ t. spec.expected_test (members_view entry.now.entries) ≡ Some t) }
    ensures err { IfErr result (IsBad (spec.expected_test (members_view entry.now.entries))) }
{
    let value = given(entry, "Value");
    let exists = field!(entry, "Exists": truth);
    if given(entry, "ComparisonOperator").is_some() {
        if value.is_some() || exists.is_some() {
            return Err(LegacyFault::Bad);
        }
        return operator_test(alloc, entry);
    }
    if given(entry, "AttributeValueList").is_some() {
        return Err(LegacyFault::Bad);
    }
    plain_test(alloc, value, exists)
}

/// Without an operator: a value alone or with Exists true, or Exists false alone.
fn plain_test(
    alloc: Global,
    value: Option<&Value>,
    exists: Option<bool>,
) -> Result<Test, LegacyFault>
    ensures ok { IfOk result
        (λ t. spec.plain_test (option_map (λ v. view v.now) value.entry) exists ≡ Some t) }
    ensures err { IfErr result
        (IsBad (spec.plain_test (option_map (λ v. view v.now) value.entry) exists)) }
{
    match (value, exists) {
        (Some(v), None | Some(true)) => equals(alloc, v),
        (None, Some(false)) => Ok(Test::Missing),
        _ => Err(LegacyFault::Bad),
    }
}

fn equals(alloc: Global, v: &Value) -> Result<Test, LegacyFault>
    ensures ok { IfOk result (λ t. spec.equals (view v.now) ≡ Some t) }
    ensures err { IfErr result (IsBad (spec.equals (view v.now))) }
{
    let value = value_of(alloc, v)?;
    Ok(Test::Compares(Comparison::Equal, value))
}

/// What an operator asks with its values.
fn operator_test(alloc: Global, entry: &Map<String, Value>) -> Result<Test, LegacyFault>
    ensures ok { IfOk result
        (λ t. spec.operator_test (members_view entry.now.entries) ≡ Some t) }
    ensures err { IfErr result (IsBad (spec.operator_test (members_view entry.now.entries))) }
{
    let Some(word) = field!(entry, "ComparisonOperator": text) else {
        return Err(LegacyFault::Bad);
    };
    let Some(operator) = operator_of(word) else {
        return Err(LegacyFault::Bad);
    };
    match field!(entry, "AttributeValueList": array) {
        Some(values) => test_of(alloc, operator, values.as_slice()),
        None => test_of(alloc, operator, &[]),
    }
}

fn test_of(alloc: Global, operator: Operator, values: &[Value]) -> Result<Test, LegacyFault>
    ensures ok { IfOk result
        (λ t. operators.test_of_operator operator (items_view values.now) ≡ Some t) }
    ensures err { IfErr result (IsBad (operators.test_of_operator operator (items_view values.now))) }
{
    match operator {
        Operator::Compares(by) => Ok(Test::Compares(by, one_value(alloc, values)?)),
        Operator::Between => {
            let (low, high) = two_values(alloc, values)?;
            Ok(Test::Between(low, high))
        }
        Operator::In => Ok(Test::Among(some_values(alloc, values)?)),
        Operator::NotNull => {
            no_value(values)?;
            Ok(Test::There)
        }
        Operator::Null => {
            no_value(values)?;
            Ok(Test::Missing)
        }
        Operator::Contains => Ok(Test::Has(one_value(alloc, values)?)),
        Operator::NotContains => Ok(Test::HasNot(one_value(alloc, values)?)),
        Operator::BeginsWith => Ok(Test::Begins(one_value(alloc, values)?)),
    }
}
