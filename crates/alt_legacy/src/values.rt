//! The values of an entry.

ghost use Rattle.std.specs.Prelude.{◌≡◌, Some, IfOk, IfErr};
ghost use Rattle.serde_json.specs.View.{view, items_view};
ghost use Rattle.alt_legacy.specs.Answered.{IsBad};
ghost use Rattle.alt_legacy.specs.Values as spec;

use crate::fault::LegacyFault;
use alt_codec::{ValueFault, attr_of_json};
use alt_expr::Items;
use alt_value::Attr;
use serde_json::Value;
use std::alloc::Global;

/// How many values IN may have.
const MOST: usize = 100;

/// The value that a JSON tree stands for.
pub(crate) fn value_of(alloc: Global, v: &Value) -> Result<Attr, LegacyFault>
    ensures ok { IfOk result (λ a. spec.json_value (view v.now) ≡ Some a) }
    ensures err { IfErr result (IsBad (spec.json_value (view v.now))) }
{
    match attr_of_json(alloc, v) {
        Ok(value) => Ok(value),
        Err(ValueFault::NoMemory) => Err(LegacyFault::NoMemory),
        Err(_) => Err(LegacyFault::Bad),
    }
}

/// There is no value.
pub(crate) fn no_value(values: &[Value]) -> Result<(), LegacyFault>
    ensures ok { IfOk result (λ _. spec.no_value (items_view values.now) ≡ Some tt) }
    ensures err { IfErr result (IsBad (spec.no_value (items_view values.now))) }
{
    let [] = values else {
        return Err(LegacyFault::Bad);
    };
    Ok(())
}

/// The one value.
pub(crate) fn one_value(alloc: Global, values: &[Value]) -> Result<Attr, LegacyFault>
    ensures ok { IfOk result (λ a. spec.one_value (items_view values.now) ≡ Some a) }
    ensures err { IfErr result (IsBad (spec.one_value (items_view values.now))) }
{
    let [value] = values else {
        return Err(LegacyFault::Bad);
    };
    value_of(alloc, value)
}

/// The two values.
pub(crate) fn two_values(alloc: Global, values: &[Value]) -> Result<(Attr, Attr), LegacyFault>
    ensures ok { IfOk result (λ p. spec.two_values (items_view values.now) ≡ Some p) }
    ensures err { IfErr result (IsBad (spec.two_values (items_view values.now))) }
{
    let [first, second] = values else {
        return Err(LegacyFault::Bad);
    };
    let first = value_of(alloc, first)?;
    let second = value_of(alloc, second)?;
    Ok((first, second))
}

/// The values of IN.
pub(crate) fn some_values(alloc: Global, values: &[Value]) -> Result<Items<Attr>, LegacyFault>
    ensures ok { IfOk result (λ vs. spec.some_values (items_view values.now) ≡ Some vs) }
    ensures err { IfErr result (IsBad (spec.some_values (items_view values.now))) }
{
    let found = all_values(alloc, values)?;
    if found.len() == 0 || found.len() > MOST {
        return Err(LegacyFault::Bad);
    }
    Ok(found)
}

fn all_values(alloc: Global, values: &[Value]) -> Result<Items<Attr>, LegacyFault>
    ensures ok { IfOk result (λ vs. spec.all_values (items_view values.now) ≡ Some vs) }
    ensures err { IfErr result (IsBad (spec.all_values (items_view values.now))) }
{
    let mut found = Items::new(alloc);
    for v in values {
        let value = value_of(alloc, v)?;
        found.push(value)?;
    }
    Ok(found)
}
