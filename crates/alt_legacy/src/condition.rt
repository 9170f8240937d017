//! The conditions of Expected, QueryFilter and ScanFilter.

ghost use Rattle.std.specs.Prelude.{◌≡◌, Some, IfOk, IfErr};
ghost use Rattle.serde_json.specs.View.{view};
ghost use Rattle.alt_legacy.specs.Answered.{IsBad, IsCondition};
ghost use Rattle.alt_legacy.specs.Entries.{entries_in};
ghost use Rattle.alt_legacy.specs.Trees.{condition_in};
ghost use Rattle.alt_legacy.specs.declared.reading.Form.TheVariants as form;

use crate::fault::LegacyFault;
use crate::reading::{Form, entries_of};
use crate::tree::condition_of;
use alt_expr::Cond;
use serde_json::Value;
use std::alloc::Global;

/// The condition of a member Expected; `any` where its entries are joined by OR. None exactly where there are no entries.
pub fn expected_of(alloc: Global, entries: &Value, any: bool) -> Result<Option<Cond>, LegacyFault>
    // It holds of the items that meet the entries, and of no others.
    ensures meets { IfOk result (IsCondition (entries_in form.Expected (view entries.now)) any) }
    ensures tree { IfOk result
        (λ c. condition_in form.Expected any (view entries.now) ≡ Some c) }
    ensures cause { IfErr result (IsBad (entries_in form.Expected (view entries.now))) }
{
    condition(alloc, Form::Expected, entries, any)
}

/// The condition of a member QueryFilter or ScanFilter; `any` where its entries are joined by OR. None exactly where there are no
/// entries.
pub fn filter_of(alloc: Global, entries: &Value, any: bool) -> Result<Option<Cond>, LegacyFault>
    // It holds of the items that meet the entries, and of no others.
    ensures meets { IfOk result (IsCondition (entries_in form.Filter (view entries.now)) any) }
    ensures tree { IfOk result
        (λ c. condition_in form.Filter any (view entries.now) ≡ Some c) }
    ensures cause { IfErr result (IsBad (entries_in form.Filter (view entries.now))) }
{
    condition(alloc, Form::Filter, entries, any)
}

fn condition(
    alloc: Global,
    form: Form,
    entries: &Value,
    any: bool,
) -> Result<Option<Cond>, LegacyFault>
    ensures meets { IfOk result (IsCondition (entries_in form (view entries.now)) any) }
    ensures tree { IfOk result (λ c. condition_in form any (view entries.now) ≡ Some c) }
    ensures cause { IfErr result (IsBad (entries_in form (view entries.now))) }
{
    let entries = entries_of(alloc, form, entries)?;
    match condition_of(alloc, entries, any) {
        Ok(condition) => Ok(condition),
        Err(_) => Err(LegacyFault::NoMemory),
    }
}
