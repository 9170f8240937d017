//! The members of the older interface, which stand in the place of expressions: whether the values of their entries can be read, and what
//! they say.

ghost use Rattle.std.specs.Prelude.{◌≡◌, ◌∷◌, [], Some, IfOk, IfErr, option_map};
ghost use Rattle.serde_json.specs.View.{view, members_view};
ghost use Rattle.alt_legacy.specs.Answered.{IsBad};
ghost use Rattle.alt_legacy.specs.Trees.{condition_in, update_in, paths_in};
ghost use Rattle.alt_machine.specs.Older as machine;
ghost use Rattle.alt_said.specs.Older.{all_older, older_of, stop_of};
ghost use Rattle.alt_said.specs.Steps.{Comes, Tested};

use crate::replies::asks;
use crate::stop::Stop;
use crate::values::value_refusal;
use alt_codec::ValueFault;
use alt_expr::{Cond, Paths, Update};
use alt_legacy::{Form, LegacyFault, expected_of, filter_of, names_of, update_of, values_fit};
use alt_machine::Expressions;
use alt_shape::{Refusal, given};
use alt_tables::TableFault;
use serde_json::{Map, Value};
use std::alloc::Global;

/// The members of an operation that stand in the place of a key condition, of a condition or filter, whose entries have that form, of an
/// update and of a projection, each where it takes one.
#[derive(Clone, Copy)]
pub struct Older {
    pub keys: Option<&'static str>,
    pub condition: Option<&'static str>,
    pub form: Form,
    pub update: Option<&'static str>,
    pub names: Option<&'static str>,
}

impl Older {
    /// A write that may be conditional.
    pub const EXPECTED: Older = Older {
        keys: None,
        condition: Some("Expected"),
        form: Form::Expected,
        update: None,
        names: None,
    };

    /// An update, which may be conditional.
    pub const UPDATES: Older = Older {
        keys: None,
        condition: Some("Expected"),
        form: Form::Expected,
        update: Some("AttributeUpdates"),
        names: None,
    };

    /// A read that may show parts.
    pub const NAMES: Older = Older {
        keys: None,
        condition: None,
        form: Form::Filter,
        update: None,
        names: Some("AttributesToGet"),
    };

    /// A Scan.
    pub const SCAN: Older = Older {
        keys: None,
        condition: Some("ScanFilter"),
        form: Form::Filter,
        update: None,
        names: Some("AttributesToGet"),
    };

    /// A Query.
    pub const QUERY: Older = Older {
        keys: Some("KeyConditions"),
        condition: Some("QueryFilter"),
        form: Form::Filter,
        update: None,
        names: Some("AttributesToGet"),
    };
}

/// Refuses a body for the first value of its entries that can't be read.
#[tactic(auto, using(crate::proofs::OlderSaid::tested_first, crate::proofs::OlderSaid::tested_next, crate::proofs::OlderSaid::tested_rest))]
pub fn entries_read(alloc: Global, older: &Older, body: &Map<String, Value>) -> Result<(), Stop>
    ensures tested { Tested (machine.of_entries (older_of older.now)
        (members_view body.now.entries)) result }
{
    values_read(alloc, value_at(older.keys, body))?;
    values_read(alloc, value_at(older.condition, body))?;
    values_read(alloc, value_at(older.update, body))
}

/// The value of a member, where an operation takes it and it is there.
fn value_at<'b>(name: Option<&'static str>, body: &'b Map<String, Value>) -> Option<&'b Value>
    ensures { option_map (λ v. view v.now) result
        ≡ machine.older_at (option_map (λ w. w.now) name.entry) (members_view body.now.entries) }
{
    match name {
        Some(name) => given(body, name),
        None => None,
    }
}

fn values_read(alloc: Global, entries: Option<&Value>) -> Result<(), Stop>
    ensures tested { Tested (machine.of_values (option_map (λ v. view v.now) entries.entry) ∷ [])
        result }
{
    let Some(entries) = entries else {
        return Ok(());
    };
    match values_fit(alloc, entries) {
        Ok(()) => Ok(()),
        Err(ValueFault::NoMemory) => Err(Stop::Fault(TableFault::NoMemory)),
        Err(fault) => Err(Stop::Refused(value_refusal(fault))),
    }
}

/// What the members say, each in the place of its expression.
pub(crate) fn older_said(
    alloc: Global,
    older: &Older,
    body: &Map<String, Value>,
) -> Result<Expressions, Stop>
    ensures said { Comes (λ e. e) (all_older (older_of older.now) (members_view body.now.entries))
        result }
{
    let any = asks(body, "ConditionalOperator", "OR");
    let key_condition = condition_said(alloc, Form::Filter, value_at(older.keys, body), false)?;
    let condition = condition_said(alloc, older.form, value_at(older.condition, body), any)?;
    let update = update_said(alloc, value_at(older.update, body))?;
    let projection = paths_said(alloc, value_at(older.names, body))?;
    Ok(Expressions {
        key_condition,
        condition,
        update,
        projection,
    })
}

#[tactic(auto, using(crate::proofs::OlderSaid::bad_said, crate::proofs::OlderSaid::told_said))]
fn condition_said(
    alloc: Global,
    form: Form,
    entries: Option<&Value>,
    any: bool,
) -> Result<Option<Cond>, Stop>
    ensures said { Comes (λ c. c) (machine.said_by (condition_in form any)
        (option_map (λ v. view v.now) entries.entry)) result }
{
    let Some(entries) = entries else {
        return Ok(None);
    };
    match condition_of(alloc, form, entries, any) {
        Ok(condition) => Ok(condition),
        Err(fault) => Err(stop_of(fault)),
    }
}

#[tactic(auto, using(crate::proofs::OlderSaid::bad_mapped))]
fn condition_of(
    alloc: Global,
    form: Form,
    entries: &Value,
    any: bool,
) -> Result<Option<Cond>, LegacyFault>
    ensures ok { IfOk result (λ c. condition_in form any (view entries.now) ≡ Some c) }
    ensures err { IfErr result (IsBad (condition_in form any (view entries.now))) }
{
    match form {
        Form::Expected => expected_of(alloc, entries, any),
        Form::Filter => filter_of(alloc, entries, any),
    }
}

/// An update without an action is none.
#[tactic(auto, using(crate::proofs::OlderSaid::bad_said, crate::proofs::OlderSaid::bad_mapped, crate::proofs::OlderSaid::told_said))]
fn update_said(alloc: Global, entries: Option<&Value>) -> Result<Option<Update>, Stop>
    ensures said { Comes (λ u. u)
        (machine.said_by (λ d. option_map machine.some_actions (update_in d))
        (option_map (λ v. view v.now) entries.entry)) result }
{
    let Some(entries) = entries else {
        return Ok(None);
    };
    match update_of(alloc, entries) {
        Ok(update) if update.len() == 0 => Ok(None),
        Ok(update) => Ok(Some(update)),
        Err(fault) => Err(stop_of(fault)),
    }
}

#[tactic(auto, using(crate::proofs::OlderSaid::bad_said, crate::proofs::OlderSaid::bad_mapped, crate::proofs::OlderSaid::told_said))]
fn paths_said(alloc: Global, names: Option<&Value>) -> Result<Option<Paths>, Stop>
    ensures said { Comes (λ p. p) (machine.said_by (λ d. option_map Some (paths_in d))
        (option_map (λ v. view v.now) names.entry)) result }
{
    let Some(names) = names else {
        return Ok(None);
    };
    match names_of(alloc, names) {
        Ok(paths) => Ok(Some(paths)),
        Err(fault) => Err(stop_of(fault)),
    }
}

/// How a request stops for a member: it is refused, unless memory was wanting.
fn stop_of(fault: LegacyFault) -> Stop
    ensures { result ≡ stop_of fault }
{
    match fault {
        LegacyFault::Bad => Stop::Refused(Refusal::BAD_LEGACY_PARAMETER),
        LegacyFault::NotKey => Stop::Refused(Refusal::BAD_KEY_CONDITION),
        LegacyFault::NoMemory => Stop::Fault(TableFault::NoMemory),
    }
}
