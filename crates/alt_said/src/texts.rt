//! What the texts of a body state: its condition on keys, its condition or filter, its update and its projection, each refused for its
//! first fault.

ghost use Rattle.std.specs.Prelude.{◌≡◌, option_map, OnOk};
ghost use Rattle.serde_json.specs.View.{members_view};
ghost use Rattle.alt_expr.specs.Faults.{KeepsNames};
ghost use Rattle.alt_expr.specs.Given.{with_hashes, with_colons};
ghost use Rattle.alt_expr.specs.Lookups.{given_by, names_alone};
ghost use Rattle.alt_expr.specs.NamesGiven.{given_names, used_names, given_values, used_values};
ghost use Rattle.alt_expr.proofs.CondTexts.{condition_of};
ghost use Rattle.alt_expr.proofs.PathsTexts.{paths_of};
ghost use Rattle.alt_expr.proofs.UpdateTexts.{update_of};
ghost use Rattle.alt_machine.specs.Expressions as machine;
ghost use Rattle.alt_said.specs.Steps.{Comes};
ghost use Rattle.alt_said.specs.Words.{texts_of, all_stated, stop_of};

use crate::stop::Stop;
use crate::words::Texts;
use alt_expr::{Cond, ExprFault, Names, Paths, Update, Values};
use alt_machine::Expressions;
use alt_shape::{Refusal, text_at};
use alt_tables::TableFault;
use serde_json::{Map, Value};
use std::alloc::Global;

/// What all texts of a body state. Their words are then noted.
pub(crate) fn all_stated(
    alloc: Global,
    texts: &Texts,
    body: &Map<String, Value>,
    names: &mut Names,
    values: &mut Values,
) -> Result<Expressions, Stop>
    ensures stated { Comes (λ e. e) (all_stated (texts_of texts.now)
        (members_view body.now.entries) (given_by names.old values.old)) result }
    ensures names { OnOk result (used_names names.new ≡ with_hashes
        (machine.words_at (texts_of texts.now) (members_view body.now.entries))
        (used_names names.old)) }
    ensures values { OnOk result (used_values values.new ≡ with_colons
        (machine.words_at (texts_of texts.now) (members_view body.now.entries))
        (used_values values.old)) }
    ensures keeps_names { KeepsNames names.old names.new }
    ensures keeps_values { given_values values.new ≡ given_values values.old }
{
    let keys_text = text_in(texts.key_condition, body);
    let key_condition = condition_stated(alloc, keys_text, names, values)?;
    let condition_text = text_in(texts.condition, body);
    let condition = condition_stated(alloc, condition_text, names, values)?;
    let update_text = text_in(texts.update, body);
    let update = update_stated(alloc, update_text, names, values)?;
    let paths_text = text_in(texts.projection, body);
    let projection = paths_stated(alloc, paths_text, names)?;
    Ok(Expressions {
        key_condition,
        condition,
        update,
        projection,
    })
}

/// The text at a member, where an operation takes one there.
fn text_in<'b>(name: Option<&'static str>, body: &'b Map<String, Value>) -> Option<&'b str>
    ensures text { option_map (λ t. t.now) result
        ≡ machine.text_at (option_map (λ w. w.now) name.entry) (members_view body.now.entries) }
{
    match name {
        Some(name) => text_at(body, name),
        None => None,
    }
}

/// The condition that a text states, where there is one.
fn condition_stated(
    alloc: Global,
    text: Option<&str>,
    names: &mut Names,
    values: &mut Values,
) -> Result<Option<Cond>, Stop>
    ensures stated { Comes (λ c. c) (machine.stated_by_text condition_of
        (given_by names.old values.old) (option_map (λ t. t.now) text.entry)) result }
    ensures names { OnOk result (used_names names.new
        ≡ with_hashes (machine.words_of (option_map (λ t. t.now) text.entry))
        (used_names names.old)) }
    ensures values { OnOk result (used_values values.new
        ≡ with_colons (machine.words_of (option_map (λ t. t.now) text.entry))
        (used_values values.old)) }
    ensures keeps_names { KeepsNames names.old names.new }
    ensures keeps_values { given_values values.new ≡ given_values values.old }
{
    let Some(text) = text else {
        return Ok(None);
    };
    match alt_condparse::parse(alloc, text, names, values) {
        Ok(condition) => Ok(Some(condition)),
        Err(fault) => Err(stop_of(fault)),
    }
}

/// The update that a text states, where there is one.
fn update_stated(
    alloc: Global,
    text: Option<&str>,
    names: &mut Names,
    values: &mut Values,
) -> Result<Option<Update>, Stop>
    ensures stated { Comes (λ u. u) (machine.stated_by_text update_of
        (given_by names.old values.old) (option_map (λ t. t.now) text.entry)) result }
    ensures names { OnOk result (used_names names.new
        ≡ with_hashes (machine.words_of (option_map (λ t. t.now) text.entry))
        (used_names names.old)) }
    ensures values { OnOk result (used_values values.new
        ≡ with_colons (machine.words_of (option_map (λ t. t.now) text.entry))
        (used_values values.old)) }
    ensures keeps_names { KeepsNames names.old names.new }
    ensures keeps_values { given_values values.new ≡ given_values values.old }
{
    let Some(text) = text else {
        return Ok(None);
    };
    match alt_updparse::parse(alloc, text, names, values) {
        Ok(update) => Ok(Some(update)),
        Err(fault) => Err(stop_of(fault)),
    }
}

/// The paths that a text states, where there is one. It has no word for a value.
fn paths_stated(alloc: Global, text: Option<&str>, names: &mut Names) -> Result<Option<Paths>, Stop>
    ensures stated { Comes (λ p. p) (machine.stated_by_text paths_of
        (names_alone (given_names names.old)) (option_map (λ t. t.now) text.entry)) result }
    ensures names { OnOk result (used_names names.new
        ≡ with_hashes (machine.words_of (option_map (λ t. t.now) text.entry))
        (used_names names.old)) }
    ensures keeps_names { KeepsNames names.old names.new }
{
    let Some(text) = text else {
        return Ok(None);
    };
    match alt_projection::parse(alloc, text, names) {
        Ok(paths) => Ok(Some(paths)),
        Err(fault) => Err(stop_of(fault)),
    }
}

/// How a request stops for the fault of a text: it is refused, unless memory was wanting.
fn stop_of(fault: ExprFault) -> Stop
    ensures { result ≡ stop_of fault }
{
    match fault {
        ExprFault::TooLong => Stop::Refused(Refusal::EXPRESSION_TOO_LARGE),
        ExprFault::TooDeep => Stop::Refused(Refusal::EXPRESSION_TOO_LARGE),
        ExprFault::Syntax => Stop::Refused(Refusal::BAD_EXPRESSION),
        ExprFault::Undefined => Stop::Refused(Refusal::UNDEFINED_NAME),
        ExprFault::TooMany => Stop::Refused(Refusal::EXPRESSION_TOO_LARGE),
        ExprFault::RepeatedClause => Stop::Refused(Refusal::OVERLAPPING_PATHS),
        ExprFault::Overlap => Stop::Refused(Refusal::OVERLAPPING_PATHS),
        ExprFault::NoMemory => Stop::Fault(TableFault::NoMemory),
    }
}
