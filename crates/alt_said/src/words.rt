//! The expressions of a body: the names and values that it gives, what its texts say, and that each given word stands in one of them.

ghost use Rattle.std.specs.Prelude.{◌≡◌, [], IfOk};
ghost use Rattle.serde_json.specs.View.{view, members_view};
ghost use Rattle.alt_expr.specs.NamesGiven.{given_names, used_names, is_empty_given, given_values, used_values};
ghost use Rattle.alt_expr.specs.NamesIn.{gives_empty};
ghost use Rattle.alt_machine.specs.Expressions as machine;
ghost use Rattle.alt_said.specs.Steps.{Comes};
ghost use Rattle.alt_said.specs.Words.{AreFreshWords, AreFreshNames, given_of, texts_of, names_or_refusal, names_refusal, has_unused_words};

use crate::key_update::changes_key;
use crate::older::{Older, entries_read, older_said};
use crate::stop::Stop;
use crate::texts::all_stated;
use crate::values::item_of;
use alt_expr::{Names, Values};
use alt_machine::Expressions;
use alt_schema::TableSchema;
use alt_shape::{Refusal, given, object_at};
use alt_value::Item;
use serde_json::{Map, Value};
use std::alloc::Global;

/// The members of an operation that are expressions, each where it takes one, and those that stand in their place. An operation that takes
/// a condition takes values.
#[derive(Clone, Copy)]
pub struct Texts {
    pub key_condition: Option<&'static str>,
    pub condition: Option<&'static str>,
    pub update: Option<&'static str>,
    pub projection: Option<&'static str>,
    pub older: Older,
}

impl Texts {
    /// A write that may be conditional.
    pub const CONDITIONAL: Texts = Texts {
        key_condition: None,
        condition: Some("ConditionExpression"),
        update: None,
        projection: None,
        older: Older::EXPECTED,
    };

    /// An update, which may be conditional.
    pub const UPDATING: Texts = Texts {
        key_condition: None,
        condition: Some("ConditionExpression"),
        update: Some("UpdateExpression"),
        projection: None,
        older: Older::UPDATES,
    };

    /// A read that may show parts.
    pub const PROJECTING: Texts = Texts {
        key_condition: None,
        condition: None,
        update: None,
        projection: Some("ProjectionExpression"),
        older: Older::NAMES,
    };

    /// A Scan, whose condition is a filter.
    pub const SCANNING: Texts = Texts {
        key_condition: None,
        condition: Some("FilterExpression"),
        update: None,
        projection: Some("ProjectionExpression"),
        older: Older::SCAN,
    };

    /// A Query, which has a condition on keys too.
    pub const QUERYING: Texts = Texts {
        key_condition: Some("KeyConditionExpression"),
        condition: Some("FilterExpression"),
        update: None,
        projection: Some("ProjectionExpression"),
        older: Older::QUERY,
    };
}

/// The names and values that a body gives for the words of its expressions.
#[derive(Drop)]
pub struct Given {
    pub names: Names,
    pub values: Values,
}

/// The names and values of a body, none of them used yet.
#[tactic(auto, unfolding(alt_machine::specs::Expressions::given_at))]
pub fn given_at(alloc: Global, texts: &Texts, body: &Map<String, Value>) -> Result<Given, Stop>
    ensures given { Comes given_of (machine.given_at (texts_of texts.now)
        (members_view body.now.entries)) result }
    ensures fresh { IfOk result (AreFreshWords (members_view body.now.entries)) }
{
    let names = names_at(alloc, body)?;
    let values = values_at(alloc, texts, body)?;
    Ok(Given { names, values })
}

/// The names and values of a body, where the values of its entries can be read too.
#[tactic(auto, using(crate::proofs::OlderSaid::unread_first, crate::proofs::OlderSaid::unread_entries, crate::proofs::OlderSaid::read_entries))]
pub fn words_given(alloc: Global, texts: &Texts, body: &Map<String, Value>) -> Result<Given, Stop>
    ensures given { Comes given_of (machine.words_given (texts_of texts.now)
        (members_view body.now.entries)) result }
    ensures fresh { IfOk result (AreFreshWords (members_view body.now.entries)) }
{
    let given = given_at(alloc, texts, body)?;
    match entries_read(alloc, &texts.older, body) {
        Ok(()) => Ok(given),
        Err(stop) => {
            drop(given);
            Err(stop)
        }
    }
}

fn names_at(alloc: Global, body: &Map<String, Value>) -> Result<Names, Stop>
    ensures given { Comes given_names (machine.names_at (members_view body.now.entries)) result }
    ensures fresh { IfOk result (AreFreshNames (members_view body.now.entries)) }
{
    let names = object_at(body, "ExpressionAttributeNames");
    let Some(names) = names else {
        return Ok(Names::of_json(alloc, None)?);
    };
    names_of(alloc, names)
}

fn names_of(alloc: Global, names: &Map<String, Value>) -> Result<Names, Stop>
    ensures given { Comes given_names (names_or_refusal (members_view names.now.entries)) result }
    ensures used { IfOk result (λ n. used_names n ≡ []) }
    ensures empty { IfOk result (λ n. is_empty_given n
        ≡ gives_empty (members_view names.now.entries)) }
{
    match names_refusal(names) {
        Some(refusal) => Err(Stop::Refused(refusal)),
        None => Ok(Names::of_json(alloc, Some(names))?),
    }
}

/// The refusal of the first entry of the names that isn't a text, or has no bytes.
fn names_refusal(names: &Map<String, Value>) -> Option<Refusal>
    ensures { result ≡ names_refusal (members_view names.now.entries) }
{
    for (_, name) in names {
        if let Some(refusal) = name_refusal(name) {
            return Some(refusal);
        }
    }
    None
}

fn name_refusal(name: &Value) -> Option<Refusal>
    ensures { result ≡ machine.name_refusal (view name.now) }
{
    let Some(text) = name.as_str() else {
        return Some(Refusal::UNREADABLE);
    };
    if text.is_empty() {
        return Some(Refusal::NOT_ONE_KIND);
    }
    None
}

fn values_at(alloc: Global, texts: &Texts, body: &Map<String, Value>) -> Result<Values, Stop>
    ensures given { Comes given_values (machine.values_at (texts_of texts.now)
        (members_view body.now.entries)) result }
    ensures fresh { IfOk result (λ values. used_values values ≡ []) }
{
    if texts.condition.is_none() {
        return Ok(Values::of_item(alloc, Item::new(alloc))?);
    }
    let Some(value) = given(body, "ExpressionAttributeValues") else {
        return Ok(Values::of_item(alloc, Item::new(alloc))?);
    };
    let item = item_of(alloc, value)?;
    Ok(Values::of_item(alloc, item)?)
}

/// What the expressions of a body say to a table, or members of the older interface in their place.
#[tactic(auto, using(crate::proofs::OlderSaid::older_unsaid, crate::proofs::OlderSaid::both_said))]
pub fn expressions(
    alloc: Global,
    texts: &Texts,
    schema: &TableSchema,
    body: &Map<String, Value>,
    given: Given,
) -> Result<Expressions, Stop>
    requires fresh { AreFreshWords (members_view body.now.entries) given }
    ensures said { Comes (λ e. e) (machine.expressions (texts_of texts.now) schema.now
        (members_view body.now.entries) (given_of given)) result }
{
    let older = older_said(alloc, &texts.older, body)?;
    if changes_key(schema, &older.update) {
        drop(older);
        return Err(Stop::Refused(Refusal::KEY_UPDATE));
    }
    match texts_say(alloc, texts, schema, body, given) {
        Ok(said) => Ok(in_place(older, said)),
        Err(stop) => {
            drop(older);
            Err(stop)
        }
    }
}

/// What members of the older interface say, and else what texts say.
fn in_place(older: Expressions, said: Expressions) -> Expressions
    ensures { result ≡ machine.in_place older said }
{
    Expressions {
        key_condition: older.key_condition.or(said.key_condition),
        condition: older.condition.or(said.condition),
        update: older.update.or(said.update),
        projection: older.projection.or(said.projection),
    }
}

/// What the texts of a body say to a table: each is refused for its first fault, and then all of them, where the update
/// changes a key attribute, or a name or a value stands in none.
fn texts_say(
    alloc: Global,
    texts: &Texts,
    schema: &TableSchema,
    body: &Map<String, Value>,
    given: Given,
) -> Result<Expressions, Stop>
    requires fresh { AreFreshWords (members_view body.now.entries) given }
    ensures said { Comes (λ e. e) (machine.texts_say (texts_of texts.now) schema.now
        (members_view body.now.entries) (given_of given)) result }
{
    let Given {
        mut names,
        mut values,
    } = given;
    let said = all_stated(alloc, texts, body, &mut names, &mut values)?;
    if changes_key(schema, &said.update) {
        drop(said);
        return Err(Stop::Refused(Refusal::KEY_UPDATE));
    }
    if is_unused(&names, &values) {
        drop(said);
        return Err(Stop::Refused(Refusal::UNUSED_NAME));
    }
    Ok(said)
}

/// Whether a name or a value stands in none of the texts.
fn is_unused(names: &Names, values: &Values) -> bool
    ensures { result ≡ has_unused_words names.now values.now }
{
    names.unused() || values.unused()
}
