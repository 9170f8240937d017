//! What a body alone is refused for, and the table that it names.

ghost use Rattle.std.specs.Prelude.{◌≡◌, is_some, map as each};
ghost use Rattle.std.specs.List.{list_any, list_all};
ghost use Rattle.std.specs.FinMap as map;
ghost use Rattle.serde_json.specs.View.{members_view};
ghost use Rattle.alt_machine.specs.Body.{body_refusals, is_mixed, joins_nothing, paired_refusals};
ghost use Rattle.alt_machine.specs.Members.{gives_any, may_name, table_name};
ghost use Rattle.alt_machine.specs.Refusals.{or_refused};
ghost use Rattle.alt_request.specs.Steps.{Comes, Tested, rules_of};
ghost use Rattle.alt_shape.specs.Refusals.{not_found};
ghost use Rattle.alt_shape.specs.Shape.{given};
ghost use Rattle.alt_said.specs.TablesStands.{catalog_of};

use alt_said::{Stop, Tables};
use alt_schema::{TableSchema, is_name};
use alt_shape::{Broken, Refusal, given, text_at};
use serde_json::{Map, Value};

/// What an operation says of its members: those of the older interface, those that are expressions, those whose entries
/// ConditionalOperator joins, and those that name a table or an index.
#[derive(Clone, Copy)]
pub struct Rules {
    pub legacy: &'static [&'static str],
    pub texts: &'static [&'static str],
    pub joined: &'static [&'static str],
    pub named: &'static [&'static str],
}

/// Refuses a body for the fault in its shape, if it has one, and then by the rules of its operation (docs/API.md).
pub fn body_refusal(
    broken: Option<Broken>,
    rules: &Rules,
    body: &Map<String, Value>,
) -> Result<(), Stop>
    ensures tested { Tested (body_refusals broken (rules_of rules.now)
        (members_view body.now.entries)) result }
{
    if let Some(broken) = broken {
        return Err(Stop::Refused(Refusal::from(broken)));
    }
    if is_mixed(rules, body) {
        return Err(Stop::Refused(Refusal::NOT_TOGETHER));
    }
    if !all_name(rules.named, body) {
        return Err(Stop::Refused(Refusal::BAD_NAME));
    }
    Ok(())
}

/// The same for a body some of whose members may not go together: that is refused after its shape, and before the rest.
pub fn paired_refusal(
    broken: Option<Broken>,
    mismatched: bool,
    rules: &Rules,
    body: &Map<String, Value>,
) -> Result<(), Stop>
    ensures tested { Tested (paired_refusals broken mismatched (rules_of rules.now)
        (members_view body.now.entries)) result }
{
    if let Some(broken) = broken {
        return Err(Stop::Refused(Refusal::from(broken)));
    }
    if mismatched {
        return Err(Stop::Refused(Refusal::NOT_TOGETHER));
    }
    body_refusal(None, rules, body)
}

/// The name of the table.
pub fn table_name(body: &Map<String, Value>) -> &str
    ensures name { result.now ≡ table_name (members_view body.now.entries) }
{
    text_at(body, "TableName").unwrap_or("")
}

/// The description of the table that a body names.
pub(crate) fn table_of<'t>(
    tables: &'t Tables,
    body: &Map<String, Value>,
) -> Result<&'t TableSchema, Stop>
    ensures found { Comes (λ d. d.now)
        (or_refused not_found (map.get (catalog_of tables.now)
        (table_name (members_view body.now.entries)))) result }
{
    match tables.table(table_name(body)) {
        Some(schema) => Ok(schema),
        None => Err(Stop::Refused(Refusal::NOT_FOUND)),
    }
}

/// Whether a member of the older interface stands beside an expression, or ConditionalOperator beside nothing that it joins.
fn is_mixed(rules: &Rules, body: &Map<String, Value>) -> bool
    ensures { result ≡ is_mixed (rules_of rules.now) (members_view body.now.entries) }
{
    (gives_any(rules.legacy, body) && gives_any(rules.texts, body))
        || joins_nothing(rules.joined, body)
}

fn joins_nothing(joined: &[&str], body: &Map<String, Value>) -> bool
    ensures { result
        ≡ joins_nothing (each (λ w. w.now) joined.now) (members_view body.now.entries) }
{
    match joined {
        [] => false,
        _ => is_given(body, "ConditionalOperator") && !gives_any(joined, body),
    }
}

/// Whether one of these members is there.
#[tactic(auto, using(crate::proofs::Walks::any_mapped))]
fn gives_any(names: &[&str], body: &Map<String, Value>) -> bool
    ensures { result ≡ gives_any (each (λ w. w.now) names.now) (members_view body.now.entries) }
{
    any_given(names, body)
}

fn any_given(names: &[&str], body: &Map<String, Value>) -> bool
    ensures { result ≡ list_any (λ w. is_some (given w.now (members_view body.now.entries)))
        names.now }
{
    names.iter().any(|name| is_given(body, *name))
}

fn is_given(body: &Map<String, Value>, name: &str) -> bool
    ensures { result ≡ is_some (given name.now (members_view body.now.entries)) }
{
    given(body, name).is_some()
}

/// Whether each of these members that is there is a name.
#[tactic(auto, using(crate::proofs::Walks::all_mapped))]
fn all_name(names: &[&str], body: &Map<String, Value>) -> bool
    ensures { result ≡ list_all (may_name (members_view body.now.entries))
        (each (λ w. w.now) names.now) }
{
    each_may_name(names, body)
}

fn each_may_name(names: &[&str], body: &Map<String, Value>) -> bool
    ensures { result ≡ list_all (λ w. may_name (members_view body.now.entries) w.now) names.now }
{
    names.iter().all(|name| may_name(body, *name))
}

fn may_name(body: &Map<String, Value>, name: &str) -> bool
    ensures { result ≡ may_name (members_view body.now.entries) name.now }
{
    match text_at(body, name) {
        Some(text) => is_name(text),
        None => true,
    }
}
