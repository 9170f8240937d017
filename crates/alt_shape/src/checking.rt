//! The first broken rule of a table, by one pass over its rules.

ghost use Rattle.std.specs.Prelude.{◌≡◌, OnOk, IfErr, option_map, if◌then◌else◌, map, pos};
ghost use Rattle.std.specs.List.{list_any};
ghost use Rattle.std.specs.Str.{bytes_eq};
ghost use Rattle.serde_json.specs.Find.{get_member};
ghost use Rattle.serde_json.specs.View.{view, members_view};
ghost use Rattle.alt_shape.specs.Shape.{a_whole, a_word, demand_of, form_of_kind, given, lies_within, is_among, misfit_of, broken_by, KeepsAll, IsFirstBrokenRule, first_unmet};

use crate::rule::{Broken, Kind, Rule, ShapeFault};
use serde_json::{Map, Value};

/// Whether an object keeps every rule of a table, and else the first that it breaks.
pub fn check(rules: &[Rule], body: &Map<String, Value>) -> Result<(), ShapeFault>
    ensures ok { OnOk result (KeepsAll rules.now (members_view body.now.entries)) }
    ensures first { IfErr result (IsFirstBrokenRule rules.now (members_view body.now.entries)) }
{
    for (place, rule) in rules.iter().enumerate() {
        if let Some(broken) = rule.broken_by(body) {
            return Err(ShapeFault {
                rule: place,
                broken,
            });
        }
    }
    Ok(())
}

/// How an object breaks the first rule of a table that it breaks.
pub(crate) fn first_broken(rules: &[Rule], body: &Map<String, Value>) -> Option<Broken>
    ensures { result ≡ first_unmet (map demand_of rules.now) (members_view body.now.entries) }
{
    match check(rules, body) {
        Ok(()) => None,
        Err(fault) => Some(fault.broken),
    }
}

impl Rule {
    fn broken_by(&self, body: &Map<String, Value>) -> Option<Broken>
        ensures { result ≡ broken_by (members_view body.now.entries) self.now }
    {
        match given(body, self.name) {
            Some(value) => self.kind.misfit(value),
            None if self.must => Some(Broken::Missing),
            None => None,
        }
    }
}

/// The value of the member of that name; none where the member is absent. One whose value is `null` counts as absent.
pub fn given<'v>(body: &'v Map<String, Value>, name: &str) -> Option<&'v Value>
    ensures { option_map (λ v. view v.now) result
        ≡ given name.now (members_view body.now.entries) }
{
    let value = member(body, name)?;
    if value.is_null() { None } else { Some(value) }
}

fn member<'v>(body: &'v Map<String, Value>, name: &str) -> Option<&'v Value>
    ensures { option_map (λ v. view v.now) result
        ≡ get_member name.now (members_view body.now.entries) }
{
    body.get(name)
}

impl Kind {
    fn misfit(&self, value: &Value) -> Option<Broken>
        ensures { result ≡ misfit_of (form_of_kind self.now) (view value.now) }
    {
        match *self {
            Kind::Text => unless(value.is_string()),
            Kind::Whole { least, most } => whole_misfit(value, least, most),
            Kind::Truth => unless(value.is_boolean()),
            Kind::Object => unless(value.is_object()),
            Kind::Array => unless(value.is_array()),
            Kind::Word(words) => word_misfit(value, words),
        }
    }
}

fn unless(fits: bool) -> Option<Broken>
    ensures { result ≡ (if fits then None else Some Broken.WrongKind) }
{
    if fits { None } else { Some(Broken::WrongKind) }
}

fn whole_misfit(value: &Value, least: u64, most: u64) -> Option<Broken>
    ensures { result ≡ misfit_of (a_whole least most) (view value.now) }
{
    if let Some(n) = value.as_u64() {
        within(n, least, most)
    } else if value.is_i64() {
        Some(Broken::OutOfRange)
    } else {
        Some(Broken::WrongKind)
    }
}

fn within(n: u64, least: u64, most: u64) -> Option<Broken>
    ensures { result ≡ (if lies_within least most (pos n) then None else Some Broken.OutOfRange) }
{
    if least <= n && n <= most {
        None
    } else {
        Some(Broken::OutOfRange)
    }
}

fn word_misfit(value: &Value, words: &[&str]) -> Option<Broken>
    ensures { result ≡ misfit_of (a_word (map (λ w. w.now) words.now)) (view value.now) }
{
    match value.as_str() {
        Some(text) if is_among(text, words) => None,
        Some(_) => Some(Broken::OutOfRange),
        None => Some(Broken::WrongKind),
    }
}

#[tactic(auto, using(crate::proofs::Places::is_among_map))]
fn is_among(text: &str, words: &[&str]) -> bool
    ensures { result ≡ is_among (map (λ w. w.now) words.now) text.now }
{
    any_equals(words, text)
}

fn any_equals(words: &[&str], text: &str) -> bool
    ensures { result ≡ list_any (λ w. bytes_eq w.now text.now) words.now }
{
    words.iter().any(|word| *word == text)
}
