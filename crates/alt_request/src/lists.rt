//! What an operation on a list of items goes on with: the table that its body names, the index of it, if one is named, the key to start
//! after, and what its expressions say.

ghost use Rattle.std.specs.Prelude.{◌<◌, IfOk, IfSome};
ghost use Rattle.serde_json.specs.View.{members_view};
ghost use Rattle.alt_machine.specs.Body.{paired_refusals};
ghost use Rattle.alt_machine.specs.Lists as machine;
ghost use Rattle.alt_machine.specs.Lists.{start_at};
ghost use Rattle.alt_request.specs.Steps.{Comes, rules_of};
ghost use Rattle.alt_request.specs.Targets.{OnList};
ghost use Rattle.alt_said.specs.Words.{texts_of};
ghost use Rattle.alt_said.specs.TablesStands.{catalog_of};
ghost use Rattle.alt_views.specs.Readable.{CanRead};

use crate::body::{Rules, paired_refusal, table_of};
use crate::indexed::index_asked;
use alt_machine::Expressions;
use alt_said::{Stop, Tables, Texts, entries_read, expressions, given_at, item_of};
use alt_schema::TableSchema;
use alt_shape::{Broken, given};
use alt_value::Item;
use serde_json::{Map, Value};
use std::alloc::Global;

/// The description of the table, the number of the index, if one is named, the key to start after, if one is given, and what the
/// request's expressions say.
#[derive(Drop)]
pub struct ListTarget<'t> {
    pub schema: &'t TableSchema,
    pub index: Option<usize>,
    pub start: Option<Item>,
    pub said: Expressions,
}

/// The table that a body names, the index of it that is named, the key to start after, and what the body's expressions say, where nothing
/// refuses them.
pub fn list_target<'t>(
    alloc: Global,
    tables: &'t Tables,
    body: &Map<String, Value>,
    broken: Option<Broken>,
    mismatched: bool,
    rules: &Rules,
    texts: &Texts,
) -> Result<ListTarget<'t>, Stop>
    ensures target { OnList (paired_refusals broken mismatched (rules_of rules.now)
        (members_view body.now.entries)) (texts_of texts.now) (catalog_of tables.now)
        (members_view body.now.entries) result }
    ensures index { IfOk result (λ target. IfSome target.index
        (λ number. CanRead target.schema.now number)) }
{
    paired_refusal(broken, mismatched, rules, body)?;
    let given = given_at(alloc, texts, body)?;
    let start = start_given(alloc, texts, body)?;
    let schema = table_of(tables, body)?;
    let index = index_asked(schema, body)?;
    let said = expressions(alloc, texts, schema, body, given)?;
    Ok(ListTarget {
        schema,
        index,
        start,
        said,
    })
}

/// The key to start after, if one is given, where the values of the body's entries can be read too.
#[tactic(auto, using(alt_said::proofs::OlderSaid::unread_first, alt_said::proofs::OlderSaid::unread_entries, alt_said::proofs::OlderSaid::read_entries))]
fn start_given(
    alloc: Global,
    texts: &Texts,
    body: &Map<String, Value>,
) -> Result<Option<Item>, Stop>
    ensures read { Comes (λ key. key)
        (machine.start_given (texts_of texts.now) (members_view body.now.entries)) result }
{
    let start = start_at(alloc, body)?;
    match entries_read(alloc, &texts.older, body) {
        Ok(()) => Ok(start),
        Err(stop) => {
            drop(start);
            Err(stop)
        }
    }
}

/// The key to start after, if one is given.
fn start_at(alloc: Global, body: &Map<String, Value>) -> Result<Option<Item>, Stop>
    ensures read { Comes (λ key. key) (start_at (members_view body.now.entries)) result }
{
    let Some(value) = given(body, "ExclusiveStartKey") else {
        return Ok(None);
    };
    match item_of(alloc, value) {
        Ok(key) => Ok(Some(key)),
        Err(stop) => Err(stop),
    }
}
