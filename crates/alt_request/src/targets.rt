//! What an operation goes on with: the table that its body names, or an item or a key and its place there.

ghost use Rattle.serde_json.specs.View.{members_view};
ghost use Rattle.alt_machine.specs.Body.{body_refusals};
ghost use Rattle.alt_request.specs.Steps.{Comes, rules_of};
ghost use Rattle.alt_request.specs.Targets.{OnTable, OnItem, OnItemRead, OnItemGiven, given_item, place_that_fits};
ghost use Rattle.alt_said.specs.Words.{texts_of};
ghost use Rattle.alt_said.specs.TablesStands.{catalog_of};

use crate::body::{Rules, body_refusal, table_of};
use crate::items::{item_at, key_fits, place_in};
use alt_fields::Bytes;
use alt_machine::{Expressions, Sought};
use alt_said::{Stop, Tables, Texts, expressions, words_given};
use alt_schema::TableSchema;
use alt_shape::{Broken, Refusal};
use alt_value::Item;
use serde_json::{Map, Value};
use std::alloc::Global;

/// An item or a key, the description of its table, its place there, and what the request's expressions say.
#[derive(Drop)]
pub struct Target<'t> {
    pub schema: &'t TableSchema,
    pub item: Item,
    pub place: Bytes,
    pub said: Expressions,
}

/// The table that a body names, where nothing refuses the body.
pub fn table_target<'t>(
    tables: &'t Tables,
    body: &Map<String, Value>,
    broken: Option<Broken>,
    rules: &Rules,
) -> Result<&'t TableSchema, Stop>
    ensures target { OnTable (body_refusals broken (rules_of rules.now)
        (members_view body.now.entries))
        (catalog_of tables.now) (members_view body.now.entries) result }
{
    body_refusal(broken, rules, body)?;
    table_of(tables, body)
}

/// The item or the key in a body, its place in the table that the body names, and what the body's expressions say, where nothing
/// refuses them.
pub fn item_target<'t>(
    alloc: Global,
    tables: &'t Tables,
    body: &Map<String, Value>,
    broken: Option<Broken>,
    rules: &Rules,
    sought: Sought,
    texts: &Texts,
) -> Result<Target<'t>, Stop>
    ensures target { OnItem (body_refusals broken (rules_of rules.now)
        (members_view body.now.entries)) sought (texts_of texts.now)
        (catalog_of tables.now) (members_view body.now.entries) result }
{
    given_target(alloc, tables, body, broken, rules, sought, texts, None)
}

/// The same of each body that says what is at hand: this body, and its item or key, where that was read already.
pub(crate) fn given_target<'t>(
    alloc: Global,
    tables: &'t Tables,
    body: &Map<String, Value>,
    broken: Option<Broken>,
    rules: &Rules,
    sought: Sought,
    texts: &Texts,
    ahead: Option<Item>,
) -> Result<Target<'t>, Stop>
    ensures target { OnItemGiven (body_refusals broken (rules_of rules.now)
        (members_view body.now.entries)) sought (texts_of texts.now)
        (catalog_of tables.now) (members_view body.now.entries) ahead result }
{
    match body_refusal(broken, rules, body) {
        Ok(()) => {}
        Err(stop) => return Err(stop),
    }
    match given_item(alloc, body, sought, ahead) {
        Ok(item) => target_of_item(alloc, tables, body, sought, texts, item),
        Err(stop) => Err(stop),
    }
}

/// The item or the key of a body, where it wasn't read already.
fn given_item(
    alloc: Global,
    body: &Map<String, Value>,
    sought: Sought,
    ahead: Option<Item>,
) -> Result<Item, Stop>
    ensures read { Comes (λ i. i) (given_item sought (members_view body.now.entries) ahead) result }
{
    match ahead {
        Some(item) => Ok(item),
        None => item_at(alloc, body, sought),
    }
}

/// What is behind an item or a key that was read.
fn target_of_item<'t>(
    alloc: Global,
    tables: &'t Tables,
    body: &Map<String, Value>,
    sought: Sought,
    texts: &Texts,
    item: Item,
) -> Result<Target<'t>, Stop>
    ensures target { OnItemRead sought (texts_of texts.now) (catalog_of tables.now)
        (members_view body.now.entries) item result }
{
    let given = words_given(alloc, texts, body)?;
    let schema = table_of(tables, body)?;
    let said = expressions(alloc, texts, schema, body, given)?;
    match fitting_place(alloc, sought, schema, &item) {
        Ok(place) => Ok(Target {
            schema,
            item,
            place,
            said,
        }),
        Err(stop) => {
            drop(said);
            Err(stop)
        }
    }
}

/// The place of an item or a key, where it has one and its key isn't too long.
pub fn fitting_place(
    alloc: Global,
    sought: Sought,
    schema: &TableSchema,
    item: &Item,
) -> Result<Bytes, Stop>
    ensures place { Comes (λ b. b) (place_that_fits sought schema.now item.now) result }
{
    let place = place_in(alloc, sought, schema, item)?;
    if !key_fits(schema, item) {
        return Err(Stop::Refused(Refusal::KEY_TOO_LONG));
    }
    Ok(place)
}
