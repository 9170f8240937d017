//! What becomes of a request that writes an item, once it is known what is at its place: where its condition holds of that, what is left
//! there, and the reply.

ghost use Rattle.std.specs.Prelude.{◌≡◌, option_map};
ghost use Rattle.serde_json.specs.View.{members_view};
ghost use Rattle.alt_machine.specs.Conditional as machine;
ghost use Rattle.alt_request.specs.private.Decided.{Decides, decision, tells};
ghost use Rattle.alt_request.specs.ItemWrites.{AreSaid};

use crate::writes::ItemWrite;
use alt_condeval::holds;
use alt_expr::Cond;
use alt_machine::Expressions;
use alt_said::{Stop, TableFault, asks};
use alt_schema::TableSchema;
use alt_shape::{Refusal, Reply, refuse_with};
use alt_value::Item;
use serde_json::{Map, Value};
use std::alloc::Global;

/// A reply without a write; or what is left at the place, and the reply of that.
#[derive(Drop)]
pub(crate) enum Decided {
    Told(Reply),
    Left(Option<Item>, Reply),
}

/// What a request that writes an item leaves of what is at its place in a table, and its reply.
pub(crate) fn decide<W: ItemWrite>(
    alloc: Global,
    write: &W,
    schema: &TableSchema,
    body: &Map<String, Value>,
    said: &Expressions,
    item: Item,
    old: &Option<Item>,
) -> Result<Decided, Stop>
    requires said { AreSaid W.says said.now }
    ensures decides { Decides (decision W.says (members_view body.now.entries) schema.now said.now
        item old.now) result }
{
    if !meets(alloc, &said.condition, old) {
        return failed(
            alloc,
            asked(body, "ReturnValuesOnConditionCheckFailure", old),
        );
    }
    let new = match write.left(alloc, schema, said, item, old) {
        Ok(new) => new,
        Err(stop) => return Err(stop),
    };
    match write.reply(alloc, body, said, old, &new) {
        Ok(reply) => Ok(Decided::Left(new, reply)),
        Err(stop) => {
            drop(new);
            Err(stop)
        }
    }
}

/// Whether the condition holds of the item that is there; one that isn't there has no attributes.
fn meets(alloc: Global, condition: &Option<Cond>, old: &Option<Item>) -> bool
    ensures meets { result ≡ machine.meets_condition condition.now old.now }
{
    let Some(condition) = condition else {
        return true;
    };
    match old {
        Some(item) => holds(condition, item),
        None => holds(condition, &Item::new(alloc)),
    }
}

/// The item that was there, where a member asks for it.
pub fn asked<'i>(body: &Map<String, Value>, name: &str, old: &'i Option<Item>) -> Option<&'i Item>
    ensures asked { option_map (λ i. i.now) result
        ≡ machine.asked name.now (members_view body.now.entries) old.now }
{
    if asks(body, name, "ALL_OLD") {
        shown(old)
    } else {
        None
    }
}

/// An item, if there is one, borrowed.
fn shown(item: &Option<Item>) -> Option<&Item>
    ensures { option_map (λ i. i.now) result ≡ item.now }
{
    match item {
        Some(item) => Some(item),
        None => None,
    }
}

/// The refusal of a request whose condition doesn't hold, and in it the item, if there is one to show.
fn failed(alloc: Global, item: Option<&Item>) -> Result<Decided, Stop>
    ensures decides { Decides (tells (machine.failed (option_map (λ i. i.now) item.entry))) result }
{
    let Some(item) = item else {
        return Err(Stop::Refused(Refusal::CONDITION_FAILED));
    };
    let Ok(item) = item.copy() else {
        return Err(Stop::Fault(TableFault::NoMemory));
    };
    match refuse_with(alloc, Refusal::CONDITION_FAILED, item) {
        Ok(reply) => Ok(Decided::Told(reply)),
        Err(_) => Err(Stop::Fault(TableFault::NoMemory)),
    }
}
