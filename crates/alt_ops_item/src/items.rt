//! Items as they are answered.

ghost use Rattle.std.specs.Prelude.{◌≡◌, false, Some, IfOk, IfErr, codes, option_map};
ghost use Rattle.serde_json.specs.View.{members_view};
ghost use Rattle.serde_json.specs.Written.{has_float};
ghost use Rattle.alt_expr.specs.Projected.{projected};
ghost use Rattle.alt_machine.specs.Conditional.{asked};
ghost use Rattle.alt_machine.specs.Ops.GetItem.{parts};
ghost use Rattle.alt_machine.specs.Replies.{item_answer};
ghost use Rattle.alt_request.specs.Steps.{IsMemory};
ghost use Rattle.alt_shape.specs.Body.{body_json};
ghost use Rattle.alt_shape.specs.Refusals.{answer_of};

use alt_expr::Paths;
use alt_projection::project;
use alt_request::{Stop, TableFault, asked, done, item_member};
use alt_shape::Reply;
use alt_value::Item;
use serde_json::{Map, Value};
use std::alloc::Global;

/// The reply with an item at a member, if there is one.
fn item_reply(alloc: Global, name: &'static str, item: Option<Item>) -> Result<Reply, Stop>
    ensures reply { IfOk result (λ reply. answer_of reply ≡ item_answer name.now item) }
    ensures plain { IfOk result (λ reply. has_float (body_json reply.body) ≡ false) }
    ensures cause { IfErr result IsMemory }
{
    let Some(item) = item else {
        return Ok(done(alloc));
    };
    match item_member(alloc, name, item) {
        Ok(reply) => Ok(reply),
        Err(_) => Err(Stop::Fault(TableFault::NoMemory)),
    }
}

/// The reply with a copy of an item at a member, if there is one.
pub(crate) fn shown_reply(
    alloc: Global,
    name: &'static str,
    item: Option<&Item>,
) -> Result<Reply, Stop>
    ensures reply { IfOk result (λ reply. answer_of reply
        ≡ item_answer name.now (option_map (λ i. i.now) item.entry)) }
    ensures plain { IfOk result (λ reply. has_float (body_json reply.body) ≡ false) }
    ensures cause { IfErr result IsMemory }
{
    let Some(item) = item else {
        return Ok(done(alloc));
    };
    match item.copy() {
        Ok(item) => item_reply(alloc, name, Some(item)),
        Err(_) => Err(Stop::Fault(TableFault::NoMemory)),
    }
}

/// The reply with what paths choose of an item at a member, if there is one; with all of it where there are no paths.
#[tactic(auto, using(crate::proofs::Getting::all_parts))]
pub(crate) fn parts_reply(
    alloc: Global,
    name: &'static str,
    paths: &Option<Paths>,
    item: Option<Item>,
) -> Result<Reply, Stop>
    ensures reply { IfOk result (λ reply. answer_of reply
        ≡ item_answer name.now (option_map (parts paths.now) item)) }
    ensures plain { IfOk result (λ reply. has_float (body_json reply.body) ≡ false) }
    ensures cause { IfErr result IsMemory }
{
    let Some(paths) = paths else {
        return item_reply(alloc, name, item);
    };
    let Some(item) = item else {
        return Ok(done(alloc));
    };
    chosen_reply(alloc, name, paths, &item)
}

/// The reply with what paths choose of an item.
pub(crate) fn chosen_reply(
    alloc: Global,
    name: &'static str,
    paths: &Paths,
    item: &Item,
) -> Result<Reply, Stop>
    ensures reply { IfOk result (λ reply. answer_of reply
        ≡ item_answer name.now (Some (projected paths.now item.now))) }
    ensures plain { IfOk result (λ reply. has_float (body_json reply.body) ≡ false) }
    ensures cause { IfErr result IsMemory }
{
    let Ok(chosen) = project(alloc, paths, item) else {
        return Err(Stop::Fault(TableFault::NoMemory));
    };
    item_reply(alloc, name, Some(chosen))
}

/// The reply with the item that was there, where a body asks for it.
pub(crate) fn old_reply(
    alloc: Global,
    body: &Map<String, Value>,
    old: &Option<Item>,
) -> Result<Reply, Stop>
    ensures reply { IfOk result (λ reply. answer_of reply ≡ item_answer (codes "Attributes")
        (asked (codes "ReturnValues") (members_view body.now.entries) old.now)) }
    ensures plain { IfOk result (λ reply. has_float (body_json reply.body) ≡ false) }
    ensures cause { IfErr result IsMemory }
{
    shown_reply(alloc, "Attributes", asked(body, "ReturnValues", old))
}
