//! What an update answers.

ghost use Rattle.std.specs.Prelude.{◌≡◌, false, [], Some, IfOk, IfErr, codes, unwrap_or};
ghost use Rattle.serde_json.specs.View.{members_view};
ghost use Rattle.serde_json.specs.Written.{has_float};
ghost use Rattle.alt_machine.specs.Ops.UpdateItem.{changed_parts, not_empty, returned};
ghost use Rattle.alt_machine.specs.Replies.{item_answer};
ghost use Rattle.alt_request.specs.Steps.{IsMemory};
ghost use Rattle.alt_shape.specs.Body.{body_json};
ghost use Rattle.alt_shape.specs.Refusals.{answer_of};

use crate::items::shown_reply;
use alt_expr::{Items, Update};
use alt_projection::project;
use alt_request::{Stop, TableFault, asks, done};
use alt_shape::Reply;
use alt_updparse::targets;
use alt_value::Item;
use serde_json::{Map, Value};
use std::alloc::Global;

/// The reply with the item before or after, or with what is changed of it, as a body asks for it.
pub(crate) fn update_reply(
    alloc: Global,
    body: &Map<String, Value>,
    update: &Option<Update>,
    old: &Option<Item>,
    new: &Option<Item>,
) -> Result<Reply, Stop>
    ensures reply { IfOk result (λ reply. answer_of reply ≡ item_answer (codes "Attributes")
        (not_empty (returned (members_view body.now.entries) (unwrap_or update.now []) old.now
        new.now))) }
    ensures plain { IfOk result (λ reply. has_float (body_json reply.body) ≡ false) }
    ensures cause { IfErr result IsMemory }
{
    if asks(body, "ReturnValues", "ALL_OLD") {
        return whole_reply(alloc, old);
    }
    if asks(body, "ReturnValues", "ALL_NEW") {
        return whole_reply(alloc, new);
    }
    if asks(body, "ReturnValues", "UPDATED_OLD") {
        return changed_reply(alloc, update, old);
    }
    if asks(body, "ReturnValues", "UPDATED_NEW") {
        return changed_reply(alloc, update, new);
    }
    Ok(done(alloc))
}

fn whole_reply(alloc: Global, item: &Option<Item>) -> Result<Reply, Stop>
    ensures reply { IfOk result (λ reply. answer_of reply
        ≡ item_answer (codes "Attributes") (not_empty item.now)) }
    ensures plain { IfOk result (λ reply. has_float (body_json reply.body) ≡ false) }
    ensures cause { IfErr result IsMemory }
{
    match item {
        Some(item) => attributes_reply(alloc, item),
        None => Ok(done(alloc)),
    }
}

/// The reply with what an update changes of an item. Without an update it changes nothing.
fn changed_reply(alloc: Global, update: &Option<Update>, item: &Option<Item>) -> Result<Reply, Stop>
    ensures reply { IfOk result (λ reply. answer_of reply ≡ item_answer (codes "Attributes")
        (not_empty (changed_parts (unwrap_or update.now []) item.now))) }
    ensures plain { IfOk result (λ reply. has_float (body_json reply.body) ≡ false) }
    ensures cause { IfErr result IsMemory }
{
    let Some(item) = item else {
        return Ok(done(alloc));
    };
    match update {
        Some(update) => parts_reply(alloc, update, item),
        None => parts_reply(alloc, &Items::new(alloc), item),
    }
}

fn parts_reply(alloc: Global, update: &Update, item: &Item) -> Result<Reply, Stop>
    ensures reply { IfOk result (λ reply. answer_of reply ≡ item_answer (codes "Attributes")
        (not_empty (changed_parts update.now (Some item.now)))) }
    ensures plain { IfOk result (λ reply. has_float (body_json reply.body) ≡ false) }
    ensures cause { IfErr result IsMemory }
{
    let Ok(paths) = targets(alloc, update.as_slice()) else {
        return Err(Stop::Fault(TableFault::NoMemory));
    };
    let Ok(parts) = project(alloc, &paths, item) else {
        return Err(Stop::Fault(TableFault::NoMemory));
    };
    attributes_reply(alloc, &parts)
}

/// The reply with attributes, if there are any.
fn attributes_reply(alloc: Global, item: &Item) -> Result<Reply, Stop>
    ensures reply { IfOk result (λ reply. answer_of reply
        ≡ item_answer (codes "Attributes") (not_empty (Some item.now))) }
    ensures plain { IfOk result (λ reply. has_float (body_json reply.body) ≡ false) }
    ensures cause { IfErr result IsMemory }
{
    if item.len() == 0 {
        return Ok(done(alloc));
    }
    shown_reply(alloc, "Attributes", Some(item))
}
