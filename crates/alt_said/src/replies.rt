//! Replies without members, of one member and of one item; and whether a body asks for more.

ghost use Rattle.std.specs.Prelude.{◌≡◌, false, IfOk};
ghost use Rattle.serde_json.specs.View.{view, members_view};
ghost use Rattle.serde_json.specs.Written.{has_float};
ghost use Rattle.alt_codec.specs.Writing.{json_of_pairs};
ghost use Rattle.alt_machine.specs.Replies.{done, answers, member_is_word};
ghost use Rattle.alt_shape.specs.Body.{body_json};
ghost use Rattle.alt_shape.specs.Refusals.{answer_of};

use alt_base::NoMemory;
use alt_shape::{Body, Member, Part, Reply, text_at};
use alt_value::Item;
use serde_json::{Map, Value};
use std::alloc::Global;

/// The reply without members.
pub fn done(alloc: Global) -> Reply
    ensures reply { answer_of result ≡ done }
    ensures plain { has_float (body_json result.body) ≡ false }
{
    Reply::answered(Map::new(alloc))
}

/// The reply of one member, in which no float stands.
pub fn one_member(alloc: Global, name: &str, value: Value) -> Result<Reply, NoMemory>
    requires { has_float (view value) ≡ false }
    ensures reply { IfOk result (λ reply. answer_of reply ≡ answers name.now (view value)) }
    ensures plain { IfOk result (λ reply. has_float (body_json reply.body) ≡ false) }
{
    let mut members = Map::new(alloc);
    serde_json::put(&mut members, alloc, name, value)?;
    Ok(Reply::answered(members))
}

/// The reply with an item at a member.
#[tactic(auto, using(alt_shape::proofs::Plain::members_plain))]
pub fn item_member(alloc: Global, name: &'static str, item: Item) -> Result<Reply, NoMemory>
    ensures reply { IfOk result (λ reply. answer_of reply
        ≡ answers name.now (json_of_pairs item)) }
    ensures plain { IfOk result (λ reply. has_float (body_json reply.body) ≡ false) }
{
    let mut members = Vec::with_capacity(alloc, 1)?;
    members.push(Member {
        name,
        value: Part::Item(item),
    })?;
    Ok(Reply {
        status: 200,
        body: Body::Members(members),
    })
}

/// Whether a member of a body is that word.
pub fn asks(body: &Map<String, Value>, name: &str, word: &str) -> bool
    ensures asked { result ≡ member_is_word name.now word.now (members_view body.now.entries) }
{
    match text_at(body, name) {
        Some(text) => text == word,
        None => false,
    }
}
