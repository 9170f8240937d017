//! Replies of one member.

ghost use Rattle.std.specs.Prelude.{◌≡◌, false, IfOk, IfErr};
ghost use Rattle.serde_json.specs.View.{view};
ghost use Rattle.serde_json.specs.Written.{has_float};
ghost use Rattle.alt_machine.specs.Replies.{answers};
ghost use Rattle.alt_request.specs.Steps.{IsMemory};
ghost use Rattle.alt_shape.specs.Body.{body_json};
ghost use Rattle.alt_shape.specs.Refusals.{answer_of};

use alt_request::{Stop, TableFault, one_member};
use alt_shape::Reply;
use serde_json::Value;
use std::alloc::Global;

/// The reply whose one member is this value, in which no float stands.
pub(crate) fn shown(alloc: Global, member: &str, value: Value) -> Result<Reply, Stop>
    requires { has_float (view value) ≡ false }
    ensures reply { IfOk result (λ reply. answer_of reply ≡ answers member.now (view value)) }
    ensures plain { IfOk result (λ reply. has_float (body_json reply.body) ≡ false) }
    ensures cause { IfErr result IsMemory }
{
    match one_member(alloc, member, value) {
        Ok(reply) => Ok(reply),
        Err(_) => Err(Stop::Fault(TableFault::NoMemory)),
    }
}
