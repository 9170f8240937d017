//! Replies with one table's description.

ghost use Rattle.std.specs.Prelude.{◌≡◌, false, IfOk, IfErr};
ghost use Rattle.serde_json.specs.Written.{has_float};
ghost use Rattle.alt_machine.specs.Replies.{answers};
ghost use Rattle.alt_request.specs.Steps.{IsMemory};
ghost use Rattle.alt_schema.specs.Json.{description_json};
ghost use Rattle.alt_shape.specs.Body.{body_json};
ghost use Rattle.alt_shape.specs.Refusals.{answer_of};

use alt_request::{Stop, TableFault, one_member};
use alt_schema::{TableSchema, json_of_schema};
use alt_shape::Reply;
use std::alloc::Global;

/// The reply whose one member is the description with that status.
pub fn described(
    alloc: Global,
    member: &str,
    schema: &TableSchema,
    status: &str,
) -> Result<Reply, Stop>
    ensures reply { IfOk result (λ reply. answer_of reply
        ≡ answers member.now (description_json schema.now status.now)) }
    ensures plain { IfOk result (λ reply. has_float (body_json reply.body) ≡ false) }
    ensures cause { IfErr result IsMemory }
{
    let Ok(description) = json_of_schema(alloc, schema, status) else {
        return Err(Stop::Fault(TableFault::NoMemory));
    };
    match one_member(alloc, member, description) {
        Ok(reply) => Ok(reply),
        Err(_) => Err(Stop::Fault(TableFault::NoMemory)),
    }
}
