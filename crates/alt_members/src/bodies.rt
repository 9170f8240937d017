//! A body, of which the members are read that its operation heeds.

ghost use Rattle.std.specs.Prelude.{IfOk, option_map};
ghost use Rattle.serde_json.specs.View.{members_view};
ghost use Rattle.alt_machine.specs.Members.{body_of};
ghost use Rattle.alt_members.specs.Heeded.{Suffices};

use crate::heeds::heeded;
use alt_base::NoMemory;
use alt_machine::Operation;
use alt_named::read_named;
use json::Scratch;
use serde_json::{Map, Value};
use std::alloc::Global;

/// The members that the operation heeds, where the body is text in UTF-8 of one JSON object: to the operation they are the whole body.
/// `scratch` is kept from body to body, and changes nothing of what is read.
pub fn read_heeded(
    alloc: Global,
    scratch: &mut Scratch<Global>,
    operation: Operation,
    bytes: &[u8],
) -> Result<Option<Map<String, Value>>, NoMemory>
    ensures suffices { IfOk result (λ o. Suffices operation (body_of bytes.now)
        (option_map (λ m. members_view m.entries) o)) }
{
    read_named(alloc, scratch, heeded(operation), bytes)
}
