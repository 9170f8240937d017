//! The item that a JSON tree is, or the refusal of what isn't one.

ghost use Rattle.std.specs.Prelude.{◌≡◌};
ghost use Rattle.serde_json.specs.View.{view};
ghost use Rattle.alt_codec.specs.Reading.{item_in};
ghost use Rattle.alt_machine.specs.Members.{unless_fault};
ghost use Rattle.alt_machine.specs.Refusals.{value_refusal, number_refusal};
ghost use Rattle.alt_said.specs.Steps.{Comes};
ghost use Rattle.alt_shape.specs.Refusals.{IsKnown};

use crate::stop::Stop;
use alt_codec::{ValueFault, item_of_json};
use alt_decimal::NumberFault;
use alt_shape::Refusal;
use alt_tables::TableFault;
use alt_value::Item;
use serde_json::Value;
use std::alloc::Global;

/// The item that a JSON tree is.
pub fn item_of(alloc: Global, value: &Value) -> Result<Item, Stop>
    ensures read { Comes (λ i. i) (unless_fault (item_in 32 (view value.now))) result }
{
    match item_of_json(alloc, value) {
        Ok(item) => Ok(item),
        Err(ValueFault::NoMemory) => Err(Stop::Fault(TableFault::NoMemory)),
        Err(fault) => Err(Stop::Refused(value_refusal(fault))),
    }
}

/// The refusal of a value for its fault.
pub(crate) fn value_refusal(fault: ValueFault) -> Refusal
    ensures refusal { result ≡ value_refusal fault }
    ensures known { IsKnown result }
{
    match fault {
        ValueFault::NotOneMember => Refusal::NOT_ONE_KIND,
        ValueFault::UnknownKind => Refusal::NOT_ONE_KIND,
        ValueFault::WrongJson => Refusal::UNREADABLE,
        ValueFault::BadNumber(fault) => number_refusal(fault),
        ValueFault::BadBase64 => Refusal::BAD_BASE64,
        ValueFault::EmptySet => Refusal::EMPTY_SET,
        ValueFault::RepeatInSet => Refusal::REPEAT_IN_SET,
        ValueFault::NullNotTrue => Refusal::NULL_NOT_TRUE,
        ValueFault::TooDeep => Refusal::NESTED_TOO_DEEP,
        ValueFault::EmptyName => Refusal::NOT_ONE_KIND,
        ValueFault::NoMemory => Refusal::UNREADABLE,
    }
}

/// The refusal of a number that can't be kept.
pub fn number_refusal(fault: NumberFault) -> Refusal
    ensures refusal { result ≡ number_refusal fault }
    ensures known { IsKnown result }
{
    match fault {
        NumberFault::NotANumber => Refusal::NOT_A_NUMBER,
        NumberFault::TooManyDigits => Refusal::TOO_MANY_DIGITS,
        NumberFault::TooLarge => Refusal::NUMBER_TOO_LARGE,
        NumberFault::TooSmall => Refusal::NUMBER_TOO_SMALL,
    }
}
