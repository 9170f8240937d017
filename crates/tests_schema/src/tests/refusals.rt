//! The replies to refused requests, text by text.

ghost use Rattle.std.specs.Bool.{OnTrue};
ghost use Rattle.alt_shape.specs.Refusals.{IsKnown};

use alt_shape::{Refusal, refuse};
use std::alloc::{AllocError, Global};
use std::test::Fail;

/// A refusal, with the name of its exception and its message.
struct Row {
    refusal: Refusal,
    name: &'static str,
    message: &'static str,
}

macro_rules! row {
    ($refusal:ident, $name:literal, $message:literal) => {
        Row { refusal: Refusal::$refusal, name: $name, message: $message }
    };
}

macro_rules! invalid {
    ($refusal:ident, $message:literal) => {
        row!($refusal, "ValidationException", $message)
    };
}

static ROWS: [Row; 43] = [
    row!(
        UNKNOWN_OPERATION,
        "UnknownOperationException",
        "unknown operation"
    ),
    row!(
        UNREADABLE,
        "SerializationException",
        "the body cannot be read"
    ),
    row!(
        NOT_FOUND,
        "ResourceNotFoundException",
        "Requested resource not found"
    ),
    row!(
        TABLE_EXISTS,
        "ResourceInUseException",
        "table already exists"
    ),
    row!(
        CONDITION_FAILED,
        "ConditionalCheckFailedException",
        "The conditional request failed"
    ),
    row!(TOO_MANY_TABLES, "LimitExceededException", "too many tables"),
    row!(
        TRIMMED,
        "TrimmedDataAccessException",
        "the change records were trimmed"
    ),
    invalid!(NOT_BUILT, "not built yet"),
    invalid!(MEMBER_MISSING, "a required member is missing"),
    invalid!(OUT_OF_RANGE, "a member is out of its range"),
    invalid!(NOT_TOGETHER, "members do not go together"),
    invalid!(BAD_NAME, "bad table or index name"),
    invalid!(BAD_KEY_SCHEMA, "bad key schema or attribute definitions"),
    invalid!(BAD_INDEX, "bad index"),
    invalid!(NOT_ONE_KIND, "an attribute value needs one known kind"),
    invalid!(NOT_A_NUMBER, "not a number"),
    invalid!(TOO_MANY_DIGITS, "a number has more than 38 digits"),
    invalid!(NUMBER_TOO_LARGE, "a number is too large"),
    invalid!(NUMBER_TOO_SMALL, "a number is too small"),
    invalid!(BAD_BASE64, "bad base64"),
    invalid!(EMPTY_SET, "an empty set"),
    invalid!(REPEAT_IN_SET, "a repeated member in a set"),
    invalid!(NULL_NOT_TRUE, "NULL must be true"),
    invalid!(NESTED_TOO_DEEP, "nested too deep"),
    invalid!(NO_SUCH_INDEX, "no such index"),
    invalid!(BAD_EXPRESSION, "bad expression"),
    invalid!(UNDEFINED_NAME, "undefined name or value"),
    invalid!(UNUSED_NAME, "unused name or value"),
    invalid!(EXPRESSION_TOO_LARGE, "expression too large"),
    invalid!(OVERLAPPING_PATHS, "overlapping paths or a repeated clause"),
    invalid!(BAD_KEY, "bad key"),
    invalid!(KEY_TOO_LONG, "key too long"),
    invalid!(BAD_INDEX_KEY, "bad index key"),
    invalid!(KEY_UPDATE, "an update of a key attribute"),
    invalid!(BAD_UPDATE, "bad path or kind in an update"),
    invalid!(ITEM_TOO_LARGE, "item too large"),
    invalid!(BAD_KEY_CONDITION, "bad key condition"),
    invalid!(BAD_START_KEY, "bad start key"),
    invalid!(BAD_BATCH, "bad batch"),
    invalid!(BAD_STREAM_ARGUMENT, "bad stream argument"),
    invalid!(BAD_TIME_TO_LIVE, "bad time to live"),
    invalid!(BAD_INDEX_UPDATE, "bad index update"),
    invalid!(BAD_LEGACY_PARAMETER, "bad legacy parameter"),
];

fn is_known(refusal: Refusal) -> bool
    ensures { OnTrue result (IsKnown refusal) }
{
    match refusal {
        Refusal::Invalid(number) => number <= 35,
        _ => true,
    }
}

/// The text of the reply to a refused request, if its status is 400.
fn told(alloc: Global, refusal: Refusal) -> Option<String>
    requires { IsKnown refusal }
{
    let Ok(reply) = refuse(alloc, refusal) else {
        return None;
    };
    let Ok(text) = reply.body.to_string(alloc) else {
        return None;
    };
    if reply.status == 400 {
        Some(text)
    } else {
        None
    }
}

fn wanted(alloc: Global, row: &Row) -> Result<String, AllocError> {
    format!(in alloc;
        "{{\"__type\":\"com.amazonaws.dynamodb.v20120810#{}\",\"message\":\"{}\"}}",
        row.name, row.message
    )
}

/// Whether a refusal is told as its row says.
fn holds(alloc: Global, row: &Row) -> bool {
    if !is_known(row.refusal) {
        return false;
    }
    let Some(text) = told(alloc, row.refusal) else {
        return false;
    };
    let Ok(wanted) = wanted(alloc, row) else {
        return false;
    };
    text == wanted
}

#[test]
fn refusals_have_their_name_and_message(rt: HostRuntime) -> Result<(), Fail> {
    for row in &ROWS {
        assert!(rt; holds(rt.alloc(), row), "{}", row.message);
    }
    Ok(())
}
