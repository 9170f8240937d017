//! What a refused client is told: the status, the name and the message of each refusal.

ghost use Rattle.std.specs.Prelude.{◌≡◌, false, IfOk};
ghost use Rattle.serde_json.specs.View.{members_view};
ghost use Rattle.serde_json.specs.Written.{has_float};
ghost use Rattle.alt_codec.specs.Writing.{json_of_pairs};
ghost use Rattle.alt_shape.specs.Body.{body_json};
ghost use Rattle.alt_shape.specs.Refusals.{IsKnown, exception_type, message_of, answer_of, answered, refused, refused_as, refused_showing_item, refusal_of};

use crate::body::{Body, Member, Part};
use crate::rule::{Broken, ShapeFault};
use alt_base::NoMemory;
use alt_value::Item;
use serde_json::{Map, Value};
use std::alloc::Global;

/// Why a request is refused. Of several that apply a client is told the first, in the order that
/// docs/API.md gives.
#[derive(Clone, Copy, Debug, PartialEq, Eq)]
pub enum Refusal {
    /// UnknownOperationException.
    E1,
    /// SerializationException: the body, or a part of it, has another JSON kind.
    E2,
    /// ResourceNotFoundException: no such table or stream.
    E4,
    /// ResourceInUseException: the table is there already.
    E5,
    /// ConditionalCheckFailedException.
    E6,
    /// LimitExceededException: as many tables are there as may be.
    E7,
    /// TrimmedDataAccessException: the records asked for were trimmed.
    E8,
    /// ValidationException, with the message of that number.
    Invalid(u8),
}

/// The refusals by name, each with its message.
impl Refusal {
    /// "unknown operation".
    pub const UNKNOWN_OPERATION: Refusal = Refusal::E1;

    /// "the body cannot be read".
    pub const UNREADABLE: Refusal = Refusal::E2;

    /// "Requested resource not found".
    pub const NOT_FOUND: Refusal = Refusal::E4;

    /// "table already exists".
    pub const TABLE_EXISTS: Refusal = Refusal::E5;

    /// "The conditional request failed".
    pub const CONDITION_FAILED: Refusal = Refusal::E6;

    /// "too many tables".
    pub const TOO_MANY_TABLES: Refusal = Refusal::E7;

    /// "the change records were trimmed".
    pub const TRIMMED: Refusal = Refusal::E8;

    /// "not built yet".
    pub const NOT_BUILT: Refusal = Refusal::Invalid(0);

    /// "a required member is missing".
    pub const MEMBER_MISSING: Refusal = Refusal::Invalid(1);

    /// "a member is out of its range".
    pub const OUT_OF_RANGE: Refusal = Refusal::Invalid(2);

    /// "members do not go together".
    pub const NOT_TOGETHER: Refusal = Refusal::Invalid(3);

    /// "bad table or index name".
    pub const BAD_NAME: Refusal = Refusal::Invalid(4);

    /// "bad key schema or attribute definitions".
    pub const BAD_KEY_SCHEMA: Refusal = Refusal::Invalid(5);

    /// "bad index".
    pub const BAD_INDEX: Refusal = Refusal::Invalid(6);

    /// "an attribute value needs one known kind".
    pub const NOT_ONE_KIND: Refusal = Refusal::Invalid(7);

    /// "not a number".
    pub const NOT_A_NUMBER: Refusal = Refusal::Invalid(8);

    /// "a number has more than 38 digits".
    pub const TOO_MANY_DIGITS: Refusal = Refusal::Invalid(9);

    /// "a number is too large".
    pub const NUMBER_TOO_LARGE: Refusal = Refusal::Invalid(10);

    /// "a number is too small".
    pub const NUMBER_TOO_SMALL: Refusal = Refusal::Invalid(11);

    /// "bad base64".
    pub const BAD_BASE64: Refusal = Refusal::Invalid(12);

    /// "an empty set".
    pub const EMPTY_SET: Refusal = Refusal::Invalid(13);

    /// "a repeated member in a set".
    pub const REPEAT_IN_SET: Refusal = Refusal::Invalid(14);

    /// "NULL must be true".
    pub const NULL_NOT_TRUE: Refusal = Refusal::Invalid(15);

    /// "nested too deep".
    pub const NESTED_TOO_DEEP: Refusal = Refusal::Invalid(16);

    /// "no such index".
    pub const NO_SUCH_INDEX: Refusal = Refusal::Invalid(17);

    /// "bad expression".
    pub const BAD_EXPRESSION: Refusal = Refusal::Invalid(18);

    /// "undefined name or value".
    pub const UNDEFINED_NAME: Refusal = Refusal::Invalid(19);

    /// "unused name or value".
    pub const UNUSED_NAME: Refusal = Refusal::Invalid(20);

    /// "expression too large".
    pub const EXPRESSION_TOO_LARGE: Refusal = Refusal::Invalid(21);

    /// "overlapping paths or a repeated clause".
    pub const OVERLAPPING_PATHS: Refusal = Refusal::Invalid(22);

    /// "bad key".
    pub const BAD_KEY: Refusal = Refusal::Invalid(23);

    /// "key too long".
    pub const KEY_TOO_LONG: Refusal = Refusal::Invalid(24);

    /// "bad index key".
    pub const BAD_INDEX_KEY: Refusal = Refusal::Invalid(25);

    /// "an update of a key attribute".
    pub const KEY_UPDATE: Refusal = Refusal::Invalid(26);

    /// "bad path or kind in an update".
    pub const BAD_UPDATE: Refusal = Refusal::Invalid(27);

    /// "item too large".
    pub const ITEM_TOO_LARGE: Refusal = Refusal::Invalid(28);

    /// "bad key condition".
    pub const BAD_KEY_CONDITION: Refusal = Refusal::Invalid(29);

    /// "bad start key".
    pub const BAD_START_KEY: Refusal = Refusal::Invalid(30);

    /// "bad batch".
    pub const BAD_BATCH: Refusal = Refusal::Invalid(31);

    /// "bad stream argument".
    pub const BAD_STREAM_ARGUMENT: Refusal = Refusal::Invalid(32);

    /// "bad time to live".
    pub const BAD_TIME_TO_LIVE: Refusal = Refusal::Invalid(33);

    /// "bad index update".
    pub const BAD_INDEX_UPDATE: Refusal = Refusal::Invalid(34);

    /// "bad legacy parameter".
    pub const BAD_LEGACY_PARAMETER: Refusal = Refusal::Invalid(35);
}

impl From<Broken> for Refusal {
    ghost from_gives = { λ broken refusal. refusal ≡ refusal_of broken };

    fn from(broken: Broken) -> Refusal {
        match broken {
            Broken::WrongKind => Refusal::UNREADABLE,
            Broken::Missing => Refusal::MEMBER_MISSING,
            Broken::OutOfRange => Refusal::OUT_OF_RANGE,
        }
    }
}

impl From<ShapeFault> for Refusal {
    ghost from_gives = { λ fault refusal. refusal ≡ refusal_of fault.broken };

    fn from(fault: ShapeFault) -> Refusal {
        Refusal::from(fault.broken)
    }
}

/// What a client is answered: an HTTP status and a JSON object.
#[derive(Drop)]
pub struct Reply {
    pub status: u16,
    pub body: Body,
}

impl Reply {
    /// The answer of an operation that wasn't refused: status 200 and an object of these members.
    pub fn answered(members: Map<String, Value>) -> Reply
        ensures { answer_of result ≡ answered (members_view members.entries) }
    {
        Reply {
            status: 200,
            body: Body::Tree(Value::Object(members)),
        }
    }
}

/// The reply to a request that is refused: status 400, and an object with the refusal's `__type`
/// and its `message`.
pub fn refuse(alloc: Global, r: Refusal) -> Result<Reply, NoMemory>
    requires { IsKnown r }
    ensures told { IfOk result (λ reply. answer_of reply ≡ refused r) }
    ensures no_float { IfOk result (λ reply. has_float (body_json reply.body) ≡ false) }
{
    refused_as(alloc, r, None)
}

/// The reply to a request that is refused, and in it an item, at a member Item.
pub fn refuse_with(alloc: Global, r: Refusal, item: Item) -> Result<Reply, NoMemory>
    requires { IsKnown r }
    ensures told { IfOk result (λ reply. answer_of reply ≡ refused_showing_item (json_of_pairs item) r) }
    ensures no_float { IfOk result (λ reply. has_float (body_json reply.body) ≡ false) }
{
    refused_as(alloc, r, Some(item))
}

#[tactic(auto, using(crate::proofs::Plain::members_plain))]
fn refused_as(alloc: Global, r: Refusal, item: Option<Item>) -> Result<Reply, NoMemory>
    requires { IsKnown r }
    ensures told { IfOk result (λ reply. answer_of reply ≡ refused_as item r) }
    ensures no_float { IfOk result (λ reply. has_float (body_json reply.body) ≡ false) }
{
    let mut members = Vec::with_capacity(alloc, 3)?;
    if let Some(item) = item {
        members.push(Member {
            name: "Item",
            value: Part::Item(item),
        })?;
    }
    members.push(Member {
        name: "__type",
        value: Part::Text(type_text(r)),
    })?;
    members.push(Member {
        name: "message",
        value: Part::Text(message_text(r)),
    })?;
    Ok(Reply {
        status: 400,
        body: Body::Members(members),
    })
}

macro_rules! exception {
    ($name:literal) => {
        concat!("com.amazonaws.dynamodb.v20120810#", $name)
    };
}

fn type_text(r: Refusal) -> &'static str
    ensures { result.now ≡ exception_type r }
{
    match r {
        Refusal::E1 => exception!("UnknownOperationException"),
        Refusal::E2 => exception!("SerializationException"),
        Refusal::E4 => exception!("ResourceNotFoundException"),
        Refusal::E5 => exception!("ResourceInUseException"),
        Refusal::E6 => exception!("ConditionalCheckFailedException"),
        Refusal::E7 => exception!("LimitExceededException"),
        Refusal::E8 => exception!("TrimmedDataAccessException"),
        Refusal::Invalid(_) => exception!("ValidationException"),
    }
}

fn message_text(r: Refusal) -> &'static str
    requires { IsKnown r }
    ensures { result.now ≡ message_of r }
{
    match r {
        Refusal::E1 => "unknown operation",
        Refusal::E2 => "the body cannot be read",
        Refusal::E4 => "Requested resource not found",
        Refusal::E5 => "table already exists",
        Refusal::E6 => "The conditional request failed",
        Refusal::E7 => "too many tables",
        Refusal::E8 => "the change records were trimmed",
        Refusal::Invalid(number) => invalid_text(number),
    }
}

fn invalid_text(number: u8) -> &'static str
    requires { IsKnown (Refusal.Invalid number) }
    ensures { result.now ≡ message_of (Refusal.Invalid number) }
{
    match number {
        0 => "not built yet",
        1 => "a required member is missing",
        2 => "a member is out of its range",
        3 => "members do not go together",
        4 => "bad table or index name",
        5 => "bad key schema or attribute definitions",
        6 => "bad index",
        7 => "an attribute value needs one known kind",
        8 => "not a number",
        9 => "a number has more than 38 digits",
        10 => "a number is too large",
        11 => "a number is too small",
        12 => "bad base64",
        13 => "an empty set",
        14 => "a repeated member in a set",
        15 => "NULL must be true",
        16 => "nested too deep",
        17 => "no such index",
        18 => "bad expression",
        19 => "undefined name or value",
        20 => "unused name or value",
        21 => "expression too large",
        22 => "overlapping paths or a repeated clause",
        23 => "bad key",
        24 => "key too long",
        25 => "bad index key",
        26 => "an update of a key attribute",
        27 => "bad path or kind in an update",
        28 => "item too large",
        29 => "bad key condition",
        30 => "bad start key",
        31 => "bad batch",
        32 => "bad stream argument",
        33 => "bad time to live",
        34 => "bad index update",
        35 => "bad legacy parameter",
        _ => unreachable!(),
    }
}
