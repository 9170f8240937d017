//! The lines of the generated requests.

ghost use Rattle.std.specs.Prelude.{◌≡◌, ◌++◌, OnOk, OnErr};
ghost use Rattle.alt_lines.specs.TrialTexts.{create_table_line, put_item_line, keyed_line, update_item_line, query_line, query_index_line, drawn_line};
ghost use Rattle.alt_lines.specs.Drawn.{draws_of};

use crate::pieces::Piece::{Number, Text};
use crate::put::put;
use alt_base::NoMemory;

/// What is drawn for a request.
#[derive(Clone, Copy)]
pub(crate) struct Drawn {
    pub kind: u64,
    pub partition: u64,
    pub range: u64,
    pub value: u64,
}

pub(crate) fn create_table(out: &mut Vec<u8>) -> Result<(), NoMemory>
    ensures ok { OnOk result (out.new.items ≡ out.old.items ++ create_table_line) }
    ensures err { OnErr result (out.new.items ≡ out.old.items) }
{
    put(
        out,
        &[
            Text(b"CreateTable {\"AttributeDefinitions\":["),
            Text(b"{\"AttributeName\":\"g\",\"AttributeType\":\"S\"},"),
            Text(b"{\"AttributeName\":\"k\",\"AttributeType\":\"S\"},"),
            Text(b"{\"AttributeName\":\"r\",\"AttributeType\":\"N\"}],"),
            Text(b"\"GlobalSecondaryIndexes\":[{\"IndexName\":\"Gix\","),
            Text(b"\"KeySchema\":[{\"AttributeName\":\"g\",\"KeyType\":\"HASH\"}],"),
            Text(b"\"Projection\":{\"ProjectionType\":\"KEYS_ONLY\"}}],"),
            Text(b"\"KeySchema\":[{\"AttributeName\":\"k\",\"KeyType\":\"HASH\"},"),
            Text(b"{\"AttributeName\":\"r\",\"KeyType\":\"RANGE\"}],"),
            Text(
                b"\"StreamSpecification\":{\"StreamEnabled\":true,\"StreamViewType\":\"NEW_AND_OLD_IMAGES\"},",
            ),
            Text(b"\"TableName\":\"Trial\"}"),
        ],
    )
}

fn put_item(out: &mut Vec<u8>, d: Drawn) -> Result<(), NoMemory>
    ensures ok { OnOk result (out.new.items ≡ out.old.items ++ put_item_line (draws_of d)) }
    ensures err { OnErr result (out.new.items ≡ out.old.items) }
{
    put(
        out,
        &[
            Text(b"PutItem {\"Item\":{\"g\":{\"S\":\"g"),
            Number(d.value % 7),
            Text(b"\"},\"k\":{\"S\":\"k"),
            Number(d.partition),
            Text(b"\"},\"r\":{\"N\":\""),
            Number(d.range),
            Text(b"\"},\"v\":{\"N\":\""),
            Number(d.value),
            Text(b"\"}},\"TableName\":\"Trial\"}"),
        ],
    )
}

/// A delete, or a read.
fn keyed(out: &mut Vec<u8>, operation: &[u8], d: Drawn) -> Result<(), NoMemory>
    ensures ok { OnOk result
        (out.new.items ≡ out.old.items ++ keyed_line operation.now (draws_of d)) }
    ensures err { OnErr result (out.new.items ≡ out.old.items) }
{
    put(
        out,
        &[
            Text(operation),
            Text(b" {\"Key\":{\"k\":{\"S\":\"k"),
            Number(d.partition),
            Text(b"\"},\"r\":{\"N\":\""),
            Number(d.range),
            Text(b"\"}},\"TableName\":\"Trial\"}"),
        ],
    )
}

fn update_item(out: &mut Vec<u8>, d: Drawn) -> Result<(), NoMemory>
    ensures ok { OnOk result (out.new.items ≡ out.old.items ++ update_item_line (draws_of d)) }
    ensures err { OnErr result (out.new.items ≡ out.old.items) }
{
    put(
        out,
        &[
            Text(b"UpdateItem {\"ConditionExpression\":\"attribute_exists(k)\","),
            Text(b"\"ExpressionAttributeValues\":{\":d\":{\"N\":\""),
            Number(d.value),
            Text(b"\"}},\"Key\":{\"k\":{\"S\":\"k"),
            Number(d.partition),
            Text(b"\"},\"r\":{\"N\":\""),
            Number(d.range),
            Text(b"\"}},\"TableName\":\"Trial\",\"UpdateExpression\":\"ADD v :d\"}"),
        ],
    )
}

fn query(out: &mut Vec<u8>, d: Drawn) -> Result<(), NoMemory>
    ensures ok { OnOk result (out.new.items ≡ out.old.items ++ query_line (draws_of d)) }
    ensures err { OnErr result (out.new.items ≡ out.old.items) }
{
    put(
        out,
        &[
            Text(b"Query {\"ExpressionAttributeValues\":{\":k\":{\"S\":\"k"),
            Number(d.partition),
            Text(
                b"\"}},\"KeyConditionExpression\":\"k = :k\",\"Limit\":10,\"TableName\":\"Trial\"}",
            ),
        ],
    )
}

fn query_index(out: &mut Vec<u8>, d: Drawn) -> Result<(), NoMemory>
    ensures ok { OnOk result (out.new.items ≡ out.old.items ++ query_index_line (draws_of d)) }
    ensures err { OnErr result (out.new.items ≡ out.old.items) }
{
    put(
        out,
        &[
            Text(b"Query {\"ExpressionAttributeValues\":{\":g\":{\"S\":\"g"),
            Number(d.value % 7),
            Text(
                b"\"}},\"IndexName\":\"Gix\",\"KeyConditionExpression\":\"g = :g\",\"Limit\":10,\"TableName\":\"Trial\"}",
            ),
        ],
    )
}

/// Appends the line of a request, or nothing.
pub(crate) fn request_of(out: &mut Vec<u8>, d: Drawn) -> Result<(), NoMemory>
    ensures ok { OnOk result (out.new.items ≡ out.old.items ++ drawn_line (draws_of d)) }
    ensures err { OnErr result (out.new.items ≡ out.old.items) }
{
    match d.kind {
        0..=3 => put_item(out, d),
        4 => keyed(out, b"DeleteItem", d),
        5 | 6 => update_item(out, d),
        7 => keyed(out, b"GetItem", d),
        8 => query(out, d),
        _ => query_index(out, d),
    }
}
