//! Bodies of CreateTable as clients send them, with the descriptions shown for them, and bodies that
//! break a rule of names, keys or indexes, or two.

use alt_schema::{SchemaFault, TableSchema, json_of_schema, schema_of_json};
use alt_shape::Refusal;
use serde_json::Value;
use std::alloc::{AllocError, Global};
use std::test::Fail;

/// What comes of a body at moment 1,700,000,000 and as write 7; None where memory is wanting or the
/// text is no JSON object.
fn described(alloc: Global, body: &str) -> Option<Result<TableSchema, Refusal>> {
    let Ok(value) = Value::from_str(alloc, body) else {
        return None;
    };
    let Some(members) = value.as_object() else {
        return None;
    };
    match schema_of_json(alloc, members, 1_700_000_000, 7, 1) {
        Ok(schema) => Some(Ok(schema)),
        Err(SchemaFault::Refused(refusal)) => Some(Err(refusal)),
        Err(SchemaFault::NoMemory) => None,
    }
}

/// Whether a description is shown as that text.
fn is_shown(alloc: Global, schema: &TableSchema, shown: &str) -> bool {
    let Ok(json) = json_of_schema(alloc, schema, "ACTIVE") else {
        return false;
    };
    let Ok(text) = json.to_string(alloc) else {
        return false;
    };
    text.as_str() == shown
}

/// A body, and how its description is shown.
struct Shown {
    body: &'static str,
    shown: &'static str,
}

// The table of the Developer Guide's "Getting started", as the AWS command line sends it, and one as
// boto3 sends it.
static SHOWN: [Shown; 2] = [
    Shown {
        body: r#"{"TableName":"Music","AttributeDefinitions":[{"AttributeName":"Artist","AttributeType":"S"},{"AttributeName":"SongTitle","AttributeType":"S"}],"KeySchema":[{"AttributeName":"Artist","KeyType":"HASH"},{"AttributeName":"SongTitle","KeyType":"RANGE"}],"ProvisionedThroughput":{"ReadCapacityUnits":5,"WriteCapacityUnits":5},"BillingMode":"PROVISIONED","SSESpecification":{"Enabled":true},"Tags":[{"Key":"a","Value":"b"}],"TableClass":"STANDARD","LocalSecondaryIndexes":null,"StreamSpecification":{"StreamEnabled":false}}"#,
        shown: r#"{"AttributeDefinitions":[{"AttributeName":"Artist","AttributeType":"S"},{"AttributeName":"SongTitle","AttributeType":"S"}],"CreationDateTime":1700000000,"KeySchema":[{"AttributeName":"Artist","KeyType":"HASH"},{"AttributeName":"SongTitle","KeyType":"RANGE"}],"TableArn":"arn:aws:dynamodb:local:000000000000:table/Music","TableName":"Music","TableStatus":"ACTIVE"}"#,
    },
    Shown {
        body: r#"{"TableName":"Tab","KeySchema":[{"AttributeName":"k","KeyType":"HASH"},{"AttributeName":"r","KeyType":"RANGE"}],"AttributeDefinitions":[{"AttributeName":"r","AttributeType":"N"},{"AttributeName":"k","AttributeType":"S"},{"AttributeName":"a","AttributeType":"B"}],"LocalSecondaryIndexes":[{"IndexName":"by-a","KeySchema":[{"AttributeName":"k","KeyType":"HASH"},{"AttributeName":"a","KeyType":"RANGE"}],"Projection":{"ProjectionType":"INCLUDE","NonKeyAttributes":["z","y"]}}],"GlobalSecondaryIndexes":[{"IndexName":"all","KeySchema":[{"AttributeName":"a","KeyType":"HASH"}],"Projection":{"ProjectionType":"ALL"},"ProvisionedThroughput":{"ReadCapacityUnits":1,"WriteCapacityUnits":1}}],"BillingMode":"PAY_PER_REQUEST","StreamSpecification":{"StreamEnabled":true,"StreamViewType":"NEW_AND_OLD_IMAGES"}}"#,
        shown: r#"{"AttributeDefinitions":[{"AttributeName":"r","AttributeType":"N"},{"AttributeName":"k","AttributeType":"S"},{"AttributeName":"a","AttributeType":"B"}],"CreationDateTime":1700000000,"GlobalSecondaryIndexes":[{"IndexArn":"arn:aws:dynamodb:local:000000000000:table/Tab/index/all","IndexName":"all","IndexStatus":"ACTIVE","KeySchema":[{"AttributeName":"a","KeyType":"HASH"}],"Projection":{"ProjectionType":"ALL"}}],"KeySchema":[{"AttributeName":"k","KeyType":"HASH"},{"AttributeName":"r","KeyType":"RANGE"}],"LatestStreamArn":"arn:aws:dynamodb:local:000000000000:table/Tab/stream/000000000000000000007","LatestStreamLabel":"000000000000000000007","LocalSecondaryIndexes":[{"IndexArn":"arn:aws:dynamodb:local:000000000000:table/Tab/index/by-a","IndexName":"by-a","KeySchema":[{"AttributeName":"k","KeyType":"HASH"},{"AttributeName":"a","KeyType":"RANGE"}],"Projection":{"NonKeyAttributes":["z","y"],"ProjectionType":"INCLUDE"}}],"StreamSpecification":{"StreamEnabled":true,"StreamViewType":"NEW_AND_OLD_IMAGES"},"TableArn":"arn:aws:dynamodb:local:000000000000:table/Tab","TableName":"Tab","TableStatus":"ACTIVE"}"#,
    },
];

fn shows(alloc: Global, row: &Shown) -> bool {
    match described(alloc, row.body) {
        Some(Ok(schema)) => is_shown(alloc, &schema, row.shown),
        _ => false,
    }
}

#[test]
fn descriptions_are_shown(rt: HostRuntime) -> Result<(), Fail> {
    for row in &SHOWN {
        assert!(rt; shows(rt.alloc(), row), "{}", row.shown);
    }
    Ok(())
}

/// A body, and why it is refused.
struct Refused {
    body: &'static str,
    refusal: Refusal,
}

macro_rules! refused {
    ($refusal:ident, $body:literal) => {
        Refused { body: $body, refusal: Refusal::$refusal }
    };
}

static REFUSED: [Refused; 10] = [
    // A name alone.
    refused!(
        BAD_NAME,
        r#"{"TableName":"ab","KeySchema":[{"AttributeName":"k","KeyType":"HASH"}],"AttributeDefinitions":[{"AttributeName":"k","AttributeType":"S"}]}"#
    ),
    // An attribute that no key uses.
    refused!(
        BAD_KEY_SCHEMA,
        r#"{"TableName":"Tab","KeySchema":[{"AttributeName":"k","KeyType":"HASH"}],"AttributeDefinitions":[{"AttributeName":"k","AttributeType":"S"},{"AttributeName":"x","AttributeType":"S"}]}"#
    ),
    // A key schema that begins with RANGE.
    refused!(
        BAD_KEY_SCHEMA,
        r#"{"TableName":"Tab","KeySchema":[{"AttributeName":"k","KeyType":"RANGE"}],"AttributeDefinitions":[{"AttributeName":"k","AttributeType":"S"}]}"#
    ),
    // A local index of a table without RANGE.
    refused!(
        BAD_INDEX,
        r#"{"TableName":"Tab","KeySchema":[{"AttributeName":"k","KeyType":"HASH"}],"AttributeDefinitions":[{"AttributeName":"k","AttributeType":"S"},{"AttributeName":"r","AttributeType":"S"}],"LocalSecondaryIndexes":[{"IndexName":"Lix","KeySchema":[{"AttributeName":"k","KeyType":"HASH"},{"AttributeName":"r","KeyType":"RANGE"}],"Projection":{"ProjectionType":"ALL"}}]}"#
    ),
    // A bad key schema of the table and a bad name of an index.
    refused!(
        BAD_NAME,
        r#"{"TableName":"Tab","KeySchema":[],"AttributeDefinitions":[{"AttributeName":"k","AttributeType":"S"}],"GlobalSecondaryIndexes":[{"IndexName":"i","KeySchema":[{"AttributeName":"k","KeyType":"HASH"}],"Projection":{"ProjectionType":"ALL"}}]}"#
    ),
    // A bad projection and an unused attribute.
    refused!(
        BAD_KEY_SCHEMA,
        r#"{"TableName":"Tab","KeySchema":[{"AttributeName":"k","KeyType":"HASH"}],"AttributeDefinitions":[{"AttributeName":"k","AttributeType":"S"},{"AttributeName":"x","AttributeType":"S"}],"GlobalSecondaryIndexes":[{"IndexName":"Gix","KeySchema":[{"AttributeName":"k","KeyType":"HASH"}],"Projection":{"ProjectionType":"ALL","NonKeyAttributes":[]}}]}"#
    ),
    // The HASH key twice.
    refused!(
        BAD_KEY_SCHEMA,
        r#"{"TableName":"Tab","KeySchema":[{"AttributeName":"k","KeyType":"HASH"},{"AttributeName":"k","KeyType":"RANGE"}],"AttributeDefinitions":[{"AttributeName":"k","AttributeType":"S"}]}"#
    ),
    // A definition twice, once with another kind.
    refused!(
        BAD_KEY_SCHEMA,
        r#"{"TableName":"Tab","KeySchema":[{"AttributeName":"k","KeyType":"HASH"}],"AttributeDefinitions":[{"AttributeName":"k","AttributeType":"S"},{"AttributeName":"k","AttributeType":"N"}]}"#
    ),
    // A key of an index that isn't defined.
    refused!(
        BAD_KEY_SCHEMA,
        r#"{"TableName":"Tab","KeySchema":[{"AttributeName":"k","KeyType":"HASH"}],"AttributeDefinitions":[{"AttributeName":"k","AttributeType":"S"}],"GlobalSecondaryIndexes":[{"IndexName":"Gix","KeySchema":[{"AttributeName":"g","KeyType":"HASH"}],"Projection":{"ProjectionType":"ALL"}}]}"#
    ),
    // Two indexes of one name, one local and one global.
    refused!(
        BAD_INDEX,
        r#"{"TableName":"Tab","KeySchema":[{"AttributeName":"k","KeyType":"HASH"},{"AttributeName":"r","KeyType":"RANGE"}],"AttributeDefinitions":[{"AttributeName":"k","AttributeType":"S"},{"AttributeName":"r","AttributeType":"S"},{"AttributeName":"a","AttributeType":"S"}],"LocalSecondaryIndexes":[{"IndexName":"Ind","KeySchema":[{"AttributeName":"k","KeyType":"HASH"},{"AttributeName":"a","KeyType":"RANGE"}],"Projection":{"ProjectionType":"ALL"}}],"GlobalSecondaryIndexes":[{"IndexName":"Ind","KeySchema":[{"AttributeName":"k","KeyType":"HASH"}],"Projection":{"ProjectionType":"ALL"}}]}"#
    ),
];

fn is_refused(alloc: Global, row: &Refused) -> bool {
    match described(alloc, row.body) {
        Some(Err(refusal)) => refusal == row.refusal,
        _ => false,
    }
}

#[test]
fn the_first_broken_rule_is_told(rt: HostRuntime) -> Result<(), Fail> {
    for row in &REFUSED {
        assert!(rt; is_refused(rt.alloc(), row), "{}", row.body);
    }
    Ok(())
}

/// A body whose table has so many local and global indexes, of which each keeps so many names.
fn counted(alloc: Global, locals: u8, globals: u8, names: u8) -> Result<String, AllocError> {
    let mut body = String::from_str(
        alloc,
        "{\"TableName\":\"Tab\",\"KeySchema\":[{\"AttributeName\":\"k\",\"KeyType\":\"HASH\"},{\"AttributeName\":\"r\",\"KeyType\":\"RANGE\"}],\"AttributeDefinitions\":[{\"AttributeName\":\"k\",\"AttributeType\":\"S\"},{\"AttributeName\":\"r\",\"AttributeType\":\"S\"},{\"AttributeName\":\"a\",\"AttributeType\":\"S\"}],\"LocalSecondaryIndexes\":",
    )?;
    push_indexes(alloc, &mut body, 'L', locals, names)?;
    body.push_str(",\"GlobalSecondaryIndexes\":")?;
    push_indexes(alloc, &mut body, 'G', globals, names)?;
    body.push_str("}")?;
    Ok(body)
}

fn push_indexes(
    alloc: Global,
    body: &mut String,
    letter: char,
    count: u8,
    names: u8,
) -> Result<(), AllocError> {
    let mut before = '[';
    for i in 0..count {
        let name = format!(in alloc; "{before}{{\"IndexName\":\"{letter}x{i}\",")?;
        body.push_str(name.as_str())?;
        body.push_str(
            "\"KeySchema\":[{\"AttributeName\":\"k\",\"KeyType\":\"HASH\"},{\"AttributeName\":\"a\",\"KeyType\":\"RANGE\"}],\"Projection\":{\"ProjectionType\":\"INCLUDE\",\"NonKeyAttributes\":",
        )?;
        push_names(body, names)?;
        body.push_str("}}")?;
        before = ',';
    }
    if count == 0 {
        body.push('[')?;
    }
    body.push(']')?;
    Ok(())
}

fn push_names(body: &mut String, names: u8) -> Result<(), AllocError> {
    let mut before = '[';
    for _ in 0..names {
        body.push(before)?;
        body.push_str("\"b\"")?;
        before = ',';
    }
    if names == 0 {
        body.push('[')?;
    }
    body.push(']')?;
    Ok(())
}

/// How many local and global indexes, how many names each of them keeps, and whether such a table is
/// made.
static COUNTS: [(u8, u8, u8, bool); 6] = [
    (5, 20, 1, true),
    (6, 0, 1, false),
    (1, 21, 1, false),
    (1, 1, 0, false),
    (1, 1, 20, true),
    (1, 1, 21, false),
];

fn is_limited(alloc: Global, row: &(u8, u8, u8, bool)) -> bool {
    let (locals, globals, names, made) = *row;
    let Ok(body) = counted(alloc, locals, globals, names) else {
        return false;
    };
    match described(alloc, body.as_str()) {
        Some(Ok(_)) => made,
        Some(Err(refusal)) => !made && refusal == Refusal::BAD_INDEX,
        None => false,
    }
}

#[test]
fn counts_have_their_limits(rt: HostRuntime) -> Result<(), Fail> {
    for (place, row) in COUNTS.iter().enumerate() {
        assert!(rt; is_limited(rt.alloc(), row), "row {place}");
    }
    Ok(())
}
