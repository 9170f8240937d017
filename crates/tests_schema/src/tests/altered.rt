//! Bodies of UpdateTable that add an index to a table or take one from it, with the descriptions shown then, and those that are refused.

use alt_schema::{
    Built, SchemaFault, TableSchema, built_copy, fits_definitions, json_of_schema, schema_of_json,
    with_built, with_index, without_index,
};
use alt_shape::Refusal;
use serde_json::Value;
use std::alloc::Global;
use std::test::Fail;

/// A table with an index `ByYear` of family 2.
static MUSIC: &str =
    r#"{"TableName":"Music","AttributeDefinitions":[{"AttributeName":"Artist","AttributeType":"S"},{"AttributeName":"Year","AttributeType":"N"}],"KeySchema":[{"AttributeName":"Artist","KeyType":"HASH"}],"GlobalSecondaryIndexes":[{"IndexName":"ByYear","KeySchema":[{"AttributeName":"Year","KeyType":"HASH"}],"Projection":{"ProjectionType":"ALL"}}]}"#;

/// It as it is shown, then with an index `ByLabel` of family 9 that is being built, then with that one whole, and then without `ByYear`.
static SHOWN: [&str; 4] = [
    r#"{"AttributeDefinitions":[{"AttributeName":"Artist","AttributeType":"S"},{"AttributeName":"Year","AttributeType":"N"}],"CreationDateTime":5,"GlobalSecondaryIndexes":[{"IndexArn":"arn:aws:dynamodb:local:000000000000:table/Music/index/ByYear","IndexName":"ByYear","IndexStatus":"ACTIVE","KeySchema":[{"AttributeName":"Year","KeyType":"HASH"}],"Projection":{"ProjectionType":"ALL"}}],"KeySchema":[{"AttributeName":"Artist","KeyType":"HASH"}],"TableArn":"arn:aws:dynamodb:local:000000000000:table/Music","TableName":"Music","TableStatus":"UPDATING"}"#,
    r#"{"AttributeDefinitions":[{"AttributeName":"Artist","AttributeType":"S"},{"AttributeName":"Year","AttributeType":"N"},{"AttributeName":"Label","AttributeType":"S"}],"CreationDateTime":5,"GlobalSecondaryIndexes":[{"IndexArn":"arn:aws:dynamodb:local:000000000000:table/Music/index/ByYear","IndexName":"ByYear","IndexStatus":"ACTIVE","KeySchema":[{"AttributeName":"Year","KeyType":"HASH"}],"Projection":{"ProjectionType":"ALL"}},{"Backfilling":true,"IndexArn":"arn:aws:dynamodb:local:000000000000:table/Music/index/ByLabel","IndexName":"ByLabel","IndexStatus":"CREATING","KeySchema":[{"AttributeName":"Label","KeyType":"HASH"}],"Projection":{"ProjectionType":"KEYS_ONLY"}}],"KeySchema":[{"AttributeName":"Artist","KeyType":"HASH"}],"TableArn":"arn:aws:dynamodb:local:000000000000:table/Music","TableName":"Music","TableStatus":"UPDATING"}"#,
    r#"{"AttributeDefinitions":[{"AttributeName":"Artist","AttributeType":"S"},{"AttributeName":"Year","AttributeType":"N"},{"AttributeName":"Label","AttributeType":"S"}],"CreationDateTime":5,"GlobalSecondaryIndexes":[{"IndexArn":"arn:aws:dynamodb:local:000000000000:table/Music/index/ByYear","IndexName":"ByYear","IndexStatus":"ACTIVE","KeySchema":[{"AttributeName":"Year","KeyType":"HASH"}],"Projection":{"ProjectionType":"ALL"}},{"IndexArn":"arn:aws:dynamodb:local:000000000000:table/Music/index/ByLabel","IndexName":"ByLabel","IndexStatus":"ACTIVE","KeySchema":[{"AttributeName":"Label","KeyType":"HASH"}],"Projection":{"ProjectionType":"KEYS_ONLY"}}],"KeySchema":[{"AttributeName":"Artist","KeyType":"HASH"}],"TableArn":"arn:aws:dynamodb:local:000000000000:table/Music","TableName":"Music","TableStatus":"UPDATING"}"#,
    r#"{"AttributeDefinitions":[{"AttributeName":"Artist","AttributeType":"S"},{"AttributeName":"Label","AttributeType":"S"}],"CreationDateTime":5,"GlobalSecondaryIndexes":[{"IndexArn":"arn:aws:dynamodb:local:000000000000:table/Music/index/ByLabel","IndexName":"ByLabel","IndexStatus":"ACTIVE","KeySchema":[{"AttributeName":"Label","KeyType":"HASH"}],"Projection":{"ProjectionType":"KEYS_ONLY"}}],"KeySchema":[{"AttributeName":"Artist","KeyType":"HASH"}],"TableArn":"arn:aws:dynamodb:local:000000000000:table/Music","TableName":"Music","TableStatus":"UPDATING"}"#,
];

fn music(alloc: Global) -> Option<TableSchema> {
    let Ok(value) = Value::from_str(alloc, MUSIC) else {
        return None;
    };
    let Some(members) = value.as_object() else {
        return None;
    };
    match schema_of_json(alloc, members, 5, 6, 1) {
        Ok(schema) => Some(schema),
        Err(_) => None,
    }
}

/// A text as JSON.
fn json(alloc: Global, text: &str) -> Option<Value> {
    match Value::from_str(alloc, text) {
        Ok(value) => Some(value),
        Err(_) => None,
    }
}

fn is_shown(alloc: Global, schema: &TableSchema, shown: &str) -> bool {
    let Ok(json) = json_of_schema(alloc, schema, "UPDATING") else {
        return false;
    };
    match json.to_string(alloc) {
        Ok(text) => text.as_str() == shown,
        Err(_) => false,
    }
}

/// What comes of definitions and of an index with that family; None where memory is wanting or a text is no object.
fn added(
    alloc: Global,
    schema: &TableSchema,
    definitions: &str,
    create: &str,
) -> Option<Result<TableSchema, Refusal>> {
    let body = json(alloc, definitions)?;
    let create = json(alloc, create)?;
    match with_index(alloc, schema, body.as_object()?, create.as_object()?, 9) {
        Ok(later) => Some(Ok(later)),
        Err(SchemaFault::Refused(refusal)) => Some(Err(refusal)),
        Err(SchemaFault::NoMemory) => None,
    }
}

/// What comes of definitions and of the name of an index that goes.
fn taken(
    alloc: Global,
    schema: &TableSchema,
    definitions: &str,
    name: &str,
) -> Option<Result<TableSchema, Refusal>> {
    let body = json(alloc, definitions)?;
    match without_index(alloc, schema, body.as_object()?, name) {
        Ok(later) => Some(Ok(later)),
        Err(SchemaFault::Refused(refusal)) => Some(Err(refusal)),
        Err(SchemaFault::NoMemory) => None,
    }
}

const LABEL: &str =
    r#"{"AttributeDefinitions":[{"AttributeName":"Label","AttributeType":"S"},{"AttributeName":"Artist","AttributeType":"S"}]}"#;

const BY_LABEL: &str =
    r#"{"IndexName":"ByLabel","KeySchema":[{"AttributeName":"Label","KeyType":"HASH"}],"Projection":{"ProjectionType":"KEYS_ONLY"}}"#;

/// Whether the table is shown so, with `ByLabel`, with that one built, and without `ByYear`.
fn is_shown_so(alloc: Global) -> Option<bool> {
    let before = music(alloc)?;
    let Some(Ok(building)) = added(alloc, &before, LABEL, BY_LABEL) else {
        return None;
    };
    let Ok(Some(whole)) = with_built(alloc, &building, 9, Built::Whole) else {
        return None;
    };
    let Some(Ok(after)) = taken(alloc, &whole, "{}", "ByYear") else {
        return None;
    };
    Some(
        is_shown(alloc, &before, SHOWN[0])
            && is_shown(alloc, &building, SHOWN[1])
            && is_shown(alloc, &whole, SHOWN[2])
            && is_shown(alloc, &after, SHOWN[3]),
    )
}

#[test]
fn an_index_comes_and_another_goes(rt: HostRuntime) -> Result<(), Fail> {
    assert!(rt; is_shown_so(rt.alloc()) == Some(true));
    Ok(())
}

/// Whether that which is being built alone is built so far, and no index of another family is.
fn is_built_alone(alloc: Global) -> Option<bool> {
    let before = music(alloc)?;
    let Some(Ok(building)) = added(alloc, &before, LABEL, BY_LABEL) else {
        return None;
    };
    let Ok(whole) = built_copy(alloc, &building, &Built::Whole) else {
        return None;
    };
    let Ok(same) = built_copy(alloc, &before, &Built::UpTo(None)) else {
        return None;
    };
    let Ok(none) = with_built(alloc, &building, 3, Built::Whole) else {
        return None;
    };
    Some(is_shown(alloc, &whole, SHOWN[2]) && is_shown(alloc, &same, SHOWN[0]) && none.is_none())
}

#[test]
fn the_index_that_is_being_built_is_built_further(rt: HostRuntime) -> Result<(), Fail> {
    assert!(rt; is_built_alone(rt.alloc()) == Some(true));
    Ok(())
}

/// Definitions and an index that comes, and what they are refused for.
struct Refused {
    definitions: &'static str,
    create: &'static str,
    refusal: Refusal,
}

static REFUSED: [Refused; 6] = [
    // An attribute that isn't defined, one that no key uses, one of another kind than the table's, and one that is given twice.
    Refused {
        definitions: "{}",
        create: BY_LABEL,
        refusal: Refusal::BAD_KEY_SCHEMA,
    },
    Refused {
        definitions: r#"{"AttributeDefinitions":[{"AttributeName":"Label","AttributeType":"S"},{"AttributeName":"Other","AttributeType":"S"}]}"#,
        create: BY_LABEL,
        refusal: Refusal::BAD_KEY_SCHEMA,
    },
    Refused {
        definitions: r#"{"AttributeDefinitions":[{"AttributeName":"Label","AttributeType":"S"},{"AttributeName":"Year","AttributeType":"S"}]}"#,
        create: BY_LABEL,
        refusal: Refusal::BAD_KEY_SCHEMA,
    },
    Refused {
        definitions: r#"{"AttributeDefinitions":[{"AttributeName":"Label","AttributeType":"S"},{"AttributeName":"Label","AttributeType":"S"}]}"#,
        create: BY_LABEL,
        refusal: Refusal::BAD_KEY_SCHEMA,
    },
    // The name of another index, and a projection without its names.
    Refused {
        definitions: LABEL,
        create: r#"{"IndexName":"ByYear","KeySchema":[{"AttributeName":"Label","KeyType":"HASH"}],"Projection":{"ProjectionType":"KEYS_ONLY"}}"#,
        refusal: Refusal::BAD_INDEX,
    },
    Refused {
        definitions: LABEL,
        create: r#"{"IndexName":"ByLabel","KeySchema":[{"AttributeName":"Label","KeyType":"HASH"}],"Projection":{"ProjectionType":"INCLUDE"}}"#,
        refusal: Refusal::BAD_INDEX,
    },
];

fn is_refused(alloc: Global, row: &Refused) -> bool {
    let Some(schema) = music(alloc) else {
        return false;
    };
    match added(alloc, &schema, row.definitions, row.create) {
        Some(Err(refusal)) => refusal == row.refusal,
        _ => false,
    }
}

#[test]
fn an_index_that_does_not_fit_is_refused(rt: HostRuntime) -> Result<(), Fail> {
    for (place, row) in REFUSED.iter().enumerate() {
        assert!(rt; is_refused(rt.alloc(), row), "row {place}");
    }
    Ok(())
}

/// Definitions beside an index `ByYear` that goes, whether they are taken then, and whether they are where it stays.
static BESIDE: [(&str, bool, bool); 4] = [
    ("{}", true, true),
    (
        r#"{"AttributeDefinitions":[{"AttributeName":"Artist","AttributeType":"S"}]}"#,
        true,
        true,
    ),
    (
        r#"{"AttributeDefinitions":[{"AttributeName":"Year","AttributeType":"N"}]}"#,
        false,
        true,
    ),
    (
        r#"{"AttributeDefinitions":[{"AttributeName":"Artist","AttributeType":"N"}]}"#,
        false,
        false,
    ),
];

fn fits_so(alloc: Global, row: &(&str, bool, bool)) -> Option<bool> {
    let (definitions, goes, stays) = *row;
    let schema = music(alloc)?;
    let body = json(alloc, definitions)?;
    let fits = match taken(alloc, &schema, definitions, "ByYear")? {
        Ok(_) => true,
        Err(refusal) => refusal != Refusal::BAD_KEY_SCHEMA,
    };
    match fits_definitions(alloc, &schema, body.as_object()?) {
        Ok(same) => Some(fits == goes && same == stays),
        Err(_) => None,
    }
}

#[test]
fn definitions_are_used_and_of_their_kind(rt: HostRuntime) -> Result<(), Fail> {
    for (place, row) in BESIDE.iter().enumerate() {
        assert!(rt; fits_so(rt.alloc(), row) == Some(true), "row {place}");
    }
    Ok(())
}
