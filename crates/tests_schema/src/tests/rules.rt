//! Every table, rule by rule: the rule broken alone, and broken together with a later one.

use alt_shape::{Broken, Kind, Rule, ShapeFault, check, field, tables};
use serde_json::{Map, Value};
use std::alloc::{AllocError, Global};
use std::test::Fail;

/// A body that keeps every rule, but for those at two places, whose members have another kind.
fn body_of(
    alloc: Global,
    rules: &[Rule],
    wrong: [usize; 2],
) -> Result<Map<String, Value>, AllocError> {
    let mut body = Map::new(alloc);
    for (place, rule) in rules.iter().enumerate() {
        let value = if place == wrong[0] || place == wrong[1] {
            wrong_value(rule.kind, alloc)
        } else {
            right_value(rule.kind, alloc)?
        };
        body.insert(String::from_str(alloc, rule.name)?, value)?;
    }
    Ok(body)
}

fn wrong_value(kind: Kind, alloc: Global) -> Value {
    match kind {
        Kind::Truth => Value::Array(Vec::new(alloc)),
        _ => Value::Bool(true),
    }
}

fn right_value(kind: Kind, alloc: Global) -> Result<Value, AllocError> {
    Ok(match kind {
        Kind::Text => Value::try_from_str(alloc, "any")?,
        Kind::Whole { least, .. } => Value::from(least),
        Kind::Truth => Value::Bool(false),
        Kind::Object => Value::Object(Map::new(alloc)),
        Kind::Array => Value::Array(Vec::new(alloc)),
        Kind::Word(words) => match words.last() {
            Some(word) => Value::try_from_str(alloc, word)?,
            None => Value::Null,
        },
    })
}

/// No place of any table.
const NONE: usize = 99;

/// Whether a body that is wrong at those places is first found so at the place given.
fn is_first(alloc: Global, rules: &[Rule], wrong: [usize; 2], rule: usize) -> bool {
    let Ok(body) = body_of(alloc, rules, wrong) else {
        return false;
    };
    check(rules, &body)
        == Err(ShapeFault {
            rule,
            broken: Broken::WrongKind,
        })
}

/// Whether a body that keeps every rule is let pass.
fn lets_pass(alloc: Global, rules: &[Rule]) -> bool {
    let Ok(body) = body_of(alloc, rules, [NONE, NONE]) else {
        return false;
    };
    check(rules, &body).is_ok()
}

/// Whether each rule of a table is reported where it is broken alone, and where the last one is broken
/// too.
fn reports_the_first(alloc: Global, rules: &[Rule]) -> bool {
    let last = rules.len().saturating_sub(1);
    for rule in 0..rules.len() {
        if !is_first(alloc, rules, [rule, rule], rule)
            || !is_first(alloc, rules, [rule, last], rule)
        {
            return false;
        }
    }
    lets_pass(alloc, rules)
}

static TABLES: [&[Rule]; 25] = [
    &tables::CREATE_TABLE,
    &tables::KEY_SCHEMA_ELEMENT,
    &tables::ATTRIBUTE_DEFINITION,
    &tables::SECONDARY_INDEX,
    &tables::PROJECTION,
    &tables::STREAM_SPECIFICATION,
    &tables::DESCRIBE_TABLE,
    &tables::DELETE_TABLE,
    &tables::LIST_TABLES,
    &tables::PUT_ITEM,
    &tables::DELETE_ITEM,
    &tables::UPDATE_ITEM,
    &tables::GET_ITEM,
    &tables::QUERY,
    &tables::SCAN,
    &tables::BATCH_WRITE_ITEM,
    &tables::WRITE_REQUEST,
    &tables::PUT_REQUEST,
    &tables::DELETE_REQUEST,
    &tables::BATCH_GET_ITEM,
    &tables::KEYS_AND_ATTRIBUTES,
    &tables::LIST_STREAMS,
    &tables::DESCRIBE_STREAM,
    &tables::GET_SHARD_ITERATOR,
    &tables::GET_RECORDS,
];

#[test]
fn the_first_broken_rule_is_reported(rt: HostRuntime) -> Result<(), Fail> {
    for (place, rules) in TABLES.iter().enumerate() {
        assert!(rt; reports_the_first(rt.alloc(), rules), "table {place}");
    }
    Ok(())
}

/// Whether the members of a body are read by the kinds of their rules.
fn is_read(alloc: Global) -> bool {
    let text =
        r#"{"TableName":"Tab","Limit":7,"ScanIndexForward":false,"Select":null,"Key":{},"Keys":[]}"#;
    let Ok(value) = Value::from_str(alloc, text) else {
        return false;
    };
    let Some(body) = value.as_object() else {
        return false;
    };
    field!(body, "TableName": text) == Some("Tab")
        && field!(body, "Limit": whole) == Some(7)
        && field!(body, "ScanIndexForward": truth) == Some(false)
        && field!(body, "Select": text).is_none()
        && field!(body, "Key": object).is_some()
        && field!(body, "Keys": array).is_some()
}

#[test]
fn a_checked_member_is_read(rt: HostRuntime) -> Result<(), Fail> {
    assert!(rt; is_read(rt.alloc()));
    Ok(())
}
