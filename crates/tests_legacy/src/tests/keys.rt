//! Which entries of KeyConditions are a condition on the keys, and of what it holds.

use crate::tests::given::item;
use alt_condeval::holds;
use alt_expr::Cond;
use alt_legacy::{LegacyFault, key_of};
use alt_schema::KeyAttr;
use alt_value::{KeyKind, Text};
use serde_json::Value;
use std::alloc::Global;

static ITEM: &str = r#"{"k":{"S":"a"},"r":{"N":"5"}}"#;

/// Entries, the kind of the RANGE key, if there is one, and whether the condition holds of the item.
type Row = (&'static str, Option<KeyKind>, Result<bool, LegacyFault>);

static ROWS: [Row; 33] = [
    (
        r#"{"k":{"ComparisonOperator":"EQ","AttributeValueList":[{"S":"a"}]}}"#,
        None,
        Ok(true),
    ),
    (
        r#"{"k":{"ComparisonOperator":"EQ","AttributeValueList":[{"S":"a"}]}}"#,
        Some(KeyKind::N),
        Ok(true),
    ),
    (
        r#"{"k":{"ComparisonOperator":"EQ","AttributeValueList":[{"S":"b"}]}}"#,
        None,
        Ok(false),
    ),
    (
        r#"{"k":{"ComparisonOperator":"EQ","AttributeValueList":[{"S":"a"}]},"r":{"ComparisonOperator":"EQ","AttributeValueList":[{"N":"5.0"}]}}"#,
        Some(KeyKind::N),
        Ok(true),
    ),
    (
        r#"{"k":{"ComparisonOperator":"EQ","AttributeValueList":[{"S":"a"}]},"r":{"ComparisonOperator":"LT","AttributeValueList":[{"N":"5"}]}}"#,
        Some(KeyKind::N),
        Ok(false),
    ),
    (
        r#"{"k":{"ComparisonOperator":"EQ","AttributeValueList":[{"S":"a"}]},"r":{"ComparisonOperator":"LE","AttributeValueList":[{"N":"5"}]}}"#,
        Some(KeyKind::N),
        Ok(true),
    ),
    (
        r#"{"k":{"ComparisonOperator":"EQ","AttributeValueList":[{"S":"a"}]},"r":{"ComparisonOperator":"GT","AttributeValueList":[{"N":"4"}]}}"#,
        Some(KeyKind::N),
        Ok(true),
    ),
    (
        r#"{"k":{"ComparisonOperator":"EQ","AttributeValueList":[{"S":"a"}]},"r":{"ComparisonOperator":"GE","AttributeValueList":[{"N":"6"}]}}"#,
        Some(KeyKind::N),
        Ok(false),
    ),
    (
        r#"{"k":{"ComparisonOperator":"EQ","AttributeValueList":[{"S":"a"}]},"r":{"ComparisonOperator":"BETWEEN","AttributeValueList":[{"N":"5"},{"N":"6"}]}}"#,
        Some(KeyKind::N),
        Ok(true),
    ),
    (
        r#"{"k":{"ComparisonOperator":"EQ","AttributeValueList":[{"S":"a"}]},"r":{"ComparisonOperator":"BETWEEN","AttributeValueList":[{"N":"6"},{"N":"5"}]}}"#,
        Some(KeyKind::N),
        Ok(false),
    ),
    (
        r#"{"k":{"ComparisonOperator":"EQ","AttributeValueList":[{"S":"a"}]},"r":{"ComparisonOperator":"BEGINS_WITH","AttributeValueList":[{"S":"x"}]}}"#,
        Some(KeyKind::S),
        Ok(false),
    ),
    (
        r#"{"k":{"ComparisonOperator":"EQ","AttributeValueList":[{"S":"a"}]},"r":{"ComparisonOperator":"BEGINS_WITH","AttributeValueList":[{"B":"AQ=="}]}}"#,
        Some(KeyKind::B),
        Ok(false),
    ),
    (r#"{}"#, None, Err(LegacyFault::NotKey)),
    (
        r#"{"r":{"ComparisonOperator":"EQ","AttributeValueList":[{"N":"5"}]}}"#,
        Some(KeyKind::N),
        Err(LegacyFault::NotKey),
    ),
    (
        r#"{"k":{"ComparisonOperator":"EQ","AttributeValueList":[{"S":"a"}]},"r":{"ComparisonOperator":"EQ","AttributeValueList":[{"N":"5"}]}}"#,
        None,
        Err(LegacyFault::NotKey),
    ),
    (
        r#"{"k":{"ComparisonOperator":"EQ","AttributeValueList":[{"S":"a"}]},"r":{"ComparisonOperator":"NE","AttributeValueList":[{"N":"5"}]}}"#,
        Some(KeyKind::N),
        Err(LegacyFault::NotKey),
    ),
    (
        r#"{"k":{"ComparisonOperator":"EQ","AttributeValueList":[{"S":"a"}]},"r":{"ComparisonOperator":"IN","AttributeValueList":[{"N":"5"}]}}"#,
        Some(KeyKind::N),
        Err(LegacyFault::NotKey),
    ),
    (
        r#"{"k":{"ComparisonOperator":"EQ","AttributeValueList":[{"S":"a"}]},"r":{"ComparisonOperator":"CONTAINS","AttributeValueList":[{"N":"5"}]}}"#,
        Some(KeyKind::N),
        Err(LegacyFault::NotKey),
    ),
    (
        r#"{"k":{"ComparisonOperator":"EQ","AttributeValueList":[{"S":"a"}]},"r":{"ComparisonOperator":"NOT_CONTAINS","AttributeValueList":[{"N":"5"}]}}"#,
        Some(KeyKind::N),
        Err(LegacyFault::NotKey),
    ),
    (
        r#"{"k":{"ComparisonOperator":"EQ","AttributeValueList":[{"S":"a"}]},"r":{"ComparisonOperator":"NOT_NULL"}}"#,
        Some(KeyKind::N),
        Err(LegacyFault::NotKey),
    ),
    (
        r#"{"k":{"ComparisonOperator":"EQ","AttributeValueList":[{"S":"a"}]},"r":{"ComparisonOperator":"NULL"}}"#,
        Some(KeyKind::N),
        Err(LegacyFault::NotKey),
    ),
    (
        r#"{"k":{"ComparisonOperator":"EQ","AttributeValueList":[{"S":"a"}]},"r":{"ComparisonOperator":"BEGINS_WITH","AttributeValueList":[{"N":"5"}]}}"#,
        Some(KeyKind::N),
        Err(LegacyFault::NotKey),
    ),
    (
        r#"{"k":{"ComparisonOperator":"EQ","AttributeValueList":[{"S":"a"}]},"r":{"ComparisonOperator":"EQ","AttributeValueList":[{"S":"5"}]}}"#,
        Some(KeyKind::N),
        Err(LegacyFault::NotKey),
    ),
    (
        r#"{"k":{"ComparisonOperator":"EQ","AttributeValueList":[{"S":"a"}]},"r":{"ComparisonOperator":"BETWEEN","AttributeValueList":[{"N":"5"},{"S":"6"}]}}"#,
        Some(KeyKind::N),
        Err(LegacyFault::NotKey),
    ),
    (
        r#"{"k":{"ComparisonOperator":"EQ","AttributeValueList":[{"N":"1"}]}}"#,
        None,
        Err(LegacyFault::NotKey),
    ),
    (
        r#"{"k":{"ComparisonOperator":"GE","AttributeValueList":[{"S":"a"}]}}"#,
        None,
        Err(LegacyFault::NotKey),
    ),
    (
        r#"{"k":{"ComparisonOperator":"BEGINS_WITH","AttributeValueList":[{"S":"a"}]}}"#,
        None,
        Err(LegacyFault::NotKey),
    ),
    (
        r#"{"k":{"ComparisonOperator":"EQ","AttributeValueList":[{"S":"a"}]},"z":{"ComparisonOperator":"EQ","AttributeValueList":[{"N":"5"}]}}"#,
        Some(KeyKind::N),
        Err(LegacyFault::NotKey),
    ),
    (
        r#"{"k":{"ComparisonOperator":"EQ","AttributeValueList":[{"S":"a"}]},"r":{"ComparisonOperator":"EQ","AttributeValueList":[{"N":"5"}]},"z":{"ComparisonOperator":"EQ","AttributeValueList":[{"N":"5"}]}}"#,
        Some(KeyKind::N),
        Err(LegacyFault::NotKey),
    ),
    (
        r#"{"k":{"ComparisonOperator":"EQ"}}"#,
        Some(KeyKind::N),
        Err(LegacyFault::Bad),
    ),
    (
        r#"{"k":{"ComparisonOperator":"EQ","AttributeValueList":[{"S":"a"}]},"r":{"ComparisonOperator":"BETWEEN","AttributeValueList":[{"N":"1"}]}}"#,
        Some(KeyKind::N),
        Err(LegacyFault::Bad),
    ),
    (
        r#"{"z":{"ComparisonOperator":"EQ","AttributeValueList":[]}}"#,
        Some(KeyKind::N),
        Err(LegacyFault::Bad),
    ),
    (
        r#"{"":{"ComparisonOperator":"EQ","AttributeValueList":[{"S":"a"}]},"k":{"ComparisonOperator":"EQ","AttributeValueList":[{"S":"a"}]}}"#,
        Some(KeyKind::N),
        Err(LegacyFault::Bad),
    ),
];

fn key(alloc: Global, name: &str, kind: KeyKind) -> Option<KeyAttr> {
    match Text::new(alloc, name) {
        Ok(name) => Some(KeyAttr { name, kind }),
        Err(_) => None,
    }
}

fn asked(alloc: Global, entries: &Value, kind: Option<KeyKind>) -> Result<Cond, LegacyFault> {
    let Some(hash) = key(alloc, "k", KeyKind::S) else {
        return Err(LegacyFault::NoMemory);
    };
    let Some(kind) = kind else {
        return key_of(alloc, entries, &hash, None);
    };
    match key(alloc, "r", kind) {
        Some(range) => key_of(alloc, entries, &hash, Some(&range)),
        None => Err(LegacyFault::NoMemory),
    }
}

fn read_and_asked(
    alloc: Global,
    entries: &str,
    kind: Option<KeyKind>,
) -> Result<Cond, LegacyFault> {
    match Value::from_str(alloc, entries) {
        Ok(read) => asked(alloc, &read, kind),
        Err(_) => Err(LegacyFault::NoMemory),
    }
}

fn is_held(alloc: Global, condition: &Cond, want: bool) -> bool {
    match item(alloc, ITEM) {
        Some(item) => holds(condition, &item) == want,
        None => false,
    }
}

fn is_row(alloc: Global, row: &Row) -> bool {
    match read_and_asked(alloc, row.0, row.1) {
        Ok(condition) => match row.2 {
            Ok(want) => is_held(alloc, &condition, want),
            Err(_) => false,
        },
        Err(found) => match row.2 {
            Ok(_) => false,
            Err(fault) => found == fault,
        },
    }
}

#[test]
fn key_conditions_are_on_the_keys(rt: HostRuntime) {
    for row in &ROWS {
        assert!(rt; is_row(rt.alloc(), row), "{}", row.0);
    }
}
