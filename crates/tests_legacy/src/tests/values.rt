//! The first fault of the values of entries.

use alt_codec::ValueFault;
use alt_decimal::NumberFault;
use alt_legacy::values_fit;
use serde_json::Value;
use std::alloc::Global;

/// Entries, and the fault of their values.
type Row = (&'static str, Result<(), ValueFault>);

static ROWS: [Row; 12] = [
    (
        r#"{"a":{"Value":{"N":"1"}},"b":{"AttributeValueList":[{"S":""}]}}"#,
        Ok(()),
    ),
    (r#"{}"#, Ok(())),
    (r#"{"a":{}}"#, Ok(())),
    (
        r#"{"a":{"Value":{"N":"x"}}}"#,
        Err(ValueFault::BadNumber(NumberFault::NotANumber)),
    ),
    (
        r#"{"b":{"Value":{"N":"x"}},"a":{"Value":{"SS":[]}}}"#,
        Err(ValueFault::EmptySet),
    ),
    (
        r#"{"a":{"AttributeValueList":[{"SS":[]}],"Value":{"B":"!"}}}"#,
        Err(ValueFault::BadBase64),
    ),
    (
        r#"{"a":{"AttributeValueList":[{"N":"1"},{"NULL":false},{"N":"x"}]}}"#,
        Err(ValueFault::NullNotTrue),
    ),
    (
        r#"{"a":{"AttributeValueList":[{"N":"1"}]},"b":{"AttributeValueList":[{}]}}"#,
        Err(ValueFault::NotOneMember),
    ),
    (
        r#"{"a":{"AttributeValueList":[null]}}"#,
        Err(ValueFault::WrongJson),
    ),
    (
        r#"{"a":{"AttributeValueList":[5]}}"#,
        Err(ValueFault::WrongJson),
    ),
    (r#"{"a":{"Value":{"X":"1"}}}"#, Err(ValueFault::UnknownKind)),
    (
        r#"{"a":{"Value":{"NS":["1","1.0"]}}}"#,
        Err(ValueFault::RepeatInSet),
    ),
];

fn fitted(alloc: Global, entries: &str) -> Result<(), ValueFault> {
    match Value::from_str(alloc, entries) {
        Ok(read) => values_fit(alloc, &read),
        Err(_) => Err(ValueFault::NoMemory),
    }
}

fn is_row(alloc: Global, row: &Row) -> bool {
    match fitted(alloc, row.0) {
        Ok(()) => row.1.is_ok(),
        Err(found) => match row.1 {
            Ok(()) => false,
            Err(fault) => found == fault,
        },
    }
}

#[test]
fn the_first_faulty_value_is_told(rt: HostRuntime) {
    for row in &ROWS {
        assert!(rt; is_row(rt.alloc(), row), "{}", row.0);
    }
}
