//! A worked description: its bytes, its indexes, and the rows of items in these.

use alt_fields::BytesFault;
use alt_schema::{TableSchema, schema_of_json};
use alt_schemabytes::{held, schema_bytes, schema_of_bytes};
use alt_value::{Attr, Item, Text};
use alt_views::{index_item, index_keys_fit, index_named};
use serde_json::Value;
use std::alloc::Global;
use std::test::Fail;

/// HASH k and RANGE r; an index `Lix` by a that keeps b, an index `Gix` by g that keeps the keys
/// alone, and a stream of new images.
static BODY: &str =
    r#"{"TableName":"Tab","KeySchema":[{"AttributeName":"k","KeyType":"HASH"},{"AttributeName":"r","KeyType":"RANGE"}],"AttributeDefinitions":[{"AttributeName":"k","AttributeType":"S"},{"AttributeName":"r","AttributeType":"N"},{"AttributeName":"a","AttributeType":"S"},{"AttributeName":"g","AttributeType":"S"}],"LocalSecondaryIndexes":[{"IndexName":"Lix","KeySchema":[{"AttributeName":"k","KeyType":"HASH"},{"AttributeName":"a","KeyType":"RANGE"}],"Projection":{"ProjectionType":"INCLUDE","NonKeyAttributes":["b"]}}],"GlobalSecondaryIndexes":[{"IndexName":"Gix","KeySchema":[{"AttributeName":"g","KeyType":"HASH"}],"Projection":{"ProjectionType":"KEYS_ONLY"}}],"StreamSpecification":{"StreamEnabled":true,"StreamViewType":"NEW_IMAGE"}}"#;

/// Its bytes, made at moment 5 by write 6 with families from 7 on (docs/formats/descriptions.md).
static PIECES: [&[u8]; 5] = [
    b"\x00\x00\x00\x00\x00\x00\x00\x03Tab\x00\x00\x00\x00\x00\x00\x00\x05\x00\x00\x00\x00\x00\x00\x00\x06\x00\x00\x00\x07\x02\x00\x00\x00\x0a",
    b"\x00\x00\x00\x00\x00\x00\x00\x04\x00\x00\x00\x00\x00\x00\x00\x01k\x01\x00\x00\x00\x00\x00\x00\x00\x01r\x02\x00\x00\x00\x00\x00\x00\x00\x01a\x01\x00\x00\x00\x00\x00\x00\x00\x01g\x01",
    b"\x00\x00\x00\x00\x00\x00\x00\x01k\x01\x00\x00\x00\x00\x00\x00\x00\x01r",
    b"\x00\x00\x00\x00\x00\x00\x00\x01\x00\x00\x00\x00\x00\x00\x00\x03Lix\x00\x00\x00\x08\x00\x00\x00\x00\x00\x00\x00\x01k\x01\x00\x00\x00\x00\x00\x00\x00\x01a\x03\x00\x00\x00\x00\x00\x00\x00\x01\x00\x00\x00\x00\x00\x00\x00\x01b",
    b"\x00\x00\x00\x00\x00\x00\x00\x01\x00\x00\x00\x00\x00\x00\x00\x03Gix\x00\x00\x00\x09\x00\x00\x00\x00\x00\x00\x00\x01g\x00\x02",
];

fn table(alloc: Global) -> Option<TableSchema> {
    let Ok(value) = Value::from_str(alloc, BODY) else {
        return None;
    };
    let Some(members) = value.as_object() else {
        return None;
    };
    match schema_of_json(alloc, members, 5, 6, 7) {
        Ok(schema) => Some(schema),
        Err(_) => None,
    }
}

fn worked_bytes(alloc: Global) -> Option<Vec<u8>> {
    let mut bytes = Vec::new(alloc);
    for piece in &PIECES {
        let Ok(()) = bytes.extend_from_slice(piece) else {
            return None;
        };
    }
    Some(bytes)
}

/// Whether a description is written as those bytes.
fn is_written(alloc: Global, schema: &TableSchema, bytes: &[u8]) -> bool {
    let mut out = Vec::new(alloc);
    let Ok(()) = schema_bytes(schema, &mut out) else {
        return false;
    };
    out.as_slice() == bytes
}

/// Whether the worked description has the worked bytes, and is read from them.
fn has_its_bytes(alloc: Global) -> bool {
    let Some(bytes) = worked_bytes(alloc) else {
        return false;
    };
    let Some(schema) = table(alloc) else {
        return false;
    };
    let Ok(again) = schema_of_bytes(alloc, bytes.as_slice()) else {
        return false;
    };
    held(&again);
    is_written(alloc, &schema, bytes.as_slice()) && is_written(alloc, &again, bytes.as_slice())
}

#[test]
fn a_description_has_these_bytes(rt: HostRuntime) -> Result<(), Fail> {
    assert!(rt; has_its_bytes(rt.alloc()));
    Ok(())
}

/// Whether bytes stop being a description at that place.
fn stops_at(alloc: Global, bytes: &[u8], place: usize) -> bool {
    match schema_of_bytes(alloc, bytes) {
        Err(BytesFault::Bad { at }) => at == place,
        _ => false,
    }
}

/// Whether the worked bytes stop at their end wherever they are cut off.
fn stops_where_cut_off(alloc: Global) -> bool {
    let Some(bytes) = worked_bytes(alloc) else {
        return false;
    };
    for len in 0..bytes.len() {
        let Some(cut) = bytes.get(..len) else {
            return false;
        };
        if !stops_at(alloc, cut, len) {
            return false;
        }
    }
    true
}

/// Whether what stands behind them is bad where it begins.
fn stops_behind(alloc: Global) -> bool {
    let Some(mut bytes) = worked_bytes(alloc) else {
        return false;
    };
    let whole = bytes.len();
    let Ok(()) = bytes.push(0) else {
        return false;
    };
    stops_at(alloc, bytes.as_slice(), whole)
}

#[test]
fn other_lengths_are_bad(rt: HostRuntime) -> Result<(), Fail> {
    assert!(rt; stops_where_cut_off(rt.alloc()));
    assert!(rt; stops_behind(rt.alloc()));
    Ok(())
}

/// A byte of the worked bytes as another, and the place where they are bad then.
struct Bad {
    place: usize,
    byte: u8,
    at: usize,
}

static BAD: [Bad; 9] = [
    // The name that isn't UTF-8, and the view.
    Bad {
        place: 8,
        byte: 255,
        at: 0,
    },
    Bad {
        place: 31,
        byte: 5,
        at: 31,
    },
    // The second definition as `k`, and its kind.
    Bad {
        place: 62,
        byte: b'k',
        at: 54,
    },
    Bad {
        place: 63,
        byte: 4,
        at: 63,
    },
    // The HASH key as `x`, and whether there is a RANGE key.
    Bad {
        place: 92,
        byte: b'x',
        at: 84,
    },
    Bad {
        place: 93,
        byte: 2,
        at: 93,
    },
    // The RANGE key as `x`, the RANGE key of an index as `x`, and the byte of its projection.
    Bad {
        place: 102,
        byte: b'x',
        at: 94,
    },
    Bad {
        place: 144,
        byte: b'x',
        at: 136,
    },
    Bad {
        place: 145,
        byte: 4,
        at: 145,
    },
];

fn is_bad(alloc: Global, row: &Bad) -> bool {
    let Some(mut bytes) = worked_bytes(alloc) else {
        return false;
    };
    let Some(there) = bytes.get_mut(row.place) else {
        return false;
    };
    *there = row.byte;
    stops_at(alloc, bytes.as_slice(), row.at)
}

#[test]
fn a_bad_part_is_told_by_its_place(rt: HostRuntime) -> Result<(), Fail> {
    for row in &BAD {
        assert!(rt; is_bad(rt.alloc(), row), "{} at {}", row.byte, row.place);
    }
    Ok(())
}

// ---- indexes and their rows

/// A name, and the number of its index.
static NUMBERS: [(&str, Option<usize>); 3] = [("Lix", Some(0)), ("Gix", Some(1)), ("Tab", None)];

fn has_number(schema: &Option<TableSchema>, row: &(&str, Option<usize>)) -> bool {
    match schema {
        Some(schema) => index_named(schema, row.0) == row.1,
        None => false,
    }
}

#[test]
fn the_local_indexes_come_first(rt: HostRuntime) -> Result<(), Fail> {
    let schema = table(rt.alloc());
    for row in &NUMBERS {
        assert!(rt; has_number(&schema, row), "{}", row.0);
    }
    Ok(())
}

/// An item in which attributes of those names have one text, and one of another name is NULL.
struct Texts {
    names: &'static [&'static str],
    text: &'static str,
    null: &'static str,
}

fn item_of(alloc: Global, texts: &Texts) -> Option<Item> {
    let mut item = Item::new(alloc);
    for name in texts.names {
        let Ok(text) = Text::new(alloc, texts.text) else {
            return None;
        };
        if name.is_empty() {
            return None;
        }
        let Ok(()) = item.put(name, Attr::S(text)) else {
            return None;
        };
    }
    if !texts.null.is_empty() {
        let Ok(()) = item.put(texts.null, Attr::Null) else {
            return None;
        };
    }
    Some(item)
}

/// Whether the index keys of an item are keys.
static FITS: [(Texts, bool); 4] = [
    (
        Texts {
            names: &["k", "z"],
            text: "x",
            null: "",
        },
        true,
    ),
    (
        Texts {
            names: &["k", "g"],
            text: "x",
            null: "",
        },
        true,
    ),
    (
        Texts {
            names: &["z", "g"],
            text: "",
            null: "",
        },
        false,
    ),
    (
        Texts {
            names: &["k"],
            text: "x",
            null: "g",
        },
        false,
    ),
];

fn fits(alloc: Global, schema: &Option<TableSchema>, row: &(Texts, bool)) -> bool {
    match (schema, item_of(alloc, &row.0)) {
        (Some(schema), Some(item)) => index_keys_fit(schema, &item) == row.1,
        _ => false,
    }
}

#[test]
fn an_index_key_is_of_its_kind_and_not_empty(rt: HostRuntime) -> Result<(), Fail> {
    let schema = table(rt.alloc());
    for (place, row) in FITS.iter().enumerate() {
        assert!(rt; fits(rt.alloc(), &schema, row), "row {place}");
    }
    Ok(())
}

/// An item, the name of an index, and how many attributes the item's row in it has; None where it has
/// no row there.
struct Row {
    texts: Texts,
    index: &'static str,
    attributes: Option<usize>,
}

static ROWS: [Row; 3] = [
    Row {
        texts: Texts {
            names: &["k", "r", "a", "b", "c", "g"],
            text: "x",
            null: "",
        },
        index: "Lix",
        attributes: Some(4),
    },
    Row {
        texts: Texts {
            names: &["k", "r", "a", "b", "c", "g"],
            text: "x",
            null: "",
        },
        index: "Gix",
        attributes: Some(3),
    },
    Row {
        texts: Texts {
            names: &["k", "r", "a"],
            text: "x",
            null: "",
        },
        index: "Gix",
        attributes: None,
    },
];

/// How many attributes an item's row in an index has; None where it has no row there.
fn row_len(alloc: Global, schema: &TableSchema, index: &str, item: &Item) -> Option<usize> {
    match index_item(alloc, schema, index_named(schema, index)?, item) {
        Ok(Some(kept)) => Some(kept.len()),
        Ok(None) => None,
        Err(_) => Some(usize::MAX),
    }
}

fn has_row(alloc: Global, schema: &Option<TableSchema>, row: &Row) -> bool {
    match (schema, item_of(alloc, &row.texts)) {
        (Some(schema), Some(item)) => { row_len(alloc, schema, row.index, &item) == row.attributes }
        _ => false,
    }
}

#[test]
fn a_row_keeps_keys_and_the_names_included(rt: HostRuntime) -> Result<(), Fail> {
    let schema = table(rt.alloc());
    for (place, row) in ROWS.iter().enumerate() {
        assert!(rt; has_row(rt.alloc(), &schema, row), "row {place}");
    }
    Ok(())
}
