//! Walks over the items of a table, both ways.

ghost use Rattle.alt_disk.specs.MemoryState.{state_of};
ghost use Rattle.alt_tables.specs.Stands.{AreReady};

use super::asking::{Request, asked, empty, opened};
use alt_disk::MemoryDisk;
use alt_fields::Bytes;
use alt_keyorder::KeyRange;
use alt_tables::Tables;
use alt_value::{Attr, Item};
use std::alloc::Global;

/// A table of five items, put in the order of their keys.
static ITEMS: [Request; 6] = [
    (
        "CreateTable",
        r#"{"TableName":"Tab","KeySchema":[{"AttributeName":"k","KeyType":"HASH"}],"AttributeDefinitions":[{"AttributeName":"k","AttributeType":"S"}]}"#,
    ),
    ("PutItem", r#"{"TableName":"Tab","Item":{"k":{"S":"a"}}}"#),
    ("PutItem", r#"{"TableName":"Tab","Item":{"k":{"S":"b"}}}"#),
    ("PutItem", r#"{"TableName":"Tab","Item":{"k":{"S":"c"}}}"#),
    ("PutItem", r#"{"TableName":"Tab","Item":{"k":{"S":"d"}}}"#),
    ("PutItem", r#"{"TableName":"Tab","Item":{"k":{"S":"e"}}}"#),
];

// The keys of items, one behind another.
fn keys_of(alloc: Global, items: &[Item]) -> Option<String> {
    let mut keys = String::new(alloc);
    for item in items {
        let Some(Attr::S(key)) = item.get("k") else {
            return None;
        };
        keys.push_str(key.as_str()).ok()?;
    }
    Some(keys)
}

// The first items of the whole table, so many.
fn walked(
    alloc: Global,
    tables: &mut Tables,
    disk: &mut MemoryDisk,
    forward: bool,
    most: u32,
) -> Option<String>
    requires { AreReady (state_of disk.old) tables.old }
{
    let _ = tables.table("Tab")?;
    let whole = KeyRange {
        from: Bytes::from_vec(Vec::new(alloc)),
        to: None,
    };
    let mut items = Vec::new(alloc);
    tables
        .rows(disk, "Tab", None, &whole, forward, most, &mut items)
        .ok()?;
    keys_of(alloc, &items)
}

// The same of a store that is made for it.
fn walk(alloc: Global, forward: bool, most: u32) -> Option<String> {
    let mut disk = empty(alloc)?;
    let mut tables = opened(alloc, &mut disk)?;
    for request in &ITEMS {
        let _ = asked(alloc, &mut tables, &mut disk, request)?;
    }
    walked(alloc, &mut tables, &mut disk, forward, most)
}

// The tokens, which `sha256sum` tells: e 454cd6984dcac039, c 57985d5f20bb0b84, a b98e9326c737b541, b db0a68f998ac7562, d e02f4d442802424f.
#[test]
fn a_walk_goes_by_the_tokens_and_ends_at_so_many(rt: HostRuntime) {
    let walks = [
        (true, 9, "ecabd"),
        (true, 2, "ec"),
        (true, 0, ""),
        (false, 9, "dbace"),
        (false, 3, "dba"),
    ];
    for (forward, most, keys) in &walks {
        assert!(rt;
            walk(rt.alloc(), *forward, *most).is_some_and(|found| found.as_str() == *keys),
            "forward {forward}, at most {most}"
        );
    }
}
