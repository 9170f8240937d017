//! What names of AttributesToGet show of an item.

use crate::tests::given::{ITEM, is_written, item};
use alt_expr::Paths;
use alt_legacy::{LegacyFault, names_of};
use alt_projection::project;
use serde_json::Value;
use std::alloc::Global;

/// Names, and what they show.
type Row = (&'static str, Result<&'static str, LegacyFault>);

static ROWS: [Row; 11] = [
    (r#"["n"]"#, Ok(r#"{"n":{"N":"5"}}"#)),
    (r#"["t","n"]"#, Ok(r#"{"n":{"N":"5"},"t":{"BOOL":true}}"#)),
    (r#"["none","n"]"#, Ok(r#"{"n":{"N":"5"}}"#)),
    (r#"["none"]"#, Ok(r#"{}"#)),
    (r#"["m.a"]"#, Ok(r#"{}"#)),
    (r#"["m"]"#, Ok(r#"{"m":{"M":{"a":{"N":"1"}}}}"#)),
    (r#"[]"#, Err(LegacyFault::Bad)),
    (r#"[""]"#, Err(LegacyFault::Bad)),
    (r#"["n",""]"#, Err(LegacyFault::Bad)),
    (r#"["n","n"]"#, Err(LegacyFault::Bad)),
    (r#"["a","b","a"]"#, Err(LegacyFault::Bad)),
];

fn paths(alloc: Global, names: &str) -> Result<Paths, LegacyFault> {
    match Value::from_str(alloc, names) {
        Ok(read) => names_of(alloc, &read),
        Err(_) => Err(LegacyFault::NoMemory),
    }
}

fn shows(alloc: Global, paths: &Paths, want: &str) -> bool {
    let Some(item) = item(alloc, ITEM) else {
        return false;
    };
    match project(alloc, paths, &item) {
        Ok(shown) => is_written(alloc, &shown, want),
        Err(_) => false,
    }
}

fn is_row(alloc: Global, row: &Row) -> bool {
    match paths(alloc, row.0) {
        Ok(paths) => match row.1 {
            Ok(want) => shows(alloc, &paths, want),
            Err(_) => false,
        },
        Err(found) => match row.1 {
            Ok(_) => false,
            Err(fault) => found == fault,
        },
    }
}

#[test]
fn names_show_whole_attributes(rt: HostRuntime) {
    for row in &ROWS {
        assert!(rt; is_row(rt.alloc(), row), "{}", row.0);
    }
}
