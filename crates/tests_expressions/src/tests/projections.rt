//! Projections as texts: what they give of one worked item, and else their first fault.

use crate::tests::given::{is_written, item, names};
use alt_expr::{ExprFault, Paths};
use alt_projection::{Projection, parse, project};
use alt_value::Item;
use std::alloc::Global;

static ITEM: &str =
    r#"{"a":{"N":"1"},"l":{"L":[{"N":"1"},{"N":"2"},{"N":"3"}]},"m":{"M":{"b":{"L":[{"S":"x"},{"M":{"c":{"S":"y"}}}]},"d":{"NULL":true}}},"m.b":{"S":"dotted"},"set":{"SS":["p","q"]}}"#;

static NAMES: &str = r##"{"#m":"m","#dotted":"m.b","#set":"set","#a":"a","#b":"b"}"##;

/// A text, and what it gives; else its fault.
type Row = (&'static str, Result<&'static str, ExprFault>);

static ROWS: [Row; 42] = [
    ("l[2], l[0]", Ok(r#"{"l":{"L":[{"N":"1"},{"N":"3"}]}}"#)),
    ("l[0], l[2]", Ok(r#"{"l":{"L":[{"N":"1"},{"N":"3"}]}}"#)),
    ("l[2],l[3],l[99]", Ok(r#"{"l":{"L":[{"N":"3"}]}}"#)),
    ("l[3]", Ok("{}")),
    ("a", Ok(r#"{"a":{"N":"1"}}"#)),
    ("#a", Ok(r#"{"a":{"N":"1"}}"#)),
    ("k", Ok("{}")),
    ("a.b", Ok("{}")),
    ("a[0]", Ok("{}")),
    ("l.a", Ok("{}")),
    ("m[0]", Ok("{}")),
    ("#set", Ok(r#"{"set":{"SS":["p","q"]}}"#)),
    ("k, a", Ok(r#"{"a":{"N":"1"}}"#)),
    ("#dotted", Ok(r#"{"m.b":{"S":"dotted"}}"#)),
    ("#m.#b[0]", Ok(r#"{"m":{"M":{"b":{"L":[{"S":"x"}]}}}}"#)),
    (
        "m.b[1]",
        Ok(r#"{"m":{"M":{"b":{"L":[{"M":{"c":{"S":"y"}}}]}}}}"#),
    ),
    (
        "m.b[1].c",
        Ok(r#"{"m":{"M":{"b":{"L":[{"M":{"c":{"S":"y"}}}]}}}}"#),
    ),
    ("m.b[1].k", Ok("{}")),
    ("m.k, m.d", Ok(r#"{"m":{"M":{"d":{"NULL":true}}}}"#)),
    (
        "m.d, m.b[0]",
        Ok(r#"{"m":{"M":{"b":{"L":[{"S":"x"}]},"d":{"NULL":true}}}}"#),
    ),
    ("m . d", Ok(r#"{"m":{"M":{"d":{"NULL":true}}}}"#)),
    ("", Err(ExprFault::Syntax)),
    ("a,", Err(ExprFault::Syntax)),
    (",a", Err(ExprFault::Syntax)),
    ("a b", Err(ExprFault::Syntax)),
    ("set", Err(ExprFault::Syntax)),
    ("a.and", Err(ExprFault::Syntax)),
    ("a[1", Err(ExprFault::Syntax)),
    ("a[-1]", Err(ExprFault::Syntax)),
    ("a[1234567890]", Err(ExprFault::Syntax)),
    (":a", Err(ExprFault::Syntax)),
    ("(a)", Err(ExprFault::Syntax)),
    ("#none", Err(ExprFault::Undefined)),
    ("#none, a, a", Err(ExprFault::Undefined)),
    ("a, a", Err(ExprFault::Overlap)),
    ("a, k, #a", Err(ExprFault::Overlap)),
    ("a.b, a", Err(ExprFault::Overlap)),
    ("a, a[0]", Err(ExprFault::Overlap)),
    ("m.b[1], l, m.b", Err(ExprFault::Overlap)),
    ("m.b[1].c, l, m.b", Err(ExprFault::Overlap)),
    ("l[07], l[7]", Err(ExprFault::Overlap)),
    (
        "m.b, #dotted, #m[0], m1",
        Ok(r#"{"m":{"M":{"b":{"L":[{"S":"x"},{"M":{"c":{"S":"y"}}}]}}},"m.b":{"S":"dotted"}}"#),
    ),
];

fn parsed(alloc: Global, text: &str) -> Result<Paths, ExprFault> {
    let Some(mut names) = names(alloc, NAMES) else {
        return Err(ExprFault::NoMemory);
    };
    parse(alloc, text, &mut names)
}

fn chosen(alloc: Global, paths: &Paths) -> Option<Item> {
    let Some(item) = item(alloc, ITEM) else {
        return None;
    };
    project(alloc, paths, &item).ok()
}

fn gives(alloc: Global, paths: &Paths, json: &str) -> bool {
    match chosen(alloc, paths) {
        Some(part) => is_written(alloc, &part, json),
        None => false,
    }
}

/// The same of paths that were made ready for many items.
fn gives_ready(alloc: Global, paths: &Paths, json: &str) -> bool {
    let Some(item) = item(alloc, ITEM) else {
        return false;
    };
    let Ok(ready) = Projection::new(alloc, paths) else {
        return false;
    };
    match ready.of(alloc, &item) {
        Ok(part) => is_written(alloc, &part, json),
        Err(_) => false,
    }
}

fn is_row(alloc: Global, row: &Row) -> bool {
    match parsed(alloc, row.0) {
        Ok(paths) => match row.1 {
            Ok(json) => gives(alloc, &paths, json) && gives_ready(alloc, &paths, json),
            Err(_) => false,
        },
        Err(found) => match row.1 {
            Ok(_) => false,
            Err(fault) => found == fault,
        },
    }
}

#[test]
fn projections_give_parts_or_have_their_first_fault(rt: HostRuntime) {
    for row in &ROWS {
        assert!(rt; is_row(rt.alloc(), row), "{}", row.0);
    }
}
