//! Items after entries of AttributeUpdates (API Reference, "UpdateItem", AttributeUpdates).

ghost use Rattle.std.specs.Prelude.{◌≡◌, true, IfOk};
ghost use Rattle.alt_expr.specs.UpdateLanguage.{begin_with_names};

use crate::tests::given::{is_written, item};
use alt_decimal::NumberFault;
use alt_expr::Update;
use alt_legacy::{LegacyFault, update_of};
use alt_updeval::{AttrChange, UpdateFault, changed};
use alt_value::{Attr, Item};
use serde_json::Value;
use std::alloc::Global;

/// Why there is no item: the entries aren't of the form, or one of them is refused.
#[derive(Clone, Copy)]
enum Found {
    Bad,
    Fault(UpdateFault),
}

const BEFORE: &str = r#"{"n":{"N":"5"},"s":{"S":"x"},"ss":{"SS":["a","b"]}}"#;

/// An item, entries, and the item after them.
type Row = (&'static str, &'static str, Result<&'static str, Found>);

static ROWS: [Row; 26] = [
    (
        BEFORE,
        r#"{"n":{"Action":"ADD","Value":{"N":"2"}}}"#,
        Ok(r#"{"n":{"N":"7"},"s":{"S":"x"},"ss":{"SS":["a","b"]}}"#),
    ),
    (
        BEFORE,
        r#"{"n":{"Value":{"BOOL":true}},"new":{"Action":"PUT","Value":{"L":[]}}}"#,
        Ok(r#"{"n":{"BOOL":true},"new":{"L":[]},"s":{"S":"x"},"ss":{"SS":["a","b"]}}"#),
    ),
    (
        BEFORE,
        r#"{"count":{"Action":"ADD","Value":{"N":"-1.50"}}}"#,
        Ok(r#"{"count":{"N":"-1.5"},"n":{"N":"5"},"s":{"S":"x"},"ss":{"SS":["a","b"]}}"#),
    ),
    (
        BEFORE,
        r#"{"ss":{"Action":"ADD","Value":{"SS":["c","b"]}},"ns":{"Action":"ADD","Value":{"NS":["1"]}}}"#,
        Ok(r#"{"n":{"N":"5"},"ns":{"NS":["1"]},"s":{"S":"x"},"ss":{"SS":["a","b","c"]}}"#),
    ),
    (
        BEFORE,
        r#"{"n":{"Action":"DELETE"},"none":{"Action":"DELETE"}}"#,
        Ok(r#"{"s":{"S":"x"},"ss":{"SS":["a","b"]}}"#),
    ),
    (
        BEFORE,
        r#"{"ss":{"Action":"DELETE","Value":{"SS":["b","z"]}},"none":{"Action":"DELETE","Value":{"NS":["1"]}}}"#,
        Ok(r#"{"n":{"N":"5"},"s":{"S":"x"},"ss":{"SS":["a"]}}"#),
    ),
    (
        BEFORE,
        r#"{"ss":{"Action":"DELETE","Value":{"SS":["b","a"]}}}"#,
        Ok(r#"{"n":{"N":"5"},"s":{"S":"x"}}"#),
    ),
    (
        BEFORE,
        r#"{"n":{"Action":"DELETE","Value":null}}"#,
        Ok(r#"{"s":{"S":"x"},"ss":{"SS":["a","b"]}}"#),
    ),
    (
        BEFORE,
        r##"{"m.c":{"Value":{"N":"1"}},"#n":{"Value":{"N":"2"}}}"##,
        Ok(
            r##"{"#n":{"N":"2"},"m.c":{"N":"1"},"n":{"N":"5"},"s":{"S":"x"},"ss":{"SS":["a","b"]}}"##,
        ),
    ),
    (
        BEFORE,
        r#"{}"#,
        Ok(r#"{"n":{"N":"5"},"s":{"S":"x"},"ss":{"SS":["a","b"]}}"#),
    ),
    (
        BEFORE,
        r#"{"n":{"Action":"ADD","Value":{"NS":["1"]}}}"#,
        Err(Found::Fault(UpdateFault::BadKind)),
    ),
    (
        BEFORE,
        r#"{"s":{"Action":"ADD","Value":{"N":"1"}}}"#,
        Err(Found::Fault(UpdateFault::BadKind)),
    ),
    (
        BEFORE,
        r#"{"s":{"Action":"ADD","Value":{"S":"y"}}}"#,
        Err(Found::Fault(UpdateFault::BadKind)),
    ),
    (
        BEFORE,
        r#"{"none":{"Action":"ADD","Value":{"S":"y"}}}"#,
        Err(Found::Fault(UpdateFault::BadKind)),
    ),
    (
        BEFORE,
        r#"{"none":{"Action":"ADD","Value":{"L":[]}}}"#,
        Err(Found::Fault(UpdateFault::BadKind)),
    ),
    (
        BEFORE,
        r#"{"ss":{"Action":"DELETE","Value":{"NS":["1"]}}}"#,
        Err(Found::Fault(UpdateFault::BadKind)),
    ),
    (
        BEFORE,
        r#"{"n":{"Action":"DELETE","Value":{"NS":["5"]}}}"#,
        Err(Found::Fault(UpdateFault::BadKind)),
    ),
    (
        r#"{"a":{"N":"99999999999999999999999999999999999999"},"b":{"S":"x"}}"#,
        r#"{"b":{"Action":"ADD","Value":{"N":"1"}},"a":{"Action":"ADD","Value":{"N":"0.1"}}}"#,
        Err(Found::Fault(UpdateFault::BadNumber(NumberFault::TooManyDigits))),
    ),
    (
        r#"{"a":{"S":"x"},"b":{"N":"99999999999999999999999999999999999999"}}"#,
        r#"{"b":{"Action":"ADD","Value":{"N":"0.1"}},"a":{"Action":"ADD","Value":{"N":"1"}}}"#,
        Err(Found::Fault(UpdateFault::BadKind)),
    ),
    (BEFORE, r#"{"n":{"Action":"PUT"}}"#, Err(Found::Bad)),
    (BEFORE, r#"{"n":{}}"#, Err(Found::Bad)),
    (BEFORE, r#"{"n":{"Action":"ADD"}}"#, Err(Found::Bad)),
    (
        BEFORE,
        r#"{"n":{"Action":"DELETE","Value":{"N":"5"}}}"#,
        Err(Found::Bad),
    ),
    (
        BEFORE,
        r#"{"s":{"Action":"DELETE","Value":{"L":[]}}}"#,
        Err(Found::Bad),
    ),
    (BEFORE, r#"{"":{"Action":"DELETE"}}"#, Err(Found::Bad)),
    (
        BEFORE,
        r#"{"n":{"Value":{"N":"1"}},"z":{"Action":"ADD"}}"#,
        Err(Found::Bad),
    ),
];

/// The changes that an update makes of an item.
fn updated(alloc: Global, json: &str, update: &Update) -> Result<Item, UpdateFault>
    requires { begin_with_names update.now ≡ true }
{
    let Some(before) = item(alloc, json) else {
        return Err(UpdateFault::NoMemory);
    };
    let changes = changed(alloc, update, &before)?;
    with_changes(before, changes)
}

fn with_changes(before: Item, changes: Vec<AttrChange>) -> Result<Item, UpdateFault> {
    let mut item = before;
    for change in changes {
        make(&mut item, change)?;
    }
    Ok(item)
}

fn make(item: &mut Item, change: AttrChange) -> Result<(), UpdateFault> {
    let AttrChange { name, value } = change;
    match value {
        Some(value) => put(item, name.as_str(), value),
        None => {
            drop(item.remove(name.as_str()));
            Ok(())
        }
    }
}

fn put(item: &mut Item, name: &str, value: Attr) -> Result<(), UpdateFault> {
    if !name.is_empty() {
        item.put(name, value)?;
    }
    Ok(())
}

/// The update of entries. A text that can't be read counts as want of memory.
fn update(alloc: Global, entries: &str) -> Result<Update, LegacyFault>
    ensures { IfOk result (λ u. begin_with_names u ≡ true) }
{
    match Value::from_str(alloc, entries) {
        Ok(read) => update_of(alloc, &read),
        Err(_) => Err(LegacyFault::NoMemory),
    }
}

fn makes(alloc: Global, json: &str, update: &Update, want: Result<&str, Found>) -> bool
    requires { begin_with_names update.now ≡ true }
{
    match updated(alloc, json, update) {
        Ok(item) => match want {
            Ok(want) => is_written(alloc, &item, want),
            Err(_) => false,
        },
        Err(found) => match want {
            Err(Found::Fault(fault)) => found == fault,
            _ => false,
        },
    }
}

fn is_row(alloc: Global, row: &Row) -> bool {
    match update(alloc, row.1) {
        Ok(update) => makes(alloc, row.0, &update, row.2),
        Err(found) => found == LegacyFault::Bad && matches!(row.2, Err(Found::Bad)),
    }
}

#[test]
fn entries_make_an_item_name_by_name(rt: HostRuntime) {
    for row in &ROWS {
        assert!(rt; is_row(rt.alloc(), row), "{}", row.1);
    }
}
