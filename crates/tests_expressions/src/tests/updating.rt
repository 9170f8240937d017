//! Items after updates: the texts parsed, and the changes made.

ghost use Rattle.std.specs.Prelude.{◌≡◌, true, IfOk};
ghost use Rattle.alt_expr.specs.UpdateLanguage.{begin_with_names};

use crate::tests::given::{is_written, item, names, values};
use alt_expr::{ExprFault, Update};
use alt_updeval::{AttrChange, UpdateFault, changed};
use alt_updparse::parse;
use alt_value::{Attr, Item};
use std::alloc::Global;

static NAMES: &str = r##"{"#a":"a","#dotted":"m.b","#set":"set"}"##;

static VALUES: &str =
    r#"{":one":{"N":"1"},":two":{"N":"2"},":seven":{"N":"7"},":eight":{"N":"8.0"},":half":{"N":"0.5"},":x":{"S":"x"},":y":{"S":"y"},":bin":{"B":"AQ=="},":bool":{"BOOL":true},":null":{"NULL":true},":map":{"M":{}},":none":{"L":[]},":list":{"L":[{"N":"100"},{"S":"z"}]},":set":{"NS":["4","2.0"]},":three":{"NS":["1","2","3"]},":four":{"NS":["4"]},":b":{"SS":["b","c"]},":all":{"SS":["a","b"]},":bins":{"BS":["AQ==","Ag=="]},":both":{"BS":["Aw==","AQ=="]},":round":{"N":"1E37"},":wide":{"N":"1E38"},":big":{"N":"1E125"},":top":{"N":"9E125"},":nines":{"N":"9.9999999999999999999999999999999999999E125"},":least":{"N":"1E-130"},":less":{"N":"1.1E-130"},":l":{"L":[{"N":"100"},{"S":"z"}]},":n":{"N":"7"},":o":{"N":"0.5"},":s":{"S":"v"},":t":{"NS":["2","4"]},":u":{"SS":["b","c"]}}"#;

/// An item, an update, and the item after it; else the fault of the first refused action.
pub(crate) type Row = (
    &'static str,
    &'static str,
    Result<&'static str, UpdateFault>,
);

/// The actions of a text, else its first fault.
pub(crate) fn update(alloc: Global, text: &str) -> Result<Update, ExprFault>
    ensures { IfOk result (λ u. begin_with_names u ≡ true) }
{
    let Some(mut names) = names(alloc, NAMES) else {
        return Err(ExprFault::NoMemory);
    };
    let Some(mut values) = values(alloc, VALUES) else {
        return Err(ExprFault::NoMemory);
    };
    parse(alloc, text, &mut names, &mut values)
}

/// The item after an update, or why it is refused. A text that has a fault counts as want of memory.
fn after(alloc: Global, json: &str, text: &str) -> Result<Item, UpdateFault> {
    let Ok(update) = update(alloc, text) else {
        return Err(UpdateFault::NoMemory);
    };
    let Some(before) = item(alloc, json) else {
        return Err(UpdateFault::NoMemory);
    };
    let changes = changed(alloc, &update, &before)?;
    with_changes(before, changes)
}

fn with_changes(before: Item, changes: Vec<AttrChange>) -> Result<Item, UpdateFault> {
    let mut item = before;
    for change in changes {
        make(&mut item, change)?;
    }
    Ok(item)
}

fn make(item: &mut Item, change: AttrChange) -> Result<(), UpdateFault> {
    let AttrChange { name, value } = change;
    match value {
        Some(value) => put(item, name.as_str(), value),
        None => {
            drop(item.remove(name.as_str()));
            Ok(())
        }
    }
}

fn put(item: &mut Item, name: &str, value: Attr) -> Result<(), UpdateFault> {
    if !name.is_empty() {
        item.put(name, value)?;
    }
    Ok(())
}

fn makes(alloc: Global, json: &str, text: &str, want: &str) -> bool {
    match after(alloc, json, text) {
        Ok(item) => is_written(alloc, &item, want),
        Err(_) => false,
    }
}

fn is_refused(alloc: Global, json: &str, text: &str, fault: UpdateFault) -> bool {
    match after(alloc, json, text) {
        Ok(_) => false,
        Err(found) => found == fault,
    }
}

/// Whether an update makes that of an item, or has that fault.
pub(crate) fn is_row(alloc: Global, row: &Row) -> bool {
    match row.2 {
        Ok(json) => makes(alloc, row.0, row.1, json),
        Err(fault) => is_refused(alloc, row.0, row.1, fault),
    }
}
