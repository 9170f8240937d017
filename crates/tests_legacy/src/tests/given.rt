//! Values and items of JSON texts.

use alt_codec::{item_of_json, json_of_item};
use alt_value::Item;
use serde_json::Value;
use std::alloc::Global;

/// An item that has an attribute of each kind, named by it.
pub(crate) static ITEM: &str =
    r#"{"s":{"S":"abc"},"n":{"N":"5"},"b":{"B":"AAH/"},"t":{"BOOL":true},"z":{"NULL":true},"ss":{"SS":["a","b"]},"ns":{"NS":["1","2"]},"bs":{"BS":["AQ==","Ag=="]},"l":{"L":[{"N":"1"},{"S":"x"}]},"m":{"M":{"a":{"N":"1"}}}}"#;

pub(crate) fn item(alloc: Global, json: &str) -> Option<Item> {
    let Ok(read) = Value::from_str(alloc, json) else {
        return None;
    };
    item_of_json(alloc, &read).ok()
}

/// Whether an item is written as that JSON.
pub(crate) fn is_written(alloc: Global, item: &Item, json: &str) -> bool {
    let Ok(written) = json_of_item(alloc, item) else {
        return false;
    };
    match written.to_string(alloc) {
        Ok(text) => text.as_str() == json,
        Err(_) => false,
    }
}
