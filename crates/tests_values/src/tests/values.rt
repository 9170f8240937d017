//! Sizes, depths and orders as the documents tell them, and each call of an item once on its happy path.

use alt_codec::{attr_of_json, item_of_json};
use alt_value::{
    Attr, AttrList, Item, ItemBuilder, Text, copy, depth_within, equal, item_equal,
    item_size_within, order, size_within,
};
use serde_json::Value;
use std::alloc::Global;

fn value(alloc: Global, text: &str) -> Option<Attr> {
    let Ok(v) = Value::from_str(alloc, text) else {
        return None;
    };
    attr_of_json(alloc, &v).ok()
}

const SMALL_ITEM: &str = r#"{"l":{"L":[{"N":"1"},{"BOOL":true}]},"k":{"S":"a"}}"#;

fn small_item(alloc: Global) -> Option<Item> {
    let Ok(v) = Value::from_str(alloc, SMALL_ITEM) else {
        return None;
    };
    item_of_json(alloc, &v).ok()
}

// A value and its size.
static SIZES: [(&str, u64); 5] = [
    (r#"{"M":{"x":{"NULL":true}}}"#, 6),
    (r#"{"N":"12345678901234567890123456789012345678"}"#, 20),
    (
        r#"{"M":{"l":{"L":[{"N":"1"},{"BOOL":true}]},"k":{"S":"a"}}}"#,
        16,
    ),
    (r#"{"SS":["a","bc"]}"#, 3),
    (r#"{"L":[]}"#, 3),
];

fn has_size(alloc: Global, text: &str, size: u64) -> bool {
    let Some(a) = value(alloc, text) else {
        return false;
    };
    (size_within(&a, size) == Some(size))
        & (size_within(&a, 409_600) == Some(size))
        & (size_within(&a, size.saturating_sub(1)) == None)
}

fn item_has_size_11(alloc: Global) -> bool {
    let Some(item) = small_item(alloc) else {
        return false;
    };
    (item_size_within(&item, 11) == Some(11)) & (item_size_within(&item, 10) == None)
}

#[test]
fn sizes_are_those_of_the_table(rt: HostRuntime) {
    assert!(rt; item_has_size_11(rt.alloc()));
    for (text, size) in &SIZES {
        assert!(rt; has_size(rt.alloc(), text, *size), "{text}");
    }
}

// A value and its depth.
static DEPTHS: [(&str, u32); 4] = [
    (r#"{"L":[]}"#, 1),
    (
        r#"{"M":{"l":{"L":[{"N":"1"},{"BOOL":true}]},"k":{"S":"a"}}}"#,
        2,
    ),
    (r#"{"NULL":true}"#, 0),
    (r#"{"SS":["a"]}"#, 0),
];

fn has_depth(alloc: Global, text: &str, depth: u32) -> bool {
    let Some(a) = value(alloc, text) else {
        return false;
    };
    depth_within(&a, depth) & ((depth == 0) | !depth_within(&a, depth.saturating_sub(1)))
}

#[test]
fn a_list_is_one_deeper_than_its_elements(rt: HostRuntime) {
    for (text, depth) in &DEPTHS {
        assert!(rt; has_depth(rt.alloc(), text, *depth), "{text}");
    }
}

fn a_name_has_one_value(alloc: Global) -> bool {
    let Some(mut item) = small_item(alloc) else {
        return false;
    };
    let Ok(()) = item.put("k", Attr::Null) else {
        return false;
    };
    let (Some((name, _)), Some(a)) = (item.at(0), item.get("k")) else {
        return false;
    };
    (item.len() == 2) & (name == "k") & equal(a, &Attr::Null) & item.at(2).is_none()
}

fn a_name_is_removed_once(alloc: Global) -> bool {
    let Some(mut item) = small_item(alloc) else {
        return false;
    };
    let Ok(copied) = item.copy() else {
        return false;
    };
    let same = item_equal(&item, &copied);
    let there = item.remove("l").is_some();
    let gone = item.remove("l").is_none();
    same & there & gone & !item_equal(&item, &copied)
}

#[test]
fn items_hold_one_value_a_name_in_name_order(rt: HostRuntime) {
    assert!(rt; a_name_has_one_value(rt.alloc()));
    assert!(rt; a_name_is_removed_once(rt.alloc()));
}

// How far the next of 101 names is behind the one before: names that rise, that fall, and that come in no order. 202 pairs have each
// name twice.
static STEPS: [u64; 4] = [1, 100, 37, 50];

fn the_last_of_a_name_counts(alloc: Global, step: u64) -> bool {
    let mut builder = ItemBuilder::new(alloc);
    let mut item = Item::new(alloc);
    for turn in 0..202_u64 {
        let at = turn.wrapping_mul(step) % 101;
        let Ok(name) = format!(in alloc; "name {at}") else {
            return false;
        };
        if name.is_empty() {
            return false;
        }
        let last = turn > 100;
        let Ok(()) = builder.put(name.as_str(), Attr::Bool(last)) else {
            return false;
        };
        let Ok(()) = item.put(name.as_str(), Attr::Bool(true)) else {
            return false;
        };
    }
    let Ok(made) = builder.into_item() else {
        return false;
    };
    (made.len() == 101) & item_equal(&made, &item)
}

#[test]
fn pairs_in_any_order_make_an_item(rt: HostRuntime) {
    for step in &STEPS {
        assert!(rt; the_last_of_a_name_counts(rt.alloc(), *step), "{step}");
    }
}

fn a_list_keeps_its_order(alloc: Global) -> bool {
    let mut list = AttrList::new(alloc);
    let Ok(text) = Text::new(alloc, "a") else {
        return false;
    };
    let Ok(()) = list.push(Attr::S(text)) else {
        return false;
    };
    let Ok(()) = list.push(Attr::Null) else {
        return false;
    };
    let Some(second) = list.get(1) else {
        return false;
    };
    (list.len() == 2) & equal(second, &Attr::Null) & list.get(2).is_none()
}

#[test]
fn lists_hold_their_elements_in_order(rt: HostRuntime) {
    assert!(rt; a_list_keeps_its_order(rt.alloc()));
}

// Where the first is below the second -1, where it is the same 0, where it is above 1.
static ORDERED: [(&str, &str, i8); 5] = [
    (r#"{"N":"9"}"#, r#"{"N":"10.0"}"#, -1),
    (r#"{"B":"gA=="}"#, r#"{"B":"fw=="}"#, 1),
    (r#"{"S":"b"}"#, r#"{"S":"ab"}"#, 1),
    (r#"{"N":"1.0"}"#, r#"{"N":"1"}"#, 0),
    (r#"{"S":"é"}"#, r#"{"S":"z"}"#, 1),
];

fn is_ordered(alloc: Global, a: &str, b: &str, want: i8) -> bool {
    let (Some(a), Some(b)) = (value(alloc, a), value(alloc, b)) else {
        return false;
    };
    let Some(found) = order(&a, &b) else {
        return false;
    };
    (found.is_lt() == (want < 0)) & (found.is_gt() == (want > 0)) & (equal(&a, &b) == (want == 0))
}

static UNORDERED: [(&str, &str); 2] = [
    (r#"{"N":"9"}"#, r#"{"B":"fw=="}"#),
    (r#"{"NULL":true}"#, r#"{"NULL":true}"#),
];

fn has_no_order(alloc: Global, a: &str, b: &str) -> bool {
    let (Some(a), Some(b)) = (value(alloc, a), value(alloc, b)) else {
        return false;
    };
    order(&a, &b).is_none()
}

#[test]
fn values_of_one_kind_are_ordered(rt: HostRuntime) {
    for (a, b, want) in &ORDERED {
        assert!(rt; is_ordered(rt.alloc(), a, b, *want), "{a} and {b}");
    }
    for (a, b) in &UNORDERED {
        assert!(rt; has_no_order(rt.alloc(), a, b), "{a} and {b}");
    }
}

// Sets are equal in any order, numbers by value, lists and maps through every level.
static EQUAL: [(&str, &str, bool); 5] = [
    (r#"{"SS":["a","b"]}"#, r#"{"SS":["b","a"]}"#, true),
    (r#"{"NS":["1","2"]}"#, r#"{"NS":["2.0","1"]}"#, true),
    (r#"{"L":[{"N":"1"}]}"#, r#"{"L":[{"N":"1.0"}]}"#, true),
    (
        r#"{"L":[{"S":"a"},{"S":"b"}]}"#,
        r#"{"L":[{"S":"b"},{"S":"a"}]}"#,
        false,
    ),
    (r#"{"S":"1"}"#, r#"{"N":"1"}"#, false),
];

fn copies_are_equal(alloc: Global, a: &str, b: &str, want: bool) -> bool {
    let (Some(a), Some(b)) = (value(alloc, a), value(alloc, b)) else {
        return false;
    };
    let Ok(copied) = copy(&a) else {
        return false;
    };
    equal(&a, &copied) & (equal(&copied, &b) == want)
}

#[test]
fn equal_values_are_one_value(rt: HostRuntime) {
    for (a, b, want) in &EQUAL {
        assert!(rt; copies_are_equal(rt.alloc(), a, b, *want), "{a} and {b}");
    }
}
