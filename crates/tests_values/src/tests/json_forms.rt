//! Worked values and their faults, nesting on both sides of its limit, an item, and values written as JSON and as its text.

use alt_codec::{ValueFault, attr_of_json, item_of_json, json_of_attr, json_of_item, write_item};
use alt_decimal::NumberFault;
use alt_value::depth_within;
use json::Writer;
use serde_json::Value;
use std::alloc::Global;

static FAULTY: [(&str, ValueFault); 26] = [
    (r#"{"SS":["x","x"]}"#, ValueFault::RepeatInSet),
    (r#"{"SS":["x","x",1]}"#, ValueFault::RepeatInSet),
    (r#"{"SS":["x",1,"x"]}"#, ValueFault::WrongJson),
    (r#"{"NS":["1","1.0"]}"#, ValueFault::RepeatInSet),
    (r#"{"SS":[]}"#, ValueFault::EmptySet),
    (r#"{"NULL":false}"#, ValueFault::NullNotTrue),
    (r#"{"S":"x","N":"1"}"#, ValueFault::NotOneMember),
    (r#"{"S":null}"#, ValueFault::NotOneMember),
    (r#"{}"#, ValueFault::NotOneMember),
    // A value is an object, and no other JSON.
    (r#""a""#, ValueFault::WrongJson),
    ("null", ValueFault::WrongJson),
    ("true", ValueFault::WrongJson),
    ("1", ValueFault::WrongJson),
    (r#"[{"S":"a"}]"#, ValueFault::WrongJson),
    (r#"{"L":["a"]}"#, ValueFault::WrongJson),
    (r#"{"S":1}"#, ValueFault::WrongJson),
    (r#"{"X":1}"#, ValueFault::UnknownKind),
    (
        r#"{"N":"1E"}"#,
        ValueFault::BadNumber(NumberFault::NotANumber),
    ),
    (
        r#"{"N":"1E+126"}"#,
        ValueFault::BadNumber(NumberFault::TooLarge),
    ),
    (r#"{"B":"A"}"#, ValueFault::BadBase64),
    (r#"{"B":"AA"}"#, ValueFault::BadBase64),
    (r#"{"B":"AB=="}"#, ValueFault::BadBase64),
    (r#"{"M":{"":5}}"#, ValueFault::EmptyName),
    (r#"{"M":{"a":null}}"#, ValueFault::WrongJson),
    (r#"{"M":{"a":{"SS":[]},"b":{"X":1}}}"#, ValueFault::EmptySet),
    (
        r#"{"L":[{"L":[{"BS":["AA==","AA=="]}]},5]}"#,
        ValueFault::RepeatInSet,
    ),
];

fn has_fault(alloc: Global, text: &str, fault: ValueFault) -> bool {
    let Ok(v) = Value::from_str(alloc, text) else {
        return false;
    };
    let Err(found) = attr_of_json(alloc, &v) else {
        return false;
    };
    found == fault
}

#[test]
fn each_value_has_its_one_fault(rt: HostRuntime) {
    for (text, fault) in &FAULTY {
        assert!(rt; has_fault(rt.alloc(), text, *fault), "{text}");
    }
}

// So many lists in one another, around a text.
fn nested(alloc: Global, inner: &str, levels: u32) -> Option<Value> {
    let mut text = String::new(alloc);
    for _ in 0..levels {
        let Ok(()) = text.push_str(r#"{"L":["#) else {
            return None;
        };
    }
    let Ok(()) = text.push_str(inner) else {
        return None;
    };
    for _ in 0..levels {
        let Ok(()) = text.push_str("]}") else {
            return None;
        };
    }
    Value::from_str(alloc, text.as_str()).ok()
}

fn nests_32_deep(alloc: Global) -> bool {
    let Some(v) = nested(alloc, r#"{"L":[]}"#, 31) else {
        return false;
    };
    let Ok(deep) = attr_of_json(alloc, &v) else {
        return false;
    };
    depth_within(&deep, 32) & !depth_within(&deep, 31)
}

// What stands within 32 lists.
static TOO_DEEP: [(&str, ValueFault); 2] = [
    (r#"{"M":{}}"#, ValueFault::TooDeep),
    (r#"{"L":5}"#, ValueFault::WrongJson),
];

fn has_deep_fault(alloc: Global, inner: &str, fault: ValueFault) -> bool {
    let Some(v) = nested(alloc, inner, 32) else {
        return false;
    };
    let Err(found) = attr_of_json(alloc, &v) else {
        return false;
    };
    found == fault
}

#[test]
fn lists_nest_32_deep_and_no_deeper(rt: HostRuntime) {
    assert!(rt; nests_32_deep(rt.alloc()));
    for (inner, fault) in &TOO_DEEP {
        assert!(rt; has_deep_fault(rt.alloc(), inner, *fault), "{inner}");
    }
}

fn an_item_of_three(alloc: Global) -> bool {
    let text = r#"{"n":{"N":"-0012.500E1"},"k":{"S":"a"},"b":{"BS":["Ag==","AAH/"]}}"#;
    let Ok(v) = Value::from_str(alloc, text) else {
        return false;
    };
    let Ok(item) = item_of_json(alloc, &v) else {
        return false;
    };
    let Some((name, _)) = item.at(0) else {
        return false;
    };
    (item.len() == 3) & (name == "b")
}

static NO_ITEMS: [(&str, ValueFault); 3] = [
    (r#"{"":{"S":"a"}}"#, ValueFault::EmptyName),
    ("[]", ValueFault::WrongJson),
    (r#"{"a":"text"}"#, ValueFault::WrongJson),
];

fn is_no_item(alloc: Global, text: &str, fault: ValueFault) -> bool {
    let Ok(v) = Value::from_str(alloc, text) else {
        return false;
    };
    let Err(found) = item_of_json(alloc, &v) else {
        return false;
    };
    found == fault
}

#[test]
fn an_item_is_read(rt: HostRuntime) {
    assert!(rt; an_item_of_three(rt.alloc()));
    for (text, fault) in &NO_ITEMS {
        assert!(rt; is_no_item(rt.alloc(), text, *fault), "{text}");
    }
}

// A null member counts as absent; sets are written in value order, numbers in plain notation.
static WRITTEN: [(&str, &str); 3] = [
    (r#"{"S":"a","N":null}"#, r#"{"S":"a"}"#),
    (r#"{"SS":["b","a"]}"#, r#"{"SS":["a","b"]}"#),
    (
        r#"{"L":[{"NS":["10","9.0"]},{"NULL":true}]}"#,
        r#"{"L":[{"NS":["9","10"]},{"NULL":true}]}"#,
    ),
];

fn is_written(alloc: Global, text: &str, want: &str) -> bool {
    let Ok(v) = Value::from_str(alloc, text) else {
        return false;
    };
    let Ok(a) = attr_of_json(alloc, &v) else {
        return false;
    };
    let Ok(json) = json_of_attr(alloc, &a) else {
        return false;
    };
    let Ok(written) = json.to_string(alloc) else {
        return false;
    };
    written.as_str() == want
}

fn item_is_written(alloc: Global, text: &str, want: &str) -> bool {
    let Ok(v) = Value::from_str(alloc, text) else {
        return false;
    };
    let Ok(item) = item_of_json(alloc, &v) else {
        return false;
    };
    let Ok(json) = json_of_item(alloc, &item) else {
        return false;
    };
    let Ok(written) = json.to_string(alloc) else {
        return false;
    };
    written.as_str() == want
}

#[test]
fn values_are_written(rt: HostRuntime) {
    for (text, want) in &WRITTEN {
        assert!(rt; is_written(rt.alloc(), text, want), "{text}");
    }
    assert!(rt;
        item_is_written(
            rt.alloc(),
            r#"{"n":{"N":"-0012.500E1"},"l":{"L":[{"NS":["10","9.0"]},{"NULL":true}]},"b":{"BS":["Ag==","AAH/"]}}"#,
            r#"{"b":{"BS":["AAH/","Ag=="]},"l":{"L":[{"NS":["9","10"]},{"NULL":true}]},"n":{"N":"-125"}}"#
        )
    );
}

// Items, and the text that they are written as: each of the ten kinds, and characters that JSON escapes.
static TEXTS: [(&str, &str); 14] = [
    (r#"{}"#, r#"{}"#),
    (r#"{"a":{"S":"x\"y"}}"#, r#"{"a":{"S":"x\"y"}}"#),
    (
        r#"{"b\\":{"S":""},"a":{"S":"\u00e9"}}"#,
        r#"{"a":{"S":"é"},"b\\":{"S":""}}"#,
    ),
    (r#"{"a":{"N":"-0012.500E1"}}"#, r#"{"a":{"N":"-125"}}"#),
    (r#"{"a":{"B":"AAH/"}}"#, r#"{"a":{"B":"AAH/"}}"#),
    (r#"{"a":{"BOOL":true}}"#, r#"{"a":{"BOOL":true}}"#),
    (r#"{"a":{"BOOL":false}}"#, r#"{"a":{"BOOL":false}}"#),
    (r#"{"a":{"NULL":true}}"#, r#"{"a":{"NULL":true}}"#),
    (r#"{"a":{"SS":["b","a"]}}"#, r#"{"a":{"SS":["a","b"]}}"#),
    (r#"{"a":{"NS":["10","9.0"]}}"#, r#"{"a":{"NS":["9","10"]}}"#),
    (
        r#"{"a":{"BS":["Ag==","AAH/"]}}"#,
        r#"{"a":{"BS":["AAH/","Ag=="]}}"#,
    ),
    (r#"{"a":{"L":[]}}"#, r#"{"a":{"L":[]}}"#),
    (
        r#"{"a":{"L":[{"S":"x"},{"L":[{"NULL":true}]}]}}"#,
        r#"{"a":{"L":[{"S":"x"},{"L":[{"NULL":true}]}]}}"#,
    ),
    (
        r#"{"a":{"M":{"c":{"N":"1"},"b":{"M":{}}}}}"#,
        r#"{"a":{"M":{"b":{"M":{}},"c":{"N":"1"}}}}"#,
    ),
];

fn has_text(alloc: Global, text: &str, want: &str) -> bool {
    let Ok(v) = Value::from_str(alloc, text) else {
        return false;
    };
    let Ok(item) = item_of_json(alloc, &v) else {
        return false;
    };
    let mut out = Writer::new(Vec::new(alloc));
    let Ok(()) = write_item(alloc, &mut out, &item) else {
        return false;
    };
    out.into_inner().as_slice() == want.as_bytes()
}

#[test]
fn items_are_written_as_text(rt: HostRuntime) {
    for (text, want) in &TEXTS {
        assert!(rt; has_text(rt.alloc(), text, want), "{text}");
    }
}
