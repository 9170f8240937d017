//! Sets of texts, numbers and byte strings: members in value order, and two sets put together or parted.

use alt_codec::attr_of_json;
use alt_decimal::Decimal;
use alt_fields::Bytes;
use alt_value::{Attr, BytesSet, NumberSet, Text, TextSet, equal};
use serde_json::Value;
use std::alloc::Global;

fn number(text: &str) -> Option<Decimal> {
    Decimal::parse(text.as_bytes()).ok()
}

fn texts_rise(alloc: Global) -> bool {
    let mut texts = TextSet::new(alloc);
    let (Ok(true), Ok(true), Ok(false)) = (texts.add("b"), texts.add("a"), texts.add("b")) else {
        return false;
    };
    let Some(first) = texts.get(0) else {
        return false;
    };
    let Ok(copied) = texts.copy() else {
        return false;
    };
    (first == "a")
        & (texts.len() == 2)
        & (copied.len() == 2)
        & texts.contains("b")
        & !texts.contains("ab")
}

fn numbers_rise(alloc: Global) -> bool {
    let (Some(two), Some(ten)) = (number("2"), number("1e1")) else {
        return false;
    };
    let mut numbers = NumberSet::new(alloc);
    let (Ok(true), Ok(true), Ok(false)) = (numbers.add(&ten), numbers.add(&two), numbers.add(&ten))
    else {
        return false;
    };
    let Some(last) = numbers.get(1) else {
        return false;
    };
    (last == ten) & numbers.has(&two)
}

fn byte_strings_rise(alloc: Global) -> bool {
    let mut binaries = BytesSet::new(alloc);
    let (Ok(true), Ok(true)) = (binaries.add(b"\x80"), binaries.add(b"\x7f")) else {
        return false;
    };
    let Some(first) = binaries.get(0) else {
        return false;
    };
    (first == b"\x7f".as_slice()) & binaries.get(2).is_none()
}

#[test]
fn sets_keep_their_members_in_value_order(rt: HostRuntime) {
    assert!(rt; texts_rise(rt.alloc()));
    assert!(rt; numbers_rise(rt.alloc()));
    assert!(rt; byte_strings_rise(rt.alloc()));
}

fn four_texts(alloc: Global) -> Option<TextSet> {
    let mut texts = Vec::new(alloc);
    for text in ["b", "ab", "", "a"] {
        let Ok(text) = Text::new(alloc, text) else {
            return None;
        };
        let Ok(()) = texts.push(text) else {
            return None;
        };
    }
    TextSet::from_members(texts)
}

fn texts_are_gathered(alloc: Global) -> bool {
    let Some(set) = four_texts(alloc) else {
        return false;
    };
    let Some(third) = set.get(2) else {
        return false;
    };
    (set.len() == 4) & (third == "ab")
}

fn equal_numbers_are_no_set(alloc: Global) -> bool {
    let mut numbers = Vec::new(alloc);
    for text in ["1", "2", "1.0"] {
        let Some(number) = number(text) else {
            return false;
        };
        let Ok(()) = numbers.push(number) else {
            return false;
        };
    }
    NumberSet::from_members(numbers).is_none()
}

fn byte_strings_are_gathered(alloc: Global) -> bool {
    let mut binaries = Vec::new(alloc);
    for bytes in [b"\x80".as_slice(), b"\x7f"] {
        let Ok(bytes) = Bytes::new(alloc, bytes) else {
            return false;
        };
        let Ok(()) = binaries.push(bytes) else {
            return false;
        };
    }
    let Some(set) = BytesSet::from_members(binaries) else {
        return false;
    };
    let Some(first) = set.get(0) else {
        return false;
    };
    first == b"\x7f".as_slice()
}

#[test]
fn members_in_any_order_are_a_set_where_none_is_twice(rt: HostRuntime) {
    assert!(rt; texts_are_gathered(rt.alloc()));
    assert!(rt; equal_numbers_are_no_set(rt.alloc()));
    assert!(rt; byte_strings_are_gathered(rt.alloc()));
}

fn value(alloc: Global, text: &str) -> Option<Attr> {
    let Ok(v) = Value::from_str(alloc, text) else {
        return None;
    };
    attr_of_json(alloc, &v).ok()
}

// Two sets, both together, and the first without the second.
static TOGETHER: [(&str, &str, &str, &str); 5] = [
    (
        r#"{"SS":["a","c"]}"#,
        r#"{"SS":["b","c"]}"#,
        r#"{"SS":["a","b","c"]}"#,
        r#"{"SS":["a"]}"#,
    ),
    (
        r#"{"SS":["b","d"]}"#,
        r#"{"SS":["a"]}"#,
        r#"{"SS":["a","b","d"]}"#,
        r#"{"SS":["b","d"]}"#,
    ),
    (
        r#"{"NS":["1","10","2"]}"#,
        r#"{"NS":["2.0","3"]}"#,
        r#"{"NS":["1","2","3","10"]}"#,
        r#"{"NS":["1","10"]}"#,
    ),
    (
        r#"{"BS":["AA==","/w=="]}"#,
        r#"{"BS":["AAA=","/w=="]}"#,
        r#"{"BS":["AA==","AAA=","/w=="]}"#,
        r#"{"BS":["AA=="]}"#,
    ),
    (
        r#"{"BS":["AA==","Ag=="]}"#,
        r#"{"BS":["AQ=="]}"#,
        r#"{"BS":["AA==","AQ==","Ag=="]}"#,
        r#"{"BS":["AA==","Ag=="]}"#,
    ),
];

fn union_of(a: &Attr, b: &Attr) -> Option<Attr> {
    match (a, b) {
        (Attr::Ss(a), Attr::Ss(b)) => match a.union(b) {
            Ok(set) => Some(Attr::Ss(set)),
            Err(_) => None,
        },
        (Attr::Ns(a), Attr::Ns(b)) => match a.union(b) {
            Ok(set) => Some(Attr::Ns(set)),
            Err(_) => None,
        },
        (Attr::Bs(a), Attr::Bs(b)) => match a.union(b) {
            Ok(set) => Some(Attr::Bs(set)),
            Err(_) => None,
        },
        _ => None,
    }
}

fn rest_of(a: &Attr, b: &Attr) -> Option<Attr> {
    match (a, b) {
        (Attr::Ss(a), Attr::Ss(b)) => match a.without(b) {
            Ok(set) => Some(Attr::Ss(set)),
            Err(_) => None,
        },
        (Attr::Ns(a), Attr::Ns(b)) => match a.without(b) {
            Ok(set) => Some(Attr::Ns(set)),
            Err(_) => None,
        },
        (Attr::Bs(a), Attr::Bs(b)) => match a.without(b) {
            Ok(set) => Some(Attr::Bs(set)),
            Err(_) => None,
        },
        _ => None,
    }
}

fn go_together(alloc: Global, a: &str, b: &str, both: &str) -> bool {
    let (Some(a), Some(b), Some(both)) = (value(alloc, a), value(alloc, b), value(alloc, both))
    else {
        return false;
    };
    let Some(found) = union_of(&a, &b) else {
        return false;
    };
    equal(&found, &both)
}

fn are_parted(alloc: Global, a: &str, b: &str, rest: &str) -> bool {
    let (Some(a), Some(b), Some(rest)) = (value(alloc, a), value(alloc, b), value(alloc, rest))
    else {
        return false;
    };
    let Some(found) = rest_of(&a, &b) else {
        return false;
    };
    equal(&found, &rest)
}

#[test]
fn two_sets_unite_and_part(rt: HostRuntime) {
    for (a, b, both, rest) in &TOGETHER {
        assert!(rt; go_together(rt.alloc(), a, b, both), "{a} and {b}");
        assert!(rt; are_parted(rt.alloc(), a, b, rest), "{a} without {b}");
    }
}
