//! Key parts, tokens and bounds as docs/formats/key-bytes.md shows them.

use alt_decimal::Decimal;
use alt_fields::Bytes;
use alt_keyorder::{KeyRange, after_all, key_part, part_order, take_part, token};
use alt_value::{Attr, KeyKind, Text};
use std::alloc::Global;
use std::cmp::Ordering;

/// Numbers and their key parts.
static NUMBERS: [(&[u8], &[u8]); 5] = [
    (b"9", b"\x03\x82\x5b\0"),
    (b"9.5", b"\x03\x82\x60\0"),
    (b"10", b"\x03\x83\x0b\0"),
    (b"1.05", b"\x03\x82\x0b\x33\0"),
    (b"-1", b"\x01\x7d\xf4\xff"),
];

fn number(text: &[u8]) -> Option<Attr> {
    match Decimal::parse(text) {
        Ok(number) => Some(Attr::N(number)),
        Err(_) => None,
    }
}

fn has_part(alloc: Global, value: &Attr, expected: &[u8]) -> bool {
    match value {
        Attr::S(_) | Attr::N(_) | Attr::B(_) => {
            let mut out = Vec::new(alloc);
            let Ok(()) = key_part(value, &mut out) else {
                return false;
            };
            out.as_slice() == expected
        }
        _ => false,
    }
}

fn number_has_part(alloc: Global, text: &[u8], expected: &[u8]) -> bool {
    let Some(value) = number(text) else {
        return false;
    };
    has_part(alloc, &value, expected)
}

#[test]
fn numbers_have_the_bytes_of_the_table(rt: HostRuntime) {
    for (text, bytes) in &NUMBERS {
        assert!(rt; number_has_part(rt.alloc(), text, bytes), "{text:?}");
    }
}

/// Binaries and their key parts.
static BINARIES: [(&[u8], &[u8]); 4] = [
    (b"", b"\0\0"),
    (b"ab", b"ab\0\0"),
    (b"\0c\0", b"\0\xffc\0\xff\0\0"),
    (b"\xff\0\xff", b"\xff\0\xff\xff\0\0"),
];

fn binary_has_part(alloc: Global, bytes: &[u8], expected: &[u8]) -> bool {
    let Ok(binary) = Bytes::new(alloc, bytes) else {
        return false;
    };
    has_part(alloc, &Attr::B(binary), expected)
}

#[test]
fn zeros_are_escaped_and_the_end_is_seen(rt: HostRuntime) {
    for (binary, bytes) in &BINARIES {
        assert!(rt; binary_has_part(rt.alloc(), binary, bytes), "{binary:?}");
    }
}

fn has_token(alloc: Global, text: &str, expected: u64) -> bool {
    let Ok(text) = Text::new(alloc, text) else {
        return false;
    };
    token(&Attr::S(text)) == expected
}

/// The SHA-256 of 01 0000000000000001 61 begins with these bytes.
#[test]
fn a_token_is_of_the_cell_bytes(rt: HostRuntime) {
    assert!(rt; has_token(rt.alloc(), "a", 0xb98e9326c737b541));
}

/// Two numbers, of which the first is the lesser one.
static RISING: [(&[u8], &[u8]); 4] = [
    (b"9", b"10"),
    (b"-10", b"-9"),
    (b"-1", b"0"),
    (b"1.05", b"1.5"),
];

fn rises(lower: &[u8], higher: &[u8]) -> bool {
    let (Some(lower), Some(higher)) = (number(lower), number(higher)) else {
        return false;
    };
    part_order(&lower, &higher) == Some(Ordering::Less)
        && part_order(&higher, &lower) == Some(Ordering::Greater)
        && part_order(&lower, &Attr::Null).is_none()
}

#[test]
fn parts_order_as_values_do(rt: HostRuntime) {
    for (lower, higher) in &RISING {
        assert!(rt; rises(lower, higher), "{lower:?} and {higher:?}");
    }
}

/// Prefixes, a key, and whether the keys behind the prefix are those that hold it.
static UNDER: [(&[u8], &[u8], bool); 7] = [
    (b"a\xff\xff", b"a\xff\xff", true),
    (b"a\xff\xff", b"a\xff\xff\xff", true),
    (b"a\xff\xff", b"a\xff\xfe", false),
    (b"a\xff\xff", b"b", false),
    (b"ab", b"ab\0", true),
    (b"ab", b"aa\xff", false),
    (b"\xff", b"\xff\x01", true),
];

fn holds_as(alloc: Global, row: &(&[u8], &[u8], bool)) -> bool {
    let (Ok(from), Ok(to)) = (Bytes::new(alloc, row.0), after_all(alloc, row.0)) else {
        return false;
    };
    let range = KeyRange { from, to };
    range.holds(row.1) == row.2
}

fn has_no_bound(alloc: Global, prefix: &[u8]) -> bool {
    let Ok(bound) = after_all(alloc, prefix) else {
        return false;
    };
    bound.is_none()
}

#[test]
fn a_bound_is_above_what_begins_with_the_prefix(rt: HostRuntime) {
    for row in &UNDER {
        assert!(rt; holds_as(rt.alloc(), row), "{row:?}");
    }
    assert!(rt; has_no_bound(rt.alloc(), b"\xff"));
    assert!(rt; has_no_bound(rt.alloc(), b""));
}

static PARTS: &[u8] = b"ab\0\0\0\xffc\0\xff\0\0\x03\x82\x60\0more";

/// Kinds and places, and where the part there ends.
static TAKEN: [(KeyKind, usize, Option<usize>); 6] = [
    (KeyKind::S, 0, Some(4)),
    (KeyKind::B, 4, Some(11)),
    (KeyKind::N, 11, Some(15)),
    (KeyKind::N, 0, None),
    (KeyKind::S, 15, None),
    (KeyKind::B, 20, None),
];

/// Bytes that are no part of the kind.
static OTHERS: [(KeyKind, &[u8]); 9] = [
    (KeyKind::B, b"a\0"),
    (KeyKind::B, b"a\0\xfe\0\0"),
    (KeyKind::B, b"a"),
    (KeyKind::B, b""),
    (KeyKind::S, b"\xff\0\0"),
    (KeyKind::N, b"\x03\x82\0\0"),
    (KeyKind::N, b"\x03\x82\x65\0"),
    (KeyKind::N, b"\x03\x82\x5b\x01\0"),
    (KeyKind::N, b"\x04"),
];

fn ends_at(alloc: Global, kind: KeyKind, bytes: &[u8], at: usize, expected: Option<usize>) -> bool {
    let Ok(taken) = take_part(alloc, kind, bytes, at) else {
        return false;
    };
    match (taken, expected) {
        (Some((_, end)), Some(expected)) => end == expected,
        (None, None) => true,
        _ => false,
    }
}

#[test]
fn parts_are_taken_whatever_follows(rt: HostRuntime) {
    for (kind, at, end) in &TAKEN {
        assert!(rt;
            ends_at(rt.alloc(), *kind, PARTS, *at, *end),
            "{kind:?} at {at}"
        );
    }
}

#[test]
fn other_bytes_are_no_part(rt: HostRuntime) {
    for (kind, bytes) in &OTHERS {
        assert!(rt;
            ends_at(rt.alloc(), *kind, bytes, 0, None),
            "{kind:?}: {bytes:?}"
        );
    }
}
