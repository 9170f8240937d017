//! Key conditions as ranges of keys: which keys of a table are in them.

ghost use Rattle.std.specs.Prelude.{IsTrue};
ghost use Rattle.alt_value.specs.Stands.{tree_of};
ghost use Rattle.alt_keyorder.specs.KeyBytes.{IsKey};

use crate::tests::given::attr;
use crate::tests::keys::ask_of;
use alt_keycond::key_range;
use alt_keyorder::{KeyRange, key_part, token};
use alt_value::{Attr, KeyKind};
use std::alloc::Global;

/// A key condition, the kind of `r`, a value of `r`, and whether the key of `k` with that value is in the range.
type Row = (&'static str, KeyKind, &'static str, bool);

static ROWS: [Row; 44] = [
    ("k = :v", KeyKind::N, r#"{"N":"5"}"#, true),
    ("k = :w", KeyKind::N, r#"{"N":"5"}"#, false),
    ("k = :v AND r = :n", KeyKind::N, r#"{"N":"-5.0"}"#, true),
    ("k = :v AND r = :n", KeyKind::N, r#"{"N":"5"}"#, false),
    ("k = :w AND r = :n", KeyKind::N, r#"{"N":"-5"}"#, false),
    ("k = :v AND r < :n", KeyKind::N, r#"{"N":"-5"}"#, false),
    ("k = :v AND r < :n", KeyKind::N, r#"{"N":"-50"}"#, true),
    ("k = :w AND r < :n", KeyKind::N, r#"{"N":"-50"}"#, false),
    ("k = :v AND r <= :n", KeyKind::N, r#"{"N":"-5"}"#, true),
    ("k = :v AND r <= :n", KeyKind::N, r#"{"N":"-4.9"}"#, false),
    ("k = :v AND r > :n", KeyKind::N, r#"{"N":"-5"}"#, false),
    ("k = :v AND r > :n", KeyKind::N, r#"{"N":"0"}"#, true),
    ("k = :w AND r > :n", KeyKind::N, r#"{"N":"0"}"#, false),
    ("k = :v AND r >= :n", KeyKind::N, r#"{"N":"-5"}"#, true),
    ("k = :v AND r >= :n", KeyKind::N, r#"{"N":"-5.1"}"#, false),
    ("k = :v AND r >= :n", KeyKind::N, r#"{"N":"10"}"#, true),
    // A comparison from its other side.
    ("k = :v AND :n < r", KeyKind::N, r#"{"N":"9"}"#, true),
    ("k = :v AND :n < r", KeyKind::N, r#"{"N":"-9"}"#, false),
    // Both bounds are in, and falling ones hold none.
    (
        "k = :v AND r BETWEEN :n AND :m",
        KeyKind::N,
        r#"{"N":"-5"}"#,
        true,
    ),
    (
        "k = :v AND r BETWEEN :n AND :m",
        KeyKind::N,
        r#"{"N":"5"}"#,
        true,
    ),
    (
        "k = :v AND r BETWEEN :n AND :m",
        KeyKind::N,
        r#"{"N":"5.1"}"#,
        false,
    ),
    (
        "k = :v AND r BETWEEN :n AND :m",
        KeyKind::N,
        r#"{"N":"-5.1"}"#,
        false,
    ),
    (
        "k = :v AND r BETWEEN :m AND :n",
        KeyKind::N,
        r#"{"N":"0"}"#,
        false,
    ),
    (
        "k = :v AND r BETWEEN :m AND :n",
        KeyKind::N,
        r#"{"N":"5"}"#,
        false,
    ),
    (
        "k = :v AND r BETWEEN :n AND :n",
        KeyKind::N,
        r#"{"N":"-5"}"#,
        true,
    ),
    // Texts by their bytes, and fronts of them.
    ("k = :v AND r > :w", KeyKind::S, r#"{"S":"b"}"#, false),
    ("k = :v AND r > :w", KeyKind::S, r#"{"S":"b\u0000"}"#, true),
    ("k = :v AND r > :w", KeyKind::S, r#"{"S":"ba"}"#, true),
    ("k = :v AND r > :w", KeyKind::S, r#"{"S":"azz"}"#, false),
    ("k = :v AND r <= :w", KeyKind::S, r#"{"S":"b"}"#, true),
    (
        "k = :v AND r <= :w",
        KeyKind::S,
        r#"{"S":"b\u0000"}"#,
        false,
    ),
    (
        "k = :v AND begins_with(r, :w)",
        KeyKind::S,
        r#"{"S":"b"}"#,
        true,
    ),
    (
        "k = :v AND begins_with(r, :w)",
        KeyKind::S,
        r#"{"S":"bcd"}"#,
        true,
    ),
    (
        "k = :v AND begins_with(r, :w)",
        KeyKind::S,
        r#"{"S":"b\u0000"}"#,
        true,
    ),
    (
        "k = :v AND begins_with(r, :w)",
        KeyKind::S,
        r#"{"S":"c"}"#,
        false,
    ),
    (
        "k = :v AND begins_with(r, :w)",
        KeyKind::S,
        r#"{"S":"a"}"#,
        false,
    ),
    (
        "k = :w AND begins_with(r, :w)",
        KeyKind::S,
        r#"{"S":"b"}"#,
        false,
    ),
    (
        "k = :v AND begins_with(r, :e)",
        KeyKind::S,
        r#"{"S":"z"}"#,
        true,
    ),
    // Binaries by their bytes without a sign.
    (
        "k = :v AND begins_with(r, :b)",
        KeyKind::B,
        r#"{"B":"AAH/"}"#,
        true,
    ),
    (
        "k = :v AND begins_with(r, :b)",
        KeyKind::B,
        r#"{"B":"AAH//w=="}"#,
        true,
    ),
    (
        "k = :v AND begins_with(r, :b)",
        KeyKind::B,
        r#"{"B":"AAI="}"#,
        false,
    ),
    ("k = :v AND r > :b", KeyKind::B, r#"{"B":"/w=="}"#, true),
    ("k = :v AND r > :b", KeyKind::B, r#"{"B":"AAH/"}"#, false),
    ("k = :v AND r > :b", KeyKind::B, r#"{"B":"AAH/AA=="}"#, true),
];

/// Whether a value can be a key.
fn is_key(value: &Attr) -> bool
    ensures { IsTrue result → IsKey (tree_of value.now) }
{
    match value {
        Attr::S(_) => true,
        Attr::N(_) => true,
        Attr::B(_) => true,
        _ => false,
    }
}

/// The key of a table with these values.
fn key_of(alloc: Global, hash: &Attr, range: &Attr) -> Option<Vec<u8>> {
    if !is_key(hash) || !is_key(range) {
        return None;
    }
    let mut key = Vec::new(alloc);
    let Ok(()) = key.extend_from_slice(&token(hash).to_be_bytes()) else {
        return None;
    };
    let Ok(()) = key_part(hash, &mut key) else {
        return None;
    };
    let Ok(()) = key_part(range, &mut key) else {
        return None;
    };
    Some(key)
}

/// The key of `k` `a` and that value.
fn key_under(alloc: Global, json: &str) -> Option<Vec<u8>> {
    let Some(hash) = attr(alloc, r#"{"S":"a"}"#) else {
        return None;
    };
    let Some(range) = attr(alloc, json) else {
        return None;
    };
    key_of(alloc, &hash, &range)
}

fn range_of(alloc: Global, row: &Row) -> Option<KeyRange> {
    match ask_of(alloc, row.0, Some(row.1)) {
        Ok(ask) => key_range(alloc, &ask).ok(),
        Err(_) => None,
    }
}

fn is_row(alloc: Global, row: &Row) -> bool {
    let Some(key) = key_under(alloc, row.2) else {
        return false;
    };
    match range_of(alloc, row) {
        Some(range) => range.holds(key.as_slice()) == row.3,
        None => false,
    }
}

#[test]
fn ranges_hold_the_keys_that_are_asked_for(rt: HostRuntime) {
    for row in &ROWS {
        assert!(rt; is_row(rt.alloc(), row), "{} {}", row.0, row.2);
    }
}
