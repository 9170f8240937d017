//! Key conditions as texts: what they ask of the keys `k` and `r`.

ghost use Rattle.std.specs.Prelude.{IfOk};
ghost use Rattle.alt_value.specs.Stands.{tree_of};
ghost use Rattle.alt_keyorder.specs.KeyBytes.{IsKey};
ghost use Rattle.alt_keycond.specs.KeysAsked.{AsksKeys};

use crate::tests::given::{condition, names, values};
use alt_codec::json_of_attr;
use alt_expr::{Boxed, Cond};
use alt_keycond::{KeyAsk, KeyCondFault, RangeAsk, key_ask};
use alt_schema::KeyAttr;
use alt_value::{Attr, KeyKind, Text};
use std::alloc::Global;

static NAMES: &str = r##"{"#n0":"k","#r":"r","#o":"o","#dotted":"k.r"}"##;

static VALUES: &str =
    r#"{":v":{"S":"a"},":w":{"S":"b"},":e":{"S":""},":n":{"N":"-5"},":m":{"N":"5"},":b":{"B":"AAH/"},":t":{"BOOL":true}}"#;

/// A text, the kind of `r` where there is such a key, and what is asked; `-` where it is no key condition.
type Row = (&'static str, Option<KeyKind>, &'static str);

const S: Option<KeyKind> = Some(KeyKind::S);

const N: Option<KeyKind> = Some(KeyKind::N);

const B: Option<KeyKind> = Some(KeyKind::B);

static ROWS: [Row; 64] = [
    ("k = :v", None, r#"{"S":"a"} all"#),
    ("k = :v", N, r#"{"S":"a"} all"#),
    (":v = k", N, r#"{"S":"a"} all"#),
    ("(#n0 = :v AND r >= :n)", N, r#"{"S":"a"} >= {"N":"-5"}"#),
    ("r >= :n and k = :v", N, r#"{"S":"a"} >= {"N":"-5"}"#),
    ("k = :v AND #r = :n", N, r#"{"S":"a"} = {"N":"-5"}"#),
    ("k = :v AND r < :n", N, r#"{"S":"a"} < {"N":"-5"}"#),
    ("k = :v AND r <= :n", N, r#"{"S":"a"} <= {"N":"-5"}"#),
    ("k = :v AND r > :n", N, r#"{"S":"a"} > {"N":"-5"}"#),
    // A comparison from its other side.
    ("k = :v AND :n = r", N, r#"{"S":"a"} = {"N":"-5"}"#),
    ("k = :v AND :n < r", N, r#"{"S":"a"} > {"N":"-5"}"#),
    ("k = :v AND :n <= r", N, r#"{"S":"a"} >= {"N":"-5"}"#),
    ("k = :v AND :n > r", N, r#"{"S":"a"} < {"N":"-5"}"#),
    (":n >= r AND :v = k", N, r#"{"S":"a"} <= {"N":"-5"}"#),
    // Bounds as given, also falling ones.
    (
        "k = :v AND r BETWEEN :n AND :m",
        N,
        r#"{"S":"a"} between {"N":"-5"} {"N":"5"}"#,
    ),
    (
        "r BETWEEN :m AND :n AND k = :v",
        N,
        r#"{"S":"a"} between {"N":"5"} {"N":"-5"}"#,
    ),
    (
        "k = :v AND r BETWEEN :n AND :n",
        N,
        r#"{"S":"a"} between {"N":"-5"} {"N":"-5"}"#,
    ),
    (
        "k = :v AND begins_with(r, :w)",
        S,
        r#"{"S":"a"} begins {"S":"b"}"#,
    ),
    (
        "begins_with(r, :b) AND k = :v",
        B,
        r#"{"S":"a"} begins {"B":"AAH/"}"#,
    ),
    (
        "k = :v AND begins_with(r, :e)",
        S,
        r#"{"S":"a"} begins {"S":""}"#,
    ),
    ("k = :v AND r = :b", B, r#"{"S":"a"} = {"B":"AAH/"}"#),
    ("k = :e", N, r#"{"S":""} all"#),
    // The HASH attribute alone, and not by `=`.
    ("r = :n", N, "-"),
    ("r = :n AND r = :n", N, "-"),
    ("k < :v", N, "-"),
    ("k <> :v", N, "-"),
    ("k = :v AND k = :v", N, "-"),
    ("k = :v AND k > :v", N, "-"),
    ("begins_with(k, :v)", N, "-"),
    ("k BETWEEN :v AND :v", N, "-"),
    ("k IN (:v)", N, "-"),
    ("k = :n", N, "-"),
    ("k = k", N, "-"),
    ("k = r", N, "-"),
    (":v = :v", N, "-"),
    ("size(k) = :v", N, "-"),
    ("attribute_exists(k)", N, "-"),
    // Other tests of the RANGE attribute.
    ("k = :v AND r <> :n", N, "-"),
    ("k = :v AND :n <> r", N, "-"),
    ("k = :v AND r IN (:n)", N, "-"),
    ("k = :v AND contains(r, :w)", S, "-"),
    ("k = :v AND attribute_exists(r)", N, "-"),
    ("k = :v AND begins_with(r, :n)", N, "-"),
    ("k = :v AND begins_with(r, :w)", N, "-"),
    ("k = :v AND begins_with(:w, r)", S, "-"),
    ("k = :v AND begins_with(r, :b)", S, "-"),
    ("k = :v AND r = :w", N, "-"),
    ("k = :v AND r = :t", N, "-"),
    ("k = :v AND r BETWEEN :n AND :w", N, "-"),
    ("k = :v AND r BETWEEN :w AND :m", N, "-"),
    ("k = :v AND :n BETWEEN r AND :m", N, "-"),
    ("k = :v AND r = k", S, "-"),
    ("k = :v AND size(r) = :n", N, "-"),
    // Other attributes, and other parts.
    ("k = :v AND o = :n", N, "-"),
    ("o = :v", N, "-"),
    ("#o = :v AND r = :n", N, "-"),
    ("k = :v AND r[0] = :n", N, "-"),
    ("k.r = :v", N, "-"),
    ("#dotted = :v", N, "-"),
    // Other trees.
    ("k = :v OR r = :n", N, "-"),
    ("NOT k = :v", N, "-"),
    ("k = :v AND NOT r = :n", N, "-"),
    ("k = :v AND r > :n AND r < :m", N, "-"),
    // No RANGE key.
    ("k = :v AND r = :n", None, "-"),
];

fn key(alloc: Global, name: &str, kind: KeyKind) -> Option<KeyAttr> {
    match Text::new(alloc, name) {
        Ok(name) => Some(KeyAttr { name, kind }),
        Err(_) => None,
    }
}

fn parsed(alloc: Global, text: &str) -> Option<Boxed<Cond>> {
    let Some(mut names) = names(alloc, NAMES) else {
        return None;
    };
    let Some(mut values) = values(alloc, VALUES) else {
        return None;
    };
    condition(alloc, text, &mut names, &mut values).ok()
}

/// What a tree asks of `k` and, where there is a kind for it, of `r`.
fn asked(
    alloc: Global,
    tree: &Cond,
    hash: &KeyAttr,
    kind: Option<KeyKind>,
) -> Result<KeyAsk, KeyCondFault>
    ensures { IfOk result (λ a. IsKey (tree_of a.hash) × AsksKeys a.range) }
{
    let Some(kind) = kind else {
        return key_ask(tree, hash, None);
    };
    match key(alloc, "r", kind) {
        Some(range) => key_ask(tree, hash, Some(&range)),
        None => Err(KeyCondFault::NoMemory),
    }
}

pub(crate) fn ask_of(
    alloc: Global,
    text: &str,
    kind: Option<KeyKind>,
) -> Result<KeyAsk, KeyCondFault>
    ensures { IfOk result (λ a. IsKey (tree_of a.hash) × AsksKeys a.range) }
{
    let Some(tree) = parsed(alloc, text) else {
        return Err(KeyCondFault::NoMemory);
    };
    match key(alloc, "k", KeyKind::S) {
        Some(hash) => asked(alloc, tree.get(), &hash, kind),
        None => Err(KeyCondFault::NoMemory),
    }
}

/// Appends a word and the JSON of a value.
fn put(alloc: Global, out: &mut String, word: &str, value: &Attr) -> bool {
    let Ok(json) = json_of_attr(alloc, value) else {
        return false;
    };
    let Ok(text) = json.to_string(alloc) else {
        return false;
    };
    out.push_str(word).is_ok() && out.push_str(text.as_str()).is_ok()
}

fn put_range(alloc: Global, out: &mut String, range: &RangeAsk) -> bool {
    match range {
        RangeAsk::All => out.push_str(" all").is_ok(),
        RangeAsk::Eq(value) => put(alloc, out, " = ", value),
        RangeAsk::Lt(value) => put(alloc, out, " < ", value),
        RangeAsk::Le(value) => put(alloc, out, " <= ", value),
        RangeAsk::Gt(value) => put(alloc, out, " > ", value),
        RangeAsk::Ge(value) => put(alloc, out, " >= ", value),
        RangeAsk::Between(low, high) => {
            put(alloc, out, " between ", low) && put(alloc, out, " ", high)
        }
        RangeAsk::Begins(front) => put(alloc, out, " begins ", front),
    }
}

fn describes(alloc: Global, ask: &KeyAsk, want: &str) -> bool {
    let mut out = String::new(alloc);
    put(alloc, &mut out, "", &ask.hash)
        && put_range(alloc, &mut out, &ask.range)
        && out.as_str() == want
}

fn is_asked(alloc: Global, row: &Row) -> bool {
    match ask_of(alloc, row.0, row.1) {
        Ok(ask) => describes(alloc, &ask, row.2),
        Err(fault) => fault == KeyCondFault::NotKey && row.2 == "-",
    }
}

#[test]
fn key_conditions_ask_or_are_refused(rt: HostRuntime) {
    for row in &ROWS {
        assert!(rt; is_asked(rt.alloc(), row), "{}", row.0);
    }
}
