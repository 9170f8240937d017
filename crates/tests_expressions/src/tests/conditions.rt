//! Conditions as texts: whether each holds of one worked item, and else its first fault.

use crate::tests::given::{condition, item, names, values};
use alt_condeval::{holds, settled};
use alt_expr::{Boxed, Cond, ExprFault};
use alt_value::Item;
use std::alloc::Global;

static ITEM: &str =
    r#"{"a":{"N":"1"},"b":{"S":"x"},"t":{"S":"xyz"},"z":{"B":"AAH/"},"s":{"NS":["1","2.0","30"]},"l":{"L":[{"N":"1"},{"N":"2"},{"N":"3"}]},"m":{"M":{"c":{"BOOL":true},"d":{"L":[]},"NOT":{"S":"x"}}},"m.c":{"S":"dotted"},"AND":{"N":"5"},"nil":{"NULL":true},"most":{"N":"99999999999999999999999999999999999998"},"n1":{"N":"-1"}}"#;

static NAMES: &str = r##"{"#m":"m","#dotted":"m.c","#c":"c","#and":"AND","#not":"NOT","#a":"a"}"##;

static VALUES: &str =
    r#"{":one":{"N":"1.0"},":zero":{"N":"0"},":two":{"N":"2"},":three":{"N":"3"},":nine":{"N":"9"},":ten":{"N":"1E1"},":five":{"N":"5"},":x":{"S":"x"},":xy":{"S":"xy"},":yz":{"S":"yz"},":empty":{"S":""},":text1":{"S":"1"},":bin":{"B":"AAH/"},":mid":{"B":"Af8="},":high":{"B":"/w=="},":set":{"NS":["30","2","1"]},":list":{"L":[{"N":"1"},{"N":"2"},{"N":"3"}]},":turned":{"L":[{"N":"1"},{"N":"3"},{"N":"2"}]},":true":{"BOOL":true},":null":{"NULL":true},":dotted":{"S":"dotted"},":N":{"S":"N"},":M":{"S":"M"},":L":{"S":"L"},":NULL":{"S":"NULL"},":BOOL":{"S":"BOOL"},":Nb":{"B":"Tg=="},":most":{"N":"99999999999999999999999999999999999999"}}"#;

/// A text, and whether it holds; else its fault.
type Row = (&'static str, Result<bool, ExprFault>);

static ROWS: [Row; 152] = [
    // NOT before AND before OR, and brackets over both.
    ("NOT a = :one AND b = :x OR a = :one", Ok(true)),
    ("a = :one OR a = :one AND b = :yz", Ok(true)),
    ("(a = :one OR a = :one) AND b = :yz", Ok(false)),
    ("NOT (a = :one AND b = :yz)", Ok(true)),
    ("NOT a = :one OR a = :one", Ok(true)),
    ("NOT NOT a = :one", Ok(true)),
    ("((a = :one))", Ok(true)),
    // Keywords in any case.
    ("NOT a = :zero", Ok(true)),
    ("Not a = :zero", Ok(true)),
    ("not a = :zero", Ok(true)),
    ("a = :one AND b = :x", Ok(true)),
    ("a = :one And b = :x", Ok(true)),
    ("a = :one and b = :x", Ok(true)),
    ("a = :zero OR b = :x", Ok(true)),
    ("a = :zero oR b = :x", Ok(true)),
    ("a = :zero or b = :x", Ok(true)),
    ("a IN (:x, :one)", Ok(true)),
    ("a iN (:x, :one)", Ok(true)),
    ("a in (:x, :one)", Ok(true)),
    ("a BETWEEN :zero AND :nine", Ok(true)),
    ("a BetWeen :zero anD :nine", Ok(true)),
    ("a between :zero and :nine", Ok(true)),
    // Comparisons: by kind and by value.
    ("a = :one", Ok(true)),
    ("a = :text1", Ok(false)),
    ("a <> :one", Ok(false)),
    ("a <> :text1", Ok(true)),
    ("a < :one", Ok(false)),
    ("a < :nine", Ok(true)),
    ("n1 < :zero", Ok(true)),
    (":nine < :ten", Ok(true)),
    ("a <= :one", Ok(true)),
    ("a <= :x", Ok(false)),
    ("a >= :x", Ok(false)),
    ("a >= :one", Ok(true)),
    ("a > :zero", Ok(true)),
    ("a > :one", Ok(false)),
    ("b < :xy", Ok(true)),
    ("t > :xy", Ok(true)),
    ("z < :high", Ok(true)),
    ("z = :bin", Ok(true)),
    ("s = :set", Ok(true)),
    ("s >= :set", Ok(false)),
    ("l = :list", Ok(true)),
    ("l = :turned", Ok(false)),
    ("l <> :turned", Ok(true)),
    ("nil = :null", Ok(true)),
    ("m.c = :true", Ok(true)),
    ("m.c < :true", Ok(false)),
    (":one = a", Ok(true)),
    (":nine > a", Ok(true)),
    ("most < :most", Ok(true)),
    ("most = :most", Ok(false)),
    // What is missing.
    ("k = :one", Ok(false)),
    ("k <> :one", Ok(true)),
    ("k < :one", Ok(false)),
    ("NOT k < :one", Ok(true)),
    ("k = k", Ok(false)),
    ("size(k) = :one", Ok(false)),
    ("m.k = :one", Ok(false)),
    ("l[3] = :three", Ok(false)),
    ("a[0] = :one", Ok(false)),
    ("l.c = :one", Ok(false)),
    // Paths and words.
    ("l[2] = :three", Ok(true)),
    ("l[002] = :three", Ok(true)),
    ("#m.#c = :true", Ok(true)),
    ("#m . #c = :true", Ok(true)),
    ("#dotted = :dotted", Ok(true)),
    ("#and = :five", Ok(true)),
    ("m.#not = :x", Ok(true)),
    ("#a\t=\r\n:one", Ok(true)),
    ("#a=:one", Ok(true)),
    // BETWEEN with bounds of unlike kinds, and with falling ones.
    ("a BETWEEN :one AND :one", Ok(true)),
    ("a BETWEEN :one AND :x", Ok(false)),
    ("a BETWEEN :nine AND :zero", Ok(false)),
    ("k BETWEEN :zero AND :nine", Ok(false)),
    // IN.
    ("a IN (:one)", Ok(true)),
    ("a IN (:x, :two)", Ok(false)),
    ("s IN (:one, :set)", Ok(true)),
    ("k IN (k)", Ok(false)),
    // Functions.
    ("attribute_exists(a)", Ok(true)),
    ("attribute_exists(k)", Ok(false)),
    ("attribute_exists(l[2])", Ok(true)),
    ("attribute_not_exists(k)", Ok(true)),
    ("attribute_not_exists ( m.c )", Ok(false)),
    ("attribute_type(a, :N)", Ok(true)),
    ("attribute_type(m, :M)", Ok(true)),
    ("attribute_type(m, :L)", Ok(false)),
    ("attribute_type(nil, :NULL)", Ok(true)),
    ("attribute_type(m.c, :BOOL)", Ok(true)),
    ("attribute_type(a, :Nb)", Ok(false)),
    ("attribute_type(k, :NULL)", Ok(false)),
    ("begins_with(t, :xy)", Ok(true)),
    ("begins_with(t, :yz)", Ok(false)),
    ("begins_with(t, :empty)", Ok(true)),
    ("begins_with(t, :bin)", Ok(false)),
    ("begins_with(z, :mid)", Ok(false)),
    ("contains(t, :yz)", Ok(true)),
    ("contains(t, :empty)", Ok(true)),
    ("contains(b, :xy)", Ok(false)),
    ("contains(z, :mid)", Ok(true)),
    ("contains(s, :two)", Ok(true)),
    ("contains(s, :text1)", Ok(false)),
    ("contains(l, :three)", Ok(true)),
    ("contains(a, :one)", Ok(false)),
    ("size(t) = :three", Ok(true)),
    ("size(z) = :three", Ok(true)),
    ("size(s) = :three", Ok(true)),
    ("size(l) = :three", Ok(true)),
    ("size(m) = :three", Ok(true)),
    ("size(m.d) = :zero", Ok(true)),
    ("size(a) = :one", Ok(false)),
    // The name of a function is a name where no bracket stands behind it.
    ("size = :x", Ok(false)),
    ("contains = contains", Ok(false)),
    // Given values alone, and beside what the item has.
    (":one = :one", Ok(true)),
    (":one <> :one", Ok(false)),
    (":one = :x", Ok(false)),
    (":zero < :one", Ok(true)),
    (":list = :turned", Ok(false)),
    ("NOT :one = :two", Ok(true)),
    (":two BETWEEN :one AND :three", Ok(true)),
    (":two BETWEEN :one AND a", Ok(false)),
    (":one BETWEEN a AND :three", Ok(true)),
    (":three BETWEEN :nine AND a", Ok(false)),
    (":x IN (:xy, :x)", Ok(true)),
    (":one IN (:two, a)", Ok(true)),
    (":two IN (:one, a, k)", Ok(false)),
    ("begins_with(:xy, :x)", Ok(true)),
    ("begins_with(:xy, b)", Ok(true)),
    ("contains(:xy, :yz)", Ok(false)),
    ("contains(:set, :two)", Ok(true)),
    ("contains(:list, a)", Ok(true)),
    (":one = :two OR a = :one", Ok(true)),
    ("NOT (:one = :one AND a = :two)", Ok(true)),
    // Faults.
    ("", Err(ExprFault::Syntax)),
    ("a", Err(ExprFault::Syntax)),
    ("a = :x OR", Err(ExprFault::Syntax)),
    ("a == :x", Err(ExprFault::Syntax)),
    ("Size(a) = :one", Err(ExprFault::Syntax)),
    ("SIZE (a) = :one", Err(ExprFault::Syntax)),
    ("and = :x", Err(ExprFault::Syntax)),
    ("_a = :x", Err(ExprFault::Syntax)),
    ("a[1234567890] = :x", Err(ExprFault::Syntax)),
    ("a.1 = :x", Err(ExprFault::Syntax)),
    ("a IN ()", Err(ExprFault::Syntax)),
    ("a = :x $", Err(ExprFault::Syntax)),
    ("# = :x", Err(ExprFault::Syntax)),
    ("(a = :x", Err(ExprFault::Syntax)),
    ("#none = :x", Err(ExprFault::Undefined)),
    ("a = :y", Err(ExprFault::Undefined)),
    ("#none = :y OR", Err(ExprFault::Syntax)),
    ("a = :x a = :y", Err(ExprFault::Syntax)),
    ("attribute_exists(:x)", Err(ExprFault::Syntax)),
];

fn parsed(alloc: Global, text: &str) -> Result<Boxed<Cond>, ExprFault> {
    let Some(mut names) = names(alloc, NAMES) else {
        return Err(ExprFault::NoMemory);
    };
    let Some(mut values) = values(alloc, VALUES) else {
        return Err(ExprFault::NoMemory);
    };
    condition(alloc, text, &mut names, &mut values)
}

/// Whether a condition holds of the item, if that is wanted, or doesn't.
fn is_held(alloc: Global, condition: &Cond, want: Result<bool, ExprFault>) -> bool {
    match item(alloc, ITEM) {
        Some(item) => {
            want == Ok(holds(condition, &item)) && is_settled(alloc, condition, &item, want)
        }
        None => false,
    }
}

/// The same of the condition in which what names no attribute is decided.
fn is_settled(alloc: Global, condition: &Cond, item: &Item, want: Result<bool, ExprFault>) -> bool {
    match settled(alloc, condition) {
        Ok(condition) => want == Ok(holds(&condition, item)),
        Err(_) => false,
    }
}

fn is_judged(alloc: Global, text: &str, want: Result<bool, ExprFault>) -> bool {
    match parsed(alloc, text) {
        Ok(condition) => is_held(alloc, condition.get(), want),
        Err(fault) => want == Err(fault),
    }
}

#[test]
fn conditions_hold_or_have_their_first_fault(rt: HostRuntime) {
    for (text, want) in &ROWS {
        assert!(rt; is_judged(rt.alloc(), text, *want), "{text}");
    }
}
