//! Updates: their keywords, their operands and functions, and which refusal is told first.

use crate::tests::updating::{Row, is_row};
use alt_decimal::NumberFault;
use alt_updeval::UpdateFault;

/// A list of three numbers.
const L: &str = r#"{"l":{"L":[{"N":"1"},{"N":"2"},{"N":"3"}]}}"#;

/// Two numbers.
const AB: &str = r#"{"a":{"N":"1"},"b":{"N":"2"}}"#;

/// A map with a list in it, beside a name with a dot.
const M: &str =
    r#"{"m":{"M":{"b":{"L":[{"S":"x"},{"M":{"c":{"S":"y"}}}]},"d":{"N":"5"}}},"m.b":{"S":"dotted"}}"#;

/// A set of each kind.
const SETS: &str =
    r#"{"bs":{"BS":["AQ==","Aw=="]},"ns":{"NS":["1","2","3"]},"ss":{"SS":["a","b"]}}"#;

/// Each keyword in three cases.
static KEYWORDS: [Row; 12] = [
    (AB, "SET a = :x", Ok(r#"{"a":{"S":"x"},"b":{"N":"2"}}"#)),
    (AB, "Set a = :x", Ok(r#"{"a":{"S":"x"},"b":{"N":"2"}}"#)),
    (AB, "set a = :x", Ok(r#"{"a":{"S":"x"},"b":{"N":"2"}}"#)),
    (AB, "REMOVE a", Ok(r#"{"b":{"N":"2"}}"#)),
    (AB, "ReMove a", Ok(r#"{"b":{"N":"2"}}"#)),
    (AB, "remove a", Ok(r#"{"b":{"N":"2"}}"#)),
    (AB, "ADD a :one", Ok(r#"{"a":{"N":"2"},"b":{"N":"2"}}"#)),
    (AB, "aDD a :one", Ok(r#"{"a":{"N":"2"},"b":{"N":"2"}}"#)),
    (AB, "add a :one", Ok(r#"{"a":{"N":"2"},"b":{"N":"2"}}"#)),
    (
        SETS,
        "DELETE ss :b",
        Ok(r#"{"bs":{"BS":["AQ==","Aw=="]},"ns":{"NS":["1","2","3"]},"ss":{"SS":["a"]}}"#),
    ),
    (
        SETS,
        "Delete ss :b",
        Ok(r#"{"bs":{"BS":["AQ==","Aw=="]},"ns":{"NS":["1","2","3"]},"ss":{"SS":["a"]}}"#),
    ),
    (
        SETS,
        "delete ss :b",
        Ok(r#"{"bs":{"BS":["AQ==","Aw=="]},"ns":{"NS":["1","2","3"]},"ss":{"SS":["a"]}}"#),
    ),
];

/// Each operand is of the item before the update.
static BEFORE: [Row; 13] = [
    (
        AB,
        "SET a = b, b = a",
        Ok(r#"{"a":{"N":"2"},"b":{"N":"1"}}"#),
    ),
    (
        AB,
        "SET b = a + b, a = b",
        Ok(r#"{"a":{"N":"2"},"b":{"N":"3"}}"#),
    ),
    (
        AB,
        "SET a = :x, b = a",
        Ok(r#"{"a":{"S":"x"},"b":{"N":"1"}}"#),
    ),
    (AB, "REMOVE a SET b = a", Ok(r#"{"b":{"N":"1"}}"#)),
    (
        AB,
        "ADD a :one SET b = a",
        Ok(r#"{"a":{"N":"2"},"b":{"N":"1"}}"#),
    ),
    (
        AB,
        "SET b = a ADD a :one",
        Ok(r#"{"a":{"N":"2"},"b":{"N":"1"}}"#),
    ),
    (AB, "SET c = :x, d = c", Err(UpdateFault::BadPath)),
    (
        AB,
        "SET c = :x, d = if_not_exists(c, :one)",
        Ok(r#"{"a":{"N":"1"},"b":{"N":"2"},"c":{"S":"x"},"d":{"N":"1"}}"#),
    ),
    (
        L,
        "SET l[0] = l[2], l[2] = l[0]",
        Ok(r#"{"l":{"L":[{"N":"3"},{"N":"2"},{"N":"1"}]}}"#),
    ),
    (
        L,
        "REMOVE l[0] SET l[1] = l[0]",
        Ok(r#"{"l":{"L":[{"N":"1"},{"N":"3"}]}}"#),
    ),
    (L, "SET l[3] = l[2], l[4] = l[3]", Err(UpdateFault::BadPath)),
    (
        M,
        "SET m.d = m.b REMOVE m.b",
        Ok(r#"{"m":{"M":{"d":{"L":[{"S":"x"},{"M":{"c":{"S":"y"}}}]}}},"m.b":{"S":"dotted"}}"#),
    ),
    (
        SETS,
        "DELETE ns :set SET c = ns",
        Ok(
            r#"{"bs":{"BS":["AQ==","Aw=="]},"c":{"NS":["1","2","3"]},"ns":{"NS":["1","3"]},"ss":{"SS":["a","b"]}}"#,
        ),
    ),
];

/// list_append keeps the order of its lists, and if_not_exists evaluates its term only where nothing is.
static TERMS: [Row; 27] = [
    (
        L,
        "SET l = list_append(l, l)",
        Ok(r#"{"l":{"L":[{"N":"1"},{"N":"2"},{"N":"3"},{"N":"1"},{"N":"2"},{"N":"3"}]}}"#),
    ),
    (
        L,
        "SET l = list_append(l, :list)",
        Ok(r#"{"l":{"L":[{"N":"1"},{"N":"2"},{"N":"3"},{"N":"100"},{"S":"z"}]}}"#),
    ),
    (
        L,
        "SET l = list_append(:list, l)",
        Ok(r#"{"l":{"L":[{"N":"100"},{"S":"z"},{"N":"1"},{"N":"2"},{"N":"3"}]}}"#),
    ),
    (
        L,
        "SET l = list_append(list_append(:list, l), :list)",
        Ok(
            r#"{"l":{"L":[{"N":"100"},{"S":"z"},{"N":"1"},{"N":"2"},{"N":"3"},{"N":"100"},{"S":"z"}]}}"#,
        ),
    ),
    (
        L,
        "SET l = list_append(:list, list_append(l, :none))",
        Ok(r#"{"l":{"L":[{"N":"100"},{"S":"z"},{"N":"1"},{"N":"2"},{"N":"3"}]}}"#),
    ),
    (
        L,
        "SET l = list_append (:none, :none)",
        Ok(r#"{"l":{"L":[]}}"#),
    ),
    (
        L,
        "SET l[1] = list_append(:none, l)",
        Ok(r#"{"l":{"L":[{"N":"1"},{"L":[{"N":"1"},{"N":"2"},{"N":"3"}]},{"N":"3"}]}}"#),
    ),
    (
        L,
        "SET l = list_append(l, if_not_exists(k, :list))",
        Ok(r#"{"l":{"L":[{"N":"1"},{"N":"2"},{"N":"3"},{"N":"100"},{"S":"z"}]}}"#),
    ),
    (
        L,
        "SET l = list_append(if_not_exists(l, :list), :none)",
        Ok(r#"{"l":{"L":[{"N":"1"},{"N":"2"},{"N":"3"}]}}"#),
    ),
    (L, "SET l = list_append(l, :x)", Err(UpdateFault::BadKind)),
    (L, "SET l = list_append(:map, l)", Err(UpdateFault::BadKind)),
    (L, "SET l = list_append(l, l[0])", Err(UpdateFault::BadKind)),
    (L, "SET l = list_append(k, l)", Err(UpdateFault::BadPath)),
    (L, "SET l = list_append(l, k)", Err(UpdateFault::BadPath)),
    (L, "SET l = list_append(l, l[3])", Err(UpdateFault::BadPath)),
    (
        AB,
        "SET a = if_not_exists(a, :x)",
        Ok(r#"{"a":{"N":"1"},"b":{"N":"2"}}"#),
    ),
    (
        AB,
        "SET c = if_not_exists(a, :x)",
        Ok(r#"{"a":{"N":"1"},"b":{"N":"2"},"c":{"N":"1"}}"#),
    ),
    (
        AB,
        "SET c = if_not_exists(c, :x)",
        Ok(r#"{"a":{"N":"1"},"b":{"N":"2"},"c":{"S":"x"}}"#),
    ),
    (
        AB,
        "SET c = if_not_exists(a, d)",
        Ok(r#"{"a":{"N":"1"},"b":{"N":"2"},"c":{"N":"1"}}"#),
    ),
    (
        AB,
        "SET c = if_not_exists(a, list_append(a, :x))",
        Ok(r#"{"a":{"N":"1"},"b":{"N":"2"},"c":{"N":"1"}}"#),
    ),
    (AB, "SET c = if_not_exists(c, d)", Err(UpdateFault::BadPath)),
    (
        AB,
        "SET c = if_not_exists(c, if_not_exists(d, :x))",
        Ok(r#"{"a":{"N":"1"},"b":{"N":"2"},"c":{"S":"x"}}"#),
    ),
    (
        AB,
        "SET c = if_not_exists(a.b, :x), d = if_not_exists(a[0], :y)",
        Ok(r#"{"a":{"N":"1"},"b":{"N":"2"},"c":{"S":"x"},"d":{"S":"y"}}"#),
    ),
    (
        AB,
        "SET c = if_not_exists(c, :seven) + a",
        Ok(r#"{"a":{"N":"1"},"b":{"N":"2"},"c":{"N":"8"}}"#),
    ),
    (
        AB,
        "SET a = if_not_exists(a, :seven) - b",
        Ok(r#"{"a":{"N":"-1"},"b":{"N":"2"}}"#),
    ),
    (
        AB,
        "SET c = list_append(if_not_exists(c, :none), :list)",
        Ok(r#"{"a":{"N":"1"},"b":{"N":"2"},"c":{"L":[{"N":"100"},{"S":"z"}]}}"#),
    ),
    (
        M,
        "SET m.e = if_not_exists(m.b[1].c, :x)",
        Ok(
            r#"{"m":{"M":{"b":{"L":[{"S":"x"},{"M":{"c":{"S":"y"}}}]},"d":{"N":"5"},"e":{"S":"y"}}},"m.b":{"S":"dotted"}}"#,
        ),
    ),
];

/// The first refused action in text order is told: its operands from left to right, its sum, its path.
static FIRST: [Row; 13] = [
    (AB, "SET c = d, a = :x + :x", Err(UpdateFault::BadPath)),
    (AB, "SET a = :x + :x, c = d", Err(UpdateFault::BadKind)),
    (AB, "SET a = :x + d", Err(UpdateFault::BadPath)),
    (AB, "SET c.d = :x + :x", Err(UpdateFault::BadKind)),
    (AB, "SET a.b = c", Err(UpdateFault::BadPath)),
    (AB, "ADD a :x SET c = d", Err(UpdateFault::BadKind)),
    (AB, "SET c = d ADD a :x", Err(UpdateFault::BadPath)),
    (
        AB,
        "SET b = :x REMOVE c.d ADD a :one",
        Err(UpdateFault::BadPath),
    ),
    (AB, "DELETE a :set REMOVE c.d", Err(UpdateFault::BadKind)),
    (
        AB,
        "SET a = :wide + :one, b = c",
        Err(UpdateFault::BadNumber(NumberFault::TooManyDigits)),
    ),
    (AB, "SET b = c, a = :wide + :one", Err(UpdateFault::BadPath)),
    (
        AB,
        "SET a = :x REMOVE b ADD c :one DELETE d :set",
        Ok(r#"{"a":{"S":"x"},"c":{"N":"1"}}"#),
    ),
    (
        AB,
        "DELETE d :set ADD c :one REMOVE b SET a = :x",
        Ok(r#"{"a":{"S":"x"},"c":{"N":"1"}}"#),
    ),
];

#[test]
fn keywords_are_read_in_any_case(rt: HostRuntime) {
    for row in &KEYWORDS {
        assert!(rt; is_row(rt.alloc(), row), "{}", row.1);
    }
}

#[test]
fn operands_are_of_the_item_before(rt: HostRuntime) {
    for row in &BEFORE {
        assert!(rt; is_row(rt.alloc(), row), "{}", row.1);
    }
}

#[test]
fn functions_give_their_terms(rt: HostRuntime) {
    for row in &TERMS {
        assert!(rt; is_row(rt.alloc(), row), "{}", row.1);
    }
}

#[test]
fn the_first_refused_action_is_told(rt: HostRuntime) {
    for row in &FIRST {
        assert!(rt; is_row(rt.alloc(), row), "{}", row.1);
    }
}
