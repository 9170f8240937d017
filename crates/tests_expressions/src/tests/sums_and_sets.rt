//! Updates: sums of numbers, and ADD and DELETE of numbers and sets.

use crate::tests::updating::{Row, is_row};
use alt_decimal::NumberFault;
use alt_updeval::UpdateFault;

/// A list of three numbers.
const L: &str = r#"{"l":{"L":[{"N":"1"},{"N":"2"},{"N":"3"}]}}"#;

/// Two numbers.
const AB: &str = r#"{"a":{"N":"1"},"b":{"N":"2"}}"#;

/// A map with a list in it, beside a name with a dot.
const M: &str =
    r#"{"m":{"M":{"b":{"L":[{"S":"x"},{"M":{"c":{"S":"y"}}}]},"d":{"N":"5"}}},"m.b":{"S":"dotted"}}"#;

/// A set of each kind.
const SETS: &str =
    r#"{"bs":{"BS":["AQ==","Aw=="]},"ns":{"NS":["1","2","3"]},"ss":{"SS":["a","b"]}}"#;

/// The greatest whole number of 38 digits.
const MOST: &str = r#"{"most":{"N":"99999999999999999999999999999999999999"}}"#;

/// Sums are exact to 38 digits.
static SUMS: [Row; 28] = [
    (
        AB,
        "SET a = a + :half",
        Ok(r#"{"a":{"N":"1.5"},"b":{"N":"2"}}"#),
    ),
    (AB, "SET a = a - b", Ok(r#"{"a":{"N":"-1"},"b":{"N":"2"}}"#)),
    (AB, "SET a = b - a", Ok(r#"{"a":{"N":"1"},"b":{"N":"2"}}"#)),
    (
        AB,
        "SET c = :one - :half",
        Ok(r#"{"a":{"N":"1"},"b":{"N":"2"},"c":{"N":"0.5"}}"#),
    ),
    (AB, "SET a = a - a", Ok(r#"{"a":{"N":"0"},"b":{"N":"2"}}"#)),
    (
        AB,
        "SET a = :two+:seven",
        Ok(r#"{"a":{"N":"9"},"b":{"N":"2"}}"#),
    ),
    (
        MOST,
        "SET most = most - :one",
        Ok(r#"{"most":{"N":"99999999999999999999999999999999999998"}}"#),
    ),
    (
        MOST,
        "SET most = most + :one",
        Ok(r#"{"most":{"N":"100000000000000000000000000000000000000"}}"#),
    ),
    (
        MOST,
        "SET most = most + :half",
        Err(UpdateFault::BadNumber(NumberFault::TooManyDigits)),
    ),
    (
        MOST,
        "SET most = :round + :one",
        Ok(r#"{"most":{"N":"10000000000000000000000000000000000001"}}"#),
    ),
    (
        MOST,
        "SET most = :wide + :one",
        Err(UpdateFault::BadNumber(NumberFault::TooManyDigits)),
    ),
    (
        MOST,
        "SET most = :wide - :one",
        Ok(r#"{"most":{"N":"99999999999999999999999999999999999999"}}"#),
    ),
    (
        MOST,
        "SET most = :big + :least",
        Err(UpdateFault::BadNumber(NumberFault::TooManyDigits)),
    ),
    (
        MOST,
        "SET most = :top + :big",
        Err(UpdateFault::BadNumber(NumberFault::TooLarge)),
    ),
    (
        MOST,
        "SET most = :nines - :big",
        Ok(
            r#"{"most":{"N":"899999999999999999999999999999999999990000000000000000000000000000000000000000000000000000000000000000000000000000000000000000"}}"#,
        ),
    ),
    (
        MOST,
        "SET most = :nines + :big",
        Err(UpdateFault::BadNumber(NumberFault::TooManyDigits)),
    ),
    (
        MOST,
        "SET most = :less - :least",
        Err(UpdateFault::BadNumber(NumberFault::TooSmall)),
    ),
    (
        MOST,
        "SET most = :least + :less",
        Ok(
            r#"{"most":{"N":"0.00000000000000000000000000000000000000000000000000000000000000000000000000000000000000000000000000000000000000000000000000000000021"}}"#,
        ),
    ),
    (
        MOST,
        "ADD most :half",
        Err(UpdateFault::BadNumber(NumberFault::TooManyDigits)),
    ),
    (
        MOST,
        "ADD most :one",
        Ok(r#"{"most":{"N":"100000000000000000000000000000000000000"}}"#),
    ),
    (AB, "SET a = :x + :one", Err(UpdateFault::BadKind)),
    (AB, "SET a = :one + :x", Err(UpdateFault::BadKind)),
    (AB, "SET a = :one - :null", Err(UpdateFault::BadKind)),
    (AB, "SET a = :list + :list", Err(UpdateFault::BadKind)),
    (AB, "SET a = a + c", Err(UpdateFault::BadPath)),
    (AB, "SET a = c - a", Err(UpdateFault::BadPath)),
    (AB, "SET a = :set + :one", Err(UpdateFault::BadKind)),
    (
        L,
        "SET l = list_append(l, l) + :one",
        Err(UpdateFault::BadKind),
    ),
];

/// ADD adds to a number, unites with a set of its kind, or puts either where nothing was.
static ADDITIONS: [Row; 24] = [
    ("{}", "ADD a :one", Ok(r#"{"a":{"N":"1"}}"#)),
    (AB, "ADD a :two", Ok(r#"{"a":{"N":"3"},"b":{"N":"2"}}"#)),
    (
        AB,
        "ADD c :half, a :half",
        Ok(r#"{"a":{"N":"1.5"},"b":{"N":"2"},"c":{"N":"0.5"}}"#),
    ),
    (
        "{}",
        "ADD a :set, b :b, c :bins",
        Ok(r#"{"a":{"NS":["2","4"]},"b":{"SS":["b","c"]},"c":{"BS":["AQ==","Ag=="]}}"#),
    ),
    (
        SETS,
        "ADD ns :set",
        Ok(r#"{"bs":{"BS":["AQ==","Aw=="]},"ns":{"NS":["1","2","3","4"]},"ss":{"SS":["a","b"]}}"#),
    ),
    (
        SETS,
        "ADD ss :b",
        Ok(r#"{"bs":{"BS":["AQ==","Aw=="]},"ns":{"NS":["1","2","3"]},"ss":{"SS":["a","b","c"]}}"#),
    ),
    (
        SETS,
        "ADD bs :bins",
        Ok(
            r#"{"bs":{"BS":["AQ==","Ag==","Aw=="]},"ns":{"NS":["1","2","3"]},"ss":{"SS":["a","b"]}}"#,
        ),
    ),
    (
        SETS,
        "ADD ss :all",
        Ok(r#"{"bs":{"BS":["AQ==","Aw=="]},"ns":{"NS":["1","2","3"]},"ss":{"SS":["a","b"]}}"#),
    ),
    (SETS, "ADD ns :b", Err(UpdateFault::BadKind)),
    (SETS, "ADD ss :set", Err(UpdateFault::BadKind)),
    (SETS, "ADD ss :bins", Err(UpdateFault::BadKind)),
    (SETS, "ADD bs :b", Err(UpdateFault::BadKind)),
    (SETS, "ADD ns :one", Err(UpdateFault::BadKind)),
    (AB, "ADD a :set", Err(UpdateFault::BadKind)),
    (AB, "ADD a :x", Err(UpdateFault::BadKind)),
    (AB, "ADD c :x", Err(UpdateFault::BadKind)),
    (AB, "ADD c :bin", Err(UpdateFault::BadKind)),
    (AB, "ADD c :bool", Err(UpdateFault::BadKind)),
    (AB, "ADD c :null", Err(UpdateFault::BadKind)),
    (AB, "ADD c :list", Err(UpdateFault::BadKind)),
    (AB, "ADD c :map", Err(UpdateFault::BadKind)),
    (L, "ADD l :list", Err(UpdateFault::BadKind)),
    (M, "ADD m :map", Err(UpdateFault::BadKind)),
    (M, "ADD #dotted :x", Err(UpdateFault::BadKind)),
];

/// DELETE takes members out of a set of its kind, and a set that is left empty is gone.
static DELETIONS: [Row; 19] = [
    (
        SETS,
        "DELETE ns :set",
        Ok(r#"{"bs":{"BS":["AQ==","Aw=="]},"ns":{"NS":["1","3"]},"ss":{"SS":["a","b"]}}"#),
    ),
    (
        SETS,
        "DELETE ss :b",
        Ok(r#"{"bs":{"BS":["AQ==","Aw=="]},"ns":{"NS":["1","2","3"]},"ss":{"SS":["a"]}}"#),
    ),
    (
        SETS,
        "DELETE bs :bins",
        Ok(r#"{"bs":{"BS":["Aw=="]},"ns":{"NS":["1","2","3"]},"ss":{"SS":["a","b"]}}"#),
    ),
    (
        SETS,
        "DELETE ss :all",
        Ok(r#"{"bs":{"BS":["AQ==","Aw=="]},"ns":{"NS":["1","2","3"]}}"#),
    ),
    (
        SETS,
        "DELETE ns :three, bs :both",
        Ok(r#"{"ss":{"SS":["a","b"]}}"#),
    ),
    (
        SETS,
        "DELETE ns :four",
        Ok(r#"{"bs":{"BS":["AQ==","Aw=="]},"ns":{"NS":["1","2","3"]},"ss":{"SS":["a","b"]}}"#),
    ),
    (
        SETS,
        "DELETE c :set, d :b, e :bins",
        Ok(r#"{"bs":{"BS":["AQ==","Aw=="]},"ns":{"NS":["1","2","3"]},"ss":{"SS":["a","b"]}}"#),
    ),
    ("{}", "DELETE a :set", Ok(r#"{}"#)),
    (SETS, "DELETE ns :b", Err(UpdateFault::BadKind)),
    (SETS, "DELETE ss :set", Err(UpdateFault::BadKind)),
    (SETS, "DELETE ss :bins", Err(UpdateFault::BadKind)),
    (SETS, "DELETE bs :b", Err(UpdateFault::BadKind)),
    (SETS, "DELETE ns :one", Err(UpdateFault::BadKind)),
    (AB, "DELETE a :one", Err(UpdateFault::BadKind)),
    (AB, "DELETE a :set", Err(UpdateFault::BadKind)),
    (L, "DELETE l :list", Err(UpdateFault::BadKind)),
    (M, "DELETE m :b", Err(UpdateFault::BadKind)),
    (AB, "DELETE c :one", Err(UpdateFault::BadKind)),
    (AB, "DELETE c :x", Err(UpdateFault::BadKind)),
];

#[test]
fn sums_are_exact_to_38_digits(rt: HostRuntime) {
    for row in &SUMS {
        assert!(rt; is_row(rt.alloc(), row), "{}", row.1);
    }
}

#[test]
fn additions_add_unite_or_put(rt: HostRuntime) {
    for row in &ADDITIONS {
        assert!(rt; is_row(rt.alloc(), row), "{}", row.1);
    }
}

#[test]
fn deletions_take_members_out(rt: HostRuntime) {
    for row in &DELETIONS {
        assert!(rt; is_row(rt.alloc(), row), "{}", row.1);
    }
}
