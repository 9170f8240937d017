//! Updates: the places that SET and REMOVE change.

use crate::tests::updating::{Row, is_row};
use alt_updeval::UpdateFault;

/// A list of three numbers.
const L: &str = r#"{"l":{"L":[{"N":"1"},{"N":"2"},{"N":"3"}]}}"#;

/// Two numbers.
const AB: &str = r#"{"a":{"N":"1"},"b":{"N":"2"}}"#;

/// A map with a list in it, beside a name with a dot.
const M: &str =
    r#"{"m":{"M":{"b":{"L":[{"S":"x"},{"M":{"c":{"S":"y"}}}]},"d":{"N":"5"}}},"m.b":{"S":"dotted"}}"#;

/// SET puts attributes, entries of maps and elements of lists, and each needs its parent.
static PUTS: [Row; 33] = [
    ("{}", "SET a = :x", Ok(r#"{"a":{"S":"x"}}"#)),
    ("{}", "SET a.b = :x", Err(UpdateFault::BadPath)),
    (
        AB,
        "SET c = :null",
        Ok(r#"{"a":{"N":"1"},"b":{"N":"2"},"c":{"NULL":true}}"#),
    ),
    (AB, "SET #a = :x", Ok(r#"{"a":{"S":"x"},"b":{"N":"2"}}"#)),
    (
        AB,
        "SET if_not_exists = :x, list_append = a",
        Ok(r#"{"a":{"N":"1"},"b":{"N":"2"},"if_not_exists":{"S":"x"},"list_append":{"N":"1"}}"#),
    ),
    (AB, "SET a.b = :x", Err(UpdateFault::BadKind)),
    (AB, "SET a[0] = :x", Err(UpdateFault::BadKind)),
    (AB, "SET c.d = :x", Err(UpdateFault::BadPath)),
    (AB, "SET c[0] = :x", Err(UpdateFault::BadPath)),
    (
        M,
        "SET #dotted = :x",
        Ok(
            r#"{"m":{"M":{"b":{"L":[{"S":"x"},{"M":{"c":{"S":"y"}}}]},"d":{"N":"5"}}},"m.b":{"S":"x"}}"#,
        ),
    ),
    (
        M,
        "SET m.d = :x",
        Ok(
            r#"{"m":{"M":{"b":{"L":[{"S":"x"},{"M":{"c":{"S":"y"}}}]},"d":{"S":"x"}}},"m.b":{"S":"dotted"}}"#,
        ),
    ),
    (
        M,
        "SET m.a = :x",
        Ok(
            r#"{"m":{"M":{"a":{"S":"x"},"b":{"L":[{"S":"x"},{"M":{"c":{"S":"y"}}}]},"d":{"N":"5"}}},"m.b":{"S":"dotted"}}"#,
        ),
    ),
    (
        M,
        "SET m.#dotted = :x",
        Ok(
            r#"{"m":{"M":{"b":{"L":[{"S":"x"},{"M":{"c":{"S":"y"}}}]},"d":{"N":"5"},"m.b":{"S":"x"}}},"m.b":{"S":"dotted"}}"#,
        ),
    ),
    (
        M,
        "SET m.#set = :x, m.a = :one",
        Ok(
            r#"{"m":{"M":{"a":{"N":"1"},"b":{"L":[{"S":"x"},{"M":{"c":{"S":"y"}}}]},"d":{"N":"5"},"set":{"S":"x"}}},"m.b":{"S":"dotted"}}"#,
        ),
    ),
    (
        M,
        "SET m.b[1].c = :one, m.b[0] = :y, m.b[1].d = :x",
        Ok(
            r#"{"m":{"M":{"b":{"L":[{"S":"y"},{"M":{"c":{"N":"1"},"d":{"S":"x"}}}]},"d":{"N":"5"}}},"m.b":{"S":"dotted"}}"#,
        ),
    ),
    (M, "SET m.b[1].c.d = :x", Err(UpdateFault::BadKind)),
    (M, "SET m.b[2].c = :x", Err(UpdateFault::BadPath)),
    (M, "SET m.b.c = :x", Err(UpdateFault::BadKind)),
    (M, "SET m[0] = :x", Err(UpdateFault::BadKind)),
    (M, "SET m.k.c = :x", Err(UpdateFault::BadPath)),
    (
        M,
        "SET m = :x",
        Ok(r#"{"m":{"S":"x"},"m.b":{"S":"dotted"}}"#),
    ),
    (
        L,
        "SET l[1] = :x",
        Ok(r#"{"l":{"L":[{"N":"1"},{"S":"x"},{"N":"3"}]}}"#),
    ),
    (
        L,
        "SET l[01] = :x",
        Ok(r#"{"l":{"L":[{"N":"1"},{"S":"x"},{"N":"3"}]}}"#),
    ),
    (
        L,
        "SET l[3] = :x",
        Ok(r#"{"l":{"L":[{"N":"1"},{"N":"2"},{"N":"3"},{"S":"x"}]}}"#),
    ),
    (
        L,
        "SET l[999999999] = :x",
        Ok(r#"{"l":{"L":[{"N":"1"},{"N":"2"},{"N":"3"},{"S":"x"}]}}"#),
    ),
    (
        L,
        "SET l[9] = :eight, l[5] = :seven",
        Ok(r#"{"l":{"L":[{"N":"1"},{"N":"2"},{"N":"3"},{"N":"7"},{"N":"8"}]}}"#),
    ),
    (
        L,
        "SET l[3] = :one, l[2] = :two, l[10] = :seven, l[4] = :eight",
        Ok(r#"{"l":{"L":[{"N":"1"},{"N":"2"},{"N":"2"},{"N":"1"},{"N":"8"},{"N":"7"}]}}"#),
    ),
    (
        L,
        "SET l[0] = :seven, l[9] = :eight REMOVE l[1]",
        Ok(r#"{"l":{"L":[{"N":"7"},{"N":"3"},{"N":"8"}]}}"#),
    ),
    (
        L,
        "SET l[9] = :eight REMOVE l[0], l[1], l[2]",
        Ok(r#"{"l":{"L":[{"N":"8"}]}}"#),
    ),
    (L, "SET l[0].a = :x", Err(UpdateFault::BadKind)),
    (
        L,
        "SET l[0] = :none, l[1][0] = :x",
        Err(UpdateFault::BadKind),
    ),
    (L, "SET l[3][0] = :x", Err(UpdateFault::BadPath)),
    (L, "SET l.a = :x", Err(UpdateFault::BadKind)),
];

/// REMOVE counts by the old list, and does nothing where nothing is.
static REMOVALS: [Row; 29] = [
    ("{}", "REMOVE a", Ok(r#"{}"#)),
    ("{}", "REMOVE a.b", Err(UpdateFault::BadPath)),
    (AB, "REMOVE c", Ok(r#"{"a":{"N":"1"},"b":{"N":"2"}}"#)),
    (AB, "REMOVE a, b", Ok(r#"{}"#)),
    (AB, "REMOVE a.b", Err(UpdateFault::BadKind)),
    (AB, "REMOVE c.d", Err(UpdateFault::BadPath)),
    (AB, "REMOVE a[0]", Err(UpdateFault::BadKind)),
    (AB, "REMOVE c[0]", Err(UpdateFault::BadPath)),
    (
        L,
        "REMOVE l[5]",
        Ok(r#"{"l":{"L":[{"N":"1"},{"N":"2"},{"N":"3"}]}}"#),
    ),
    (
        L,
        "REMOVE l[3]",
        Ok(r#"{"l":{"L":[{"N":"1"},{"N":"2"},{"N":"3"}]}}"#),
    ),
    (L, "REMOVE l[0]", Ok(r#"{"l":{"L":[{"N":"2"},{"N":"3"}]}}"#)),
    (L, "REMOVE l[2]", Ok(r#"{"l":{"L":[{"N":"1"},{"N":"2"}]}}"#)),
    (L, "REMOVE l[0], l[1]", Ok(r#"{"l":{"L":[{"N":"3"}]}}"#)),
    (L, "REMOVE l[1], l[0]", Ok(r#"{"l":{"L":[{"N":"3"}]}}"#)),
    (L, "REMOVE l[0], l[2]", Ok(r#"{"l":{"L":[{"N":"2"}]}}"#)),
    (L, "REMOVE l[0], l[1], l[2]", Ok(r#"{"l":{"L":[]}}"#)),
    (
        L,
        "REMOVE l[1], l[5]",
        Ok(r#"{"l":{"L":[{"N":"1"},{"N":"3"}]}}"#),
    ),
    (
        L,
        "REMOVE l[0] SET l[1] = :seven",
        Ok(r#"{"l":{"L":[{"N":"7"},{"N":"3"}]}}"#),
    ),
    (
        L,
        "REMOVE l[2] SET l[3] = :seven",
        Ok(r#"{"l":{"L":[{"N":"1"},{"N":"2"},{"N":"7"}]}}"#),
    ),
    (L, "REMOVE l.a", Err(UpdateFault::BadKind)),
    (L, "REMOVE l[0][0]", Err(UpdateFault::BadKind)),
    (L, "REMOVE l[3][0]", Err(UpdateFault::BadPath)),
    (L, "REMOVE l", Ok(r#"{}"#)),
    (
        M,
        "REMOVE m.d",
        Ok(r#"{"m":{"M":{"b":{"L":[{"S":"x"},{"M":{"c":{"S":"y"}}}]}}},"m.b":{"S":"dotted"}}"#),
    ),
    (
        M,
        "REMOVE m.k",
        Ok(
            r#"{"m":{"M":{"b":{"L":[{"S":"x"},{"M":{"c":{"S":"y"}}}]},"d":{"N":"5"}}},"m.b":{"S":"dotted"}}"#,
        ),
    ),
    (
        M,
        "REMOVE m.b, m.d",
        Ok(r#"{"m":{"M":{}},"m.b":{"S":"dotted"}}"#),
    ),
    (
        M,
        "REMOVE m.b[1].c, m.b[0]",
        Ok(r#"{"m":{"M":{"b":{"L":[{"M":{}}]},"d":{"N":"5"}}},"m.b":{"S":"dotted"}}"#),
    ),
    (M, "REMOVE m[0]", Err(UpdateFault::BadKind)),
    (
        M,
        "REMOVE #dotted",
        Ok(r#"{"m":{"M":{"b":{"L":[{"S":"x"},{"M":{"c":{"S":"y"}}}]},"d":{"N":"5"}}}}"#),
    ),
];

#[test]
fn what_is_set_is_put_at_its_path(rt: HostRuntime) {
    for row in &PUTS {
        assert!(rt; is_row(rt.alloc(), row), "{}", row.1);
    }
}

#[test]
fn removals_count_by_the_old_list(rt: HostRuntime) {
    for row in &REMOVALS {
        assert!(rt; is_row(rt.alloc(), row), "{}", row.1);
    }
}
