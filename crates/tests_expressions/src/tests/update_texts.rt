//! The texts of updates: which have actions, and else their first fault.

use crate::tests::updating::update;
use alt_expr::ExprFault;
use std::alloc::Global;

/// A text, and its fault; none where it has actions.
type Row = (&'static str, Option<ExprFault>);

/// Texts that are updates, and those that are not of the grammar.
static TEXTS: [Row; 81] = [
    ("SET a = :x", None),
    ("SET a=:x,b=:y", None),
    ("SET\ta\r\n= :x REMOVE b", None),
    ("SET a = :one+:two", None),
    ("SET a = b - :one", None),
    ("REMOVE a,b[0].c", None),
    ("ADD a :one, b :set", None),
    ("DELETE a :set", None),
    ("DELETE a :set ADD b :one REMOVE c SET d = :x", None),
    ("SET a = size, size = a", None),
    ("SET a = if_not_exists", None),
    ("SET list_append = list_append + :one", None),
    (
        "SET a = list_append(b, list_append(:list, c)) + if_not_exists(d[0].e, :one)",
        None,
    ),
    ("SET a = if_not_exists (#a.b, :x)", None),
    ("", Some(ExprFault::Syntax)),
    ("SET", Some(ExprFault::Syntax)),
    ("REMOVE", Some(ExprFault::Syntax)),
    ("ADD", Some(ExprFault::Syntax)),
    ("DELETE", Some(ExprFault::Syntax)),
    ("a = :x", Some(ExprFault::Syntax)),
    ("SET a", Some(ExprFault::Syntax)),
    ("SET a =", Some(ExprFault::Syntax)),
    ("SET = :x", Some(ExprFault::Syntax)),
    ("SET a = :x,", Some(ExprFault::Syntax)),
    ("SET , a = :x", Some(ExprFault::Syntax)),
    ("SET a = :x b = :x", Some(ExprFault::Syntax)),
    ("SET a = :x REMOVE", Some(ExprFault::Syntax)),
    ("SET a == :x", Some(ExprFault::Syntax)),
    ("SET a <> :x", Some(ExprFault::Syntax)),
    ("SET :x = a", Some(ExprFault::Syntax)),
    ("SET a. = :x", Some(ExprFault::Syntax)),
    ("SET .a = :x", Some(ExprFault::Syntax)),
    ("SET a[0 = :x", Some(ExprFault::Syntax)),
    ("SET a[-1] = :x", Some(ExprFault::Syntax)),
    ("SET a[1234567890] = :x", Some(ExprFault::Syntax)),
    ("SET a[:one] = :x", Some(ExprFault::Syntax)),
    ("SET a = (:x)", Some(ExprFault::Syntax)),
    ("SET a = - :one", Some(ExprFault::Syntax)),
    ("SET a = :x :y", Some(ExprFault::Syntax)),
    ("SET a = :one + :one + :one", Some(ExprFault::Syntax)),
    ("SET a = :one + ", Some(ExprFault::Syntax)),
    ("SET a = :one * :one", Some(ExprFault::Syntax)),
    ("SET a = size(b)", Some(ExprFault::Syntax)),
    ("SET a = If_not_exists(a, :x)", Some(ExprFault::Syntax)),
    ("SET a = LIST_APPEND(a, b)", Some(ExprFault::Syntax)),
    ("SET a = list_append(a)", Some(ExprFault::Syntax)),
    ("SET a = list_append(a, a, a)", Some(ExprFault::Syntax)),
    (
        "SET a = list_append(a, :one + :one)",
        Some(ExprFault::Syntax),
    ),
    ("SET a = if_not_exists(:x, :x)", Some(ExprFault::Syntax)),
    ("SET a = if_not_exists(a)", Some(ExprFault::Syntax)),
    ("SET a = if_not_exists(a, :x", Some(ExprFault::Syntax)),
    ("SET if_not_exists(a, :x) = :x", Some(ExprFault::Syntax)),
    ("SET set = :x", Some(ExprFault::Syntax)),
    ("SET a.add = :x", Some(ExprFault::Syntax)),
    ("SET a = delete", Some(ExprFault::Syntax)),
    ("SET a = :x AND b = :x", Some(ExprFault::Syntax)),
    ("SET a = :x OR", Some(ExprFault::Syntax)),
    ("NOT a", Some(ExprFault::Syntax)),
    ("SET a = :x $", Some(ExprFault::Syntax)),
    ("SET a = # ", Some(ExprFault::Syntax)),
    ("SET _a = :x", Some(ExprFault::Syntax)),
    ("REMOVE :x", Some(ExprFault::Syntax)),
    ("REMOVE a b", Some(ExprFault::Syntax)),
    ("REMOVE a,", Some(ExprFault::Syntax)),
    ("REMOVE a = :x", Some(ExprFault::Syntax)),
    ("REMOVE (a)", Some(ExprFault::Syntax)),
    ("ADD a", Some(ExprFault::Syntax)),
    ("ADD a b", Some(ExprFault::Syntax)),
    ("ADD a = :one", Some(ExprFault::Syntax)),
    ("ADD :one a", Some(ExprFault::Syntax)),
    ("ADD a.b :one", Some(ExprFault::Syntax)),
    ("ADD a[0] :one", Some(ExprFault::Syntax)),
    ("ADD a :one :one", Some(ExprFault::Syntax)),
    ("ADD a :one,", Some(ExprFault::Syntax)),
    ("ADD a list_append(b, b)", Some(ExprFault::Syntax)),
    ("DELETE a", Some(ExprFault::Syntax)),
    ("DELETE a b", Some(ExprFault::Syntax)),
    ("DELETE a = :set", Some(ExprFault::Syntax)),
    ("DELETE a.b :set", Some(ExprFault::Syntax)),
    ("DELETE a[0] :set", Some(ExprFault::Syntax)),
    ("DELETE a :set,", Some(ExprFault::Syntax)),
];

/// Words that aren't given, told after the grammar and before all else.
static GIVEN: [Row; 19] = [
    ("SET a = :none_such", Some(ExprFault::Undefined)),
    ("SET #none = :x", Some(ExprFault::Undefined)),
    ("SET a = #none", Some(ExprFault::Undefined)),
    ("SET a.#none = :x", Some(ExprFault::Undefined)),
    (
        "SET a = if_not_exists(#none, :x)",
        Some(ExprFault::Undefined),
    ),
    (
        "SET a = if_not_exists(a, :none_such)",
        Some(ExprFault::Undefined),
    ),
    (
        "SET a = list_append(:none_such, a)",
        Some(ExprFault::Undefined),
    ),
    ("SET a = :one - :none_such", Some(ExprFault::Undefined)),
    ("REMOVE a, #none", Some(ExprFault::Undefined)),
    ("ADD a :none_such", Some(ExprFault::Undefined)),
    ("ADD #none :one", Some(ExprFault::Undefined)),
    ("DELETE #none :set", Some(ExprFault::Undefined)),
    ("DELETE a :none_such", Some(ExprFault::Undefined)),
    ("SET a = :none_such SET b = :x", Some(ExprFault::Undefined)),
    ("REMOVE a, a, #none", Some(ExprFault::Undefined)),
    ("SET x = #dotted, x = #none", Some(ExprFault::Undefined)),
    ("SET a = :none_such,", Some(ExprFault::Syntax)),
    ("SET a = :none_such $", Some(ExprFault::Syntax)),
    ("ADD a.b :none_such", Some(ExprFault::Syntax)),
];

/// Clauses that stand twice, told before overlap.
static REPEATED: [Row; 9] = [
    ("SET a = :x SET b = :x", Some(ExprFault::RepeatedClause)),
    ("REMOVE a REMOVE b", Some(ExprFault::RepeatedClause)),
    ("ADD a :one ADD b :one", Some(ExprFault::RepeatedClause)),
    (
        "DELETE a :set DELETE b :set",
        Some(ExprFault::RepeatedClause),
    ),
    (
        "SET a = :x REMOVE b SET c = :x",
        Some(ExprFault::RepeatedClause),
    ),
    ("set a = :x SET b = :x", Some(ExprFault::RepeatedClause)),
    (
        "REMOVE a SET b = :x ADD c :one remove d",
        Some(ExprFault::RepeatedClause),
    ),
    ("SET a = :x SET a = :x", Some(ExprFault::RepeatedClause)),
    ("REMOVE a REMOVE a.b", Some(ExprFault::RepeatedClause)),
];

/// Targets of which one begins with another or equals it.
static OVERLAPS: [Row; 28] = [
    ("SET a = :x, a = :x", Some(ExprFault::Overlap)),
    ("SET #a = :x, a = :x", Some(ExprFault::Overlap)),
    ("SET a = :x REMOVE a", Some(ExprFault::Overlap)),
    ("REMOVE a, a", Some(ExprFault::Overlap)),
    ("ADD a :one, a :one", Some(ExprFault::Overlap)),
    ("ADD a :one DELETE a :set", Some(ExprFault::Overlap)),
    ("SET a.b = :x ADD a :one", Some(ExprFault::Overlap)),
    ("DELETE a :set REMOVE a[0]", Some(ExprFault::Overlap)),
    ("SET m.b = :x REMOVE m", Some(ExprFault::Overlap)),
    ("REMOVE m, m.b", Some(ExprFault::Overlap)),
    ("SET m.b = :x, m.b.c = :x", Some(ExprFault::Overlap)),
    ("SET m.b.c = :x, m.b.c = :y", Some(ExprFault::Overlap)),
    ("SET m.b.c.d = :x REMOVE m.b", Some(ExprFault::Overlap)),
    ("SET l[1] = :x, l[01] = :x", Some(ExprFault::Overlap)),
    ("SET l[1] = :x REMOVE l", Some(ExprFault::Overlap)),
    ("REMOVE l[0], l[0][0]", Some(ExprFault::Overlap)),
    ("REMOVE l[0].b, l[0]", Some(ExprFault::Overlap)),
    ("SET a.b = :x, a1 = :x, a = :x", Some(ExprFault::Overlap)),
    ("REMOVE b[1], c, b[10], b[1].d", Some(ExprFault::Overlap)),
    ("SET m.b = :x, m.c = :x", None),
    ("SET l[0] = :x REMOVE l[1]", None),
    ("SET l[1] = :x, l[10] = :x", None),
    ("SET m.b = :x, #dotted = :x", None),
    ("SET a = :x, ab = :x", None),
    ("SET l[0] = :x, l.a = :x", None),
    ("SET m.b.c = :x, m.d.c = :x REMOVE m.c", None),
    ("SET a = a, b = a.b", None),
    ("SET a = m, b = m.b, c = m", None),
];

fn has_fault(alloc: Global, text: &str, fault: Option<ExprFault>) -> bool {
    update(alloc, text).err() == fault
}

#[test]
fn texts_are_updates_or_not_of_the_grammar(rt: HostRuntime) {
    for (text, fault) in &TEXTS {
        assert!(rt; has_fault(rt.alloc(), text, *fault), "{text}");
    }
}

#[test]
fn words_that_are_not_given_are_told(rt: HostRuntime) {
    for (text, fault) in &GIVEN {
        assert!(rt; has_fault(rt.alloc(), text, *fault), "{text}");
    }
}

#[test]
fn repeated_clauses_are_told(rt: HostRuntime) {
    for (text, fault) in &REPEATED {
        assert!(rt; has_fault(rt.alloc(), text, *fault), "{text}");
    }
}

#[test]
fn overlapping_targets_are_told(rt: HostRuntime) {
    for (text, fault) in &OVERLAPS {
        assert!(rt; has_fault(rt.alloc(), text, *fault), "{text}");
    }
}
