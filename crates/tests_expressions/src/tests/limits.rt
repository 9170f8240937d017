//! Both sides of each limit of a text.

use crate::tests::given::{condition, names, values};
use alt_expr::ExprFault;
use alt_projection::parse as projection;
use alt_updparse::parse as update;
use std::alloc::Global;

/// A front, so many times a middle, a back, and the fault; none where the text has a tree.
type Limit = (
    &'static str,
    &'static str,
    usize,
    &'static str,
    Option<ExprFault>,
);

static CONDITIONS: [Limit; 20] = [
    ("a = :x", " ", 4090, "", None),
    ("a = :x", " ", 4091, "", Some(ExprFault::TooLong)),
    ("$", " ", 4096, "", Some(ExprFault::TooLong)),
    ("", "NOT ", 64, "a = :x", None),
    ("", "not ", 65, "a = :x", Some(ExprFault::TooDeep)),
    ("a = :x $", " NOT", 65, "", Some(ExprFault::Syntax)),
    ("(((a = :x)", "", 1, "))", None),
    (
        "",
        "(",
        64,
        "a = :x))))))))))))))))))))))))))))))))))))))))))))))))))))))))))))))))",
        None,
    ),
    (
        "",
        "(",
        65,
        "a = :x)))))))))))))))))))))))))))))))))))))))))))))))))))))))))))))))))",
        Some(ExprFault::TooDeep),
    ),
    ("", "(", 64, "a = :x", Some(ExprFault::Syntax)),
    ("", "(", 65, "a = :x", Some(ExprFault::TooDeep)),
    ("", "(", 64, "size(a) = :x", Some(ExprFault::TooDeep)),
    ("", "() ", 65, "a = :x", Some(ExprFault::Syntax)),
    ("a", ".a", 31, " = :x", None),
    ("a", ".a", 32, " = :x", Some(ExprFault::TooMany)),
    ("attribute_exists(a", "[0]", 31, ")", None),
    (
        "attribute_exists(a",
        "[0]",
        32,
        ")",
        Some(ExprFault::TooMany),
    ),
    ("a", ".a", 32, " = :y", Some(ExprFault::Undefined)),
    ("a IN (:x", ", :x", 99, ")", None),
    ("a IN (:x", ", :x", 100, ")", Some(ExprFault::TooMany)),
];

static PROJECTIONS: [Limit; 9] = [
    ("a", " ", 4095, "", None),
    ("a", " ", 4096, "", Some(ExprFault::TooLong)),
    ("", "(", 64, "a", Some(ExprFault::Syntax)),
    ("", "(", 65, "a", Some(ExprFault::TooDeep)),
    ("a", ".a", 31, "", None),
    ("a", ".a", 32, "", Some(ExprFault::TooMany)),
    ("a", "[999999999]", 31, ", a", Some(ExprFault::Overlap)),
    ("a", "[999999999]", 32, ", a", Some(ExprFault::TooMany)),
    ("a, #none", ".a", 32, "", Some(ExprFault::Undefined)),
];

static UPDATES: [Limit; 20] = [
    ("SET a = :x", " ", 4086, "", None),
    ("SET a = :x", " ", 4087, "", Some(ExprFault::TooLong)),
    ("$", " ", 4095, "", Some(ExprFault::Syntax)),
    ("$", " ", 4096, "", Some(ExprFault::TooLong)),
    (
        "SET a = ",
        "list_append(",
        64,
        ":x",
        Some(ExprFault::Syntax),
    ),
    (
        "SET a = ",
        "list_append(",
        65,
        ":x",
        Some(ExprFault::TooDeep),
    ),
    ("", "NOT ", 64, "a", Some(ExprFault::Syntax)),
    ("", "NOT ", 65, "a", Some(ExprFault::TooDeep)),
    ("SET a", ".a", 31, " = :x", None),
    ("SET a", ".a", 32, " = :x", Some(ExprFault::TooMany)),
    ("REMOVE b, a", "[0]", 31, "", None),
    ("REMOVE b, a", "[0]", 32, "", Some(ExprFault::TooMany)),
    ("SET b = :x - a", ".a", 31, "", None),
    ("SET b = :x - a", ".a", 32, "", Some(ExprFault::TooMany)),
    (
        "SET b = list_append(:x, a",
        ".a",
        32,
        ")",
        Some(ExprFault::TooMany),
    ),
    ("SET b = if_not_exists(a", "[0]", 31, ", :x)", None),
    (
        "SET b = if_not_exists(a",
        "[0]",
        32,
        ", :x)",
        Some(ExprFault::TooMany),
    ),
    (
        "SET b = :none, a",
        ".a",
        32,
        " = :x",
        Some(ExprFault::Undefined),
    ),
    ("REMOVE b REMOVE a", ".a", 32, "", Some(ExprFault::TooMany)),
    ("REMOVE a, a", ".a", 32, "", Some(ExprFault::TooMany)),
];

/// How deep if_not_exists stands in itself, and the fault.
static NESTS: [(usize, Option<ExprFault>); 4] = [
    (1, None),
    (63, None),
    (64, None),
    (65, Some(ExprFault::TooDeep)),
];

fn repeated(alloc: Global, limit: &Limit) -> Option<String> {
    let Ok(mut text) = String::from_str(alloc, limit.0) else {
        return None;
    };
    for _ in 0..limit.2 {
        let Ok(()) = text.push_str(limit.1) else {
            return None;
        };
    }
    let Ok(()) = text.push_str(limit.3) else {
        return None;
    };
    Some(text)
}

/// The fault of a condition's text, none where it has a tree.
fn fault_of_condition(alloc: Global, text: &str) -> Option<ExprFault> {
    let Some(mut names) = names(alloc, "{}") else {
        return Some(ExprFault::NoMemory);
    };
    let Some(mut values) = values(alloc, r#"{":x":{"S":"x"}}"#) else {
        return Some(ExprFault::NoMemory);
    };
    condition(alloc, text, &mut names, &mut values).err()
}

/// The fault of a projection's text, none where it has paths.
fn fault_of_projection(alloc: Global, text: &str) -> Option<ExprFault> {
    let Some(mut names) = names(alloc, "{}") else {
        return Some(ExprFault::NoMemory);
    };
    projection(alloc, text, &mut names).err()
}

/// The fault of an update's text, none where it has actions.
fn fault_of_update(alloc: Global, text: &str) -> Option<ExprFault> {
    let Some(mut names) = names(alloc, "{}") else {
        return Some(ExprFault::NoMemory);
    };
    let Some(mut values) = values(alloc, r#"{":x":{"S":"x"}}"#) else {
        return Some(ExprFault::NoMemory);
    };
    update(alloc, text, &mut names, &mut values).err()
}

fn is_limit_of_updates(alloc: Global, limit: &Limit) -> bool {
    match repeated(alloc, limit) {
        Some(text) => fault_of_update(alloc, text.as_str()) == limit.4,
        None => false,
    }
}

fn is_limit_of_nests(alloc: Global, depth: usize, fault: Option<ExprFault>) -> bool {
    let Some(mut text) = repeated(alloc, &("SET a = ", "if_not_exists(b, ", depth, ":x", None))
    else {
        return false;
    };
    let Some(brackets) = repeated(alloc, &("", ")", depth, "", None)) else {
        return false;
    };
    match text.push_str(brackets.as_str()) {
        Ok(()) => fault_of_update(alloc, text.as_str()) == fault,
        Err(_) => false,
    }
}

fn is_limit_of_conditions(alloc: Global, limit: &Limit) -> bool {
    match repeated(alloc, limit) {
        Some(text) => fault_of_condition(alloc, text.as_str()) == limit.4,
        None => false,
    }
}

fn is_limit_of_projections(alloc: Global, limit: &Limit) -> bool {
    match repeated(alloc, limit) {
        Some(text) => fault_of_projection(alloc, text.as_str()) == limit.4,
        None => false,
    }
}

#[test]
fn limits_of_conditions_hold_on_both_sides(rt: HostRuntime) {
    for limit in &CONDITIONS {
        assert!(rt;
            is_limit_of_conditions(rt.alloc(), limit),
            "{} {}",
            limit.1,
            limit.2
        );
    }
}

#[test]
fn limits_of_projections_hold_on_both_sides(rt: HostRuntime) {
    for limit in &PROJECTIONS {
        assert!(rt;
            is_limit_of_projections(rt.alloc(), limit),
            "{} {}",
            limit.1,
            limit.2
        );
    }
}

#[test]
fn limits_of_updates_hold_on_both_sides(rt: HostRuntime) {
    for limit in &UPDATES {
        assert!(rt;
            is_limit_of_updates(rt.alloc(), limit),
            "{} {}",
            limit.1,
            limit.2
        );
    }
}

#[test]
fn functions_nest_64_deep_in_updates(rt: HostRuntime) {
    for (depth, fault) in &NESTS {
        assert!(rt; is_limit_of_nests(rt.alloc(), *depth, *fault), "{depth}");
    }
}
