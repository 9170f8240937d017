//! Operands that are compared: as equal values, or by the order of two texts, numbers or binaries.

ghost use Rattle.std.specs.Prelude.{◌≡◌, ◌&&◌};
ghost use Rattle.std.specs.List.{list_any};
ghost use Rattle.alt_value.specs.Stands.{tree_of};
ghost use Rattle.alt_expr.specs.Holds as spec;
ghost use Rattle.alt_condeval.specs.Denoted.{stands_for};

use crate::denoted::{Denoted, value_of};
use alt_expr::{AttrView, Comparison, Operand};
use alt_value::{Attr, equal, order};
use std::cmp::Ordering;

/// Whether two operands compare so.
pub fn compares(by: Comparison, a: &Denoted<'_>, b: &Denoted<'_>) -> bool
    ensures { result ≡ spec.compares by (stands_for a.now) (stands_for b.now) }
{
    match by {
        Comparison::Equal => is_same(a, b),
        Comparison::NotEqual => !is_same(a, b),
        Comparison::Less => match order_of(a, b) {
            Some(found) => found.is_lt(),
            None => false,
        },
        Comparison::LessEqual => match order_of(a, b) {
            Some(found) => found.is_le(),
            None => false,
        },
        Comparison::Greater => match order_of(a, b) {
            Some(found) => found.is_gt(),
            None => false,
        },
        Comparison::GreaterEqual => match order_of(a, b) {
            Some(found) => found.is_ge(),
            None => false,
        },
    }
}

/// From `low` to `high`, both included.
pub fn is_between(a: &Denoted<'_>, low: &Denoted<'_>, high: &Denoted<'_>) -> bool
    ensures { result
        ≡ (spec.compares Comparison.GreaterEqual (stands_for a.now) (stands_for low.now)
        && spec.compares Comparison.LessEqual (stands_for a.now) (stands_for high.now)) }
{
    compares(Comparison::GreaterEqual, a, low) && compares(Comparison::LessEqual, a, high)
}

/// Equal to one of the operands.
pub fn is_among<V: AttrView>(a: &Denoted<'_>, operands: &[Operand], view: &V) -> bool
    ensures { result
        ≡ list_any (λ y. spec.equal (stands_for a.now) (spec.denoted (V.attribute view.now) y))
        operands.now }
{
    for operand in operands {
        if is_same(a, &value_of(operand, view)) {
            return true;
        }
    }
    false
}

/// Both are there, and are one value.
fn is_same(a: &Denoted<'_>, b: &Denoted<'_>) -> bool
    ensures { result ≡ spec.equal (stands_for a.now) (stands_for b.now) }
{
    match a.get() {
        Some(x) => match b.get() {
            Some(y) => same(x, y),
            None => false,
        },
        None => false,
    }
}

/// Two values are one value.
pub fn same(a: &Attr, b: &Attr) -> bool
    ensures { result ≡ spec.same (tree_of a.now) (tree_of b.now) }
{
    equal(a, b)
}

fn order_of(a: &Denoted<'_>, b: &Denoted<'_>) -> Option<Ordering>
    ensures { result ≡ spec.order (stands_for a.now) (stands_for b.now) }
{
    match a.get() {
        Some(x) => match b.get() {
            Some(y) => order(x, y),
            None => None,
        },
        None => None,
    }
}
