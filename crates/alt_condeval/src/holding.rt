//! Conditions, from their parts up.

ghost use Rattle.std.specs.Prelude.{◌≡◌};
ghost use Rattle.std.specs.List.{list_any, list_all};
ghost use Rattle.alt_expr.specs.Holds as spec;

use crate::compared::{compares, is_among, is_between};
use crate::contained::{begins, contains};
use crate::denoted::{at, value_of};
use crate::kinds::has_kind;
use alt_expr::{AttrView, Cond, located};

/// Whether a condition holds of an item.
#[cycle(holds)]
#[tactic(auto, using(alt_expr::proofs::HoldsLaws::laws))]
pub fn holds<V: AttrView>(cond: &Cond, view: &V) -> bool
    ensures holds { result ≡ spec.holds (V.attribute view.now) cond.now }
{
    match cond {
        Cond::Any(members) => any(members.as_slice(), view),
        Cond::All(members) => all(members.as_slice(), view),
        Cond::Not(inner) => !holds(inner.get(), view),
        Cond::Compare(by, a, b) => compares(*by, &value_of(a, view), &value_of(b, view)),
        Cond::Between(a, low, high) => {
            is_between(
                &value_of(a, view),
                &value_of(low, view),
                &value_of(high, view),
            )
        }
        Cond::Among(a, operands) => is_among(&value_of(a, view), operands.as_slice(), view),
        Cond::Exists(path) => located(path.as_slice(), view).is_some(),
        Cond::NotExists(path) => located(path.as_slice(), view).is_none(),
        Cond::HasKind(path, name) => has_kind(&at(path.as_slice(), view), &value_of(name, view)),
        Cond::BeginsWith(a, front) => begins(&value_of(a, view), &value_of(front, view)),
        Cond::Contains(a, b) => contains(&value_of(a, view), &value_of(b, view)),
    }
}

#[cycle(holds)]
fn any<V: AttrView>(members: &[Cond], view: &V) -> bool
    ensures { result ≡ list_any (spec.holds (V.attribute view.now)) members.now }
{
    for member in members {
        if holds(member, view) {
            return true;
        }
    }
    false
}

#[cycle(holds)]
fn all<V: AttrView>(members: &[Cond], view: &V) -> bool
    ensures { result ≡ list_all (spec.holds (V.attribute view.now)) members.now }
{
    for member in members {
        if !holds(member, view) {
            return false;
        }
    }
    true
}
