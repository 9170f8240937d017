//! Paths and lists that are too long.

ghost use Rattle.std.specs.Prelude.{◌≡◌};
ghost use Rattle.std.specs.List.{list_any};
ghost use Rattle.alt_expr.specs.Crowded as spec;

use alt_expr::{Cond, Operand, PathPart};

/// How many parts a path may have.
const MOST_PARTS: usize = 32;

/// How many operands the list of an IN may have.
const MOST_OPERANDS: usize = 100;

/// Whether a path of a condition has too many parts, or the list of an IN too many operands.
#[cycle(crowded)]
#[tactic(auto, using(crate::proofs::CrowdedLaws::any_law, crate::proofs::CrowdedLaws::all_law, crate::proofs::CrowdedLaws::not_law, crate::proofs::CrowdedLaws::compare_law, crate::proofs::CrowdedLaws::between_law, crate::proofs::CrowdedLaws::among_law, crate::proofs::CrowdedLaws::exists_law, crate::proofs::CrowdedLaws::not_exists_law, crate::proofs::CrowdedLaws::kind_law, crate::proofs::CrowdedLaws::begins_law, crate::proofs::CrowdedLaws::contains_law))]
pub(crate) fn is_crowded(condition: &Cond) -> bool
    ensures { result ≡ spec.is_crowded condition.now }
{
    match condition {
        Cond::Any(members) => is_one_crowded(members.as_slice()),
        Cond::All(members) => is_one_crowded(members.as_slice()),
        Cond::Not(inner) => is_crowded(inner.get()),
        Cond::Compare(_, a, b) => has_long(a) || has_long(b),
        Cond::Between(a, low, high) => has_long(a) || has_long(low) || has_long(high),
        Cond::Among(a, list) => has_long(a)
            || list.len() > MOST_OPERANDS
            || has_one_long(list.as_slice()),
        Cond::Exists(path) => is_long(path.as_slice()),
        Cond::NotExists(path) => is_long(path.as_slice()),
        Cond::HasKind(path, a) => is_long(path.as_slice()) || has_long(a),
        Cond::BeginsWith(a, b) => has_long(a) || has_long(b),
        Cond::Contains(a, b) => has_long(a) || has_long(b),
    }
}

#[cycle(crowded)]
fn is_one_crowded(members: &[Cond]) -> bool
    ensures { result ≡ list_any spec.is_crowded members.now }
{
    for member in members {
        if is_crowded(member) {
            return true;
        }
    }
    false
}

fn has_one_long(operands: &[Operand]) -> bool
    ensures { result ≡ list_any spec.has_long operands.now }
{
    for operand in operands {
        if has_long(operand) {
            return true;
        }
    }
    false
}

fn has_long(operand: &Operand) -> bool
    ensures { result ≡ spec.has_long operand.now }
{
    match operand {
        Operand::At(path) => is_long(path.as_slice()),
        Operand::Value(_) => false,
        Operand::Size(path) => is_long(path.as_slice()),
    }
}

fn is_long(path: &[PathPart]) -> bool
    ensures { result ≡ spec.is_long path.now }
{
    path.len() > MOST_PARTS
}
