//! A condition for many items: what names no attribute is decided once, and its answer stands in its place.

ghost use Rattle.std.specs.Prelude.{◌≡◌, ◌&&◌, map, IfOk, IfSome};
ghost use Rattle.std.specs.List.{list_any};
ghost use Rattle.alt_value.specs.Stands.{tree_of};
ghost use Rattle.alt_expr.specs.declared.cond.Cond.TheVariants as cond;
ghost use Rattle.alt_expr.specs.declared.cond.Comparison.{Comparison};
ghost use Rattle.alt_expr.specs.Holds as spec;
ghost use Rattle.alt_expr.specs.Located.{View};
ghost use Rattle.alt_condeval.specs.Settled.{HoldsAs, EachAs, HoldsAsTold, IsGiven};

use crate::compared::compares;
use crate::contained::{begins, contains};
use crate::copies::{copied_operand, copied_operands, copied_path};
use crate::denoted::Denoted;
use alt_base::NoMemory;
use alt_expr::{Boxed, Comparison, Cond, CondList, Items, Operand, OperandList, PathPart};
use alt_value::Attr;
use std::alloc::Global;

/// A condition that holds of the same items, in which the answer stands wherever given values alone are compared or sought. So for
/// many items each of these costs what it costs for one.
#[cycle(settled)]
#[tactic(auto, using(crate::proofs::Alike::laws))]
pub fn settled(alloc: Global, cond: &Cond) -> Result<Cond, NoMemory>
    ensures same { IfOk result (λ c. HoldsAs cond.now c) }
{
    match cond {
        Cond::Any(members) => match settled_each(alloc, members.as_slice()) {
            Ok(members) => Ok(Cond::Any(members)),
            Err(e) => Err(e),
        },
        Cond::All(members) => match settled_each(alloc, members.as_slice()) {
            Ok(members) => Ok(Cond::All(members)),
            Err(e) => Err(e),
        },
        Cond::Not(inner) => match settled(alloc, inner.get()) {
            Ok(inner) => negated(alloc, inner),
            Err(e) => Err(e),
        },
        Cond::Compare(by, a, b) => compare(alloc, *by, a, b),
        Cond::Between(a, low, high) => between(alloc, a, low, high),
        Cond::Among(a, operands) => among(alloc, a, operands),
        Cond::Exists(path) => exists(alloc, path.as_slice()),
        Cond::NotExists(path) => exists_not(alloc, path.as_slice()),
        Cond::HasKind(path, name) => has_kind(alloc, path.as_slice(), name),
        Cond::BeginsWith(a, front) => begins_with(alloc, a, front),
        Cond::Contains(a, b) => containing(alloc, a, b),
    }
}

#[cycle(settled)]
fn settled_each(alloc: Global, members: &[Cond]) -> Result<CondList, NoMemory>
    ensures { IfOk result (λ cs. EachAs members.now cs) }
{
    let mut list = Items::new(alloc);
    for member in members {
        list.push(settled(alloc, member)?)?;
    }
    Ok(list)
}

#[tactic(auto, using(crate::proofs::Alike::laws))]
fn negated(alloc: Global, inner: Cond) -> Result<Cond, NoMemory>
    ensures { IfOk result (λ c. c ≡ cond.Not inner) }
{
    match Boxed::new(alloc, inner) {
        Ok(inner) => Ok(Cond::Not(inner)),
        Err(e) => Err(e),
    }
}

/// A condition that holds of every item, or of none: that all of no conditions hold, or one of none.
fn answer(alloc: Global, truth: bool) -> Cond
    ensures { HoldsAsTold (λ _. truth) result }
{
    if truth {
        Cond::All(Items::new(alloc))
    } else {
        Cond::Any(Items::new(alloc))
    }
}

/// The value of an operand that names no attribute.
fn given(operand: &Operand) -> Option<&Attr>
    ensures { IfSome result (λ value. IsGiven operand.now (tree_of value.now)) }
{
    match operand {
        Operand::Value(value) => Some(value.get()),
        _ => None,
    }
}

fn compare(alloc: Global, by: Comparison, a: &Operand, b: &Operand) -> Result<Cond, NoMemory>
    ensures { IfOk result (HoldsAsTold (λ item.
        spec.compares by (spec.denoted item a.now) (spec.denoted item b.now))) }
{
    match (given(a), given(b)) {
        (Some(x), Some(y)) => {
            let truth = compares(by, &Denoted::Borrowed(x), &Denoted::Borrowed(y));
            Ok(answer(alloc, truth))
        }
        _ => {
            let a = copied_operand(alloc, a)?;
            let b = copied_operand(alloc, b)?;
            Ok(Cond::Compare(by, a, b))
        }
    }
}

/// A given value is compared with each bound by itself.
fn between(alloc: Global, a: &Operand, low: &Operand, high: &Operand) -> Result<Cond, NoMemory>
    ensures { IfOk result (HoldsAsTold (λ item.
        spec.compares Comparison.GreaterEqual (spec.denoted item a.now) (spec.denoted item low.now)
        && spec.compares Comparison.LessEqual (spec.denoted item a.now)
        (spec.denoted item high.now))) }
{
    if given(a).is_some() {
        let mut both = Items::new(alloc);
        both.push(compare(alloc, Comparison::GreaterEqual, a, low)?)?;
        both.push(compare(alloc, Comparison::LessEqual, a, high)?)?;
        return Ok(Cond::All(both));
    }
    let a = copied_operand(alloc, a)?;
    let low = copied_operand(alloc, low)?;
    let high = copied_operand(alloc, high)?;
    Ok(Cond::Between(a, low, high))
}

/// A given value is compared with each operand by itself.
fn among(alloc: Global, a: &Operand, operands: &OperandList) -> Result<Cond, NoMemory>
    ensures { IfOk result (HoldsAsTold (λ item. list_any
        (λ y. spec.equal (spec.denoted item a.now) (spec.denoted item y)) operands.now)) }
{
    let list = operands.as_slice();
    if given(a).is_some() {
        return match equal_to_each(alloc, a, list) {
            Ok(any) => Ok(Cond::Any(any)),
            Err(e) => Err(e),
        };
    }
    let operands = copied_operands(alloc, list)?;
    let a = copied_operand(alloc, a)?;
    Ok(Cond::Among(a, operands))
}

fn equal_to_each(alloc: Global, a: &Operand, operands: &[Operand]) -> Result<CondList, NoMemory>
    ensures { IfOk result (λ cs. (item : View) → map (spec.holds item) cs
        ≡ map (λ y. spec.equal (spec.denoted item a.now) (spec.denoted item y)) operands.now) }
{
    let mut any = Items::new(alloc);
    for operand in operands {
        any.push(compare(alloc, Comparison::Equal, a, operand)?)?;
    }
    Ok(any)
}

fn exists(alloc: Global, path: &[PathPart]) -> Result<Cond, NoMemory>
    ensures { IfOk result (λ c. c ≡ cond.Exists path.now) }
{
    match copied_path(alloc, path) {
        Ok(path) => Ok(Cond::Exists(path)),
        Err(e) => Err(e),
    }
}

fn exists_not(alloc: Global, path: &[PathPart]) -> Result<Cond, NoMemory>
    ensures { IfOk result (λ c. c ≡ cond.NotExists path.now) }
{
    match copied_path(alloc, path) {
        Ok(path) => Ok(Cond::NotExists(path)),
        Err(e) => Err(e),
    }
}

fn has_kind(alloc: Global, path: &[PathPart], name: &Operand) -> Result<Cond, NoMemory>
    ensures { IfOk result (λ c. c ≡ cond.HasKind path.now name.now) }
{
    let path = copied_path(alloc, path)?;
    let name = copied_operand(alloc, name)?;
    Ok(Cond::HasKind(path, name))
}

fn begins_with(alloc: Global, a: &Operand, front: &Operand) -> Result<Cond, NoMemory>
    ensures { IfOk result (HoldsAsTold (λ item.
        spec.begins (spec.denoted item a.now) (spec.denoted item front.now))) }
{
    match (given(a), given(front)) {
        (Some(x), Some(y)) => {
            let truth = begins(&Denoted::Borrowed(x), &Denoted::Borrowed(y));
            Ok(answer(alloc, truth))
        }
        _ => {
            let a = copied_operand(alloc, a)?;
            let front = copied_operand(alloc, front)?;
            Ok(Cond::BeginsWith(a, front))
        }
    }
}

fn containing(alloc: Global, a: &Operand, b: &Operand) -> Result<Cond, NoMemory>
    ensures { IfOk result (HoldsAsTold (λ item.
        spec.contains (spec.denoted item a.now) (spec.denoted item b.now))) }
{
    match (given(a), given(b)) {
        (Some(x), Some(y)) => {
            let truth = contains(&Denoted::Borrowed(x), &Denoted::Borrowed(y));
            Ok(answer(alloc, truth))
        }
        _ => {
            let a = copied_operand(alloc, a)?;
            let b = copied_operand(alloc, b)?;
            Ok(Cond::Contains(a, b))
        }
    }
}
