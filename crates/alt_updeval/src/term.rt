//! Terms and sums: what they stand for, over the item before the update.

ghost use Rattle.std.specs.Prelude.{◌≡◌, Ok};
ghost use Rattle.alt_value.specs.Stands.{tree_of};
ghost use Rattle.alt_expr.specs.Updated as spec;
ghost use Rattle.alt_updeval.specs.Answers.{AnswersAsDefined};
ghost use Rattle.alt_updeval.specs.Shown.{made_tree, operand_value, joined_pieces, list_in_tree, number_in_tree};

use crate::UpdateFault;
use crate::made::Made;
use alt_decimal::{Decimal, NumberFault};
use alt_expr::{AttrView, Sum, Term, located};
use alt_value::Attr;
use std::alloc::Global;

/// What an operand stands for.
#[derive(Drop)]
pub(crate) enum Operand<'a> {
    One(&'a Attr),
    /// The elements of all lists, one list behind another.
    Lists(Vec<&'a Attr>),
}

/// What is put at a path: the operands from left to right, then the sum.
pub(crate) fn sum_of<'a, V: AttrView>(
    alloc: Global,
    sum: &'a Sum,
    view: &'a V,
) -> Result<Made<'a>, UpdateFault>
    ensures { AnswersAsDefined made_tree result (spec.sum_of (V.attribute view.now) sum.now) }
{
    match sum {
        Sum::One(x) => Ok(made_of(term(alloc, x, view)?)),
        Sum::Plus(x, y) => {
            let a = term(alloc, x, view)?;
            let b = term(alloc, y, view)?;
            plus(&a, &b)
        }
        Sum::Minus(x, y) => {
            let a = term(alloc, x, view)?;
            let b = term(alloc, y, view)?;
            minus(&a, &b)
        }
    }
}

/// An operand as what is put.
fn made_of<'a>(operand: Operand<'a>) -> Made<'a>
    ensures { made_tree result ≡ operand_value operand.entry }
{
    match operand {
        Operand::One(value) => Made::Borrowed(value),
        Operand::Lists(pieces) => Made::Joined(pieces),
    }
}

/// What a term stands for.
#[cycle(term)]
#[tactic(auto, using(crate::proofs::TermLaws::laws))]
fn term<'a, V: AttrView>(
    alloc: Global,
    term_of: &'a Term,
    view: &'a V,
) -> Result<Operand<'a>, UpdateFault>
    ensures { AnswersAsDefined operand_value result (spec.term (V.attribute view.now) term_of.now) }
{
    match term_of {
        Term::At(path) => match located(path.as_slice(), view) {
            Some(value) => Ok(Operand::One(value)),
            None => Err(UpdateFault::BadPath),
        },
        Term::Value(value) => Ok(Operand::One(value.get())),
        Term::IfNotExists(path, other) => match located(path.as_slice(), view) {
            Some(value) => Ok(Operand::One(value)),
            None => term(alloc, other.get(), view),
        },
        Term::ListAppend(front, back) => {
            let first = term(alloc, front.get(), view)?;
            let second = term(alloc, back.get(), view)?;
            append(alloc, first, second)
        }
    }
}

/// The elements of the second list behind those of the first.
fn append<'a>(
    alloc: Global,
    front: Operand<'a>,
    back: Operand<'a>,
) -> Result<Operand<'a>, UpdateFault>
    ensures { AnswersAsDefined operand_value result
        (spec.appended_list (operand_value front.entry) (operand_value back.entry)) }
{
    let mut pieces = pieces_of(alloc, front)?;
    let more = pieces_of(alloc, back)?;
    pieces.extend_from_slice(more.as_slice())?;
    Ok(Operand::Lists(pieces))
}

/// The lists whose elements a list has, one behind another.
fn pieces_of<'a>(alloc: Global, made: Operand<'a>) -> Result<Vec<&'a Attr>, UpdateFault>
    ensures { AnswersAsDefined (λ v. joined_pieces v.items) result (list_in_tree (operand_value made.entry)) }
{
    match made {
        Operand::Lists(pieces) => Ok(pieces),
        Operand::One(value) => one_piece(alloc, value),
    }
}

/// A list alone.
fn one_piece(alloc: Global, value: &Attr) -> Result<Vec<&Attr>, UpdateFault>
    ensures { AnswersAsDefined (λ v. joined_pieces v.items) result (list_in_tree (tree_of value.now)) }
{
    match value {
        Attr::L(_) => {
            let mut pieces = Vec::new(alloc);
            pieces.push(value)?;
            Ok(pieces)
        }
        _ => Err(UpdateFault::BadKind),
    }
}

fn plus<'a>(a: &Operand<'_>, b: &Operand<'_>) -> Result<Made<'a>, UpdateFault>
    ensures { AnswersAsDefined made_tree result (spec.plus (operand_value a.now) (operand_value b.now)) }
{
    match (number(a), number(b)) {
        (Some(x), Some(y)) => as_number(x.add(&y)),
        _ => Err(UpdateFault::BadKind),
    }
}

fn minus<'a>(a: &Operand<'_>, b: &Operand<'_>) -> Result<Made<'a>, UpdateFault>
    ensures { AnswersAsDefined made_tree result (spec.minus (operand_value a.now) (operand_value b.now)) }
{
    match (number(a), number(b)) {
        (Some(x), Some(y)) => as_number(x.subtract(&y)),
        _ => Err(UpdateFault::BadKind),
    }
}

/// The number that a value is.
fn number(made: &Operand<'_>) -> Option<Decimal>
    ensures { result ≡ number_in_tree (operand_value made.now) }
{
    match made {
        Operand::One(Attr::N(number)) => Some(*number),
        _ => None,
    }
}

/// A sum as a value, where it fits.
pub(crate) fn as_number<'a>(sum: Result<Decimal, NumberFault>) -> Result<Made<'a>, UpdateFault>
    ensures { AnswersAsDefined made_tree result (spec.as_number sum) }
{
    match sum {
        Ok(number) => Ok(Made::Own(Attr::N(number))),
        Err(fault) => Err(UpdateFault::BadNumber(fault)),
    }
}
