//! Paths that are too long.

ghost use Rattle.std.specs.Prelude.{◌≡◌};
ghost use Rattle.std.specs.List.{list_any};
ghost use Rattle.alt_expr.specs.Crowded.{is_long as has_too_many};
ghost use Rattle.alt_expr.specs.UpdateLanguage as spec;

use alt_expr::{Action, PathPart, Sum, Term};

/// How many parts a path may have.
const MOST_PARTS: usize = 32;

/// Whether a path of an action has too many parts.
pub(crate) fn is_crowded(actions: &[Action]) -> bool
    ensures { result ≡ list_any spec.is_long_action actions.now }
{
    for action in actions {
        if is_long_action(action) {
            return true;
        }
    }
    false
}

fn is_long_action(action: &Action) -> bool
    ensures { result ≡ spec.is_long_action action.now }
{
    match action {
        Action::Set(path, sum) => is_long(path.as_slice()) || is_long_sum(sum),
        Action::Remove(path) => is_long(path.as_slice()),
        Action::Add(_, _) => false,
        Action::Delete(_, _) => false,
    }
}

fn is_long_sum(sum: &Sum) -> bool
    ensures { result ≡ spec.is_long_sum sum.now }
{
    match sum {
        Sum::One(x) => is_long_term(x),
        Sum::Plus(x, y) => is_long_term(x) || is_long_term(y),
        Sum::Minus(x, y) => is_long_term(x) || is_long_term(y),
    }
}

#[cycle(long)]
#[tactic(auto, using(crate::proofs::LongLaws::at_law, crate::proofs::LongLaws::value_law, crate::proofs::LongLaws::if_law, crate::proofs::LongLaws::append_law))]
fn is_long_term(term: &Term) -> bool
    ensures { result ≡ spec.is_long_term term.now }
{
    match term {
        Term::At(path) => is_long(path.as_slice()),
        Term::Value(_) => false,
        Term::IfNotExists(path, other) => is_long(path.as_slice()) || is_long_term(other.get()),
        Term::ListAppend(front, back) => is_long_term(front.get()) || is_long_term(back.get()),
    }
}

fn is_long(path: &[PathPart]) -> bool
    ensures { result ≡ has_too_many path.now }
{
    path.len() > MOST_PARTS
}
