//! Trees of updates.

use crate::{Boxed, Items, Path, Shared};
use alt_value::{Attr, Text};

/// A part of the item, a given value, or what a function makes of others.
#[derive(Drop)]
pub enum Term {
    At(Path),
    Value(Shared<Attr>),
    IfNotExists(Path, Boxed<Term>),
    ListAppend(Boxed<Term>, Boxed<Term>),
}

/// A term, or the sum or difference of two.
#[derive(Drop)]
pub enum Sum {
    One(Term),
    Plus(Term, Term),
    Minus(Term, Term),
}

/// A change of one part of the item.
#[derive(Drop)]
pub enum Action {
    Set(Path, Sum),
    Remove(Path),
    Add(Shared<Text>, Shared<Attr>),
    Delete(Shared<Text>, Shared<Attr>),
}

/// All actions in text order.
pub type Update = Items<Action>;
