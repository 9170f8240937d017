//! What operands denote, borrowed from the item and the condition. A size stands nowhere, so it is made.

ghost use Rattle.std.specs.Prelude.{◌≡◌, option_map, option_and_then};
ghost use Rattle.alt_value.specs.Stands.{tree_of};
ghost use Rattle.alt_expr.specs.Located.{located as place};
ghost use Rattle.alt_expr.specs.Holds as spec;
ghost use Rattle.alt_condeval.specs.Denoted.{stands_for};

use alt_decimal::Decimal;
use alt_expr::{AttrView, Operand, PathPart, located};
use alt_value::Attr;

/// A value of the item or of the condition, a size, or nothing.
#[derive(Drop)]
pub enum Denoted<'a> {
    Borrowed(&'a Attr),
    Made(Attr),
    Missing,
}

impl Denoted<'_> {
    /// The value, None exactly where it is missing.
    pub fn get(&self) -> Option<&Attr>
        ensures value { option_map (λ a. tree_of a.now) result ≡ stands_for self.now }
    {
        match self {
            Denoted::Borrowed(value) => Some(value),
            Denoted::Made(value) => Some(value),
            Denoted::Missing => None,
        }
    }
}

/// What an operand denotes.
pub fn value_of<'a, V: AttrView>(operand: &'a Operand, view: &'a V) -> Denoted<'a>
    ensures { stands_for result ≡ spec.denoted (V.attribute view.now) operand.now }
{
    match operand {
        Operand::At(path) => at(path.as_slice(), view),
        Operand::Value(value) => Denoted::Borrowed(value.get()),
        Operand::Size(path) => size_at(path.as_slice(), view),
    }
}

/// The part of the item that a path leads to.
pub fn at<'a, V: AttrView>(path: &[PathPart], view: &'a V) -> Denoted<'a>
    ensures { stands_for result ≡ place (V.attribute view.now) path.now }
{
    match located(path, view) {
        Some(value) => Denoted::Borrowed(value),
        None => Denoted::Missing,
    }
}

/// The size of the part that a path leads to.
fn size_at<'a, V: AttrView>(path: &[PathPart], view: &'a V) -> Denoted<'a>
    ensures { stands_for result ≡ option_and_then spec.size_of
        (place (V.attribute view.now) path.now) }
{
    match located(path, view) {
        Some(value) => size(value),
        None => Denoted::Missing,
    }
}

fn size<'a>(value: &Attr) -> Denoted<'a>
    ensures { stands_for result ≡ spec.size_of (tree_of value.now) }
{
    match count(value) {
        Some(n) => Denoted::Made(Attr::N(Decimal::from_count(n as u64))),
        None => Denoted::Missing,
    }
}

/// Bytes or elements, None exactly where the value has no size.
fn count(value: &Attr) -> Option<usize>
    ensures { result ≡ spec.counted_size (tree_of value.now) }
{
    match value {
        Attr::S(text) => Some(text.as_str().len()),
        Attr::B(bytes) => Some(bytes.as_slice().len()),
        Attr::Ss(set) => Some(set.len()),
        Attr::Ns(set) => Some(set.len()),
        Attr::Bs(set) => Some(set.len()),
        Attr::L(list) => Some(list.len()),
        Attr::M(map) => Some(map.len()),
        _ => None,
    }
}
