//! What begins a value, and what it contains. A set is searched by halves, and a text in one pass.

ghost use Rattle.std.specs.Prelude.{◌≡◌};
ghost use Rattle.std.specs.List.{list_any};
ghost use Rattle.alt_value.specs.Stands.{tree_of};
ghost use Rattle.alt_value.specs.Tree.{B_tree};
ghost use Rattle.alt_expr.specs.Holds as spec;
ghost use Rattle.alt_condeval.specs.Denoted.{stands_for};

use crate::compared::same;
use crate::denoted::Denoted;
use alt_value::{Attr, AttrList};
use memchr::memmem;

/// A text begins with a text, or a binary with a binary.
pub fn begins(a: &Denoted<'_>, front: &Denoted<'_>) -> bool
    ensures { result ≡ spec.begins (stands_for a.now) (stands_for front.now) }
{
    match a.get() {
        Some(Attr::S(text)) => match front.get() {
            Some(Attr::S(first)) => has_front(text.as_str().as_bytes(), first.as_str().as_bytes()),
            _ => false,
        },
        Some(Attr::B(bytes)) => match front.get() {
            Some(Attr::B(first)) => has_front(bytes.as_slice(), first.as_slice()),
            _ => false,
        },
        _ => false,
    }
}

/// Both are there, and the first contains the second.
pub fn contains(a: &Denoted<'_>, b: &Denoted<'_>) -> bool
    ensures { result ≡ spec.contains (stands_for a.now) (stands_for b.now) }
{
    match a.get() {
        Some(x) => match b.get() {
            Some(y) => has(x, y),
            None => false,
        },
        None => false,
    }
}

fn has(a: &Attr, b: &Attr) -> bool
    ensures { result ≡ spec.has (tree_of a.now) (tree_of b.now) }
{
    match a {
        Attr::S(text) => match b {
            Attr::S(part) => stands_in(part.as_str().as_bytes(), text.as_str().as_bytes()),
            _ => false,
        },
        Attr::B(bytes) => match b {
            Attr::B(part) => stands_in(part.as_slice(), bytes.as_slice()),
            _ => false,
        },
        Attr::Ss(set) => match b {
            Attr::S(member) => set.has(member),
            _ => false,
        },
        Attr::Ns(set) => match b {
            Attr::N(member) => set.has(member),
            _ => false,
        },
        Attr::Bs(set) => match b {
            Attr::B(member) => set.has(member),
            _ => false,
        },
        Attr::L(list) => has_element(list, b),
        _ => false,
    }
}

fn has_element(list: &AttrList, b: &Attr) -> bool
    ensures { result ≡ list_any (λ s. spec.same s (tree_of b.now)) list.now }
{
    for i in 0..list.len() {
        let Some(element) = list.get(i) else {
            return false;
        };
        if same(element, b) {
            return true;
        }
    }
    false
}

fn has_front(bytes: &[u8], front: &[u8]) -> bool
    ensures { result ≡ spec.begins (Some (B_tree bytes.now)) (Some (B_tree front.now)) }
{
    bytes.starts_with(front)
}

/// In line with `bytes`: a needle that is longer isn't looked at.
fn stands_in(needle: &[u8], bytes: &[u8]) -> bool
    ensures { result ≡ spec.stands_in needle.now bytes.now }
{
    needle.len() <= bytes.len() && memmem::find(bytes, needle).is_some()
}
