//! What a term stands for: a value of the item or of the update, a sum or a set that was made, or
//! lists one behind another. Nothing is copied before it is put somewhere.

ghost use Rattle.std.specs.Prelude.{◌≡◌, ◌++◌, ◌<◌, Some, length, slice_get, IfOk, OnOk};
ghost use Rattle.alt_value.specs.Stands.{tree_of};
ghost use Rattle.alt_value.specs.Tree.{L_tree, trees_of};
ghost use Rattle.alt_updeval.specs.Shown.{made_tree, joined_pieces, elements_of};

use alt_base::NoMemory;
use alt_value::{Attr, AttrList, copy};
use std::alloc::Global;

/// A value that isn't copied yet.
#[derive(Drop)]
pub(crate) enum Made<'a> {
    Borrowed(&'a Attr),
    /// The elements of all lists, one list behind another.
    Joined(Vec<&'a Attr>),
    /// A sum, a set, or what stands in for a value.
    Own(Attr),
}

/// The value of its own.
pub(crate) fn kept(alloc: Global, made: Made<'_>) -> Result<Attr, NoMemory>
    ensures { IfOk result (λ a. tree_of a ≡ made_tree made.entry) }
{
    match made {
        Made::Borrowed(value) => copy(value),
        Made::Joined(pieces) => joined(alloc, pieces.as_slice()),
        Made::Own(value) => Ok(value),
    }
}

/// A copy of the value.
pub(crate) fn copied(alloc: Global, made: &Made<'_>) -> Result<Attr, NoMemory>
    ensures { IfOk result (λ a. tree_of a ≡ made_tree made.now) }
{
    match made {
        Made::Borrowed(value) => copy(value),
        Made::Joined(pieces) => joined(alloc, pieces.as_slice()),
        Made::Own(value) => copy(value),
    }
}

/// The list of the elements of all lists.
fn joined(alloc: Global, pieces: &[&Attr]) -> Result<Attr, NoMemory>
    ensures { IfOk result (λ a. tree_of a ≡ L_tree (trees_of (joined_pieces pieces.now))) }
{
    let mut list = AttrList::new(alloc);
    for piece in pieces {
        push_elements(&mut list, piece)?;
    }
    Ok(Attr::L(list))
}

/// Appends the elements of a value that is a list.
fn push_elements(list: &mut AttrList, piece: &Attr) -> Result<(), NoMemory>
    ensures { OnOk result (list.new ≡ list.old ++ elements_of (tree_of piece.now)) }
{
    match piece {
        Attr::L(more) => push_copies(list, more),
        _ => Ok(()),
    }
}

fn push_copies(list: &mut AttrList, more: &AttrList) -> Result<(), NoMemory>
    ensures { OnOk result (list.new ≡ list.old ++ more.now) }
{
    for i in 0..more.len() {
        list.push(copy(element(more, i))?)?;
    }
    Ok(())
}

/// The element at a place of a list.
pub(crate) fn element(list: &AttrList, i: usize) -> &Attr
    requires { i < length list.now }
    ensures { Some (tree_of result.now) ≡ slice_get list.now i }
{
    match list.get(i) {
        Some(element) => element,
        None => unreachable!(),
    }
}
