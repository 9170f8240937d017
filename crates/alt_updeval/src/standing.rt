//! What stands in for a large value, where so much was put already that the item is too large: it is as deep, and no key either, and
//! costs a few bytes.

ghost use Rattle.std.specs.Prelude.{◌≡◌, ◌<◌, ◌≤◌, [], ◌∷◌, true, false, nat_le, IfOk, IfSome};
ghost use Rattle.alt_value.specs.Size.{depth};
ghost use Rattle.alt_value.specs.Stands.{tree_of};
ghost use Rattle.alt_value.specs.Tree.{L_tree, trees_of};
ghost use Rattle.alt_updeval.specs.Shown.{made_tree, elements_of, joined_pieces, IsLarge, IsLargeList, is_number};
ghost use Rattle.alt_updeval.specs.StandsIn.{StandsIn, nest};

use crate::made::Made;
use alt_base::NoMemory;
use alt_value::{Attr, AttrList, depth_within, size_within};
use std::alloc::Global;

/// The size up to which a value is always copied, in bytes: that of the longest key.
const SMALL: u64 = 2048;

/// The depth up to which values are measured: no value that is stored or given is deeper.
const DEEPEST: u32 = 32;

/// What stands in for a value, where it needn't be copied. `left` are the bytes that may be copied before.
pub(crate) fn stand_in<'a>(
    alloc: Global,
    made: &Made<'_>,
    left: &mut u64,
) -> Result<Option<Made<'a>>, NoMemory>
    ensures { IfOk result (λ o. IfSome o (λ m. StandsIn (made_tree m) (made_tree made.now))) }
{
    if has_room(made, left) {
        return Ok(None);
    }
    match levels(made) {
        Some(levels) => Ok(Some(Made::Own(nest(alloc, levels)?))),
        None => Ok(None),
    }
}

/// Whether a value may be copied: while bytes are left, or where it is small.
fn has_room(made: &Made<'_>, left: &mut u64) -> bool
    ensures { result ≡ false → IsLarge (made_tree made.now) }
{
    if *left == 0 && is_large(made) {
        return false;
    }
    *left = left_behind(made, *left);
    true
}

/// How many bytes of so many are left behind a value.
fn left_behind(made: &Made<'_>, left: u64) -> u64 {
    match made {
        Made::Borrowed(value) => left_of(value, left),
        Made::Own(value) => left_of(value, left),
        Made::Joined(pieces) => left_of_all(pieces.as_slice(), left),
    }
}

fn left_of_all(pieces: &[&Attr], left: u64) -> u64 {
    let mut left = left;
    for piece in pieces {
        left = left_of(piece, left);
    }
    left
}

fn left_of(value: &Attr, left: u64) -> u64 {
    match size_within(value, left) {
        Some(size) => left.saturating_sub(size),
        None => 0,
    }
}

/// Whether a value is certainly larger than a small one, and no key.
fn is_large(made: &Made<'_>) -> bool
    ensures { result ≡ true → IsLarge (made_tree made.now) }
{
    match made {
        Made::Borrowed(value) => is_large_value(value),
        Made::Own(value) => is_large_value(value),
        Made::Joined(pieces) => has_large(pieces.as_slice()),
    }
}

fn is_large_value(value: &Attr) -> bool
    ensures { result ≡ true → IsLarge (tree_of value.now) }
{
    !is_number(value) && size_within(value, SMALL).is_none()
}

fn is_number(value: &Attr) -> bool
    ensures { result ≡ is_number (tree_of value.now) }
{
    match value {
        Attr::N(_) => true,
        _ => false,
    }
}

fn has_large(pieces: &[&Attr]) -> bool
    ensures { result ≡ true → IsLarge (L_tree (trees_of (joined_pieces pieces.now))) }
{
    for piece in pieces {
        if is_large_list(piece) {
            return true;
        }
    }
    false
}

/// Whether a value is a list that is larger than a small one.
fn is_large_list(value: &Attr) -> bool
    ensures { result ≡ true → IsLargeList (tree_of value.now) }
{
    match value {
        Attr::L(_) => size_within(value, SMALL).is_none(),
        _ => false,
    }
}

/// The depth of a value, where it isn't deeper than a value may be.
fn levels(made: &Made<'_>) -> Option<u32>
    ensures { IfSome result (λ n. (depth (made_tree made.now) ≡ n) × (n ≤ 32)) }
{
    for most in 0..=DEEPEST {
        if is_within(made, most) {
            return Some(most);
        }
    }
    None
}

/// Whether a value is no deeper.
fn is_within(made: &Made<'_>, most: u32) -> bool
    ensures { result ≡ nat_le (depth (made_tree made.now)) most }
{
    match made {
        Made::Borrowed(value) => depth_within(value, most),
        Made::Own(value) => depth_within(value, most),
        Made::Joined(pieces) => most > 0 && all_within(pieces.as_slice(), most),
    }
}

/// Whether lists one behind another are no deeper.
fn all_within(pieces: &[&Attr], most: u32) -> bool
    requires { 0 < most }
    ensures { result ≡ nat_le (depth (L_tree (trees_of (joined_pieces pieces.now)))) most }
{
    for piece in pieces {
        if !elements_within(piece, most) {
            return false;
        }
    }
    true
}

/// Whether a list is no deeper; what is no list has no elements.
fn elements_within(piece: &Attr, most: u32) -> bool
    requires { 0 < most }
    ensures { result ≡ nat_le (depth (L_tree (trees_of (elements_of (tree_of piece.now))))) most }
{
    match piece {
        Attr::L(_) => depth_within(piece, most),
        _ => true,
    }
}

/// So many lists in one another, about a null.
fn nest(alloc: Global, levels: u32) -> Result<Attr, NoMemory>
    ensures { IfOk result (λ a. tree_of a ≡ nest levels) }
{
    let mut value = Attr::Null;
    for _ in 0..levels {
        value = list_of(alloc, value)?;
    }
    Ok(value)
}

/// The list of a value alone.
fn list_of(alloc: Global, value: Attr) -> Result<Attr, NoMemory>
    ensures { IfOk result (λ a. tree_of a ≡ L_tree (trees_of (tree_of value ∷ []))) }
{
    let mut list = AttrList::new(alloc);
    list.push(value)?;
    Ok(Attr::L(list))
}
