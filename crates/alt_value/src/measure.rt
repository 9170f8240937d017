//! Sizes and depths of values, counted without memory and only as far as a limit.

ghost use Rattle.std.specs.Prelude.{◌≡◌, nat_le, ◌+◌, ◌-◌, ◌<◌, length, sum_by, Option, Some};
ghost use Rattle.alt_value.specs.Stands.{tree_of};
ghost use Rattle.alt_value.specs.Tree.{L_tree, M_tree, trees_of, fields_of};
ghost use Rattle.alt_value.specs.Size.{size, elements_size, fields_size, item_size, number_size, depth, elements_depth, fields_depth, within, left_after};

use crate::{Attr, AttrList, BytesSet, Item, NumberSet, TextSet};
use alt_decimal::Decimal;

/// The size of a value in bytes, None exactly where it is greater than `most`.
pub fn size_within(a: &Attr, most: u64) -> Option<u64>
    ensures size { result ≡ within most (size (tree_of a.now)) }
{
    let left = left_of(a, most)?;
    Some(most - left)
}

/// The size of an item in bytes, its names and its values, None exactly where it is greater than `most`.
pub fn item_size_within(i: &Item, most: u64) -> Option<u64>
    ensures size { result ≡ within most (item_size i.now) }
{
    let left = left_of_fields(i, most)?;
    Some(most - left)
}

/// Whether a value is nested at most so deep.
#[cycle(depth)]
pub fn depth_within(a: &Attr, most: u32) -> bool
    ensures depth { result ≡ nat_le (depth (tree_of a.now)) most }
{
    match a {
        Attr::L(list) => most > 0 && elements_within(list, most - 1),
        Attr::M(map) => most > 0 && fields_within(map, most - 1),
        _ => true,
    }
}

#[cycle(depth)]
fn elements_within(list: &AttrList, most: u32) -> bool
    ensures { result ≡ nat_le (elements_depth (trees_of list.now)) most }
{
    for element in &list.elements {
        if !depth_within(element, most) {
            return false;
        }
    }
    true
}

#[cycle(depth)]
fn fields_within(map: &Item, most: u32) -> bool
    ensures { result ≡ nat_le (fields_depth (fields_of map.now)) most }
{
    for entry in &map.entries {
        if !depth_within(&entry.value, most) {
            return false;
        }
    }
    true
}

/// What is left of a budget after a value, None where the value is larger.
#[cycle(size)]
fn left_of(a: &Attr, left: u64) -> Option<u64>
    ensures { result ≡ left_after left (size (tree_of a.now)) }
{
    match a {
        Attr::S(text) => left.checked_sub(text.as_str().len() as u64),
        Attr::N(number) => left.checked_sub(size_of_number(number)),
        Attr::B(bytes) => left.checked_sub(bytes.as_slice().len() as u64),
        Attr::Bool(_) => left.checked_sub(1),
        Attr::Null => left.checked_sub(1),
        Attr::Ss(set) => left_of_texts(set, left),
        Attr::Ns(set) => left_of_numbers(set, left),
        Attr::Bs(set) => left_of_byte_strings(set, left),
        Attr::L(list) => left_of_list(list, left),
        Attr::M(map) => left_of_map(map, left),
    }
}

#[cycle(size)]
fn left_of_list(list: &AttrList, left: u64) -> Option<u64>
    ensures { result ≡ left_after left (size (L_tree (trees_of list.now))) }
{
    let left = left_of_container(list.len(), left)?;
    left_of_elements(list, left)
}

#[cycle(size)]
fn left_of_map(map: &Item, left: u64) -> Option<u64>
    ensures { result ≡ left_after left (size (M_tree (fields_of map.now))) }
{
    let left = left_of_container(map.len(), left)?;
    left_of_fields(map, left)
}

#[cycle(size)]
fn left_of_elements(list: &AttrList, left: u64) -> Option<u64>
    ensures { result ≡ left_after left (elements_size (trees_of list.now)) }
{
    let mut left = left;
    for element in &list.elements {
        left = left_of(element, left)?;
    }
    Some(left)
}

#[cycle(size)]
fn left_of_fields(map: &Item, left: u64) -> Option<u64>
    ensures { result ≡ left_after left (fields_size (fields_of map.now)) }
{
    let mut left = left;
    for entry in &map.entries {
        left = left.checked_sub(entry.name.as_str().len() as u64)?;
        left = left_of(&entry.value, left)?;
    }
    Some(left)
}

/// 3 for a list or a map, and 1 for each element.
fn left_of_container(count: usize, left: u64) -> Option<u64>
    ensures { result ≡ left_after left (3 + count) }
{
    left.checked_sub(3)?.checked_sub(count as u64)
}

fn size_of_number(number: &Decimal) -> u64
    ensures { result ≡ number_size number.now }
{
    1 + (number.digits() as u64 + 1) / 2
}

fn left_of_texts(set: &TextSet, left: u64) -> Option<u64>
    ensures { result ≡ left_after left (sum_by length set.now) }
{
    let mut left = left;
    for member in set.as_slice() {
        left = left.checked_sub(member.as_str().len() as u64)?;
    }
    Some(left)
}

fn left_of_byte_strings(set: &BytesSet, left: u64) -> Option<u64>
    ensures { result ≡ left_after left (sum_by length set.now) }
{
    let mut left = left;
    for member in set.as_slice() {
        left = left.checked_sub(member.as_slice().len() as u64)?;
    }
    Some(left)
}

fn left_of_numbers(set: &NumberSet, left: u64) -> Option<u64>
    ensures { result ≡ left_after left (sum_by number_size set.now) }
{
    let mut left = left;
    for member in set.as_slice() {
        left = left.checked_sub(size_of_number(member))?;
    }
    Some(left)
}
