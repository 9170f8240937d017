//! Equality of values, and the order of two texts, numbers or binaries.

ghost use Rattle.std.specs.Prelude.{◌≡◌, ◌↔◌, IsTrue};
ghost use Rattle.alt_value.specs.Stands.{tree_of, pair_of};
ghost use Rattle.alt_value.specs.Tree.{S_tree, N_tree, B_tree, BOOL_tree, NULL_tree, SS_tree, NS_tree, BS_tree, L_tree, M_tree, trees_of, fields_of};
ghost use Rattle.alt_value.specs.Order.{tree_order};

use crate::attr::Pair;
use crate::{Attr, AttrList, BytesSet, Item, NumberSet, Text, TextSet};
use alt_decimal::Decimal;
use alt_fields::Bytes;
use std::cmp::Ordering;

/// The order of two values of kind S, by bytes in UTF-8, of kind N, by value, or of kind B, by unsigned bytes. None exactly
/// where they aren't both of one of these kinds.
pub fn order(a: &Attr, b: &Attr) -> Option<Ordering>
    ensures order { result ≡ tree_order (tree_of a.now) (tree_of b.now) }
{
    match a {
        Attr::S(text) => order_of_texts(text, b),
        Attr::N(number) => order_of_numbers(number, b),
        Attr::B(bytes) => order_of_binaries(bytes, b),
        _ => None,
    }
}

fn order_of_texts(text: &Text, b: &Attr) -> Option<Ordering>
    ensures { result ≡ tree_order (S_tree text.now) (tree_of b.now) }
{
    match b {
        Attr::S(other) => Some(text.cmp(other)),
        _ => None,
    }
}

fn order_of_numbers(number: &Decimal, b: &Attr) -> Option<Ordering>
    ensures { result ≡ tree_order (N_tree number.now) (tree_of b.now) }
{
    match b {
        Attr::N(other) => Some(number.cmp(other)),
        _ => None,
    }
}

fn order_of_binaries(bytes: &Bytes, b: &Attr) -> Option<Ordering>
    ensures { result ≡ tree_order (B_tree bytes.now) (tree_of b.now) }
{
    match b {
        Attr::B(other) => Some(bytes.cmp(other)),
        _ => None,
    }
}

/// Whether two values are one value: numbers by value, sets without order, lists and maps through every level.
#[cycle(equal)]
pub fn equal(a: &Attr, b: &Attr) -> bool
    ensures same { IsTrue result ↔ (tree_of a.now ≡ tree_of b.now) }
{
    match a {
        Attr::S(text) => is_text(text, b),
        Attr::N(number) => is_number(number, b),
        Attr::B(bytes) => is_binary(bytes, b),
        Attr::Bool(truth) => is_truth(*truth, b),
        Attr::Null => is_null(b),
        Attr::Ss(set) => is_text_set(set, b),
        Attr::Ns(set) => is_number_set(set, b),
        Attr::Bs(set) => is_bytes_set(set, b),
        Attr::L(list) => is_list(list, b),
        Attr::M(map) => is_map(map, b),
    }
}

fn is_text(text: &Text, b: &Attr) -> bool
    ensures { IsTrue result ↔ (S_tree text.now ≡ tree_of b.now) }
{
    match b {
        Attr::S(other) => text == other,
        _ => false,
    }
}

fn is_number(number: &Decimal, b: &Attr) -> bool
    ensures { IsTrue result ↔ (N_tree number.now ≡ tree_of b.now) }
{
    match b {
        Attr::N(other) => number == other,
        _ => false,
    }
}

fn is_binary(bytes: &Bytes, b: &Attr) -> bool
    ensures { IsTrue result ↔ (B_tree bytes.now ≡ tree_of b.now) }
{
    match b {
        Attr::B(other) => bytes == other,
        _ => false,
    }
}

fn is_truth(truth: bool, b: &Attr) -> bool
    ensures { IsTrue result ↔ (BOOL_tree truth ≡ tree_of b.now) }
{
    match b {
        Attr::Bool(other) => truth == *other,
        _ => false,
    }
}

fn is_null(b: &Attr) -> bool
    ensures { IsTrue result ↔ (NULL_tree ≡ tree_of b.now) }
{
    match b {
        Attr::Null => true,
        _ => false,
    }
}

fn is_text_set(set: &TextSet, b: &Attr) -> bool
    ensures { IsTrue result ↔ (SS_tree set.now ≡ tree_of b.now) }
{
    match b {
        Attr::Ss(other) => set.as_slice() == other.as_slice(),
        _ => false,
    }
}

fn is_number_set(set: &NumberSet, b: &Attr) -> bool
    ensures { IsTrue result ↔ (NS_tree set.now ≡ tree_of b.now) }
{
    match b {
        Attr::Ns(other) => set.as_slice() == other.as_slice(),
        _ => false,
    }
}

fn is_bytes_set(set: &BytesSet, b: &Attr) -> bool
    ensures { IsTrue result ↔ (BS_tree set.now ≡ tree_of b.now) }
{
    match b {
        Attr::Bs(other) => set.as_slice() == other.as_slice(),
        _ => false,
    }
}

#[cycle(equal)]
fn is_list(list: &AttrList, b: &Attr) -> bool
    ensures { IsTrue result ↔ (L_tree (trees_of list.now) ≡ tree_of b.now) }
{
    match b {
        Attr::L(other) => same_elements(list, other),
        _ => false,
    }
}

#[cycle(equal)]
fn is_map(map: &Item, b: &Attr) -> bool
    ensures { IsTrue result ↔ (M_tree (fields_of map.now) ≡ tree_of b.now) }
{
    match b {
        Attr::M(other) => item_equal(map, other),
        _ => false,
    }
}

#[cycle(equal)]
fn same_elements(a: &AttrList, b: &AttrList) -> bool
    ensures { IsTrue result ↔ (a.now ≡ b.now) }
{
    if a.elements.len() != b.elements.len() {
        return false;
    }
    for (i, element) in a.elements.iter().enumerate() {
        if !equal(element, &b.elements[i]) {
            return false;
        }
    }
    true
}

/// Whether two items are one item: the same names, each with one value.
#[cycle(equal)]
pub fn item_equal(a: &Item, b: &Item) -> bool
    ensures same { IsTrue result ↔ (a.now ≡ b.now) }
{
    if a.entries.len() != b.entries.len() {
        return false;
    }
    for (i, entry) in a.entries.iter().enumerate() {
        if !same_pair(entry, &b.entries[i]) {
            return false;
        }
    }
    true
}

#[cycle(equal)]
fn same_pair(a: &Pair, b: &Pair) -> bool
    ensures { IsTrue result ↔ (pair_of a.now ≡ pair_of b.now) }
{
    a.name == b.name && equal(&a.value, &b.value)
}
