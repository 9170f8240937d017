//! The order of key bytes is the order of keys.

ghost use Rattle.std.specs.Prelude.{◌≡◌, IfSome};
ghost use Rattle.alt_value.specs.Order.{tree_order};
ghost use Rattle.alt_value.specs.Stands.{tree_of};
ghost use Rattle.alt_value.specs.Tree.{N_tree};
ghost use Rattle.alt_keyorder.specs.KeyBytes.{IsPartOrder, KeyBytesAreApart};
ghost use Rattle.alt_keyorder.specs.Laws.{OnePart, PartsLie, TokensFit, KeysLieAsPlaces, KeysTellPlaces, PlacesLie, OnePlace};
ghost use Rattle.alt_keyorder.specs.Laws.{TableKeysTell, TableKeysLie, HashKeysBegin, IndexKeysTell, IndexKeysLie};

use alt_decimal::{Decimal, spelling_order};
use alt_value::{Attr, order};
use std::cmp::Ordering;

/// The order of two texts, two numbers or two binaries, which is that of their key parts, whatever follows these. None
/// exactly where the values aren't both of one of these kinds.
pub fn part_order(a: &Attr, b: &Attr) -> Option<Ordering>
    ensures values { result ≡ tree_order (tree_of a.now) (tree_of b.now) }
    // The bytes that follow decide exactly where the values are equal.
    ensures parts { IfSome result (IsPartOrder (tree_of a.now) (tree_of b.now)) }
    // No part of a kind is a prefix of another of that kind.
    ensures apart { IfSome result (λ o. KeyBytesAreApart (tree_of a.now) (tree_of b.now)) }
{
    match a {
        Attr::N(number) => order_of_numbers(number, b),
        Attr::S(_) => order(a, b),
        Attr::B(_) => order(a, b),
        _ => None,
    }
}

/// The laws of key parts (docs/formats/key-bytes.md) over all values, also such as no program holds. It
/// does nothing.
pub fn part_laws()
    ensures one { OnePart }
    ensures order { PartsLie }
    ensures tokens { TokensFit }
{}

/// The laws of the key bytes of places: those of two places in one table or one index lie as the places
/// do, part by part, and are equal only for equal places. It does nothing.
pub fn place_laws()
    ensures order { KeysLieAsPlaces }
    ensures one { KeysTellPlaces }
    ensures kinds { PlacesLie }
    ensures one_of_kinds { OnePlace }
{}

/// The same laws for the keys of a table, and of an index with those of its table. It does nothing.
pub fn key_laws()
    ensures table_tells { TableKeysTell }
    ensures table_lies { TableKeysLie }
    ensures hash_begins { HashKeysBegin }
    ensures index_tells { IndexKeysTell }
    ensures index_lies { IndexKeysLie }
{}

fn order_of_numbers(number: &Decimal, b: &Attr) -> Option<Ordering>
    ensures values { result ≡ tree_order (N_tree number.now) (tree_of b.now) }
    ensures parts { IfSome result (IsPartOrder (N_tree number.now) (tree_of b.now)) }
    ensures apart { IfSome result (λ o. KeyBytesAreApart (N_tree number.now) (tree_of b.now)) }
{
    match b {
        Attr::N(other) => Some(spelling_order(number, other)),
        _ => None,
    }
}
