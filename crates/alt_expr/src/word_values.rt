//! What a request gives for words, by word. Each value or name is copied once, and then shared.

ghost use Rattle.std.specs.Prelude.{◌≡◌, ◌++◌, true, false, not, length, map, slice_get, option_map, option_to_list, IfOk, OnOk, MatchResult};
ghost use Rattle.std.specs.List.{list_all};
ghost use Rattle.std.specs.Option.{option_map_or};
ghost use Rattle.alt_value.specs.Members.{text_order, has_member};
ghost use Rattle.alt_value.specs.Stands.{tree_of};
ghost use Rattle.alt_value.specs.Item.{IsItem, at_name};
ghost use Rattle.alt_expr.specs.Given.{has_unused};
ghost use Rattle.alt_expr.specs.WordValues.{pair_of, StandsAt, GoesTo};

use crate::shared::Shared;
use alt_base::NoMemory;
use alt_value::{Attr, Item, Text, TextSet, copy};
use std::alloc::Global;
use std::cmp::Ordering;
use std::marker::Model;

/// What may be kept by words: a value, or a name.
pub(crate) trait Kept: Drop {
    ghost use Rattle.std.specs.Prelude.{Bool};
    ghost use Rattle.alt_value.specs.Tree.{Tree};

    ghost tree: { Self → Tree };

    ghost may_keep: { Tree → Bool };

    /// A copy of a value that may be kept so.
    fn kept(value: &Attr) -> Result<Self, NoMemory>
        requires { may_keep (tree_of value.now) ≡ true }
        ensures { IfOk result (λ k. tree k ≡ tree_of value.now) };
}

impl Kept for Attr {
    ghost use Rattle.std.specs.Prelude.{true};
    ghost use Rattle.alt_value.specs.Stands.{tree_of};

    ghost tree = { tree_of };

    ghost may_keep = { λ t. true };

    fn kept(value: &Attr) -> Result<Attr, NoMemory> {
        copy(value)
    }
}

impl Kept for Text {
    ghost use Rattle.alt_value.specs.Tree.{S_tree};
    ghost use Rattle.alt_expr.specs.Given.{is_given_name};

    ghost tree = { S_tree };

    ghost may_keep = { is_given_name };

    fn kept(value: &Attr) -> Result<Text, NoMemory> {
        match value {
            Attr::S(name) => name.copy(),
            _ => unreachable!(),
        }
    }
}

#[derive(Drop)]
pub(crate) struct WordValue<V> {
    word: Text,
    value: Shared<V>,
}

/// The values of an item in the order of their words.
#[derive(Drop)]
pub(crate) struct WordValues<V: Kept> {
    entries: Vec<WordValue<V>>,
}

impl<V: Kept> Model for WordValues<V> {
    ghost use Rattle.std.specs.Prelude.{List, map};
    ghost use Rattle.std.specs.Coded.{coded_list};
    ghost use Rattle.alt_value.specs.Tree.{Pair};
    ghost use Rattle.alt_value.specs.TreeCode.{coded_pair};
    ghost use Rattle.alt_value.specs.Item.{IsItem};
    ghost use Rattle.alt_expr.specs.WordValues.{pair_of};

    ghost Value = { List Pair };

    ghost coded = { coded_list coded_pair };

    ghost view = { λ v. map (pair_of V.tree) v.entries.items };

    ghost invariant = { λ v. IsItem (map (pair_of V.tree) v.entries.items) };
}

impl<V: Kept> WordValues<V> {
    /// Copies of the values of an item.
    pub(crate) fn of_item(alloc: Global, item: &Item) -> Result<WordValues<V>, NoMemory>
        requires { list_all (λ p. V.may_keep p.1) item.now ≡ true }
        ensures same { IfOk result (λ v. v ≡ item.now) }
    {
        let count = item.len();
        let mut entries = Vec::with_capacity(alloc, count)?;
        for place in 0..count {
            push_at(alloc, item, place, &mut entries)?;
        }
        Ok(WordValues { entries })
    }

    /// Where the memory of the values comes from.
    pub(crate) fn alloc(&self) -> Global {
        *self.entries.allocator()
    }

    /// What is kept by a word, None exactly where the word isn't given.
    pub(crate) fn get(&self, word: &str) -> Option<&Shared<V>>
        ensures value { option_map (λ k. V.tree k.now) result ≡ at_name word.now self.now }
    {
        match place(&self.entries, word) {
            Ok(i) => Some(&self.entries[i].value),
            Err(_) => None,
        }
    }

    /// Whether a word isn't among the used ones.
    #[tactic(auto, using(crate::proofs::Words::unused_on))]
    pub(crate) fn has_unused(&self, used: &TextSet) -> bool
        ensures { result ≡ has_unused self.now used.now }
    {
        for place in 0..self.len() {
            if self.is_unused(place, used) {
                return true;
            }
        }
        false
    }

    fn is_unused(&self, place: usize, used: &TextSet) -> bool
        ensures { result ≡ option_map_or (λ p. not (has_member text_order p.0 used.now))
            (slice_get self.now place) false }
    {
        match self.at(place) {
            Some((word, _)) => !used.contains(word),
            None => false,
        }
    }

    /// How many words there are.
    fn len(&self) -> usize
        ensures count { result ≡ length self.now }
    {
        self.entries.len()
    }

    /// The word at that place in the order of the words and what is kept by it, None exactly past the last.
    fn at(&self, i: usize) -> Option<(&str, &V)>
        ensures pair { option_map (λ p. (p.0.now, V.tree p.1.now)) result ≡ slice_get self.now i }
    {
        match self.entries.get(i) {
            Some(entry) => Some((entry.word.as_str(), entry.value.get())),
            None => None,
        }
    }
}

/// Puts the pair of an item that stands at a place behind the others.
fn push_at<V: Kept>(
    alloc: Global,
    item: &Item,
    place: usize,
    entries: &mut Vec<WordValue<V>>,
) -> Result<(), NoMemory>
    requires { list_all (λ p. V.may_keep p.1) item.now ≡ true }
    ensures { OnOk result (map (pair_of V.tree) entries.new.items
        ≡ map (pair_of V.tree) entries.old.items ++ option_to_list (slice_get item.now place)) }
{
    if let Some((word, value)) = item.at(place) {
        entries.push(word_value(alloc, word, value)?)?;
    }
    Ok(())
}

fn word_value<V: Kept>(alloc: Global, word: &str, value: &Attr) -> Result<WordValue<V>, NoMemory>
    requires { V.may_keep (tree_of value.now) ≡ true }
    ensures { IfOk result (λ e. pair_of V.tree e ≡ (word.now, tree_of value.now)) }
{
    let word = Text::new(alloc, word)?;
    let value = Shared::new(alloc, V::kept(value)?)?;
    Ok(WordValue { word, value })
}

/// Where a word stands, or where it is to go.
fn place<V: Kept>(entries: &Vec<WordValue<V>>, word: &str) -> Result<usize, usize>
    requires { IsItem (map (pair_of V.tree) entries.now.items) }
    ensures { MatchResult result (StandsAt word.now entries.now.items) (GoesTo word.now entries.now.items) }
{
    let mut low = 0;
    let mut high = entries.len();
    while low < high {
        let middle = low + (high - low) / 2;
        match entries[middle].word.as_str().cmp(word) {
            Ordering::Less => low = middle + 1,
            Ordering::Equal => return Ok(middle),
            Ordering::Greater => high = middle,
        }
    }
    Err(low)
}
