//! Values of the ten kinds, and the lists and items that hold values.
//!
//! The four types hold one another. Each is seen through its tree: a list as its elements' trees, an item as its pairs.

ghost use Rattle.std.specs.Prelude.{◌≡◌, [], ◌∷◌, ◌++◌, ◌<◌, length, slice_get, option_map, map, slice_set, slice_index_or, vec_len, IfOk, OnOk, OnErr, MatchResult};
ghost use Rattle.alt_value.specs.Stands.{tree_of, pair_of};
ghost use Rattle.alt_value.specs.Item.{IsItem, at_name, with_pair, without};
ghost use Rattle.alt_value.specs.declared.attr.Pair.{Pair as Entry};
ghost use Rattle.alt_value.specs.Place.{NameStandsAt, GoesTo};
ghost use Rattle.alt_value.specs.Values.{IsValue, IsListOfValues, IsItemOfValues};

use crate::{BytesSet, NumberSet, Text, TextSet};
use alt_base::NoMemory;
use alt_decimal::Decimal;
use alt_fields::Bytes;
use std::alloc::Global;
use std::cmp::Ordering;
use std::marker::Model;

/// A value (DynamoDB API Reference, "AttributeValue"). No set in a value that is stored or sent is empty.
#[cycle(attr)]
#[derive(Drop)]
pub enum Attr {
    S(Text),
    N(Decimal),
    B(Bytes),
    Bool(bool),
    Null,
    Ss(TextSet),
    Ns(NumberSet),
    Bs(BytesSet),
    L(AttrList),
    M(Item),
}

/// The elements of a list.
#[cycle(attr)]
#[derive(Drop)]
pub struct AttrList {
    pub(crate) elements: Vec<Attr>,
}

#[cycle(attr)]
#[derive(Drop)]
pub(crate) struct Pair {
    pub(crate) name: Text,
    pub(crate) value: Attr,
}

/// An item, or a map within a value: names that aren't empty, each with a value, in the byte order of the names.
#[cycle(attr)]
#[derive(Drop)]
pub struct Item {
    pub(crate) entries: Vec<Pair>,
}

impl Model for AttrList {
    ghost use Rattle.std.specs.Prelude.{List, map};
    ghost use Rattle.alt_value.specs.Tree.{Tree};
    ghost use Rattle.std.specs.Coded.{coded_list};
    ghost use Rattle.alt_value.specs.TreeCode.{coded_tree};

    ghost Value = { List Tree };

    ghost coded = { coded_list coded_tree };

    ghost use Rattle.alt_value.specs.Stands.{tree_of};
    ghost use Rattle.alt_value.specs.Tree.{trees_of};
    ghost use Rattle.alt_value.specs.Size.{elements_depth};
    ghost use Rattle.alt_value.specs.Values.{IsListOfValues};

    ghost view = { λ a. map tree_of a.elements.items };

    ghost invariant = { λ a. IsListOfValues (map tree_of a.elements.items) };

    ghost size = { λ ts. elements_depth (trees_of ts) };

    ghost use Rattle.alt_value.specs.TreeFalls.{elements_fall};

    ghost size_decreases = { λ a h. elements_fall a.elements.items };
}

impl Model for Item {
    ghost use Rattle.std.specs.Prelude.{List, map};
    ghost use Rattle.alt_value.specs.Tree.{Pair};
    ghost use Rattle.std.specs.Coded.{coded_list};
    ghost use Rattle.alt_value.specs.TreeCode.{coded_pair};

    ghost Value = { List Pair };

    ghost coded = { coded_list coded_pair };

    ghost use Rattle.alt_value.specs.Stands.{pair_of};
    ghost use Rattle.alt_value.specs.Tree.{fields_of};
    ghost use Rattle.alt_value.specs.Size.{fields_depth};
    ghost use Rattle.alt_value.specs.Values.{IsItemOfValues};

    ghost view = { λ a. map pair_of a.entries.items };

    ghost invariant = { λ a. IsItemOfValues (map pair_of a.entries.items) };

    ghost size = { λ ps. fields_depth (fields_of ps) };

    ghost use Rattle.alt_value.specs.TreeFalls.{fields_fall};

    ghost size_decreases = { λ a h. fields_fall a.entries.items };
}

/// What is true of each value that the program has. The call looks at the outermost level alone and does nothing: a caller makes it
/// where a proof needs the fact.
pub fn held(a: &Attr)
    ensures value { IsValue (tree_of a.now) }
{
    match a {
        Attr::S(text) => {
            let _count = text.len();
        }
        Attr::N(number) => number.held(),
        Attr::B(bytes) => {
            let _count = bytes.len();
        }
        Attr::Bool(_) | Attr::Null => {}
        Attr::Ss(set) => {
            let _count = set.len();
        }
        Attr::Ns(set) => {
            let _count = set.len();
        }
        Attr::Bs(set) => {
            let _count = set.len();
        }
        Attr::L(list) => {
            let _count = list.len();
        }
        Attr::M(map) => {
            let _count = map.len();
        }
    }
}

impl AttrList {
    /// The list without elements.
    pub fn new(alloc: Global) -> Self
        ensures empty { result ≡ [] }
    {
        AttrList {
            elements: Vec::new(alloc),
        }
    }

    /// How many elements there are.
    pub fn len(&self) -> usize
        ensures count { result ≡ length self.now }
        // What is true of each list.
        ensures values { IsListOfValues self.now }
    {
        self.elements.len()
    }

    /// The element at that place, None exactly past the last.
    pub fn get(&self, i: usize) -> Option<&Attr>
        ensures element { option_map (λ a. tree_of a.now) result ≡ slice_get self.now i }
    {
        self.elements.get(i)
    }

    /// Appends an element.
    pub fn push(&mut self, a: Attr) -> Result<(), NoMemory>
        ensures ok { OnOk result (self.new ≡ self.old ++ tree_of a ∷ []) }
        ensures err { OnErr result (self.new ≡ self.old) }
    {
        held(&a);
        self.elements.push(a)?;
        let _count = self.elements.len();
        Ok(())
    }
}

impl Item {
    /// The item without attributes.
    pub fn new(alloc: Global) -> Self
        ensures empty { result ≡ [] }
    {
        Item {
            entries: Vec::new(alloc),
        }
    }

    /// The item without attributes, with room for so many.
    pub fn with_capacity(alloc: Global, count: usize) -> Result<Self, NoMemory>
        ensures empty { IfOk result (λ item. item ≡ []) }
    {
        Ok(Item {
            entries: Vec::with_capacity(alloc, count)?,
        })
    }

    /// How many attributes there are.
    pub fn len(&self) -> usize
        ensures count { result ≡ length self.now }
        // What is true of each item.
        ensures item { IsItem self.now }
        ensures values { IsItemOfValues self.now }
    {
        self.entries.len()
    }

    /// The pair at that place in name order, None exactly past the last.
    pub fn at(&self, i: usize) -> Option<(&str, &Attr)>
        ensures pair { option_map (λ p. (p.0.now, tree_of p.1.now)) result ≡ slice_get self.now i }
    {
        match self.entries.get(i) {
            Some(entry) => Some((entry.name.as_str(), &entry.value)),
            None => None,
        }
    }

    /// The value of that name, None exactly where no attribute has the name.
    pub fn get(&self, name: &str) -> Option<&Attr>
        ensures value { option_map (λ a. tree_of a.now) result ≡ at_name name.now self.now }
    {
        match place(&self.entries, name) {
            Ok(i) => Some(&self.entries[i].value),
            Err(_) => None,
        }
    }

    /// Puts a value at a name that isn't empty, in the place of the value that was there.
    pub fn put(&mut self, name: &str, a: Attr) -> Result<(), NoMemory>
        requires { 0 < length name.now }
        ensures ok { OnOk result (self.new ≡ with_pair name.now (tree_of a) self.old) }
        ensures err { OnErr result (self.new ≡ self.old) }
    {
        let name = Text::new(*self.entries.allocator(), name)?;
        self.put_owned(name, a)
    }

    /// The same for a name of its own, which is moved and not copied.
    pub fn put_owned(&mut self, name: Text, a: Attr) -> Result<(), NoMemory>
        requires { 0 < length name }
        ensures ok { OnOk result (self.new ≡ with_pair name (tree_of a) self.old) }
        ensures err { OnErr result (self.new ≡ self.old) }
    {
        held(&a);
        let _length = name.len();
        match place_to_put(&self.entries, name.as_str()) {
            Ok(i) => {
                replace(&mut self.entries, i, a);
                let _count = self.entries.len();
            }
            Err(i) => {
                self.entries.insert(i, Pair { name, value: a })?;
                let _count = self.entries.len();
            }
        }
        Ok(())
    }

    /// Takes a name out and gives its value, None exactly where no attribute has the name, and then the item stays.
    pub fn remove(&mut self, name: &str) -> Option<Attr>
        ensures value { option_map tree_of result ≡ at_name name.now self.old }
        ensures rest { self.new ≡ without name.now self.old }
    {
        match place(&self.entries, name) {
            Ok(i) => {
                let Pair { name: _, value } = self.entries.remove(i);
                Some(value)
            }
            Err(_) => None,
        }
    }
}

/// Where a name stands, or where it is to go.
fn place(entries: &Vec<Pair>, name: &str) -> Result<usize, usize>
    requires { IsItem (map pair_of entries.now.items) }
    ensures { MatchResult result (NameStandsAt name.now entries.now.items)
        (GoesTo name.now entries.now.items) }
{
    let mut low = 0;
    let mut high = entries.len();
    while low < high {
        let middle = low + (high - low) / 2;
        match entries[middle].name.as_str().cmp(name) {
            Ordering::Less => low = middle + 1,
            Ordering::Equal => return Ok(middle),
            Ordering::Greater => high = middle,
        }
    }
    Err(low)
}

/// The same, at once for a name above all others, as names come that are read in their order.
fn place_to_put(entries: &Vec<Pair>, name: &str) -> Result<usize, usize>
    requires { IsItem (map pair_of entries.now.items) }
    ensures { MatchResult result (NameStandsAt name.now entries.now.items)
        (GoesTo name.now entries.now.items) }
{
    let count = entries.len();
    if count > 0 {
        if let Ordering::Less = entries[count - 1].name.as_str().cmp(name) {
            return Err(count);
        }
    }
    place(entries, name)
}

/// Puts a value in the place of the one that stands there.
fn replace(entries: &mut Vec<Pair>, i: usize, a: Attr)
    requires { i < vec_len entries.old }
    ensures { (d : Entry) → entries.new.items
        ≡ slice_set entries.old.items i (record (slice_index_or entries.old.items i d) {
          value =
              a;
        }) }
{
    entries[i].value = a;
}
