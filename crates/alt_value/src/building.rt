//! Items from pairs in any order: put in one by one while that is quick, else kept as they come, and sorted once at the end.

ghost use Rattle.std.specs.Prelude.{◌≡◌, ◌<◌, [], length, map, IfOk, OnOk, OnErr};
ghost use Rattle.std.specs.List.{All};
ghost use Rattle.alt_value.specs.Named.{IsNamed};
ghost use Rattle.alt_value.specs.Item.{with_pair, with_pairs};
ghost use Rattle.alt_value.specs.Stands.{tree_of, pair_of};

use crate::attr::Pair;
use crate::{Attr, Item, Text};
use alt_base::NoMemory;
use std::alloc::Global;
use std::marker::Model;

/// Up to so many pairs a put makes room for the new one among them, whatever its name.
const FEW: usize = 64;

/// An item in the making, whose pairs come in any order, and names more than once. Contracts see the item that is made of those that
/// came so far, each put in turn. To make it takes time in line with the pairs, but for the logarithm of a sort.
#[derive(Drop)]
pub struct ItemBuilder {
    // The pairs before the first that was kept for later.
    item: Item,
    // The others, in the order in which they came.
    later: Vec<Pair>,
}

impl Model for ItemBuilder {
    ghost use Rattle.std.specs.Prelude.{List, map};
    ghost use Rattle.std.specs.List.{All};
    ghost use Rattle.alt_value.specs.Named.{IsNamed};
    ghost use Rattle.alt_value.specs.Item.{with_pairs};
    ghost use Rattle.alt_value.specs.Stands.{pair_of};
    ghost use Rattle.alt_value.specs.Tree.{Pair};
    ghost use Rattle.std.specs.Coded.{coded_list};
    ghost use Rattle.alt_value.specs.TreeCode.{coded_pair};

    ghost Value = { List Pair };

    ghost coded = { coded_list coded_pair };

    ghost view = { λ b. with_pairs (map pair_of b.later.items) b.item };

    ghost invariant = { λ b. All IsNamed b.later.items };
}

impl ItemBuilder {
    /// The item without attributes.
    pub fn new(alloc: Global) -> Self
        ensures empty { result ≡ [] }
    {
        ItemBuilder {
            item: Item::new(alloc),
            later: Vec::new(alloc),
        }
    }

    /// Puts a value at a name that isn't empty, in the place of the value that was there.
    pub fn put(&mut self, name: &str, a: Attr) -> Result<(), NoMemory>
        requires { 0 < length name.now }
        ensures ok { OnOk result (self.new ≡ with_pair name.now (tree_of a) self.old) }
        ensures err { OnErr result (self.new ≡ self.old) }
    {
        if self.later.is_empty() && self.item.takes_quickly(name) {
            self.item.make_room_for_one()?;
            return self.item.put(name, a);
        }
        let name = Text::new(*self.later.allocator(), name)?;
        self.later.push(Pair { name, value: a })?;
        Ok(())
    }

    /// The item that was made.
    pub fn into_item(self) -> Result<Item, NoMemory>
        ensures item { IfOk result (λ i. i ≡ self) }
    {
        let ItemBuilder { item, later } = self;
        if later.is_empty() {
            return Ok(item);
        }
        let Item { entries } = item;
        let mut pairs = entries;
        let mut later = later;
        pairs.append(&mut later)?;
        item_of_pairs(pairs)
    }
}

impl Item {
    /// Makes room for one pair where there is none, since a map of one pair should take what one takes.
    fn make_room_for_one(&mut self) -> Result<(), NoMemory>
        ensures same { self.new ≡ self.old }
    {
        if self.entries.is_empty() {
            self.entries.reserve_exact(1)?;
        }
        Ok(())
    }

    /// Whether a put at that name moves few pairs.
    fn takes_quickly(&self, name: &str) -> bool {
        match self.entries.last() {
            Some(last) => self.entries.len() < FEW || last.name.as_str() < name,
            None => true,
        }
    }
}

/// The item of pairs, each put in turn.
fn item_of_pairs(pairs: Vec<Pair>) -> Result<Item, NoMemory>
    requires { All IsNamed pairs.items }
    ensures { IfOk result (λ i. i ≡ with_pairs (map pair_of pairs.items) []) }
{
    let mut pairs = pairs;
    let mut item = Item::new(*pairs.allocator());
    sort_by_name(&mut pairs)?;
    for pair in pairs {
        let Pair { name, value } = pair;
        item.put_owned(name, value)?;
    }
    Ok(item)
}

/// Brings pairs into the order of their names. Those of one name stay in their order, so that the last still counts.
fn sort_by_name(pairs: &mut Vec<Pair>) -> Result<(), NoMemory>
    ensures same { with_pairs (map pair_of pairs.new.items) []
        ≡ with_pairs (map pair_of pairs.old.items) [] }
    ensures named { All IsNamed pairs.old.items → All IsNamed pairs.new.items }
{
    pairs.sort_by(|a, b| a.name.cmp(&b.name))?;
    Ok(())
}
