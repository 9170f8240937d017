//! Copies of values, through every level.

ghost use Rattle.std.specs.Prelude.{◌≡◌, IfOk};
ghost use Rattle.alt_value.specs.Stands.{tree_of, pair_of};

use crate::attr::Pair;
use crate::{Attr, AttrList, Item};
use alt_base::NoMemory;

/// A copy of a value.
#[cycle(copy)]
pub fn copy(a: &Attr) -> Result<Attr, NoMemory>
    ensures same { IfOk result (λ c. tree_of c ≡ tree_of a.now) }
{
    match a {
        Attr::S(text) => Ok(Attr::S(text.copy()?)),
        Attr::N(number) => Ok(Attr::N(*number)),
        Attr::B(bytes) => Ok(Attr::B(bytes.copy()?)),
        Attr::Bool(truth) => Ok(Attr::Bool(*truth)),
        Attr::Null => Ok(Attr::Null),
        Attr::Ss(set) => Ok(Attr::Ss(set.copy()?)),
        Attr::Ns(set) => Ok(Attr::Ns(set.copy()?)),
        Attr::Bs(set) => Ok(Attr::Bs(set.copy()?)),
        Attr::L(list) => Ok(Attr::L(copy_of_list(list)?)),
        Attr::M(map) => Ok(Attr::M(map.copy()?)),
    }
}

#[cycle(copy)]
fn copy_of_list(list: &AttrList) -> Result<AttrList, NoMemory>
    ensures { IfOk result (λ l. l ≡ list.now) }
{
    let mut elements = Vec::with_capacity(*list.elements.allocator(), list.elements.len())?;
    for element in &list.elements {
        elements.push(copy(element)?)?;
    }
    Ok(AttrList { elements })
}

impl Item {
    /// A copy of the item.
    #[cycle(copy)]
    pub fn copy(&self) -> Result<Item, NoMemory>
        ensures same { IfOk result (λ i. i ≡ self.now) }
    {
        let mut entries = Vec::with_capacity(*self.entries.allocator(), self.entries.len())?;
        for entry in &self.entries {
            entries.push(copy_of_pair(entry)?)?;
        }
        Ok(Item { entries })
    }
}

#[cycle(copy)]
fn copy_of_pair(pair: &Pair) -> Result<Pair, NoMemory>
    ensures { IfOk result (λ p. pair_of p ≡ pair_of pair.now) }
{
    let name = pair.name.copy()?;
    let value = copy(&pair.value)?;
    Ok(Pair { name, value })
}
