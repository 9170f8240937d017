//! A `Vec` that contracts see as the list of its elements, so that a tree of them is plain data.

ghost use Rattle.std.specs.Prelude.{◌≡◌, [], ◌∷◌, ◌++◌, length, OnOk, OnErr};

use alt_base::NoMemory;
use std::alloc::Global;
use std::marker::Model;

/// Members in order.
#[derive(Debug, Drop)]
pub struct Items<T> {
    items: Vec<T>,
}

impl<T> Model for Items<T> {
    ghost use Rattle.std.specs.Prelude.{List};
    ghost use Rattle.std.specs.Coded.{coded_list};

    ghost Value = { List T };

    ghost coded = { coded_list T.code };

    ghost view = { λ it. it.items.items };
}

impl<T> Items<T> {
    /// The list without members.
    pub fn new(alloc: Global) -> Items<T>
        ensures empty { result ≡ [] }
    {
        Items {
            items: Vec::new(alloc),
        }
    }

    /// How many members there are.
    pub fn len(&self) -> usize
        ensures count { result ≡ length self.now }
    {
        self.items.len()
    }

    /// The members in order.
    pub fn as_slice(&self) -> &[T]
        ensures members { result.now ≡ self.now }
    {
        self.items.as_slice()
    }
}

impl<T> Items<T> {
    /// The members as a `Vec`.
    pub fn into_vec(self) -> Vec<T>
        ensures members { result.items ≡ self }
    {
        self.items
    }
}

impl<T: Drop> Items<T> {
    /// Puts one more at the end. Where memory is wanting, the list is as it was.
    pub fn push(&mut self, item: T) -> Result<(), NoMemory>
        ensures ok { OnOk result (self.new ≡ self.old ++ item ∷ []) }
        ensures err { OnErr result (self.new ≡ self.old) }
    {
        self.items.push(item)?;
        Ok(())
    }
}
