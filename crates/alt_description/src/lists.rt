//! The lists that a description holds, seen as lists.

ghost use Rattle.std.specs.Prelude.{◌≡◌, ◌++◌, ◌∷◌, [], OnOk, OnErr};

use crate::{IndexSchema, KeyAttr};
use alt_base::NoMemory;
use alt_value::Text;
use std::alloc::Global;
use std::marker::Model;

/// Texts in the order in which they were given.
#[derive(Drop)]
pub struct TextList {
    items: Vec<Text>,
}

impl Model for TextList {
    ghost use Rattle.std.specs.Prelude.{ℕ, List};

    ghost Value = { List (List ℕ) };

    ghost view = { λ a. a.items.items };
}

impl TextList {
    /// The list without members.
    pub fn new(alloc: Global) -> TextList
        ensures empty { result ≡ [] }
    {
        TextList {
            items: Vec::new(alloc),
        }
    }

    /// Puts one more at the end. Where memory is wanting, the list is as it was.
    pub fn push(&mut self, item: Text) -> Result<(), NoMemory>
        ensures ok { OnOk result (self.new ≡ self.old ++ item ∷ []) }
        ensures err { OnErr result (self.new ≡ self.old) }
    {
        self.items.push(item)?;
        Ok(())
    }

    /// The members in order.
    pub fn as_slice(&self) -> &[Text]
        ensures members { result.now ≡ self.now }
    {
        self.items.as_slice()
    }
}

/// Key attributes in the order in which they were given.
#[derive(Drop)]
pub struct KeyAttrList {
    items: Vec<KeyAttr>,
}

impl Model for KeyAttrList {
    ghost use Rattle.std.specs.Prelude.{List};
    ghost use Rattle.alt_description.specs.declared.schema.KeyAttr.{KeyAttr};

    ghost Value = { List KeyAttr };

    ghost view = { λ a. a.items.items };
}

impl KeyAttrList {
    /// The list without members.
    pub fn new(alloc: Global) -> KeyAttrList
        ensures empty { result ≡ [] }
    {
        KeyAttrList {
            items: Vec::new(alloc),
        }
    }

    /// Puts one more at the end. Where memory is wanting, the list is as it was.
    pub fn push(&mut self, item: KeyAttr) -> Result<(), NoMemory>
        ensures ok { OnOk result (self.new ≡ self.old ++ item ∷ []) }
        ensures err { OnErr result (self.new ≡ self.old) }
    {
        self.items.push(item)?;
        Ok(())
    }

    /// The members in order.
    pub fn as_slice(&self) -> &[KeyAttr]
        ensures members { result.now ≡ self.now }
    {
        self.items.as_slice()
    }
}

/// Indexes in the order in which they were given.
#[derive(Drop)]
pub struct IndexList {
    items: Vec<IndexSchema>,
}

impl Model for IndexList {
    ghost use Rattle.std.specs.Prelude.{List};
    ghost use Rattle.std.specs.Coded.{codes};
    ghost use Rattle.alt_description.specs.declared.schema.IndexSchema.{IndexSchema};
    ghost use Rattle.alt_value.specs.TreeCode.{coded_pair};

    ghost Value = { List IndexSchema };

    ghost coded = { Prim.hlevel (codes, coded_pair) };

    ghost view = { λ a. a.items.items };
}

impl IndexList {
    /// The list without members.
    pub fn new(alloc: Global) -> IndexList
        ensures empty { result ≡ [] }
    {
        IndexList {
            items: Vec::new(alloc),
        }
    }

    /// Puts one more at the end. Where memory is wanting, the list is as it was.
    pub fn push(&mut self, item: IndexSchema) -> Result<(), NoMemory>
        ensures ok { OnOk result (self.new ≡ self.old ++ item ∷ []) }
        ensures err { OnErr result (self.new ≡ self.old) }
    {
        self.items.push(item)?;
        Ok(())
    }

    /// The members in order.
    pub fn as_slice(&self) -> &[IndexSchema]
        ensures members { result.now ≡ self.now }
    {
        self.items.as_slice()
    }
}
