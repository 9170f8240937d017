//! What the body of a CreateTable states, before the rules of names, keys and indexes are tested.

ghost use Rattle.std.specs.Prelude.{◌≡◌, ◌++◌, ◌∷◌, [], OnOk, OnErr};

use alt_base::NoMemory;
use alt_description::{KeyAttrList, TextList, View};
use alt_value::Text;
use std::alloc::Global;
use std::marker::Model;

/// An element of a key schema: an attribute's name and its role, HASH or RANGE (API Reference,
/// "KeySchemaElement").
#[derive(Drop)]
pub struct Element {
    pub name: Text,
    pub role: Text,
}

/// An index: its name, its key schema, the word of its projection, and the names of
/// NonKeyAttributes where they are given (API Reference, "LocalSecondaryIndex").
#[derive(Drop)]
pub struct StatedIndex {
    pub name: Text,
    pub keys: ElementList,
    pub projects: Text,
    pub includes: Option<TextList>,
}

/// A table: its name, its key schema, the attributes defined, its indexes and what its stream shows.
#[derive(Drop)]
pub struct Stated {
    pub name: Text,
    pub keys: ElementList,
    pub definitions: KeyAttrList,
    pub locals: StatedIndexList,
    pub globals: StatedIndexList,
    pub view: Option<View>,
}

/// Elements in the order in which they were given.
#[derive(Drop)]
pub struct ElementList {
    items: Vec<Element>,
}

impl Model for ElementList {
    ghost use Rattle.std.specs.Prelude.{List};
    ghost use Rattle.alt_schema.specs.declared.stated.Element.{Element};

    ghost Value = { List Element };

    ghost view = { λ a. a.items.items };
}

impl ElementList {
    pub fn new(alloc: Global) -> ElementList
        ensures empty { result ≡ [] }
    {
        ElementList {
            items: Vec::new(alloc),
        }
    }

    pub fn push(&mut self, item: Element) -> Result<(), NoMemory>
        ensures ok { OnOk result (self.new ≡ self.old ++ item ∷ []) }
        ensures err { OnErr result (self.new ≡ self.old) }
    {
        self.items.push(item)?;
        Ok(())
    }

    pub fn as_slice(&self) -> &[Element]
        ensures members { result.now ≡ self.now }
    {
        self.items.as_slice()
    }
}

/// Indexes in the order in which they were given.
#[derive(Drop)]
pub struct StatedIndexList {
    items: Vec<StatedIndex>,
}

impl Model for StatedIndexList {
    ghost use Rattle.std.specs.Prelude.{List};
    ghost use Rattle.alt_schema.specs.declared.stated.StatedIndex.{StatedIndex};

    ghost Value = { List StatedIndex };

    ghost view = { λ a. a.items.items };
}

impl StatedIndexList {
    pub fn new(alloc: Global) -> StatedIndexList
        ensures empty { result ≡ [] }
    {
        StatedIndexList {
            items: Vec::new(alloc),
        }
    }

    pub fn push(&mut self, item: StatedIndex) -> Result<(), NoMemory>
        ensures ok { OnOk result (self.new ≡ self.old ++ item ∷ []) }
        ensures err { OnErr result (self.new ≡ self.old) }
    {
        self.items.push(item)?;
        Ok(())
    }

    pub fn as_slice(&self) -> &[StatedIndex]
        ensures members { result.now ≡ self.now }
    {
        self.items.as_slice()
    }
}
