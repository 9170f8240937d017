//! The description of a table and of its indexes, as plain records.

ghost use Rattle.std.specs.Prelude.{◌≡◌};
ghost use Rattle.alt_description.specs.Bare.{is_whole};

use crate::{IndexList, KeyAttrList, TextList};
use alt_value::{Item, KeyKind, Text};

/// A key attribute: its name and its kind (DynamoDB API Reference, "AttributeDefinition").
#[derive(Drop)]
pub struct KeyAttr {
    pub name: Text,
    pub kind: KeyKind,
}

/// What a stream's records show of an item (API Reference, "StreamSpecification", StreamViewType).
#[derive(Clone, Copy, Debug, PartialEq, Eq)]
pub enum View {
    KeysOnly,
    NewImage,
    OldImage,
    NewAndOldImages,
}

/// Which attributes an index keeps beside the keys (API Reference, "Projection"): all, none, or those
/// named.
#[derive(Drop)]
pub enum Projection {
    All,
    KeysOnly,
    Include(TextList),
}

/// How far an index is built: whole, or up to the key of the table's item that it was built of last, none at
/// first (Developer Guide, "Managing global secondary indexes", "Backfilling").
#[derive(Drop)]
pub enum Built {
    Whole,
    UpTo(Option<Item>),
}

impl Built {
    /// Whether it is built of every item.
    pub fn is_whole(&self) -> bool
        ensures whole { result ≡ is_whole self.now }
    {
        match self {
            Built::Whole => true,
            Built::UpTo(_) => false,
        }
    }
}

/// An index: its name, its key, what it keeps, the family of its rows, and how far it is built.
#[derive(Drop)]
pub struct IndexSchema {
    pub name: Text,
    pub hash: KeyAttr,
    pub range: Option<KeyAttr>,
    pub projection: Projection,
    pub family: u32,
    pub built: Built,
}

/// A table: its name, the attributes defined, its key, its local and global indexes, what its stream
/// shows if it has one, with the family of the stream's rows; the moment at which it was made, in
/// seconds since 1970 began in UTC, the number of that write, and the family of its rows; and the
/// attribute that tells when an item's time is over, where it has one. The indexes are numbered from 0,
/// the local ones first.
#[derive(Drop)]
pub struct TableSchema {
    pub name: Text,
    pub definitions: KeyAttrList,
    pub hash: KeyAttr,
    pub range: Option<KeyAttr>,
    pub locals: IndexList,
    pub globals: IndexList,
    pub view: Option<View>,
    pub stream_family: Option<u32>,
    pub created: u64,
    pub number: u64,
    pub family: u32,
    pub ttl: Option<Text>,
}
