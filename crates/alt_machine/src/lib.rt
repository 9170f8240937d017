//! The plain machine that the server is proved to be: what a request does to a state of maps, and what it answers.
//!
//! The definitions stand in `specs/`, and nothing in them calls the program. This file has the names and the limits that they
//! and the program share, and no function that does anything.
#![tactic(auto)]

ghost use Rattle.alt_machine.specs.Expiry.{DeletesExpired};
ghost use Rattle.alt_machine.specs.Laws.{StepsKeepValid, OneAtom, BuildsKeepValid, BuildsLeaveItems, ItemsLieByKeys, IndexPlacesLie, AllIndex, OthersExpireNone, OlderConditions, OlderKeys, OlderUpdates};
ghost use Rattle.alt_machine.specs.State.{start};
ghost use Rattle.alt_machine.specs.Valid.{IsValid};

use alt_expr::{Cond, Paths, Update};
use alt_fields::Bytes;
use alt_value::{Item, Text};

/// An operation that is built (DynamoDB API Reference, "Actions"; ExpireItems is this project's own).
#[derive(Clone, Copy, Debug, PartialEq, Eq)]
pub enum Operation {
    CreateTable,
    DescribeTable,
    ListTables,
    DeleteTable,
    PutItem,
    GetItem,
    DeleteItem,
    UpdateItem,
    Query,
    Scan,
    BatchWriteItem,
    BatchGetItem,
    ListStreams,
    DescribeStream,
    GetShardIterator,
    GetRecords,
    UpdateTimeToLive,
    DescribeTimeToLive,
    ExpireItems,
    UpdateTable,
}

/// What a request has of an item: all of it, at its member Item, or the key alone, at Key.
#[derive(Clone, Copy, Debug, PartialEq, Eq)]
pub enum Sought {
    Item,
    Key,
}

/// What the expressions of a request say: its condition on keys, its condition or filter, what it updates and what it shows, each where
/// it has a text for it.
#[derive(Drop)]
pub struct Expressions {
    pub key_condition: Option<Cond>,
    pub condition: Option<Cond>,
    pub update: Option<Update>,
    pub projection: Option<Paths>,
}

/// A member of a batch: the name of its table, and an item that is put there, or the key of an item.
#[derive(Drop)]
pub struct BatchMember {
    pub table: Text,
    pub sought: Sought,
    pub item: Item,
}

/// A member of a batch with the place in its table that its key gives it.
#[derive(Drop)]
pub struct PlacedMember {
    pub table: Text,
    pub sought: Sought,
    pub item: Item,
    pub place: Bytes,
}

/// Where an item stands: the name of its table, and its place there.
#[derive(Drop)]
pub struct Standing {
    pub table: Text,
    pub place: Bytes,
}

/// The numbers of writes are below 2^62 - 1.
pub const NUMBERS_END: u64 = 4_611_686_018_427_387_903;

/// The families of tables are below 2^32 - 1.
pub const FAMILIES_END: u32 = 4_294_967_295;

/// As many families as the largest table has: its own, those of 25 indexes and its stream's.
pub const MOST_FAMILIES: u32 = 27;

/// The most tables.
pub const MOST_TABLES: usize = 256;

/// The names on a page of ListTables where the request doesn't say how many.
pub const PAGE_LENGTH: u64 = 100;

/// The most bytes of an item (Developer Guide, "Service, account, and table quotas").
pub const LARGEST_ITEM: u64 = 409_600;

/// The most writes of a BatchWriteItem (API Reference, "BatchWriteItem").
pub const MOST_WRITES: usize = 25;

/// The most keys of a BatchGetItem (API Reference, "BatchGetItem").
pub const MOST_KEYS: usize = 100;

/// Five years, in seconds: a time to live that is further back is taken for none (Developer Guide, "Using time to live (TTL) in DynamoDB").
pub const FIVE_YEARS: u64 = 157_680_000;

/// The most items that an ExpireItems deletes.
pub const MOST_EXPIRED: usize = 25;

/// The items of which a Build builds an index.
pub const BUILT_AT_ONCE: u32 = 64;

/// The records of a GetRecords where the request doesn't say how many (Streams API Reference, "GetRecords").
pub const MOST_RECORDS: u64 = 1000;

/// The bytes of items with which a BatchGetItem ends: 16 MB.
pub const BATCH_BYTES: u64 = 16_777_216;

/// The laws of the machine: the state of an empty store is valid, each request leads from a valid state to a valid one and has one atom
/// at most, and so does a step in which an index is built; the items of a table and of an index lie by their keys, and an index has the
/// items of its table that have its keys; an ExpireItems deletes exactly the items that it names, no other request deletes one because
/// of its time, and a step in which an index is built none at all; the trees of members of the older interface mean what these ask. It
/// does nothing.
pub fn laws()
    ensures start { IsValid start }
    ensures steps { StepsKeepValid }
    ensures one_atom { OneAtom }
    ensures builds { BuildsKeepValid }
    ensures places { ItemsLieByKeys }
    ensures index_places { IndexPlacesLie }
    ensures indexes { AllIndex }
    ensures expiry { DeletesExpired }
    ensures others { OthersExpireNone }
    ensures items_left { BuildsLeaveItems }
    ensures older_conditions { OlderConditions }
    ensures older_keys { OlderKeys }
    ensures older_updates { OlderUpdates }
{}
