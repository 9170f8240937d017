//! How the body of a request first breaks the shape of its operation, the objects inside it
//! included. A body's own rules come first. Once they hold, the objects inside are tested by member
//! in the order of the rules, in list order or by name in byte order, each followed by the objects
//! inside it.

ghost use Rattle.std.specs.Prelude.{◌≡◌};
ghost use Rattle.serde_json.specs.View.{members_view};
ghost use Rattle.alt_shape.specs.Bodies as bodies;

use crate::checking::{first_broken, given};
use crate::rule::Broken;
use crate::{inside, older, tables};
use serde_json::{Map, Value};

/// CreateTable.
#[tactic(auto, unfolding(crate::specs::Bodies::create_table))]
pub fn create_table(body: &Map<String, Value>) -> Option<Broken>
    ensures { result ≡ bodies.create_table (members_view body.now.entries) }
{
    first_broken(&tables::CREATE_TABLE, body)
        .or_else(|| inside::key_schema(body))
        .or_else(|| inside::attribute_definitions(body))
        .or_else(|| inside::indexes(body, "LocalSecondaryIndexes"))
        .or_else(|| inside::indexes(body, "GlobalSecondaryIndexes"))
        .or_else(|| inside::stream_specification(body))
}

/// UpdateTable.
#[tactic(auto, unfolding(crate::specs::Bodies::update_table))]
pub fn update_table(body: &Map<String, Value>) -> Option<Broken>
    ensures { result ≡ bodies.update_table (members_view body.now.entries) }
{
    first_broken(&tables::UPDATE_TABLE, body)
        .or_else(|| inside::attribute_definitions(body))
        .or_else(|| inside::index_updates(body))
}

/// DescribeTable.
#[tactic(auto, unfolding(crate::specs::Bodies::describe_table))]
pub fn describe_table(body: &Map<String, Value>) -> Option<Broken>
    ensures { result ≡ bodies.describe_table (members_view body.now.entries) }
{
    first_broken(&tables::DESCRIBE_TABLE, body)
}

/// DeleteTable.
#[tactic(auto, unfolding(crate::specs::Bodies::delete_table))]
pub fn delete_table(body: &Map<String, Value>) -> Option<Broken>
    ensures { result ≡ bodies.delete_table (members_view body.now.entries) }
{
    first_broken(&tables::DELETE_TABLE, body)
}

/// ListTables.
#[tactic(auto, unfolding(crate::specs::Bodies::list_tables))]
pub fn list_tables(body: &Map<String, Value>) -> Option<Broken>
    ensures { result ≡ bodies.list_tables (members_view body.now.entries) }
{
    first_broken(&tables::LIST_TABLES, body)
}

/// PutItem.
#[tactic(auto, unfolding(crate::specs::Bodies::put_item))]
pub fn put_item(body: &Map<String, Value>) -> Option<Broken>
    ensures { result ≡ bodies.put_item (members_view body.now.entries) }
{
    first_broken(&tables::PUT_ITEM, body).or_else(|| older::expected(body))
}

/// DeleteItem.
#[tactic(auto, unfolding(crate::specs::Bodies::delete_item))]
pub fn delete_item(body: &Map<String, Value>) -> Option<Broken>
    ensures { result ≡ bodies.delete_item (members_view body.now.entries) }
{
    first_broken(&tables::DELETE_ITEM, body).or_else(|| older::expected(body))
}

/// UpdateItem.
#[tactic(auto, unfolding(crate::specs::Bodies::update_item))]
pub fn update_item(body: &Map<String, Value>) -> Option<Broken>
    ensures { result ≡ bodies.update_item (members_view body.now.entries) }
{
    first_broken(&tables::UPDATE_ITEM, body)
        .or_else(|| older::expected(body))
        .or_else(|| older::updates(body))
}

/// GetItem.
#[tactic(auto, unfolding(crate::specs::Bodies::get_item))]
pub fn get_item(body: &Map<String, Value>) -> Option<Broken>
    ensures { result ≡ bodies.get_item (members_view body.now.entries) }
{
    first_broken(&tables::GET_ITEM, body).or_else(|| older::names(body))
}

/// Query.
#[tactic(auto, unfolding(crate::specs::Bodies::query))]
pub fn query(body: &Map<String, Value>) -> Option<Broken>
    ensures { result ≡ bodies.query (members_view body.now.entries) }
{
    own_of_query(body)
        .or_else(|| older::conditions(body, "KeyConditions"))
        .or_else(|| older::conditions(body, "QueryFilter"))
        .or_else(|| older::names(body))
}

/// The members of a Query's body alone.
fn own_of_query(body: &Map<String, Value>) -> Option<Broken>
    ensures { result ≡ bodies.own_of_query (members_view body.now.entries) }
{
    match given(body, "KeyConditions") {
        Some(_) => first_broken(&tables::QUERY_BY_ENTRIES, body),
        None => first_broken(&tables::QUERY, body),
    }
}

/// Scan.
#[tactic(auto, unfolding(crate::specs::Bodies::scan))]
pub fn scan(body: &Map<String, Value>) -> Option<Broken>
    ensures { result ≡ bodies.scan (members_view body.now.entries) }
{
    first_broken(&tables::SCAN, body)
        .or_else(|| older::conditions(body, "ScanFilter"))
        .or_else(|| older::names(body))
}

/// ListStreams.
#[tactic(auto, unfolding(crate::specs::Bodies::list_streams))]
pub fn list_streams(body: &Map<String, Value>) -> Option<Broken>
    ensures { result ≡ bodies.list_streams (members_view body.now.entries) }
{
    first_broken(&tables::LIST_STREAMS, body)
}

/// DescribeStream.
#[tactic(auto, unfolding(crate::specs::Bodies::describe_stream))]
pub fn describe_stream(body: &Map<String, Value>) -> Option<Broken>
    ensures { result ≡ bodies.describe_stream (members_view body.now.entries) }
{
    first_broken(&tables::DESCRIBE_STREAM, body)
}

/// GetShardIterator.
#[tactic(auto, unfolding(crate::specs::Bodies::get_shard_iterator))]
pub fn get_shard_iterator(body: &Map<String, Value>) -> Option<Broken>
    ensures { result ≡ bodies.get_shard_iterator (members_view body.now.entries) }
{
    first_broken(&tables::GET_SHARD_ITERATOR, body)
}

/// GetRecords.
#[tactic(auto, unfolding(crate::specs::Bodies::get_records))]
pub fn get_records(body: &Map<String, Value>) -> Option<Broken>
    ensures { result ≡ bodies.get_records (members_view body.now.entries) }
{
    first_broken(&tables::GET_RECORDS, body)
}

/// BatchWriteItem.
#[tactic(auto, unfolding(crate::specs::Bodies::batch_write_item))]
pub fn batch_write_item(body: &Map<String, Value>) -> Option<Broken>
    ensures { result ≡ bodies.batch_write_item (members_view body.now.entries) }
{
    first_broken(&tables::BATCH_WRITE_ITEM, body).or_else(|| inside::write_requests(body))
}

/// BatchGetItem.
#[tactic(auto, unfolding(crate::specs::Bodies::batch_get_item))]
pub fn batch_get_item(body: &Map<String, Value>) -> Option<Broken>
    ensures { result ≡ bodies.batch_get_item (members_view body.now.entries) }
{
    first_broken(&tables::BATCH_GET_ITEM, body).or_else(|| inside::keys_and_attributes(body))
}
