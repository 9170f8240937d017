//! A stream over days: what is answered of changes that are kept and of those that were trimmed, also by a store that is opened again behind
//! each request.

ghost use Rattle.std.specs.Prelude.{IfSome};
ghost use Rattle.alt_disk.specs.MemoryState.{state_of};
ghost use Rattle.alt_tables.specs.Stands.{AreReady};

use super::asking::{Request, asked, empty, opened, told_at};
use alt_disk::MemoryDisk;
use alt_tables::Tables;
use std::alloc::Global;

/// A request at a moment, in seconds since 1970, and what is answered.
pub(super) type Event = (u64, Request, &'static str);

/// The table, made by the write of number 1.
pub(super) static STREAMED: Request = (
    "CreateTable",
    r#"{"TableName":"Tab","KeySchema":[{"AttributeName":"k","KeyType":"HASH"}],"AttributeDefinitions":[{"AttributeName":"k","AttributeType":"S"}],"StreamSpecification":{"StreamEnabled":true,"StreamViewType":"KEYS_ONLY"}}"#,
);

/// The writes of the numbers from 2 on, and what is asked behind them. A change is trimmed by the first write that is over a day later, with all
/// before it: that of number 2 by the write of number 4, and by that of number 7 those of 3, 4 and 5, of which the last is of an earlier
/// year. The last DeleteItem finds nothing, and so trims nothing.
static DAYS: [Event; 25] = [
    (
        1_700_000_000,
        ("PutItem", r#"{"TableName":"Tab","Item":{"k":{"S":"a"}}}"#),
        r#"{}"#,
    ),
    (
        1_700_000_000,
        (
            "GetRecords",
            r#"{"ShardIterator":"arn:aws:dynamodb:local:000000000000:table/Tab/stream/000000000000000000001|000000000000000000000"}"#,
        ),
        r#"{"NextShardIterator":"arn:aws:dynamodb:local:000000000000:table/Tab/stream/000000000000000000001|000000000000000000003","Records":[{"awsRegion":"local","dynamodb":{"ApproximateCreationDateTime":1700000000,"Keys":{"k":{"S":"a"}},"SequenceNumber":"000000000000000000002","SizeBytes":2,"StreamViewType":"KEYS_ONLY"},"eventID":"000000000000000000002","eventName":"INSERT","eventSource":"aws:dynamodb","eventVersion":"1.1"}]}"#,
    ),
    (
        1_700_000_000,
        (
            "GetShardIterator",
            r#"{"StreamArn":"arn:aws:dynamodb:local:000000000000:table/Tab/stream/000000000000000000001","ShardId":"shardId-00000000000000000000","ShardIteratorType":"AT_SEQUENCE_NUMBER","SequenceNumber":"1"}"#,
        ),
        r#"{"ShardIterator":"arn:aws:dynamodb:local:000000000000:table/Tab/stream/000000000000000000001|000000000000000000001"}"#,
    ),
    (
        1_700_086_400,
        ("PutItem", r#"{"TableName":"Tab","Item":{"k":{"S":"b"}}}"#),
        r#"{}"#,
    ),
    (
        1_700_086_400,
        (
            "GetRecords",
            r#"{"ShardIterator":"arn:aws:dynamodb:local:000000000000:table/Tab/stream/000000000000000000001|000000000000000000001"}"#,
        ),
        r#"{"NextShardIterator":"arn:aws:dynamodb:local:000000000000:table/Tab/stream/000000000000000000001|000000000000000000004","Records":[{"awsRegion":"local","dynamodb":{"ApproximateCreationDateTime":1700000000,"Keys":{"k":{"S":"a"}},"SequenceNumber":"000000000000000000002","SizeBytes":2,"StreamViewType":"KEYS_ONLY"},"eventID":"000000000000000000002","eventName":"INSERT","eventSource":"aws:dynamodb","eventVersion":"1.1"},{"awsRegion":"local","dynamodb":{"ApproximateCreationDateTime":1700086400,"Keys":{"k":{"S":"b"}},"SequenceNumber":"000000000000000000003","SizeBytes":2,"StreamViewType":"KEYS_ONLY"},"eventID":"000000000000000000003","eventName":"INSERT","eventSource":"aws:dynamodb","eventVersion":"1.1"}]}"#,
    ),
    (
        1_700_086_401,
        ("PutItem", r#"{"TableName":"Tab","Item":{"k":{"S":"c"}}}"#),
        r#"{}"#,
    ),
    (
        1_700_086_401,
        (
            "GetShardIterator",
            r#"{"StreamArn":"arn:aws:dynamodb:local:000000000000:table/Tab/stream/000000000000000000001","ShardId":"shardId-00000000000000000000","ShardIteratorType":"TRIM_HORIZON"}"#,
        ),
        r#"{"ShardIterator":"arn:aws:dynamodb:local:000000000000:table/Tab/stream/000000000000000000001|000000000000000000000"}"#,
    ),
    (
        1_700_086_401,
        (
            "GetRecords",
            r#"{"ShardIterator":"arn:aws:dynamodb:local:000000000000:table/Tab/stream/000000000000000000001|000000000000000000000"}"#,
        ),
        r#"{"NextShardIterator":"arn:aws:dynamodb:local:000000000000:table/Tab/stream/000000000000000000001|000000000000000000005","Records":[{"awsRegion":"local","dynamodb":{"ApproximateCreationDateTime":1700086400,"Keys":{"k":{"S":"b"}},"SequenceNumber":"000000000000000000003","SizeBytes":2,"StreamViewType":"KEYS_ONLY"},"eventID":"000000000000000000003","eventName":"INSERT","eventSource":"aws:dynamodb","eventVersion":"1.1"},{"awsRegion":"local","dynamodb":{"ApproximateCreationDateTime":1700086401,"Keys":{"k":{"S":"c"}},"SequenceNumber":"000000000000000000004","SizeBytes":2,"StreamViewType":"KEYS_ONLY"},"eventID":"000000000000000000004","eventName":"INSERT","eventSource":"aws:dynamodb","eventVersion":"1.1"}]}"#,
    ),
    (
        1_700_086_401,
        (
            "GetRecords",
            r#"{"ShardIterator":"arn:aws:dynamodb:local:000000000000:table/Tab/stream/000000000000000000001|000000000000000000001"}"#,
        ),
        r#"{"__type":"com.amazonaws.dynamodb.v20120810#TrimmedDataAccessException","message":"the change records were trimmed"}"#,
    ),
    (
        1_700_086_401,
        (
            "GetShardIterator",
            r#"{"StreamArn":"arn:aws:dynamodb:local:000000000000:table/Tab/stream/000000000000000000001","ShardId":"shardId-00000000000000000000","ShardIteratorType":"AT_SEQUENCE_NUMBER","SequenceNumber":"2"}"#,
        ),
        r#"{"__type":"com.amazonaws.dynamodb.v20120810#TrimmedDataAccessException","message":"the change records were trimmed"}"#,
    ),
    (
        1_700_086_401,
        (
            "GetShardIterator",
            r#"{"StreamArn":"arn:aws:dynamodb:local:000000000000:table/Tab/stream/000000000000000000001","ShardId":"shardId-00000000000000000000","ShardIteratorType":"AFTER_SEQUENCE_NUMBER","SequenceNumber":"1"}"#,
        ),
        r#"{"__type":"com.amazonaws.dynamodb.v20120810#TrimmedDataAccessException","message":"the change records were trimmed"}"#,
    ),
    (
        1_700_086_401,
        (
            "GetShardIterator",
            r#"{"StreamArn":"arn:aws:dynamodb:local:000000000000:table/Tab/stream/000000000000000000001","ShardId":"shardId-00000000000000000000","ShardIteratorType":"AFTER_SEQUENCE_NUMBER","SequenceNumber":"2"}"#,
        ),
        r#"{"ShardIterator":"arn:aws:dynamodb:local:000000000000:table/Tab/stream/000000000000000000001|000000000000000000003"}"#,
    ),
    (
        1_700_086_401,
        (
            "GetShardIterator",
            r#"{"StreamArn":"arn:aws:dynamodb:local:000000000000:table/Tab/stream/000000000000000000001","ShardId":"shardId-00000000000000000000","ShardIteratorType":"AT_SEQUENCE_NUMBER","SequenceNumber":"3"}"#,
        ),
        r#"{"ShardIterator":"arn:aws:dynamodb:local:000000000000:table/Tab/stream/000000000000000000001|000000000000000000003"}"#,
    ),
    (
        1_700_086_401,
        (
            "GetShardIterator",
            r#"{"StreamArn":"arn:aws:dynamodb:local:000000000000:table/Tab/stream/000000000000000000001","ShardId":"shardId-00000000000000000000","ShardIteratorType":"LATEST"}"#,
        ),
        r#"{"ShardIterator":"arn:aws:dynamodb:local:000000000000:table/Tab/stream/000000000000000000001|000000000000000000005"}"#,
    ),
    (
        1_600_000_000,
        ("PutItem", r#"{"TableName":"Tab","Item":{"k":{"S":"d"}}}"#),
        r#"{}"#,
    ),
    (
        1_600_000_000,
        (
            "GetRecords",
            r#"{"ShardIterator":"arn:aws:dynamodb:local:000000000000:table/Tab/stream/000000000000000000001|000000000000000000003"}"#,
        ),
        r#"{"NextShardIterator":"arn:aws:dynamodb:local:000000000000:table/Tab/stream/000000000000000000001|000000000000000000006","Records":[{"awsRegion":"local","dynamodb":{"ApproximateCreationDateTime":1700086400,"Keys":{"k":{"S":"b"}},"SequenceNumber":"000000000000000000003","SizeBytes":2,"StreamViewType":"KEYS_ONLY"},"eventID":"000000000000000000003","eventName":"INSERT","eventSource":"aws:dynamodb","eventVersion":"1.1"},{"awsRegion":"local","dynamodb":{"ApproximateCreationDateTime":1700086401,"Keys":{"k":{"S":"c"}},"SequenceNumber":"000000000000000000004","SizeBytes":2,"StreamViewType":"KEYS_ONLY"},"eventID":"000000000000000000004","eventName":"INSERT","eventSource":"aws:dynamodb","eventVersion":"1.1"},{"awsRegion":"local","dynamodb":{"ApproximateCreationDateTime":1600000000,"Keys":{"k":{"S":"d"}},"SequenceNumber":"000000000000000000005","SizeBytes":2,"StreamViewType":"KEYS_ONLY"},"eventID":"000000000000000000005","eventName":"INSERT","eventSource":"aws:dynamodb","eventVersion":"1.1"}]}"#,
    ),
    (
        1_700_086_402,
        (
            "UpdateItem",
            r#"{"TableName":"Tab","Key":{"k":{"S":"a"}},"UpdateExpression":"SET v = :v","ExpressionAttributeValues":{":v":{"N":"1"}}}"#,
        ),
        r#"{}"#,
    ),
    (
        1_700_086_402,
        (
            "GetRecords",
            r#"{"ShardIterator":"arn:aws:dynamodb:local:000000000000:table/Tab/stream/000000000000000000001|000000000000000000000","Limit":1}"#,
        ),
        r#"{"NextShardIterator":"arn:aws:dynamodb:local:000000000000:table/Tab/stream/000000000000000000001|000000000000000000004","Records":[{"awsRegion":"local","dynamodb":{"ApproximateCreationDateTime":1700086400,"Keys":{"k":{"S":"b"}},"SequenceNumber":"000000000000000000003","SizeBytes":2,"StreamViewType":"KEYS_ONLY"},"eventID":"000000000000000000003","eventName":"INSERT","eventSource":"aws:dynamodb","eventVersion":"1.1"}]}"#,
    ),
    (
        1_700_172_802,
        ("DeleteItem", r#"{"TableName":"Tab","Key":{"k":{"S":"a"}}}"#),
        r#"{}"#,
    ),
    (
        1_700_172_802,
        (
            "GetRecords",
            r#"{"ShardIterator":"arn:aws:dynamodb:local:000000000000:table/Tab/stream/000000000000000000001|000000000000000000000"}"#,
        ),
        r#"{"NextShardIterator":"arn:aws:dynamodb:local:000000000000:table/Tab/stream/000000000000000000001|000000000000000000008","Records":[{"awsRegion":"local","dynamodb":{"ApproximateCreationDateTime":1700086402,"Keys":{"k":{"S":"a"}},"SequenceNumber":"000000000000000000006","SizeBytes":2,"StreamViewType":"KEYS_ONLY"},"eventID":"000000000000000000006","eventName":"MODIFY","eventSource":"aws:dynamodb","eventVersion":"1.1"},{"awsRegion":"local","dynamodb":{"ApproximateCreationDateTime":1700172802,"Keys":{"k":{"S":"a"}},"SequenceNumber":"000000000000000000007","SizeBytes":2,"StreamViewType":"KEYS_ONLY"},"eventID":"000000000000000000007","eventName":"REMOVE","eventSource":"aws:dynamodb","eventVersion":"1.1"}]}"#,
    ),
    (
        1_700_172_802,
        (
            "GetShardIterator",
            r#"{"StreamArn":"arn:aws:dynamodb:local:000000000000:table/Tab/stream/000000000000000000001","ShardId":"shardId-00000000000000000000","ShardIteratorType":"AT_SEQUENCE_NUMBER","SequenceNumber":"5"}"#,
        ),
        r#"{"__type":"com.amazonaws.dynamodb.v20120810#TrimmedDataAccessException","message":"the change records were trimmed"}"#,
    ),
    (
        1_700_172_802,
        (
            "GetShardIterator",
            r#"{"StreamArn":"arn:aws:dynamodb:local:000000000000:table/Tab/stream/000000000000000000001","ShardId":"shardId-00000000000000000000","ShardIteratorType":"AFTER_SEQUENCE_NUMBER","SequenceNumber":"5"}"#,
        ),
        r#"{"ShardIterator":"arn:aws:dynamodb:local:000000000000:table/Tab/stream/000000000000000000001|000000000000000000006"}"#,
    ),
    (
        1_700_172_802,
        (
            "GetShardIterator",
            r#"{"StreamArn":"arn:aws:dynamodb:local:000000000000:table/Tab/stream/000000000000000000001","ShardId":"shardId-00000000000000000000","ShardIteratorType":"LATEST"}"#,
        ),
        r#"{"ShardIterator":"arn:aws:dynamodb:local:000000000000:table/Tab/stream/000000000000000000001|000000000000000000008"}"#,
    ),
    (
        1_800_000_000,
        ("DeleteItem", r#"{"TableName":"Tab","Key":{"k":{"S":"a"}}}"#),
        r#"{}"#,
    ),
    (
        1_800_000_000,
        (
            "GetRecords",
            r#"{"ShardIterator":"arn:aws:dynamodb:local:000000000000:table/Tab/stream/000000000000000000001|000000000000000000006"}"#,
        ),
        r#"{"NextShardIterator":"arn:aws:dynamodb:local:000000000000:table/Tab/stream/000000000000000000001|000000000000000000008","Records":[{"awsRegion":"local","dynamodb":{"ApproximateCreationDateTime":1700086402,"Keys":{"k":{"S":"a"}},"SequenceNumber":"000000000000000000006","SizeBytes":2,"StreamViewType":"KEYS_ONLY"},"eventID":"000000000000000000006","eventName":"MODIFY","eventSource":"aws:dynamodb","eventVersion":"1.1"},{"awsRegion":"local","dynamodb":{"ApproximateCreationDateTime":1700172802,"Keys":{"k":{"S":"a"}},"SequenceNumber":"000000000000000000007","SizeBytes":2,"StreamViewType":"KEYS_ONLY"},"eventID":"000000000000000000007","eventName":"REMOVE","eventSource":"aws:dynamodb","eventVersion":"1.1"}]}"#,
    ),
];

// Opens the store again where it is to be.
fn reopen(alloc: Global, tables: &mut Tables, disk: &mut MemoryDisk, again: bool) -> Option<()>
    requires { AreReady (state_of disk.old) tables.old }
    ensures { IfSome result (λ _. AreReady (state_of disk.new) tables.new) }
{
    if again {
        *tables = opened(alloc, disk)?;
    }
    Some(())
}

/// How many events come before the first that isn't answered so, all where each is. Before each the store may be opened again.
pub(super) fn answered(
    alloc: Global,
    tables: &mut Tables,
    disk: &mut MemoryDisk,
    events: &[Event],
    again: bool,
) -> Option<usize>
    requires { AreReady (state_of disk.old) tables.old }
{
    for number in 0..events.len() {
        reopen(alloc, tables, disk, again)?;
        let (moment, (operation, body), answer) = *events.get(number)?;
        let told = told_at(alloc, tables, disk, operation, body, moment)?;
        if told.as_str() != answer {
            return Some(number);
        }
    }
    Some(events.len())
}

// The same of a table that is made for it.
fn days_answered(alloc: Global, again: bool) -> Option<usize> {
    let mut disk = empty(alloc)?;
    let mut tables = opened(alloc, &mut disk)?;
    let _ = asked(alloc, &mut tables, &mut disk, &STREAMED)?;
    answered(alloc, &mut tables, &mut disk, &DAYS, again)
}

#[test]
fn a_stream_keeps_a_day_and_refuses_what_was_trimmed(rt: HostRuntime) {
    for again in [false, true] {
        let number = days_answered(rt.alloc(), again);
        assert!(rt;
            number == Some(DAYS.len()),
            "opened again {again}, event {number:?}"
        );
    }
}
