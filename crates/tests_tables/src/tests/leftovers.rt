//! The rows of trimmed changes that a stop leaves: they count for nothing, and go with the next writes.

use super::asking::{Request, asked, empty, opened, told_at};
use super::stops::CHOICES;
use super::streams::{Event, STREAMED, answered};
use alt_disk::{Disk, MemoryDisk};
use std::alloc::Global;

/// Five writes of one moment, then one that trims their changes, the numbers 2 to 6, and clears the rows of 2 and 3, and three more of its moment.
static PUTS: [(u64, Request); 9] = [
    (
        1_700_000_000,
        ("PutItem", r#"{"TableName":"Tab","Item":{"k":{"S":"a"}}}"#),
    ),
    (
        1_700_000_000,
        ("PutItem", r#"{"TableName":"Tab","Item":{"k":{"S":"b"}}}"#),
    ),
    (
        1_700_000_000,
        ("PutItem", r#"{"TableName":"Tab","Item":{"k":{"S":"c"}}}"#),
    ),
    (
        1_700_000_000,
        ("PutItem", r#"{"TableName":"Tab","Item":{"k":{"S":"d"}}}"#),
    ),
    (
        1_700_000_000,
        ("PutItem", r#"{"TableName":"Tab","Item":{"k":{"S":"e"}}}"#),
    ),
    (
        1_700_086_401,
        ("PutItem", r#"{"TableName":"Tab","Item":{"k":{"S":"f"}}}"#),
    ),
    (
        1_700_086_401,
        ("PutItem", r#"{"TableName":"Tab","Item":{"k":{"S":"g"}}}"#),
    ),
    (
        1_700_086_401,
        ("PutItem", r#"{"TableName":"Tab","Item":{"k":{"S":"h"}}}"#),
    ),
    (
        1_700_086_401,
        ("PutItem", r#"{"TableName":"Tab","Item":{"k":{"S":"i"}}}"#),
    ),
];

// The disk behind the first so many of them.
fn written(alloc: Global, number: usize) -> Option<MemoryDisk> {
    let mut disk = empty(alloc)?;
    let mut tables = opened(alloc, &mut disk)?;
    let _ = asked(alloc, &mut tables, &mut disk, &STREAMED)?;
    for put in PUTS.iter().take(number) {
        let (moment, (operation, body)) = *put;
        let _ = told_at(alloc, &mut tables, &mut disk, operation, body, moment)?;
    }
    Some(disk)
}

// What a stop leaves of it.
fn stopped(alloc: Global, number: usize, choice: &[u8]) -> Option<MemoryDisk> {
    let disk = written(alloc, number)?;
    let (now, _) = disk.counts();
    disk.stopped(now, choice).ok()
}

/// What is answered where a stop left the rows of 4, 5 and 6, before a further write and behind it.
static LEFT: [Event; 9] = [
    (
        1_700_086_401,
        (
            "GetShardIterator",
            r#"{"StreamArn":"arn:aws:dynamodb:local:000000000000:table/Tab/stream/000000000000000000001","ShardId":"shardId-00000000000000000000","ShardIteratorType":"TRIM_HORIZON"}"#,
        ),
        r#"{"ShardIterator":"arn:aws:dynamodb:local:000000000000:table/Tab/stream/000000000000000000001|000000000000000000000"}"#,
    ),
    (
        1_700_086_401,
        (
            "GetRecords",
            r#"{"ShardIterator":"arn:aws:dynamodb:local:000000000000:table/Tab/stream/000000000000000000001|000000000000000000000"}"#,
        ),
        r#"{"NextShardIterator":"arn:aws:dynamodb:local:000000000000:table/Tab/stream/000000000000000000001|000000000000000000008","Records":[{"awsRegion":"local","dynamodb":{"ApproximateCreationDateTime":1700086401,"Keys":{"k":{"S":"f"}},"SequenceNumber":"000000000000000000007","SizeBytes":2,"StreamViewType":"KEYS_ONLY"},"eventID":"000000000000000000007","eventName":"INSERT","eventSource":"aws:dynamodb","eventVersion":"1.1"}]}"#,
    ),
    (
        1_700_086_401,
        (
            "GetRecords",
            r#"{"ShardIterator":"arn:aws:dynamodb:local:000000000000:table/Tab/stream/000000000000000000001|000000000000000000006"}"#,
        ),
        r#"{"__type":"com.amazonaws.dynamodb.v20120810#TrimmedDataAccessException","message":"the change records were trimmed"}"#,
    ),
    (
        1_700_086_401,
        (
            "GetShardIterator",
            r#"{"StreamArn":"arn:aws:dynamodb:local:000000000000:table/Tab/stream/000000000000000000001","ShardId":"shardId-00000000000000000000","ShardIteratorType":"AT_SEQUENCE_NUMBER","SequenceNumber":"4"}"#,
        ),
        r#"{"__type":"com.amazonaws.dynamodb.v20120810#TrimmedDataAccessException","message":"the change records were trimmed"}"#,
    ),
    (
        1_700_086_401,
        (
            "GetShardIterator",
            r#"{"StreamArn":"arn:aws:dynamodb:local:000000000000:table/Tab/stream/000000000000000000001","ShardId":"shardId-00000000000000000000","ShardIteratorType":"AFTER_SEQUENCE_NUMBER","SequenceNumber":"6"}"#,
        ),
        r#"{"ShardIterator":"arn:aws:dynamodb:local:000000000000:table/Tab/stream/000000000000000000001|000000000000000000007"}"#,
    ),
    (
        1_700_086_401,
        ("PutItem", r#"{"TableName":"Tab","Item":{"k":{"S":"z"}}}"#),
        r#"{}"#,
    ),
    (
        1_700_086_401,
        (
            "GetRecords",
            r#"{"ShardIterator":"arn:aws:dynamodb:local:000000000000:table/Tab/stream/000000000000000000001|000000000000000000000"}"#,
        ),
        r#"{"NextShardIterator":"arn:aws:dynamodb:local:000000000000:table/Tab/stream/000000000000000000001|000000000000000000009","Records":[{"awsRegion":"local","dynamodb":{"ApproximateCreationDateTime":1700086401,"Keys":{"k":{"S":"f"}},"SequenceNumber":"000000000000000000007","SizeBytes":2,"StreamViewType":"KEYS_ONLY"},"eventID":"000000000000000000007","eventName":"INSERT","eventSource":"aws:dynamodb","eventVersion":"1.1"},{"awsRegion":"local","dynamodb":{"ApproximateCreationDateTime":1700086401,"Keys":{"k":{"S":"z"}},"SequenceNumber":"000000000000000000008","SizeBytes":2,"StreamViewType":"KEYS_ONLY"},"eventID":"000000000000000000008","eventName":"INSERT","eventSource":"aws:dynamodb","eventVersion":"1.1"}]}"#,
    ),
    (
        1_700_086_401,
        (
            "GetRecords",
            r#"{"ShardIterator":"arn:aws:dynamodb:local:000000000000:table/Tab/stream/000000000000000000001|000000000000000000006"}"#,
        ),
        r#"{"__type":"com.amazonaws.dynamodb.v20120810#TrimmedDataAccessException","message":"the change records were trimmed"}"#,
    ),
    (
        1_700_086_401,
        (
            "GetRecords",
            r#"{"ShardIterator":"arn:aws:dynamodb:local:000000000000:table/Tab/stream/000000000000000000001|000000000000000000007","Limit":1}"#,
        ),
        r#"{"NextShardIterator":"arn:aws:dynamodb:local:000000000000:table/Tab/stream/000000000000000000001|000000000000000000008","Records":[{"awsRegion":"local","dynamodb":{"ApproximateCreationDateTime":1700086401,"Keys":{"k":{"S":"f"}},"SequenceNumber":"000000000000000000007","SizeBytes":2,"StreamViewType":"KEYS_ONLY"},"eventID":"000000000000000000007","eventName":"INSERT","eventSource":"aws:dynamodb","eventVersion":"1.1"}]}"#,
    ),
];

// How many of these come before the first that isn't answered so, all where each is.
fn left_answered(alloc: Global, choice: &[u8], again: bool) -> Option<usize> {
    let mut left = stopped(alloc, 6, choice)?;
    let mut tables = opened(alloc, &mut left)?;
    answered(alloc, &mut tables, &mut left, &LEFT, again)
}

#[test]
fn rows_of_trimmed_changes_count_for_nothing(rt: HostRuntime) {
    for choice in &CHOICES {
        let number = left_answered(rt.alloc(), choice, false);
        assert!(rt; number == Some(LEFT.len()), "event {number:?}");
        let number = left_answered(rt.alloc(), choice, true);
        assert!(rt;
            number == Some(LEFT.len()),
            "opened again, event {number:?}"
        );
    }
}

/// A further put, of their moment and of another key.
static FURTHER: Request = ("PutItem", r#"{"TableName":"Tab","Item":{"k":{"S":"z"}}}"#);

/// Two further ones as a batch.
static BATCH: Request = (
    "BatchWriteItem",
    r#"{"RequestItems":{"Tab":[{"PutRequest":{"Item":{"k":{"S":"y"}}}},{"PutRequest":{"Item":{"k":{"S":"z"}}}}]}}"#,
);

// By how many bytes the log grows with a request, where a stop left what was written by the first so many.
fn growth(alloc: Global, number: usize, choice: &[u8], request: &Request) -> Option<u64> {
    let mut left = stopped(alloc, number, choice)?;
    let before = left.size(2).ok()?;
    let mut tables = opened(alloc, &mut left)?;
    let (operation, body) = *request;
    let _ = told_at(
        alloc,
        &mut tables,
        &mut left,
        operation,
        body,
        1_700_086_401,
    )?;
    left.size(2).ok()?.checked_sub(before)
}

/// The bytes in an entry that clear a row of a stream: its family, its key of 8 bytes as a field, that it is cleared, and that no columns follow.
const CLEARED: u64 = 4 + 16 + 1 + 8;

/// Behind how many of the puts a further one clears how many rows, and two as a batch do, of which each clears two as long as there are some.
static CLEARS: [(usize, u64, u64); 3] = [(6, 2, 3), (7, 1, 1), (8, 0, 0)];

// Whether the request writes so much more than where no row is left over.
fn clears(
    alloc: Global,
    number: usize,
    rows: u64,
    choice: &[u8],
    request: &Request,
) -> Option<bool> {
    let none = growth(alloc, PUTS.len(), choice, request)?;
    let some = growth(alloc, number, choice, request)?;
    Some(some.checked_sub(none)? == rows.checked_mul(CLEARED)?)
}

#[test]
fn rows_of_trimmed_changes_go_with_the_next_writes(rt: HostRuntime) {
    for (number, rows, of_batch) in &CLEARS {
        for choice in &CHOICES {
            assert!(rt;
                clears(rt.alloc(), *number, *rows, choice, &FURTHER) == Some(true),
                "behind {number} puts"
            );
            assert!(rt;
                clears(rt.alloc(), *number, *of_batch, choice, &BATCH) == Some(true),
                "a batch behind {number} puts"
            );
        }
    }
}
