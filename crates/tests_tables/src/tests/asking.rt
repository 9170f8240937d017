//! A store that is made, opened and asked, and what it is known by.

ghost use Rattle.std.specs.Prelude.{IfSome};
ghost use Rattle.alt_disk.specs.MemoryState.{state_of};
ghost use Rattle.alt_tables.specs.Stands.{AreReady};

use alt_disk::MemoryDisk;
use alt_dispatch::{answer, operation_named};
use alt_engine::{Limits, make_store};
use alt_shape::Reply;
use alt_tables::Tables;
use json::Scratch;
use std::alloc::Global;

/// An operation and its body.
pub(super) type Request = (&'static str, &'static str);

/// Writes of all operations: two tables, puts over and beside one another, one that is no write, a condition that fails, deletes.
pub(super) static WRITES: [Request; 12] = [
    (
        "CreateTable",
        r#"{"TableName":"Tab","KeySchema":[{"AttributeName":"k","KeyType":"HASH"}],"AttributeDefinitions":[{"AttributeName":"k","AttributeType":"S"}]}"#,
    ),
    (
        "PutItem",
        r#"{"TableName":"Tab","Item":{"k":{"S":"a"},"n":{"N":"1"},"gone":{"BOOL":true}}}"#,
    ),
    (
        "CreateTable",
        r#"{"TableName":"Two","KeySchema":[{"AttributeName":"k","KeyType":"HASH"},{"AttributeName":"r","KeyType":"RANGE"}],"AttributeDefinitions":[{"AttributeName":"k","AttributeType":"S"},{"AttributeName":"r","AttributeType":"N"}]}"#,
    ),
    (
        "PutItem",
        r#"{"TableName":"Tab","Item":{"k":{"S":"a"},"n":{"N":"2"},"new":{"SS":["x","y"]}}}"#,
    ),
    (
        "PutItem",
        r#"{"TableName":"Two","Item":{"k":{"S":"a"},"r":{"N":"-1"}}}"#,
    ),
    (
        "PutItem",
        r#"{"TableName":"Two","Item":{"k":{"S":"a"},"r":{"N":"-1.0"}}}"#,
    ),
    (
        "PutItem",
        r#"{"TableName":"Tab","Item":{"k":{"S":"b"}},"ConditionExpression":"attribute_not_exists(k)"}"#,
    ),
    (
        "PutItem",
        r#"{"TableName":"Tab","Item":{"k":{"S":"b"},"n":{"N":"9"}},"ConditionExpression":"attribute_not_exists(k)"}"#,
    ),
    (
        "DeleteItem",
        r#"{"TableName":"Tab","Key":{"k":{"S":"a"}},"ConditionExpression":"n = :two","ExpressionAttributeValues":{":two":{"N":"2"}}}"#,
    ),
    ("DeleteItem", r#"{"TableName":"Tab","Key":{"k":{"S":"a"}}}"#),
    ("DeleteTable", r#"{"TableName":"Tab"}"#),
    (
        "CreateTable",
        r#"{"TableName":"Tab","KeySchema":[{"AttributeName":"k","KeyType":"HASH"}],"AttributeDefinitions":[{"AttributeName":"k","AttributeType":"S"}]}"#,
    ),
];

/// At which a family is flushed, and merged.
pub(super) const LIMITS: Limits = Limits {
    flush: 65_536,
    merge: 4,
};

/// What tells one state after some of these writes from another.
static READS: [Request; 4] = [
    ("ListTables", "{}"),
    ("GetItem", r#"{"TableName":"Tab","Key":{"k":{"S":"a"}}}"#),
    ("GetItem", r#"{"TableName":"Tab","Key":{"k":{"S":"b"}}}"#),
    (
        "GetItem",
        r#"{"TableName":"Two","Key":{"k":{"S":"a"},"r":{"N":"-1"}}}"#,
    ),
];

/// The tables of the store on a disk.
pub(super) fn opened(alloc: Global, disk: &mut MemoryDisk) -> Option<Tables>
    ensures { IfSome result (AreReady (state_of disk.new)) }
{
    match Tables::recover(alloc, disk, LIMITS) {
        Ok(tables) => Some(tables),
        Err(_) => None,
    }
}

/// A disk with an empty store.
pub(super) fn empty(alloc: Global) -> Option<MemoryDisk> {
    let mut disk = MemoryDisk::new(alloc);
    match make_store(alloc, &mut disk) {
        Ok(()) => Some(disk),
        Err(_) => None,
    }
}

// The text of a reply.
fn text_of(alloc: Global, reply: &Reply) -> Option<String> {
    reply.body.to_string(alloc).ok()
}

/// What is answered to a request.
pub(super) fn asked(
    alloc: Global,
    tables: &mut Tables,
    disk: &mut MemoryDisk,
    request: &Request,
) -> Option<String>
    requires { AreReady (state_of disk.old) tables.old }
    ensures { IfSome result (λ _. AreReady (state_of disk.new) tables.new) }
{
    told(alloc, tables, disk, request.0, request.1)
}

/// The same, to an operation and its body.
pub(super) fn told(
    alloc: Global,
    tables: &mut Tables,
    disk: &mut MemoryDisk,
    operation: &str,
    body: &str,
) -> Option<String>
    requires { AreReady (state_of disk.old) tables.old }
    ensures { IfSome result (λ _. AreReady (state_of disk.new) tables.new) }
{
    told_at(alloc, tables, disk, operation, body, 1_700_000_000)
}

/// The same at a moment, in seconds since 1970.
pub(super) fn told_at(
    alloc: Global,
    tables: &mut Tables,
    disk: &mut MemoryDisk,
    operation: &str,
    body: &str,
    moment: u64,
) -> Option<String>
    requires { AreReady (state_of disk.old) tables.old }
    ensures { IfSome result (λ _. AreReady (state_of disk.new) tables.new) }
{
    let operation = operation_named(operation.as_bytes());
    let mut scratch = Scratch::new(alloc);
    match answer(
        alloc,
        &mut scratch,
        tables,
        disk,
        operation,
        body.as_bytes(),
        moment,
    ) {
        Ok(reply) => text_of(alloc, &reply),
        Err(_) => None,
    }
}

/// What is answered to all reads, with the number of the next write: what a state is known by.
pub(super) fn known(
    alloc: Global,
    tables: &mut Tables,
    disk: &mut MemoryDisk,
) -> Option<Vec<String>>
    requires { AreReady (state_of disk.old) tables.old }
    ensures { IfSome result (λ _. AreReady (state_of disk.new) tables.new) }
{
    let mut replies = Vec::new(alloc);
    for request in &READS {
        replies.push(asked(alloc, tables, disk, request)?).ok()?;
    }
    let number = tables.next_number();
    replies.push(format!(in alloc; "{number}").ok()?).ok()?;
    Some(replies)
}
