//! Changes that time to live made. No operation makes one yet, so the column that tells it is put into the row of a change
//! (docs/formats/table-rows.md).

ghost use Rattle.std.specs.Prelude.{IfSome};
ghost use Rattle.alt_disk.specs.Disk.{IsTrusted};
ghost use Rattle.alt_disk.specs.MemoryState.{state_of};
ghost use Rattle.alt_engine.specs.InHand.{StandsForLayout};
ghost use Rattle.alt_layout.specs.Layout.{Layout};

use super::asking::{LIMITS, Request, asked, empty, opened};
use super::streams::STREAMED;
use alt_cells::{Batch, CellList, RowChange};
use alt_disk::MemoryDisk;
use alt_engine::Engine;
use alt_fields::Bytes;
use alt_tables::{OpenFault, Tables};
use std::alloc::Global;

/// The write of number 2, behind that of the table.
static PUT: Request = ("PutItem", r#"{"TableName":"Tab","Item":{"k":{"S":"a"}}}"#);

/// The write of number 3.
static DELETE: Request = ("DeleteItem", r#"{"TableName":"Tab","Key":{"k":{"S":"a"}}}"#);

/// The family of the stream of the first table, behind that of its items.
const STREAM: u32 = 2;

/// The key of the row of the deletion.
const DELETION: &[u8] = &[0, 0, 0, 0, 0, 0, 0, 3];

// A disk with a store of these writes.
fn written(alloc: Global) -> Option<MemoryDisk> {
    let mut disk = empty(alloc)?;
    let mut tables = opened(alloc, &mut disk)?;
    let _ = asked(alloc, &mut tables, &mut disk, &STREAMED)?;
    let _ = asked(alloc, &mut tables, &mut disk, &PUT)?;
    let _ = asked(alloc, &mut tables, &mut disk, &DELETE)?;
    Some(disk)
}

// A batch that puts the column `u` with a value into the row of the deletion.
fn column_of(alloc: Global, value: &[u8]) -> Option<Batch> {
    let mut cells = CellList::new(alloc);
    let name = Bytes::new(alloc, b"u").ok()?;
    let value = Bytes::new(alloc, value).ok()?;
    cells.push(name, Some(value)).ok()?;
    let key = Bytes::new(alloc, DELETION).ok()?;
    let mut batch = Batch::new(alloc);
    batch
        .add(RowChange {
            family: STREAM,
            key,
            clear: false,
            cells,
        })
        .ok()?;
    Some(batch)
}

// The engine of the store on a disk.
fn engine_of(alloc: Global, disk: &mut MemoryDisk) -> Option<Engine>
    ensures { IfSome result (λ e. IsTrusted (state_of disk.new)
        → (l : Layout) × StandsForLayout (state_of disk.new) e l) }
{
    match Engine::recover(alloc, disk, LIMITS) {
        Ok(engine) => Some(engine),
        Err(_) => None,
    }
}

// A disk with a store in which the deletion has that column.
fn marked(alloc: Global, value: &[u8]) -> Option<MemoryDisk> {
    let mut disk = written(alloc)?;
    let batch = column_of(alloc, value)?;
    let mut engine = engine_of(alloc, &mut disk)?;
    match engine.apply(&mut disk, &batch) {
        Ok(_) => Some(disk),
        Err(_) => None,
    }
}

/// A read of all changes of the table.
static READ: Request = (
    "GetRecords",
    r#"{"ShardIterator":"arn:aws:dynamodb:local:000000000000:table/Tab/stream/000000000000000000001|000000000000000000000"}"#,
);

/// What is answered to it where time to live made the deletion (Streams API Reference, "Record", userIdentity).
static OF_EXPIRY: &str =
    r#"{"NextShardIterator":"arn:aws:dynamodb:local:000000000000:table/Tab/stream/000000000000000000001|000000000000000000004","Records":[{"awsRegion":"local","dynamodb":{"ApproximateCreationDateTime":1700000000,"Keys":{"k":{"S":"a"}},"SequenceNumber":"000000000000000000002","SizeBytes":2,"StreamViewType":"KEYS_ONLY"},"eventID":"000000000000000000002","eventName":"INSERT","eventSource":"aws:dynamodb","eventVersion":"1.1"},{"awsRegion":"local","dynamodb":{"ApproximateCreationDateTime":1700000000,"Keys":{"k":{"S":"a"}},"SequenceNumber":"000000000000000000003","SizeBytes":2,"StreamViewType":"KEYS_ONLY"},"eventID":"000000000000000000003","eventName":"REMOVE","eventSource":"aws:dynamodb","eventVersion":"1.1","userIdentity":{"PrincipalId":"dynamodb.amazonaws.com","Type":"Service"}}]}"#;

// What is answered to it where the deletion has that column.
fn records(alloc: Global, value: &[u8]) -> Option<String> {
    let mut disk = marked(alloc, value)?;
    let mut tables = opened(alloc, &mut disk)?;
    asked(alloc, &mut tables, &mut disk, &READ)
}

#[test]
fn a_deletion_by_time_to_live_names_it(rt: HostRuntime) {
    assert!(rt; records(rt.alloc(), b"").is_some_and(|told| told.as_str() == OF_EXPIRY));
}

// Whether the row of the deletion is the first that is wrong, where it has that column.
fn is_bad(alloc: Global, value: &[u8]) -> Option<bool> {
    let mut disk = marked(alloc, value)?;
    match Tables::recover(alloc, &mut disk, LIMITS) {
        Err(OpenFault::BadRow { family, key }) => {
            Some(family == STREAM && key.as_slice() == DELETION)
        }
        _ => Some(false),
    }
}

#[test]
fn the_column_of_time_to_live_has_no_bytes(rt: HostRuntime) {
    assert!(rt; is_bad(rt.alloc(), b"x") == Some(true), "one byte");
    assert!(rt; is_bad(rt.alloc(), b"") == Some(false), "none");
}
