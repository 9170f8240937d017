//! Items that move through indexes: in what a stop leaves at each moment the indexes agree with their table. And a write makes no row of an
//! index that keeps nothing of what it changes.

ghost use Rattle.alt_disk.specs.MemoryState.{state_of};
ghost use Rattle.alt_tables.specs.Stands.{AreReady};

use super::asking::{Request, asked, empty, opened};
use super::stops::{CHOICES, ask_some};
use alt_disk::{Disk, MemoryDisk};
use alt_tables::Tables;
use std::alloc::Global;

/// Writes over a table with a local index, a global one and a stream: items come into the indexes, move there by puts, updates, batches and
/// deletes, change in place, and go with the table. Each leaves a row in the stream, which an opening tests.
static MOVES: [Request; 13] = [
    (
        "CreateTable",
        r#"{"TableName":"Two","KeySchema":[{"AttributeName":"k","KeyType":"HASH"},{"AttributeName":"r","KeyType":"RANGE"}],"AttributeDefinitions":[{"AttributeName":"k","AttributeType":"S"},{"AttributeName":"r","AttributeType":"N"},{"AttributeName":"v","AttributeType":"N"},{"AttributeName":"g","AttributeType":"S"}],"StreamSpecification":{"StreamEnabled":true,"StreamViewType":"NEW_AND_OLD_IMAGES"},"LocalSecondaryIndexes":[{"IndexName":"Lix","KeySchema":[{"AttributeName":"k","KeyType":"HASH"},{"AttributeName":"v","KeyType":"RANGE"}],"Projection":{"ProjectionType":"ALL"}}],"GlobalSecondaryIndexes":[{"IndexName":"Gix","KeySchema":[{"AttributeName":"g","KeyType":"HASH"}],"Projection":{"ProjectionType":"ALL"}}]}"#,
    ),
    (
        "PutItem",
        r#"{"TableName":"Two","Item":{"k":{"S":"a"},"r":{"N":"-1"},"v":{"N":"-10"},"g":{"S":"x"}}}"#,
    ),
    (
        "PutItem",
        r#"{"TableName":"Two","Item":{"k":{"S":"a"},"r":{"N":"2"},"v":{"N":"20"},"g":{"S":"x"}}}"#,
    ),
    (
        "PutItem",
        r#"{"TableName":"Two","Item":{"k":{"S":"a"},"r":{"N":"-1"},"v":{"N":"-10"},"g":{"S":"y"},"n":{"N":"1"}}}"#,
    ),
    (
        "UpdateItem",
        r#"{"TableName":"Two","Key":{"k":{"S":"a"},"r":{"N":"-1"}},"UpdateExpression":"ADD v :five, n :five","ExpressionAttributeValues":{":five":{"N":"5"}}}"#,
    ),
    (
        "UpdateItem",
        r#"{"TableName":"Two","Key":{"k":{"S":"a"},"r":{"N":"2"}},"UpdateExpression":"SET g = :y REMOVE v","ExpressionAttributeValues":{":y":{"S":"y"}}}"#,
    ),
    (
        "PutItem",
        r#"{"TableName":"Two","Item":{"k":{"S":"a"},"r":{"N":"-1"},"v":{"N":"-5"},"g":{"S":"y"},"n":{"N":"7"}}}"#,
    ),
    (
        "PutItem",
        r#"{"TableName":"Two","Item":{"k":{"S":"a"},"r":{"N":"-1"},"v":{"S":"-5"},"g":{"S":"x"}}}"#,
    ),
    (
        "BatchWriteItem",
        r#"{"RequestItems":{"Two":[{"PutRequest":{"Item":{"k":{"S":"a"},"r":{"N":"2"},"v":{"N":"3"},"g":{"S":"x"}}}},{"PutRequest":{"Item":{"k":{"S":"a"},"r":{"N":"-1"},"v":{"N":"0"}}}}]}}"#,
    ),
    (
        "DeleteItem",
        r#"{"TableName":"Two","Key":{"k":{"S":"a"},"r":{"N":"2"}}}"#,
    ),
    ("DeleteTable", r#"{"TableName":"Two"}"#),
    (
        "CreateTable",
        r#"{"TableName":"Two","KeySchema":[{"AttributeName":"k","KeyType":"HASH"},{"AttributeName":"r","KeyType":"RANGE"}],"AttributeDefinitions":[{"AttributeName":"k","AttributeType":"S"},{"AttributeName":"r","AttributeType":"N"},{"AttributeName":"v","AttributeType":"N"},{"AttributeName":"g","AttributeType":"S"}],"StreamSpecification":{"StreamEnabled":true,"StreamViewType":"NEW_AND_OLD_IMAGES"},"LocalSecondaryIndexes":[{"IndexName":"Lix","KeySchema":[{"AttributeName":"k","KeyType":"HASH"},{"AttributeName":"v","KeyType":"RANGE"}],"Projection":{"ProjectionType":"ALL"}}],"GlobalSecondaryIndexes":[{"IndexName":"Gix","KeySchema":[{"AttributeName":"g","KeyType":"HASH"}],"Projection":{"ProjectionType":"ALL"}}]}"#,
    ),
    (
        "PutItem",
        r#"{"TableName":"Two","Item":{"k":{"S":"a"},"r":{"N":"2"},"v":{"N":"20"},"g":{"S":"y"}}}"#,
    ),
];

/// Reads of the table, and such of its indexes as have to show the same items in the same order. Both indexes keep all attributes,
/// all items have one HASH value, and the values of `v` rise as those of `r` do.
static READ_TWICE: [(Request, Request); 3] = [
    (
        (
            "Scan",
            r#"{"TableName":"Two","FilterExpression":"attribute_exists(v)"}"#,
        ),
        ("Scan", r#"{"TableName":"Two","IndexName":"Lix"}"#),
    ),
    (
        (
            "Scan",
            r#"{"TableName":"Two","FilterExpression":"g = :g","ExpressionAttributeValues":{":g":{"S":"x"}}}"#,
        ),
        (
            "Query",
            r#"{"TableName":"Two","IndexName":"Gix","KeyConditionExpression":"g = :g","ExpressionAttributeValues":{":g":{"S":"x"}}}"#,
        ),
    ),
    (
        (
            "Scan",
            r#"{"TableName":"Two","FilterExpression":"g = :g","ExpressionAttributeValues":{":g":{"S":"y"}}}"#,
        ),
        (
            "Query",
            r#"{"TableName":"Two","IndexName":"Gix","KeyConditionExpression":"g = :g","ExpressionAttributeValues":{":g":{"S":"y"}}}"#,
        ),
    ),
];

// Whether the indexes show the items of their tables. The last member of a page is how many items were examined, in which they may differ.
fn agree(alloc: Global, tables: &mut Tables, disk: &mut MemoryDisk) -> Option<bool>
    requires { AreReady (state_of disk.old) tables.old }
{
    for reads in &READ_TWICE {
        let table = asked(alloc, tables, disk, &reads.0)?;
        let index = asked(alloc, tables, disk, &reads.1)?;
        let (table, _) = table.as_str().rsplit_once(',')?;
        let (index, _) = index.as_str().rsplit_once(',')?;
        if table != index {
            return Some(false);
        }
    }
    Some(true)
}

// Whether they do in what a stop at this moment leaves.
fn left_agrees(alloc: Global, disk: &MemoryDisk, moment: u64, choice: &[u8]) -> Option<bool> {
    let (now, _) = disk.counts();
    if moment > now {
        return None;
    }
    let mut left = disk.stopped(moment, choice).ok()?;
    let mut tables = opened(alloc, &mut left)?;
    agree(alloc, &mut tables, &mut left)
}

// Whether they do in all that a stop may leave at these moments.
fn all_agree(alloc: Global, disk: &MemoryDisk, from: u64, to: u64) -> Option<bool> {
    for moment in from..to.checked_add(1)? {
        for choice in &CHOICES {
            if !left_agrees(alloc, disk, moment, choice)? {
                return Some(false);
            }
        }
    }
    Some(true)
}

// Whether they do at each moment of the request with that number, behind those before it.
fn agree_at(alloc: Global, number: usize) -> Option<bool> {
    let mut disk = empty(alloc)?;
    let mut tables = opened(alloc, &mut disk)?;
    ask_some(alloc, &mut tables, &mut disk, &MOVES, number)?;
    let (from, _) = disk.counts();
    let _ = asked(alloc, &mut tables, &mut disk, MOVES.get(number)?)?;
    let (to, _) = disk.counts();
    if !agree(alloc, &mut tables, &mut disk)? {
        return Some(false);
    }
    all_agree(alloc, &disk, from, to)
}

#[test]
fn a_stop_leaves_indexes_that_agree_with_their_tables(rt: HostRuntime) {
    for number in 0..MOVES.len() {
        assert!(rt;
            agree_at(rt.alloc(), number) == Some(true),
            "request {number}"
        );
    }
}

/// A table without indexes, and the same with one that keeps keys alone and one that keeps `w` too.
static PLAIN: Request = (
    "CreateTable",
    r#"{"TableName":"Tab","KeySchema":[{"AttributeName":"k","KeyType":"HASH"}],"AttributeDefinitions":[{"AttributeName":"k","AttributeType":"S"}]}"#,
);

static INDEXED: Request = (
    "CreateTable",
    r#"{"TableName":"Tab","KeySchema":[{"AttributeName":"k","KeyType":"HASH"}],"AttributeDefinitions":[{"AttributeName":"k","AttributeType":"S"},{"AttributeName":"g","AttributeType":"S"},{"AttributeName":"h","AttributeType":"S"}],"GlobalSecondaryIndexes":[{"IndexName":"Gix","KeySchema":[{"AttributeName":"g","KeyType":"HASH"}],"Projection":{"ProjectionType":"KEYS_ONLY"}},{"IndexName":"Hix","KeySchema":[{"AttributeName":"h","KeyType":"HASH"}],"Projection":{"ProjectionType":"INCLUDE","NonKeyAttributes":["w"]}}]}"#,
);

/// The item that all of these change.
static MADE: Request = (
    "PutItem",
    r#"{"TableName":"Tab","Item":{"k":{"S":"a"},"g":{"S":"x"},"h":{"S":"x"},"w":{"N":"1"},"z":{"N":"1"}}}"#,
);

/// A change of it, and whether no index keeps what it changes.
static CHANGES: [(Request, bool); 8] = [
    (
        (
            "PutItem",
            r#"{"TableName":"Tab","Item":{"k":{"S":"a"},"g":{"S":"x"},"h":{"S":"x"},"w":{"N":"1.0"},"z":{"N":"2"}}}"#,
        ),
        true,
    ),
    (
        (
            "UpdateItem",
            r#"{"TableName":"Tab","Key":{"k":{"S":"a"}},"UpdateExpression":"SET y = w REMOVE z"}"#,
        ),
        true,
    ),
    (
        (
            "PutItem",
            r#"{"TableName":"Tab","Item":{"k":{"S":"a"},"g":{"S":"x"},"h":{"S":"x"},"w":{"N":"1"},"z":{"N":"1"}}}"#,
        ),
        true,
    ),
    (
        (
            "PutItem",
            r#"{"TableName":"Tab","Item":{"k":{"S":"b"},"w":{"N":"1"}}}"#,
        ),
        true,
    ),
    (
        (
            "PutItem",
            r#"{"TableName":"Tab","Item":{"k":{"S":"a"},"g":{"S":"x"},"h":{"S":"x"},"w":{"N":"2"},"z":{"N":"1"}}}"#,
        ),
        false,
    ),
    (
        (
            "UpdateItem",
            r#"{"TableName":"Tab","Key":{"k":{"S":"a"}},"UpdateExpression":"REMOVE w"}"#,
        ),
        false,
    ),
    (
        (
            "UpdateItem",
            r#"{"TableName":"Tab","Key":{"k":{"S":"a"}},"UpdateExpression":"REMOVE g"}"#,
        ),
        false,
    ),
    (
        ("DeleteItem", r#"{"TableName":"Tab","Key":{"k":{"S":"a"}}}"#),
        false,
    ),
];

// The bytes of the log behind the first so many requests.
fn log_behind(alloc: Global, rows: &[Request], number: usize) -> Option<u64> {
    let mut disk = empty(alloc)?;
    let mut tables = opened(alloc, &mut disk)?;
    ask_some(alloc, &mut tables, &mut disk, rows, number)?;
    disk.size(2).ok()
}

// By how many bytes the log grows with the last of three requests.
fn growth(alloc: Global, rows: &[Request; 3]) -> Option<u64> {
    log_behind(alloc, rows, 3)?.checked_sub(log_behind(alloc, rows, 2)?)
}

// Whether a change of the item takes as many bytes in the table with indexes as in the one without.
fn grows_alike(alloc: Global, change: &Request) -> Option<bool> {
    let plain = growth(alloc, &[PLAIN, MADE, *change])?;
    let indexed = growth(alloc, &[INDEXED, MADE, *change])?;
    Some(plain == indexed)
}

#[test]
fn a_write_makes_no_row_of_an_index_that_keeps_nothing_of_what_it_changes(rt: HostRuntime) {
    for (change, alike) in &CHANGES {
        let (_, body) = change;
        assert!(rt;
            grows_alike(rt.alloc(), change) == Some(*alike),
            "change {body}"
        );
    }
}
