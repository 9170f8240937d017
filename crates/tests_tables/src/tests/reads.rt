//! How often the disk is read for a page. The rows of a table lie in two row files, and so do those of its index: ten in the first, each of which
//! fills a block, and in the second the tombstones of two of them and a later version of a third.

ghost use Rattle.std.specs.Prelude.{IfSome};
ghost use Rattle.alt_disk.specs.MemoryState.{state_of};
ghost use Rattle.alt_tables.specs.Stands.{AreReady};

use super::asking::{Request, asked, empty, opened, told};
use alt_disk::MemoryDisk;
use alt_engine::Task;
use alt_tables::Tables;
use std::alloc::Global;

/// The table, and an index that has all of its items.
static TABLE: Request = (
    "CreateTable",
    r#"{"TableName":"Tab","KeySchema":[{"AttributeName":"p","KeyType":"HASH"},{"AttributeName":"r","KeyType":"RANGE"}],"AttributeDefinitions":[{"AttributeName":"p","AttributeType":"S"},{"AttributeName":"r","AttributeType":"N"},{"AttributeName":"g","AttributeType":"S"}],"GlobalSecondaryIndexes":[{"IndexName":"Gix","KeySchema":[{"AttributeName":"g","KeyType":"HASH"},{"AttributeName":"r","KeyType":"RANGE"}],"Projection":{"ProjectionType":"ALL"}}]}"#,
);

/// What comes behind the first flush: the items 3 and 4 go, and 6 changes.
static LATER: [Request; 3] = [
    (
        "DeleteItem",
        r#"{"TableName":"Tab","Key":{"p":{"S":"a"},"r":{"N":"3"}}}"#,
    ),
    (
        "DeleteItem",
        r#"{"TableName":"Tab","Key":{"p":{"S":"a"},"r":{"N":"4"}}}"#,
    ),
    (
        "UpdateItem",
        r#"{"TableName":"Tab","Key":{"p":{"S":"a"},"r":{"N":"6"}},"UpdateExpression":"SET n = :n","ExpressionAttributeValues":{":n":{"N":"1"}}}"#,
    ),
];

/// A page, how many versions of rows the files have from where its walk starts to the last item that it examines, or to the end of its range
/// where it doesn't end early, and how many items it examines.
struct Page {
    request: Request,
    versions: u32,
    examined: u32,
}

static PAGES: [Page; 14] = [
    Page {
        request: (
            "Query",
            r#"{"TableName":"Tab","KeyConditionExpression":"p = :p","ExpressionAttributeValues":{":p":{"S":"a"}}}"#,
        ),
        versions: 13,
        examined: 8,
    },
    Page {
        request: (
            "Query",
            r#"{"TableName":"Tab","KeyConditionExpression":"p = :p","ExpressionAttributeValues":{":p":{"S":"a"}},"Limit":1}"#,
        ),
        versions: 1,
        examined: 1,
    },
    Page {
        request: (
            "Query",
            r#"{"TableName":"Tab","KeyConditionExpression":"p = :p AND r BETWEEN :one AND :five","ExpressionAttributeValues":{":p":{"S":"a"},":one":{"N":"1"},":five":{"N":"5"}}}"#,
        ),
        versions: 7,
        examined: 3,
    },
    Page {
        request: (
            "Query",
            r#"{"TableName":"Tab","KeyConditionExpression":"p = :p","ExpressionAttributeValues":{":p":{"S":"a"}},"ScanIndexForward":false,"Limit":3}"#,
        ),
        versions: 3,
        examined: 3,
    },
    Page {
        request: (
            "Query",
            r#"{"TableName":"Tab","KeyConditionExpression":"p = :p","FilterExpression":"n = :p","ExpressionAttributeValues":{":p":{"S":"a"}},"ScanIndexForward":false,"ExclusiveStartKey":{"p":{"S":"a"},"r":{"N":"6"}},"Limit":2}"#,
        ),
        versions: 6,
        examined: 2,
    },
    Page {
        request: (
            "Query",
            r#"{"TableName":"Tab","KeyConditionExpression":"p = :p","ExpressionAttributeValues":{":p":{"S":"a"}},"ExclusiveStartKey":{"p":{"S":"a"},"r":{"N":"2"}},"Limit":1}"#,
        ),
        versions: 5,
        examined: 1,
    },
    Page {
        request: (
            "Query",
            r#"{"TableName":"Tab","IndexName":"Gix","KeyConditionExpression":"g = :g","ExpressionAttributeValues":{":g":{"S":"b"}},"Limit":4}"#,
        ),
        versions: 8,
        examined: 4,
    },
    Page {
        request: ("Scan", r#"{"TableName":"Tab"}"#),
        versions: 13,
        examined: 8,
    },
    Page {
        request: (
            "Scan",
            r#"{"TableName":"Tab","IndexName":"Gix","ExclusiveStartKey":{"p":{"S":"a"},"r":{"N":"2"},"g":{"S":"b"}},"Limit":1}"#,
        ),
        versions: 5,
        examined: 1,
    },
    Page {
        request: (
            "Query",
            r#"{"TableName":"Tab","KeyConditions":{"p":{"ComparisonOperator":"EQ","AttributeValueList":[{"S":"a"}]},"r":{"ComparisonOperator":"GE","AttributeValueList":[{"N":"5"}]}}}"#,
        ),
        versions: 6,
        examined: 5,
    },
    Page {
        request: (
            "Query",
            r#"{"TableName":"Tab","KeyConditions":{"p":{"ComparisonOperator":"EQ","AttributeValueList":[{"S":"a"}]}},"QueryFilter":{"n":{"ComparisonOperator":"EQ","AttributeValueList":[{"S":"a"}]}},"ScanIndexForward":false,"ExclusiveStartKey":{"p":{"S":"a"},"r":{"N":"6"}},"Limit":2}"#,
        ),
        versions: 6,
        examined: 2,
    },
    Page {
        request: (
            "Query",
            r#"{"TableName":"Tab","IndexName":"Gix","KeyConditions":{"g":{"ComparisonOperator":"EQ","AttributeValueList":[{"S":"b"}]}},"Limit":4}"#,
        ),
        versions: 8,
        examined: 4,
    },
    Page {
        request: (
            "Scan",
            r#"{"TableName":"Tab","ScanFilter":{"n":{"ComparisonOperator":"NOT_NULL"}},"Limit":2}"#,
        ),
        versions: 2,
        examined: 2,
    },
    Page {
        request: (
            "Scan",
            r#"{"TableName":"Tab","IndexName":"Gix","AttributesToGet":["r"],"ExclusiveStartKey":{"p":{"S":"a"},"r":{"N":"2"},"g":{"S":"b"}},"Limit":1}"#,
        ),
        versions: 5,
        examined: 1,
    },
];

/// How many row files the table has, and how many its index.
const FILES: u64 = 2;

// Puts the ten items.
fn put_all(alloc: Global, tables: &mut Tables, disk: &mut MemoryDisk) -> Option<()>
    requires { AreReady (state_of disk.old) tables.old }
    ensures { IfSome result (λ _. AreReady (state_of disk.new) tables.new) }
{
    let mut pad = String::new(alloc);
    for _ in 0..300 {
        pad.push_str("0123456789abcdef").ok()?;
    }
    for number in 0..10 {
        let body = format!(in alloc;
            r#"{{"TableName":"Tab","Item":{{"p":{{"S":"a"}},"r":{{"N":"{number}"}},"g":{{"S":"b"}},"pad":{{"S":"{pad}"}}}}}}"#
        ).ok()?;
        let _ = told(alloc, tables, disk, "PutItem", body.as_str())?;
    }
    Some(())
}

// Puts what is in memory into row files.
fn flush(tables: &mut Tables, disk: &mut MemoryDisk) -> Option<()>
    requires { AreReady (state_of disk.old) tables.old }
    ensures { IfSome result (λ _. AreReady (state_of disk.new) tables.new) }
{
    match tables.work(disk, Task::FlushAll) {
        Ok(_) => Some(()),
        Err(fault) => {
            let _spent = fault;
            None
        }
    }
}

// Makes the files.
fn fill(alloc: Global, tables: &mut Tables, disk: &mut MemoryDisk) -> Option<()>
    requires { AreReady (state_of disk.old) tables.old }
    ensures { IfSome result (λ _. AreReady (state_of disk.new) tables.new) }
{
    let _ = asked(alloc, tables, disk, &TABLE)?;
    put_all(alloc, tables, disk)?;
    flush(tables, disk)?;
    for request in &LATER {
        let _ = asked(alloc, tables, disk, request)?;
    }
    flush(tables, disk)
}

// Whether a page examines as many items as it says and reads the disk, but no more often than it may.
fn keeps_bound(
    alloc: Global,
    tables: &mut Tables,
    disk: &mut MemoryDisk,
    page: &Page,
) -> Option<bool>
    requires { AreReady (state_of disk.old) tables.old }
{
    let (_, before) = disk.counts();
    let reply = asked(alloc, tables, disk, &page.request)?;
    let (_, after) = disk.counts();
    let examined = page.examined;
    let scanned = format!(in alloc; r#""ScannedCount":{examined}}}"#).ok()?;
    let reads = after.checked_sub(before)?;
    let most = u64::from(page.versions) + 2 * FILES * (1 + u64::from(examined));
    Some(reply.as_str().ends_with(scanned.as_str()) && reads > 0 && reads <= most)
}

// The same over files that are made for it.
fn reads_within(alloc: Global, page: &Page) -> Option<bool> {
    let mut disk = empty(alloc)?;
    let mut tables = opened(alloc, &mut disk)?;
    fill(alloc, &mut tables, &mut disk)?;
    keeps_bound(alloc, &mut tables, &mut disk, page)
}

#[test]
fn a_page_reads_its_files_no_more_often_than_the_versions_that_it_passes_ask_for(rt: HostRuntime) {
    for page in &PAGES {
        let (operation, body) = page.request;
        assert!(rt;
            reads_within(rt.alloc(), page) == Some(true),
            "{operation} {body}"
        );
    }
}
