//! Items whose time is over: which of them an ExpireItems deletes, and that a server deletes them by itself behind every 64th connection.

ghost use Rattle.std.specs.Prelude.{◌≡◌, false};
ghost use Rattle.alt_shell.specs.Log.{talks};
ghost use Rattle.alt_shell.specs.Memory.{shell_state};

use super::over::{behind, ended, fresh, left_now, shell_over, shown};
use super::script::{CREATE, EXPIRE, OVER_1, OVER_3, PUT_2, TIME};
use alt_disk::MemoryDisk;
use alt_shell::MemoryShell;
use std::alloc::Global;

static TABLE: &str =
    r#"CreateTable {"TableName":"Tab","KeySchema":[{"AttributeName":"k","KeyType":"HASH"}],"AttributeDefinitions":[{"AttributeName":"k","AttributeType":"S"}]}"#;

static TIMED: &str =
    r#"UpdateTimeToLive {"TableName":"Tab","TimeToLiveSpecification":{"AttributeName":"x","Enabled":true}}"#;

static NONE: &[u8] = b"200 {\"Expired\":0}\n";

static SCAN: &str = r#"Scan {"TableName":"Tab"}"#;

static COUNT: &str = r#"Scan {"TableName":"Tab","Select":"COUNT"}"#;

/// Values of the attribute, and whether their time is over at the moment of the clock.
static TIMES: [(&str, bool); 12] = [
    (r#"{"N":"1699999999"}"#, true),
    (r#"{"N":"1699999999.9"}"#, true),
    (r#"{"N":"1542320000"}"#, true),
    (r#"{"N":"1700000000"}"#, false),
    (r#"{"N":"1542319999"}"#, false),
    (r#"{"N":"1542319999.99999999"}"#, false),
    (r#"{"N":"0"}"#, false),
    (r#"{"N":"-1"}"#, false),
    (
        r#"{"N":"9.9999999999999999999999999999999999999E125"}"#,
        false,
    ),
    (r#"{"S":"1"}"#, false),
    (r#"{"S":"1699999999"}"#, false),
    (r#"{"NS":["1699999999"]}"#, false),
];

// A put of an item with a value of that attribute.
fn put(alloc: Global, key: usize, value: &str) -> Option<String> {
    format!(in alloc;
        "PutItem {{\"TableName\":\"Tab\",\"Item\":{{\"k\":{{\"S\":\"{key}\"}},\"x\":{value}}}}}"
    ).ok()
}

// Whether a table with one item, of that value, loses it exactly where its time is over.
fn expires(alloc: Global, value: &str, over: bool) -> Option<bool> {
    let disk = behind(alloc, fresh(alloc)?, &[TABLE, TIMED])?;
    let disk = behind(alloc, disk, &[put(alloc, 0, value)?.as_str()])?;
    let said = shown(alloc, disk, &[EXPIRE, COUNT])?;
    let wanted: &[u8] = if over {
        b"200 {\"Expired\":1}\n200 {\"Count\":0,\"ScannedCount\":0}\n"
    } else {
        b"200 {\"Expired\":0}\n200 {\"Count\":1,\"ScannedCount\":1}\n"
    };
    Some(said.as_slice() == wanted)
}

#[test]
fn items_expire_within_five_years(rt: HostRuntime) {
    for (value, over) in &TIMES {
        assert!(rt;
            expires(rt.alloc(), *value, *over) == Some(true),
            "{}",
            *value
        );
    }
}

#[test]
fn items_without_the_attribute_stay(rt: HostRuntime) {
    let alloc = rt.alloc();
    let item = r#"PutItem {"TableName":"Tab","Item":{"k":{"S":"0"},"y":{"N":"1699999999"}}}"#;
    let said = fresh(alloc)
        .and_then(|disk| behind(alloc, disk, &[TABLE, TIMED, item]))
        .and_then(|disk| shown(alloc, disk, &[EXPIRE]));
    assert!(rt; said.is_some_and(|said| said.as_slice() == NONE));
}

// A batch of so many puts of items whose time is over, from a key on.
fn puts(alloc: Global, first: usize, count: usize) -> Option<String> {
    let mut text = String::from_str(alloc, r#"BatchWriteItem {"RequestItems":{"Tab":["#).ok()?;
    for number in 0..count {
        let key = first.checked_add(number)?;
        let comma = if number == 0 { "" } else { "," };
        let put = format!(in alloc;
            "{comma}{{\"PutRequest\":{{\"Item\":{{\"k\":{{\"S\":\"{key}\"}},\"x\":{{\"N\":\"1699999999\"}}}}}}}}"
        ).ok()?;
        text.push_str(put.as_str()).ok()?;
    }
    text.push_str("]}}").ok()?;
    Some(text)
}

// A disk with so many items in the table whose time is over.
fn expired(alloc: Global, count: usize) -> Option<MemoryDisk> {
    let mut lines = Vec::new(alloc);
    lines.push(String::from_str(alloc, TABLE).ok()?).ok()?;
    lines.push(String::from_str(alloc, TIMED).ok()?).ok()?;
    let mut first = 0;
    for _ in 0..count {
        if first >= count {
            break;
        }
        let rest = count - first;
        let size = if rest < 25 { rest } else { 25 };
        lines.push(puts(alloc, first, size)?).ok()?;
        first += size;
    }
    let mut texts = Vec::new(alloc);
    for line in &lines {
        texts.push(line.as_str()).ok()?;
    }
    behind(alloc, fresh(alloc)?, &texts)
}

#[test]
fn twenty_five_expire_at_once(rt: HostRuntime) {
    let alloc = rt.alloc();
    let said = expired(alloc, 30).and_then(|disk| shown(
        alloc,
        disk,
        &[EXPIRE, EXPIRE, EXPIRE, COUNT],
    ));
    let wanted: &[u8] =
        b"200 {\"Expired\":25}\n200 {\"Expired\":5}\n200 {\"Expired\":0}\n200 {\"Count\":0,\"ScannedCount\":0}\n";
    assert!(rt; said.is_some_and(|said| said.as_slice() == wanted));
}

// A disk with so many items in the table whose time is over, and 26 in the table Rng, all of one HASH value.
fn of_two_tables(alloc: Global, count: usize) -> Option<MemoryDisk> {
    let mut disk = behind(alloc, expired(alloc, count)?, &[CREATE, TIME])?;
    for number in 0..26 {
        let put = format!(in alloc;
            "PutItem {{\"TableName\":\"Rng\",\"Item\":{{\"k\":{{\"S\":\"a\"}},\"r\":{{\"N\":\"{number}\"}},\"x\":{{\"N\":\"1699999999\"}}}}}}"
        ).ok()?;
        disk = behind(alloc, disk, &[put.as_str()])?;
    }
    Some(disk)
}

#[test]
fn items_go_by_the_names_of_tables_and_then_by_places(rt: HostRuntime) {
    let alloc = rt.alloc();
    let said = of_two_tables(alloc, 10).and_then(|disk| shown(
        alloc,
        disk,
        &[
            EXPIRE,
            r#"Scan {"TableName":"Rng","ProjectionExpression":"r"}"#,
            COUNT,
            EXPIRE,
            COUNT,
        ],
    ));
    let wanted: &[u8] =
        b"200 {\"Expired\":25}\n200 {\"Count\":1,\"Items\":[{\"r\":{\"N\":\"25\"}}],\"ScannedCount\":1}\n200 {\"Count\":10,\"ScannedCount\":10}\n200 {\"Expired\":11}\n200 {\"Count\":0,\"ScannedCount\":0}\n";
    assert!(rt; said.is_some_and(|said| said.as_slice() == wanted));
}

/// What is shown of a table with an index and a stream of which two items of three went.
static LEFT: [(&str, &[u8]); 3] = [
    (
        r#"Scan {"TableName":"Rng"}"#,
        b"200 {\"Count\":1,\"Items\":[{\"g\":{\"S\":\"x\"},\"k\":{\"S\":\"a\"},\"r\":{\"N\":\"2\"}}],\"ScannedCount\":1}\n",
    ),
    (
        r#"Scan {"TableName":"Rng","IndexName":"Gix"}"#,
        b"200 {\"Count\":1,\"Items\":[{\"g\":{\"S\":\"x\"},\"k\":{\"S\":\"a\"},\"r\":{\"N\":\"2\"}}],\"ScannedCount\":1}\n",
    ),
    (
        r#"GetRecords {"ShardIterator":"arn:aws:dynamodb:local:000000000000:table/Rng/stream/000000000000000000001|000000000000000000006"}"#,
        b"200 {\"NextShardIterator\":\"arn:aws:dynamodb:local:000000000000:table/Rng/stream/000000000000000000001|000000000000000000008\",\"Records\":[{\"awsRegion\":\"local\",\"dynamodb\":{\"ApproximateCreationDateTime\":1700000000,\"Keys\":{\"k\":{\"S\":\"a\"},\"r\":{\"N\":\"1\"}},\"SequenceNumber\":\"000000000000000000006\",\"SizeBytes\":5,\"StreamViewType\":\"NEW_IMAGE\"},\"eventID\":\"000000000000000000006\",\"eventName\":\"REMOVE\",\"eventSource\":\"aws:dynamodb\",\"eventVersion\":\"1.1\",\"userIdentity\":{\"PrincipalId\":\"dynamodb.amazonaws.com\",\"Type\":\"Service\"}},{\"awsRegion\":\"local\",\"dynamodb\":{\"ApproximateCreationDateTime\":1700000000,\"Keys\":{\"k\":{\"S\":\"a\"},\"r\":{\"N\":\"3\"}},\"SequenceNumber\":\"000000000000000000007\",\"SizeBytes\":5,\"StreamViewType\":\"NEW_IMAGE\"},\"eventID\":\"000000000000000000007\",\"eventName\":\"REMOVE\",\"eventSource\":\"aws:dynamodb\",\"eventVersion\":\"1.1\",\"userIdentity\":{\"PrincipalId\":\"dynamodb.amazonaws.com\",\"Type\":\"Service\"}}]}\n",
    ),
];

#[test]
fn items_go_with_their_index_rows_and_a_record_of_who_deleted_them(rt: HostRuntime) {
    let alloc = rt.alloc();
    for (line, wanted) in &LEFT {
        let said = fresh(alloc)
            .and_then(|disk| behind(alloc, disk, &[CREATE, TIME, OVER_1, PUT_2, OVER_3, EXPIRE]))
            .and_then(|disk| shown(alloc, disk, &[*line]));
        assert!(rt;
            said.is_some_and(|said| said.as_slice() == *wanted),
            "{}",
            *line
        );
    }
}

// How many items are left of so many whose time is over, behind a run that serves so many connections, on the last of which a request comes
// where `asked`.
fn left(alloc: Global, count: usize, connections: usize, asked: bool) -> Option<Vec<u8>> {
    let mut shell = shell_over(alloc, expired(alloc, count)?, &[])?;
    for number in 0..connections {
        shell.connection().ok()?;
        if asked && number + 1 == connections {
            shell.send(LIST.as_bytes()).ok()?;
        }
    }
    let connections = format!(in alloc; "{connections}").ok()?;
    served(alloc, &mut shell, connections.as_str())
}

static LIST: &str =
    "POST / HTTP/1.1\r\nX-Amz-Target: DynamoDB_20120810.ListTables\r\nContent-Length: 2\r\n\r\n{}";

// What the table counts behind such a run.
fn served(alloc: Global, shell: &mut MemoryShell, connections: &str) -> Option<Vec<u8>>
    requires { talks (shell_state shell.old).beside ≡ false }
{
    match ended(alloc, &["serve", "1", connections, "65536", "4"], shell)? {
        0 => shown(alloc, left_now(shell, &[])?, &[COUNT]),
        _ => None,
    }
}

// What it then says.
fn counted(alloc: Global, count: usize) -> Option<String> {
    format!(in alloc; "200 {{\"Count\":{count},\"ScannedCount\":{count}}}\n").ok()
}

// Whether so many are left.
fn leaves(
    alloc: Global,
    count: usize,
    connections: usize,
    asked: bool,
    rest: usize,
) -> Option<bool> {
    let said = left(alloc, count, connections, asked)?;
    Some(said.as_slice() == counted(alloc, rest)?.as_bytes())
}

#[test]
fn expired_items_go_behind_the_64th_connection(rt: HostRuntime) {
    let alloc = rt.alloc();
    assert!(rt; leaves(alloc, 30, 64, true, 0) == Some(true));
    assert!(rt; leaves(alloc, 30, 63, true, 30) == Some(true));
    assert!(rt; leaves(alloc, 30, 65, true, 30) == Some(true));
}

#[test]
fn none_go_where_no_moment_was_told(rt: HostRuntime) {
    assert!(rt; leaves(rt.alloc(), 30, 64, false, 30) == Some(true));
}

#[test]
fn a_thousand_go_at_most(rt: HostRuntime) {
    assert!(rt; leaves(rt.alloc(), 1_030, 64, true, 30) == Some(true));
}
