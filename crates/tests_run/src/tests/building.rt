//! An index that is being built through stops and failures: until it is whole its reads are refused, then they show all of it, and a run over
//! what a stop has left goes on with it. The same through flushes, merges and reopenings, over two tables, and in a server.

ghost use Rattle.std.specs.Prelude.{◌≡◌, false};
ghost use Rattle.alt_shell.specs.Log.{talks};
ghost use Rattle.alt_shell.specs.Memory.{shell_state};

use super::backfill::{ADD, COUNT, DESCRIBE, answers, filled};
use super::over::{behind, ended, left, left_now, replayed, shell_over, shown};
use super::script::choices;
use super::stops::{failing, replies};
use alt_disk::MemoryDisk;
use alt_shell::MemoryShell;
use std::alloc::Global;

/// A put that moves the last of 130 items by its place in the index, and a look at where it is then.
const LAST: &str = r#"PutItem {"TableName":"Tab","Item":{"k":{"S":"51"},"g":{"S":"y"}}}"#;

const MOVED: &str =
    r#"Query {"TableName":"Tab","IndexName":"byg","KeyConditionExpression":"g = :g","ExpressionAttributeValues":{":g":{"S":"y"}}}"#;

/// The index comes, its read is refused, the last item is put, and the index is whole.
static LINES: [&str; 4] = [ADD, MOVED, LAST, MOVED];

static REPLIES: &[u8] =
    b"200 {\"TableDescription\":{\"AttributeDefinitions\":[{\"AttributeName\":\"k\",\"AttributeType\":\"S\"},{\"AttributeName\":\"g\",\"AttributeType\":\"S\"}],\"CreationDateTime\":1700000000,\"GlobalSecondaryIndexes\":[{\"Backfilling\":true,\"IndexArn\":\"arn:aws:dynamodb:local:000000000000:table/Tab/index/byg\",\"IndexName\":\"byg\",\"IndexStatus\":\"CREATING\",\"KeySchema\":[{\"AttributeName\":\"g\",\"KeyType\":\"HASH\"}],\"Projection\":{\"ProjectionType\":\"ALL\"}}],\"KeySchema\":[{\"AttributeName\":\"k\",\"KeyType\":\"HASH\"}],\"TableArn\":\"arn:aws:dynamodb:local:000000000000:table/Tab\",\"TableName\":\"Tab\",\"TableStatus\":\"UPDATING\"}}\n400 {\"__type\":\"com.amazonaws.dynamodb.v20120810#ValidationException\",\"message\":\"no such index\"}\n200 {}\n200 {\"Count\":1,\"Items\":[{\"g\":{\"S\":\"y\"},\"k\":{\"S\":\"51\"}}],\"ScannedCount\":1}\n";

static WHOLE: &[u8] = b"200 {\"Count\":130,\"ScannedCount\":130}\n";

// A disk as it is now.
fn copy(disk: &MemoryDisk) -> Option<MemoryDisk> {
    let (now, _) = disk.counts();
    disk.stopped(now, &[]).ok()
}

#[test]
fn an_index_is_whole_behind_its_last_step(rt: HostRuntime) {
    let alloc = rt.alloc();
    let said = filled(alloc, 130).and_then(|disk| shown(alloc, disk, &LINES));
    assert!(rt; said.is_some_and(|said| said.as_slice() == REPLIES));
}

/// The same lines between which the store is flushed, merged and opened again.
static DISTURBED: [&str; 8] = [
    "@flush", ADD, "@flush", MOVED, "@reopen", "@merge", LAST, "@flush",
];

// Whether the index of a store is refused, or counts all.
fn is_whole_or_refused(alloc: Global, disk: MemoryDisk) -> Option<bool> {
    let said = shown(alloc, disk, &[COUNT])?;
    Some(said.as_slice() == WHOLE || said.starts_with(b"400 "))
}

// Whether the index is whole behind the lines of which the store may have some, once they are run again.
fn is_built_further(alloc: Global, disk: MemoryDisk) -> Option<bool> {
    let disk = behind(alloc, disk, &[ADD, LAST, DESCRIBE])?;
    let said = shown(alloc, disk, &[COUNT, MOVED])?;
    let start = said.strip_prefix(WHOLE)?;
    Some(REPLIES.ends_with(start) && start.starts_with(b"200 {\"Count\":1,"))
}

// Whether both hold of what a stop of a run leaves at this moment, whatever it picks.
fn goes_on(alloc: Global, shell: &MemoryShell, moment: u64, choices: &[Vec<u8>]) -> Option<bool> {
    for choice in choices {
        if !is_whole_or_refused(alloc, left(shell, moment, choice)?)?
            || !is_built_further(alloc, left(shell, moment, choice)?)?
        {
            return Some(false);
        }
    }
    Some(true)
}

// Whether the call at this moment fails as it has to, and what it leaves is gone on with.
fn fails_well(
    alloc: Global,
    begun: &MemoryDisk,
    lines: &[&str],
    whole: &MemoryShell,
    moment: u64,
    choices: &[Vec<u8>],
) -> Option<bool> {
    let failed = failing(alloc, copy(begun)?, lines, moment)?;
    let _count = replies(failed.said(None), whole.said(None))?;
    let (end, _) = failed.disk().counts();
    goes_on(alloc, &failed, end, choices)
}

// The first moment of a run over these lines behind which an index isn't gone on with, among every so many. It has so many at least.
fn stops(alloc: Global, lines: &[&str], each: u64, least: u64) -> Option<Option<u64>> {
    let begun = filled(alloc, 130)?;
    let choices = choices(alloc)?;
    let whole = replayed(alloc, copy(&begun)?, lines)?;
    let (end, _) = whole.disk().counts();
    for moment in 0..end {
        if moment.checked_rem(each) == Some(0)
            && (goes_on(alloc, &whole, moment, &choices) != Some(true)
                || fails_well(alloc, &begun, lines, &whole, moment, &choices) != Some(true))
        {
            return Some(Some(moment));
        }
    }
    let all = goes_on(alloc, &whole, end, &choices)?;
    Some(if all && least <= end { None } else { Some(end) })
}

#[test]
fn a_run_behind_a_stop_goes_on_with_an_index(rt: HostRuntime) {
    let found = stops(rt.alloc(), &LINES, 1, 20);
    assert!(rt; found == Some(None), "{found:?}");
}

// Every so many moments of the longer run are looked at.
const EACH: u64 = 13;

#[test]
fn it_does_so_between_flushes_and_merges(rt: HostRuntime) {
    let found = stops(rt.alloc(), &DISTURBED, EACH, 60);
    assert!(rt; found == Some(None), "{found:?}");
}

/// A table whose name comes first, an item of it, and an index of it that comes.
static FIRST: &str =
    r#"CreateTable {"TableName":"Aaa","KeySchema":[{"AttributeName":"k","KeyType":"HASH"}],"AttributeDefinitions":[{"AttributeName":"k","AttributeType":"S"}]}"#;

static ITEM: &str = r#"PutItem {"TableName":"Aaa","Item":{"k":{"S":"a"},"g":{"S":"x"}}}"#;

static ADD_FIRST: &str =
    r#"UpdateTable {"TableName":"Aaa","AttributeDefinitions":[{"AttributeName":"g","AttributeType":"S"}],"GlobalSecondaryIndexUpdates":[{"Create":{"IndexName":"byg","KeySchema":[{"AttributeName":"g","KeyType":"HASH"}],"Projection":{"ProjectionType":"ALL"}}}]}"#;

static COUNT_FIRST: &str = r#"Scan {"TableName":"Aaa","IndexName":"byg","Select":"COUNT"}"#;

static GONE: &str = r#"DeleteTable {"TableName":"Tab"}"#;

#[test]
fn the_index_of_the_first_table_is_built_first(rt: HostRuntime) {
    let alloc = rt.alloc();
    let disk = filled(alloc, 130).and_then(|disk| behind(alloc, disk, &[FIRST, ITEM]));
    let lines = [ADD, ADD_FIRST, COUNT_FIRST, COUNT, COUNT];
    assert!(rt; answers(alloc, disk, &lines, b"22242") == Some(true));
}

#[test]
fn a_table_whose_index_is_being_built_may_go(rt: HostRuntime) {
    let alloc = rt.alloc();
    let disk = filled(alloc, 130).and_then(|disk| behind(alloc, disk, &[FIRST, ITEM]));
    let lines = [ADD, GONE, ADD_FIRST, COUNT_FIRST, COUNT];
    assert!(rt; answers(alloc, disk, &lines, b"22224") == Some(true));
}

static LIST: &str =
    "POST / HTTP/1.1\r\nX-Amz-Target: DynamoDB_20120810.ListTables\r\nContent-Length: 2\r\n\r\n{}";

/// Two of them on one connection.
static TWICE: &str =
    "POST / HTTP/1.1\r\nX-Amz-Target: DynamoDB_20120810.ListTables\r\nContent-Length: 2\r\n\r\n{}POST / HTTP/1.1\r\nX-Amz-Target: DynamoDB_20120810.ListTables\r\nContent-Length: 2\r\n\r\n{}";

// Whether the index of 130 items, of which a step was made before, is whole behind a server whose connections ask this.
fn served(alloc: Global, pieces: &[&str]) -> Option<bool> {
    let disk = behind(alloc, filled(alloc, 130)?, &[ADD])?;
    let mut shell = shell_over(alloc, disk, &[])?;
    for piece in pieces {
        shell.connection().ok()?;
        if !piece.is_empty() {
            shell.send(piece.as_bytes()).ok()?;
        }
    }
    let connections = pieces.len();
    let connections = format!(in alloc; "{connections}").ok()?;
    is_whole_behind(alloc, &mut shell, connections.as_str())
}

// Whether the index is whole behind a server of so many connections.
fn is_whole_behind(alloc: Global, shell: &mut MemoryShell, connections: &str) -> Option<bool>
    requires { talks (shell_state shell.old).beside ≡ false }
{
    match ended(alloc, &["serve", "9", connections, "65536", "4"], shell)? {
        0 => Some(shown(alloc, left_now(shell, &[])?, &[COUNT])?.as_slice() == WHOLE),
        _ => None,
    }
}

#[test]
fn a_server_builds_behind_each_request(rt: HostRuntime) {
    let alloc = rt.alloc();
    assert!(rt; served(alloc, &[LIST, LIST]) == Some(true));
    assert!(rt; served(alloc, &[TWICE]) == Some(true));
    assert!(rt; served(alloc, &[LIST]) == Some(false));
    assert!(rt; served(alloc, &["", LIST, ""]) == Some(false));
}
