//! Peers of a server: heads that are refused, requests that are cut off, and replies that can't be said.

ghost use Rattle.std.specs.Prelude.{◌≡◌, ◌<◌, false, IfSome};
ghost use Rattle.alt_shell.specs.Log.{talks};
ghost use Rattle.alt_shell.specs.Memory.{shell_state};

use super::over::{behind, ended, fresh, left_now, shell_over, shown};
use super::script::choices;
use alt_disk::MemoryDisk;
use alt_shell::MemoryShell;
use std::alloc::Global;

static SERVE: [&str; 5] = ["serve", "2", "1", "65536", "4"];

static TABLE: &str =
    r#"CreateTable {"TableName":"Tab","KeySchema":[{"AttributeName":"k","KeyType":"HASH"}],"AttributeDefinitions":[{"AttributeName":"k","AttributeType":"S"}]}"#;

static SCAN: &str = r#"Scan {"TableName":"Tab"}"#;

/// What a peer sends, and the status and the text by which it is refused.
static REFUSED: [(&str, &str, &str); 10] = [
    ("POST / HTTP/2.0\r\n", "400 Bad Request", "bad head"),
    (
        "POST / HTTP/1.1\r\nTransfer-Encoding: chunked\r\n\r\n",
        "501 Not Implemented",
        "no transfer codings",
    ),
    (
        "GET / HTTP/1.1\r\n\r\n",
        "405 Method Not Allowed",
        "only POST",
    ),
    ("POST /x HTTP/1.1\r\n\r\n", "404 Not Found", "only /"),
    (
        "POST / HTTP/1.1\r\nContent-Encoding: gzip\r\n\r\n",
        "415 Unsupported Media Type",
        "no content codings",
    ),
    (
        "POST / HTTP/1.1\r\n\r\n",
        "411 Length Required",
        "length required",
    ),
    (
        "POST / HTTP/1.1\r\nContent-Length: 1x\r\n\r\n",
        "400 Bad Request",
        "bad length",
    ),
    (
        "POST / HTTP/1.1\r\nContent-Length: 3\r\nContent-Length: 4\r\n\r\n",
        "400 Bad Request",
        "bad length",
    ),
    (
        "POST / HTTP/1.1\r\nContent-Length: 16777217\r\n\r\n",
        "413 Content Too Large",
        "request too long",
    ),
    (
        "POST /",
        "431 Request Header Fields Too Large",
        "head too large",
    ),
];

/// How many letters follow the last of these, which then has no room for the end of its line.
const LETTERS: usize = 16_378;

// A disk with an empty table.
fn tabled(alloc: Global) -> Option<MemoryDisk> {
    behind(alloc, fresh(alloc)?, &[TABLE])
}

// A shell over a disk, to which a connection comes with these bytes, in pieces of one byte or as one.
fn connected(alloc: Global, disk: MemoryDisk, bytes: &[u8], cut: bool) -> Option<MemoryShell>
    ensures { IfSome result (λ s. talks (shell_state s).beside ≡ false) }
{
    let mut shell = shell_over(alloc, disk, &[])?;
    shell.connection().ok()?;
    if cut {
        for byte in bytes {
            shell.send(&[*byte]).ok()?;
        }
    } else {
        shell.send(bytes).ok()?;
    }
    Some(shell)
}

// What the table has behind a run that ended with 0.
fn stored(alloc: Global, shell: &mut MemoryShell) -> Option<Vec<u8>>
    requires { talks (shell_state shell.old).beside ≡ false }
{
    match ended(alloc, &SERVE, shell)? {
        0 => shown(alloc, left_now(shell, &[])?, &[SCAN]),
        _ => None,
    }
}

// The reply to a request or to a head that is refused.
fn reply(alloc: Global, status: &str, body: &str, close: bool) -> Option<String> {
    let length = body.len();
    let then = if close { "close" } else { "keep-alive" };
    format!(in alloc;
        "HTTP/1.1 {status}\r\nServer: alternator\r\nDate: Tue, 14 Nov 2023 22:13:20 GMT\r\nContent-Type: application/x-amz-json-1.0\r\nContent-Length: {length}\r\nConnection: {then}\r\n\r\n{body}"
    ).ok()
}

// The bytes of a row.
fn sent(alloc: Global, text: &str) -> Option<Vec<u8>> {
    let mut bytes = text.as_bytes().to_vec(alloc).ok()?;
    if text == "POST /" {
        for _ in 0..LETTERS {
            bytes.push(b'a').ok()?;
        }
    }
    Some(bytes)
}

// Whether it is refused so, and nothing is stored.
fn is_refused(alloc: Global, row: &(&str, &str, &str), cut: bool) -> Option<bool> {
    let (text, status, why) = row;
    let mut shell = connected(alloc, tabled(alloc)?, &sent(alloc, *text)?, cut)?;
    let items = stored(alloc, &mut shell)?;
    let body = format!(in alloc; "{{\"message\":\"{why}\"}}").ok()?;
    let wanted = reply(alloc, *status, &body, true)?;
    Some(shell.said(Some(0)) == wanted.as_bytes() && items.as_slice() == NONE)
}

#[test]
fn heads_are_refused_however_they_are_cut(rt: HostRuntime) {
    for row in &REFUSED {
        for cut in [false, true] {
            assert!(rt; is_refused(rt.alloc(), row, cut) == Some(true), "{}", row.2);
        }
    }
}

static NONE: &[u8] = b"200 {\"Count\":0,\"Items\":[],\"ScannedCount\":0}\n";

static FIRST: &[u8] = b"200 {\"Count\":1,\"Items\":[{\"k\":{\"S\":\"a\"}}],\"ScannedCount\":1}\n";

static BOTH: &[u8] =
    b"200 {\"Count\":2,\"Items\":[{\"k\":{\"S\":\"a\"}},{\"k\":{\"S\":\"b\"}}],\"ScannedCount\":2}\n";

static TWO_PUTS: &str = concat!(
    "POST / HTTP/1.1\r\nX-Amz-Target: DynamoDB_20120810.PutItem\r\nContent-Length: 44\r\n\r\n",
    r#"{"TableName":"Tab","Item":{"k":{"S":"a"}}}  "#,
    "POST / HTTP/1.1\r\nX-Amz-Target: DynamoDB_20120810.PutItem\r\nContent-Length: 44\r\n\r\n",
    r#"{"TableName":"Tab","Item":{"k":{"S":"b"}}}  "#
);

// Whether of two puts the second of which lacks its last byte the first alone is carried out and answered.
fn is_cut_off(alloc: Global, cut: bool) -> Option<bool> {
    let bytes = TWO_PUTS.as_bytes();
    let mut shell = connected(
        alloc,
        tabled(alloc)?,
        bytes.get(..bytes.len().checked_sub(1)?)?,
        cut,
    )?;
    let items = stored(alloc, &mut shell)?;
    let wanted = reply(alloc, "200 OK", "{}", false)?;
    Some(shell.said(Some(0)) == wanted.as_bytes() && items.as_slice() == FIRST)
}

#[test]
fn a_request_that_is_cut_off_is_not_carried_out(rt: HostRuntime) {
    assert!(rt; is_cut_off(rt.alloc(), false) == Some(true));
    assert!(rt; is_cut_off(rt.alloc(), true) == Some(true));
}

// Whether of two puts in one piece both are carried out though the first reply can't be said, and nothing more is said.
fn is_unheard(alloc: Global) -> Option<bool> {
    let mut shell = connected(alloc, tabled(alloc)?, TWO_PUTS.as_bytes(), false)?;
    // The take is call 0.
    shell.fail_talk(1).ok()?;
    let items = stored(alloc, &mut shell)?;
    Some(shell.said(Some(0)).is_empty() && items.as_slice() == BOTH)
}

#[test]
fn requests_are_carried_out_whose_replies_cannot_be_said(rt: HostRuntime) {
    assert!(rt; is_unheard(rt.alloc()) == Some(true));
}

// How many of the two puts were answered whole, none where what was said is no front of both replies.
fn answers(alloc: Global, said: &[u8]) -> Option<usize> {
    let mut whole = reply(alloc, "200 OK", "{}", false)?;
    let first = whole.len();
    whole
        .push_str(reply(alloc, "200 OK", "{}", true)?.as_str())
        .ok()?;
    if !whole.as_bytes().starts_with(said) {
        return None;
    }
    if said.len() < first {
        Some(0)
    } else if said.len() < whole.len() {
        Some(1)
    } else {
        Some(2)
    }
}

// Whether what any stop now leaves has the first so many puts, or more.
fn keeps(alloc: Global, shell: &MemoryShell, count: usize) -> Option<bool> {
    for choice in &choices(alloc)? {
        let items = shown(alloc, left_now(shell, choice)?, &[SCAN])?;
        let has = match items.as_slice() {
            items if items == NONE => 0,
            items if items == FIRST => 1,
            items if items == BOTH => 2,
            _ => return Some(false),
        };
        if has < count {
            return Some(false);
        }
    }
    Some(true)
}

// Whether a server whose call at this moment fails ends with 4 and its note, or was asked nothing but on the connection, and keeps what was
// answered.
fn goes_down(alloc: Global, moment: u64) -> Option<bool> {
    let mut disk = tabled(alloc)?;
    disk.fail(moment).ok()?;
    let mut shell = connected(alloc, disk, TWO_PUTS.as_bytes(), false)?;
    let status = ended(alloc, &SERVE, &mut shell)?;
    let count = answers(alloc, shell.said(Some(0)))?;
    let told = match status {
        0 => count == 2 && shell.noted().is_empty(),
        _ => status == 4 && shell.noted() == b"alternator: device\n".as_slice(),
    };
    Some(told && keeps(alloc, &shell, count)?)
}

// How many moments a run has in which nothing fails.
fn moments(alloc: Global) -> Option<u64> {
    let mut shell = connected(alloc, tabled(alloc)?, TWO_PUTS.as_bytes(), false)?;
    match ended(alloc, &SERVE, &mut shell)? {
        0 => Some(shell.disk().counts().0),
        _ => None,
    }
}

#[test]
fn a_server_whose_calls_fail_keeps_what_was_answered(rt: HostRuntime) {
    let Some(end) = moments(rt.alloc()) else {
        assert!(rt; false);
        return;
    };
    assert!(rt; end > 20);
    for moment in 0..end {
        assert!(rt;
            goes_down(rt.alloc(), moment) == Some(true),
            "moment {moment}"
        );
    }
}
