//! The bytes of replies.

use alt_http::{CONTINUE, refusal_body, refusal_status, reply};
use std::alloc::Global;

/// Status, moment, close, body, and the bytes.
static REPLIES: [(u16, u64, bool, &[u8], &[u8]); 4] = [
    (
        200,
        1_700_000_000,
        true,
        b"{}",
        b"HTTP/1.1 200 OK\r\nServer: alternator\r\nDate: Tue, 14 Nov 2023 22:13:20 GMT\r\nContent-Type: application/x-amz-json-1.0\r\nContent-Length: 2\r\nConnection: close\r\n\r\n{}",
    ),
    (
        400,
        784_111_777,
        false,
        b"{\"x\":\"0123456789\"}",
        b"HTTP/1.1 400 Bad Request\r\nServer: alternator\r\nDate: Sun, 06 Nov 1994 08:49:37 GMT\r\nContent-Type: application/x-amz-json-1.0\r\nContent-Length: 18\r\nConnection: keep-alive\r\n\r\n{\"x\":\"0123456789\"}",
    ),
    (
        200,
        0,
        false,
        b"",
        b"HTTP/1.1 200 OK\r\nServer: alternator\r\nDate: Thu, 01 Jan 1970 00:00:00 GMT\r\nContent-Type: application/x-amz-json-1.0\r\nContent-Length: 0\r\nConnection: keep-alive\r\n\r\n",
    ),
    (
        431,
        253_402_300_799,
        true,
        b"{}",
        b"HTTP/1.1 431 Request Header Fields Too Large\r\nServer: alternator\r\nDate: Fri, 31 Dec 9999 23:59:59 GMT\r\nContent-Type: application/x-amz-json-1.0\r\nContent-Length: 2\r\nConnection: close\r\n\r\n{}",
    ),
];

/// Whether the reply is these bytes, behind those that stand already.
fn replies(alloc: Global, row: &(u16, u64, bool, &'static [u8], &'static [u8])) -> bool {
    let (status, moment, close, body, want) = *row;
    if moment >= 253_402_300_800 {
        return false;
    }
    let mut out = Vec::new(alloc);
    if out.push(b'x').is_err() {
        return false;
    }
    let made = match status {
        200 => reply(200, moment, close, body, &mut out),
        400 => reply(400, moment, close, body, &mut out),
        431 => reply(431, moment, close, body, &mut out),
        _ => return false,
    };
    made.is_ok() && out.len() == want.len() + 1 && &out[1..] == want
}

#[test]
fn a_reply_is_its_head_and_body(rt: HostRuntime) {
    for row in &REPLIES {
        assert!(rt; replies(rt.alloc(), row), "{}", row.4.escape_ascii());
    }
}

/// Number, status and phrase, and text of each refusal.
static REFUSALS: [(u8, &[u8], &[u8]); 9] = [
    (
        1,
        b"HTTP/1.1 400 Bad Request\r\n",
        b"{\"message\":\"bad head\"}",
    ),
    (
        2,
        b"HTTP/1.1 431 Request Header Fields Too Large\r\n",
        b"{\"message\":\"head too large\"}",
    ),
    (
        3,
        b"HTTP/1.1 501 Not Implemented\r\n",
        b"{\"message\":\"no transfer codings\"}",
    ),
    (
        4,
        b"HTTP/1.1 405 Method Not Allowed\r\n",
        b"{\"message\":\"only POST\"}",
    ),
    (
        5,
        b"HTTP/1.1 404 Not Found\r\n",
        b"{\"message\":\"only /\"}",
    ),
    (
        6,
        b"HTTP/1.1 415 Unsupported Media Type\r\n",
        b"{\"message\":\"no content codings\"}",
    ),
    (
        7,
        b"HTTP/1.1 411 Length Required\r\n",
        b"{\"message\":\"length required\"}",
    ),
    (
        8,
        b"HTTP/1.1 400 Bad Request\r\n",
        b"{\"message\":\"bad length\"}",
    ),
    (
        9,
        b"HTTP/1.1 413 Content Too Large\r\n",
        b"{\"message\":\"request too long\"}",
    ),
];

fn refuses(alloc: Global, row: &(u8, &'static [u8], &'static [u8])) -> bool {
    let (number, line, body) = *row;
    if number < 1 || number > 9 {
        return false;
    }
    let mut out = Vec::new(alloc);
    if reply(
        refusal_status(number),
        1_700_000_000,
        true,
        refusal_body(number),
        &mut out,
    )
    .is_err()
    {
        return false;
    }
    out.starts_with(line) && out.ends_with(body)
}

#[test]
fn a_refusal_has_its_status_and_text(rt: HostRuntime) {
    for row in &REFUSALS {
        assert!(rt; refuses(rt.alloc(), row), "refusal {}", row.0);
    }
    assert!(rt; CONTINUE == b"HTTP/1.1 100 Continue\r\n\r\n".as_slice());
}
