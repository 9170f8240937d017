//! Heads: what is refused and in which order, what is read of one that isn't, and both sides of each limit.

use alt_http::{LONGEST_HEAD, Scan, scan};
use std::alloc::Global;

/// What a scan is to answer.
#[derive(Clone, Copy)]
pub(crate) enum Want {
    More,
    Refused(u8),
    /// A head of all the bytes: target, length, expect, close.
    Head(&'static [u8], u64, bool, bool),
}

fn is_target(target: &Option<alt_fields::Bytes>, want: &[u8]) -> bool {
    match target {
        None => want.is_empty(),
        Some(bytes) => bytes.as_slice() == want,
    }
}

/// Whether the answer for the bytes is this; a head is the first `size` of them.
pub(crate) fn answers(alloc: Global, bytes: &[u8], size: usize, want: Want) -> bool {
    let Ok(found) = scan(alloc, bytes) else {
        return false;
    };
    match (&found, want) {
        (Scan::More, Want::More) => true,
        (Scan::Refused(number), Want::Refused(wanted)) => *number == wanted,
        (
            Scan::Head {
                taken,
                target,
                length,
                expect,
                close,
            },
            Want::Head(name, body, waits, closes),
        ) => {
            *taken == size
                && is_target(target, name)
                && *length == body
                && *expect == waits
                && *close == closes
        }
        _ => false,
    }
}

/// Whether the bytes are answered so from their last byte on, with more behind too, and every front of them by `More`.
pub(crate) fn answers_at_last(alloc: Global, bytes: &[u8], want: Want) -> bool {
    for cut in 0..bytes.len() {
        if !answers(alloc, &bytes[..cut], 0, Want::More) {
            return false;
        }
    }
    let mut more = Vec::new(alloc);
    if more.extend_from_slice(bytes).is_err() || more.extend_from_slice(b"{}POST").is_err() {
        return false;
    }
    answers(alloc, bytes, bytes.len(), want) && answers(alloc, &more, bytes.len(), want)
}

/// The refusals in their order, each with a row beside it that isn't refused so.
pub(crate) static REFUSED: [(&[u8], Want); 40] = [
    // 1: a line that no continuation mends
    (b"POST / HTTP/2.0\r\n", Want::Refused(1)),
    (b"POST /\r\n", Want::Refused(1)),
    (b" POST / HTTP/1.1\r\n", Want::Refused(1)),
    (b"POST / HTTP/1.1\r\nno colon\r\n", Want::Refused(1)),
    (b"POST / HTTP/1.1\r\n: no name\n", Want::Refused(1)),
    (
        b"POST / HTTP/1.1\nName : space before the colon\n",
        Want::Refused(1),
    ),
    (b"\x16\x03\x01\x02\x00\n", Want::Refused(1)),
    (
        b"GET / HTTP/1.1\r\nTransfer-Encoding: chunked\r\n folded\r\n",
        Want::Refused(1),
    ),
    // 3: before all that the head says
    (
        b"GET /x HTTP/1.1\r\nTransfer-Encoding: chunked\r\nContent-Length: 2\r\n\r\n",
        Want::Refused(3),
    ),
    (
        b"POST / HTTP/1.1\r\nTRANSFER-encoding:\r\nContent-Length: 2\r\n\r\n",
        Want::Refused(3),
    ),
    // 4, 5
    (b"GET /x HTTP/1.1\r\n\r\n", Want::Refused(4)),
    (
        b"post / HTTP/1.1\r\nContent-Length: 2\r\n\r\n",
        Want::Refused(4),
    ),
    (
        b"POST /x HTTP/1.1\r\nContent-Encoding: gzip\r\n\r\n",
        Want::Refused(5),
    ),
    (
        b"POST http://host/ HTTP/1.1\r\nContent-Length: 2\r\n\r\n",
        Want::Refused(5),
    ),
    // 6
    (
        b"POST / HTTP/1.1\r\nContent-Encoding: gzip\r\n\r\n",
        Want::Refused(6),
    ),
    (
        b"POST / HTTP/1.1\r\nContent-Encoding: identity\r\nContent-Encoding: gzip\r\nContent-Length: 2\r\n\r\n",
        Want::Refused(6),
    ),
    (
        b"POST / HTTP/1.1\r\nContent-Encoding: identity, identity\r\nContent-Length: 2\r\n\r\n",
        Want::Refused(6),
    ),
    (
        b"POST / HTTP/1.1\r\nContent-Encoding: Identity\r\nContent-Length: 2\r\n\r\n",
        Want::Head(b"", 2, false, false),
    ),
    // 7
    (b"POST / HTTP/1.1\r\n\r\n", Want::Refused(7)),
    (b"POST / HTTP/1.1\nHost: x\n\n", Want::Refused(7)),
    // 8
    (
        b"POST / HTTP/1.1\r\nContent-Length:\r\n\r\n",
        Want::Refused(8),
    ),
    (
        b"POST / HTTP/1.1\r\nContent-Length: -1\r\n\r\n",
        Want::Refused(8),
    ),
    (
        b"POST / HTTP/1.1\r\nContent-Length: +2\r\n\r\n",
        Want::Refused(8),
    ),
    (
        b"POST / HTTP/1.1\r\nContent-Length: 2, 2\r\n\r\n",
        Want::Refused(8),
    ),
    (
        b"POST / HTTP/1.1\r\nContent-Length: 2\r\nContent-Length: 3\r\n\r\n",
        Want::Refused(8),
    ),
    (
        b"POST / HTTP/1.1\r\nContent-Length: 2\r\nContent-Length: x\r\n\r\n",
        Want::Refused(8),
    ),
    (
        b"POST / HTTP/1.1\r\nContent-Length: 99999999999999999999\r\nContent-Length: 99999999999999999998\r\n\r\n",
        Want::Refused(8),
    ),
    (
        b"POST / HTTP/1.1\r\nContent-Length: 3\r\ncontent-length: 03\r\n\r\n",
        Want::Head(b"", 3, false, false),
    ),
    // 9
    (
        b"POST / HTTP/1.1\r\nContent-Length: 16777217\r\n\r\n",
        Want::Refused(9),
    ),
    (
        b"POST / HTTP/1.1\r\nContent-Length: 18446744073709551616\r\n\r\n",
        Want::Refused(9),
    ),
    (
        b"POST / HTTP/1.1\r\nContent-Length: 99999999999999999999\r\nContent-Length: 099999999999999999999\r\n\r\n",
        Want::Refused(9),
    ),
    (
        b"POST / HTTP/1.1\r\nContent-Length: 16777216\r\n\r\n",
        Want::Head(b"", 16_777_216, false, false),
    ),
    // a head that isn't refused
    (
        b"\r\n\nPOST / HTTP/1.1\r\nContent-Length: \t 2 \t\r\n\r\n",
        Want::Head(b"", 2, false, false),
    ),
    (
        b"POST / HTTP/1.0\r\nContent-Length: 0\r\n\r\n",
        Want::Head(b"", 0, false, true),
    ),
    (
        b"POST / HTTP/1.1\r\nContent-Length: 0\r\nConnection: Close\r\n\r\n",
        Want::Head(b"", 0, false, true),
    ),
    (
        b"POST / HTTP/1.1\r\nContent-Length: 0\r\nConnection: keep-alive\r\nConnection: close\r\n\r\n",
        Want::Head(b"", 0, false, true),
    ),
    (
        b"POST / HTTP/1.1\r\nContent-Length: 0\r\nConnection: close, keep-alive\r\n\r\n",
        Want::Head(b"", 0, false, false),
    ),
    (
        b"POST / HTTP/1.1\r\nContent-Length: 0\r\nExpect: 100-Continue\r\n\r\n",
        Want::Head(b"", 0, true, false),
    ),
    (
        b"POST / HTTP/1.0\r\nContent-Length: 0\r\nexpect:100-continue\r\n\r\n",
        Want::Head(b"", 0, true, true),
    ),
    (
        b"POST / HTTP/1.1\r\nContent-Length: 0\r\nx-amz-target: a\r\nX-Amz-Target: b\r\n\r\n",
        Want::Head(b"a", 0, false, false),
    ),
];

#[test]
fn heads_are_refused_in_their_order_however_they_are_cut(rt: HostRuntime) {
    for (bytes, want) in &REFUSED {
        assert!(rt;
            answers_at_last(rt.alloc(), bytes, *want),
            "{}",
            bytes.escape_ascii()
        );
    }
}

/// A head of so many bytes: its last field is as long as that takes.
fn long_head(alloc: Global, size: usize) -> Option<Vec<u8>> {
    let mut head = Vec::new(alloc);
    if head
        .extend_from_slice(b"POST / HTTP/1.1\r\nContent-Length: 1\r\nA: ")
        .is_err()
    {
        return None;
    }
    let filled = head.len() + 4;
    for _ in filled..size {
        if head.push(b'a').is_err() {
            return None;
        }
    }
    if head.extend_from_slice(b"\r\n\r\n").is_err() {
        return None;
    }
    Some(head)
}

fn without_last(head: &[u8], count: usize) -> &[u8] {
    &head[..head.len().saturating_sub(count)]
}

fn limits_hold(alloc: Global) -> bool {
    let Some(longest) = long_head(alloc, LONGEST_HEAD) else {
        return false;
    };
    let Some(too_long) = long_head(alloc, LONGEST_HEAD + 1) else {
        return false;
    };
    answers(
        alloc,
        &longest,
        LONGEST_HEAD,
        Want::Head(b"", 1, false, false),
    ) && answers(alloc, without_last(&longest, 1), 0, Want::More)
        && answers(alloc, &too_long, 0, Want::Refused(2))
        && answers(alloc, without_last(&too_long, 1), 0, Want::Refused(2))
        && answers(alloc, without_last(&too_long, 2), 0, Want::More)
}

#[test]
fn a_head_has_at_most_16_384_bytes(rt: HostRuntime) {
    assert!(rt; limits_hold(rt.alloc()));
}

/// A head with as many fields as fit.
fn many_fields(alloc: Global) -> bool {
    let mut head = Vec::new(alloc);
    if head
        .extend_from_slice(b"POST / HTTP/1.1\nContent-Length:1\n")
        .is_err()
    {
        return false;
    }
    for _ in 0..5449 {
        if head.extend_from_slice(b"a:\n").is_err() {
            return false;
        }
    }
    if head.push(b'\n').is_err() {
        return false;
    }
    head.len() < LONGEST_HEAD && answers(alloc, &head, head.len(), Want::Head(b"", 1, false, false))
}

#[test]
fn a_head_has_room_for_all_its_fields(rt: HostRuntime) {
    assert!(rt; many_fields(rt.alloc()));
}
