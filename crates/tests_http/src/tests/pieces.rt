//! Heads that come byte by byte, scanned on from what was seen before.

use crate::tests::clients::CLIENTS;
use crate::tests::heads::{REFUSED, Want};
use alt_http::{Scan, scan_more};
use std::alloc::Global;

/// How many bytes there were when more was no longer the answer, and that answer's number, or 0 for a head.
fn answered_at(alloc: Global, bytes: &[u8]) -> Option<(usize, u8)> {
    let mut seen = 0;
    for place in 0..bytes.len() {
        match scan_more(alloc, &bytes[..place + 1], seen) {
            Ok(Scan::More) => seen = place + 1,
            Ok(Scan::Refused(number)) => return Some((place + 1, number)),
            Ok(Scan::Head { .. }) => return Some((place + 1, 0)),
            Err(_) => return None,
        }
    }
    None
}

/// Whether the answer came with the last byte, and is this one.
fn comes_at_last(alloc: Global, bytes: &[u8], want: Want) -> bool {
    let number = match want {
        Want::More => return false,
        Want::Refused(number) => number,
        Want::Head(..) => 0,
    };
    answered_at(alloc, bytes) == Some((bytes.len(), number))
}

#[test]
fn a_head_that_comes_byte_by_byte_is_answered_with_its_last_byte(rt: HostRuntime) {
    for (bytes, want) in &REFUSED {
        assert!(rt;
            comes_at_last(rt.alloc(), bytes, *want),
            "{}",
            bytes.escape_ascii()
        );
    }
    for (bytes, want) in &CLIENTS {
        assert!(rt;
            comes_at_last(rt.alloc(), bytes, *want),
            "{}",
            bytes.escape_ascii()
        );
    }
}
