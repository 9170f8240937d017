//! Cell bytes as docs/formats/cell-bytes.md shows them, and bytes that are none.

use alt_cellbytes::{attr_of, attr_within, bytes_of};
use alt_fields::BytesFault;
use alt_value::{Attr, Text};
use std::alloc::Global;

fn is_the_text_a(alloc: Global, expected: &[u8]) -> bool {
    let mut out = Vec::new(alloc);
    let Ok(text) = Text::new(alloc, "a") else {
        return false;
    };
    let Ok(()) = bytes_of(&Attr::S(text), &mut out) else {
        return false;
    };
    out.as_slice() == expected
}

#[test]
fn a_text_is_its_kind_its_length_and_its_bytes(rt: HostRuntime) {
    assert!(rt; is_the_text_a(rt.alloc(), b"\x01\0\0\0\0\0\0\0\x01a"));
}

/// Values of each kind.
static WHOLE: [&[u8]; 12] = [
    b"\x01\0\0\0\0\0\0\0\0",
    b"\x02\x03\x82\x60\0",
    b"\x02\x02",
    b"\x03\0\0\0\0\0\0\0\x02\0\xff",
    b"\x04\0",
    b"\x04\x01",
    b"\x05",
    b"\x06\0\0\0\0\0\0\0\x02\0\0\0\0\0\0\0\x01a\0\0\0\0\0\0\0\x02aa",
    b"\x07\0\0\0\0\0\0\0\x02\x01\x7d\xf4\xff\x03\x82\x5b\0",
    b"\x08\0\0\0\0\0\0\0\x02\0\0\0\0\0\0\0\0\0\0\0\0\0\0\0\x01\xff",
    b"\x09\0\0\0\0\0\0\0\x02\x05\x09\0\0\0\0\0\0\0\0",
    b"\x0a\0\0\0\0\0\0\0\x02\0\0\0\0\0\0\0\x01a\x04\x01\0\0\0\0\0\0\0\x01b\x05",
];

fn is_read_and_written_again(alloc: Global, bytes: &[u8]) -> bool {
    let mut out = Vec::new(alloc);
    let Ok(value) = attr_of(alloc, bytes) else {
        return false;
    };
    let Ok(()) = bytes_of(&value, &mut out) else {
        return false;
    };
    out.as_slice() == bytes
}

#[test]
fn each_kind_is_read_and_written_again(rt: HostRuntime) {
    for bytes in &WHOLE {
        assert!(rt; is_read_and_written_again(rt.alloc(), bytes), "{bytes:?}");
    }
}

/// Bytes that are no value's, and the place of the first piece that can't be the next one.
static STOPS: [(&[u8], usize); 27] = [
    (b"", 0),
    (b"\0", 0),
    (b"\x0b", 0),
    (b"\x05\x05", 1),
    (b"\x04", 1),
    (b"\x04\x02", 1),
    (b"\x01\0\0\0\0\0\0\0", 8),
    (b"\x01\0\0\0\0\0\0\0\x02a", 10),
    (b"\x01\xff\xff\xff\xff\xff\xff\xff\xffab", 11),
    (b"\x01\0\0\0\0\0\0\0\x01\xff", 1),
    (b"\x02\x03\x82\0\0", 1),
    (b"\x02\x03\x82\x66\0", 1),
    (b"\x02\x03\x82\x5b\x01\0", 1),
    (b"\x02\x04", 1),
    (b"\x06\0\0\0\0\0\0\0\0", 1),
    (b"\x06\0\0\0", 4),
    (
        b"\x06\0\0\0\0\0\0\0\x02\0\0\0\0\0\0\0\x01b\0\0\0\0\0\0\0\x01a",
        18,
    ),
    (
        b"\x06\0\0\0\0\0\0\0\x02\0\0\0\0\0\0\0\x01a\0\0\0\0\0\0\0\x01a",
        18,
    ),
    (b"\x07\0\0\0\0\0\0\0\x02\x02\x02", 10),
    (
        b"\x07\xff\xff\xff\xff\xff\xff\xff\xff\x01\x7d\xf4\xff\x02",
        14,
    ),
    (
        b"\x08\0\0\0\0\0\0\0\x02\0\0\0\0\0\0\0\0\0\0\0\0\0\0\0\0",
        17,
    ),
    (b"\x09\xff\xff\xff\xff\xff\xff\xff\xff\x05\x05", 11),
    (b"\x09\0\0\0\0\0\0\0\x02\x05\x0b", 10),
    (b"\x0a\0\0\0\0\0\0\0\x01\0\0\0\0\0\0\0\0\x05", 9),
    (
        b"\x0a\0\0\0\0\0\0\0\x02\0\0\0\0\0\0\0\x01b\x05\0\0\0\0\0\0\0\x01a\x05",
        19,
    ),
    (b"\x0a\0\0\0\0\0\0\0\x01\0\0\0\0\0\0\0\x01a\x04\x07", 19),
    (b"\x0a\0\0\0\0\0\0\0\x01\0\0\0\0\0\0\0\x01a\x05\0", 19),
];

fn stops_at(alloc: Global, bytes: &[u8], expected: usize) -> bool {
    match attr_of(alloc, bytes) {
        Err(BytesFault::Bad { at }) => at == expected,
        _ => false,
    }
}

#[test]
fn other_bytes_stop_at_their_first_bad_piece(rt: HostRuntime) {
    for (bytes, at) in &STOPS {
        assert!(rt; stops_at(rt.alloc(), bytes, *at), "{bytes:?}");
    }
}

/// Values of which each front stops at its end.
static CUT: [&[u8]; 2] = [
    b"\x0a\0\0\0\0\0\0\0\x01\0\0\0\0\0\0\0\x01a\x03\0\0\0\0\0\0\0\x02ab",
    b"\x09\0\0\0\0\0\0\0\x01\x07\0\0\0\0\0\0\0\x02\x01\x7d\xf4\xff\x03\x82\x5b\0",
];

fn stop_at_their_ends(alloc: Global, bytes: &[u8]) -> bool {
    for end in 0..bytes.len() {
        if !stops_at(alloc, &bytes[..end], end) {
            return false;
        }
    }
    true
}

#[test]
fn cut_bytes_stop_at_their_end(rt: HostRuntime) {
    for bytes in &CUT {
        assert!(rt; stop_at_their_ends(rt.alloc(), bytes), "{bytes:?}");
    }
}

/// How many lists stand in one another, around NULL, how many may, and where the bytes are bad, if they are.
static NESTED: [(usize, usize, Option<usize>); 6] = [
    (0, 0, None),
    (1, 0, Some(0)),
    (31, 32, None),
    (32, 32, None),
    (33, 32, Some(288)),
    (45_000, 32, Some(288)),
];

fn is_nested_as(alloc: Global, row: &(usize, usize, Option<usize>)) -> bool {
    let mut bytes = Vec::new(alloc);
    for _level in 0..row.0 {
        let Ok(()) = bytes.extend_from_slice(b"\x09\0\0\0\0\0\0\0\x01") else {
            return false;
        };
    }
    let Ok(()) = bytes.push(5) else {
        return false;
    };
    match (attr_within(alloc, bytes.as_slice(), row.1), row.2) {
        (Ok(_), None) => true,
        (Err(BytesFault::Bad { at }), Some(expected)) => at == expected,
        _ => false,
    }
}

#[test]
fn nesting_has_a_limit(rt: HostRuntime) {
    for row in &NESTED {
        assert!(rt; is_nested_as(rt.alloc(), row), "{row:?}");
    }
}
