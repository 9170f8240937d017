//! Fields as docs/formats/fields.md shows them, and both sides of an early end.

use alt_fields::{Bytes, Short, put_bytes, put_u32, put_u64, take_bytes, take_u32, take_u64};
use std::alloc::Global;

fn puts(alloc: Global, want: &[u8]) -> bool {
    let mut out = Vec::new(alloc);
    let Ok(()) = put_u32(&mut out, 258) else {
        return false;
    };
    let Ok(()) = put_u64(&mut out, 259) else {
        return false;
    };
    let Ok(()) = put_bytes(&mut out, b"ab") else {
        return false;
    };
    out.as_slice() == want
}

#[test]
fn fields_have_these_bytes(rt: HostRuntime) {
    assert!(rt;
        puts(
            rt.alloc(),
            b"\x00\x00\x01\x02\x00\x00\x00\x00\x00\x00\x01\x03\x00\x00\x00\x00\x00\x00\x00\x02ab"
        )
    );
}

fn takes(bytes: &[u8], at: usize, content: &[u8], end: usize) -> bool {
    let Ok((found, behind)) = take_bytes(bytes, at) else {
        return false;
    };
    (found == content) & (behind == end)
}

#[test]
fn fields_are_taken_whatever_follows(rt: HostRuntime) {
    assert_eq!(rt; take_u32(b"z\x00\x00\x01\x02more", 1), Ok((258, 5)));
    assert_eq!(rt;
        take_u64(b"\xff\xff\xff\xff\xff\xff\xff\xff!", 0),
        Ok((u64::MAX, 8))
    );
    assert!(rt; takes(b"\x00\x00\x00\x00\x00\x00\x00\x02abc", 0, b"ab", 10));
}

// A length up to the largest number, and one that is too great by one.
static CUT: [(&[u8], usize); 3] = [
    (b"\xff\xff\xff\xff\xff\xff\xff\xffab", 10),
    (b"\x00\x00\x00\x00\x00\x00\x00\x03ab", 10),
    (b"\x00\x00\x00\x00\x00\x00\x00", 7),
];

fn is_short(bytes: &[u8], end: usize) -> bool {
    let Err(short) = take_bytes(bytes, 0) else {
        return false;
    };
    short.at == end
}

#[test]
fn an_early_end_is_short(rt: HostRuntime) {
    assert_eq!(rt; take_u32(b"\x00\x00\x01", 0), Err(Short { at: 3 }));
    assert_eq!(rt; take_u64(b"\x00", 9), Err(Short { at: 1 }));
    for (bytes, end) in &CUT {
        assert!(rt; is_short(bytes, *end));
    }
}

fn order_and_copies(alloc: Global) -> bool {
    let (Ok(low), Ok(high)) = (Bytes::new(alloc, b"\x7f"), Bytes::new(alloc, b"\x80")) else {
        return false;
    };
    let Ok(copied) = low.copy() else {
        return false;
    };
    low.cmp(&high).is_lt() & (copied == low) & (low.len() == 1)
}

fn moves_a_vector(alloc: Global) -> bool {
    let Ok(two) = [1u8, 2].to_vec(alloc) else {
        return false;
    };
    Bytes::from_vec(two).as_slice() == [1u8, 2].as_slice()
}

#[test]
fn byte_strings_order_by_their_bytes(rt: HostRuntime) {
    assert!(rt; order_and_copies(rt.alloc()));
    assert!(rt; moves_a_vector(rt.alloc()));
}
