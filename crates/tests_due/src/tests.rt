//! A list goes through what is due in order, and at its bound lets the last go and covers what comes before.

use alt_due::{BOUND, Due, Spot};

fn is_at(found: Option<&Spot>, table: &str, place: &[u8]) -> bool {
    match found {
        Some(spot) => (spot.table.as_str() == table) & (spot.place.as_slice() == place),
        None => false,
    }
}

// Notes so many items of a table, the last one first: each is due so many moments before the one that was noted before it.
fn note_many(due: &mut Due, many: u32, last: u64, step: u64) {
    let mut term = last;
    for i in 0..many {
        due.note("t", &many.saturating_sub(i).to_be_bytes(), term);
        term = term.saturating_sub(step);
    }
}

#[test]
fn what_is_due_comes_by_table_and_place(rt: HostRuntime) {
    let mut due = Due::begin(rt.alloc(), 100);
    due.note("b", b"1", 150);
    due.note("b", b"2", 151);
    due.note("a", b"2", 150);
    due.note("a", b"1", 149);
    assert_eq!(rt; due.count(), 4);
    assert!(rt; due.due_none(148) & !due.due_none(149));
    assert!(rt; due.advance(150));
    assert!(rt; is_at(due.next(None), "a", b"1"));
    assert!(rt; is_at(due.next(due.next(None)), "a", b"2"));
    assert!(rt; is_at(due.next(due.next(due.next(None))), "b", b"1"));
    assert!(rt; due.next(due.next(due.next(due.next(None)))).is_none());
    assert!(rt; !due.advance(149) & due.covers(150) & due.end().is_none());
}

#[test]
fn what_is_dropped_is_not_ready(rt: HostRuntime) {
    let mut due = Due::begin(rt.alloc(), 100);
    due.note("a", b"1", 100);
    due.note("a", b"2", 100);
    let mut other = Due::begin(rt.alloc(), 100);
    other.note("a", b"1", 100);
    let Some(first) = other.next(None) else {
        assert!(rt; false);
        return;
    };
    due.drop_ready(first);
    assert!(rt; is_at(due.next(None), "a", b"2"));
    assert_eq!(rt; due.count(), 1);
}

#[test]
fn at_the_bound_the_last_moments_go(rt: HostRuntime) {
    let mut due = Due::begin(rt.alloc(), 100);
    note_many(&mut due, 65_536, 65_735, 1);
    assert_eq!(rt; due.count(), BOUND);
    assert!(rt; due.covers(1_000_000));
    due.note("a", b"", 150);
    assert_eq!(rt; due.count(), BOUND);
    assert!(rt; due.covers(65_734) & !due.covers(65_735));
    due.note("a", b"", 65_735);
    assert!(rt; due.covers(65_734));
    assert_eq!(rt; due.count(), BOUND);
}

#[test]
fn at_the_bound_the_last_places_go(rt: HostRuntime) {
    let mut due = Due::begin(rt.alloc(), 100);
    note_many(&mut due, 65_537, 50, 0);
    assert_eq!(rt; due.count(), BOUND);
    assert!(rt; due.covers(100) & is_at(due.end(), "t", b"\x00\x01\x00\x01"));
    due.note("t", b"\x00\x01\x00\x01", 60);
    assert!(rt; is_at(due.end(), "t", b"\x00\x01\x00\x01"));
    due.note("t", b"\x00\x00\x00\x00", 60);
    assert!(rt; is_at(due.end(), "t", b"\x00\x01\x00\x00"));
    assert_eq!(rt; due.count(), BOUND);
}

#[test]
fn what_is_forgotten_covers_nothing(rt: HostRuntime) {
    let mut due = Due::begin(rt.alloc(), 100);
    due.note("a", b"1", 100);
    due.forget();
    assert!(rt; !due.covers(100) & !due.due_none(100) & due.next(None).is_none());
    due.note("a", b"1", 100);
    assert_eq!(rt; due.count(), 0);
    let mut none = Due::new(rt.alloc());
    assert!(rt; !none.covers(0) & !none.advance(0));
    assert_eq!(rt; none.since(), 0);
}
