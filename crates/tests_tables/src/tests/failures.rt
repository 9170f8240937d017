//! Calls of the disk that fail, one at a time.

ghost use Rattle.alt_disk.specs.MemoryState.{state_of};
ghost use Rattle.alt_tables.specs.Stands.{AreReady};

use super::asking::{Request, WRITES, asked, empty, known, opened};
use alt_disk::MemoryDisk;
use alt_tables::Tables;
use std::alloc::Global;

// Whether the opening fails where its call of this number does, and the store is there all the same.
fn opening_fails(alloc: Global, call: u64) -> Option<bool> {
    let mut disk = empty(alloc)?;
    let (now, _) = disk.counts();
    disk.fail(now.checked_add(call)?).ok()?;
    if opened(alloc, &mut disk).is_some() {
        return Some(false);
    }
    Some(opened(alloc, &mut disk).is_some())
}

#[test]
fn an_opening_that_fails_loses_nothing(rt: HostRuntime) {
    for call in 0..5u64 {
        assert!(rt;
            opening_fails(rt.alloc(), call) == Some(true),
            "call {call}"
        );
    }
}

// What a store is known by when a request is carried out that may be there already.
fn carried_out(
    alloc: Global,
    tables: &mut Tables,
    disk: &mut MemoryDisk,
    request: &Request,
    before: &[String],
) -> Option<Vec<String>>
    requires { AreReady (state_of disk.old) tables.old }
{
    let state = known(alloc, tables, disk)?;
    if state.as_slice() != before {
        return Some(state);
    }
    let _ = asked(alloc, tables, disk, request)?;
    known(alloc, tables, disk)
}

// Whether a request fails where its call of this number does; and opened again, the store is as before it or as after it.
fn request_fails(alloc: Global, number: usize, call: u64) -> Option<bool> {
    let mut disk = empty(alloc)?;
    let mut tables = opened(alloc, &mut disk)?;
    for request in WRITES.iter().take(number) {
        let _ = asked(alloc, &mut tables, &mut disk, request)?;
    }
    let before = known(alloc, &mut tables, &mut disk)?;
    let (now, _) = disk.counts();
    disk.fail(now.checked_add(call)?).ok()?;
    if asked(alloc, &mut tables, &mut disk, WRITES.get(number)?).is_some() {
        return Some(false);
    }
    let mut tables = opened(alloc, &mut disk)?;
    let after = carried_out(alloc, &mut tables, &mut disk, WRITES.get(number)?, &before)?;
    Some(after.as_slice() != before.as_slice())
}

#[test]
fn a_request_that_fails_is_there_whole_or_not_at_all(rt: HostRuntime) {
    for number in [0, 1, 3, 8, 10] {
        for call in 0..4u64 {
            assert!(rt;
                request_fails(rt.alloc(), number, call) == Some(true),
                "request {number}, call {call}"
            );
        }
    }
}
