//! A store that is stopped at each moment of each of its calls, and opened again.

ghost use Rattle.std.specs.Prelude.{IfSome};
ghost use Rattle.alt_disk.specs.MemoryState.{state_of};
ghost use Rattle.alt_tables.specs.Stands.{AreReady};

use super::asking::{Request, WRITES, asked, empty, known, opened};
use super::batches::{BATCHES, MEMBERS};
use super::conditions::CONDITIONS;
use super::updates::UPDATES;
use alt_disk::MemoryDisk;
use alt_tables::Tables;
use std::alloc::Global;

/// Bytes by which a stop may pick what it leaves: the first of everything, all of it, and something between.
pub(super) static CHOICES: [&[u8]; 3] = [&[], &[1; 99], &[2, 0, 255, 7, 1, 1, 0, 3, 128, 1, 0, 1]];

// What the store is known by that a stop at this moment leaves.
fn left(alloc: Global, disk: &MemoryDisk, moment: u64, choice: &[u8]) -> Option<Vec<String>> {
    let (now, _) = disk.counts();
    if moment > now {
        return None;
    }
    let mut left = disk.stopped(moment, choice).ok()?;
    let mut tables = opened(alloc, &mut left)?;
    known(alloc, &mut tables, &mut left)
}

// Whether a stop at this moment leaves one of two states, whatever it picks.
fn leaves_either(
    alloc: Global,
    disk: &MemoryDisk,
    moment: u64,
    before: &[String],
    after: &[String],
) -> Option<bool> {
    for choice in &CHOICES {
        let state = left(alloc, disk, moment, choice)?;
        if state.as_slice() != before && state.as_slice() != after {
            return Some(false);
        }
    }
    Some(true)
}

// Whether stops at the moments of a request leave the state before it or the one after it, and at its end the one after it.
fn stops_between(
    alloc: Global,
    disk: &MemoryDisk,
    from: u64,
    to: u64,
    before: &[String],
    after: &[String],
) -> Option<bool> {
    for moment in from..to {
        if !leaves_either(alloc, disk, moment, before, after)? {
            return Some(false);
        }
    }
    leaves_either(alloc, disk, to, after, after)
}

// Whether a request is carried out, and a stop at each of its moments leaves it whole or not at all.
fn stops_whole(
    alloc: Global,
    tables: &mut Tables,
    disk: &mut MemoryDisk,
    request: &Request,
) -> Option<bool>
    requires { AreReady (state_of disk.old) tables.old }
{
    let before = known(alloc, tables, disk)?;
    let (from, _) = disk.counts();
    let _ = asked(alloc, tables, disk, request)?;
    let (to, _) = disk.counts();
    let after = known(alloc, tables, disk)?;
    stops_between(alloc, disk, from, to, &before, &after)
}

/// Asks the first so many requests.
pub(super) fn ask_some(
    alloc: Global,
    tables: &mut Tables,
    disk: &mut MemoryDisk,
    rows: &[Request],
    number: usize,
) -> Option<()>
    requires { AreReady (state_of disk.old) tables.old }
    ensures { IfSome result (λ _. AreReady (state_of disk.new) tables.new) }
{
    for request in rows.iter().take(number) {
        let _ = asked(alloc, tables, disk, request)?;
    }
    Some(())
}

// Whether that holds of the request with that number, behind those before it.
fn stops_at(alloc: Global, rows: &[Request], number: usize) -> Option<bool> {
    let mut disk = empty(alloc)?;
    let mut tables = opened(alloc, &mut disk)?;
    ask_some(alloc, &mut tables, &mut disk, rows, number)?;
    stops_whole(alloc, &mut tables, &mut disk, rows.get(number)?)
}

#[test]
fn a_stop_leaves_each_request_whole_or_not_at_all(rt: HostRuntime) {
    for number in 0..WRITES.len() {
        assert!(rt;
            stops_at(rt.alloc(), &WRITES, number) == Some(true),
            "request {number}"
        );
    }
}

#[test]
fn a_stop_leaves_each_conditional_write_whole_or_not_at_all(rt: HostRuntime) {
    for number in 0..CONDITIONS.len() {
        assert!(rt;
            stops_at(rt.alloc(), &CONDITIONS, number) == Some(true),
            "request {number}"
        );
    }
}

#[test]
fn a_stop_leaves_each_update_whole_or_not_at_all(rt: HostRuntime) {
    for number in 0..UPDATES.len() {
        assert!(rt;
            stops_at(rt.alloc(), &UPDATES, number) == Some(true),
            "request {number}"
        );
    }
}

// What the store is known by behind the first so many batches, and then behind each of these writes.
fn states_of(alloc: Global, number: usize, members: &[Request]) -> Option<Vec<Vec<String>>> {
    let mut disk = empty(alloc)?;
    let mut tables = opened(alloc, &mut disk)?;
    ask_some(alloc, &mut tables, &mut disk, &BATCHES, number)?;
    let mut states = Vec::new(alloc);
    states.push(known(alloc, &mut tables, &mut disk)?).ok()?;
    for request in members {
        let _ = asked(alloc, &mut tables, &mut disk, request)?;
        states.push(known(alloc, &mut tables, &mut disk)?).ok()?;
    }
    Some(states)
}

// Whether a stop at each moment of the batch with that number leaves none or all of its members that change something, and all at its end.
fn batch_stops(alloc: Global, number: usize, members: &[Request]) -> Option<bool> {
    let states = states_of(alloc, number, members)?;
    let mut disk = empty(alloc)?;
    let mut tables = opened(alloc, &mut disk)?;
    ask_some(alloc, &mut tables, &mut disk, &BATCHES, number)?;
    let (from, _) = disk.counts();
    let _ = asked(alloc, &mut tables, &mut disk, BATCHES.get(number)?)?;
    let (to, _) = disk.counts();
    stops_between(alloc, &disk, from, to, states.first()?, states.last()?)
}

#[test]
fn a_stop_leaves_a_batch_whole_or_not_at_all(rt: HostRuntime) {
    for (number, members) in &MEMBERS {
        assert!(rt;
            batch_stops(rt.alloc(), *number, members) == Some(true),
            "batch {number}"
        );
    }
}

#[test]
fn a_stop_leaves_the_state_of_a_batch_that_changes_nothing(rt: HostRuntime) {
    for number in 4..8 {
        assert!(rt;
            stops_at(rt.alloc(), &BATCHES, number) == Some(true),
            "batch {number}"
        );
    }
}
