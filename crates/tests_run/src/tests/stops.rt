//! Runs that are stopped at each moment, and runs in which each call fails: of the disk, of standard input and of standard output.

use super::over::{REPLAY, ended, left, replayed, shell_over};
use super::script::{EACH, EXPIRING, Script, begun, choices, view, views};
use alt_disk::MemoryDisk;
use alt_shell::MemoryShell;
use std::alloc::Global;

/// The shell behind a run over these lines whose call at this moment fails: it ended with 4, and noted so.
pub(super) fn failing(
    alloc: Global,
    mut disk: MemoryDisk,
    lines: &[&str],
    moment: u64,
) -> Option<MemoryShell> {
    disk.fail(moment).ok()?;
    let mut shell = shell_over(alloc, disk, lines)?;
    let status = ended(alloc, &REPLAY, &mut shell)?;
    if status == 4 && shell.noted() == b"alternator: device\n".as_slice() {
        Some(shell)
    } else {
        None
    }
}

/// How many replies these bytes are, none where the last one isn't whole or they are no front of what the whole run said.
pub(super) fn replies(said: &[u8], whole: &[u8]) -> Option<usize> {
    if !whole.starts_with(said) || (!said.is_empty() && !said.ends_with(b"\n")) {
        return None;
    }
    let mut count = 0usize;
    for byte in said {
        if *byte == b'\n' {
            count = count.checked_add(1)?;
        }
    }
    Some(count)
}

/// The place of a view among others.
pub(super) fn place_of(views: &[Vec<u8>], view: &[u8]) -> Option<usize> {
    for place in 0..views.len() {
        if views.get(place)?.as_slice() == view {
            return Some(place);
        }
    }
    None
}

// The views behind the writes of so many lines, and of the one behind these that may be under way.
fn allowed<'a>(script: &Script, views: &'a [Vec<u8>], count: usize) -> Option<&'a [Vec<u8>]> {
    let least = *script.behind.get(count)?;
    let most = match script.behind.get(count.checked_add(1)?) {
        Some(most) => *most,
        None => least,
    };
    views.get(least..most.checked_add(1)?)
}

// Whether a stop at this moment leaves one of these views, whatever it picks.
fn leaves_one(
    alloc: Global,
    shell: &MemoryShell,
    moment: u64,
    choices: &[Vec<u8>],
    views: &[Vec<u8>],
) -> Option<bool> {
    for choice in choices {
        let state = view(alloc, left(shell, moment, choice)?)?;
        if place_of(views, &state).is_none() {
            return Some(false);
        }
    }
    Some(true)
}

// Whether the call at this moment fails as it has to, and stops behind it and stops of the whole run at this moment leave each write that
// was answered, and none that wasn't asked.
fn holds_at(
    alloc: Global,
    script: &Script,
    views: &[Vec<u8>],
    choices: &[Vec<u8>],
    whole: &MemoryShell,
    moment: u64,
) -> Option<bool> {
    let failed = failing(alloc, begun(alloc, script)?, script.lines, moment)?;
    let count = replies(failed.said(None), whole.said(None))?;
    let views = allowed(script, views, count)?;
    let (end, _) = failed.disk().counts();
    Some(
        leaves_one(alloc, &failed, end, choices, views)?
            && leaves_one(alloc, whole, moment, choices, views)?,
    )
}

/// The first moment of a run over the script at which that doesn't hold. It has so many moments at least.
pub(super) fn stops(alloc: Global, script: &Script, least: u64) -> Option<Option<u64>> {
    let views = views(alloc, script, &[])?;
    let choices = choices(alloc)?;
    let whole = replayed(alloc, begun(alloc, script)?, script.lines)?;
    let (end, _) = whole.disk().counts();
    for moment in 0..end {
        if holds_at(alloc, script, &views, &choices, &whole, moment) != Some(true) {
            return Some(Some(moment));
        }
    }
    let last = views.len().checked_sub(1)?;
    let all = leaves_one(alloc, &whole, end, &choices, views.get(last..)?)?;
    Some(if all && least <= end { None } else { Some(end) })
}

#[test]
fn a_stop_or_a_failure_leaves_what_was_answered(rt: HostRuntime) {
    let found = stops(rt.alloc(), &EACH, 100);
    assert!(rt; found == Some(None), "{found:?}");
}

#[test]
fn a_stop_or_a_failure_leaves_all_that_expire_at_once_or_none(rt: HostRuntime) {
    let found = stops(rt.alloc(), &EXPIRING, 100);
    assert!(rt; found == Some(None), "{found:?}");
}
