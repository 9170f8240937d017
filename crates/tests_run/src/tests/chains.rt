//! A run over what a stop has left of the one before it, stopped again: what was answered in either is there.

use super::over::{fresh, left, replayed};
use super::script::{EACH, Script, UNDER_WAY, choices, view, views};
use super::stops::{failing, place_of, replies};
use alt_disk::MemoryDisk;
use alt_shell::MemoryShell;
use std::alloc::Global;

/// What is asked behind a stop. Where the table isn't there yet it is refused.
static MORE: [&str; 3] = [
    r#"PutItem {"TableName":"Rng","Item":{"k":{"S":"a"},"r":{"N":"9"},"g":{"S":"x"}}}"#,
    "@flush",
    "@step",
];

// The views behind so many writes, and behind these and the line more.
#[derive(Drop)]
struct Both {
    before: Vec<Vec<u8>>,
    after: Vec<Vec<u8>>,
}

// Behind how many writes the store stands on this disk.
fn count_of(alloc: Global, both: &Both, disk: MemoryDisk) -> Option<usize> {
    let state = view(alloc, disk)?;
    place_of(&both.before, &state)
}

// Whether a disk shows so many writes, or these and the line more, and that one where it was answered.
fn shows(
    alloc: Global,
    both: &Both,
    count: usize,
    answered: bool,
    disk: MemoryDisk,
) -> Option<bool> {
    let state = view(alloc, disk)?;
    let before = state.as_slice() == both.before.get(count)?.as_slice();
    let after = state.as_slice() == both.after.get(count)?.as_slice();
    Some(after || (before && !answered))
}

// Whether over what a stop at this moment has left a run ends well, and each of its calls fails as it has to, and stops of either leave what
// was answered in the two runs.
fn goes_on(
    alloc: Global,
    both: &Both,
    whole: &MemoryShell,
    moment: u64,
    choice: &[u8],
    other: &[u8],
) -> Option<bool> {
    let count = count_of(alloc, both, left(whole, moment, choice)?)?;
    let next = replayed(alloc, left(whole, moment, choice)?, &MORE)?;
    let (end, _) = next.disk().counts();
    for at in 0..end {
        let failed = failing(alloc, left(whole, moment, choice)?, &MORE, at)?;
        let answered = replies(failed.said(None), next.said(None))? > 0;
        let (last, _) = failed.disk().counts();
        if !shows(alloc, both, count, answered, left(&failed, last, other)?)?
            || !shows(alloc, both, count, answered, left(&next, at, other)?)?
        {
            return Some(false);
        }
    }
    shows(alloc, both, count, true, left(&next, end, other)?)
}

// Every so many moments of a run are looked at.
const STEP: u64 = 47;

// The first such moment of a run over the script behind which that doesn't hold.
fn chains(alloc: Global, script: &Script) -> Option<Option<u64>> {
    let both = Both {
        before: views(alloc, script, &[])?,
        after: views(alloc, script, &MORE)?,
    };
    let choices = choices(alloc)?;
    let whole = replayed(alloc, fresh(alloc)?, script.lines)?;
    let (end, _) = whole.disk().counts();
    for moment in 0..end {
        let choice = choices.get((moment % 3) as usize)?;
        let other = choices.get((moment / 3 % 3) as usize)?;
        if moment % STEP == 0
            && goes_on(alloc, &both, &whole, moment, choice, other) != Some(true)
        {
            return Some(Some(moment));
        }
    }
    Some(None)
}

#[test]
fn a_run_over_what_a_stop_has_left_keeps_what_was_answered_before(rt: HostRuntime) {
    let found = chains(rt.alloc(), &EACH);
    assert!(rt; found == Some(None), "{found:?}");
    let found = chains(rt.alloc(), &UNDER_WAY);
    assert!(rt; found == Some(None), "{found:?}");
}
