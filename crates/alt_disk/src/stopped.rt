//! The disk that a stop leaves: a new disk in memory with the image that a choice picks, all of it synced.

ghost use Rattle.std.specs.Prelude.{◌≡◌, ◌<◌, ◌==◌, if◌then◌else◌, ℕ, true, IfOk, IfSome, OnOk};
ghost use Rattle.std.specs.BTreeSet.{contains, keys};
ghost use Rattle.std.specs.List.{All, list_any};
ghost use Rattle.std.specs.List.Sorted.{IsStrictlySortedBy};
ghost use Rattle.std.specs.Ordering.{nat_cmp};
ghost use Rattle.alt_disk.specs.Files.{option_items};
ghost use Rattle.alt_disk.specs.Memory.{Timed, nothing, replay, at_moment};
ghost use Rattle.alt_disk.specs.Stopped.{picked_image, settled};

use crate::history::History;
use crate::made::{Deed, Made};
use crate::pick::{Choice, pick};
use crate::trace::retrace;
use std::alloc::{AllocError, Global};
use std::collections::BTreeSet;

/// The calls by which the image that the choice picks stands on a new disk.
pub(crate) fn settle_image(
    alloc: Global,
    calls: &[Made],
    moment: u64,
    choice: &[u8],
) -> Result<History, AllocError>
    ensures image { IfOk result (λ settled_calls. (f : ℕ)
        → replay f nothing settled_calls.calls.items
        ≡ settled (picked_image (λ g. at_moment moment g calls.now) choice.now f)) }
    ensures timed { IfOk result (λ settled_calls. All (Timed 0) settled_calls.calls.items) }
{
    let numbers = file_numbers(alloc, calls)?;
    settle_files(alloc, calls, numbers.as_slice(), moment, choice)
}

// File by file.
fn settle_files(
    alloc: Global,
    calls: &[Made],
    numbers: &[u32],
    moment: u64,
    choice: &[u8],
) -> Result<History, AllocError>
    requires rising { IsStrictlySortedBy nat_cmp numbers.now }
    requires all { All (λ made. list_any (λ g. made.file == g) numbers.now ≡ true) calls.now }
    ensures image { IfOk result (λ settled_calls. (f : ℕ)
        → replay f nothing settled_calls.calls.items
        ≡ settled (picked_image (λ g. at_moment moment g calls.now) choice.now f)) }
    ensures timed { IfOk result (λ settled_calls. All (Timed 0) settled_calls.calls.items) }
{
    let mut history = History::new(alloc);
    let mut choice = Choice { rest: choice };
    for f in numbers {
        let trace = retrace(alloc, calls, *f, moment)?;
        let file = pick(alloc, trace, &mut choice)?;
        settle_file(&mut history, *f, file)?;
    }
    Ok(history)
}

// One file, of which no call was made yet.
fn settle_file(history: &mut History, f: u32, file: Option<Vec<u8>>) -> Result<(), AllocError>
    requires bytes { IfSome file (λ bytes. All (λ b. b < 256) bytes.items) }
    requires none { replay f nothing history.old.calls.items ≡ nothing }
    requires timed { All (Timed 0) history.old.calls.items }
    ensures file { OnOk result ((g : ℕ) → replay g nothing history.new.calls.items
        ≡ (if f == g then settled (option_items file) else replay g nothing
        history.old.calls.items)) }
    ensures timed { All (Timed 0) history.new.calls.items }
{
    if let Some(bytes) = file {
        history.add(
            Made {
                time: 0,
                file: f,
                deed: Deed::Write { at: 0, bytes },
            },
            0,
        )?;
        history.add(
            Made {
                time: 0,
                file: f,
                deed: Deed::Sync,
            },
            0,
        )?;
    }
    Ok(())
}

// The numbers of the files of which a call was made, rising.
fn file_numbers(alloc: Global, calls: &[Made]) -> Result<Vec<u32>, AllocError>
    ensures rising { IfOk result (λ numbers. IsStrictlySortedBy nat_cmp numbers.items) }
    ensures all { IfOk result (λ numbers. All
        (λ made. list_any (λ g. made.file == g) numbers.items ≡ true) calls.now) }
{
    let set = file_set(alloc, calls)?;
    keys_of(alloc, &set)
}

// The numbers of a set, rising.
fn keys_of(alloc: Global, set: &BTreeSet<u32>) -> Result<Vec<u32>, AllocError>
    ensures keys { IfOk result (λ numbers. numbers.items ≡ keys set.now) }
    ensures rising { IfOk result (λ numbers. IsStrictlySortedBy nat_cmp numbers.items) }
{
    let mut numbers = Vec::new(alloc);
    for f in set.iter() {
        numbers.push(*f)?;
    }
    Ok(numbers)
}

// The set of these files.
fn file_set(alloc: Global, calls: &[Made]) -> Result<BTreeSet<u32>, AllocError>
    ensures { IfOk result (λ set. All (λ made. contains nat_cmp set made.file ≡ true) calls.now) }
{
    let mut set = BTreeSet::new(alloc);
    for made in calls {
        set.insert(made.file)?;
    }
    Ok(set)
}
