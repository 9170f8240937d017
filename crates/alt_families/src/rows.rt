//! The rows that a family shows in a range.

ghost use Rattle.std.specs.Prelude.{◌≡◌, ◌≤◌, ◌<◌, ◌+◌, ◌++◌, ◌∷◌, [], ℕ, suc, Bool, List, Some, take, IfOk, IfErr, OnOk, OnErr, IsErrOf, IsTrue};
ghost use Rattle.std.specs.BTreeMap.{get as tree_get};
ghost use Rattle.std.specs.Option.{option_copied};
ghost use Rattle.std.specs.Ordering.{nat_cmp};
ghost use Rattle.alt_base.specs.Counts.{Rose};
ghost use Rattle.alt_base.specs.Prefix.{IsPrefix};
ghost use Rattle.alt_cells.specs.Changes.{Columns};
ghost use Rattle.alt_cells.specs.Walks.{RowMap};
ghost use Rattle.alt_disk.specs.Disk.{Goes};
ghost use Rattle.alt_disk.specs.Runs.{Quiet};
ghost use Rattle.alt_merge.specs.Whole.{merge_holds};
ghost use Rattle.alt_families.specs.Opened.{FamilyReads, SourceFaultIsUndamaged};
ghost use Rattle.alt_families.specs.Ranges.{Ahead, GivesSome, GivesStep, is_out, shown_between, start_of};
ghost use Rattle.alt_families.specs.Paying.{IsPaid};
ghost use Rattle.alt_families.specs.Reads.{is_passed, most_reads};
ghost use Rattle.alt_families.specs.Sources.{source_holds};

use crate::family::Family;
use crate::source::{Source, sources_of};
use alt_base::NoMemory;
use alt_cells::{RowSource, ShownRow, SourceFault};
use alt_disk::Disk;
use alt_fields::Bytes;
use alt_keyorder::KeyRange;
use alt_merge::Merge;
use std::alloc::Global;
use std::collections::BTreeMap;

/// Puts the first rows at the end of the list that a family shows in a range: `most` of them, or all where there are fewer. They
/// rise where it goes forward, and else they fall from the range's end.
pub fn shown_rows<D: Disk>(
    alloc: Global,
    disk: &mut D,
    families: &BTreeMap<u32, Family>,
    family: u32,
    range: &KeyRange,
    forward: bool,
    most: u32,
    out: &mut Vec<(Bytes, ShownRow)>,
) -> Result<(), SourceFault>
    ensures rows { IsTrue (D.state disk.old).tells → (rows : RowMap)
        → FamilyReads (D.state disk.old) (tree_get nat_cmp families.now family) rows
        → OnOk result (out.new.items ≡ out.old.items
        ++ take most (shown_between rows range.now.from range.now.to forward)) }
    ensures begun { IsPrefix out.old.items out.new.items }
    ensures undamaged { IsTrue (D.state disk.old).tells → (rows : RowMap)
        → FamilyReads (D.state disk.old) (tree_get nat_cmp families.now family) rows
        → IfErr result SourceFaultIsUndamaged }
    ensures quiet { IsTrue (D.state disk.old).tells
        → Quiet (D.state disk.old) (D.state disk.new) }
    ensures goes { Goes (D.state disk.old) (D.state disk.new) }
    ensures cause { IsErrOf result SourceFault.Failed
        → Rose (D.state disk.old).faults (D.state disk.new).faults }
    ensures well { (IsErrOf result SourceFault.Failed → ⊥)
        → (D.state disk.new).faults ≡ (D.state disk.old).faults }

    // It reads each file twice at most, and once more for each version of a row that it passes.
    ensures reads { IsTrue (D.state disk.old).tells → (rows : RowMap)
        → (family : FamilyReads (D.state disk.old) (tree_get nat_cmp families.now family) rows)
        → OnOk result ((D.state disk.new).reads ≤ (D.state disk.old).reads
        + most_reads forward range.now.from range.now.to most
        (shown_between rows range.now.from range.now.to forward) family.maps) }
{
    match families.get(&family) {
        Some(found) => walk_family(alloc, disk, found, range, forward, most, out),
        None => Ok(()),
    }
}

/// What came of one step of a walk: a row was given, one was passed over, or there is none left in the range.
#[derive(Clone, Copy, Debug, PartialEq, Eq, Drop)]
pub(crate) enum Step {
    Gave,
    Passed,
    Ended,
}

/// Whether a key lies behind a range, in the direction of a walk.
fn is_out(range: &KeyRange, forward: bool, key: &Bytes) -> bool
    ensures { result ≡ is_out forward range.now.from range.now.to key.now }
{
    if forward {
        match &range.to {
            Some(to) => to.cmp(key).is_le(),
            None => false,
        }
    } else {
        !range.from.cmp(key).is_le()
    }
}

/// Puts one more row at the end. Where memory is wanting, the list is as it was.
fn give(out: &mut Vec<(Bytes, ShownRow)>, key: Bytes, row: ShownRow) -> Result<(), NoMemory>
    ensures ok { OnOk result (out.new.items ≡ out.old.items ++ (key, row) ∷ []) }
    ensures err { OnErr result (out.new.items ≡ out.old.items) }
{
    out.push((key, row))?;
    Ok(())
}

/// One step of a walk: the next row, if the range shows it, is put at the end of the list.
fn go_on<'a, D: Disk>(
    disk: &mut D,
    walk: &mut Merge<Source<'a>>,
    range: &KeyRange,
    forward: bool,
    out: &mut Vec<(Bytes, ShownRow)>,
) -> Result<Step, SourceFault>
    ensures gives { IsTrue (D.state disk.old).tells → (p : List ℕ → Bool) (bound n : ℕ)
        → (shows : List (List ℕ × Columns))
        → ((key : List ℕ) → is_passed forward range.now.from range.now.to (suc n) shows key ≡ p key)
        → Ahead (IsPaid p bound (D.state disk.old) walk.old forward) forward range.now.from
        range.now.to shows → IfOk result (GivesStep
        (Ahead (IsPaid p bound (D.state disk.new) walk.new forward) forward range.now.from
        range.now.to) shows out.old.items out.new.items) }
    ensures reads { IsTrue (D.state disk.old).tells → (p : List ℕ → Bool) (bound : ℕ)
        → (shows : List (List ℕ × Columns))
        → Ahead (IsPaid p bound (D.state disk.old) walk.old forward) forward range.now.from
        range.now.to shows → (D.state disk.new).reads ≤ bound }
    ensures begun { IsPrefix out.old.items out.new.items }
    ensures holds { IsTrue (D.state disk.old).tells → (rows : RowMap)
        → merge_holds source_holds (D.state disk.old) walk.old rows
        → merge_holds source_holds (D.state disk.new) walk.new rows }
    ensures undamaged { IsTrue (D.state disk.old).tells → (rows : RowMap)
        → merge_holds source_holds (D.state disk.old) walk.old rows → IfErr result SourceFaultIsUndamaged }
    ensures quiet { IsTrue (D.state disk.old).tells
        → Quiet (D.state disk.old) (D.state disk.new) }
    ensures goes { Goes (D.state disk.old) (D.state disk.new) }
    ensures cause { IsErrOf result SourceFault.Failed
        → Rose (D.state disk.old).faults (D.state disk.new).faults }
    ensures well { (IsErrOf result SourceFault.Failed → ⊥)
        → (D.state disk.new).faults ≡ (D.state disk.old).faults }
{
    match walk.next(disk) {
        Ok(Some((key, row))) => {
            if is_out(range, forward, &key) {
                return Ok(Step::Ended);
            }
            match row.into_shown(*out.allocator())? {
                Some(shown) => {
                    give(out, key, shown)?;
                    Ok(Step::Gave)
                }
                None => Ok(Step::Passed),
            }
        }
        Ok(None) => Ok(Step::Ended),
        Err(fault) => Err(fault),
    }
}

/// One step of a walk of which so many rows are wanted: how many are wanted then, or none where all are given.
fn take_one<'a, D: Disk>(
    disk: &mut D,
    walk: &mut Merge<Source<'a>>,
    range: &KeyRange,
    forward: bool,
    left: u32,
    out: &mut Vec<(Bytes, ShownRow)>,
) -> Result<Option<u32>, SourceFault>
    ensures gives { IsTrue (D.state disk.old).tells → (p : List ℕ → Bool) (bound : ℕ)
        → (shows : List (List ℕ × Columns)) → (0 < left → (key : List ℕ)
        → is_passed forward range.now.from range.now.to left shows key ≡ p key)
        → Ahead (IsPaid p bound (D.state disk.old) walk.old forward) forward range.now.from
        range.now.to shows → IfOk result (GivesSome
        (λ after more. Ahead (IsPaid p bound (D.state disk.new) walk.new forward) forward
        range.now.from range.now.to more × (0 < after → (key : List ℕ)
        → is_passed forward range.now.from range.now.to after more key ≡ p key))
        shows out.old.items out.new.items left) }
    ensures reads { IsTrue (D.state disk.old).tells → (p : List ℕ → Bool) (bound : ℕ)
        → (shows : List (List ℕ × Columns))
        → Ahead (IsPaid p bound (D.state disk.old) walk.old forward) forward range.now.from
        range.now.to shows → (D.state disk.new).reads ≤ bound }
    ensures begun { IsPrefix out.old.items out.new.items }
    ensures holds { IsTrue (D.state disk.old).tells → (rows : RowMap)
        → merge_holds source_holds (D.state disk.old) walk.old rows
        → merge_holds source_holds (D.state disk.new) walk.new rows }
    ensures undamaged { IsTrue (D.state disk.old).tells → (rows : RowMap)
        → merge_holds source_holds (D.state disk.old) walk.old rows → IfErr result SourceFaultIsUndamaged }
    ensures quiet { IsTrue (D.state disk.old).tells
        → Quiet (D.state disk.old) (D.state disk.new) }
    ensures goes { Goes (D.state disk.old) (D.state disk.new) }
    ensures cause { IsErrOf result SourceFault.Failed
        → Rose (D.state disk.old).faults (D.state disk.new).faults }
    ensures well { (IsErrOf result SourceFault.Failed → ⊥)
        → (D.state disk.new).faults ≡ (D.state disk.old).faults }
{
    if left == 0 {
        return Ok(None);
    }
    match go_on(disk, walk, range, forward, out) {
        Ok(Step::Gave) => Ok(Some(left - 1)),
        Ok(Step::Passed) => Ok(Some(left)),
        Ok(Step::Ended) => Ok(None),
        Err(fault) => Err(fault),
    }
}

/// Puts the first rows that are ahead at the end of the list.
fn gather<'a, D: Disk>(
    disk: &mut D,
    walk: &mut Merge<Source<'a>>,
    range: &KeyRange,
    forward: bool,
    most: u32,
    out: &mut Vec<(Bytes, ShownRow)>,
) -> Result<(), SourceFault>
    ensures rows { IsTrue (D.state disk.old).tells → (p : List ℕ → Bool) (bound : ℕ)
        → (shows : List (List ℕ × Columns)) → (0 < most → (key : List ℕ)
        → is_passed forward range.now.from range.now.to most shows key ≡ p key)
        → Ahead (IsPaid p bound (D.state disk.old) walk.old forward) forward range.now.from
        range.now.to shows → OnOk result ((out.new.items ≡ out.old.items ++ take most shows)
        × ((D.state disk.new).reads ≤ bound)) }
    ensures begun { IsPrefix out.old.items out.new.items }
    ensures undamaged { IsTrue (D.state disk.old).tells → (rows : RowMap)
        → merge_holds source_holds (D.state disk.old) walk.old rows → IfErr result SourceFaultIsUndamaged }
    ensures quiet { IsTrue (D.state disk.old).tells
        → Quiet (D.state disk.old) (D.state disk.new) }
    ensures goes { Goes (D.state disk.old) (D.state disk.new) }
    ensures cause { IsErrOf result SourceFault.Failed
        → Rose (D.state disk.old).faults (D.state disk.new).faults }
    ensures well { (IsErrOf result SourceFault.Failed → ⊥)
        → (D.state disk.new).faults ≡ (D.state disk.old).faults }
{
    let mut left = most;
    'rows: for _ in 0..u64::MAX {
        match take_one(disk, walk, range, forward, left, out) {
            Ok(Some(after)) => left = after,
            Ok(None) => return Ok(()),
            Err(fault) => return Err(fault),
        }
    }
    // No walk has so many rows.
    Err(SourceFault::NoMemory)
}

/// Where a walk over a range begins.
fn start_of<'a>(range: &'a KeyRange, forward: bool) -> Option<&'a [u8]>
    ensures { option_copied result ≡ start_of forward range.now.from range.now.to }
{
    if forward {
        return Some(range.from.as_slice());
    }
    match &range.to {
        Some(to) => Some(to.as_slice()),
        None => None,
    }
}

/// The first rows that a family in hand shows in a range.
fn walk_family<D: Disk>(
    alloc: Global,
    disk: &mut D,
    family: &Family,
    range: &KeyRange,
    forward: bool,
    most: u32,
    out: &mut Vec<(Bytes, ShownRow)>,
) -> Result<(), SourceFault>
    ensures rows { IsTrue (D.state disk.old).tells → (rows : RowMap)
        → FamilyReads (D.state disk.old) (Some family.now) rows
        → OnOk result (out.new.items ≡ out.old.items
        ++ take most (shown_between rows range.now.from range.now.to forward)) }
    ensures reads { IsTrue (D.state disk.old).tells → (rows : RowMap)
        → (reads : FamilyReads (D.state disk.old) (Some family.now) rows)
        → OnOk result ((D.state disk.new).reads ≤ (D.state disk.old).reads
        + most_reads forward range.now.from range.now.to most
        (shown_between rows range.now.from range.now.to forward) reads.maps) }
    ensures begun { IsPrefix out.old.items out.new.items }
    ensures undamaged { IsTrue (D.state disk.old).tells → (rows : RowMap)
        → FamilyReads (D.state disk.old) (Some family.now) rows → IfErr result SourceFaultIsUndamaged }
    ensures quiet { IsTrue (D.state disk.old).tells
        → Quiet (D.state disk.old) (D.state disk.new) }
    ensures goes { Goes (D.state disk.old) (D.state disk.new) }
    ensures cause { IsErrOf result SourceFault.Failed
        → Rose (D.state disk.old).faults (D.state disk.new).faults }
    ensures well { (IsErrOf result SourceFault.Failed → ⊥)
        → (D.state disk.new).faults ≡ (D.state disk.old).faults }
{
    let sources = sources_of(alloc, family)?;
    let mut walk = Merge::new(alloc, sources);
    match walk.seek(disk, start_of(range, forward), forward) {
        Ok(()) => gather(disk, &mut walk, range, forward, most, out),
        Err(fault) => Err(fault),
    }
}
