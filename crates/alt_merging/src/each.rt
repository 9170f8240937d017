//! Merges of several families, each in one call.

ghost use Rattle.std.specs.Prelude.{◌≡◌, ◌≢◌, ◌||◌, ◌<◌, ◌≤◌, ◌+◌, ⊤, ℕ, List, true, false, length, IfErr, IfOk, OnOk, IsErrOf};
ghost use Rattle.alt_base.specs.Counts.{Rose};
ghost use Rattle.alt_disk.specs.Disk.{DiskState, IsTrusted, Goes};
ghost use Rattle.alt_disk.specs.Runs.{Spans};
ghost use Rattle.alt_filemerge.specs.FileMerges.{ReadEach};
ghost use Rattle.alt_layout.specs.Layout.{Layout, RowMap};
ghost use Rattle.alt_manifest.specs.Rules.{Reflects};
ghost use Rattle.alt_manifest.specs.Versions.{IsIn, RiseFrom};
ghost use Rattle.alt_hand.specs.Adding.{AddsVersion, LeavesOut, MakesNone};
ghost use Rattle.alt_hand.specs.Drafting.{IsSpentFor};
ghost use Rattle.alt_hand.specs.Carrying.{AreStill};
ghost use Rattle.alt_hand.specs.InHand.{HandStandsForLayout, length_of, limits_of, next_file_of, next_of};
ghost use Rattle.alt_hand.specs.Merging.{files_at, memory_at};
ghost use Rattle.alt_hand.specs.Working.{IsFileSpent, TellsNoDamage, Works, WorksIn};
ghost use Rattle.alt_merging.specs.Merged.{AreMerged};

use crate::merging::Merging;
use alt_disk::Disk;
use alt_hand::{EngineFault, Hand};
use alt_rowfile::RowFile;
use std::alloc::Global;

/// Merges the files of each of these families, where there are two or one has a tombstone; false where there is no such family. After
/// an Err the engine is spent.
pub fn merge_each<D: Disk>(
    alloc: Global,
    disk: &mut D,
    hand: &mut Hand,
    live: &[u32],
) -> Result<bool, EngineFault>
    requires ready { IsTrusted (D.state disk.old)
        → (l : Layout) × HandStandsForLayout (D.state disk.old) hand.old l }
    requires live { RiseFrom 0 live.now }
    ensures ok { OnOk result (IsTrusted (D.state disk.old) → (l : Layout)
        → HandStandsForLayout (D.state disk.old) hand.old l
        → (m : Layout) × HandStandsForLayout (D.state disk.new) hand.new m × Works live.now l m) }
    ensures merged { OnOk result (IsTrusted (D.state disk.old) → (family : ℕ)
        → IsIn live.now family → AreMerged (D.state disk.new) (files_at hand.new family)) }
    ensures idle { IfOk result (λ done. done ≡ false → IsTrusted (D.state disk.old)
        → (family : ℕ) → IsIn live.now family
        → AreMerged (D.state disk.old) (files_at hand.old family)) }
    ensures idle_disk { IfOk result (λ done. done ≡ false → D.state disk.new ≡ D.state disk.old) }
    ensures idle_hand { IfOk result (λ done. done ≡ false → hand.new ≡ hand.old) }
    ensures busy { IfOk result (λ done. done ≡ true → IsTrusted (D.state disk.old)
        → ((family : ℕ) → IsIn live.now family
        → AreMerged (D.state disk.old) (files_at hand.old family)) → ⊥) }

    // It touches no live family's rows in memory, and no files that are merged.
    ensures memory { OnOk result ((family : ℕ) → IsIn live.now family
        → memory_at hand.new family ≡ memory_at hand.old family) }
    ensures kept { OnOk result (IsTrusted (D.state disk.old) → (family : ℕ)
        → IsIn live.now family → AreMerged (D.state disk.old) (files_at hand.old family)
        → files_at hand.new family ≡ files_at hand.old family) }

    // The last version that it adds names families that aren't live without files. Files that a version doesn't name any more are gone, and no
    // file below the next one is there that wasn't.
    ensures leaves_out { IfOk result (λ done. done ≡ true → LeavesOut live.now hand.old hand.new) }
    ensures adds { IfOk result (λ done. done ≡ true → IsTrusted (D.state disk.old) → (l : Layout)
        → HandStandsForLayout (D.state disk.old) hand.old l → AddsVersion (D.state disk.new) hand.old hand.new) }
    ensures missing { OnOk result (IsTrusted (D.state disk.old) → (l : Layout)
        → HandStandsForLayout (D.state disk.old) hand.old l
        → MakesNone (D.state disk.old) (D.state disk.new) (next_file_of hand.old)) }
    ensures next_file { OnOk result (next_file_of hand.new
        ≤ next_file_of hand.old + length live.now) }
    ensures length { length_of hand.new ≡ length_of hand.old }
    ensures next { next_of hand.new ≡ next_of hand.old }
    ensures limits { limits_of hand.new ≡ limits_of hand.old }

    // A stop at any moment of the call, also one that fails, leaves the rows of live families.
    ensures any_moment { IsTrusted (D.state disk.old) → (l : Layout)
        → HandStandsForLayout (D.state disk.old) hand.old l
        → Spans (D.state disk.old) (D.state disk.new) (λ _. ⊤) (WorksIn live.now l) }
    ensures spent { IfErr result IsFileSpent }
    ensures spent_for { IsTrusted (D.state disk.old)
        → IfErr result (IsSpentFor (next_file_of hand.old + length live.now)) }
    ensures sound { IsTrusted (D.state disk.old) → IfErr result TellsNoDamage }
    ensures goes { Goes (D.state disk.old) (D.state disk.new) }
    ensures cause { IsErrOf result EngineFault.Failed
        → Rose (D.state disk.old).faults (D.state disk.new).faults }
    ensures well { OnOk result ((D.state disk.new).faults ≡ (D.state disk.old).faults) }
{
    let mut merged = false;
    for family in live {
        let one = merge_family(alloc, disk, hand, live, *family)?;
        merged = either(merged, one);
    }
    Ok(merged)
}

/// Whether one of two is so.
fn either(one: bool, other: bool) -> bool
    ensures { result ≡ (one || other) }
{
    one || other
}

/// Merges the files of a live family, where there are two or one has a tombstone; false where there is nothing to merge.
fn merge_family<D: Disk>(
    alloc: Global,
    disk: &mut D,
    hand: &mut Hand,
    live: &[u32],
    family: u32,
) -> Result<bool, EngineFault>
    requires ready { IsTrusted (D.state disk.old)
        → (l : Layout) × HandStandsForLayout (D.state disk.old) hand.old l }
    requires live { IsIn live.now family }
    ensures ok { OnOk result (IsTrusted (D.state disk.old) → (l : Layout)
        → HandStandsForLayout (D.state disk.old) hand.old l
        → (m : Layout) × HandStandsForLayout (D.state disk.new) hand.new m × Works live.now l m) }
    ensures merged { OnOk result (IsTrusted (D.state disk.old)
        → AreMerged (D.state disk.new) (files_at hand.new family)) }
    ensures others { OnOk result ((other : ℕ) → IsIn live.now other → other ≢ family
        → files_at hand.new other ≡ files_at hand.old other) }
    ensures still { OnOk result (IsTrusted (D.state disk.old) → (other : ℕ)
        → IsIn live.now other → other ≢ family
        → AreStill (D.state disk.old) (D.state disk.new) (files_at hand.old other)) }
    ensures idle { IfOk result (λ done. done ≡ false → IsTrusted (D.state disk.old)
        → AreMerged (D.state disk.old) (files_at hand.old family)) }
    ensures idle_disk { IfOk result (λ done. done ≡ false → D.state disk.new ≡ D.state disk.old) }
    ensures idle_hand { IfOk result (λ done. done ≡ false → hand.new ≡ hand.old) }
    ensures busy { IfOk result (λ done. done ≡ true → IsTrusted (D.state disk.old)
        → AreMerged (D.state disk.old) (files_at hand.old family) → ⊥) }
    ensures memory { OnOk result ((other : ℕ) → IsIn live.now other
        → memory_at hand.new other ≡ memory_at hand.old other) }
    ensures leaves_out { IfOk result (λ done. done ≡ true → LeavesOut live.now hand.old hand.new) }
    ensures adds { IfOk result (λ done. done ≡ true → IsTrusted (D.state disk.old)
        → AddsVersion (D.state disk.new) hand.old hand.new) }
    ensures missing { OnOk result (IsTrusted (D.state disk.old) → (l : Layout)
        → HandStandsForLayout (D.state disk.old) hand.old l
        → MakesNone (D.state disk.old) (D.state disk.new) (next_file_of hand.old)) }
    ensures low { OnOk result (next_file_of hand.old ≤ next_file_of hand.new) }
    ensures next_file { OnOk result (next_file_of hand.new ≤ next_file_of hand.old + 1) }
    ensures length { length_of hand.new ≡ length_of hand.old }
    ensures next { next_of hand.new ≡ next_of hand.old }
    ensures limits { limits_of hand.new ≡ limits_of hand.old }
    ensures any_moment { IsTrusted (D.state disk.old) → (l : Layout)
        → HandStandsForLayout (D.state disk.old) hand.old l
        → Spans (D.state disk.old) (D.state disk.new) (λ _. ⊤) (WorksIn live.now l) }
    ensures spent { IfErr result IsFileSpent }
    ensures spent_for { IsTrusted (D.state disk.old)
        → IfErr result (IsSpentFor (next_file_of hand.old + 1)) }
    ensures goes { Goes (D.state disk.old) (D.state disk.new) }
    ensures cause { IsErrOf result EngineFault.Failed
        → Rose (D.state disk.old).faults (D.state disk.new).faults }
    ensures well { OnOk result ((D.state disk.new).faults ≡ (D.state disk.old).faults) }
{
    let merged = are_merged(hand.files(family));
    if merged {
        return Ok(false);
    }
    let merging = Merging::start(alloc, disk, hand, family)?;
    merging.complete(disk, hand, live)?;
    Ok(true)
}

/// Whether there is one file at most, and that has no tombstone.
fn are_merged(files: &[RowFile]) -> bool
    ensures merged { (s : DiskState) (maps : List RowMap) → ReadEach s files.now maps
        → Reflects result (AreMerged s files.now) }
    ensures some { result ≡ false → 0 < length files.now }
{
    if files.is_empty() {
        return true;
    }
    if files.len() > 1 {
        return false;
    }
    !files[0].has_tombstone()
}
