//! Flushes and merges of all live families.

ghost use Rattle.std.specs.Prelude.{◌≡◌, ◌≢◌, ◌≤◌, ◌+◌, ⊤, ℕ, IfErr, IfOk, OnOk, IsErrOf, None, Some, true, false};
ghost use Rattle.alt_base.specs.Counts.{Rose};
ghost use Rattle.alt_disk.specs.Disk.{IsTrusted, Goes};
ghost use Rattle.alt_disk.specs.Runs.{Spans};
ghost use Rattle.alt_layout.specs.Layout.{Layout};
ghost use Rattle.alt_manifest.specs.Versions.{IsIn};
ghost use Rattle.alt_manifest.specs.declared.version.Version.{Version};
ghost use Rattle.alt_merging.specs.HandAdding.{AddsVersion, HasOneOf, IsOverNewLog, LeavesOut, MakesNone};
ghost use Rattle.alt_merging.specs.HandCarrying.{AreStill};
ghost use Rattle.alt_merging.specs.HandMerging.{files_at, memory_at, version_in};
ghost use Rattle.alt_merging.specs.Merged.{AreMerged};
ghost use Rattle.alt_merging.specs.Mergings.{family_of_merging as merged_family};
ghost use Rattle.alt_merging.specs.declared.merging.Merging.{Merging};
ghost use Rattle.alt_merging.specs.HandInHand.{HandStandsForLayout as HandStands, length_of};
ghost use Rattle.alt_merging.specs.HandOpened.{EngineFaultIsUnspent};
ghost use Rattle.alt_merging.specs.HandWorking.{AreAllFlushed, AreLive, IsAllFor, IsFileSpent, TellsNoDamage, Works, WorksIn};
ghost use Rattle.alt_engine.specs.InHand.{StandsForLayout, hand_of, limits_of_engine, merge_of, next_file_of_engine, next_write_of_engine};
ghost use Rattle.alt_engine.specs.Working.{AllMerged, IsNeeded, KeepsMerge, MakesNoOther, most_files_of_task};

use crate::engine::Engine;
use crate::work::{Task, Worked};
use alt_disk::Disk;
use alt_merging::{EngineFault, merge_each};

impl Engine {
    /// Flushes all live families, where the log has entries and a merge under way is of a live family.
    pub(crate) fn flush_all<D: Disk>(
        &mut self,
        disk: &mut D,
        live: &[u32],
    ) -> Result<Worked, EngineFault>
        requires ready { IsTrusted (D.state disk.old)
            → (l : Layout) × StandsForLayout (D.state disk.old) self.old l }
        requires live { AreLive live.now }
        requires keeps { KeepsMerge live.now self.old }
        ensures ok { OnOk result (IsTrusted (D.state disk.old) → (l : Layout)
            → StandsForLayout (D.state disk.old) self.old l
            → (m : Layout) × StandsForLayout (D.state disk.new) self.new m × Works live.now l m) }
        ensures next { next_write_of_engine self.new ≡ next_write_of_engine self.old }
        ensures limits { limits_of_engine self.new ≡ limits_of_engine self.old }
        ensures next_file { OnOk result (next_file_of_engine self.new
            ≤ next_file_of_engine self.old + most_files_of_task live.now) }
        ensures idle { IfOk result (λ w. w ≡ Worked.Idle → length_of (hand_of self.old) ≡ 0) }
        ensures idle_disk { IfOk result (λ w. w ≡ Worked.Idle → D.state disk.new ≡ D.state disk.old) }
        ensures idle_engine { IfOk result (λ w. w ≡ Worked.Idle → self.new ≡ self.old) }
        ensures busy { IfOk result (λ w. (w ≡ Worked.Idle → ⊥) → length_of (hand_of self.old) ≡ 0 → ⊥) }
        ensures unwent { IfOk result (λ w. w ≡ Worked.Went → ⊥) }
        ensures done { IfOk result (λ w. w ≡ Worked.Done
            → AreAllFlushed live.now (hand_of self.old) (hand_of self.new)) }
        ensures new_log { IfOk result (λ w. w ≡ Worked.Done → IsTrusted (D.state disk.old)
            → (l : Layout) → StandsForLayout (D.state disk.old) self.old l
            → AreAllFlushed live.now (hand_of self.old) (hand_of self.new)
            × IsOverNewLog live.now (hand_of self.old) (hand_of self.new)) }
        ensures adds { IfOk result (λ w. w ≡ Worked.Done → IsTrusted (D.state disk.old)
            → AddsVersion (D.state disk.new) (hand_of self.old) (hand_of self.new)) }
        ensures missing { OnOk result (IsTrusted (D.state disk.old) → (l : Layout)
            → StandsForLayout (D.state disk.old) self.old l
            → MakesNone (D.state disk.old) (D.state disk.new) (next_file_of_engine self.old)) }
        ensures one_version { IsTrusted (D.state disk.old) → (l : Layout)
            → StandsForLayout (D.state disk.old) self.old l → (w : Version)
            × Spans (D.state disk.old) (D.state disk.new) (λ _. ⊤)
            (HasOneOf (version_in (hand_of self.old)) w) }
        ensures length { OnOk result (length_of (hand_of self.new) ≡ 0) }
        ensures any_moment { IsTrusted (D.state disk.old) → (l : Layout)
            → StandsForLayout (D.state disk.old) self.old l
            → Spans (D.state disk.old) (D.state disk.new) (λ _. ⊤) (WorksIn live.now l) }
        ensures needed { IfErr result (IsAllFor live.now (hand_of self.old)) }
        ensures goes { Goes (D.state disk.old) (D.state disk.new) }
        ensures cause { IsErrOf result EngineFault.Failed
            → Rose (D.state disk.old).faults (D.state disk.new).faults }
        ensures well { OnOk result ((D.state disk.new).faults ≡ (D.state disk.old).faults) }
    {
        if !self.hand.has_entries() {
            return Ok(Worked::Idle);
        }
        self.hand.flush_all(disk, live)?;
        self.many = self.hand.any_many();
        Ok(Worked::Done)
    }

    /// Ends the merge under way, which is of a live family, and merges the files of each live family.
    pub(crate) fn merge_all<D: Disk>(
        &mut self,
        disk: &mut D,
        live: &[u32],
    ) -> Result<Worked, EngineFault>
        requires ready { IsTrusted (D.state disk.old)
            → (l : Layout) × StandsForLayout (D.state disk.old) self.old l }
        requires live { AreLive live.now }
        requires keeps { KeepsMerge live.now self.old }
        ensures ok { OnOk result (IsTrusted (D.state disk.old) → (l : Layout)
            → StandsForLayout (D.state disk.old) self.old l
            → (m : Layout) × StandsForLayout (D.state disk.new) self.new m × Works live.now l m) }
        ensures next { next_write_of_engine self.new ≡ next_write_of_engine self.old }
        ensures limits { limits_of_engine self.new ≡ limits_of_engine self.old }
        ensures next_file { OnOk result (next_file_of_engine self.new
            ≤ next_file_of_engine self.old + most_files_of_task live.now) }
        ensures idle { IfOk result (λ w. w ≡ Worked.Idle → IsTrusted (D.state disk.old)
            → (merge_of self.old ≡ None)
            × AllMerged (D.state disk.old) live.now (hand_of self.old)) }
        ensures idle_disk { IfOk result (λ w. w ≡ Worked.Idle → D.state disk.new ≡ D.state disk.old) }
        ensures idle_engine { IfOk result (λ w. w ≡ Worked.Idle → self.new ≡ self.old) }
        ensures busy { IfOk result (λ w. (w ≡ Worked.Idle → ⊥) → IsTrusted (D.state disk.old)
            → merge_of self.old ≡ None
            → AllMerged (D.state disk.old) live.now (hand_of self.old) → ⊥) }
        ensures unwent { IfOk result (λ w. w ≡ Worked.Went → ⊥) }
        ensures none { OnOk result (merge_of self.new ≡ None) }
        ensures leaves_out { IfOk result (λ w. w ≡ Worked.Done
            → LeavesOut live.now (hand_of self.old) (hand_of self.new)) }
        ensures adds { IfOk result (λ w. w ≡ Worked.Done → IsTrusted (D.state disk.old)
            → (l : Layout) → StandsForLayout (D.state disk.old) self.old l
            → AddsVersion (D.state disk.new) (hand_of self.old) (hand_of self.new)) }
        ensures missing { OnOk result (IsTrusted (D.state disk.old) → (l : Layout)
            → StandsForLayout (D.state disk.old) self.old l
            → MakesNoOther (D.state disk.old) (D.state disk.new) self.old) }
        ensures memory { OnOk result ((family : ℕ) → IsIn live.now family
            → memory_at (hand_of self.new) family ≡ memory_at (hand_of self.old) family) }
        ensures kept { OnOk result (IsTrusted (D.state disk.old) → (l : Layout)
            → StandsForLayout (D.state disk.old) self.old l → (family : ℕ) → IsIn live.now family
            → AreMerged (D.state disk.old) (files_at (hand_of self.old) family)
            → ((j : Merging) → merge_of self.old ≡ Some j → merged_family j ≢ family)
            → files_at (hand_of self.new) family ≡ files_at (hand_of self.old) family) }
        ensures merged { OnOk result (IsTrusted (D.state disk.old)
            → AllMerged (D.state disk.new) live.now (hand_of self.new)) }
        ensures any_moment { IsTrusted (D.state disk.old) → (l : Layout)
            → StandsForLayout (D.state disk.old) self.old l
            → Spans (D.state disk.old) (D.state disk.new) (λ _. ⊤) (WorksIn live.now l) }
        ensures spent { IfErr result IsFileSpent }
        ensures needed { IsTrusted (D.state disk.old)
            → IfErr result (IsNeeded Task.MergeAll live.now self.old) }
        ensures sound { IsTrusted (D.state disk.old) → IfErr result TellsNoDamage }
        ensures goes { Goes (D.state disk.old) (D.state disk.new) }
        ensures cause { IsErrOf result EngineFault.Failed
            → Rose (D.state disk.old).faults (D.state disk.new).faults }
        ensures well { OnOk result ((D.state disk.new).faults ≡ (D.state disk.old).faults) }
    {
        let ended = self.end(disk, live)?;
        let merged = merge_each(self.alloc, disk, &mut self.hand, live)?;
        if !ended && !merged {
            return Ok(Worked::Idle);
        }
        self.many = self.hand.any_many();
        Ok(Worked::Done)
    }

    /// Ends the merge under way, false where there is none.
    fn end<D: Disk>(&mut self, disk: &mut D, live: &[u32]) -> Result<bool, EngineFault>
        requires ready { IsTrusted (D.state disk.old)
            → (l : Layout) × StandsForLayout (D.state disk.old) self.old l }
        requires keeps { KeepsMerge live.now self.old }
        ensures ok { OnOk result (IsTrusted (D.state disk.old) → (l : Layout)
            → StandsForLayout (D.state disk.old) self.old l
            → (m : Layout) × HandStands (D.state disk.new) (hand_of self.new) m × Works live.now l m) }
        ensures none { OnOk result (merge_of self.new ≡ None) }
        ensures same { IfOk result (λ ended. ended ≡ false → (merge_of self.old ≡ None)
            × ((D.state disk.new ≡ D.state disk.old) × (self.new ≡ self.old))) }
        ensures some { IfOk result (λ ended. ended ≡ true → merge_of self.old ≡ None → ⊥) }
        ensures leaves_out { IfOk result (λ ended. ended ≡ true
            → LeavesOut live.now (hand_of self.old) (hand_of self.new)) }
        ensures adds { IfOk result (λ ended. ended ≡ true → IsTrusted (D.state disk.old)
            → AddsVersion (D.state disk.new) (hand_of self.old) (hand_of self.new)) }
        ensures missing { OnOk result (IsTrusted (D.state disk.old) → (l : Layout)
            → StandsForLayout (D.state disk.old) self.old l
            → MakesNoOther (D.state disk.old) (D.state disk.new) self.old) }
        ensures memory { OnOk result ((family : ℕ) → IsIn live.now family
            → memory_at (hand_of self.new) family ≡ memory_at (hand_of self.old) family) }
        ensures others { OnOk result ((family : ℕ) → IsIn live.now family
            → ((j : Merging) → merge_of self.old ≡ Some j → merged_family j ≢ family)
            → files_at (hand_of self.new) family ≡ files_at (hand_of self.old) family) }
        ensures still { OnOk result (IsTrusted (D.state disk.old) → (l : Layout)
            → StandsForLayout (D.state disk.old) self.old l → (family : ℕ) → IsIn live.now family
            → ((j : Merging) → merge_of self.old ≡ Some j → merged_family j ≢ family)
            → AreStill (D.state disk.old) (D.state disk.new) (files_at (hand_of self.old) family)) }
        ensures next { next_write_of_engine self.new ≡ next_write_of_engine self.old }
        ensures limits { limits_of_engine self.new ≡ limits_of_engine self.old }
        ensures next_file { OnOk result (next_file_of_engine self.new ≡ next_file_of_engine self.old) }
        ensures any_moment { IsTrusted (D.state disk.old) → (l : Layout)
            → StandsForLayout (D.state disk.old) self.old l
            → Spans (D.state disk.old) (D.state disk.new) (λ _. ⊤) (WorksIn live.now l) }
        ensures unspent { IfErr result EngineFaultIsUnspent }
        ensures sound { IsTrusted (D.state disk.old) → IfErr result TellsNoDamage }
        ensures goes { Goes (D.state disk.old) (D.state disk.new) }
        ensures cause { IsErrOf result EngineFault.Failed
            → Rose (D.state disk.old).faults (D.state disk.new).faults }
        ensures well { OnOk result ((D.state disk.new).faults ≡ (D.state disk.old).faults) }
    {
        match self.merging.take() {
            Some(merging) => {
                merging.complete(disk, &mut self.hand, live)?;
                Ok(true)
            }
            None => Ok(false),
        }
    }
}
