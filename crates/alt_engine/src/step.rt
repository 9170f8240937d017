//! A step: the first flush that applies, and else the merge that is under way or the beginning of one.

ghost use Rattle.std.specs.Prelude.{◌≡◌, ◌≢◌, ◌⊎◌, ◌<◌, ◌≤◌, ◌+◌, ⊤, ℕ, None, IfErr, IfOk, OnOk, IsErrOf};
ghost use Rattle.alt_base.specs.Counts.{Rose};
ghost use Rattle.alt_cells.specs.Walks.{RowList};
ghost use Rattle.alt_disk.specs.Disk.{IsTrusted, Goes};
ghost use Rattle.alt_disk.specs.Runs.{Spans};
ghost use Rattle.alt_layout.specs.Layout.{Layout};
ghost use Rattle.alt_layout.specs.Moments.{Has};
ghost use Rattle.alt_manifest.specs.Versions.{IsIn};
ghost use Rattle.alt_manifest.specs.declared.version.Version.{Version};
ghost use Rattle.alt_merging.specs.HandAdding.{AddsVersion, HasLast, HasOneOf, IsOverNewLog, LeavesOut, MakesNone};
ghost use Rattle.alt_merging.specs.HandDrafting.{IsSpentFor};
ghost use Rattle.alt_merging.specs.HandInHand.{HandStandsForLayout as HandStands, length_of};
ghost use Rattle.alt_merging.specs.HandMerging.{IsFirstMany, version_in};
ghost use Rattle.alt_merging.specs.HandOpened.{EngineFaultIsUnspent};
ghost use Rattle.alt_merging.specs.HandWorking.{AreAllFlushed, AreLive, IsCalm, IsFileSpent, IsFlushDone, IsLong, TellsNoDamage, LogIsShort, Works, WorksIn};
ghost use Rattle.alt_merging.specs.Mergings.{MergingStands, family_of_merging as merged_family, file_of_merging};
ghost use Rattle.alt_engine.specs.InHand.{IsFew, StandsForLayout, hand_of, limits_of_engine, merge_of, next_file_of_engine, next_write_of_engine};
ghost use Rattle.alt_engine.specs.Working.{BeginsMerge, MergeEnded, EndsMerge, Furthered, FurthersMerge, IsNeeded, KeepsMerge, MakesNoOther, NoneMany, most_files_of_task};

use crate::engine::Engine;
use crate::work::{Task, Worked};
use alt_compact::Stepped;
use alt_disk::Disk;
use alt_merging::{EngineFault, Merging};

impl Engine {
    /// Does the first action of a step that applies, where a merge under way is of a live family.
    pub(crate) fn step<D: Disk>(
        &mut self,
        disk: &mut D,
        live: &[u32],
    ) -> Result<Worked, EngineFault>
        requires ready { IsTrusted (D.state disk.old)
            → (l : Layout) × StandsForLayout (D.state disk.old) self.old l }
        requires live { AreLive live.now }
        requires keeps { KeepsMerge live.now self.old }
        ensures ok { OnOk result (IsTrusted (D.state disk.old) → (l : Layout)
            → StandsForLayout (D.state disk.old) self.old l
            → (m : Layout) × StandsForLayout (D.state disk.new) self.new m × Works live.now l m) }
        ensures next { next_write_of_engine self.new ≡ next_write_of_engine self.old }
        ensures limits { limits_of_engine self.new ≡ limits_of_engine self.old }
        ensures next_file { OnOk result (next_file_of_engine self.new
            ≤ next_file_of_engine self.old + most_files_of_task live.now) }
        ensures idle { IfOk result (λ w. w ≡ Worked.Idle → IsTrusted (D.state disk.old) → (l : Layout)
            → StandsForLayout (D.state disk.old) self.old l
            → (LogIsShort (hand_of self.old) × IsCalm live.now (hand_of self.old))
            × ((merge_of self.old ≡ None) × NoneMany live.now self.old)) }
        ensures idle_disk { IfOk result (λ w. w ≡ Worked.Idle → D.state disk.new ≡ D.state disk.old) }
        ensures idle_engine { IfOk result (λ w. w ≡ Worked.Idle → self.new ≡ self.old) }
        ensures went { IfOk result (λ w. w ≡ Worked.Went → IsTrusted (D.state disk.old) → (l : Layout)
            → StandsForLayout (D.state disk.old) self.old l
            → (LogIsShort (hand_of self.old) × IsCalm live.now (hand_of self.old))
            × (BeginsMerge live.now self.old self.new
            ⊎ FurthersMerge (D.state disk.old) (D.state disk.new) live.now self.old self.new)) }
        ensures done { IfOk result (λ w. w ≡ Worked.Done → IsTrusted (D.state disk.old) → (l : Layout)
            → StandsForLayout (D.state disk.old) self.old l
            → IsFlushDone live.now (hand_of self.old) (hand_of self.new)
            ⊎ ((LogIsShort (hand_of self.old) × IsCalm live.now (hand_of self.old))
            × EndsMerge (D.state disk.old) (D.state disk.new) live.now self.old self.new)) }
        ensures version { IfOk result (λ w. w ≡ Worked.Done → IsTrusted (D.state disk.old)
            → (l : Layout) → StandsForLayout (D.state disk.old) self.old l
            → (IsLong (hand_of self.old)
            × AreAllFlushed live.now (hand_of self.old) (hand_of self.new)
            × IsOverNewLog live.now (hand_of self.old) (hand_of self.new))
            ⊎ (LogIsShort (hand_of self.old)
            × LeavesOut live.now (hand_of self.old) (hand_of self.new))) }
        ensures adds { IfOk result (λ w. w ≡ Worked.Done → IsTrusted (D.state disk.old)
            → AddsVersion (D.state disk.new) (hand_of self.old) (hand_of self.new)) }
        ensures missing { OnOk result (IsTrusted (D.state disk.old) → (l : Layout)
            → StandsForLayout (D.state disk.old) self.old l
            → MakesNoOther (D.state disk.old) (D.state disk.new) self.old) }
        ensures one_version { IsTrusted (D.state disk.old) → (l : Layout)
            → StandsForLayout (D.state disk.old) self.old l → (w : Version)
            × Spans (D.state disk.old) (D.state disk.new) (λ _. ⊤)
            (HasOneOf (version_in (hand_of self.old)) w) }
        ensures length { OnOk result ((length_of (hand_of self.new) ≡ 0)
            ⊎ (LogIsShort (hand_of self.old)
            × (length_of (hand_of self.new) ≡ length_of (hand_of self.old)))) }
        ensures any_moment { IsTrusted (D.state disk.old) → (l : Layout)
            → StandsForLayout (D.state disk.old) self.old l
            → Spans (D.state disk.old) (D.state disk.new) (λ _. ⊤) (WorksIn live.now l) }
        ensures spent { IfErr result IsFileSpent }
        ensures needed { IsTrusted (D.state disk.old)
            → IfErr result (IsNeeded Task.Step live.now self.old) }
        ensures sound { IsTrusted (D.state disk.old) → IfErr result TellsNoDamage }
        ensures goes { Goes (D.state disk.old) (D.state disk.new) }
        ensures cause { IsErrOf result EngineFault.Failed
            → Rose (D.state disk.old).faults (D.state disk.new).faults }
        ensures well { OnOk result ((D.state disk.new).faults ≡ (D.state disk.old).faults) }
    {
        let flushed = self.hand.flush_due(disk, live)?;
        if flushed {
            self.many = self.hand.any_many();
            return Ok(Worked::Done);
        }
        match self.merging.take() {
            Some(merging) => self.go_on(disk, live, merging),
            None => self.begin(disk, live),
        }
    }

    /// Brings a merge 256 rows further, and ends it where no more are left.
    fn go_on<D: Disk>(
        &mut self,
        disk: &mut D,
        live: &[u32],
        merging: Merging,
    ) -> Result<Worked, EngineFault>
        requires ready { IsTrusted (D.state disk.old) → (l : Layout) × (left : RowList)
            × HandStands (D.state disk.old) (hand_of self.old) l
            × MergingStands (D.state disk.old) (hand_of self.old) merging left }
        requires live { IsIn live.now (merged_family merging) }
        requires none { merge_of self.old ≡ None }
        requires few { IsTrusted (D.state disk.old) → IsFew self.old }
        ensures ok { OnOk result (IsTrusted (D.state disk.old) → (l : Layout)
            → HandStands (D.state disk.old) (hand_of self.old) l
            → (m : Layout) × StandsForLayout (D.state disk.new) self.new m × Works live.now l m) }
        ensures next { next_write_of_engine self.new ≡ next_write_of_engine self.old }
        ensures limits { limits_of_engine self.new ≡ limits_of_engine self.old }
        ensures next_file { OnOk result (next_file_of_engine self.new ≡ next_file_of_engine self.old) }
        ensures length { length_of (hand_of self.new) ≡ length_of (hand_of self.old) }
        ensures busy { IfOk result (λ w. w ≡ Worked.Idle → ⊥) }
        ensures went { IfOk result (λ w. w ≡ Worked.Went → IsTrusted (D.state disk.old) → (l : Layout)
            → HandStands (D.state disk.old) (hand_of self.old) l
            → Furthered (D.state disk.old) (D.state disk.new) self.old self.new merging) }
        ensures done { IfOk result (λ w. w ≡ Worked.Done → IsTrusted (D.state disk.old) → (l : Layout)
            → HandStands (D.state disk.old) (hand_of self.old) l
            → MergeEnded (D.state disk.old) (D.state disk.new) self.old self.new merging) }
        ensures leaves_out { IfOk result (λ w. w ≡ Worked.Done
            → LeavesOut live.now (hand_of self.old) (hand_of self.new)) }
        ensures adds { IfOk result (λ w. w ≡ Worked.Done → IsTrusted (D.state disk.old)
            → AddsVersion (D.state disk.new) (hand_of self.old) (hand_of self.new)) }
        ensures missing { OnOk result (IsTrusted (D.state disk.old) → (l : Layout)
            → HandStands (D.state disk.old) (hand_of self.old) l → (f : ℕ)
            → f ≢ file_of_merging merging → f < next_file_of_engine self.old → (D.state disk.old).file f ≡ None
            → (D.state disk.new).file f ≡ None) }
        ensures one_version { IsTrusted (D.state disk.old) → (l : Layout)
            → HandStands (D.state disk.old) (hand_of self.old) l → (w : Version)
            × Spans (D.state disk.old) (D.state disk.new) (λ _. ⊤)
            (HasOneOf (version_in (hand_of self.old)) w) }
        ensures any_moment { IsTrusted (D.state disk.old) → (l : Layout)
            → HandStands (D.state disk.old) (hand_of self.old) l
            → Spans (D.state disk.old) (D.state disk.new) (λ _. ⊤) (WorksIn live.now l) }
        ensures unspent { IfErr result EngineFaultIsUnspent }
        ensures sound { IsTrusted (D.state disk.old) → IfErr result TellsNoDamage }
        ensures goes { Goes (D.state disk.old) (D.state disk.new) }
        ensures cause { IsErrOf result EngineFault.Failed
            → Rose (D.state disk.old).faults (D.state disk.new).faults }
        ensures well { OnOk result ((D.state disk.new).faults ≡ (D.state disk.old).faults) }
    {
        let mut merging = merging;
        match merging.step(disk, &self.hand)? {
            Stepped::More => {
                self.merging = Some(merging);
                Ok(Worked::Went)
            }
            Stepped::Done => {
                merging.end(disk, &mut self.hand, live)?;
                self.many = self.hand.any_many();
                Ok(Worked::Done)
            }
        }
    }

    /// Begins a merge of the files of the first live family that has many.
    fn begin<D: Disk>(&mut self, disk: &mut D, live: &[u32]) -> Result<Worked, EngineFault>
        requires ready { IsTrusted (D.state disk.old)
            → (l : Layout) × StandsForLayout (D.state disk.old) self.old l }
        requires none { merge_of self.old ≡ None }
        ensures ok { OnOk result (IsTrusted (D.state disk.old) → (l : Layout)
            → StandsForLayout (D.state disk.old) self.old l → StandsForLayout (D.state disk.new) self.new l) }
        ensures next { next_write_of_engine self.new ≡ next_write_of_engine self.old }
        ensures limits { limits_of_engine self.new ≡ limits_of_engine self.old }
        ensures next_file { OnOk result (next_file_of_engine self.new ≤ next_file_of_engine self.old + 1) }
        ensures length { length_of (hand_of self.new) ≡ length_of (hand_of self.old) }
        ensures idle { IfOk result (λ w. w ≡ Worked.Idle → IsTrusted (D.state disk.old) → (l : Layout)
            → StandsForLayout (D.state disk.old) self.old l → NoneMany live.now self.old) }
        ensures idle_disk { IfOk result (λ w. w ≡ Worked.Idle → D.state disk.new ≡ D.state disk.old) }
        ensures idle_engine { IfOk result (λ w. w ≡ Worked.Idle → self.new ≡ self.old) }
        ensures went { IfOk result (λ w. w ≡ Worked.Went → BeginsMerge live.now self.old self.new) }
        ensures undone { IfOk result (λ w. w ≡ Worked.Done → ⊥) }
        ensures missing { IsTrusted (D.state disk.old)
            → MakesNone (D.state disk.old) (D.state disk.new) (next_file_of_engine self.old) }
        ensures last { IsTrusted (D.state disk.old) → (l : Layout)
            → StandsForLayout (D.state disk.old) self.old l → Spans (D.state disk.old) (D.state disk.new)
            (λ _. ⊤) (HasLast (version_in (hand_of self.old))) }
        ensures any_moment { IsTrusted (D.state disk.old) → (l : Layout)
            → StandsForLayout (D.state disk.old) self.old l
            → Spans (D.state disk.old) (D.state disk.new) (λ _. ⊤) (Has l) }
        ensures spent { IfErr result IsFileSpent }
        ensures needed { IfErr result (λ fault. ((family : ℕ) × IsFirstMany live.now (hand_of self.old) family)
            × IsSpentFor (next_file_of_engine self.old + 1) fault) }
        ensures goes { Goes (D.state disk.old) (D.state disk.new) }
        ensures cause { IsErrOf result EngineFault.Failed
            → Rose (D.state disk.old).faults (D.state disk.new).faults }
        ensures well { OnOk result ((D.state disk.new).faults ≡ (D.state disk.old).faults) }
    {
        if !self.many {
            return Ok(Worked::Idle);
        }
        match self.hand.first_many(live) {
            Some(family) => {
                let merging = Merging::start(self.alloc, disk, &mut self.hand, family)?;
                self.merging = Some(merging);
                Ok(Worked::Went)
            }
            None => Ok(Worked::Idle),
        }
    }
}
