//! Work between requests: flushes of families, one by one or of all, and merges of their files.

ghost use Rattle.std.specs.Prelude.{◌≡◌, ◌≢◌, ◌⊎◌, ◌≤◌, ◌<◌, ◌+◌, ◌*◌, ⊤, ℕ, Some, None, IfErr, IfOk, OnOk, OnErr, IsErrOf};
ghost use Rattle.alt_base.specs.Counts.{Rose};
ghost use Rattle.alt_disk.specs.Disk.{IsTrusted, Goes};
ghost use Rattle.alt_disk.specs.Runs.{Spans};
ghost use Rattle.alt_layout.specs.Files.{IsOf};
ghost use Rattle.alt_layout.specs.Fresh.{versions_file};
ghost use Rattle.alt_layout.specs.Layout.{Layout};
ghost use Rattle.alt_layout.specs.Moments.{Has};
ghost use Rattle.alt_manifest.specs.Versions.{HasVersion, IsIn};
ghost use Rattle.alt_manifest.specs.declared.version.Version.{Version};
ghost use Rattle.alt_merging.specs.HandAdding.{HasLast, HasOneOf};
ghost use Rattle.alt_merging.specs.HandCarrying.{AreStill};
ghost use Rattle.alt_merging.specs.HandMerging.{files_at, memory_at, version_in};
ghost use Rattle.alt_merging.specs.Merged.{AreMerged};
ghost use Rattle.alt_merging.specs.Mergings.{family_of_merging as merged_family, file_of_merging};
ghost use Rattle.alt_merging.specs.declared.merging.Merging.{Merging};
ghost use Rattle.alt_merging.specs.HandWorking.{AreLive, HasEntries, IsFileSpent, TellsNoDamage, Works, WorksIn};
ghost use Rattle.alt_engine.specs.InHand.{StandsForLayout, hand_of, limits_of_engine, merge_of, next_file_of_engine, next_write_of_engine};
ghost use Rattle.alt_engine.specs.Versions.{IsAfter};
ghost use Rattle.alt_engine.specs.Working.{Did, IsIdle, LiveFamiliesAreMerged, IsNeeded, KeepsMerge, MakesNoOther, WasGivenUp, WasKept, Went, most_files_of_task};

use crate::engine::Engine;
use alt_disk::Disk;
use alt_flush::has;
use alt_merging::EngineFault;

/// What is to be done.
#[derive(Clone, Copy, Debug, PartialEq, Eq, Drop)]
pub enum Task {
    /// One step: the first action that applies.
    Step,
    /// All families with rows in memory are flushed.
    FlushAll,
    /// The merge under way is ended, and the files of all families are merged. No rows in memory are flushed.
    MergeAll,
}

/// What was done.
#[derive(Clone, Copy, Debug, PartialEq, Eq, Drop)]
pub enum Worked {
    /// Nothing applied.
    Idle,
    /// A merge was begun or went on, and isn't done.
    Went,
    /// It is done.
    Done,
}

impl Engine {
    /// Does a task on the families that are live. A merge of any other is given up before, whatever the task. After an Err the engine is
    /// spent.
    pub fn work<D: Disk>(
        &mut self,
        disk: &mut D,
        task: Task,
        live: &[u32],
    ) -> Result<Worked, EngineFault>
        requires ready { IsTrusted (D.state disk.old)
            → (l : Layout) × StandsForLayout (D.state disk.old) self.old l }
        requires live { AreLive live.now }
        ensures ok { OnOk result (IsTrusted (D.state disk.old) → (l : Layout)
            → StandsForLayout (D.state disk.old) self.old l
            → (m : Layout) × StandsForLayout (D.state disk.new) self.new m × Works live.now l m) }
        ensures next { next_write_of_engine self.new ≡ next_write_of_engine self.old }
        ensures limits { limits_of_engine self.new ≡ limits_of_engine self.old }
        // It takes one number of a file for each live family at most, and one more. But for that of a merge under way it makes no file
        // below them, where none is given up.
        ensures taken { OnOk result (next_file_of_engine self.new
            ≤ next_file_of_engine self.old + most_files_of_task live.now) }
        ensures missing { OnOk result (IsTrusted (D.state disk.old) → (l : Layout)
            → StandsForLayout (D.state disk.old) self.old l → KeepsMerge live.now self.old
            → MakesNoOther (D.state disk.old) (D.state disk.new) self.old) }

        // It is idle exactly where nothing applies, and then leaves all as it was, but for a merge that was given up.
        ensures idle { IfOk result (λ w. w ≡ Worked.Idle → IsTrusted (D.state disk.old) → (l : Layout)
            → StandsForLayout (D.state disk.old) self.old l
            → IsIdle task (D.state disk.old) live.now self.old) }
        ensures idle_disk { IfOk result (λ w. w ≡ Worked.Idle → KeepsMerge live.now self.old
            → D.state disk.new ≡ D.state disk.old) }
        ensures idle_engine { IfOk result (λ w. w ≡ Worked.Idle → KeepsMerge live.now self.old
            → self.new ≡ self.old) }
        ensures busy { IfOk result (λ w. (w ≡ Worked.Idle → ⊥) → IsTrusted (D.state disk.old)
            → (l : Layout) → StandsForLayout (D.state disk.old) self.old l
            → IsIdle task (D.state disk.old) live.now self.old → ⊥) }
        ensures went { IfOk result (λ w. w ≡ Worked.Went → IsTrusted (D.state disk.old) → (l : Layout)
            → StandsForLayout (D.state disk.old) self.old l → (task ≡ Task.Step)
            × Went (D.state disk.old) (D.state disk.new) live.now self.old self.new) }
        ensures done { IfOk result (λ w. w ≡ Worked.Done → IsTrusted (D.state disk.old) → (l : Layout)
            → StandsForLayout (D.state disk.old) self.old l
            → Did task (D.state disk.old) (D.state disk.new) live.now self.old self.new) }

        // A merge of a family that isn't live is given up, whatever follows: its unfinished file is gone.
        ensures given_up { OnOk result (IsTrusted (D.state disk.old) → (l : Layout)
            → StandsForLayout (D.state disk.old) self.old l → (j : Merging) → merge_of self.old ≡ Some j
            → (IsIn live.now (merged_family j) → ⊥) → (D.state disk.new).file (file_of_merging j) ≡ None) }

        // What is done adds a version, as the disk reads then: over a new log, or without families that aren't live. Its next file is the
        // engine's, and files that the one before names and it doesn't are gone.
        ensures version { IfOk result (λ w. w ≡ Worked.Done → IsTrusted (D.state disk.old)
            → (l : Layout) → StandsForLayout (D.state disk.old) self.old l
            → IsAfter task (D.state disk.old) (D.state disk.new) live.now self.old) }
        ensures next_file { IfOk result (λ k. k ≡ Worked.Done → IsTrusted (D.state disk.old)
            → (w : Version) → HasVersion w ((D.state disk.new).file versions_file)
            → w.next_file ≡ next_file_of_engine self.new) }
        ensures removed { IfOk result (λ k. k ≡ Worked.Done → IsTrusted (D.state disk.old)
            → (v w : Version) → HasVersion v ((D.state disk.old).file versions_file)
            → HasVersion w ((D.state disk.new).file versions_file) → (f : ℕ) → IsOf v f
            → (IsOf w f → ⊥) → (D.state disk.new).file f ≡ None) }

        // A step and a flush of all add one version at most: at each moment the last one is that from before, or one other.
        ensures one_version { task ≢ Task.MergeAll → IsTrusted (D.state disk.old) → (v : Version)
            → HasVersion v ((D.state disk.old).file versions_file) → (w : Version)
            × Spans (D.state disk.old) (D.state disk.new) (λ _. ⊤) (HasOneOf v w) }

        // Merges of all leave rows in memory as they are, and the files of each live family that are merged, unless a merge of them was under way.
        ensures memory { task ≡ Task.MergeAll → OnOk result ((family : ℕ) → IsIn live.now family
            → memory_at (hand_of self.new) family ≡ memory_at (hand_of self.old) family) }
        ensures kept { task ≡ Task.MergeAll → OnOk result (IsTrusted (D.state disk.old)
            → (family : ℕ) → IsIn live.now family
            → AreMerged (D.state disk.old) (files_at (hand_of self.old) family)
            → ((j : Merging) → merge_of self.old ≡ Some j → merged_family j ≢ family)
            → files_at (hand_of self.new) family ≡ files_at (hand_of self.old) family) }

        // A stop at any moment of the call, also one that fails, leaves the rows of live families.
        ensures any_moment { IsTrusted (D.state disk.old) → (l : Layout)
            → StandsForLayout (D.state disk.old) self.old l
            → Spans (D.state disk.old) (D.state disk.new) (λ _. ⊤) (WorksIn live.now l) }

        // After a step the entries of the log are fewer than 16 times the bytes at which a family is flushed; after a flush of all there are none; after
        // merges of all each live family has one file at most, without tombstones.
        ensures step { task ≡ Task.Step → 0 < (limits_of_engine self.old).flush
            → OnOk result (IsTrusted (D.state disk.old) → (n : ℕ)
            → HasEntries (D.state disk.new).file n → n < 16 * (limits_of_engine self.old).flush) }
        ensures flush_all { task ≡ Task.FlushAll → OnOk result (IsTrusted (D.state disk.old)
            → (n : ℕ) → HasEntries (D.state disk.new).file n → n ≡ 0) }
        ensures merge_all { task ≡ Task.MergeAll → OnOk result (IsTrusted (D.state disk.old)
            → LiveFamiliesAreMerged live.now (D.state disk.new).file) }

        // A number is spent where file 2^32 - 1 is wanted.
        ensures spent { IfErr result IsFileSpent }
        ensures needed { IsTrusted (D.state disk.old)
            → IfErr result (IsNeeded task live.now self.old) }
        ensures undamaged { IsTrusted (D.state disk.old) → IfErr result TellsNoDamage }
        ensures goes { Goes (D.state disk.old) (D.state disk.new) }
        ensures cause { IsErrOf result EngineFault.Failed
            → Rose (D.state disk.old).faults (D.state disk.new).faults }
        ensures well { OnOk result ((D.state disk.new).faults ≡ (D.state disk.old).faults) }
    {
        self.give_up(disk, live)?;
        match task {
            Task::Step => self.step(disk, live),
            Task::FlushAll => self.flush_all(disk, live),
            Task::MergeAll => self.merge_all(disk, live),
        }
    }

    /// Gives the merge under way up where its family isn't live.
    fn give_up<D: Disk>(&mut self, disk: &mut D, live: &[u32]) -> Result<(), EngineFault>
        requires { IsTrusted (D.state disk.old)
            → (l : Layout) × StandsForLayout (D.state disk.old) self.old l }
        ensures ok { OnOk result (IsTrusted (D.state disk.old) → (l : Layout)
            → StandsForLayout (D.state disk.old) self.old l → StandsForLayout (D.state disk.new) self.new l) }
        ensures turned { OnOk result (WasKept (D.state disk.old) (D.state disk.new) live.now self.old
            self.new ⊎ WasGivenUp live.now self.old self.new) }
        ensures hand { hand_of self.new ≡ hand_of self.old }
        ensures gone { OnOk result (IsTrusted (D.state disk.old) → (j : Merging)
            → merge_of self.old ≡ Some j → (IsIn live.now (merged_family j) → ⊥)
            → (D.state disk.new).file (file_of_merging j) ≡ None) }
        ensures still { IsTrusted (D.state disk.old) → (l : Layout)
            → StandsForLayout (D.state disk.old) self.old l → (family : ℕ)
            → AreStill (D.state disk.old) (D.state disk.new) (files_at (hand_of self.old) family) }
        ensures last { IsTrusted (D.state disk.old) → (l : Layout)
            → StandsForLayout (D.state disk.old) self.old l → Spans (D.state disk.old) (D.state disk.new)
            (λ _. ⊤) (HasLast (version_in (hand_of self.old))) }
        ensures any_moment { IsTrusted (D.state disk.old) → (l : Layout)
            → StandsForLayout (D.state disk.old) self.old l
            → Spans (D.state disk.old) (D.state disk.new) (λ _. ⊤) (Has l) }
        ensures failed { IfErr result (λ fault. fault ≡ EngineFault.Failed) }
        ensures goes { Goes (D.state disk.old) (D.state disk.new) }
        ensures cause { OnErr result (Rose (D.state disk.old).faults (D.state disk.new).faults) }
        ensures well { OnOk result ((D.state disk.new).faults ≡ (D.state disk.old).faults) }
    {
        match self.merging.take() {
            Some(merging) => {
                if has(live, merging.family()) {
                    self.merging = Some(merging);
                    return Ok(());
                }
                merging.give_up(disk, &self.hand)
            }
            None => Ok(()),
        }
    }
}
