//! Work between requests: none of it changes the state.

ghost use Rattle.std.specs.Prelude.{◌≡◌, ◌≤◌, ◌<◌, ◌+◌, ◌*◌, ⊤, ℕ, IfErr, IfOk, OnOk, IsErrOf};
ghost use Rattle.alt_base.specs.Counts.{Rose};
ghost use Rattle.alt_disk.specs.Disk.{IsTrusted, Goes};
ghost use Rattle.alt_disk.specs.Runs.{Spans};
ghost use Rattle.alt_rowchanges.specs.OpeningEngineWorking.{Did, IsIdle, Went};
ghost use Rattle.alt_rowchanges.specs.OpeningHandWorking.{HasEntries};
ghost use Rattle.alt_machine.specs.State.{State};
ghost use Rattle.alt_tables.specs.Faults.{IsWorkFault};
ghost use Rattle.alt_tables.specs.FilesLeft.{LacksFile, most_files};
ghost use Rattle.alt_tables.specs.Images.{FilesStandFor};
ghost use Rattle.alt_tables.specs.Merged.{IsMergedFor};
ghost use Rattle.alt_tables.specs.Stands.{AreReady, KeepsLimits, Stands, bounds_of, engine_of, limits_of_tables, live_of};

use crate::tables::Tables;
use alt_disk::Disk;
use alt_rowchanges::{TableFault, Task, Worked};

impl Tables {
    /// Does a task of the engine, in which the families of tables are live. After an Err the tables are spent.
    pub fn work<D: Disk>(&mut self, disk: &mut D, task: Task) -> Result<Worked, TableFault>
        requires ready { AreReady (D.state disk.old) self.old }
        ensures ok { OnOk result ((s : State) → Stands (D.state disk.old) self.old s
            → Stands (D.state disk.new) self.new s) }
        ensures kept { KeepsLimits self.old self.new }

        // What is answered is what the engine did with the families of tables: Idle comes exactly where nothing applies to these.
        ensures idle { IfOk result (λ w. w ≡ Worked.Idle → (s : State)
            → Stands (D.state disk.old) self.old s
            → IsIdle task (D.state disk.old) (live_of self.old) (engine_of self.old)) }
        ensures busy { IfOk result (λ w. (w ≡ Worked.Idle → ⊥) → (s : State)
            → Stands (D.state disk.old) self.old s
            → IsIdle task (D.state disk.old) (live_of self.old) (engine_of self.old) → ⊥) }
        ensures went { IfOk result (λ w. w ≡ Worked.Went → (s : State)
            → Stands (D.state disk.old) self.old s → (task ≡ Task.Step)
            × Went (D.state disk.old) (D.state disk.new) (live_of self.old)
            (engine_of self.old) (engine_of self.new)) }
        ensures done { IfOk result (λ w. w ≡ Worked.Done → (s : State)
            → Stands (D.state disk.old) self.old s
            → Did task (D.state disk.old) (D.state disk.new) (live_of self.old)
            (engine_of self.old) (engine_of self.new)) }

        // A stop at any moment of the call, also one that fails, leaves files that stand for the state.
        ensures disk { (s : State) → Stands (D.state disk.old) self.old s
            → Spans (D.state disk.old) (D.state disk.new) (λ _. ⊤) (FilesStandFor s) }

        // After a step the entries of the log are fewer than 16 times the bytes at which a family is flushed; after a flush of all there
        // are none; after merges of all the families of tables have one file each at most, without tombstones.
        ensures step { task ≡ Task.Step → 0 < (limits_of_tables self.old).flush
            → OnOk result (IsTrusted (D.state disk.old) → (n : ℕ)
            → HasEntries (D.state disk.new).file n → n < 16 * (limits_of_tables self.old).flush) }
        ensures flush_all { task ≡ Task.FlushAll → OnOk result (IsTrusted (D.state disk.old)
            → (n : ℕ) → HasEntries (D.state disk.new).file n → n ≡ 0) }
        ensures merge_all { task ≡ Task.MergeAll → OnOk result (IsTrusted (D.state disk.old)
            → (s : State) → Stands (D.state disk.old) self.old s
            → IsMergedFor s (D.state disk.new).file) }

        // A number is told where the files that the task had to make went beyond file 2^32 - 1, and it takes so many at most.
        ensures lacks { IsTrusted (D.state disk.old) → IfErr result (LacksFile task self.old) }
        ensures fault { (s : State) → Stands (D.state disk.old) self.old s
            → IfErr result (IsWorkFault ((bounds_of self.old).file + most_files)) }
        ensures files { (s : State) → Stands (D.state disk.old) self.old s → OnOk result
            ((bounds_of self.new).file ≤ (bounds_of self.old).file + most_files) }
        ensures goes { Goes (D.state disk.old) (D.state disk.new) }
        ensures cause { IsErrOf result TableFault.Failed
            → Rose (D.state disk.old).faults (D.state disk.new).faults }
    {
        match self.engine.work(disk, task, self.live.as_slice()) {
            Ok(worked) => Ok(worked),
            Err(fault) => Err(TableFault::from(fault)),
        }
    }
}
