//! Flushes: of all families, over a new segment, or of one.

ghost use Rattle.std.specs.Prelude.{◌≡◌, ◌+◌, ◌++◌, ℕ, OnOk, IfErr, IsErrOf, ⊤};
ghost use Rattle.std.specs.FinMap.{entries};
ghost use Rattle.alt_base.specs.Counts.{Rose};
ghost use Rattle.alt_disk.specs.Disk.{IsTrusted, Goes};
ghost use Rattle.alt_disk.specs.Runs.{Spans};
ghost use Rattle.alt_layout.specs.Layout.{Layout};
ghost use Rattle.alt_manifest.specs.Versions.{IsIn, RiseFrom};
ghost use Rattle.alt_families.specs.Families.{rows_in};
ghost use Rattle.alt_hand.specs.Adding.{AddsVersion, HasOneOf, IsOverNewLog, LeavesOut, MakesNone};
ghost use Rattle.alt_hand.specs.Carrying.{CarriesFamily};
ghost use Rattle.alt_hand.specs.Drafting.{Empties, EmptiedIn, IsSpentFor, files_for};
ghost use Rattle.alt_hand.specs.InHand.{HandStandsForLayout, family_of, length_of, limits_of, next_file_of, next_of};
ghost use Rattle.alt_hand.specs.Merging.{version_in};
ghost use Rattle.alt_hand.specs.Working.{AreAllFlushed, IsAllFor, IsOneFlushed};

use crate::hand::Hand;
use alt_base::NoMemory;
use alt_disk::Disk;
use alt_drafts::{EngineFault, flush_each, flush_rows, leave_dead};
use alt_flush::{over_new_log, renumbered};
use alt_gatelog::{Form, GateLog};
use alt_manifest::Version;

impl Hand {
    /// Puts the rows in memory of each live family into a file of its own, under a new and empty log. After an Err the engine is spent.
    pub fn flush_all<D: Disk>(&mut self, disk: &mut D, live: &[u32]) -> Result<(), EngineFault>
        requires ready { IsTrusted (D.state disk.old)
            → (l : Layout) × HandStandsForLayout (D.state disk.old) self.old l }
        requires live { RiseFrom 0 live.now }
        ensures ok { OnOk result (IsTrusted (D.state disk.old) → (l : Layout)
            → HandStandsForLayout (D.state disk.old) self.old l
            → (m : Layout) × HandStandsForLayout (D.state disk.new) self.new m × Empties live.now l m) }
        ensures next { next_of self.new ≡ next_of self.old }
        ensures limits { limits_of self.new ≡ limits_of self.old }
        ensures length { OnOk result (length_of self.new ≡ 0) }
        ensures flushed { OnOk result (AreAllFlushed live.now self.old self.new) }

        // There is one version more, over the new log, which names no family that isn't live.
        ensures new_log { OnOk result (IsTrusted (D.state disk.old) → (l : Layout)
            → HandStandsForLayout (D.state disk.old) self.old l → IsOverNewLog live.now self.old self.new) }
        ensures adds { OnOk result (IsTrusted (D.state disk.old)
            → AddsVersion (D.state disk.new) self.old self.new) }
        ensures missing { OnOk result (IsTrusted (D.state disk.old) → (l : Layout)
            → HandStandsForLayout (D.state disk.old) self.old l
            → MakesNone (D.state disk.old) (D.state disk.new) (next_file_of self.old)) }
        ensures one_version { IsTrusted (D.state disk.old) → (l : Layout)
            → HandStandsForLayout (D.state disk.old) self.old l → (w : Version)
            × Spans (D.state disk.old) (D.state disk.new) (λ _. ⊤) (HasOneOf (version_in self.old) w) }

        // A merge of files of a live family under way stays one.
        ensures carries { OnOk result (IsTrusted (D.state disk.old) → (l : Layout)
            → HandStandsForLayout (D.state disk.old) self.old l → (family : ℕ) → IsIn live.now family
            → CarriesFamily (D.state disk.old) (D.state disk.new) self.old self.new family) }
        ensures any_moment { IsTrusted (D.state disk.old) → (l : Layout)
            → HandStandsForLayout (D.state disk.old) self.old l
            → Spans (D.state disk.old) (D.state disk.new) (λ _. ⊤) (EmptiedIn live.now l) }
        ensures spent { IfErr result (IsAllFor live.now self.old) }
        ensures goes { Goes (D.state disk.old) (D.state disk.new) }
        ensures cause { IsErrOf result EngineFault.Failed
            → Rose (D.state disk.old).faults (D.state disk.new).faults }
        ensures well { OnOk result ((D.state disk.new).faults ≡ (D.state disk.old).faults) }
    {
        let mut left = Vec::new(self.alloc);
        let first = renumbered(
            self.alloc,
            self.manifest.current(),
            self.next_file,
            self.next,
        )?;
        put_segments(&first, &mut left)?;
        let alive = leave_dead(self.alloc, &mut self.families, first, live, &mut left)?;
        let flushed = flush_each(self.alloc, disk, &mut self.families, live, alive)?;
        if flushed.next_file == u32::MAX {
            return Err(EngineFault::Spent {
                number: flushed.next_file as u64,
            });
        }
        let log = GateLog::make(self.alloc, disk, flushed.next_file, Form::Two)?;
        let draft = over_new_log(self.alloc, &flushed)?;
        self.log = log;
        self.length = 0;
        self.publish(disk, draft, left.as_slice())
    }

    /// Puts the rows in memory of one family into a file. After an Err the engine is spent.
    pub(crate) fn flush_one<D: Disk>(
        &mut self,
        disk: &mut D,
        live: &[u32],
        family: u32,
    ) -> Result<(), EngineFault>
        requires ready { IsTrusted (D.state disk.old)
            → (l : Layout) × HandStandsForLayout (D.state disk.old) self.old l }
        requires live { IsIn live.now family }
        ensures ok { OnOk result (IsTrusted (D.state disk.old) → (l : Layout)
            → HandStandsForLayout (D.state disk.old) self.old l
            → (m : Layout) × HandStandsForLayout (D.state disk.new) self.new m × Empties live.now l m) }
        ensures next { next_of self.new ≡ next_of self.old }
        ensures limits { limits_of self.new ≡ limits_of self.old }
        ensures length { OnOk result (length_of self.new ≡ length_of self.old) }
        ensures flushed { OnOk result (IsOneFlushed live.now self.old self.new family) }
        ensures leaves_out { OnOk result (LeavesOut live.now self.old self.new) }
        ensures adds { OnOk result (IsTrusted (D.state disk.old)
            → AddsVersion (D.state disk.new) self.old self.new) }
        ensures missing { OnOk result (IsTrusted (D.state disk.old) → (l : Layout)
            → HandStandsForLayout (D.state disk.old) self.old l
            → MakesNone (D.state disk.old) (D.state disk.new) (next_file_of self.old)) }
        ensures one_version { IsTrusted (D.state disk.old) → (l : Layout)
            → HandStandsForLayout (D.state disk.old) self.old l → (w : Version)
            × Spans (D.state disk.old) (D.state disk.new) (λ _. ⊤) (HasOneOf (version_in self.old) w) }
        ensures carries { OnOk result (IsTrusted (D.state disk.old) → (l : Layout)
            → HandStandsForLayout (D.state disk.old) self.old l → (other : ℕ) → IsIn live.now other
            → CarriesFamily (D.state disk.old) (D.state disk.new) self.old self.new other) }
        ensures any_moment { IsTrusted (D.state disk.old) → (l : Layout)
            → HandStandsForLayout (D.state disk.old) self.old l
            → Spans (D.state disk.old) (D.state disk.new) (λ _. ⊤) (EmptiedIn live.now l) }
        ensures spent { IfErr result (IsSpentFor (self.old.next_file
            + files_for (entries (rows_in (family_of self.old family))))) }
        ensures goes { Goes (D.state disk.old) (D.state disk.new) }
        ensures cause { IsErrOf result EngineFault.Failed
            → Rose (D.state disk.old).faults (D.state disk.new).faults }
        ensures well { OnOk result ((D.state disk.new).faults ≡ (D.state disk.old).faults) }
    {
        let mut left = Vec::new(self.alloc);
        let first = renumbered(
            self.alloc,
            self.manifest.current(),
            self.next_file,
            self.next,
        )?;
        let alive = leave_dead(self.alloc, &mut self.families, first, live, &mut left)?;
        let draft = flush_rows(self.alloc, disk, &mut self.families, family, alive)?;
        self.publish(disk, draft, left.as_slice())
    }
}

/// Puts the segments of a version at the end of the list.
fn put_segments(version: &Version, left: &mut Vec<u32>) -> Result<(), NoMemory>
    ensures { OnOk result (left.new.items ≡ left.old.items ++ version.now.segments) }
{
    left.extend_from_slice(version.segments.as_slice())?;
    Ok(())
}
