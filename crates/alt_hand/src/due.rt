//! The flushes that a step makes.

ghost use Rattle.std.specs.Prelude.{◌≡◌, ◌⊎◌, ⊤, ℕ, true, false, IfErr, IfOk, OnOk, IsErrOf};
ghost use Rattle.alt_base.specs.Counts.{Rose};
ghost use Rattle.alt_disk.specs.Disk.{IsTrusted, Goes};
ghost use Rattle.alt_disk.specs.Runs.{Spans};
ghost use Rattle.alt_layout.specs.Layout.{Layout};
ghost use Rattle.alt_manifest.specs.Versions.{IsIn, RiseFrom};
ghost use Rattle.alt_manifest.specs.declared.version.Version.{Version};
ghost use Rattle.alt_hand.specs.Adding.{AddsVersion, HasOneOf, IsOverNewLog, LeavesOut, MakesNone};
ghost use Rattle.alt_hand.specs.Carrying.{CarriesFamily};
ghost use Rattle.alt_hand.specs.Drafting.{Empties, EmptiedIn};
ghost use Rattle.alt_hand.specs.InHand.{HandStandsForLayout, length_of, limits_of, next_file_of, next_of};
ghost use Rattle.alt_hand.specs.Merging.{version_in};
ghost use Rattle.alt_hand.specs.Working.{AreAllFlushed, IsCalm, IsDueFor, IsFlushDone, IsLong, LogIsShort, most_entries};

use crate::hand::Hand;
use alt_disk::Disk;
use alt_drafts::{EngineFault, first_full};

impl Hand {
    /// Whether the log has entries.
    pub fn has_entries(&self) -> bool
        ensures none { result ≡ false → length_of self.now ≡ 0 }
        ensures some { result ≡ true → length_of self.now ≡ 0 → ⊥ }
    {
        self.length != 0
    }

    /// Flushes all families where the log is long, and else the first of the live ones that is full; false where there is none. After
    /// an Err the engine is spent.
    pub fn flush_due<D: Disk>(&mut self, disk: &mut D, live: &[u32]) -> Result<bool, EngineFault>
        requires ready { IsTrusted (D.state disk.old)
            → (l : Layout) × HandStandsForLayout (D.state disk.old) self.old l }
        requires live { RiseFrom 0 live.now }
        ensures ok { OnOk result (IsTrusted (D.state disk.old) → (l : Layout)
            → HandStandsForLayout (D.state disk.old) self.old l
            → (m : Layout) × HandStandsForLayout (D.state disk.new) self.new m × Empties live.now l m) }
        ensures next { next_of self.new ≡ next_of self.old }
        ensures limits { limits_of self.new ≡ limits_of self.old }
        ensures idle { IfOk result (λ done. done ≡ false → LogIsShort self.old
            × (IsTrusted (D.state disk.old) → (l : Layout) → HandStandsForLayout (D.state disk.old) self.old l
            → IsCalm live.now self.old)) }
        ensures idle_disk { IfOk result (λ done. done ≡ false → D.state disk.new ≡ D.state disk.old) }
        ensures idle_hand { IfOk result (λ done. done ≡ false → self.new ≡ self.old) }
        ensures done { IfOk result (λ done. done ≡ true
            → IsFlushDone live.now self.old self.new) }

        // Then there is one version more: over a new log where all were flushed, and else without families that aren't live.
        ensures version { IfOk result (λ done. done ≡ true → IsTrusted (D.state disk.old)
            → (l : Layout) → HandStandsForLayout (D.state disk.old) self.old l
            → (IsLong self.old × AreAllFlushed live.now self.old self.new
            × IsOverNewLog live.now self.old self.new)
            ⊎ (LogIsShort self.old × LeavesOut live.now self.old self.new)) }
        ensures adds { IfOk result (λ done. done ≡ true → IsTrusted (D.state disk.old)
            → AddsVersion (D.state disk.new) self.old self.new) }
        ensures missing { OnOk result (IsTrusted (D.state disk.old) → (l : Layout)
            → HandStandsForLayout (D.state disk.old) self.old l
            → MakesNone (D.state disk.old) (D.state disk.new) (next_file_of self.old)) }
        ensures one_version { IsTrusted (D.state disk.old) → (l : Layout)
            → HandStandsForLayout (D.state disk.old) self.old l → (w : Version)
            × Spans (D.state disk.old) (D.state disk.new) (λ _. ⊤) (HasOneOf (version_in self.old) w) }
        ensures length { OnOk result ((length_of self.new ≡ 0)
            ⊎ (LogIsShort self.old × (length_of self.new ≡ length_of self.old))) }

        // A merge of files of a live family under way stays one.
        ensures carries { OnOk result (IsTrusted (D.state disk.old) → (l : Layout)
            → HandStandsForLayout (D.state disk.old) self.old l → (family : ℕ) → IsIn live.now family
            → CarriesFamily (D.state disk.old) (D.state disk.new) self.old self.new family) }

        // A stop at any moment of the call, also one that fails, leaves the rows, or these without some of families that aren't live.
        ensures any_moment { IsTrusted (D.state disk.old) → (l : Layout)
            → HandStandsForLayout (D.state disk.old) self.old l
            → Spans (D.state disk.old) (D.state disk.new) (λ _. ⊤) (EmptiedIn live.now l) }
        ensures spent { IfErr result (IsDueFor live.now self.old) }
        ensures goes { Goes (D.state disk.old) (D.state disk.new) }
        ensures cause { IsErrOf result EngineFault.Failed
            → Rose (D.state disk.old).faults (D.state disk.new).faults }
        ensures well { OnOk result ((D.state disk.new).faults ≡ (D.state disk.old).faults) }
    {
        if self.length >= most_entries(self.limits.flush) {
            self.flush_all(disk, live)?;
            return Ok(true);
        }
        if !self.full {
            return Ok(false);
        }
        match first_full(&self.families, live, self.limits.flush) {
            Some(family) => {
                self.flush_one(disk, live, family)?;
                Ok(true)
            }
            None => Ok(false),
        }
    }
}

/// From so many bytes of entries on a step flushes all families.
fn most_entries(flush: u64) -> u64
    ensures { result ≡ most_entries flush }
{
    if flush >= 1 << 58 {
        return 1 << 62;
    }
    16 * flush
}
