//! A merge in one call.

ghost use Rattle.std.specs.Prelude.{◌≡◌, ◌≢◌, ◌<◌, ⊤, ℕ, [], None, IfErr, OnOk, IsErrOf};
ghost use Rattle.alt_base.specs.Counts.{Rose};
ghost use Rattle.alt_cells.specs.Walks.{RowList};
ghost use Rattle.alt_disk.specs.Disk.{IsTrusted, Goes};
ghost use Rattle.alt_disk.specs.Runs.{Spans};
ghost use Rattle.alt_layout.specs.Layout.{Layout};
ghost use Rattle.alt_layout.specs.Moments.{Has};
ghost use Rattle.alt_manifest.specs.Versions.{IsIn};
ghost use Rattle.alt_hand.specs.Adding.{AddsVersion, LeavesOut};
ghost use Rattle.alt_hand.specs.Carrying.{AreStill};
ghost use Rattle.alt_hand.specs.InHand.{HandStandsForLayout, length_of, limits_of, next_file_of, next_of};
ghost use Rattle.alt_hand.specs.Merging.{files_at, memory_at};
ghost use Rattle.alt_hand.specs.Opened.{EngineFaultIsUnspent};
ghost use Rattle.alt_hand.specs.Working.{TellsNoDamage, Works, WorksIn};
ghost use Rattle.alt_merging.specs.Mergings.{GivesWay, MergingStands, family_of_merging, file_of_merging, taken_of};

use crate::merging::Merging;
use alt_compact::Stepped;
use alt_disk::Disk;
use alt_hand::{EngineFault, Hand};

impl Merging {
    /// Takes all rows that are left, and ends it. After an Err the engine is spent.
    pub fn complete<D: Disk>(
        self,
        disk: &mut D,
        hand: &mut Hand,
        live: &[u32],
    ) -> Result<(), EngineFault>
        requires ready { IsTrusted (D.state disk.old) → (l : Layout) × (left : RowList)
            × HandStandsForLayout (D.state disk.old) hand.old l
            × MergingStands (D.state disk.old) hand.old self left }
        requires live { IsIn live.now (family_of_merging self) }
        ensures ok { OnOk result (IsTrusted (D.state disk.old) → (l : Layout)
            → HandStandsForLayout (D.state disk.old) hand.old l
            → (m : Layout) × HandStandsForLayout (D.state disk.new) hand.new m × Works live.now l m) }
        ensures files { OnOk result (IsTrusted (D.state disk.old) → (l : Layout)
            → HandStandsForLayout (D.state disk.old) hand.old l
            → GivesWay (D.state disk.new) hand.old hand.new (family_of_merging self) (taken_of self)) }
        ensures others { OnOk result ((other : ℕ) → IsIn live.now other → other ≢ family_of_merging self
            → files_at hand.new other ≡ files_at hand.old other) }
        ensures still { OnOk result (IsTrusted (D.state disk.old) → (l : Layout)
            → HandStandsForLayout (D.state disk.old) hand.old l → (other : ℕ) → IsIn live.now other
            → other ≢ family_of_merging self
            → AreStill (D.state disk.old) (D.state disk.new) (files_at hand.old other)) }
        ensures memory { OnOk result ((other : ℕ) → IsIn live.now other
            → memory_at hand.new other ≡ memory_at hand.old other) }

        // There is one version more, without families that aren't live, and no file that wasn't there but its own.
        ensures leaves_out { OnOk result (LeavesOut live.now hand.old hand.new) }
        ensures adds { OnOk result (IsTrusted (D.state disk.old)
            → AddsVersion (D.state disk.new) hand.old hand.new) }
        ensures missing { OnOk result (IsTrusted (D.state disk.old) → (l : Layout)
            → HandStandsForLayout (D.state disk.old) hand.old l → (f : ℕ) → f ≢ file_of_merging self
            → f < next_file_of hand.old → (D.state disk.old).file f ≡ None
            → (D.state disk.new).file f ≡ None) }
        ensures next_file { OnOk result (next_file_of hand.new ≡ next_file_of hand.old) }
        ensures length { length_of hand.new ≡ length_of hand.old }
        ensures next { next_of hand.new ≡ next_of hand.old }
        ensures limits { limits_of hand.new ≡ limits_of hand.old }

        // A stop at any moment of the call, also one that fails, leaves the rows of live families.
        ensures any_moment { IsTrusted (D.state disk.old) → (l : Layout)
            → HandStandsForLayout (D.state disk.old) hand.old l
            → Spans (D.state disk.old) (D.state disk.new) (λ _. ⊤) (WorksIn live.now l) }
        ensures unspent { IfErr result EngineFaultIsUnspent }
        ensures sound { IsTrusted (D.state disk.old) → IfErr result TellsNoDamage }
        ensures goes { Goes (D.state disk.old) (D.state disk.new) }
        ensures cause { IsErrOf result EngineFault.Failed
            → Rose (D.state disk.old).faults (D.state disk.new).faults }
        ensures well { OnOk result ((D.state disk.new).faults ≡ (D.state disk.old).faults) }
    {
        let mut merging = self;
        merging.exhaust(disk, hand)?;
        merging.end(disk, hand, live)
    }

    /// Takes all rows that are left.
    fn exhaust<D: Disk>(&mut self, disk: &mut D, hand: &Hand) -> Result<(), EngineFault>
        requires { IsTrusted (D.state disk.old) → (l : Layout) × (left : RowList)
            × HandStandsForLayout (D.state disk.old) hand.now l
            × MergingStands (D.state disk.old) hand.now self.old left }
        ensures ok { IsTrusted (D.state disk.old) → (l : Layout)
            → HandStandsForLayout (D.state disk.old) hand.now l → HandStandsForLayout (D.state disk.new) hand.now l }
        ensures all { OnOk result (IsTrusted (D.state disk.old)
            → MergingStands (D.state disk.new) hand.now self.new []) }
        ensures family { family_of_merging self.new ≡ family_of_merging self.old }
        ensures taken { taken_of self.new ≡ taken_of self.old }
        ensures still { IsTrusted (D.state disk.old) → (other : ℕ)
            → AreStill (D.state disk.old) (D.state disk.new) (files_at hand.now other) }
        ensures file { file_of_merging self.new ≡ file_of_merging self.old }
        ensures only { IsTrusted (D.state disk.old) → (f : ℕ) → f ≢ file_of_merging self.old
            → (D.state disk.new).file f ≡ (D.state disk.old).file f }
        ensures any_moment { IsTrusted (D.state disk.old) → (l : Layout)
            → HandStandsForLayout (D.state disk.old) hand.now l
            → Spans (D.state disk.old) (D.state disk.new) (λ _. ⊤) (Has l) }
        ensures unspent { IfErr result EngineFaultIsUnspent }
        ensures sound { IsTrusted (D.state disk.old) → IfErr result TellsNoDamage }
        ensures goes { Goes (D.state disk.old) (D.state disk.new) }
        ensures cause { IsErrOf result EngineFault.Failed
            → Rose (D.state disk.old).faults (D.state disk.new).faults }
        ensures well { OnOk result ((D.state disk.new).faults ≡ (D.state disk.old).faults) }
    {
        'steps: for _ in 0..u64::MAX {
            match self.step(disk, hand) {
                Ok(Stepped::More) => {}
                Ok(Stepped::Done) => return Ok(()),
                Err(fault) => return Err(fault),
            }
        }
        // No files have so many rows.
        Err(EngineFault::NoMemory)
    }
}
