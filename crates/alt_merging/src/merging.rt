//! A merge of a family's files under way: its beginning, its steps, its end, or that it is given up.

ghost use Rattle.std.specs.Prelude.{◌≡◌, ◌≢◌, ◌<◌, ◌+◌, ◌-◌, ◌^◌, ⊤, ℕ, Err, IfOk, IfErr, OnOk, OnErr, IsErrOf, None, [], drop, length, take};
ghost use Rattle.alt_base.specs.Counts.{Rose};
ghost use Rattle.alt_cells.specs.Walks.{RowList};
ghost use Rattle.alt_compact.specs.Jobs.{StepSays};
ghost use Rattle.alt_disk.specs.Disk.{IsTrusted, Goes};
ghost use Rattle.alt_disk.specs.Runs.{Spans};
ghost use Rattle.alt_layout.specs.Layout.{Layout};
ghost use Rattle.alt_layout.specs.Moments.{Has};
ghost use Rattle.alt_manifest.specs.Versions.{IsIn};
ghost use Rattle.alt_manifest.specs.declared.version.Version.{Version};
ghost use Rattle.alt_hand.specs.Adding.{AddsVersion, HasLast, HasOneOf, LeavesOut, MakesNone};
ghost use Rattle.alt_hand.specs.Carrying.{AreStill};
ghost use Rattle.alt_hand.specs.InHand.{HandStandsForLayout, length_of, limits_of, next_file_of, next_of};
ghost use Rattle.alt_hand.specs.Merging.{files_at, memory_at, version_in};
ghost use Rattle.alt_hand.specs.Drafting.{IsSpentFor, EngineFaultIsOutside as IsUnspentWhole};
ghost use Rattle.alt_hand.specs.Opened.{EngineFaultIsUnspent};
ghost use Rattle.alt_hand.specs.Working.{TellsNoDamage, Works, WorksIn};
ghost use Rattle.alt_merging.specs.Mergings.{GivesWay, MergingStands, family_of_merging, file_of_merging, taken_of};

use alt_compact::Stepped;
use alt_disk::{Disk, Failed};
use alt_filemerge::FileMerge;
use alt_hand::{EngineFault, Hand};
use alt_rowfile::RowFile;
use std::alloc::Global;

/// How many rows a step takes.
const ROWS: u32 = 256;

/// A merge under way: the family, how many of its files are merged, from the first one on, and the number of the file that is made.
#[derive(Drop)]
pub struct Merging {
    pub(crate) family: u32,
    pub(crate) taken: usize,
    pub(crate) file: u32,
    pub(crate) merge: FileMerge,
}

impl Merging {
    /// Begins a merge of all files of a family. It takes no row yet.
    pub fn start<D: Disk>(
        alloc: Global,
        disk: &mut D,
        hand: &mut Hand,
        family: u32,
    ) -> Result<Merging, EngineFault>
        requires ready { IsTrusted (D.state disk.old)
            → (l : Layout) × HandStandsForLayout (D.state disk.old) hand.old l }
        requires some { 0 < length (files_at hand.old family) }
        ensures ok { OnOk result (IsTrusted (D.state disk.old) → (l : Layout)
            → HandStandsForLayout (D.state disk.old) hand.old l → HandStandsForLayout (D.state disk.new) hand.new l) }
        ensures job { IfOk result (λ job. IsTrusted (D.state disk.old) → (l : Layout)
            → HandStandsForLayout (D.state disk.old) hand.old l
            → (left : RowList) × MergingStands (D.state disk.new) hand.new job left) }
        ensures family { IfOk result (λ job. family_of_merging job ≡ family) }
        ensures taken { IfOk result (λ job. taken_of job ≡ length (files_at hand.old family)) }
        ensures file { IfOk result (λ job. file_of_merging job ≡ next_file_of hand.old) }
        ensures files { (other : ℕ) → files_at hand.new other ≡ files_at hand.old other }
        ensures memory { (other : ℕ) → memory_at hand.new other ≡ memory_at hand.old other }
        ensures version { version_in hand.new ≡ version_in hand.old }
        ensures last { IsTrusted (D.state disk.old) → (l : Layout)
            → HandStandsForLayout (D.state disk.old) hand.old l
            → Spans (D.state disk.old) (D.state disk.new) (λ _. ⊤) (HasLast (version_in hand.old)) }
        ensures missing { IsTrusted (D.state disk.old)
            → MakesNone (D.state disk.old) (D.state disk.new) (next_file_of hand.old) }
        ensures still { IsTrusted (D.state disk.old) → (l : Layout)
            → HandStandsForLayout (D.state disk.old) hand.old l → (other : ℕ)
            → AreStill (D.state disk.old) (D.state disk.new) (files_at hand.old other) }
        ensures next_file { OnOk result (next_file_of hand.new ≡ next_file_of hand.old + 1) }
        ensures length { length_of hand.new ≡ length_of hand.old }
        ensures next { next_of hand.new ≡ next_of hand.old }
        ensures limits { limits_of hand.new ≡ limits_of hand.old }

        // A stop at any moment of the call, also one that fails, leaves the rows.
        ensures any_moment { IsTrusted (D.state disk.old) → (l : Layout)
            → HandStandsForLayout (D.state disk.old) hand.old l
            → Spans (D.state disk.old) (D.state disk.new) (λ _. ⊤) (Has l) }

        // A number is spent exactly where the next file is 2^32 - 1.
        ensures spent { next_file_of hand.old ≡ 2 ^ 32 - 1
            → result ≡ Err (EngineFault.Spent (2 ^ 32 - 1)) }
        ensures spent_for { IfErr result (IsSpentFor (next_file_of hand.old + 1)) }
        ensures goes { Goes (D.state disk.old) (D.state disk.new) }
        ensures cause { IsErrOf result EngineFault.Failed
            → Rose (D.state disk.old).faults (D.state disk.new).faults }
        ensures well { OnOk result ((D.state disk.new).faults ≡ (D.state disk.old).faults) }
    {
        let taken = hand.files(family).len();
        let file = hand.take_file()?;
        let merge = FileMerge::start(alloc, disk, file, true)?;
        Ok(Merging {
            family,
            taken,
            file,
            merge,
        })
    }

    /// Brings it 256 rows further, or to its end where fewer are left. After an Err it is spent.
    pub fn step<D: Disk>(&mut self, disk: &mut D, hand: &Hand) -> Result<Stepped, EngineFault>
        requires { IsTrusted (D.state disk.old) → (l : Layout) × (left : RowList)
            × HandStandsForLayout (D.state disk.old) hand.now l
            × MergingStands (D.state disk.old) hand.now self.old left }
        ensures ok { IsTrusted (D.state disk.old) → (l : Layout)
            → HandStandsForLayout (D.state disk.old) hand.now l → (left : RowList)
            → MergingStands (D.state disk.old) hand.now self.old left
            → HandStandsForLayout (D.state disk.new) hand.now l }
        ensures taken { IsTrusted (D.state disk.old) → (l : Layout)
            → HandStandsForLayout (D.state disk.old) hand.now l → (left : RowList)
            → MergingStands (D.state disk.old) hand.now self.old left
            → IfOk result (λ stepped. MergingStands (D.state disk.new) hand.now self.new (drop 256 left)
            × StepSays stepped (drop 256 left)) }
        ensures family { family_of_merging self.new ≡ family_of_merging self.old }
        ensures files { taken_of self.new ≡ taken_of self.old }
        ensures file { file_of_merging self.new ≡ file_of_merging self.old }
        ensures still { IsTrusted (D.state disk.old) → (l : Layout)
            → HandStandsForLayout (D.state disk.old) hand.now l → (left : RowList)
            → MergingStands (D.state disk.old) hand.now self.old left → (other : ℕ)
            → AreStill (D.state disk.old) (D.state disk.new) (files_at hand.now other) }
        ensures only { IsTrusted (D.state disk.old) → (left : RowList)
            → MergingStands (D.state disk.old) hand.now self.old left → (f : ℕ)
            → f ≢ file_of_merging self.old → (D.state disk.new).file f ≡ (D.state disk.old).file f }
        ensures last { IsTrusted (D.state disk.old) → (l : Layout)
            → HandStandsForLayout (D.state disk.old) hand.now l → (left : RowList)
            → MergingStands (D.state disk.old) hand.now self.old left
            → Spans (D.state disk.old) (D.state disk.new) (λ _. ⊤) (HasLast (version_in hand.now)) }
        ensures any_moment { IsTrusted (D.state disk.old) → (l : Layout)
            → HandStandsForLayout (D.state disk.old) hand.now l → (left : RowList)
            → MergingStands (D.state disk.old) hand.now self.old left
            → Spans (D.state disk.old) (D.state disk.new) (λ _. ⊤) (Has l) }
        ensures unspent { IfErr result EngineFaultIsUnspent }
        ensures sound { IsTrusted (D.state disk.old) → (left : RowList)
            → MergingStands (D.state disk.old) hand.now self.old left
            → IfErr result TellsNoDamage }
        ensures goes { Goes (D.state disk.old) (D.state disk.new) }
        ensures cause { IsErrOf result EngineFault.Failed
            → Rose (D.state disk.old).faults (D.state disk.new).faults }
        ensures well { OnOk result ((D.state disk.new).faults ≡ (D.state disk.old).faults) }
    {
        let files = first(hand.files(self.family), self.taken);
        match self.merge.step(disk, files, ROWS) {
            Ok(stepped) => Ok(stepped),
            Err(fault) => Err(EngineFault::from(fault)),
        }
    }

    /// The family whose files are merged.
    pub fn family(&self) -> u32
        ensures { result ≡ family_of_merging self.now }
    {
        self.family
    }

    /// Ends it, where no row is left: what was made stands in the place of the files, and they are removed. After an Err the engine is
    /// spent.
    pub fn end<D: Disk>(
        self,
        disk: &mut D,
        hand: &mut Hand,
        live: &[u32],
    ) -> Result<(), EngineFault>
        requires ready { IsTrusted (D.state disk.old)
            → (l : Layout) × HandStandsForLayout (D.state disk.old) hand.old l }
        requires job { IsTrusted (D.state disk.old) → MergingStands (D.state disk.old) hand.old self [] }
        requires live { IsIn live.now (family_of_merging self) }
        ensures ok { OnOk result (IsTrusted (D.state disk.old) → (l : Layout)
            → HandStandsForLayout (D.state disk.old) hand.old l
            → (m : Layout) × HandStandsForLayout (D.state disk.new) hand.new m × Works live.now l m) }
        ensures files { OnOk result (IsTrusted (D.state disk.old) → (l : Layout)
            → HandStandsForLayout (D.state disk.old) hand.old l
            → GivesWay (D.state disk.new) hand.old hand.new (family_of_merging self) (taken_of self)) }
        ensures others { OnOk result ((other : ℕ) → IsIn live.now other → other ≢ family_of_merging self
            → files_at hand.new other ≡ files_at hand.old other) }
        ensures still { OnOk result (IsTrusted (D.state disk.old) → (l : Layout)
            → HandStandsForLayout (D.state disk.old) hand.old l → (other : ℕ) → IsIn live.now other
            → other ≢ family_of_merging self
            → AreStill (D.state disk.old) (D.state disk.new) (files_at hand.old other)) }
        ensures memory { OnOk result ((other : ℕ) → IsIn live.now other
            → memory_at hand.new other ≡ memory_at hand.old other) }

        // There is one version more, without families that aren't live, and no file that wasn't there but its own.
        ensures leaves_out { OnOk result (LeavesOut live.now hand.old hand.new) }
        ensures adds { OnOk result (IsTrusted (D.state disk.old)
            → AddsVersion (D.state disk.new) hand.old hand.new) }
        ensures missing { OnOk result (IsTrusted (D.state disk.old) → (l : Layout)
            → HandStandsForLayout (D.state disk.old) hand.old l → (f : ℕ) → f ≢ file_of_merging self
            → f < next_file_of hand.old → (D.state disk.old).file f ≡ None
            → (D.state disk.new).file f ≡ None) }
        ensures one_version { IsTrusted (D.state disk.old) → (l : Layout)
            → HandStandsForLayout (D.state disk.old) hand.old l → (w : Version)
            × Spans (D.state disk.old) (D.state disk.new) (λ _. ⊤) (HasOneOf (version_in hand.old) w) }
        ensures next_file { OnOk result (next_file_of hand.new ≡ next_file_of hand.old) }
        ensures length { length_of hand.new ≡ length_of hand.old }
        ensures next { next_of hand.new ≡ next_of hand.old }
        ensures limits { limits_of hand.new ≡ limits_of hand.old }

        // A stop at any moment of the call, also one that fails, leaves the rows of live families.
        ensures any_moment { IsTrusted (D.state disk.old) → (l : Layout)
            → HandStandsForLayout (D.state disk.old) hand.old l
            → Spans (D.state disk.old) (D.state disk.new) (λ _. ⊤) (WorksIn live.now l) }
        ensures unspent { IfErr result IsUnspentWhole }
        ensures goes { Goes (D.state disk.old) (D.state disk.new) }
        ensures cause { IsErrOf result EngineFault.Failed
            → Rose (D.state disk.old).faults (D.state disk.new).faults }
        ensures well { OnOk result ((D.state disk.new).faults ≡ (D.state disk.old).faults) }
    {
        let Merging {
            family,
            taken,
            file,
            merge,
        } = self;
        let made = merge.finish(disk)?;
        hand.end_merge(disk, live, family, taken, file, made)
    }

    /// Gives it up: its unfinished file is removed.
    pub fn give_up<D: Disk>(self, disk: &mut D, hand: &Hand) -> Result<(), EngineFault>
        requires { IsTrusted (D.state disk.old) → (l : Layout) × (left : RowList)
            × HandStandsForLayout (D.state disk.old) hand.now l
            × MergingStands (D.state disk.old) hand.now self left }
        ensures ok { IsTrusted (D.state disk.old) → (l : Layout) → (left : RowList)
            → HandStandsForLayout (D.state disk.old) hand.now l
            → MergingStands (D.state disk.old) hand.now self left
            → HandStandsForLayout (D.state disk.new) hand.now l }
        ensures gone { OnOk result (IsTrusted (D.state disk.old)
            → (D.state disk.new).file (file_of_merging self) ≡ None) }
        ensures still { IsTrusted (D.state disk.old) → (l : Layout) → (left : RowList)
            → HandStandsForLayout (D.state disk.old) hand.now l
            → MergingStands (D.state disk.old) hand.now self left → (other : ℕ)
            → AreStill (D.state disk.old) (D.state disk.new) (files_at hand.now other) }
        ensures last { IsTrusted (D.state disk.old) → (l : Layout) → (left : RowList)
            → HandStandsForLayout (D.state disk.old) hand.now l
            → MergingStands (D.state disk.old) hand.now self left
            → Spans (D.state disk.old) (D.state disk.new) (λ _. ⊤) (HasLast (version_in hand.now)) }
        ensures any_moment { IsTrusted (D.state disk.old) → (l : Layout) → (left : RowList)
            → HandStandsForLayout (D.state disk.old) hand.now l
            → MergingStands (D.state disk.old) hand.now self left
            → Spans (D.state disk.old) (D.state disk.new) (λ _. ⊤) (Has l) }
        ensures goes { Goes (D.state disk.old) (D.state disk.new) }
        ensures failed { IfErr result (λ fault. fault ≡ EngineFault.Failed) }
        ensures cause { OnErr result (Rose (D.state disk.old).faults (D.state disk.new).faults) }
        ensures well { OnOk result ((D.state disk.new).faults ≡ (D.state disk.old).faults) }
    {
        match disk.remove(self.file) {
            Ok(()) => Ok(()),
            Err(Failed) => Err(EngineFault::Failed),
        }
    }
}

/// The first `taken` of the files, all where there are fewer.
fn first(files: &[RowFile], taken: usize) -> &[RowFile]
    ensures { result.now ≡ take taken files.now }
{
    if taken <= files.len() {
        &files[..taken]
    } else {
        files
    }
}
