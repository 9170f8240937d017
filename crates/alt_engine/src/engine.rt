//! The engine in hand, from its opening on, and its writes.

ghost use Rattle.std.specs.Prelude.{ℕ, ◌≡◌, ◌<◌, ◌≤◌, ◌+◌, ◌-◌, ◌^◌, ⊤, Err, IfOk, IfErr, IfSome, None, OnOk, OnErr, IsErrOf, IsTrue, length, max};
ghost use Rattle.alt_base.specs.Counts.{Rose};
ghost use Rattle.alt_disk.specs.Disk.{DiskState, IsTrusted, Goes};
ghost use Rattle.alt_disk.specs.Runs.{Spans};
ghost use Rattle.alt_layout.specs.Files.{IsLayout};
ghost use Rattle.alt_layout.specs.Fresh.{versions_file};
ghost use Rattle.alt_layout.specs.Layout.{Layout};
ghost use Rattle.alt_layout.specs.Writes.{with_write, with_writes};
ghost use Rattle.alt_manifest.specs.Versions.{HasVersion};
ghost use Rattle.alt_manifest.specs.declared.version.Version.{Version};
ghost use Rattle.alt_gatelog.specs.declared.form.Form.TheVariants.{One};
ghost use Rattle.alt_merging.specs.HandAdding.{IsBehind};
ghost use Rattle.alt_merging.specs.HandInHand.{BeforeOrAll, BeforeOrWith, IsSpentBy, batch_write, batch_writes, files_made};
ghost use Rattle.alt_merging.specs.HandRecovery.{ExplainsStore, HasNoLayout, IsNextFile, LeavesFiles, LeavesStore, LeftLike};
ghost use Rattle.alt_merging.specs.HandSyncing.{AllSynced};
ghost use Rattle.alt_engine.specs.InHand.{bounds_of_engine, hand_of, last_form_of_engine, limits_of_engine, next_file_of_engine, next_write_of_engine, ReadsLayout, StandsForLayout};

use alt_cells::Batch;
use alt_disk::Disk;
use alt_merging::{EngineFault, Hand, Limits, Merging, RecoverFault};
use std::alloc::Global;

/// The engine: the rows over files, a merge of some of these files that is under way, and whether a family may have so many files
/// that they are merged.
#[derive(Drop)]
pub struct Engine {
    pub(crate) alloc: Global,
    pub(crate) hand: Hand,
    pub(crate) merging: Option<Merging>,
    pub(crate) many: bool,
}

impl Engine {
    /// Opens the store of a disk: it syncs every file, reads the last version with the row files and the segments that it names, and
    /// then removes every other file but that of the versions, so also one that a merge left unfinished.
    pub fn recover<D: Disk>(
        alloc: Global,
        disk: &mut D,
        limits: Limits,
    ) -> Result<Engine, RecoverFault>
        // At Ok the engine is that of the rows that the files held and hold.
        ensures ok { IfOk result (λ e. IsTrue (D.state disk.old).tells → (l : Layout)
            × IsLayout (D.state disk.old).file l × ReadsLayout (D.state disk.new) e l) }
        // Whatever a stop leaves from then on holds these rows.
        ensures stands { IfOk result (λ e. IsTrusted (D.state disk.old) → (l : Layout)
            → ReadsLayout (D.state disk.new) e l → StandsForLayout (D.state disk.new) e l) }
        ensures limits { IfOk result (λ e. limits_of_engine e ≡ limits) }
        // And every file that is there lasts.
        ensures synced { OnOk result (IsTrusted (D.state disk.old)
            → AllSynced (D.state disk.new)) }

        // Its next file is past all that were there, those too that are removed then: each that the last version doesn't name. Where the
        // call fails, whatever the cause, none was removed before all that it names was read.
        ensures next_file { IfOk result (λ e. IsTrue (D.state disk.old).tells → (v : Version)
            → HasVersion v ((D.state disk.old).file versions_file)
            → IsNextFile v (D.state disk.old).file (next_file_of_engine e)) }
        ensures removed { OnOk result (IsTrue (D.state disk.old).tells → (v : Version)
            → HasVersion v ((D.state disk.old).file versions_file)
            → LeavesStore v (D.state disk.old).file (D.state disk.new).file) }
        ensures none_before { IsTrue (D.state disk.old).tells
            → OnErr result (LeavesFiles (D.state disk.old).file (D.state disk.new).file) }

        // The files have, as they read, the layout that they had, also where the call fails.
        ensures files { IsTrue (D.state disk.old).tells → (l : Layout)
            → IsLayout (D.state disk.old).file l → IsLayout (D.state disk.new).file l }

        // A stop at any moment of the call, also one that fails, leaves the layout of what one left before.
        ensures any_moment { IsTrusted (D.state disk.old)
            → Spans (D.state disk.old) (D.state disk.new) (λ _. ⊤) (LeftLike (D.state disk.old)) }

        // Damaged and DigestDiffers come exactly where the files have no layout, and name a place where they have none.
        ensures damaged { IsTrue (D.state disk.old).tells
            → IfErr result (ExplainsStore (D.state disk.old).file) }
        ensures no_layout { IsTrue (D.state disk.old).tells
            → IfErr result (HasNoLayout (D.state disk.old).file) }
        ensures goes { Goes (D.state disk.old) (D.state disk.new) }
        ensures cause { IsErrOf result RecoverFault.Failed
            → Rose (D.state disk.old).faults (D.state disk.new).faults }
        ensures well { (IsErrOf result RecoverFault.Failed → ⊥)
            → (D.state disk.new).faults ≡ (D.state disk.old).faults }
    {
        match Hand::recover(alloc, disk, limits) {
            Ok(hand) => {
                let many = hand.any_many();
                Ok(Engine {
                    alloc,
                    hand,
                    merging: None,
                    many,
                })
            }
            Err(fault) => Err(fault),
        }
    }

    /// The number of the next write.
    pub fn next_number(&self) -> u64
        ensures next { result ≡ next_write_of_engine self.now }
        ensures layout { (s : DiskState) (l : Layout) → ReadsLayout s self.now l
            → result ≡ l.next_number }
    {
        self.hand.next_number()
    }

    /// The number of the file that the segment of a write wants and can't have.
    pub fn wanting_file(&self) -> Option<u64>
        ensures none { result ≡ None → (bounds_of_engine self.now).file < 2 ^ 32 }
        ensures last { IfSome result (λ n. (n ≡ 2 ^ 32 - 1)
            × (2 ^ 32 ≤ (bounds_of_engine self.now).file)) }
    {
        self.hand.wanting_file()
    }

    /// Joins batches to the rows as one entry, each as a write, which are numbered in order from the next number on; the first one is
    /// answered. Behind a segment of the first form a new one is made before. A merge under way stays one. After an Err the engine is
    /// spent, unless it is Spent.
    pub fn apply_all<D: Disk>(
        &mut self,
        disk: &mut D,
        batches: &[Batch],
    ) -> Result<u64, EngineFault>
        requires some { 0 < length batches.now }
        requires stands { IsTrusted (D.state disk.old)
            → (l : Layout) × StandsForLayout (D.state disk.old) self.old l }
        ensures ok { OnOk result (IsTrusted (D.state disk.old) → (l : Layout)
            → StandsForLayout (D.state disk.old) self.old l → StandsForLayout (D.state disk.new) self.new
            (with_writes l (batch_writes l batches.now))) }
        ensures number { IfOk result (λ n. n ≡ next_write_of_engine self.old) }
        ensures next { OnOk result (next_write_of_engine self.new ≡ next_write_of_engine self.old + length batches.now) }
        ensures limits { limits_of_engine self.new ≡ limits_of_engine self.old }

        // At Ok the entry stands in a segment of the second form: in the last one, or in one that was made and named behind the others.
        ensures segment { OnOk result (IsBehind (last_form_of_engine self.old)
            (hand_of self.old) (hand_of self.new)) }
        ensures most { next_file_of_engine self.new
            ≤ next_file_of_engine self.old + files_made (last_form_of_engine self.old) }
        ensures least { next_file_of_engine self.old ≤ next_file_of_engine self.new }
        // A write takes no number of a file from work: that which it may take is counted before.
        ensures bounds { bounds_of_engine self.new ≡ bounds_of_engine self.old }

        // A stop at any moment of the call, also one that fails, leaves the rows from before it or with all batches.
        ensures any_moment { IsTrusted (D.state disk.old) → (l : Layout)
            → StandsForLayout (D.state disk.old) self.old l
            → Spans (D.state disk.old) (D.state disk.new) (λ _. ⊤) (BeforeOrAll l batches.now) }

        // A number is spent exactly where one of those that are wanted is 2^62 - 1, and else where the new segment wants file 2^32 - 1.
        ensures spent_number { 2 ^ 62 - 1 < next_write_of_engine self.old + length batches.now
            → result ≡ Err (EngineFault.Spent (max (next_write_of_engine self.old) (2 ^ 62 - 1))) }
        ensures spent_file { next_write_of_engine self.old + length batches.now ≤ 2 ^ 62 - 1
            → last_form_of_engine self.old ≡ One → 2 ^ 32 - 1 ≤ next_file_of_engine self.old
            → result ≡ Err (EngineFault.Spent (next_file_of_engine self.old)) }
        ensures cause_spent { IfErr result (IsSpentBy (hand_of self.old) (length batches.now)) }
        ensures unchanged { (number : ℕ) → IsErrOf result (EngineFault.Spent number)
            → D.state disk.new ≡ D.state disk.old }
        ensures same { (number : ℕ) → IsErrOf result (EngineFault.Spent number)
            → self.new ≡ self.old }
        ensures no_memory { IsErrOf result EngineFault.NoMemory
            → D.state disk.new ≡ D.state disk.old }
        ensures goes { Goes (D.state disk.old) (D.state disk.new) }
        ensures cause { IsErrOf result EngineFault.Failed
            → Rose (D.state disk.old).faults (D.state disk.new).faults }
        ensures well { OnOk result ((D.state disk.new).faults ≡ (D.state disk.old).faults) }
    {
        self.hand.apply_all(disk, batches)
    }

    /// Joins a batch to the rows, as `apply_all` of it alone.
    pub fn apply<D: Disk>(&mut self, disk: &mut D, batch: &Batch) -> Result<u64, EngineFault>
        requires { IsTrusted (D.state disk.old)
            → (l : Layout) × StandsForLayout (D.state disk.old) self.old l }
        ensures ok { OnOk result (IsTrusted (D.state disk.old) → (l : Layout)
            → StandsForLayout (D.state disk.old) self.old l
            → StandsForLayout (D.state disk.new) self.new (with_write l (batch_write l batch.now))) }
        ensures number { IfOk result (λ n. n ≡ next_write_of_engine self.old) }
        ensures next { OnOk result (next_write_of_engine self.new ≡ next_write_of_engine self.old + 1) }
        ensures limits { limits_of_engine self.new ≡ limits_of_engine self.old }
        ensures segment { OnOk result (IsBehind (last_form_of_engine self.old)
            (hand_of self.old) (hand_of self.new)) }
        ensures most { next_file_of_engine self.new
            ≤ next_file_of_engine self.old + files_made (last_form_of_engine self.old) }
        ensures least { next_file_of_engine self.old ≤ next_file_of_engine self.new }
        // A write takes no number of a file from work: that which it may take is counted before.
        ensures bounds { bounds_of_engine self.new ≡ bounds_of_engine self.old }

        // A stop at any moment of the call, also one that fails, leaves the rows from before it or with the whole batch.
        ensures any_moment { IsTrusted (D.state disk.old) → (l : Layout)
            → StandsForLayout (D.state disk.old) self.old l
            → Spans (D.state disk.old) (D.state disk.new) (λ _. ⊤) (BeforeOrWith l batch.now) }

        // A number is spent exactly where the next one is 2^62 - 1, and else where the new segment wants file 2^32 - 1.
        ensures spent_number { 2 ^ 62 - 1 ≤ next_write_of_engine self.old
            → result ≡ Err (EngineFault.Spent (next_write_of_engine self.old)) }
        ensures spent_file { next_write_of_engine self.old < 2 ^ 62 - 1 → last_form_of_engine self.old ≡ One
            → 2 ^ 32 - 1 ≤ next_file_of_engine self.old
            → result ≡ Err (EngineFault.Spent (next_file_of_engine self.old)) }
        ensures cause_spent { IfErr result (IsSpentBy (hand_of self.old) 1) }
        ensures unchanged { (number : ℕ) → IsErrOf result (EngineFault.Spent number)
            → D.state disk.new ≡ D.state disk.old }
        ensures same { (number : ℕ) → IsErrOf result (EngineFault.Spent number)
            → self.new ≡ self.old }
        ensures no_memory { IsErrOf result EngineFault.NoMemory
            → D.state disk.new ≡ D.state disk.old }
        ensures goes { Goes (D.state disk.old) (D.state disk.new) }
        ensures cause { IsErrOf result EngineFault.Failed
            → Rose (D.state disk.old).faults (D.state disk.new).faults }
        ensures well { OnOk result ((D.state disk.new).faults ≡ (D.state disk.old).faults) }
    {
        self.hand.apply(disk, batch)
    }
}
