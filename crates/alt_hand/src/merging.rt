//! The beginning and the end of a merge of a family's files.

ghost use Rattle.std.specs.Prelude.{◌≡◌, ◌≢◌, ◌<◌, ◌+◌, ◌-◌, ◌^◌, ◌∷◌, ⊤, ℕ, Err, IfOk, IfErr, OnOk, IsErrOf, drop, length, take, None};
ghost use Rattle.alt_base.specs.Counts.{Rose};
ghost use Rattle.alt_disk.specs.Disk.{DiskState, IsTrusted, Goes};
ghost use Rattle.alt_disk.specs.Runs.{Spans};
ghost use Rattle.alt_layout.specs.Families.{flushed_of};
ghost use Rattle.alt_layout.specs.Layout.{Layout};
ghost use Rattle.alt_manifest.specs.Versions.{IsIn};
ghost use Rattle.alt_rowfile.specs.InHand.{file_of as row_file};
ghost use Rattle.alt_hand.specs.Adding.{AddsVersion, HasOneOf, LeavesOut, MakesNone};
ghost use Rattle.alt_hand.specs.Carrying.{AreStill};
ghost use Rattle.alt_hand.specs.Drafting.{EngineFaultIsOutside};
ghost use Rattle.alt_hand.specs.InHand.{HandStandsForLayout, length_of, limits_of, next_file_of, next_of};
ghost use Rattle.alt_hand.specs.Merging.{IsMadeOf, IsMerging, files_at, memory_at, version_in};
ghost use Rattle.alt_hand.specs.Working.{Works, WorksIn};

use crate::hand::Hand;
use alt_disk::Disk;
use alt_drafts::{EngineFault, leave_dead, merged, put_files_of};
use alt_flush::renumbered;
use alt_manifest::Version;
use alt_rowfile::RowFile;

impl Hand {
    /// The row files of a family, the oldest first.
    pub fn files(&self, family: u32) -> &[RowFile]
        ensures { result.now ≡ files_at self.now family }
    {
        match self.families.get(&family) {
            Some(found) => found.files.as_slice(),
            None => &[],
        }
    }

    /// Takes the number of a new file. A merge of all files of a family may begin into it.
    pub fn take_file(&mut self) -> Result<u32, EngineFault>
        ensures file { IfOk result (λ f. f ≡ next_file_of self.old) }
        ensures next_file { OnOk result (next_file_of self.new ≡ next_file_of self.old + 1) }
        ensures stands { OnOk result ((s : DiskState) (l : Layout) → HandStandsForLayout s self.old l
            → HandStandsForLayout s self.new l) }
        ensures missing { IfOk result (λ f. (s : DiskState) (l : Layout) → HandStandsForLayout s self.old l
            → s.file f ≡ None) }
        ensures merging { OnOk result ((s : DiskState) (l : Layout) (family : ℕ)
            → HandStandsForLayout s self.old l → 0 < length (files_at self.old family)
            → IsMerging s self.new family (length (files_at self.old family))
            (flushed_of (version_in self.old).families family) (next_file_of self.old)) }
        ensures files { (family : ℕ) → files_at self.new family ≡ files_at self.old family }
        ensures memory { (family : ℕ) → memory_at self.new family ≡ memory_at self.old family }
        ensures version { version_in self.new ≡ version_in self.old }
        ensures length { length_of self.new ≡ length_of self.old }
        ensures next { next_of self.new ≡ next_of self.old }
        ensures limits { limits_of self.new ≡ limits_of self.old }

        // The last number is taken for no file.
        ensures spent { next_file_of self.old ≡ 2 ^ 32 - 1
            → result ≡ Err (EngineFault.Spent (2 ^ 32 - 1)) }
        ensures cause { IfErr result (λ fault. (fault ≡ EngineFault.Spent (2 ^ 32 - 1))
            × (next_file_of self.old ≡ 2 ^ 32 - 1)) }
    {
        if self.next_file == u32::MAX {
            return Err(EngineFault::Spent {
                number: self.next_file as u64,
            });
        }
        let file = self.next_file;
        self.next_file = file + 1;
        Ok(file)
    }

    /// Ends a merge of the first `taken` files of a live family: a version in which what was made of them, in a file of this number,
    /// stands in their place; then they are removed. After an Err the engine is spent.
    pub fn end_merge<D: Disk>(
        &mut self,
        disk: &mut D,
        live: &[u32],
        family: u32,
        taken: usize,
        file: u32,
        made: RowFile,
    ) -> Result<(), EngineFault>
        requires ready { IsTrusted (D.state disk.old)
            → (l : Layout) × HandStandsForLayout (D.state disk.old) self.old l }
        requires merging { IsTrusted (D.state disk.old) → (number : ℕ)
            × IsMerging (D.state disk.old) self.old family taken number file }
        requires made { IsTrusted (D.state disk.old)
            → IsMadeOf (D.state disk.old) (take taken (files_at self.old family)) made }
        requires file { IsTrusted (D.state disk.old) → row_file made ≡ file }
        requires live { IsIn live.now family }
        ensures ok { OnOk result (IsTrusted (D.state disk.old) → (l : Layout)
            → HandStandsForLayout (D.state disk.old) self.old l
            → (m : Layout) × HandStandsForLayout (D.state disk.new) self.new m × Works live.now l m) }
        ensures files { OnOk result (IsTrusted (D.state disk.old) → files_at self.new family
            ≡ made ∷ drop taken (files_at self.old family)) }
        ensures others { OnOk result ((other : ℕ) → IsIn live.now other → other ≢ family
            → files_at self.new other ≡ files_at self.old other) }

        // No live family's rows in memory are touched, and there is one version more, without families that aren't live.
        ensures memory { OnOk result ((other : ℕ) → IsIn live.now other
            → memory_at self.new other ≡ memory_at self.old other) }
        ensures leaves_out { OnOk result (LeavesOut live.now self.old self.new) }
        ensures adds { OnOk result (IsTrusted (D.state disk.old)
            → AddsVersion (D.state disk.new) self.old self.new) }
        ensures missing { OnOk result (IsTrusted (D.state disk.old) → (l : Layout)
            → HandStandsForLayout (D.state disk.old) self.old l
            → MakesNone (D.state disk.old) (D.state disk.new) (next_file_of self.old)) }
        ensures one_version { IsTrusted (D.state disk.old) → (l : Layout)
            → HandStandsForLayout (D.state disk.old) self.old l → (w : Version)
            × Spans (D.state disk.old) (D.state disk.new) (λ _. ⊤) (HasOneOf (version_in self.old) w) }

        // The files of other live families read as they read, and so does the one that was made.
        ensures still { OnOk result (IsTrusted (D.state disk.old) → (l : Layout)
            → HandStandsForLayout (D.state disk.old) self.old l → (other : ℕ) → IsIn live.now other
            → other ≢ family
            → AreStill (D.state disk.old) (D.state disk.new) (files_at self.old other)) }
        ensures made { OnOk result (IsTrusted (D.state disk.old) → (l : Layout)
            → HandStandsForLayout (D.state disk.old) self.old l
            → (D.state disk.new).file (row_file made) ≡ (D.state disk.old).file (row_file made)) }
        ensures next_file { OnOk result (next_file_of self.new ≡ next_file_of self.old) }
        ensures length { length_of self.new ≡ length_of self.old }
        ensures next { next_of self.new ≡ next_of self.old }
        ensures limits { limits_of self.new ≡ limits_of self.old }

        // A stop at any moment of the call, also one that fails, leaves the rows of live families.
        ensures any_moment { IsTrusted (D.state disk.old) → (l : Layout)
            → HandStandsForLayout (D.state disk.old) self.old l
            → Spans (D.state disk.old) (D.state disk.new) (λ _. ⊤) (WorksIn live.now l) }
        ensures unspent { IfErr result EngineFaultIsOutside }
        ensures goes { Goes (D.state disk.old) (D.state disk.new) }
        ensures cause { IsErrOf result EngineFault.Failed
            → Rose (D.state disk.old).faults (D.state disk.new).faults }
        ensures well { OnOk result ((D.state disk.new).faults ≡ (D.state disk.old).faults) }
    {
        let mut left = Vec::new(self.alloc);
        let first = renumbered(
            self.alloc,
            self.manifest.current(),
            self.next_file,
            self.next,
        )?;
        put_files_of(first.families.as_slice(), family, &mut left)?;
        let alive = leave_dead(self.alloc, &mut self.families, first, live, &mut left)?;
        let draft = merged(
            self.alloc,
            &mut self.families,
            alive,
            family,
            taken,
            file,
            made,
        )?;
        self.publish(disk, draft, left.as_slice())
    }
}
