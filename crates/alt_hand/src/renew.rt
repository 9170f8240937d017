//! A new segment behind the others, for a store whose last one is of the first form.

ghost use Rattle.std.specs.Prelude.{◌≡◌, ◌≤◌, ◌<◌, ◌+◌, ◌-◌, ◌^◌, ℕ, Bool, IfOk, IfErr, OnOk, IsErrOf, ⊤};
ghost use Rattle.alt_base.specs.Counts.{Rose};
ghost use Rattle.alt_disk.specs.Disk.{IsTrusted, Goes};
ghost use Rattle.alt_disk.specs.Runs.{Spans};
ghost use Rattle.alt_families.specs.Families.{Families};
ghost use Rattle.alt_flush.specs.Drafts.{renumbered, with_segment};
ghost use Rattle.alt_gatelog.specs.InHand.{HasPlace, IsFramed};
ghost use Rattle.alt_gatelog.specs.declared.form.Form.TheVariants.{One};
ghost use Rattle.alt_layout.specs.Layout.{Layout};
ghost use Rattle.alt_layout.specs.Moments.{Has};
ghost use Rattle.alt_manifest.specs.Versions.{version_bytes};
ghost use Rattle.alt_hand.specs.Adding.{IsBehind, IsSegmentMore};
ghost use Rattle.alt_hand.specs.Carrying.{CarriesFamily};
ghost use Rattle.alt_hand.specs.Drafting.{IsPrepared, IsSameHand, EngineFaultIsOutside, with_memory_rows};
ghost use Rattle.alt_hand.specs.InHand.{HandStandsForLayout, files_made, last_form_of, next_file_of, work_file_of};
ghost use Rattle.alt_hand.specs.Merging.{version_in};

use crate::hand::Hand;
use alt_base::NoMemory;
use alt_disk::{Disk, Failed};
use alt_drafts::EngineFault;
use alt_flush::{renumbered, with_segment};
use alt_gatelog::{Form, GateLog};
use alt_manifest::Version;

/// A version with a segment more, and its frame.
#[derive(Drop)]
pub(crate) struct Renewal {
    pub(crate) draft: Version,
    pub(crate) block: Vec<u8>,
}

impl Hand {
    /// Takes the memory for an entry more. Where the last segment is of the first form, that is all memory for a new one.
    pub(crate) fn prepare(&mut self) -> Result<Option<Renewal>, NoMemory>
        requires { last_form_of self.old ≡ One → next_file_of self.old < 2 ^ 32 - 1 }
        ensures same { IsSameHand self.old self.new }
        ensures ok { IfOk result (IsPrepared self.new) }
    {
        match self.log.form() {
            Form::One => self.draft_segment(),
            Form::Two => {
                self.log.reserve()?;
                Ok(None)
            }
        }
    }

    /// The version with a new segment, and all memory for both.
    fn draft_segment(&mut self) -> Result<Option<Renewal>, NoMemory>
        requires form { last_form_of self.old ≡ One }
        requires file { next_file_of self.old < 2 ^ 32 - 1 }
        ensures same { IsSameHand self.old self.new }
        ensures ok { IfOk result (IsPrepared self.new) }
    {
        let first = renumbered(
            self.alloc,
            self.manifest.current(),
            self.next_file,
            self.next,
        )?;
        let draft = with_segment(self.alloc, &first)?;
        let block = self.manifest.prepare(&draft)?;
        Ok(Some(Renewal { draft, block }))
    }

    /// Makes the segment that was prepared, if one was, so that no entry is added to one of the first form. It doesn't look at the rows
    /// in memory. After an Err the engine is spent.
    pub(crate) fn renew<D: Disk>(
        &mut self,
        disk: &mut D,
        renewal: Option<Renewal>,
    ) -> Result<(), EngineFault>
        requires prepared { IsPrepared self.old renewal }
        requires stands { IsTrusted (D.state disk.old)
            → (families : Families) × (full : Bool) × (l : Layout)
            × HandStandsForLayout (D.state disk.old) (with_memory_rows self.old families full) l }
        ensures ok { OnOk result (IsTrusted (D.state disk.old)
            → (families : Families) (full : Bool) (l : Layout)
            → HandStandsForLayout (D.state disk.old) (with_memory_rows self.old families full) l
            → HandStandsForLayout (D.state disk.new) (with_memory_rows self.new families full) l) }
        ensures room { OnOk result (HasPlace self.new.log) }
        ensures segment { OnOk result (IsBehind (last_form_of self.old) self.old self.new) }
        ensures others { self.new ≡ record self.old {
          manifest = self.new.manifest;
          log = self.new.log;
          next_file = self.new.next_file;
        } }
        ensures most { next_file_of self.new
            ≤ next_file_of self.old + files_made (last_form_of self.old) }
        ensures least { next_file_of self.old ≤ next_file_of self.new }
        ensures given { work_file_of self.new ≡ work_file_of self.old }

        // A merge of files of a family under way stays one.
        ensures carries { OnOk result (IsTrusted (D.state disk.old)
            → (families : Families) (full : Bool) (l : Layout)
            → HandStandsForLayout (D.state disk.old) (with_memory_rows self.old families full) l → (family : ℕ)
            → CarriesFamily (D.state disk.old) (D.state disk.new) (with_memory_rows self.old families full)
            (with_memory_rows self.new families full) family) }

        // A stop at any moment of the call, also one that fails, leaves the rows.
        ensures any_moment { IsTrusted (D.state disk.old)
            → (families : Families) (full : Bool) (l : Layout)
            → HandStandsForLayout (D.state disk.old) (with_memory_rows self.old families full) l
            → Spans (D.state disk.old) (D.state disk.new) (λ _. ⊤) (Has l) }
        ensures no_memory { IsErrOf result EngineFault.NoMemory
            → D.state disk.new ≡ D.state disk.old }
        ensures unspent { IfErr result EngineFaultIsOutside }
        ensures goes { Goes (D.state disk.old) (D.state disk.new) }
        ensures cause { IsErrOf result EngineFault.Failed
            → Rose (D.state disk.old).faults (D.state disk.new).faults }
        ensures well { OnOk result ((D.state disk.new).faults ≡ (D.state disk.old).faults) }
    {
        match renewal {
            Some(Renewal { draft, block }) => self.add_segment(disk, draft, block.as_slice()),
            None => Ok(()),
        }
    }

    /// Makes a new segment, and adds the version that names it, by its frame.
    fn add_segment<D: Disk>(
        &mut self,
        disk: &mut D,
        draft: Version,
        block: &[u8],
    ) -> Result<(), EngineFault>
        requires draft { draft
            ≡ with_segment (renumbered (version_in self.old) self.old.next_file self.old.next) }
        requires framed { IsFramed block.now (version_bytes (with_segment
            (renumbered (version_in self.old) self.old.next_file self.old.next))) }
        requires room { HasPlace self.old.manifest.log }
        requires file { next_file_of self.old < 2 ^ 32 - 1 }
        requires stands { IsTrusted (D.state disk.old)
            → (families : Families) × (full : Bool) × (l : Layout)
            × HandStandsForLayout (D.state disk.old) (with_memory_rows self.old families full) l }
        ensures ok { OnOk result (IsTrusted (D.state disk.old)
            → (families : Families) (full : Bool) (l : Layout)
            → HandStandsForLayout (D.state disk.old) (with_memory_rows self.old families full) l
            → HandStandsForLayout (D.state disk.new) (with_memory_rows self.new families full) l) }
        ensures room { OnOk result (HasPlace self.new.log) }
        ensures segment { OnOk result (IsSegmentMore self.old self.new) }
        ensures others { self.new ≡ record self.old {
          manifest = self.new.manifest;
          log = self.new.log;
          next_file = self.new.next_file;
        } }
        ensures most { next_file_of self.new ≤ next_file_of self.old + 1 }
        ensures least { next_file_of self.old ≤ next_file_of self.new }
        ensures given { last_form_of self.old ≡ One
            → work_file_of self.new ≡ work_file_of self.old }
        ensures carries { OnOk result (IsTrusted (D.state disk.old)
            → (families : Families) (full : Bool) (l : Layout)
            → HandStandsForLayout (D.state disk.old) (with_memory_rows self.old families full) l → (family : ℕ)
            → CarriesFamily (D.state disk.old) (D.state disk.new) (with_memory_rows self.old families full)
            (with_memory_rows self.new families full) family) }
        ensures any_moment { IsTrusted (D.state disk.old)
            → (families : Families) (full : Bool) (l : Layout)
            → HandStandsForLayout (D.state disk.old) (with_memory_rows self.old families full) l
            → Spans (D.state disk.old) (D.state disk.new) (λ _. ⊤) (Has l) }
        ensures no_memory { IsErrOf result EngineFault.NoMemory
            → D.state disk.new ≡ D.state disk.old }
        ensures unspent { IfErr result EngineFaultIsOutside }
        ensures goes { Goes (D.state disk.old) (D.state disk.new) }
        ensures cause { IsErrOf result EngineFault.Failed
            → Rose (D.state disk.old).faults (D.state disk.new).faults }
        ensures well { OnOk result ((D.state disk.new).faults ≡ (D.state disk.old).faults) }
    {
        let log = GateLog::make(self.alloc, disk, self.next_file, Form::Two)?;
        self.log = log;
        self.next_file = draft.next_file;
        match self.manifest.add(disk, draft, block) {
            Ok(()) => Ok(()),
            Err(Failed) => Err(EngineFault::Failed),
        }
    }
}
