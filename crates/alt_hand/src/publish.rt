//! A draft that becomes the next version.

ghost use Rattle.std.specs.Prelude.{◌≡◌, ◌≢◌, ℕ, None, OnOk, IsErrOf, IfErr, ⊤};
ghost use Rattle.alt_base.specs.Counts.{Rose};
ghost use Rattle.alt_disk.specs.Disk.{IsTrusted, Goes};
ghost use Rattle.alt_disk.specs.Runs.{Spans};
ghost use Rattle.alt_flush.specs.Drafts.{IsLeftOver};
ghost use Rattle.alt_layout.specs.Fresh.{versions_file};
ghost use Rattle.alt_layout.specs.Layout.{Layout};
ghost use Rattle.alt_layout.specs.Moments.{HasEither};
ghost use Rattle.alt_hand.specs.Adding.{HasOneOf};
ghost use Rattle.alt_hand.specs.Drafting.{IsLying, DraftIsReady, EngineFaultIsOutside};
ghost use Rattle.alt_hand.specs.InHand.{HandStandsForLayout, limits_of, next_of};
ghost use Rattle.alt_hand.specs.Merging.{version_in};

use crate::hand::Hand;
use alt_disk::{Disk, Failed};
use alt_drafts::{EngineFault, has_full};
use alt_flush::remove_left_over;
use alt_manifest::Version;

impl Hand {
    /// Adds a draft as the next version, and then removes those of the files that it doesn't name. After an Err the engine is spent.
    pub(crate) fn publish<D: Disk>(
        &mut self,
        disk: &mut D,
        draft: Version,
        left: &[u32],
    ) -> Result<(), EngineFault>
        requires ready { IsTrusted (D.state disk.old)
            → (m : Layout) × DraftIsReady (D.state disk.old) self.old draft m }
        ensures ok { OnOk result (IsTrusted (D.state disk.old) → (m : Layout)
            → DraftIsReady (D.state disk.old) self.old draft m
            → HandStandsForLayout (D.state disk.new) self.new m) }
        ensures next { next_of self.new ≡ next_of self.old }
        ensures limits { limits_of self.new ≡ limits_of self.old }
        ensures families { self.new.families ≡ self.old.families }
        ensures length { self.new.length ≡ self.old.length }
        ensures log { self.new.log ≡ self.old.log }
        ensures file { self.new.next_file ≡ draft.next_file }
        ensures version { OnOk result (version_in self.new ≡ draft) }

        // Of the files but that of the versions those are gone that are left over, and every other is as it was.
        ensures gone { OnOk result (IsTrusted (D.state disk.old) → (f : ℕ)
            → IsLeftOver left.now draft f → (D.state disk.new).file f ≡ None) }
        ensures others { OnOk result (IsTrusted (D.state disk.old) → (m : Layout)
            → DraftIsReady (D.state disk.old) self.old draft m → (f : ℕ) → f ≢ versions_file
            → (IsLeftOver left.now draft f → ⊥)
            → (D.state disk.new).file f ≡ (D.state disk.old).file f) }
        ensures missing { OnOk result (IsTrusted (D.state disk.old) → (m : Layout)
            → DraftIsReady (D.state disk.old) self.old draft m → (f : ℕ) → f ≢ versions_file
            → (D.state disk.old).file f ≡ None → (D.state disk.new).file f ≡ None) }

        // At each moment the last version is that in hand, or the draft.
        ensures one_version { IsTrusted (D.state disk.old) → (m : Layout)
            → DraftIsReady (D.state disk.old) self.old draft m
            → Spans (D.state disk.old) (D.state disk.new) (λ _. ⊤)
            (HasOneOf (version_in self.old) draft) }

        // A stop at any moment of the call, also one that fails, leaves the layout of the last version or that of the draft.
        ensures any_moment { IsTrusted (D.state disk.old) → (l m : Layout)
            → IsLying (D.state disk.old) self.old.manifest l
            → DraftIsReady (D.state disk.old) self.old draft m
            → Spans (D.state disk.old) (D.state disk.new) (λ _. ⊤) (HasEither l m) }
        ensures unspent { IfErr result EngineFaultIsOutside }
        ensures goes { Goes (D.state disk.old) (D.state disk.new) }
        ensures cause { IsErrOf result EngineFault.Failed
            → Rose (D.state disk.old).faults (D.state disk.new).faults }
        ensures well { OnOk result ((D.state disk.new).faults ≡ (D.state disk.old).faults) }
    {
        self.next_file = draft.next_file;
        self.full = has_full(&self.families, self.limits.flush);
        self.manifest.append(disk, draft)?;
        match remove_left_over(disk, left, self.manifest.current()) {
            Ok(()) => Ok(()),
            Err(Failed) => Err(EngineFault::Failed),
        }
    }
}
