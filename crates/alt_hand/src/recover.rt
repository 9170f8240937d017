//! Opening a store: what its files hold, and why they have no layout.

ghost use Rattle.std.specs.Prelude.{◌≡◌, ⊤, ℕ, List, None, IfOk, IfErr, OnOk, OnErr, IsErrOf, IsTrue};
ghost use Rattle.alt_base.specs.Counts.{Rose};
ghost use Rattle.alt_disk.specs.Disk.{IsNames, IsTrusted, Goes};
ghost use Rattle.alt_disk.specs.Runs.{Spans};
ghost use Rattle.alt_layout.specs.Files.{IsLayout, IsOf};
ghost use Rattle.alt_layout.specs.Fresh.{versions_file};
ghost use Rattle.alt_layout.specs.Layout.{Layout};
ghost use Rattle.alt_manifest.specs.Versions.{HasVersion};
ghost use Rattle.alt_manifest.specs.declared.version.Version.{Version};
ghost use Rattle.alt_recovery.specs.Others.{IsOther, next_past};
ghost use Rattle.alt_hand.specs.Found.{Found, IsSound, version_in};
ghost use Rattle.alt_hand.specs.InHand.{HandReadsLayout, HandStandsForLayout, limits_of, next_file_of};
ghost use Rattle.alt_hand.specs.Recovery.{ExplainsStore, HasNoLayout, IsNextFile, LeavesFiles, LeavesStore, LeftLike};
ghost use Rattle.alt_hand.specs.Syncing.{AllSynced};

use crate::found::read_store;
use crate::hand::{Hand, Limits};
use crate::sync::sync_all;
use alt_base::NoMemory;
use alt_disk::{Disk, DiskFault};
use alt_drafts::has_full;
use alt_flush::remove_left_over;
use alt_gatelog::LogFault;
use alt_recovery::next_file;
use alt_rowfile::RowFileFault;
use std::alloc::Global;

/// Why a store wasn't recovered.
#[derive(Clone, Copy, Debug, PartialEq, Eq, Drop)]
pub enum RecoverFault {
    /// The files are no store's, for the bytes of this file at this place.
    Damaged {
        file: u32,
        at: u64,
    },
    /// A row file ends with a digest that isn't that of the bytes before it.
    DigestDiffers {
        file: u32,
        kept: [u8; 32],
        found: [u8; 32],
    },
    /// The disk failed, and its count of faults rose.
    Failed,
    /// Memory was refused.
    NoMemory,
}

impl From<NoMemory> for RecoverFault {
    ghost use Rattle.alt_hand.specs.declared.recover.RecoverFault.TheVariants as fault;

    ghost from_gives = { λ _ f. f ≡ fault.NoMemory };

    fn from(_: NoMemory) -> Self {
        RecoverFault::NoMemory
    }
}

impl From<DiskFault> for RecoverFault {
    ghost use Rattle.alt_hand.specs.Found.{disk_fault};

    ghost from_gives = { λ given f. f ≡ disk_fault given };

    fn from(fault: DiskFault) -> Self {
        match fault {
            DiskFault::Failed => RecoverFault::Failed,
            DiskFault::NoMemory => RecoverFault::NoMemory,
        }
    }
}

impl From<LogFault> for RecoverFault {
    ghost use Rattle.alt_hand.specs.Found.{log_fault};

    ghost from_gives = { λ given f. f ≡ log_fault given };

    fn from(fault: LogFault) -> Self {
        match fault {
            LogFault::Damaged { file, at } => RecoverFault::Damaged { file, at },
            LogFault::Failed => RecoverFault::Failed,
            LogFault::NoMemory => RecoverFault::NoMemory,
        }
    }
}

impl From<RowFileFault> for RecoverFault {
    ghost use Rattle.alt_hand.specs.Found.{rows_fault};

    ghost from_gives = { λ given f. f ≡ rows_fault given };

    fn from(fault: RowFileFault) -> Self {
        match fault {
            RowFileFault::Damaged { file, at } => RecoverFault::Damaged { file, at },
            RowFileFault::DigestDiffers { file, kept, found } => {
                RecoverFault::DigestDiffers { file, kept, found }
            }
            RowFileFault::Failed => RecoverFault::Failed,
            RowFileFault::NoMemory => RecoverFault::NoMemory,
        }
    }
}

impl Hand {
    /// Opens the store of a disk: it syncs every file, reads the last version with the row files and the segments that it names, and
    /// then removes every other file but that of the versions.
    pub fn recover<D: Disk>(
        alloc: Global,
        disk: &mut D,
        limits: Limits,
    ) -> Result<Hand, RecoverFault>
        // At Ok the engine is that of the rows that the files held and hold.
        ensures ok { IfOk result (λ e. IsTrue (D.state disk.old).tells → (l : Layout)
            × IsLayout (D.state disk.old).file l × HandReadsLayout (D.state disk.new) e l) }
        // Whatever a stop leaves from then on holds these rows.
        ensures stands { IfOk result (λ e. IsTrusted (D.state disk.old) → (l : Layout)
            → HandReadsLayout (D.state disk.new) e l → HandStandsForLayout (D.state disk.new) e l) }
        ensures limits { IfOk result (λ e. limits_of e ≡ limits) }
        // And every file that is there lasts.
        ensures synced { OnOk result (IsTrusted (D.state disk.old)
            → AllSynced (D.state disk.new)) }

        // Its next file is past all that were there, those too that are removed then: each that the last version doesn't name. Where the
        // call fails, whatever the cause, none was removed before all that it names was read.
        ensures next_file { IfOk result (λ e. IsTrue (D.state disk.old).tells → (v : Version)
            → HasVersion v ((D.state disk.old).file versions_file)
            → IsNextFile v (D.state disk.old).file (next_file_of e)) }
        ensures removed { OnOk result (IsTrue (D.state disk.old).tells → (v : Version)
            → HasVersion v ((D.state disk.old).file versions_file)
            → LeavesStore v (D.state disk.old).file (D.state disk.new).file) }
        ensures none_before { IsTrue (D.state disk.old).tells
            → OnErr result (LeavesFiles (D.state disk.old).file (D.state disk.new).file) }

        // The files have, as they read, the layout that they had, also where the call fails.
        ensures files { IsTrue (D.state disk.old).tells → (l : Layout)
            → IsLayout (D.state disk.old).file l → IsLayout (D.state disk.new).file l }

        // A stop at any moment of the call, also one that fails, leaves the layout of what one left before.
        ensures any_moment { IsTrusted (D.state disk.old)
            → Spans (D.state disk.old) (D.state disk.new) (λ _. ⊤) (LeftLike (D.state disk.old)) }

        // Damaged and DigestDiffers come exactly where the files have no layout, and name a place where they have none.
        ensures damaged { IsTrue (D.state disk.old).tells
            → IfErr result (ExplainsStore (D.state disk.old).file) }
        ensures no_layout { IsTrue (D.state disk.old).tells
            → IfErr result (HasNoLayout (D.state disk.old).file) }
        ensures goes { Goes (D.state disk.old) (D.state disk.new) }
        ensures cause { IsErrOf result RecoverFault.Failed
            → Rose (D.state disk.old).faults (D.state disk.new).faults }
        ensures well { (IsErrOf result RecoverFault.Failed → ⊥)
            → (D.state disk.new).faults ≡ (D.state disk.old).faults }
    {
        match sync_all(alloc, disk) {
            Ok(()) => {}
            Err(fault) => return Err(RecoverFault::from(fault)),
        }
        match read_store(alloc, disk, limits) {
            Ok(engine) => keep_named(alloc, disk, engine),
            Err(fault) => Err(fault),
        }
    }
}

/// The engine with its next file, once the files are removed that its version doesn't name.
fn keep_named<D: Disk>(alloc: Global, disk: &mut D, engine: Hand) -> Result<Hand, RecoverFault>
    ensures ok { IfOk result (λ e. IsTrue (D.state disk.old).tells → (l : Layout)
        → Found (D.state disk.old) engine l → HandReadsLayout (D.state disk.new) e l) }
    ensures limits { IfOk result (λ e. limits_of e ≡ limits_of engine) }
    ensures next_file { IfOk result (λ e. IsTrue (D.state disk.old).tells → (names : List ℕ)
        × IsNames names (D.state disk.old).file
        × (next_file_of e ≡ next_past (next_file_of engine) names)) }
    ensures gone { OnOk result (IsTrue (D.state disk.old).tells → (f : ℕ)
        → IsOther (version_in engine) f → (D.state disk.new).file f ≡ None) }
    ensures kept { IsTrue (D.state disk.old).tells → (f : ℕ) → IsOf (version_in engine) f
        → (D.state disk.new).file f ≡ (D.state disk.old).file f }
    ensures any_moment { IsTrusted (D.state disk.old)
        → Spans (D.state disk.old) (D.state disk.new) (IsOther (version_in engine)) (λ _ _. ⊤) }
    ensures sound { IfErr result IsSound }
    ensures goes { Goes (D.state disk.old) (D.state disk.new) }
    ensures cause { IsErrOf result RecoverFault.Failed
        → Rose (D.state disk.old).faults (D.state disk.new).faults }
    ensures well { (IsErrOf result RecoverFault.Failed → ⊥)
        → (D.state disk.new).faults ≡ (D.state disk.old).faults }
{
    let mut engine = engine;
    let mut names = Vec::new(alloc);
    match disk.names(&mut names) {
        Ok(()) => {}
        Err(fault) => return Err(RecoverFault::from(fault)),
    }
    engine.next_file = next_file(engine.next_file, names.as_slice());
    engine.full = has_full(&engine.families, engine.limits.flush);
    match remove_left_over(disk, names.as_slice(), engine.manifest.current()) {
        Ok(()) => Ok(engine),
        Err(_) => Err(RecoverFault::Failed),
    }
}
