//! The engine of what the files of a store hold as they read, before any of the others goes.

ghost use Rattle.std.specs.Prelude.{◌≡◌, max, IfOk, IfErr, IsErrOf, IsTrue};
ghost use Rattle.alt_base.specs.Counts.{Rose};
ghost use Rattle.alt_disk.specs.Disk.{Goes};
ghost use Rattle.alt_disk.specs.Runs.{Quiet};
ghost use Rattle.alt_layout.specs.Fresh.{versions_file};
ghost use Rattle.alt_layout.specs.Layout.{Layout};
ghost use Rattle.alt_manifest.specs.InHand.{file_of_manifest, version_of, ReadsVersion as ManifestReads};
ghost use Rattle.alt_hand.specs.Found.{Found};
ghost use Rattle.alt_hand.specs.InHand.{limits_of};
ghost use Rattle.alt_hand.specs.Recovery.{ExplainsStore};

use crate::hand::{Hand, Limits};
use crate::recover::RecoverFault;
use alt_disk::Disk;
use alt_drafts::VERSIONS;
use alt_gatelog::GateLog;
use alt_manifest::Manifest;
use alt_recovery::{Replay, flushed_numbers, open_families, replay_segments};
use std::alloc::Global;

/// The engine of what the files hold. Its next file is that of the last version.
pub(crate) fn read_store<D: Disk>(
    alloc: Global,
    disk: &mut D,
    limits: Limits,
) -> Result<Hand, RecoverFault>
    ensures ok { IfOk result (λ e. IsTrue (D.state disk.old).tells → (l : Layout)
        × Found (D.state disk.new) e l) }
    ensures limits { IfOk result (λ e. limits_of e ≡ limits) }
    ensures damaged { IsTrue (D.state disk.old).tells
        → IfErr result (ExplainsStore (D.state disk.old).file) }
    ensures quiet { IsTrue (D.state disk.old).tells
        → Quiet (D.state disk.old) (D.state disk.new) }
    ensures goes { Goes (D.state disk.old) (D.state disk.new) }
    ensures cause { IsErrOf result RecoverFault.Failed
        → Rose (D.state disk.old).faults (D.state disk.new).faults }
    ensures well { (IsErrOf result RecoverFault.Failed → ⊥)
        → (D.state disk.new).faults ≡ (D.state disk.old).faults }
{
    match Manifest::recover(alloc, disk, VERSIONS) {
        Ok(manifest) => read_version(alloc, disk, limits, manifest),
        Err(fault) => Err(RecoverFault::from(fault)),
    }
}

/// The engine of what the files hold that the version in hand names.
fn read_version<D: Disk>(
    alloc: Global,
    disk: &mut D,
    limits: Limits,
    manifest: Manifest,
) -> Result<Hand, RecoverFault>
    ensures ok { IfOk result (λ e. IsTrue (D.state disk.old).tells
        → ManifestReads (D.state disk.old) manifest → file_of_manifest manifest ≡ versions_file
        → (l : Layout) × Found (D.state disk.new) e l) }
    ensures limits { IfOk result (λ e. limits_of e ≡ limits) }
    ensures damaged { IsTrue (D.state disk.old).tells
        → ManifestReads (D.state disk.old) manifest → file_of_manifest manifest ≡ versions_file
        → IfErr result (ExplainsStore (D.state disk.old).file) }
    ensures quiet { IsTrue (D.state disk.old).tells
        → Quiet (D.state disk.old) (D.state disk.new) }
    ensures goes { Goes (D.state disk.old) (D.state disk.new) }
    ensures cause { IsErrOf result RecoverFault.Failed
        → Rose (D.state disk.old).faults (D.state disk.new).faults }
    ensures well { (IsErrOf result RecoverFault.Failed → ⊥)
        → (D.state disk.new).faults ≡ (D.state disk.old).faults }
{
    let families = match open_families(alloc, disk, manifest.current().families.as_slice()) {
        Ok(families) => families,
        Err(fault) => return Err(RecoverFault::from(fault)),
    };
    let flushed = flushed_numbers(alloc, manifest.current().families.as_slice())?;
    let mut replay = Replay {
        families,
        flushed,
        least: 1,
        length: 0,
    };
    match replay_segments(
        alloc,
        disk,
        manifest.current().segments.as_slice(),
        &mut replay,
    ) {
        Ok(log) => Ok(engine_of(alloc, limits, manifest, log, replay)),
        Err(fault) => Err(RecoverFault::from(fault)),
    }
}

/// The engine of a version and of what was replayed.
fn engine_of(
    alloc: Global,
    limits: Limits,
    manifest: Manifest,
    log: GateLog,
    replay: Replay,
) -> Hand
    ensures limits { result.limits ≡ limits }
    ensures manifest { result.manifest ≡ manifest }
    ensures log { result.log ≡ log }
    ensures length { result.length ≡ replay.length }
    ensures next { result.next ≡ max (version_of manifest).next_number replay.least }
    ensures next_file { result.next_file ≡ (version_of manifest).next_file }
    ensures families { result.families ≡ replay.families }
{
    let Replay {
        families,
        least,
        length,
        ..
    } = replay;
    let next = manifest.current().next_number.max(least);
    let next_file = manifest.current().next_file;
    Hand {
        alloc,
        limits,
        manifest,
        log,
        length,
        next,
        next_file,
        families,
        full: true,
    }
}
