//! The log of versions in hand: its last version says which files hold the rows of the store.

ghost use Rattle.std.specs.Prelude.{◌≡◌, ℕ, List, IfOk, IfErr, IsErrOf, IsTrue};
ghost use Rattle.alt_base.specs.Counts.{Rose};
ghost use Rattle.alt_disk.specs.Disk.{Goes};
ghost use Rattle.alt_disk.specs.Runs.{Quiet};
ghost use Rattle.alt_gatelog.specs.InHand.{ReadsEntries as LogReads};
ghost use Rattle.alt_manifest.specs.InHand.{version_of};
ghost use Rattle.alt_manifest.specs.Recovery.{EndsWithVersion, ExplainsLast};

use crate::format::bytes_of;
use crate::read::{Stop, version_of_bytes};
use crate::version::Version;
use alt_base::NoMemory;
use alt_disk::{Disk, DiskFault, Failed};
use alt_gatelog::{Form, GateLog, LogFault, frame_of};
use std::alloc::Global;

/// A log of versions in a file, of the first form, with the last one in memory.
#[derive(Drop)]
pub struct Manifest {
    pub(crate) alloc: Global,
    pub(crate) log: GateLog,
    pub(crate) version: Version,
}

impl Manifest {
    ghost use Rattle.std.specs.Prelude.{◌≡◌, None, IfErr, IfOk, OnOk, OnErr, IsErrOf, IsTrue, ⊤};
    ghost use Rattle.alt_gatelog.specs.InHand.{HasPlace, IsFramed};
    ghost use Rattle.alt_base.specs.Counts.{Rose};
    ghost use Rattle.alt_disk.specs.Disk.{IsTrusted, Goes};
    ghost use Rattle.alt_disk.specs.Runs.{Run, Quiet};
    ghost use Rattle.alt_manifest.specs.Recovery.{ExplainsVersions};
    ghost use Rattle.alt_manifest.specs.Versions.{IsVersion, version_bytes};
    ghost use Rattle.alt_manifest.specs.InHand.{file_of_manifest, version_of, ReadsVersion, StandsForVersion, SameManifest, OldOrNew};

    /// Makes a log in a missing file, with this version as its first. An Err leaves a file that may be anything.
    pub fn make<D: Disk>(
        alloc: Global,
        disk: &mut D,
        f: u32,
        version: Version,
    ) -> Result<Manifest, DiskFault>
        requires missing { IsTrusted (D.state disk.old) → (D.state disk.old).file f ≡ None }
        requires version { IsVersion version }
        ensures file { IfOk result (λ m. file_of_manifest m ≡ f) }
        ensures version { IfOk result (λ m. version_of m ≡ version) }
        ensures made { IfOk result (λ m. IsTrusted (D.state disk.old)
            → StandsForVersion (D.state disk.new) m) }
        ensures any_moment { IsTrusted (D.state disk.old)
            → Run (D.state disk.old) (D.state disk.new) f (λ _ _. ⊤) }
        ensures goes { Goes (D.state disk.old) (D.state disk.new) }
        ensures cause { IsErrOf result DiskFault.Failed
            → Rose (D.state disk.old).faults (D.state disk.new).faults }
        ensures well { OnOk result ((D.state disk.new).faults ≡ (D.state disk.old).faults) }
    {
        let bytes = match bytes_of(alloc, &version) {
            Ok(bytes) => bytes,
            Err(_) => return Err(DiskFault::NoMemory),
        };
        let mut log = GateLog::make(alloc, disk, f, Form::One)?;
        log.append(disk, bytes.as_slice())?;
        Ok(Manifest {
            alloc,
            log,
            version,
        })
    }

    /// The version that was made, appended or recovered last.
    pub fn current(&self) -> &Version
        ensures { result.now ≡ version_of self.now }
    {
        &self.version
    }

    /// Adds a version, which then is the last. At Failed recover the log again before the next one.
    pub fn append<D: Disk>(&mut self, disk: &mut D, version: Version) -> Result<(), DiskFault>
        requires reads { IsTrusted (D.state disk.old) → ReadsVersion (D.state disk.old) self.old }
        requires version { IsTrusted (D.state disk.old) → IsVersion version }
        ensures file { file_of_manifest self.new ≡ file_of_manifest self.old }
        ensures version { OnOk result (version_of self.new ≡ version) }
        ensures ok { OnOk result (IsTrusted (D.state disk.old) → StandsForVersion (D.state disk.new) self.new) }
        ensures err { OnErr result (SameManifest self.old self.new) }

        // Where a stop left the log so before, at any moment of the call the last version is the one before or the new one.
        ensures any_moment { IsTrusted (D.state disk.old) → StandsForVersion (D.state disk.old) self.old
            → Run (D.state disk.old) (D.state disk.new) (file_of_manifest self.old)
            (OldOrNew (version_of self.old) version) }
        ensures others { IsTrusted (D.state disk.old)
            → Run (D.state disk.old) (D.state disk.new) (file_of_manifest self.old) (λ _ _. ⊤) }
        ensures no_memory { IsErrOf result DiskFault.NoMemory
            → D.state disk.new ≡ D.state disk.old }
        ensures goes { Goes (D.state disk.old) (D.state disk.new) }
        ensures cause { IsErrOf result DiskFault.Failed
            → Rose (D.state disk.old).faults (D.state disk.new).faults }
        ensures well { OnOk result ((D.state disk.new).faults ≡ (D.state disk.old).faults) }
    {
        let block = match self.prepare(&version) {
            Ok(block) => block,
            Err(_) => return Err(DiskFault::NoMemory),
        };
        self.add(disk, version, block.as_slice())?;
        Ok(())
    }

    /// Takes all memory that adding a version wants: its frame, and a place.
    pub fn prepare(&mut self, version: &Version) -> Result<Vec<u8>, NoMemory>
        ensures same { SameManifest self.old self.new }
        ensures room { OnOk result (HasPlace self.new.log) }
        ensures framed { IfOk result (λ block. IsFramed block.items (version_bytes version.now)) }
    {
        let bytes = bytes_of(self.alloc, version)?;
        let block = frame_of(self.alloc, bytes.as_slice())?;
        self.log.reserve()?;
        Ok(block)
    }

    /// Adds a version by its frame, as `append` does. It takes no memory.
    pub fn add<D: Disk>(
        &mut self,
        disk: &mut D,
        version: Version,
        block: &[u8],
    ) -> Result<(), Failed>
        requires reads { IsTrusted (D.state disk.old) → ReadsVersion (D.state disk.old) self.old }
        requires version { IsTrusted (D.state disk.old) → IsVersion version }
        requires framed { IsFramed block.now (version_bytes version) }
        requires room { HasPlace self.old.log }
        ensures file { file_of_manifest self.new ≡ file_of_manifest self.old }
        ensures version { OnOk result (version_of self.new ≡ version) }
        ensures ok { OnOk result (IsTrusted (D.state disk.old) → StandsForVersion (D.state disk.new) self.new) }
        ensures err { OnErr result (SameManifest self.old self.new) }
        ensures any_moment { IsTrusted (D.state disk.old) → StandsForVersion (D.state disk.old) self.old
            → Run (D.state disk.old) (D.state disk.new) (file_of_manifest self.old)
            (OldOrNew (version_of self.old) version) }
        ensures others { IsTrusted (D.state disk.old)
            → Run (D.state disk.old) (D.state disk.new) (file_of_manifest self.old) (λ _ _. ⊤) }
        ensures goes { Goes (D.state disk.old) (D.state disk.new) }
        ensures cause { OnErr result (Rose (D.state disk.old).faults (D.state disk.new).faults) }
        ensures well { OnOk result ((D.state disk.new).faults ≡ (D.state disk.old).faults) }
    {
        self.log.add(disk, block)?;
        self.version = version;
        Ok(())
    }

    /// Reads the log of a file and its last entry, which is to be a version.
    pub fn recover<D: Disk>(alloc: Global, disk: &mut D, f: u32) -> Result<Manifest, LogFault>
        ensures file { IfOk result (λ m. file_of_manifest m ≡ f) }
        ensures reads { IfOk result (λ m. IsTrue (D.state disk.old).tells
            → ReadsVersion (D.state disk.new) m) }
        ensures explained { IsTrue (D.state disk.old).tells
            → IfErr result (ExplainsVersions f ((D.state disk.old).file f)) }
        ensures quiet { IsTrue (D.state disk.old).tells
            → Quiet (D.state disk.old) (D.state disk.new) }
        ensures goes { Goes (D.state disk.old) (D.state disk.new) }
        ensures cause { IsErrOf result LogFault.Failed
            → Rose (D.state disk.old).faults (D.state disk.new).faults }
        ensures well { (IsErrOf result LogFault.Failed → ⊥)
            → (D.state disk.new).faults ≡ (D.state disk.old).faults }
    {
        match GateLog::recover(alloc, disk, f) {
            Ok(log) => match log.form() {
                Form::One => last_version(alloc, disk, f, log),
                Form::Two => Err(LogFault::Damaged { file: f, at: 0 }),
            },
            Err(fault) => Err(fault),
        }
    }
}

/// The log in hand with its last entry, which is to be a version. The entries before it aren't read.
fn last_version<D: Disk>(
    alloc: Global,
    disk: &mut D,
    f: u32,
    log: GateLog,
) -> Result<Manifest, LogFault>
    ensures log { IfOk result (λ m. m.log ≡ log) }
    ensures ok { IfOk result (λ m. IsTrue (D.state disk.old).tells → (entries : List (List ℕ))
        → LogReads (D.state disk.old) log entries → EndsWithVersion (version_of m) entries) }
    ensures damaged { IsTrue (D.state disk.old).tells → (entries : List (List ℕ))
        → LogReads (D.state disk.old) log entries → IfErr result (ExplainsLast f entries) }
    ensures quiet { IsTrue (D.state disk.old).tells
        → Quiet (D.state disk.old) (D.state disk.new) }
    ensures goes { Goes (D.state disk.old) (D.state disk.new) }
    ensures cause { IsErrOf result LogFault.Failed
        → Rose (D.state disk.old).faults (D.state disk.new).faults }
    ensures well { (IsErrOf result LogFault.Failed → ⊥)
        → (D.state disk.new).faults ≡ (D.state disk.old).faults }
{
    let mut log = log;
    let count = log.entries();
    if count == 0 {
        return Err(LogFault::Damaged { file: f, at: 8 });
    }
    let mut bytes = Vec::new(alloc);
    match log.entry(disk, count - 1, &mut bytes) {
        Ok(()) => {}
        Err(fault) => return Err(fault),
    }
    match version_of_bytes(alloc, bytes.as_slice()) {
        Ok(version) => Ok(Manifest {
            alloc,
            log,
            version,
        }),
        Err(Stop::Bad) => Err(LogFault::Damaged {
            file: f,
            at: log.place(count - 1),
        }),
        Err(Stop::NoMemory) => Err(LogFault::NoMemory),
    }
}
