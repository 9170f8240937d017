//! A fresh store: an empty log of writes, and a log of versions with the first one.

ghost use Rattle.std.specs.Prelude.{◌≡◌, ◌≢◌, ℕ, List, [], Option, None, IsTrue, IfErr, IsErrOf, OnOk, ⊤};
ghost use Rattle.alt_base.specs.Counts.{Rose};
ghost use Rattle.alt_disk.specs.Disk.{IsTrusted, Goes, IsImage, IsNames};
ghost use Rattle.alt_disk.specs.Runs.{Spans, Quiet};
ghost use Rattle.alt_layout.specs.Layout.{no_rows};
ghost use Rattle.alt_layout.specs.Fresh.{IsFresh, IsFreshStoreFile};
ghost use Rattle.alt_layout.specs.Files.{IsLayout};
ghost use Rattle.alt_drafts.specs.Making.{HasSegment, LeavesNoVersions, NamesFirst};

use alt_disk::{Disk, DiskFault};
use alt_gatelog::{Form, GateLog};
use std::alloc::Global;

/// The file of the versions.
pub const VERSIONS: u32 = 1;

/// The file of the writes.
const ENTRIES: u32 = 2;

/// The first version: next file 3, next number 1, the segment of file 2, and no families.
const FIRST_VERSION: [u8; 32] = [
    0, 0, 0, 3, 0, 0, 0, 0, 0, 0, 0, 1, 0, 0, 0, 0, 0, 0, 0, 1, 0, 0, 0, 2, 0, 0, 0, 0, 0, 0, 0, 0,
];

/// Why a store wasn't made.
#[derive(Clone, Copy, Debug, PartialEq, Eq, Drop)]
pub enum MakeFault {
    /// A file is there already, this one first.
    NotEmpty { first: u32 },
    /// The disk failed, and its count of faults rose.
    Failed,
    /// Memory was refused.
    NoMemory,
}

impl From<DiskFault> for MakeFault {
    ghost use Rattle.alt_drafts.specs.Making.{made_fault};

    ghost from_gives = { λ fault e. e ≡ made_fault fault };

    fn from(fault: DiskFault) -> Self {
        match fault {
            DiskFault::Failed => MakeFault::Failed,
            DiskFault::NoMemory => MakeFault::NoMemory,
        }
    }
}

/// Makes a fresh store on a disk without files.
pub fn make_store<D: Disk>(alloc: Global, disk: &mut D) -> Result<(), MakeFault>
    ensures fresh { OnOk result (IsTrusted (D.state disk.old) → IsFresh (D.state disk.new)) }
    ensures images { OnOk result (IsTrusted (D.state disk.old) → (image : ℕ → Option (List ℕ))
        → IsImage (D.state disk.new) (D.state disk.new).moment image → IsLayout image no_rows) }
    ensures empty { OnOk result (IsTrue (D.state disk.old).tells
        → (f : ℕ) → (D.state disk.old).file f ≡ None) }
    ensures not_empty { IsTrue (D.state disk.old).tells
        → IfErr result (NamesFirst (D.state disk.old).file) }
    ensures untouched { IsTrue (D.state disk.old).tells → (f : ℕ)
        → (D.state disk.old).file f ≢ None → Quiet (D.state disk.old) (D.state disk.new) }
    ensures others { IsTrusted (D.state disk.old)
        → Spans (D.state disk.old) (D.state disk.new) IsFreshStoreFile (λ _ _. ⊤) }
    // A stop at any moment leaves no version without the segment that it names, unless one was left before.
    ensures segment { IsTrusted (D.state disk.old) → LeavesNoVersions (D.state disk.old)
        → Spans (D.state disk.old) (D.state disk.new) IsFreshStoreFile HasSegment }
    ensures goes { Goes (D.state disk.old) (D.state disk.new) }
    ensures cause { IsErrOf result MakeFault.Failed
        → Rose (D.state disk.old).faults (D.state disk.new).faults }
    ensures well { OnOk result ((D.state disk.new).faults ≡ (D.state disk.old).faults) }
{
    match no_files(alloc, disk) {
        Ok(()) => {}
        Err(fault) => return Err(fault),
    }
    let _ = GateLog::make(alloc, disk, ENTRIES, Form::Two)?;
    let mut versions = GateLog::make(alloc, disk, VERSIONS, Form::One)?;
    versions.append(disk, &FIRST_VERSION)?;
    Ok(())
}

// Whether there is no file.
fn no_files<D: Disk>(alloc: Global, disk: &mut D) -> Result<(), MakeFault>
    ensures none { OnOk result (IsTrue (D.state disk.old).tells
        → (f : ℕ) → (D.state disk.new).file f ≡ None) }
    ensures not_empty { IsTrue (D.state disk.old).tells
        → IfErr result (NamesFirst (D.state disk.old).file) }
    ensures quiet { IsTrue (D.state disk.old).tells
        → Quiet (D.state disk.old) (D.state disk.new) }
    ensures goes { Goes (D.state disk.old) (D.state disk.new) }
    ensures cause { IsErrOf result MakeFault.Failed
        → Rose (D.state disk.old).faults (D.state disk.new).faults }
    ensures well { OnOk result ((D.state disk.new).faults ≡ (D.state disk.old).faults) }
{
    let mut list = Vec::new(alloc);
    match disk.names(&mut list) {
        Ok(()) => none_of(list.as_slice()),
        Err(DiskFault::Failed) => Err(MakeFault::Failed),
        Err(DiskFault::NoMemory) => Err(MakeFault::NoMemory),
    }
}

// Whether these numbers of files are none.
fn none_of(list: &[u32]) -> Result<(), MakeFault>
    ensures none { OnOk result (list.now ≡ []) }
    ensures first { (file : ℕ → Option (List ℕ)) → IsNames list.now file
        → IfErr result (NamesFirst file) }
    ensures cause { IsErrOf result MakeFault.Failed → ⊥ }
{
    if list.is_empty() {
        return Ok(());
    }
    Err(MakeFault::NotEmpty { first: list[0] })
}
