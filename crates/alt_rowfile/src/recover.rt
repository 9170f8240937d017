//! Reading a row file, twice: first for its digest, and then for its blocks. Neither the file nor its index is held on the way.

ghost use Rattle.std.specs.Prelude.{◌≡◌, ◌+◌, List, length, take, IfOk, IfErr, OnOk, IsErrOf, IsTrue};
ghost use Rattle.alt_base.specs.Counts.{Rose};
ghost use Rattle.alt_disk.specs.Disk.{Goes, contents};
ghost use Rattle.alt_disk.specs.Runs.{Quiet};
ghost use Rattle.sha2.specs.Sha256.{sha256};
ghost use Rattle.alt_rowblocks.specs.Format.{Entry};
ghost use Rattle.alt_rowfile.specs.InHand.{FileAs, file_of};
ghost use Rattle.alt_rowfile.specs.Recovery.{ExplainsFile, HasDigest};

use crate::fault::RowFileFault;
use crate::rowfile::RowFile;
use alt_disk::{Disk, DiskFault};
use alt_rowblocks::{body_of, digest_at, digest_up_to, is_same};
use std::alloc::Global;

/// The row file of a file of the disk.
pub(crate) fn recover_file<D: Disk>(
    alloc: Global,
    disk: &mut D,
    f: u32,
) -> Result<RowFile, RowFileFault>
    ensures file { IfOk result (λ file. file_of file ≡ f) }
    ensures reads { IfOk result (λ file. IsTrue (D.state disk.old).tells → (rows : List Entry)
        × FileAs (contents (D.state disk.old) f) file.marks.items file.end file.summary
        file.filters.items rows) }
    ensures explained { IsTrue (D.state disk.old).tells
        → IfErr result (ExplainsFile f (contents (D.state disk.old) f)) }
    ensures quiet { IsTrue (D.state disk.old).tells
        → Quiet (D.state disk.old) (D.state disk.new) }
    ensures goes { Goes (D.state disk.old) (D.state disk.new) }
    ensures cause { IsErrOf result RowFileFault.Failed
        → Rose (D.state disk.old).faults (D.state disk.new).faults }
    ensures well { (IsErrOf result RowFileFault.Failed → ⊥)
        → (D.state disk.new).faults ≡ (D.state disk.old).faults }
{
    let size = disk.size(f)?;
    if size < 32 {
        return Err(RowFileFault::Damaged { file: f, at: 0 });
    }
    match test_digest(alloc, disk, f, size - 32) {
        Ok(()) => {}
        Err(fault) => return Err(fault),
    }
    match body_of(alloc, disk, f, size - 32) {
        Ok(Some((found, end))) => Ok(RowFile {
            alloc,
            file: f,
            marks: found.marks,
            end,
            summary: found.summary,
            filters: found.filters,
        }),
        Ok(None) => Err(RowFileFault::Damaged { file: f, at: 0 }),
        Err(DiskFault::Failed) => Err(RowFileFault::Failed),
        Err(DiskFault::NoMemory) => Err(RowFileFault::NoMemory),
    }
}

// Tests the digest that stands at a place against that of the bytes before it.
fn test_digest<D: Disk>(alloc: Global, disk: &mut D, f: u32, at: u64) -> Result<(), RowFileFault>
    ensures agrees { IsTrue (D.state disk.old).tells
        → length (contents (D.state disk.old) f) ≡ at + 32
        → OnOk result (HasDigest (contents (D.state disk.old) f)) }
    ensures explained { IsTrue (D.state disk.old).tells
        → length (contents (D.state disk.old) f) ≡ at + 32
        → IfErr result (ExplainsFile f (contents (D.state disk.old) f)) }
    ensures quiet { IsTrue (D.state disk.old).tells
        → Quiet (D.state disk.old) (D.state disk.new) }
    ensures goes { Goes (D.state disk.old) (D.state disk.new) }
    ensures cause { IsErrOf result RowFileFault.Failed
        → Rose (D.state disk.old).faults (D.state disk.new).faults }
    ensures well { (IsErrOf result RowFileFault.Failed → ⊥)
        → (D.state disk.new).faults ≡ (D.state disk.old).faults }
{
    match digest_up_to(alloc, disk, f, at) {
        Ok(Some(found)) => compare(disk, f, at, found),
        Ok(None) => Err(RowFileFault::Damaged { file: f, at: 0 }),
        Err(DiskFault::Failed) => Err(RowFileFault::Failed),
        Err(DiskFault::NoMemory) => Err(RowFileFault::NoMemory),
    }
}

// Compares the 32 bytes at a place with the digest of those before it.
fn compare<D: Disk>(disk: &mut D, f: u32, at: u64, found: [u8; 32]) -> Result<(), RowFileFault>
    ensures agrees { IsTrue (D.state disk.old).tells
        → length (contents (D.state disk.old) f) ≡ at + 32
        → found ≡ sha256 (take at (contents (D.state disk.old) f))
        → OnOk result (HasDigest (contents (D.state disk.old) f)) }
    ensures explained { IsTrue (D.state disk.old).tells
        → length (contents (D.state disk.old) f) ≡ at + 32
        → found ≡ sha256 (take at (contents (D.state disk.old) f))
        → IfErr result (ExplainsFile f (contents (D.state disk.old) f)) }
    ensures quiet { IsTrue (D.state disk.old).tells
        → Quiet (D.state disk.old) (D.state disk.new) }
    ensures goes { Goes (D.state disk.old) (D.state disk.new) }
    ensures cause { IsErrOf result RowFileFault.Failed
        → Rose (D.state disk.old).faults (D.state disk.new).faults }
    ensures well { (IsErrOf result RowFileFault.Failed → ⊥)
        → (D.state disk.new).faults ≡ (D.state disk.old).faults }
{
    match digest_at(disk, f, at) {
        Ok(Some(there)) => {
            let kept = there;
            if is_same(&found, &kept) {
                return Ok(());
            }
            Err(RowFileFault::DigestDiffers {
                file: f,
                kept,
                found,
            })
        }
        Ok(None) => Err(RowFileFault::Damaged { file: f, at: 0 }),
        Err(_) => Err(RowFileFault::Failed),
    }
}
