//! The digest of a file's bytes, read in pieces.

ghost use Rattle.std.specs.Prelude.{◌≡◌, ◌≤◌, ◌+◌, true, length, take, drop, IfOk, IfSome, IfNone, OnErr, IsErrOf, IsTrue, is_ok};
ghost use Rattle.alt_base.specs.Counts.{Rose};
ghost use Rattle.alt_disk.specs.Disk.{Goes, contents};
ghost use Rattle.alt_disk.specs.Runs.{Quiet};
ghost use Rattle.sha2.specs.Sha256.{sha256};

use crate::pieces::{bytes_at, fill};
use alt_disk::{Disk, DiskFault, Failed};
use sha2::{Digest, Sha256};
use std::alloc::Global;

const PIECE: u64 = 65536;

/// The digest of the bytes of a file up to a place, which are held in pieces. None where the file ends earlier. `Failed` where the disk
/// fails, with its count of faults risen; `NoMemory` where memory is refused.
pub fn digest_up_to<D: Disk>(
    alloc: Global,
    disk: &mut D,
    f: u32,
    end: u64,
) -> Result<Option<[u8; 32]>, DiskFault>
    ensures digest { IsTrue (D.state disk.old).tells → IfOk result (λ o. IfSome o (λ digest.
        digest ≡ sha256 (take end (contents (D.state disk.old) f)))) }
    ensures short { IsTrue (D.state disk.old).tells
        → end ≤ length (contents (D.state disk.old) f) → IfOk result (λ o. IfNone o ⊥) }
    ensures quiet { IsTrue (D.state disk.old).tells
        → Quiet (D.state disk.old) (D.state disk.new) }
    ensures goes { Goes (D.state disk.old) (D.state disk.new) }
    ensures cause { IsErrOf result DiskFault.Failed
        → Rose (D.state disk.old).faults (D.state disk.new).faults }
    ensures well { (IsErrOf result DiskFault.Failed → ⊥)
        → (D.state disk.new).faults ≡ (D.state disk.old).faults }
{
    let mut hasher = Sha256::new();
    let mut at: u64 = 0;
    'pieces: while at < end {
        let count = PIECE.min(end - at);
        let Some(piece) = bytes_at(alloc, disk, f, at, count as usize)? else {
            return Ok(None);
        };
        hasher.update(piece.as_slice());
        at += count;
    }
    Ok(Some(hasher.finalize()))
}

/// The 32 bytes at a place. None where the file ends earlier. It fails where the disk does, with its count of faults risen.
pub fn digest_at<D: Disk>(disk: &mut D, f: u32, at: u64) -> Result<Option<[u8; 32]>, Failed>
    ensures digest { IsTrue (D.state disk.old).tells → IfOk result (λ o. IfSome o (λ digest.
        digest ≡ take 32 (drop at (contents (D.state disk.old) f)))) }
    ensures short { IsTrue (D.state disk.old).tells
        → at + 32 ≤ length (contents (D.state disk.old) f) → IfOk result (λ o. IfNone o ⊥) }
    ensures quiet { IsTrue (D.state disk.old).tells
        → Quiet (D.state disk.old) (D.state disk.new) }
    ensures goes { Goes (D.state disk.old) (D.state disk.new) }
    ensures cause { OnErr result (Rose (D.state disk.old).faults (D.state disk.new).faults) }
    ensures well { is_ok result ≡ true
        → (D.state disk.new).faults ≡ (D.state disk.old).faults }
{
    let mut digest = [0u8; 32];
    if fill(disk, f, at, &mut digest)? {
        Ok(Some(digest))
    } else {
        Ok(None)
    }
}
