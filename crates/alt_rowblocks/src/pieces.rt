//! Pieces of a file, read whole.

ghost use Rattle.std.specs.Prelude.{◌≡◌, ◌≤◌, ◌+◌, ◌<◌, ◌^◌, true, false, length, take, drop, IfOk, IfSome, IfNone, OnErr, IsErrOf, IsTrue, is_ok};
ghost use Rattle.std.specs.Int.{w64, to_be_bytes};
ghost use Rattle.alt_base.specs.Counts.{Rose};
ghost use Rattle.alt_disk.specs.Disk.{Goes, contents};
ghost use Rattle.alt_disk.specs.Runs.{Quiet};
ghost use Rattle.alt_rowblocks.specs.Pieces.{ReadIs, ReadsOnce};

use alt_disk::{Disk, DiskFault, Failed};
use std::alloc::Global;

/// Fills a buffer with the bytes from a place on. False where the file ends earlier.
pub(crate) fn fill<D: Disk>(disk: &mut D, f: u32, at: u64, buf: &mut [u8]) -> Result<bool, Failed>
    ensures filled { IsTrue (D.state disk.old).tells → IfOk result (λ full. full ≡ true
        → buf.new ≡ take (length buf.old) (drop at (contents (D.state disk.old) f))) }
    ensures short { IsTrue (D.state disk.old).tells → IfOk result (λ full. full ≡ false
        → length (contents (D.state disk.old) f) < at + length buf.old) }
    ensures size { length buf.new ≡ length buf.old }
    ensures quiet { IsTrue (D.state disk.old).tells
        → Quiet (D.state disk.old) (D.state disk.new) }
    ensures goes { Goes (D.state disk.old) (D.state disk.new) }
    ensures cause { OnErr result (Rose (D.state disk.old).faults (D.state disk.new).faults) }
    ensures well { is_ok result ≡ true
        → (D.state disk.new).faults ≡ (D.state disk.old).faults }
    ensures one { ReadIs (D.state disk.old) (D.state disk.new) f at (length buf.old) }
    ensures reads { (D.state disk.new).reads ≤ (D.state disk.old).reads + 1 }
{
    let count = disk.read(f, at, buf)?;
    Ok(count == buf.len())
}

/// So many bytes from a place on, by one read. None where the file ends earlier. `Failed` where the disk fails, with its count of faults
/// risen; `NoMemory` where memory is refused.
pub fn bytes_at<D: Disk>(
    alloc: Global,
    disk: &mut D,
    f: u32,
    at: u64,
    count: usize,
) -> Result<Option<Vec<u8>>, DiskFault>
    ensures bytes { IsTrue (D.state disk.old).tells → IfOk result (λ o. IfSome o (λ v.
        v.items ≡ take count (drop at (contents (D.state disk.old) f)))) }
    ensures short { IsTrue (D.state disk.old).tells
        → at + count ≤ length (contents (D.state disk.old) f) → IfOk result (λ o. IfNone o ⊥) }
    ensures size { IfOk result (λ o. IfSome o (λ v. length v.items ≡ count)) }
    ensures quiet { IsTrue (D.state disk.old).tells
        → Quiet (D.state disk.old) (D.state disk.new) }
    ensures goes { Goes (D.state disk.old) (D.state disk.new) }
    ensures cause { IsErrOf result DiskFault.Failed
        → Rose (D.state disk.old).faults (D.state disk.new).faults }
    ensures well { (IsErrOf result DiskFault.Failed → ⊥)
        → (D.state disk.new).faults ≡ (D.state disk.old).faults }
    ensures one { ReadsOnce (D.state disk.old) (D.state disk.new) f at count }
    ensures reads { (D.state disk.new).reads ≤ (D.state disk.old).reads + 1 }
{
    let mut bytes = Vec::new(alloc);
    bytes.resize(count, 0)?;
    if fill(disk, f, at, bytes.as_mut_slice())? {
        Ok(Some(bytes))
    } else {
        Ok(None)
    }
}

/// The number that eight bytes spell.
pub(crate) fn number_of(bytes: &[u8]) -> u64
    requires { length bytes.now ≡ 8 }
    ensures number { to_be_bytes w64 result ≡ bytes.now }
    ensures small { result < 2 ^ 64 }
{
    u64::from_be_bytes([
        bytes[0], bytes[1], bytes[2], bytes[3], bytes[4], bytes[5], bytes[6], bytes[7],
    ])
}
