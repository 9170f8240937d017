//! Bytes into a reader's buffer, and out of a writer's.

ghost use Rattle.std.specs.Prelude.{IfSome};
ghost use Rattle.alt_disk.specs.Disk.{Read};
ghost use Rattle.alt_disk.specs.Memory.{WritesBytes};
ghost use Rattle.alt_disk.specs.Written.{IsWrite};

use crate::made::Deed;
use std::alloc::Global;

/// Fills the buffer's front with the bytes from a place on, as many as there are, and answers how many.
pub(crate) fn copy_from(bytes: &[u8], at: u64, buf: &mut [u8]) -> usize
    ensures { Read bytes.now at buf.old buf.new result }
{
    if at >= bytes.len() as u64 {
        return 0;
    }
    let rest = &bytes[at as usize..];
    let count = rest.len().min(buf.len());
    buf[..count].copy_from_slice(&rest[..count]);
    count
}

/// A write of these bytes, none where there is no memory for it.
pub(crate) fn write_deed(alloc: Global, at: u64, bytes: &[u8]) -> Option<Deed>
    ensures write { IfSome result (λ deed. IsWrite at bytes.now deed) }
    ensures bytes { IfSome result (λ deed. WritesBytes deed) }
{
    match bytes.to_vec(alloc) {
        Ok(bytes) => Some(Deed::Write { at, bytes }),
        Err(_) => None,
    }
}
