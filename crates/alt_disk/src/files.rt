//! The files of a disk in memory as they read, and what each call does to them.

ghost use Rattle.std.specs.Prelude.{◌≡◌, ◌==◌, if◌then◌else◌, ℕ, Some, OnOk, OnErr};
ghost use Rattle.alt_disk.specs.Disk.{bytes_or_none, overwritten};
ghost use Rattle.alt_disk.specs.Files.{file_in};
ghost use Rattle.alt_disk.specs.Memory.{bytes_after};

use crate::made::Deed;
use std::alloc::{AllocError, Global};
use std::collections::BTreeMap;

/// Does to the files what a call did to its file. After an error they are as before.
pub(crate) fn apply(
    alloc: Global,
    files: &mut BTreeMap<u32, Vec<u8>>,
    f: u32,
    deed: &Deed,
) -> Result<(), AllocError>
    ensures ok { OnOk result ((g : ℕ) → file_in files.new g
        ≡ (if f == g then bytes_after deed.now (file_in files.old f) else file_in files.old g)) }
    ensures err { OnErr result ((g : ℕ) → file_in files.new g ≡ file_in files.old g) }
{
    match deed {
        Deed::Write { at, bytes } => put(alloc, files, f, *at, bytes.as_slice()),
        Deed::Remove => {
            files.remove(&f);
            Ok(())
        }
        Deed::Sync | Deed::WriteFailed { .. } | Deed::RemoveFailed => Ok(()),
    }
}

// Puts bytes in at a place, and makes a missing file.
fn put(
    alloc: Global,
    files: &mut BTreeMap<u32, Vec<u8>>,
    f: u32,
    at: u64,
    bytes: &[u8],
) -> Result<(), AllocError>
    ensures ok { OnOk result ((g : ℕ) → file_in files.new g
        ≡ (if f == g then Some (overwritten (bytes_or_none (file_in files.old f)) at bytes.now)
        else file_in files.old g)) }
    ensures err { OnErr result ((g : ℕ) → file_in files.new g ≡ file_in files.old g) }
{
    match files.get_mut(&f) {
        Some(there) => overwrite(there, at, bytes),
        None => {
            let made = bytes.to_vec(alloc)?;
            files.insert(f, made)?;
            Ok(())
        }
    }
}

/// Puts bytes in at a place, over what is there and past the end.
pub(crate) fn overwrite(there: &mut Vec<u8>, at: u64, bytes: &[u8]) -> Result<(), AllocError>
    ensures ok { OnOk result (there.new.items ≡ overwritten there.old.items at bytes.now) }
    ensures err { OnErr result (there.new.items ≡ there.old.items) }
{
    let front = at.min(there.len() as u64) as usize;
    let over = bytes.len().min(there.len() - front);
    there.extend_from_slice(&bytes[over..])?;
    there[front..front + over].copy_from_slice(&bytes[..over]);
    Ok(())
}
