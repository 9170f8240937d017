//! The disk as the layers above see it: six calls, what a read gives, and what a stop may leave (docs/DISK.md).

ghost use Rattle.std.specs.Prelude.{◌≡◌, ◌≤◌, ◌+◌, ◌^◌, ◌≢◌, [], None, ℕ, length, IfOk, OnOk, OnErr, IsTrue, is_ok};
ghost use Rattle.alt_disk.specs.declared.disk.DiskFault.TheVariants.{Failed, NoMemory};
ghost use Rattle.alt_disk.specs.Fates.{Fits};
ghost use Rattle.alt_disk.specs.Disk.{DiskState, IsTrusted, IsNames, contents, now, call_answered, Tick, ReadCall, Same, Written, Synced, Removed, Read};

use std::alloc::{AllocError, AllocFailed};

/// The disk failed, and its count of faults rose.
#[derive(Clone, Copy, Debug, PartialEq, Eq, Drop)]
pub struct Failed;

/// Why a call that takes memory of its own was not done.
#[derive(Clone, Copy, Debug, PartialEq, Eq, Drop)]
pub enum DiskFault {
    /// The disk failed, and its count of faults rose.
    Failed,
    /// Memory was refused.
    NoMemory,
}

impl From<Failed> for DiskFault {
    ghost from_gives = { λ _ e. e ≡ Failed };

    fn from(_: Failed) -> Self {
        DiskFault::Failed
    }
}

impl From<AllocError> for DiskFault {
    ghost from_gives = { λ _ e. e ≡ NoMemory };

    fn from(_: AllocError) -> Self {
        DiskFault::NoMemory
    }
}

impl<T: Drop> From<AllocFailed<T>> for DiskFault {
    ghost from_gives = { λ _ e. e ≡ NoMemory };

    fn from(_: AllocFailed<T>) -> Self {
        DiskFault::NoMemory
    }
}

/// A disk of files that are named by numbers. Its contents are what `state` tells of them, where it tells them.
pub trait Disk {
    /// The disk as its user sees it.
    ghost state: { Self → DiskState };

    /// Fills the emptied list with the numbers of the files there, rising. After an error the list is empty.
    fn names(&mut self, list: &mut Vec<u32>) -> Result<(), DiskFault>
        ensures names { IsTrue (state self.old).tells
            → OnOk result (IsNames list.new.items (state self.old).file) }
        ensures emptied { OnErr result (list.new.items ≡ []) }
        ensures call { Tick (state self.old) (state self.new) (call_answered result) }
        ensures same { IsTrue (state self.old).tells → Same (state self.old) (state self.new) };

    /// The size of a file in bytes, 0 where it is missing.
    fn size(&mut self, f: u32) -> Result<u64, Failed>
        ensures size { IsTrue (state self.old).tells
            → IfOk result (λ size. size ≡ length (contents (state self.old) f)) }
        ensures bound { IfOk result (λ size. size ≤ 2 ^ 62) }
        ensures call { Tick (state self.old) (state self.new) (is_ok result) }
        ensures same { IsTrue (state self.old).tells → Same (state self.old) (state self.new) };

    /// Gives the bytes of a file from a place on, as many as stand there up to the buffer, and answers how many.
    fn read(&mut self, f: u32, at: u64, buf: &mut [u8]) -> Result<usize, Failed>
        ensures bytes { IsTrue (state self.old).tells
            → IfOk result (λ count. Read (contents (state self.old) f) at buf.old buf.new count) }
        ensures bound { IfOk result (λ count. count ≤ length buf.old) }
        ensures call { ReadCall (state self.old) (state self.new) f at (length buf.old)
            (is_ok result) }
        ensures same { IsTrue (state self.old).tells → Same (state self.old) (state self.new) };

    /// Writes over what is there and past the end, and makes a missing file. Until the file's next sync a stop may leave any
    /// bytes in the range, and anything past the end. A write that would make a file longer than 2^62 bytes fails.
    fn write_at(&mut self, f: u32, at: u64, bytes: &[u8]) -> Result<(), Failed>
        requires { IsTrusted (state self.old) → at ≤ length (contents (state self.old) f) }
        ensures written { IsTrusted (state self.old)
            → Written (state self.old) (state self.new) f at bytes.now (is_ok result) }
        ensures fits { OnOk result (at + length bytes.now ≤ 2 ^ 62) }
        ensures call { Tick (state self.old) (state self.new) (is_ok result) };

    /// Makes a file's bytes last, and that it is there. Nothing is done to a missing file.
    fn sync(&mut self, f: u32) -> Result<(), Failed>
        ensures synced { IsTrusted (state self.old)
            → Synced (state self.old) (state self.new) f (is_ok result) }
        ensures missing { IsTrue (state self.old).tells → (state self.old).file f ≡ None
            → Same (state self.old) (state self.new) }
        ensures call { Tick (state self.old) (state self.new) (is_ok result) }
        ensures same { IsTrue (state self.old).tells → (g : ℕ)
            → (state self.new).file g ≡ (state self.old).file g };

    /// Removes a file. A stop may bring it back. Nothing is done to a missing file.
    fn remove(&mut self, f: u32) -> Result<(), Failed>
        ensures gone { IsTrue (state self.old).tells
            → OnOk result ((state self.new).file f ≡ None) }
        ensures removed { IsTrusted (state self.old)
            → Removed (state self.old) (state self.new) f (is_ok result) }
        ensures missing { IsTrue (state self.old).tells → (state self.old).file f ≡ None
            → Same (state self.old) (state self.new) }
        ensures call { Tick (state self.old) (state self.new) (is_ok result) }
        ensures others { IsTrue (state self.old).tells → (g : ℕ) → g ≢ f
            → (state self.new).file g ≡ (state self.old).file g };

    /// An honest disk reads as one of its images.
    ghost reads_as_image: { (disk : Self) → IsTrusted (state disk) → (f : ℕ)
        → Fits (now (state disk) f) ((state disk).file f) };
}
