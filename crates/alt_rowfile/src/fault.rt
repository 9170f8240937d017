//! Why a row file was not read, or a row of it.

ghost use Rattle.std.specs.Prelude.{◌≡◌};
ghost use Rattle.alt_rowfile.specs.declared.fault.RowFileFault.TheVariants.{Failed, NoMemory};

use alt_disk::Failed;
use std::alloc::{AllocError, AllocFailed};

/// Why a row file was not recovered.
#[derive(Clone, Copy, Debug, PartialEq, Eq, Drop)]
pub enum RowFileFault {
    /// The bytes of the file are no row file.
    Damaged {
        file: u32,
        at: u64,
    },
    /// The file doesn't end with the digest of the rest.
    DigestDiffers {
        file: u32,
        kept: [u8; 32],
        found: [u8; 32],
    },
    /// The disk failed, and its count of faults rose.
    Failed,
    /// Memory was refused.
    NoMemory,
}

impl From<Failed> for RowFileFault {
    ghost from_gives = { λ _ e. e ≡ Failed };

    fn from(_: Failed) -> Self {
        RowFileFault::Failed
    }
}

impl From<AllocError> for RowFileFault {
    ghost from_gives = { λ _ e. e ≡ NoMemory };

    fn from(_: AllocError) -> Self {
        RowFileFault::NoMemory
    }
}

impl<T: Drop> From<AllocFailed<T>> for RowFileFault {
    ghost from_gives = { λ _ e. e ≡ NoMemory };

    fn from(_: AllocFailed<T>) -> Self {
        RowFileFault::NoMemory
    }
}
