//! Why a gated log was not read.

ghost use Rattle.std.specs.Prelude.{◌≡◌};
ghost use Rattle.alt_gatelog.specs.declared.fault.LogFault.TheVariants.{Failed, NoMemory};

use alt_disk::Failed;
use std::alloc::{AllocError, AllocFailed};

/// Why a log, or one of its entries, was not read.
#[derive(Clone, Copy, Debug, PartialEq, Eq, Drop)]
pub enum LogFault {
    /// The bytes of the file at this place are no header or no entry.
    Damaged { file: u32, at: u64 },
    /// The disk failed, and its count of faults rose.
    Failed,
    /// Memory was refused.
    NoMemory,
}

impl From<Failed> for LogFault {
    ghost from_gives = { λ _ e. e ≡ Failed };

    fn from(_: Failed) -> Self {
        LogFault::Failed
    }
}

impl From<AllocError> for LogFault {
    ghost from_gives = { λ _ e. e ≡ NoMemory };

    fn from(_: AllocError) -> Self {
        LogFault::NoMemory
    }
}

impl<T: Drop> From<AllocFailed<T>> for LogFault {
    ghost from_gives = { λ _ e. e ≡ NoMemory };

    fn from(_: AllocFailed<T>) -> Self {
        LogFault::NoMemory
    }
}
