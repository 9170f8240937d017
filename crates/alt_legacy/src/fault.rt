//! Why a member of the older interface has no meaning.

ghost use Rattle.std.specs.Prelude.{◌≡◌};

use alt_base::NoMemory;
use std::alloc::{AllocError, AllocFailed};

/// What is wrong with a member, or want of memory.
#[derive(Clone, Copy, Debug, PartialEq, Eq)]
pub enum LegacyFault {
    /// It isn't of the form of such a member.
    Bad,
    /// It is no condition on the keys.
    NotKey,
    NoMemory,
}

impl From<NoMemory> for LegacyFault {
    ghost use Rattle.alt_legacy.specs.declared.fault.LegacyFault.{LegacyFault};

    ghost from_gives = { λ _ e. e ≡ LegacyFault.NoMemory };

    fn from(_: NoMemory) -> Self {
        LegacyFault::NoMemory
    }
}

impl From<AllocError> for LegacyFault {
    ghost use Rattle.alt_legacy.specs.declared.fault.LegacyFault.{LegacyFault};

    ghost from_gives = { λ _ e. e ≡ LegacyFault.NoMemory };

    fn from(_: AllocError) -> Self {
        LegacyFault::NoMemory
    }
}

impl<T: Drop> From<AllocFailed<T>> for LegacyFault {
    ghost use Rattle.alt_legacy.specs.declared.fault.LegacyFault.{LegacyFault};

    ghost from_gives = { λ _ e. e ≡ LegacyFault.NoMemory };

    fn from(_: AllocFailed<T>) -> Self {
        LegacyFault::NoMemory
    }
}
