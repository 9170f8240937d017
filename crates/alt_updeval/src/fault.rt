//! Why an update is refused.

ghost use Rattle.std.specs.Prelude.{◌≡◌};

use alt_base::NoMemory;
use alt_decimal::NumberFault;
use std::alloc::{AllocError, AllocFailed};

/// Why an update is refused, by its first refused action in text order.
#[derive(Clone, Copy, Debug, PartialEq, Eq)]
pub enum UpdateFault {
    /// A path that stands as a term is missing, or a target's parent isn't there.
    BadPath,
    /// A value isn't of the kind that is wanted.
    BadKind,
    /// A sum doesn't fit.
    BadNumber(NumberFault),
    NoMemory,
}

impl From<NoMemory> for UpdateFault {
    ghost use Rattle.alt_updeval.specs.declared.fault.UpdateFault.{UpdateFault};

    ghost from_gives = { λ _ f. f ≡ UpdateFault.NoMemory };

    fn from(_: NoMemory) -> Self {
        UpdateFault::NoMemory
    }
}

impl From<AllocError> for UpdateFault {
    ghost use Rattle.alt_updeval.specs.declared.fault.UpdateFault.{UpdateFault};

    ghost from_gives = { λ _ f. f ≡ UpdateFault.NoMemory };

    fn from(_: AllocError) -> Self {
        UpdateFault::NoMemory
    }
}

impl<T: Drop> From<AllocFailed<T>> for UpdateFault {
    ghost use Rattle.alt_updeval.specs.declared.fault.UpdateFault.{UpdateFault};

    ghost from_gives = { λ _ f. f ≡ UpdateFault.NoMemory };

    fn from(_: AllocFailed<T>) -> Self {
        UpdateFault::NoMemory
    }
}
