//! Why a part of a text isn't read.

use alt_base::NoMemory;
use json::Invalid;
use std::alloc::{AllocError, AllocFailed};

/// It is no JSON that `serde_json` reads to a tree, or memory ran out.
#[derive(Clone, Copy, Drop)]
pub enum Unread {
    Refused,
    NoMemory,
}

impl From<NoMemory> for Unread {
    ghost use Rattle.std.specs.Prelude.{◌≡◌};
    ghost use Rattle.alt_named.specs.declared.unread.Unread.TheVariants as unread;

    ghost from_gives = { λ _ u. u ≡ unread.NoMemory };

    fn from(_: NoMemory) -> Self {
        Unread::NoMemory
    }
}

impl From<AllocError> for Unread {
    ghost use Rattle.std.specs.Prelude.{◌≡◌};
    ghost use Rattle.alt_named.specs.declared.unread.Unread.TheVariants as unread;

    ghost from_gives = { λ _ u. u ≡ unread.NoMemory };

    fn from(_: AllocError) -> Self {
        Unread::NoMemory
    }
}

impl<T: Drop> From<AllocFailed<T>> for Unread {
    ghost use Rattle.std.specs.Prelude.{◌≡◌};
    ghost use Rattle.alt_named.specs.declared.unread.Unread.TheVariants as unread;

    ghost from_gives = { λ _ u. u ≡ unread.NoMemory };

    fn from(_: AllocFailed<T>) -> Self {
        Unread::NoMemory
    }
}

impl From<Invalid> for Unread {
    ghost use Rattle.std.specs.Prelude.{◌≡◌};
    ghost use Rattle.alt_named.specs.declared.unread.Unread.TheVariants as unread;

    ghost from_gives = { λ _ u. u ≡ unread.Refused };

    fn from(_: Invalid) -> Self {
        Unread::Refused
    }
}
