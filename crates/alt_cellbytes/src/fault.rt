//! Why reading stopped.

use alt_base::NoMemory;

/// Why no value was read: the bytes stop with so many left from the place on, a value that is nested too
/// deep begins there, or memory was wanting.
#[derive(Clone, Copy, Debug, PartialEq, Eq)]
pub(crate) enum Stop {
    Left(usize),
    Deep(usize),
    NoMemory,
}

impl From<NoMemory> for Stop {
    ghost use Rattle.std.specs.Prelude.{◌≡◌};
    ghost use Rattle.alt_cellbytes.specs.declared.fault.Stop.TheVariants as stop;

    ghost from_gives = { λ _ s. s ≡ stop.NoMemory };

    fn from(_: NoMemory) -> Self {
        Stop::NoMemory
    }
}
