//! How an operation stops before its end.

ghost use Rattle.std.specs.Prelude.{◌≡◌};

use alt_base::NoMemory;
use alt_shape::Refusal;
use alt_tables::TableFault;
use std::alloc::{AllocError, AllocFailed};

/// A request is refused, or a fault ends the run.
#[derive(Debug, Drop)]
pub enum Stop {
    Refused(Refusal),
    Fault(TableFault),
}

impl From<Refusal> for Stop {
    ghost use Rattle.alt_said.specs.declared.stop.Stop.TheVariants as stop;

    ghost from_gives = { λ refusal s. s ≡ stop.Refused refusal };

    fn from(refusal: Refusal) -> Self {
        Stop::Refused(refusal)
    }
}

impl From<TableFault> for Stop {
    ghost use Rattle.alt_said.specs.declared.stop.Stop.TheVariants as stop;

    ghost from_gives = { λ fault s. s ≡ stop.Fault fault };

    fn from(fault: TableFault) -> Self {
        Stop::Fault(fault)
    }
}

impl From<NoMemory> for Stop {
    ghost use Rattle.alt_said.specs.declared.stop.Stop.TheVariants as stop;
    ghost use Rattle.alt_tables.specs.DeclaredTableFault.TheVariants as fault;

    ghost from_gives = { λ _ s. s ≡ stop.Fault fault.NoMemory };

    fn from(_: NoMemory) -> Self {
        Stop::Fault(TableFault::NoMemory)
    }
}

impl From<AllocError> for Stop {
    ghost use Rattle.alt_said.specs.declared.stop.Stop.TheVariants as stop;
    ghost use Rattle.alt_tables.specs.DeclaredTableFault.TheVariants as fault;

    ghost from_gives = { λ _ s. s ≡ stop.Fault fault.NoMemory };

    fn from(_: AllocError) -> Self {
        Stop::Fault(TableFault::NoMemory)
    }
}

impl<T: Drop> From<AllocFailed<T>> for Stop {
    ghost use Rattle.alt_said.specs.declared.stop.Stop.TheVariants as stop;
    ghost use Rattle.alt_tables.specs.DeclaredTableFault.TheVariants as fault;

    ghost from_gives = { λ _ s. s ≡ stop.Fault fault.NoMemory };

    fn from(_: AllocFailed<T>) -> Self {
        Stop::Fault(TableFault::NoMemory)
    }
}
