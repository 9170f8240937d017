//! Why a request had no answer at all.

ghost use Rattle.std.specs.Prelude.{◌≡◌};

use alt_base::NoMemory;
use alt_fields::Bytes;
use alt_opening::EngineFault;
use std::alloc::{AllocError, AllocFailed};

/// What ends a run in the middle of a request. Only a recovery of the tables goes on from there.
#[derive(Debug, Drop)]
pub enum TableFault {
    /// A write would need a number or a file, or a new table a family, that is never given out: this number, this file or this family.
    Spent { number: u64 },
    /// The disk gave bytes that it wasn't left with, in this file at this place.
    Damaged { file: u32, at: u64 },
    /// The disk gave a row that is none of its family, with this key.
    BadRow { family: u32, key: Bytes },
    /// The disk failed, and its count of faults rose.
    Failed,
    /// Memory was refused.
    NoMemory,
}

impl From<NoMemory> for TableFault {
    ghost use Rattle.alt_rowchanges.specs.declared.faults.TableFault.TheVariants as fault;

    ghost from_gives = { λ _ f. f ≡ fault.NoMemory };

    fn from(_: NoMemory) -> Self {
        TableFault::NoMemory
    }
}

impl From<AllocError> for TableFault {
    ghost use Rattle.alt_rowchanges.specs.declared.faults.TableFault.TheVariants as fault;

    ghost from_gives = { λ _ f. f ≡ fault.NoMemory };

    fn from(_: AllocError) -> Self {
        TableFault::NoMemory
    }
}

impl<T: Drop> From<AllocFailed<T>> for TableFault {
    ghost use Rattle.alt_rowchanges.specs.declared.faults.TableFault.TheVariants as fault;

    ghost from_gives = { λ _ f. f ≡ fault.NoMemory };

    fn from(_: AllocFailed<T>) -> Self {
        TableFault::NoMemory
    }
}

impl From<EngineFault> for TableFault {
    ghost use Rattle.alt_opening.specs.HandFaults.{told_by_engine};
    ghost use Rattle.alt_rowchanges.specs.Faults.{told_by_tables};

    ghost from_gives = { λ given f. told_by_tables f ≡ told_by_engine given };

    fn from(fault: EngineFault) -> Self {
        match fault {
            EngineFault::Spent { number } => TableFault::Spent { number },
            EngineFault::Damaged { file, at } => TableFault::Damaged { file, at },
            EngineFault::Failed => TableFault::Failed,
            EngineFault::NoMemory => TableFault::NoMemory,
        }
    }
}
