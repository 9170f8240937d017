//! The faults of the engine, whichever part of it tells them.

ghost use Rattle.std.specs.Prelude.{◌≡◌};

use alt_base::NoMemory;
use alt_cells::SourceFault;
use alt_disk::DiskFault;
use std::alloc::AllocError;

/// Why a call of the engine wasn't done.
#[derive(Clone, Copy, Debug, PartialEq, Eq, Drop)]
pub enum EngineFault {
    /// The number that a write wants and can't have.
    Spent { number: u64 },
    /// The disk gave bytes that are none of the file at that place.
    Damaged { file: u32, at: u64 },
    /// The disk failed, and its count of faults rose.
    Failed,
    /// Memory was refused.
    NoMemory,
}

impl From<NoMemory> for EngineFault {
    ghost use Rattle.alt_drafts.specs.declared.fault.EngineFault.TheVariants as fault;

    ghost from_gives = { λ _ f. f ≡ fault.NoMemory };

    fn from(_: NoMemory) -> Self {
        EngineFault::NoMemory
    }
}

impl From<AllocError> for EngineFault {
    ghost use Rattle.alt_drafts.specs.declared.fault.EngineFault.TheVariants as fault;

    ghost from_gives = { λ _ f. f ≡ fault.NoMemory };

    fn from(_: AllocError) -> Self {
        EngineFault::NoMemory
    }
}

impl From<SourceFault> for EngineFault {
    ghost use Rattle.alt_drafts.specs.Faults.{of_source};

    ghost from_gives = { λ given f. f ≡ of_source given };

    fn from(fault: SourceFault) -> Self {
        match fault {
            SourceFault::Damaged { file, at } => EngineFault::Damaged { file, at },
            SourceFault::Failed => EngineFault::Failed,
            SourceFault::NoMemory => EngineFault::NoMemory,
        }
    }
}

impl From<DiskFault> for EngineFault {
    ghost use Rattle.alt_drafts.specs.Faults.{of_disk};

    ghost from_gives = { λ fault f. f ≡ of_disk fault };

    fn from(fault: DiskFault) -> Self {
        match fault {
            DiskFault::Failed => EngineFault::Failed,
            DiskFault::NoMemory => EngineFault::NoMemory,
        }
    }
}
