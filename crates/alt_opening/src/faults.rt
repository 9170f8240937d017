//! Why a store isn't opened.

use alt_engine::{EngineFault, RecoverFault};
use alt_fields::Bytes;

/// Why a store isn't opened.
#[derive(Debug, Drop)]
pub enum OpenFault {
    /// The files are no store's, for the bytes of this file at this place.
    Damaged {
        file: u32,
        at: u64,
    },
    /// A row file ends with a digest that isn't that of the bytes before it.
    DigestDiffers {
        file: u32,
        kept: [u8; 32],
        found: [u8; 32],
    },
    /// The rows are those of no state, and of this family and key is the first that is wrong.
    BadRow {
        family: u32,
        key: Bytes,
    },
    /// The disk failed, and its count of faults rose.
    Failed,
    /// Memory was refused.
    NoMemory,
}

impl From<RecoverFault> for OpenFault {
    ghost use Rattle.std.specs.Prelude.{◌≡◌};
    ghost use Rattle.alt_engine.specs.HandFaults.{told_by_recovery};
    ghost use Rattle.alt_opening.specs.Faults.{told_by_opening};

    ghost from_gives = { λ given f. told_by_opening f ≡ told_by_recovery given };

    fn from(fault: RecoverFault) -> Self {
        match fault {
            RecoverFault::Damaged { file, at } => OpenFault::Damaged { file, at },
            RecoverFault::DigestDiffers { file, kept, found } => {
                OpenFault::DigestDiffers { file, kept, found }
            }
            RecoverFault::Failed => OpenFault::Failed,
            RecoverFault::NoMemory => OpenFault::NoMemory,
        }
    }
}

/// A fault of a walk. No walk wants a number, and an opening tells none.
impl From<EngineFault> for OpenFault {
    ghost use Rattle.std.specs.Prelude.{◌≡◌};
    ghost use Rattle.alt_engine.specs.HandFaults.{told_by_engine};
    ghost use Rattle.alt_faults.specs.Faults.{without_numbers};
    ghost use Rattle.alt_opening.specs.Faults.{told_by_opening};

    ghost from_gives = { λ given f. told_by_opening f ≡ without_numbers (told_by_engine given) };

    fn from(fault: EngineFault) -> Self {
        match fault {
            EngineFault::Spent { .. } => OpenFault::NoMemory,
            EngineFault::Damaged { file, at } => OpenFault::Damaged { file, at },
            EngineFault::Failed => OpenFault::Failed,
            EngineFault::NoMemory => OpenFault::NoMemory,
        }
    }
}
