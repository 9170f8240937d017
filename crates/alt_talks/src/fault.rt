//! Why a run over a store ends early.

ghost use Rattle.std.specs.Prelude.{◌≡◌};

use alt_fields::Bytes;
use alt_tables::{OpenFault, TableFault};

/// Why a run over a store ends before all was done.
#[derive(Debug, Drop)]
pub enum RunFault {
    /// A write would need a number, a new table a family, or work or a first write a file, that is never given out: this one.
    Spent {
        number: u64,
    },
    /// The bytes of this file at this place are none that a store has there.
    Damaged {
        file: u32,
        at: u64,
    },
    /// A file ends with a digest that isn't that of the bytes before it.
    DigestDiffers {
        file: u32,
        kept: [u8; 32],
        found: [u8; 32],
    },
    /// A row is none of its family, with this key.
    BadRow {
        family: u32,
        key: Bytes,
    },
    /// The device failed, and its count of faults rose.
    Failed,
    /// Memory was refused.
    NoMemory,
}

impl From<TableFault> for RunFault {
    ghost use Rattle.alt_tables.specs.Faults.{told_by_tables};
    ghost use Rattle.alt_talks.specs.Faults.{told_by_run};

    ghost from_gives = { λ given f. told_by_run f ≡ told_by_tables given };

    fn from(fault: TableFault) -> Self {
        match fault {
            TableFault::Spent { number } => RunFault::Spent { number },
            TableFault::Damaged { file, at } => RunFault::Damaged { file, at },
            TableFault::BadRow { family, key } => RunFault::BadRow { family, key },
            TableFault::Failed => RunFault::Failed,
            TableFault::NoMemory => RunFault::NoMemory,
        }
    }
}

impl From<OpenFault> for RunFault {
    ghost use Rattle.alt_tables.specs.OpeningFaults.{told_by_opening};
    ghost use Rattle.alt_talks.specs.Faults.{told_by_run};

    ghost from_gives = { λ given f. told_by_run f ≡ told_by_opening given };

    fn from(fault: OpenFault) -> Self {
        match fault {
            OpenFault::Damaged { file, at } => RunFault::Damaged { file, at },
            OpenFault::DigestDiffers { file, kept, found } => {
                RunFault::DigestDiffers { file, kept, found }
            }
            OpenFault::BadRow { family, key } => RunFault::BadRow { family, key },
            OpenFault::Failed => RunFault::Failed,
            OpenFault::NoMemory => RunFault::NoMemory,
        }
    }
}
