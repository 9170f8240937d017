//! How a run ends that was broken off.

ghost use Rattle.std.specs.Prelude.{◌≡◌};
ghost use Rattle.alt_run.specs.private.EndingOf.{ending_of};

use crate::ending::Ending;
use alt_talks::RunFault;

/// How a run ends that this fault broke off.
pub(crate) fn ending_of(fault: RunFault) -> Ending
    ensures ending { result ≡ ending_of fault }
{
    match fault {
        RunFault::Failed => Ending::Device,
        RunFault::NoMemory => Ending::Memory,
        RunFault::Spent { number } => Ending::Spent { number },
        RunFault::Damaged { file, at } => Ending::Damaged { file, at },
        RunFault::DigestDiffers { file, kept, found } => {
            Ending::DigestDiffers { file, kept, found }
        }
        RunFault::BadRow { family, key } => Ending::BadRow { family, key },
    }
}
