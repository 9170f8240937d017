//! Opening the tables of a disk.

ghost use Rattle.std.specs.Prelude.{◌≡◌, ◌≤◌, ℕ, IfOk, IfErr, IsErrOf, IsTrue, ⊤};
ghost use Rattle.alt_base.specs.Counts.{Rose};
ghost use Rattle.alt_disk.specs.Disk.{IsTrusted, Goes};
ghost use Rattle.alt_disk.specs.Runs.{Spans};
ghost use Rattle.alt_machine.specs.State.{State};
ghost use Rattle.alt_rowchanges.specs.OpeningImages.{StandsFor};
ghost use Rattle.alt_rowchanges.specs.OpeningRecovery.{IsExplained, HasNoState, WasLeft};
ghost use Rattle.alt_tables.specs.FilesLeft.{IsFirstGiven};
ghost use Rattle.alt_tables.specs.Images.{ImagesAreWhole};
ghost use Rattle.alt_tables.specs.Stands.{Stands, bounds_of, limits_of_tables};

use crate::tables::Tables;
use alt_disk::Disk;
use alt_due::Due;
use alt_rowchanges::{Limits, OpenFault, Store, open_store};
use std::alloc::Global;

impl Tables {
    /// Opens the store of a disk (docs/formats/table-rows.md). Every file is synced, those that are none of the store's are removed, and
    /// every row is tested.
    pub fn recover<D: Disk>(
        alloc: Global,
        disk: &mut D,
        limits: Limits,
    ) -> Result<Tables, OpenFault>
        // At Ok the files stood for a state, as they read.
        ensures reads { IfOk result (λ t. IsTrue (D.state disk.old).tells
            → (s : State) × StandsFor (D.state disk.old).file s) }
        // And the tables stand for it, with whatever a stop leaves from then on.
        ensures stands { IfOk result (λ t. IsTrusted (D.state disk.old) → (s : State)
            → StandsFor (D.state disk.old).file s → Stands (D.state disk.new) t s) }
        ensures limits { IfOk result (λ t. limits_of_tables t ≡ limits) }
        // The next file is past all that were there, and not below that of the last version.
        ensures next_file { IfOk result (λ t. IsTrue (D.state disk.old).tells
            → IsFirstGiven (D.state disk.old).file (bounds_of t).file) }

        // The files stand, as they read, for the state for which they stood, also where the call fails.
        ensures files { IsTrue (D.state disk.old).tells → (s : State)
            → StandsFor (D.state disk.old).file s → StandsFor (D.state disk.new).file s }

        // A stop at any moment of the call, also one that fails, leaves what stands for the state for which what one left before
        // stood.
        ensures any_moment { IsTrusted (D.state disk.old)
            → Spans (D.state disk.old) (D.state disk.new) (λ _. ⊤) (WasLeft (D.state disk.old)) }

        // A disk that is whole stays so at each moment of the call.
        ensures whole { IsTrue (D.state disk.old).tells
            → ImagesAreWhole (D.state disk.old) (D.state disk.old).moment → (t : ℕ)
            → (D.state disk.old).moment ≤ t → t ≤ (D.state disk.new).moment
            → ImagesAreWhole (D.state disk.new) t }

        // Damaged, DigestDiffers and BadRow come exactly where the files stand for no state; the first two where they are no store's,
        // and BadRow names the first wrong row.
        ensures explained { IsTrue (D.state disk.old).tells
            → IfErr result (IsExplained (D.state disk.old).file) }
        ensures no_state { IsTrue (D.state disk.old).tells
            → IfErr result (HasNoState (D.state disk.old).file) }
        ensures goes { Goes (D.state disk.old) (D.state disk.new) }
        ensures cause { IsErrOf result OpenFault.Failed
            → Rose (D.state disk.old).faults (D.state disk.new).faults }
    {
        let store = match open_store(alloc, disk, limits) {
            Ok(store) => store,
            Err(fault) => return Err(fault),
        };
        let Store {
            engine,
            catalog,
            family,
            largest,
            trimmed,
        } = store;
        match catalog.live(alloc) {
            Ok(live) => Ok(Tables {
                alloc,
                engine,
                catalog,
                live,
                family,
                trimmed,
                fronts: Vec::new(alloc),
                due: Due::new(alloc),
                largest,
                builds: true,
            }),
            Err(_) => Err(OpenFault::NoMemory),
        }
    }
}
