//! Opening a store: its tables are known again, and each row is tested.

ghost use Rattle.std.specs.Prelude.{◌≡◌, ℕ, IfOk, IfErr, OnOk, IsErrOf, IsTrue, ⊤};
ghost use Rattle.alt_base.specs.Counts.{Rose};
ghost use Rattle.alt_disk.specs.Disk.{IsTrusted, Goes};
ghost use Rattle.alt_disk.specs.Runs.{Spans};
ghost use Rattle.alt_engine.specs.InHand.{ReadsLayout, bounds_of_engine, limits_of_engine};
ghost use Rattle.alt_layout.specs.Fresh.{versions_file};
ghost use Rattle.alt_layout.specs.Layout.{Layout};
ghost use Rattle.alt_machine.specs.State.{State};
ghost use Rattle.alt_manifest.specs.Versions.{HasVersion};
ghost use Rattle.alt_manifest.specs.declared.version.Version.{Version};
ghost use Rattle.alt_opening.specs.FirstFiles.{IsFirstFile};
ghost use Rattle.alt_opening.specs.Images.{StandsFor};
ghost use Rattle.alt_opening.specs.private.Opening.{AllChangesRead, AllIndexesRead, AllItemsRead, AreTablesRead, AreTrimmedIn, Assembled, IsCatalog, IsIndexesFault, IsRowFault, IsStreamsFault};
ghost use Rattle.alt_opening.specs.private.RowSizes.{AreAllWithin};
ghost use Rattle.alt_opening.specs.Recovery.{IsExplained, HasNoState, WasLeft};
ghost use Rattle.alt_opening.specs.Scans.{Walked};
ghost use Rattle.alt_opening.specs.Opened.{OpensAs};

use crate::catalog::Catalog;
use crate::change_scan::read_stream;
use crate::faults::OpenFault;
use crate::index_scan::read_own_indexes;
use crate::opened::{Opened, read_catalog};
use crate::scan::read_items;
use crate::trimmed::{Trimmed, know};
use alt_disk::Disk;
use alt_engine::{Engine, Limits};
use alt_tablerows::held;
use std::alloc::Global;

/// A store that was opened: the engine over its files, the descriptions of its tables, the family that the next table gets, how many bytes
/// the largest of the tables' items has, and what was trimmed of their changes.
#[derive(Drop)]
pub struct Store {
    pub engine: Engine,
    pub catalog: Catalog,
    pub family: u32,
    pub largest: u64,
    pub trimmed: Vec<Trimmed>,
}

/// Opens the store of a disk (docs/formats/table-rows.md). Every file is synced, those that are none of the store's are removed, and
/// every row is tested.
pub fn open_store<D: Disk>(alloc: Global, disk: &mut D, limits: Limits) -> Result<Store, OpenFault>
    // At Ok the files stood for a state, as they read.
    ensures reads { IfOk result (λ o. IsTrue (D.state disk.old).tells
        → (s : State) × StandsFor (D.state disk.old).file s) }
    // And the store stands for it, with whatever a stop leaves from then on.
    ensures stands { IfOk result (λ o. IsTrusted (D.state disk.old) → (s : State)
        → StandsFor (D.state disk.old).file s → OpensAs (D.state disk.new) o s) }
    ensures limits { IfOk result (λ o. limits_of_engine o.engine ≡ limits) }
    // The next file is past all that were there, and not below that of the last version; work makes it first, or the one behind it.
    ensures next_file { IfOk result (λ o. IsTrue (D.state disk.old).tells → (v : Version)
        → HasVersion v ((D.state disk.old).file versions_file)
        → IsFirstFile v (D.state disk.old).file (bounds_of_engine o.engine).file) }

    // The files stand, as they read, for the state for which they stood, also where the call fails.
    ensures files { IsTrue (D.state disk.old).tells → (s : State)
        → StandsFor (D.state disk.old).file s → StandsFor (D.state disk.new).file s }

    // A stop at any moment of the call, also one that fails, leaves what stands for the state for which what one left before stood.
    ensures any_moment { IsTrusted (D.state disk.old)
        → Spans (D.state disk.old) (D.state disk.new) (λ _. ⊤) (WasLeft (D.state disk.old)) }

    // Damaged, DigestDiffers and BadRow come exactly where the files stand for no state; the first two where they are no store's, and
    // BadRow names the first wrong row.
    ensures explained { IsTrue (D.state disk.old).tells
        → IfErr result (IsExplained (D.state disk.old).file) }
    ensures no_state { IsTrue (D.state disk.old).tells
        → IfErr result (HasNoState (D.state disk.old).file) }
    ensures goes { Goes (D.state disk.old) (D.state disk.new) }
    ensures cause { IsErrOf result OpenFault.Failed
        → Rose (D.state disk.old).faults (D.state disk.new).faults }
{
    let mut engine = match Engine::recover(alloc, disk, limits) {
        Ok(engine) => engine,
        Err(fault) => return Err(OpenFault::from(fault)),
    };
    match read_rows(alloc, disk, &mut engine) {
        Ok((opened, largest, trimmed)) => Ok(Store {
            engine,
            catalog: opened.catalog,
            family: opened.family,
            largest,
            trimmed,
        }),
        Err(fault) => Err(fault),
    }
}

/// Reads the rows of a store, and tests them. It tells how many bytes the largest item has, and what was trimmed of changes.
fn read_rows<D: Disk>(
    alloc: Global,
    disk: &mut D,
    engine: &mut Engine,
) -> Result<(Opened, u64, Vec<Trimmed>), OpenFault>
    ensures read { IsTrue (D.state disk.old).tells → (l : Layout)
        → ReadsLayout (D.state disk.old) engine.old l
        → IfOk result (λ o. (s : State)
        × Assembled l o.0.family o.0.catalog o.1 o.2.items s) }
    ensures wrong { IsTrue (D.state disk.old).tells → (l : Layout)
        → ReadsLayout (D.state disk.old) engine.old l → IfErr result (IsRowFault l) }
    ensures walked { Walked (D.state disk.old) (D.state disk.new) engine.old engine.new }
    ensures cause { IsErrOf result OpenFault.Failed
        → Rose (D.state disk.old).faults (D.state disk.new).faults }
{
    let (opened, largest) = match read_state(alloc, disk, engine) {
        Ok(state) => state,
        Err(fault) => return Err(fault),
    };
    let trimmed = match read_streams(alloc, disk, engine, &opened.catalog) {
        Ok(trimmed) => trimmed,
        Err(fault) => return Err(fault),
    };
    match read_indexes(alloc, disk, engine, &opened.catalog) {
        Ok(()) => Ok((opened, largest, trimmed)),
        Err(fault) => Err(fault),
    }
}

/// Reads the rows of the catalog and of the tables, and what stands from the next family on. It tells how many bytes the largest item has.
fn read_state<D: Disk>(
    alloc: Global,
    disk: &mut D,
    engine: &mut Engine,
) -> Result<(Opened, u64), OpenFault>
    ensures read { IsTrue (D.state disk.old).tells → (l : Layout)
        → ReadsLayout (D.state disk.old) engine.old l
        → IfOk result (λ o. AreTablesRead l o.0.family o.0.catalog) }
    ensures largest { IsTrue (D.state disk.old).tells → (l : Layout)
        → ReadsLayout (D.state disk.old) engine.old l
        → IfOk result (λ o. AreAllWithin l o.0.catalog o.1) }
    ensures wrong { IsTrue (D.state disk.old).tells → (l : Layout)
        → ReadsLayout (D.state disk.old) engine.old l → IfErr result (IsRowFault l) }
    ensures walked { Walked (D.state disk.old) (D.state disk.new) engine.old engine.new }
    ensures cause { IsErrOf result OpenFault.Failed
        → Rose (D.state disk.old).faults (D.state disk.new).faults }
{
    let opened = match read_catalog(alloc, disk, engine) {
        Ok(opened) => opened,
        Err(fault) => return Err(fault),
    };
    let largest = match read_tables(alloc, disk, engine, &opened.catalog) {
        Ok(largest) => largest,
        Err(fault) => return Err(fault),
    };
    match engine.first_from(disk, opened.family) {
        Ok(None) => Ok((opened, largest)),
        Ok(Some((family, key))) => Err(OpenFault::BadRow { family, key }),
        Err(fault) => Err(OpenFault::from(fault)),
    }
}

/// Tests the items of all tables, in the order of their families, and tells a number of bytes than which none has more.
fn read_tables<D: Disk>(
    alloc: Global,
    disk: &mut D,
    engine: &mut Engine,
    catalog: &Catalog,
) -> Result<u64, OpenFault>
    ensures read { IsTrue (D.state disk.old).tells → (l : Layout) (next : ℕ)
        → ReadsLayout (D.state disk.old) engine.old l → IsCatalog l next catalog.now
        → OnOk result (AllItemsRead l catalog.now) }
    ensures largest { IsTrue (D.state disk.old).tells → (l : Layout) (next : ℕ)
        → ReadsLayout (D.state disk.old) engine.old l → IsCatalog l next catalog.now
        → IfOk result (AreAllWithin l catalog.now) }
    ensures wrong { IsTrue (D.state disk.old).tells → (l : Layout) (next : ℕ)
        → ReadsLayout (D.state disk.old) engine.old l → IsCatalog l next catalog.now
        → IfErr result (IsRowFault l) }
    ensures walked { Walked (D.state disk.old) (D.state disk.new) engine.old engine.new }
    ensures cause { IsErrOf result OpenFault.Failed
        → Rose (D.state disk.old).faults (D.state disk.new).faults }
{
    let mut family = 0;
    let mut largest = 0;
    'tables: while let Some(schema) = catalog.above(family) {
        held(schema);
        match read_items(alloc, disk, engine, schema) {
            Ok(size) => largest = size.max(largest),
            Err(fault) => return Err(fault),
        }
        family = schema.family;
    }
    Ok(largest)
}

/// Tests the streams of all tables, in the order of the tables' families, and tells what was trimmed of their changes.
fn read_streams<D: Disk>(
    alloc: Global,
    disk: &mut D,
    engine: &mut Engine,
    catalog: &Catalog,
) -> Result<Vec<Trimmed>, OpenFault>
    ensures read { IsTrue (D.state disk.old).tells → (l : Layout) (next : ℕ)
        → ReadsLayout (D.state disk.old) engine.old l → AreTablesRead l next catalog.now
        → OnOk result (AllChangesRead l catalog.now) }
    ensures trimmed { IsTrue (D.state disk.old).tells → (l : Layout) (next : ℕ)
        → ReadsLayout (D.state disk.old) engine.old l → AreTablesRead l next catalog.now
        → IfOk result (λ known. AreTrimmedIn l catalog.now known.items) }
    ensures wrong { IsTrue (D.state disk.old).tells → (l : Layout) (next : ℕ)
        → ReadsLayout (D.state disk.old) engine.old l → AreTablesRead l next catalog.now
        → IfErr result (IsStreamsFault l catalog.now) }
    ensures walked { Walked (D.state disk.old) (D.state disk.new) engine.old engine.new }
    ensures cause { IsErrOf result OpenFault.Failed
        → Rose (D.state disk.old).faults (D.state disk.new).faults }
{
    let mut family = 0;
    let mut known = Vec::new(alloc);
    'tables: while let Some(schema) = catalog.above(family) {
        held(schema);
        let number = match read_stream(alloc, disk, engine, schema) {
            Ok(number) => number,
            Err(fault) => return Err(fault),
        };
        match know(alloc, &mut known, schema.name.as_str(), number) {
            Ok(()) => {}
            Err(_) => return Err(OpenFault::NoMemory),
        }
        family = schema.family;
    }
    Ok(known)
}

/// Tests the indexes of all tables, in the order of the tables' families.
fn read_indexes<D: Disk>(
    alloc: Global,
    disk: &mut D,
    engine: &mut Engine,
    catalog: &Catalog,
) -> Result<(), OpenFault>
    ensures read { IsTrue (D.state disk.old).tells → (l : Layout) (next : ℕ)
        → ReadsLayout (D.state disk.old) engine.old l → AreTablesRead l next catalog.now
        → OnOk result (AllIndexesRead l catalog.now) }
    ensures wrong { IsTrue (D.state disk.old).tells → (l : Layout) (next : ℕ)
        → ReadsLayout (D.state disk.old) engine.old l → AreTablesRead l next catalog.now
        → IfErr result (IsIndexesFault l catalog.now) }
    ensures walked { Walked (D.state disk.old) (D.state disk.new) engine.old engine.new }
    ensures cause { IsErrOf result OpenFault.Failed
        → Rose (D.state disk.old).faults (D.state disk.new).faults }
{
    let mut family = 0;
    'tables: while let Some(schema) = catalog.above(family) {
        held(schema);
        match read_own_indexes(alloc, disk, engine, schema) {
            Ok(()) => {}
            Err(fault) => return Err(fault),
        }
        family = schema.family;
    }
    Ok(())
}
