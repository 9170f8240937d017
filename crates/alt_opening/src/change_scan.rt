//! The rows of the stream of a table that is opened: each tells what was trimmed, is left over, or is that of a change which the table
//! may keep.

ghost use Rattle.std.specs.Prelude.{◌≡◌, IfOk, IfErr, OnOk, IsErrOf, IsTrue};
ghost use Rattle.alt_base.specs.Counts.{Rose};
ghost use Rattle.alt_engine.specs.InHand.{ReadsLayout};
ghost use Rattle.alt_layout.specs.Layout.{Layout};
ghost use Rattle.alt_opening.specs.Scans.{IsDeviceFault, Walked};
ghost use Rattle.alt_opening.specs.StreamScans.{ChangesRead, ChangesWhere, IsChangeFault, IsStreamFault, stream_trimmed, trimmed_in};

use crate::faults::OpenFault;
use crate::scan::{key_after, next_row};
use alt_disk::Disk;
use alt_engine::Engine;
use alt_fields::Bytes;
use alt_schema::TableSchema;
use alt_tablerows::{ROW_OF_TRIMMED, Unread, test_row, trimmed_told};
use std::alloc::Global;

/// Tests that each row of a table's stream is one that it may have, and tells the number of the last change that was trimmed. A table
/// without a stream has no rows, and trimmed none.
pub(crate) fn read_stream<D: Disk>(
    alloc: Global,
    disk: &mut D,
    engine: &mut Engine,
    schema: &TableSchema,
) -> Result<u64, OpenFault>
    ensures read { IsTrue (D.state disk.old).tells → (l : Layout)
        → ReadsLayout (D.state disk.old) engine.old l → OnOk result (ChangesRead l schema.now) }
    ensures trimmed { IsTrue (D.state disk.old).tells → (l : Layout)
        → ReadsLayout (D.state disk.old) engine.old l
        → IfOk result (λ n. n ≡ stream_trimmed l schema.now) }
    ensures wrong { IsTrue (D.state disk.old).tells → (l : Layout)
        → ReadsLayout (D.state disk.old) engine.old l → IfErr result (IsStreamFault l schema.now) }
    ensures walked { Walked (D.state disk.old) (D.state disk.new) engine.old engine.new }
    ensures cause { IsErrOf result OpenFault.Failed
        → Rose (D.state disk.old).faults (D.state disk.new).faults }
{
    let Some(family) = schema.stream_family else {
        return Ok(0);
    };
    let next = engine.next_number();
    let trimmed = match read_trimmed(disk, engine, family) {
        Ok(trimmed) => trimmed,
        Err(fault) => return Err(fault),
    };
    match test_changes(alloc, disk, engine, schema, next, trimmed, family) {
        Ok(()) => Ok(trimmed),
        Err(fault) => Err(fault),
    }
}

/// The number that the row of number 0 tells in the family of a stream.
fn read_trimmed<D: Disk>(disk: &mut D, engine: &mut Engine, family: u32) -> Result<u64, OpenFault>
    ensures trimmed { IsTrue (D.state disk.old).tells → (l : Layout)
        → ReadsLayout (D.state disk.old) engine.old l → IfOk result (λ n. n ≡ trimmed_in l family) }
    ensures fault { IsTrue (D.state disk.old).tells → (l : Layout)
        → ReadsLayout (D.state disk.old) engine.old l → IfErr result IsDeviceFault }
    ensures walked { Walked (D.state disk.old) (D.state disk.new) engine.old engine.new }
    ensures cause { IsErrOf result OpenFault.Failed
        → Rose (D.state disk.old).faults (D.state disk.new).faults }
{
    match engine.row(disk, family, &ROW_OF_TRIMMED) {
        Ok(row) => Ok(trimmed_told(row.as_ref())),
        Err(fault) => Err(OpenFault::from(fault)),
    }
}

/// Tests the rows of the stream's family, one after the other.
fn test_changes<D: Disk>(
    alloc: Global,
    disk: &mut D,
    engine: &mut Engine,
    schema: &TableSchema,
    next: u64,
    trimmed: u64,
    family: u32,
) -> Result<(), OpenFault>
    ensures read { IsTrue (D.state disk.old).tells → (l : Layout)
        → ReadsLayout (D.state disk.old) engine.old l
        → OnOk result (ChangesWhere (λ key. Unit {0}) l schema.now next trimmed family) }
    ensures wrong { IsTrue (D.state disk.old).tells → (l : Layout)
        → ReadsLayout (D.state disk.old) engine.old l
        → IfErr result (IsChangeFault l schema.now next trimmed family) }
    ensures walked { Walked (D.state disk.old) (D.state disk.new) engine.old engine.new }
    ensures cause { IsErrOf result OpenFault.Failed
        → Rose (D.state disk.old).faults (D.state disk.new).faults }
{
    let mut from = Bytes::from_vec(Vec::new(alloc));
    let mut ahead = Vec::new(alloc);
    'rows: for _ in 0..u64::MAX {
        let (key, row) = match next_row(disk, engine, family, &from, &mut ahead) {
            Ok(Some(next)) => next,
            Ok(None) => return Ok(()),
            Err(fault) => return Err(fault),
        };
        match test_row(alloc, schema, next, trimmed, &key, &row) {
            Ok(()) => {}
            Err(Unread::Bad) => return Err(OpenFault::BadRow { family, key }),
            Err(Unread::NoMemory) => return Err(OpenFault::NoMemory),
        }
        match key_after(key.as_slice(), alloc) {
            Ok(after) => from = after,
            Err(_) => return Err(OpenFault::NoMemory),
        }
    }
    Err(OpenFault::NoMemory)
}
