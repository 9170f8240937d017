//! The rows of a family, one after the other, and the items of a table that is opened.

ghost use Rattle.std.specs.Prelude.{◌≡◌, ◌++◌, ◌∷◌, [], IfOk, IfErr, OnOk, IfSome, IsErrOf, IsTrue, None, true};
ghost use Rattle.alt_base.specs.Counts.{Rose};
ghost use Rattle.alt_engine.specs.InHand.{ReadsLayout};
ghost use Rattle.alt_layout.specs.Layout.{Layout, rows_between};
ghost use Rattle.alt_opening.specs.Scans.{Walked, IsAhead, IsNextRow, ItemsRead, IsItemFault, IsDeviceFault};
ghost use Rattle.alt_opening.specs.private.RowSizes.{RowsAreWithin};

use crate::faults::OpenFault;
use alt_base::NoMemory;
use alt_cells::ShownRow;
use alt_disk::Disk;
use alt_engine::Engine;
use alt_fields::Bytes;
use alt_keyorder::KeyRange;
use alt_schema::TableSchema;
use alt_tablerows::{Unread, test_item};
use std::alloc::Global;

/// How many rows are asked for at once, since each call of the engine seeks in every row file. An item has 400 KB at most, so those in hand hold 25 MB of names and values at most, and changes, of two items each, 50 MB.
const ROWS_AHEAD: u32 = 64;

/// The first row that a family shows from a key on, None where there is none. Where rows are in hand, the first from there on, it is the last of them, and the others are those behind it.
pub(crate) fn next_row<D: Disk>(
    disk: &mut D,
    engine: &mut Engine,
    family: u32,
    from: &Bytes,
    ahead: &mut Vec<(Bytes, ShownRow)>,
) -> Result<Option<(Bytes, ShownRow)>, OpenFault>
    ensures row { IsTrue (D.state disk.old).tells → (l : Layout)
        → ReadsLayout (D.state disk.old) engine.old l → IsAhead l family from.now ahead.old.items
        → IfOk result (IsNextRow l family from.now) }
    ensures ahead { IsTrue (D.state disk.old).tells → (l : Layout)
        → ReadsLayout (D.state disk.old) engine.old l → IsAhead l family from.now ahead.old.items
        → IfOk result (λ row. IfSome row (λ e.
        IsAhead l family (e.0 ++ 0 ∷ []) ahead.new.items)) }
    ensures walked { Walked (D.state disk.old) (D.state disk.new) engine.old engine.new }
    ensures fault { IsTrue (D.state disk.old).tells → (l : Layout)
        → ReadsLayout (D.state disk.old) engine.old l → IfErr result IsDeviceFault }
    ensures cause { IsErrOf result OpenFault.Failed
        → Rose (D.state disk.old).faults (D.state disk.new).faults }
{
    match read_ahead(disk, engine, family, from, ahead) {
        Ok(()) => Ok(ahead.pop()),
        Err(fault) => Err(fault),
    }
}

/// Reads the first rows that a family shows from a key on, the first one last, where none are in hand.
fn read_ahead<D: Disk>(
    disk: &mut D,
    engine: &mut Engine,
    family: u32,
    from: &Bytes,
    ahead: &mut Vec<(Bytes, ShownRow)>,
) -> Result<(), OpenFault>
    ensures ahead { IsTrue (D.state disk.old).tells → (l : Layout)
        → ReadsLayout (D.state disk.old) engine.old l → IsAhead l family from.now ahead.old.items
        → OnOk result (IsAhead l family from.now ahead.new.items) }
    ensures none { IsTrue (D.state disk.old).tells → (l : Layout)
        → ReadsLayout (D.state disk.old) engine.old l → OnOk result (ahead.new.items ≡ []
        → rows_between l family from.now None true ≡ []) }
    ensures walked { Walked (D.state disk.old) (D.state disk.new) engine.old engine.new }
    ensures fault { IsTrue (D.state disk.old).tells → (l : Layout)
        → ReadsLayout (D.state disk.old) engine.old l → IfErr result IsDeviceFault }
    ensures cause { IsErrOf result OpenFault.Failed
        → Rose (D.state disk.old).faults (D.state disk.new).faults }
{
    if !ahead.is_empty() {
        return Ok(());
    }
    let Ok(from) = from.copy() else {
        return Err(OpenFault::NoMemory);
    };
    let range = KeyRange { from, to: None };
    match engine.rows(disk, family, &range, true, ROWS_AHEAD, ahead) {
        Ok(()) => {
            ahead.reverse();
            Ok(())
        }
        Err(fault) => Err(OpenFault::from(fault)),
    }
}

/// The least key above that one.
pub(crate) fn key_after(key: &[u8], alloc: Global) -> Result<Bytes, NoMemory>
    ensures { IfOk result (λ after. after ≡ key.now ++ 0 ∷ []) }
{
    let mut bytes = Vec::from_slice(alloc, key)?;
    bytes.push(0)?;
    Ok(Bytes::from_vec(bytes))
}

/// Tests that each row of a table's family is that of an item which may stand there, and tells a number of bytes than which none has more.
pub(crate) fn read_items<D: Disk>(
    alloc: Global,
    disk: &mut D,
    engine: &mut Engine,
    schema: &TableSchema,
) -> Result<u64, OpenFault>
    ensures read { IsTrue (D.state disk.old).tells → (l : Layout)
        → ReadsLayout (D.state disk.old) engine.old l → OnOk result (ItemsRead l schema.now) }
    ensures largest { IsTrue (D.state disk.old).tells → (l : Layout)
        → ReadsLayout (D.state disk.old) engine.old l
        → IfOk result (λ largest. RowsAreWithin l largest schema.now) }
    ensures wrong { IsTrue (D.state disk.old).tells → (l : Layout)
        → ReadsLayout (D.state disk.old) engine.old l → IfErr result (IsItemFault l schema.now) }
    ensures walked { Walked (D.state disk.old) (D.state disk.new) engine.old engine.new }
    ensures cause { IsErrOf result OpenFault.Failed
        → Rose (D.state disk.old).faults (D.state disk.new).faults }
{
    let mut from = Bytes::from_vec(Vec::new(alloc));
    let mut ahead = Vec::new(alloc);
    let mut largest = 0;
    'rows: for _ in 0..u64::MAX {
        let (key, row) = match next_row(disk, engine, schema.family, &from, &mut ahead) {
            Ok(Some(next)) => next,
            Ok(None) => return Ok(largest),
            Err(fault) => return Err(fault),
        };
        match test_item(alloc, schema, &key, &row) {
            Ok(size) => largest = size.max(largest),
            Err(Unread::Bad) => {
                return Err(OpenFault::BadRow {
                    family: schema.family,
                    key,
                });
            }
            Err(Unread::NoMemory) => return Err(OpenFault::NoMemory),
        }
        match key_after(key.as_slice(), alloc) {
            Ok(after) => from = after,
            Err(_) => return Err(OpenFault::NoMemory),
        }
    }
    Err(OpenFault::NoMemory)
}
