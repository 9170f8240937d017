//! The rows of the indexes of a table that is opened: each item that has a row in an index has it there, and there are no others.

ghost use Rattle.std.specs.Prelude.{◌≡◌, ◌↔◌, ◌<◌, List, Some, IfOk, IfErr, OnOk, IsErrOf, IsTrue, length, option_map};
ghost use Rattle.alt_base.specs.Counts.{Rose};
ghost use Rattle.alt_engine.specs.InHand.{ReadsLayout};
ghost use Rattle.alt_layout.specs.Layout.{Layout};
ghost use Rattle.alt_machine.specs.Keys.{place_of};
ghost use Rattle.alt_machine.specs.Sources.{index_at};
ghost use Rattle.alt_machine.specs.Valid.{IsMade};
ghost use Rattle.alt_schema.specs.Indexes.{indexes};
ghost use Rattle.alt_schema.specs.declared.schema.IndexSchema.{IndexSchema};
ghost use Rattle.alt_opening.specs.private.IndexScans.{HasRow, IndexRead, IndexesRead, IsFirstForeign, IsIndexFault, IsLeastMissing, IsOwnFault, TellsMissingOf, lesser};
ghost use Rattle.alt_opening.specs.Scans.{IsDeviceFault, ItemsRead, Walked};
ghost use Rattle.alt_value.specs.Tree.{Pair};
ghost use Rattle.alt_tablerows.specs.IndexRows.{built_row};
ghost use Rattle.alt_tablerows.specs.ItemRows.{IsReadItem, item_columns};
ghost use Rattle.alt_tablerows.specs.Read.{IsKeptAt, row_at};

use crate::faults::OpenFault;
use crate::scan::{key_after, next_row};
use alt_base::NoMemory;
use alt_cells::ShownRow;
use alt_disk::Disk;
use alt_engine::Engine;
use alt_fields::Bytes;
use alt_schema::TableSchema;
use alt_tablerows::{
    IndexRow, Unread, built_row, index_at, item_of_index_row, item_of_row, place_of,
};
use std::alloc::Global;

/// Tests the indexes of a table whose items are read, in the order of their numbers.
pub(crate) fn read_own_indexes<D: Disk>(
    alloc: Global,
    disk: &mut D,
    engine: &mut Engine,
    schema: &TableSchema,
) -> Result<(), OpenFault>
    ensures read { IsTrue (D.state disk.old).tells → (l : Layout)
        → ReadsLayout (D.state disk.old) engine.old l → IsMade schema.now → ItemsRead l schema.now
        → OnOk result (IndexesRead l schema.now) }
    ensures wrong { IsTrue (D.state disk.old).tells → (l : Layout)
        → ReadsLayout (D.state disk.old) engine.old l → IsMade schema.now → ItemsRead l schema.now
        → IfErr result (IsOwnFault l schema.now) }
    ensures walked { Walked (D.state disk.old) (D.state disk.new) engine.old engine.new }
    ensures cause { IsErrOf result OpenFault.Failed
        → Rose (D.state disk.old).faults (D.state disk.new).faults }
{
    let count = schema.locals.as_slice().len() + schema.globals.as_slice().len();
    'indexes: for number in 0..count {
        match read_index(alloc, disk, engine, schema, number) {
            Ok(()) => {}
            Err(fault) => return Err(fault),
        }
    }
    Ok(())
}

/// Tests that the index of that number shows at each key the row that an item has there, and nothing where none has one.
fn read_index<D: Disk>(
    alloc: Global,
    disk: &mut D,
    engine: &mut Engine,
    schema: &TableSchema,
    number: usize,
) -> Result<(), OpenFault>
    requires there { number < length (indexes schema.now) }
    ensures read { IsTrue (D.state disk.old).tells → (l : Layout) (i : IndexSchema)
        → ReadsLayout (D.state disk.old) engine.old l → index_at schema.now (Some number) ≡ Some i
        → IsMade schema.now → ItemsRead l schema.now → OnOk result (IndexRead l schema.now i) }
    ensures wrong { IsTrue (D.state disk.old).tells → (l : Layout) (i : IndexSchema)
        → ReadsLayout (D.state disk.old) engine.old l → index_at schema.now (Some number) ≡ Some i
        → IsMade schema.now → ItemsRead l schema.now
        → IfErr result (IsIndexFault l schema.now i) }
    ensures walked { Walked (D.state disk.old) (D.state disk.new) engine.old engine.new }
    ensures cause { IsErrOf result OpenFault.Failed
        → Rose (D.state disk.old).faults (D.state disk.new).faults }
{
    let missing = match least_missing(alloc, disk, engine, schema, number) {
        Ok(missing) => missing,
        Err(fault) => return Err(fault),
    };
    let foreign = match first_foreign(alloc, disk, engine, schema, number) {
        Ok(foreign) => foreign,
        Err(fault) => return Err(fault),
    };
    match lesser(missing, foreign) {
        Some(key) => Err(OpenFault::BadRow {
            family: index_at(schema, number).family,
            key,
        }),
        None => Ok(()),
    }
}

/// The lesser of two keys, where both are there.
fn lesser(a: Option<Bytes>, b: Option<Bytes>) -> Option<Bytes>
    ensures { result ≡ lesser a b }
{
    match (a, b) {
        (None, b) => b,
        (Some(a), None) => Some(a),
        (Some(a), Some(b)) => { if b < a { Some(b) } else { Some(a) } }
    }
}

/// The least key of an index at which it doesn't show the row of an item, None where it shows all of them.
fn least_missing<D: Disk>(
    alloc: Global,
    disk: &mut D,
    engine: &mut Engine,
    schema: &TableSchema,
    number: usize,
) -> Result<Option<Bytes>, OpenFault>
    requires there { number < length (indexes schema.now) }
    ensures least { IsTrue (D.state disk.old).tells → (l : Layout) (i : IndexSchema)
        → ReadsLayout (D.state disk.old) engine.old l → index_at schema.now (Some number) ≡ Some i
        → ItemsRead l schema.now
        → IfOk result (IsLeastMissing (λ place. Unit {0}) l schema.now i) }
    ensures walked { Walked (D.state disk.old) (D.state disk.new) engine.old engine.new }
    ensures fault { IsTrue (D.state disk.old).tells → (l : Layout)
        → ReadsLayout (D.state disk.old) engine.old l → IfErr result IsDeviceFault }
    ensures cause { IsErrOf result OpenFault.Failed
        → Rose (D.state disk.old).faults (D.state disk.new).faults }
{
    let mut least = None;
    let mut from = Bytes::from_vec(Vec::new(alloc));
    let mut ahead = Vec::new(alloc);
    'rows: for _ in 0..u64::MAX {
        let (place, row) = match next_row(disk, engine, schema.family, &from, &mut ahead) {
            Ok(Some(next)) => next,
            Ok(None) => return Ok(least),
            Err(fault) => return Err(fault),
        };
        match missing_key(alloc, disk, engine, schema, number, &row) {
            Ok(missing) => least = lesser(least, missing),
            Err(fault) => return Err(fault),
        }
        match key_after(place.as_slice(), alloc) {
            Ok(after) => from = after,
            Err(_) => return Err(OpenFault::NoMemory),
        }
    }
    Err(OpenFault::NoMemory)
}

/// The key in an index at which the row of a table's item isn't shown, None where it is, or where the item isn't in the index.
fn missing_key<D: Disk>(
    alloc: Global,
    disk: &mut D,
    engine: &mut Engine,
    schema: &TableSchema,
    number: usize,
    row: &ShownRow,
) -> Result<Option<Bytes>, OpenFault>
    requires there { number < length (indexes schema.now) }
    ensures missing { IsTrue (D.state disk.old).tells → (l : Layout) (i : IndexSchema)
        → ReadsLayout (D.state disk.old) engine.old l → index_at schema.now (Some number) ≡ Some i
        → IfOk result (TellsMissingOf l schema.now i row.now) }
    ensures walked { Walked (D.state disk.old) (D.state disk.new) engine.old engine.new }
    ensures fault { IsTrue (D.state disk.old).tells → (l : Layout)
        → ReadsLayout (D.state disk.old) engine.old l → IfErr result IsDeviceFault }
    ensures cause { IsErrOf result OpenFault.Failed
        → Rose (D.state disk.old).faults (D.state disk.new).faults }
{
    let own = match row_of_own(alloc, schema, number, row) {
        Ok(Some(own)) => own,
        Ok(None) => return Ok(None),
        Err(_) => return Err(OpenFault::NoMemory),
    };
    let IndexRow { key, columns } = own;
    let family = index_at(schema, number).family;
    let shown = match engine.row(disk, family, key.as_slice()) {
        Ok(shown) => shown,
        Err(fault) => return Err(OpenFault::from(fault)),
    };
    if shows(&shown, &columns) {
        Ok(None)
    } else {
        Ok(Some(key))
    }
}

/// The first key of an index whose row is none of an item, None where each is.
fn first_foreign<D: Disk>(
    alloc: Global,
    disk: &mut D,
    engine: &mut Engine,
    schema: &TableSchema,
    number: usize,
) -> Result<Option<Bytes>, OpenFault>
    requires there { number < length (indexes schema.now) }
    ensures first { IsTrue (D.state disk.old).tells → (l : Layout) (i : IndexSchema)
        → ReadsLayout (D.state disk.old) engine.old l → index_at schema.now (Some number) ≡ Some i
        → IsMade schema.now → ItemsRead l schema.now
        → IfOk result (IsFirstForeign l schema.now i) }
    ensures walked { Walked (D.state disk.old) (D.state disk.new) engine.old engine.new }
    ensures fault { IsTrue (D.state disk.old).tells → (l : Layout)
        → ReadsLayout (D.state disk.old) engine.old l → IfErr result IsDeviceFault }
    ensures cause { IsErrOf result OpenFault.Failed
        → Rose (D.state disk.old).faults (D.state disk.new).faults }
{
    let family = index_at(schema, number).family;
    let mut from = Bytes::from_vec(Vec::new(alloc));
    let mut ahead = Vec::new(alloc);
    'rows: for _ in 0..u64::MAX {
        let (key, row) = match next_row(disk, engine, family, &from, &mut ahead) {
            Ok(Some(next)) => next,
            Ok(None) => return Ok(None),
            Err(fault) => return Err(fault),
        };
        match is_own(alloc, disk, engine, schema, number, &key, &row) {
            Ok(true) => {}
            Ok(false) => return Ok(Some(key)),
            Err(fault) => return Err(fault),
        }
        match key_after(key.as_slice(), alloc) {
            Ok(after) => from = after,
            Err(_) => return Err(OpenFault::NoMemory),
        }
    }
    Err(OpenFault::NoMemory)
}

/// Whether a row that an index shows is that of an item of its table.
fn is_own<D: Disk>(
    alloc: Global,
    disk: &mut D,
    engine: &mut Engine,
    schema: &TableSchema,
    number: usize,
    key: &Bytes,
    row: &ShownRow,
) -> Result<bool, OpenFault>
    requires there { number < length (indexes schema.now) }
    ensures own { IsTrue (D.state disk.old).tells → (l : Layout) (i : IndexSchema)
        → ReadsLayout (D.state disk.old) engine.old l → index_at schema.now (Some number) ≡ Some i
        → IsMade schema.now → ItemsRead l schema.now
        → IfOk result (λ own. IsTrue own ↔ HasRow l schema.now i key.now row.now) }
    ensures walked { Walked (D.state disk.old) (D.state disk.new) engine.old engine.new }
    ensures fault { IsTrue (D.state disk.old).tells → (l : Layout)
        → ReadsLayout (D.state disk.old) engine.old l → IfErr result IsDeviceFault }
    ensures cause { IsErrOf result OpenFault.Failed
        → Rose (D.state disk.old).faults (D.state disk.new).faults }
{
    let place = match place_of_row(alloc, schema, number, key, row) {
        Ok(Some(place)) => place,
        Ok(None) => return Ok(false),
        Err(_) => return Err(OpenFault::NoMemory),
    };
    let shown = match engine.row(disk, schema.family, place.as_slice()) {
        Ok(Some(shown)) => shown,
        Ok(None) => return Ok(false),
        Err(fault) => return Err(OpenFault::from(fault)),
    };
    match is_row_of(alloc, schema, number, &shown, key, row) {
        Ok(own) => Ok(own),
        Err(_) => Err(OpenFault::NoMemory),
    }
}

/// The place in its table of the item that has a row in an index, None where the row is none of an item.
fn place_of_row(
    alloc: Global,
    schema: &TableSchema,
    number: usize,
    key: &Bytes,
    row: &ShownRow,
) -> Result<Option<Bytes>, NoMemory>
    requires there { number < length (indexes schema.now) }
    ensures place { (i : IndexSchema) (kept : List Pair)
        → index_at schema.now (Some number) ≡ Some i
        → IsKeptAt schema.now i kept key.now row.now
        → IfOk result (λ place. place ≡ place_of schema.now kept) }
{
    let index = index_at(schema, number);
    match item_of_index_row(alloc, schema, index, key.as_slice(), row) {
        Ok(kept) => place_of(alloc, schema, &kept),
        Err(Unread::Bad) => Ok(None),
        Err(Unread::NoMemory) => Err(NoMemory),
    }
}

/// Whether the item of a table's row has that row in an index.
fn is_row_of(
    alloc: Global,
    schema: &TableSchema,
    number: usize,
    shown: &ShownRow,
    key: &Bytes,
    row: &ShownRow,
) -> Result<bool, NoMemory>
    requires there { number < length (indexes schema.now) }
    ensures own { (i : IndexSchema) (item : List Pair) → index_at schema.now (Some number) ≡ Some i
        → IsReadItem item → shown.now ≡ item_columns item → IfOk result (λ own.
        IsTrue own ↔ (built_row schema.now i item ≡ Some (key.now, row.now))) }
{
    match row_of_own(alloc, schema, number, shown)? {
        Some(found) => Ok(found.key == *key && same_columns(&found.columns, row)),
        None => Ok(false),
    }
}

/// The row in an index of the item of a table's row, None where the item isn't in the index, or the index isn't built of it.
fn row_of_own(
    alloc: Global,
    schema: &TableSchema,
    number: usize,
    row: &ShownRow,
) -> Result<Option<IndexRow>, NoMemory>
    requires there { number < length (indexes schema.now) }
    ensures row { (i : IndexSchema) (item : List Pair) → index_at schema.now (Some number) ≡ Some i
        → IsReadItem item → row.now ≡ item_columns item
        → IfOk result (λ own. option_map row_at own ≡ built_row schema.now i item) }
{
    match item_of_row(alloc, row) {
        Ok(item) => built_row(alloc, schema, number, &item),
        Err(Unread::Bad) => Ok(None),
        Err(Unread::NoMemory) => Err(NoMemory),
    }
}

/// Whether a row with these columns is shown.
fn shows(shown: &Option<ShownRow>, columns: &ShownRow) -> bool
    ensures shows { IsTrue result ↔ (shown.now ≡ Some columns.now) }
{
    match shown {
        Some(shown) => same_columns(shown, columns),
        None => false,
    }
}

/// Whether two rows have the same columns.
fn same_columns(a: &ShownRow, b: &ShownRow) -> bool
    ensures same { IsTrue result ↔ (a.now ≡ b.now) }
{
    a.as_slice() == b.as_slice()
}
