//! The catalog of a store that is opened: the next family, and the descriptions of its tables.

ghost use Rattle.std.specs.Prelude.{◌≡◌, ◌↔◌, None, Err, IfOk, IfErr, IfSome, OnOk, IsErrOf, IsTrue};
ghost use Rattle.std.specs.FinMap as map;
ghost use Rattle.alt_base.specs.Counts.{Rose};
ghost use Rattle.alt_engine.specs.InHand.{ReadsLayout};
ghost use Rattle.alt_layout.specs.Layout.{Layout};
ghost use Rattle.alt_machine.specs.Building.{IsBuilt};
ghost use Rattle.alt_machine.specs.State.{families_of};
ghost use Rattle.alt_schema.specs.Described.{IsDescription};
ghost use Rattle.alt_tablerows.specs.Held.{IsHeld};
ghost use Rattle.alt_schema.specs.declared.schema.TableSchema.{TableSchema};
ghost use Rattle.alt_opening.specs.private.Opening.{IsApart, IsCatalog, IsRowFault, IsNextFamily, IsReadOn, IsReadUpTo, IsTableAt, TableMayStand};
ghost use Rattle.alt_opening.specs.Scans.{IsAhead, Walked};
ghost use Rattle.alt_opening.specs.StateRows.{catalog_family};

use crate::catalog::Catalog;
use crate::faults::OpenFault;
use crate::scan::{key_after, next_row};
use alt_base::NoMemory;
use alt_cells::ShownRow;
use alt_disk::Disk;
use alt_engine::Engine;
use alt_fields::Bytes;
use alt_machine::MOST_TABLES;
use alt_schema::TableSchema;
use alt_tablerows::{CATALOG, Unread, families_of, family_of_row, is_good, schema_of_row};
use std::alloc::Global;

/// What the rows of a catalog tell: the descriptions of its tables, and the next family.
#[derive(Drop)]
pub(crate) struct Opened {
    pub(crate) catalog: Catalog,
    pub(crate) family: u32,
}

/// Reads the catalog of a store, and tests each of its rows.
pub(crate) fn read_catalog<D: Disk>(
    alloc: Global,
    disk: &mut D,
    engine: &mut Engine,
) -> Result<Opened, OpenFault>
    ensures read { IsTrue (D.state disk.old).tells → (l : Layout)
        → ReadsLayout (D.state disk.old) engine.old l
        → IfOk result (λ o. IsCatalog l o.family o.catalog) }
    ensures wrong { IsTrue (D.state disk.old).tells → (l : Layout)
        → ReadsLayout (D.state disk.old) engine.old l → IfErr result (IsRowFault l) }
    ensures walked { Walked (D.state disk.old) (D.state disk.new) engine.old engine.new }
    ensures cause { IsErrOf result OpenFault.Failed
        → Rose (D.state disk.old).faults (D.state disk.new).faults }
{
    let family = match read_family(alloc, disk, engine) {
        Ok(family) => family,
        Err(fault) => return Err(fault),
    };
    let mut catalog = Catalog::new(alloc);
    let Ok(mut from) = key_after(&[], alloc) else {
        return Err(OpenFault::NoMemory);
    };
    let mut ahead = Vec::new(alloc);
    'rows: for _ in 0..u64::MAX {
        match read_table(alloc, disk, engine, family, &mut catalog, &from, &mut ahead) {
            Ok(Some(after)) => from = after,
            Ok(None) => return Ok(Opened { catalog, family }),
            Err(fault) => return Err(fault),
        }
    }
    Err(OpenFault::NoMemory)
}

/// Reads the first row of the catalog from a key on, which is the next one in hand where rows are in hand, and adds its table. It tells the key behind it, and None where there is no row.
fn read_table<D: Disk>(
    alloc: Global,
    disk: &mut D,
    engine: &mut Engine,
    family: u32,
    catalog: &mut Catalog,
    from: &Bytes,
    ahead: &mut Vec<(Bytes, ShownRow)>,
) -> Result<Option<Bytes>, OpenFault>
    ensures read { IsTrue (D.state disk.old).tells → (l : Layout)
        → ReadsLayout (D.state disk.old) engine.old l
        → IsAhead l catalog_family from.now ahead.old.items
        → IsReadUpTo l family from.now catalog.old → IfOk result (IsReadOn l family catalog.new) }
    ensures ahead { IsTrue (D.state disk.old).tells → (l : Layout)
        → ReadsLayout (D.state disk.old) engine.old l
        → IsAhead l catalog_family from.now ahead.old.items
        → IfOk result (λ o. IfSome o (λ after. IsAhead l catalog_family after ahead.new.items)) }
    ensures wrong { IsTrue (D.state disk.old).tells → (l : Layout)
        → ReadsLayout (D.state disk.old) engine.old l
        → IsAhead l catalog_family from.now ahead.old.items
        → IsReadUpTo l family from.now catalog.old → IfErr result (IsRowFault l) }
    ensures walked { Walked (D.state disk.old) (D.state disk.new) engine.old engine.new }
    ensures cause { IsErrOf result OpenFault.Failed
        → Rose (D.state disk.old).faults (D.state disk.new).faults }
{
    let number = engine.next_number();
    let (name, row) = match next_row(disk, engine, CATALOG, from, ahead) {
        Ok(Some(next)) => next,
        Ok(None) => return Ok(None),
        Err(fault) => return Err(fault),
    };
    match add_table(alloc, catalog, number, family, &name, &row) {
        Ok(()) => {}
        Err(Unread::Bad) => {
            return Err(OpenFault::BadRow {
                family: CATALOG,
                key: name,
            });
        }
        Err(Unread::NoMemory) => return Err(OpenFault::NoMemory),
    }
    match key_after(name.as_slice(), alloc) {
        Ok(after) => Ok(Some(after)),
        Err(_) => Err(OpenFault::NoMemory),
    }
}

/// The next family, which the row at the empty key tells.
fn read_family<D: Disk>(alloc: Global, disk: &mut D, engine: &mut Engine) -> Result<u32, OpenFault>
    ensures read { IsTrue (D.state disk.old).tells → (l : Layout)
        → ReadsLayout (D.state disk.old) engine.old l → IfOk result (IsNextFamily l) }
    ensures wrong { IsTrue (D.state disk.old).tells → (l : Layout)
        → ReadsLayout (D.state disk.old) engine.old l → IfErr result (IsRowFault l) }
    ensures walked { Walked (D.state disk.old) (D.state disk.new) engine.old engine.new }
    ensures cause { IsErrOf result OpenFault.Failed
        → Rose (D.state disk.old).faults (D.state disk.new).faults }
{
    let row = match engine.row(disk, CATALOG, &[]) {
        Ok(row) => row,
        Err(fault) => return Err(OpenFault::from(fault)),
    };
    match family_of_row(row.as_ref()) {
        Some(family) => Ok(family),
        None => Err(OpenFault::BadRow {
            family: CATALOG,
            key: Bytes::from_vec(Vec::new(alloc)),
        }),
    }
}

/// Adds the table whose row stands at a name, where that may be so beside the tables before it.
fn add_table(
    alloc: Global,
    catalog: &mut Catalog,
    number: u64,
    family: u32,
    name: &Bytes,
    row: &ShownRow,
) -> Result<(), Unread>
    ensures added { OnOk result ((d : TableSchema)
        × IsTableAt number family catalog.old name.now row.now d
        × (catalog.new ≡ map.insert catalog.old d.name d)) }
    ensures none { result ≡ Err Unread.Bad → (d : TableSchema)
        → IsTableAt number family catalog.old name.now row.now d → ⊥ }
{
    let schema = test_table(alloc, catalog, number, family, name, row)?;
    catalog.add(schema)?;
    Ok(())
}

/// The description whose row stands at a name, where that may be so beside the tables before it.
fn test_table(
    alloc: Global,
    catalog: &Catalog,
    number: u64,
    family: u32,
    name: &Bytes,
    row: &ShownRow,
) -> Result<TableSchema, Unread>
    ensures table { IfOk result (IsTableAt number family catalog.now name.now row.now) }
    ensures none { result ≡ Err Unread.Bad → (d : TableSchema)
        → IsTableAt number family catalog.now name.now row.now d → ⊥ }
{
    let schema = schema_of_row(alloc, row)?;
    if may_stand(alloc, catalog, number, family, name, &schema)? {
        Ok(schema)
    } else {
        Err(Unread::Bad)
    }
}

/// Whether a description may be that of a table of that name, beside the tables before it.
fn may_stand(
    alloc: Global,
    catalog: &Catalog,
    number: u64,
    family: u32,
    name: &Bytes,
    schema: &TableSchema,
) -> Result<bool, NoMemory>
    requires description { IsDescription schema.now }
    requires held { IsHeld schema.now }
    requires built { IsBuilt schema.now }
    ensures may { IfOk result (λ may. IsTrue may
        ↔ TableMayStand number family catalog.now name.now schema.now) }
{
    let families = families_of(alloc, schema)?;
    if catalog.len() >= MOST_TABLES {
        return Ok(false);
    }
    if !is_good(number, family, name, schema, families.as_slice()) {
        return Ok(false);
    }
    if !is_new(catalog, schema) {
        return Ok(false);
    }
    Ok(is_apart(catalog, schema, families.as_slice()))
}

/// Whether no table has its name.
fn is_new(catalog: &Catalog, schema: &TableSchema) -> bool
    ensures new { IsTrue result ↔ (map.get catalog.now schema.now.name ≡ None) }
{
    catalog.get(schema.name.as_str()).is_none()
}

/// Whether no table has one of its families.
fn is_apart(catalog: &Catalog, schema: &TableSchema, families: &[u32]) -> bool
    requires families { families.now ≡ families_of schema.now }
    ensures apart { IsTrue result ↔ IsApart catalog.now schema.now }
{
    !catalog.clashes(families)
}
