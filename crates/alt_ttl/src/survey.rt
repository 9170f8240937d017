//! A list of the items that are due next, made by a walk over the items of all tables, up to its bound.

ghost use Rattle.std.specs.Prelude.{◌≡◌, true, not, Some, IfOk, OnOk};
ghost use Rattle.std.specs.FinMap as map;
ghost use Rattle.alt_due.specs.Due.{KeepsKnown, is_before};
ghost use Rattle.alt_due.specs.Order.{spot_of};
ghost use Rattle.alt_machine.specs.State.{State, Table};
ghost use Rattle.alt_request.specs.TablesForeseen.{Foresees};
ghost use Rattle.alt_request.specs.TablesLooking.{FailsReading, OnlyReads};
ghost use Rattle.alt_request.specs.TablesSeveral.{Every};
ghost use Rattle.alt_request.specs.TablesStands.{AreReady, Stands, catalog_of};
ghost use Rattle.alt_ttl.specs.private.Foresight.{ForeseesPlaced, ForeseesTable, ForeseesFromNext};

use crate::search::{PAGE, behind, has_time, names};
use alt_base::NoMemory;
use alt_disk::Disk;
use alt_due::{Due, Spot};
use alt_fields::Bytes;
use alt_keyorder::KeyRange;
use alt_request::{TableFault, Tables, expires_from};
use alt_schema::TableSchema;
use alt_value::Item;
use alt_views::place_of;
use std::alloc::Global;
use std::cmp::Ordering;

/// A list that knows of all items of the tables, from a moment on.
pub(crate) fn survey<D: Disk>(
    alloc: Global,
    tables: &mut Tables,
    disk: &mut D,
    moment: u64,
) -> Result<Due, TableFault>
    requires ready { AreReady (D.state disk.old) tables.old }
    ensures known { (s : State) → Stands (D.state disk.old) tables.old s
        → IfOk result (Foresees s.tables) }
    ensures only { OnlyReads (D.state disk.old) (D.state disk.new) tables.old tables.new }
    ensures fails { FailsReading (D.state disk.old) (D.state disk.new) tables.old result }
{
    let names = names(alloc, tables)?;
    let mut due = Due::begin(alloc, moment);
    for name in names {
        match survey_table(alloc, tables, disk, name.as_str(), &mut due) {
            Ok(()) => {}
            Err(fault) => return Err(fault),
        }
    }
    Ok(due)
}

/// Notes the items of a table.
fn survey_table<D: Disk>(
    alloc: Global,
    tables: &mut Tables,
    disk: &mut D,
    name: &str,
    due: &mut Due,
) -> Result<(), TableFault>
    requires ready { AreReady (D.state disk.old) tables.old }
    requires there { map.contains_key (catalog_of tables.old) name.now ≡ true }
    ensures known { (s : State) (t : Table) → Stands (D.state disk.old) tables.old s
        → map.get s.tables name.now ≡ Some t → OnOk result (ForeseesTable name.now t due.new) }
    ensures keeps { KeepsKnown due.old due.new }
    ensures only { OnlyReads (D.state disk.old) (D.state disk.new) tables.old tables.new }
    ensures fails { FailsReading (D.state disk.old) (D.state disk.new) tables.old result }
{
    if !has_time(tables, name) {
        return Ok(());
    }
    let mut from = Bytes::new(alloc, &[])?;
    'pages: for _ in 0..u64::MAX {
        match survey_page(alloc, tables, disk, name, from, due) {
            Ok(Some(next)) => from = next,
            Ok(None) => return Ok(()),
            Err(fault) => return Err(fault),
        }
    }
    Err(TableFault::NoMemory)
}

/// Notes the first items of a table from a place on: from where to go on, `None` where all others are known of.
fn survey_page<D: Disk>(
    alloc: Global,
    tables: &mut Tables,
    disk: &mut D,
    name: &str,
    from: Bytes,
    due: &mut Due,
) -> Result<Option<Bytes>, TableFault>
    requires ready { AreReady (D.state disk.old) tables.old }
    requires there { map.contains_key (catalog_of tables.old) name.now ≡ true }
    ensures known { (s : State) (t : Table) → Stands (D.state disk.old) tables.old s
        → map.get s.tables name.now ≡ Some t
        → IfOk result (ForeseesFromNext name.now t from due.new) }
    ensures keeps { KeepsKnown due.old due.new }
    ensures only { OnlyReads (D.state disk.old) (D.state disk.new) tables.old tables.new }
    ensures fails { FailsReading (D.state disk.old) (D.state disk.new) tables.old result }
{
    if ends_by(due, name, from.as_slice()) {
        return Ok(None);
    }
    let mut items = Vec::new(alloc);
    let range = KeyRange { from, to: None };
    let last = match tables.rows(disk, name, None, &range, true, PAGE, &mut items) {
        Ok(last) => last,
        Err(fault) => return Err(fault),
    };
    let got = items.len();
    let Some(schema) = tables.table(name) else {
        unreachable!();
    };
    note_items(alloc, schema, name, items, due)?;
    if got < PAGE as usize {
        return Ok(None);
    }
    match last {
        Some(place) => Ok(Some(behind(alloc, place.as_slice())?)),
        None => Ok(None),
    }
}

/// Whether a list ends up to a place, so that it knows of all items from there on.
fn ends_by(due: &Due, name: &str, place: &[u8]) -> bool
    ensures { result ≡ not (is_before due.now.end (spot_of name.now place.now)) }
{
    match due.end() {
        Some(end) => !is_before(name, place, end),
        None => false,
    }
}

/// Whether a place is before another one.
fn is_before(name: &str, place: &[u8], end: &Spot) -> bool
    ensures { result ≡ is_before (Some end.now) (spot_of name.now place.now) }
{
    match name.cmp(end.table.as_str()) {
        Ordering::Equal => place.cmp(end.place.as_slice()).is_lt(),
        apart => apart.is_lt(),
    }
}

/// Notes items of a table of that name.
fn note_items(
    alloc: Global,
    schema: &TableSchema,
    name: &str,
    items: Vec<Item>,
    due: &mut Due,
) -> Result<(), NoMemory>
    ensures known { OnOk result (Every (ForeseesPlaced schema.now name.now due.new) items.items) }
    ensures keeps { KeepsKnown due.old due.new }
{
    for item in items {
        note_item(alloc, schema, name, &item, due)?;
    }
    Ok(())
}

/// Notes one.
fn note_item(
    alloc: Global,
    schema: &TableSchema,
    name: &str,
    item: &Item,
    due: &mut Due,
) -> Result<(), NoMemory>
    ensures known { OnOk result (ForeseesPlaced schema.now name.now due.new item.now) }
    ensures keeps { KeepsKnown due.old due.new }
{
    let Some(first) = expires_from(schema, item) else {
        return Ok(());
    };
    let Some(place) = place_of(alloc, schema, item)? else {
        return Ok(());
    };
    due.note(name, place.as_slice(), first);
    Ok(())
}
