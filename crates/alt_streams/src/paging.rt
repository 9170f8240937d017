//! Reading the changes of a table for a page, piece by piece.

ghost use Rattle.std.specs.Prelude.{◌≡◌, not, true, false, ℕ, List, [], Some, All, IfErr, IfOk, IsErrOf, IsSome, OnOk, map as each};
ghost use Rattle.std.specs.FinMap as map;
ghost use Rattle.alt_base.specs.Counts.{Rose};
ghost use Rattle.alt_changes.specs.ChangeRows.{change_in};
ghost use Rattle.alt_machine.specs.Changes.{record_size};
ghost use Rattle.alt_machine.specs.Ops.GetRecords.{changes_from, records_page};
ghost use Rattle.alt_machine.specs.State as machine;
ghost use Rattle.alt_machine.specs.State.{State, Table};
ghost use Rattle.alt_schema.specs.declared.schema.TableSchema.{TableSchema};
ghost use Rattle.alt_schema.specs.declared.schema.View.{View};
ghost use Rattle.alt_streams.specs.private.Paged.{PageHasRecords, IsFit, Puts, StepsPage, is_full};
ghost use Rattle.alt_request.specs.TablesFaults.{IsFindFault, IsReadFault};
ghost use Rattle.alt_request.specs.TablesLooking.{OnlyReads};
ghost use Rattle.alt_request.specs.TablesStands.{AreReady, Stands, catalog_of};

use crate::page::Page;
use alt_changes::Change;
use alt_disk::Disk;
use alt_request::{TableFault, Tables};
use alt_schema::TableSchema;
use std::alloc::Global;

/// Puts records of the changes of a table with a stream from the page's next number on into a page, until it is full or no change
/// is left. No piece that is read is longer than what the page may still take.
pub(crate) fn fill<D: Disk>(
    alloc: Global,
    tables: &mut Tables,
    disk: &mut D,
    table: &str,
    page: &mut Page,
) -> Result<(), TableFault>
    requires ready { AreReady (D.state disk.old) tables.old }
    requires there { map.contains_key (catalog_of tables.old) table.now ≡ true }
    requires stream { (d : TableSchema) → map.get (catalog_of tables.old) table.now ≡ Some d
        → IsSome d.view }
    ensures filled { (s : State) (t : Table) (shows : View) (most from : ℕ)
        → Stands (D.state disk.old) tables.old s → map.get s.tables table.now ≡ Some t
        → t.description.view ≡ Some shows → PageHasRecords t.description shows most from page.old []
        → OnOk result (PageHasRecords t.description shows most from page.new
        (records_page most (record_size t.description shows) (changes_from page.old.next t.changes))) }
    ensures only { OnlyReads (D.state disk.old) (D.state disk.new) tables.old tables.new }
    ensures fault { (s : State) → Stands (D.state disk.old) tables.old s
        → IfErr result IsFindFault }
    ensures cause { IsErrOf result TableFault.Failed
        → Rose (D.state disk.old).faults (D.state disk.new).faults }
{
    'pieces: for _ in 0..u64::MAX {
        if page.is_full() {
            return Ok(());
        }
        let more = step(alloc, tables, disk, table, page)?;
        if !more {
            return Ok(());
        }
    }
    Err(TableFault::NoMemory)
}

/// Reads a piece of the changes: whether the page takes more and more may be left.
fn step<D: Disk>(
    alloc: Global,
    tables: &mut Tables,
    disk: &mut D,
    table: &str,
    page: &mut Page,
) -> Result<bool, TableFault>
    requires ready { AreReady (D.state disk.old) tables.old }
    requires there { map.contains_key (catalog_of tables.old) table.now ≡ true }
    requires stream { (d : TableSchema) → map.get (catalog_of tables.old) table.now ≡ Some d
        → IsSome d.view }
    requires going { is_full page.old ≡ false }
    ensures steps { (s : State) (t : Table) (shows : View) (most from : ℕ)
        (seen : List machine.Change) → Stands (D.state disk.old) tables.old s
        → map.get s.tables table.now ≡ Some t → t.description.view ≡ Some shows
        → PageHasRecords t.description shows most from page.old seen
        → IfOk result (StepsPage t.description shows most from page.new seen t
        (changes_from page.old.next t.changes)) }
    ensures only { OnlyReads (D.state disk.old) (D.state disk.new) tables.old tables.new }
    ensures fault { (s : State) → Stands (D.state disk.old) tables.old s
        → IfErr result IsFindFault }
    ensures cause { IsErrOf result TableFault.Failed
        → Rose (D.state disk.old).faults (D.state disk.new).faults }
{
    let most = page.piece();
    let changes = tables.changes(disk, table, page.next, most)?;
    let got = changes.len();
    let Some(schema) = tables.table(table) else {
        unreachable!();
    };
    let more = put_all(alloc, schema, page, changes)?;
    if !more || got < most as usize {
        return Ok(false);
    }
    Ok(true)
}

/// Puts the records of these changes into a page in their order, until it is full: whether it takes more. A change is let go as soon as its
/// record is put.
fn put_all(
    alloc: Global,
    schema: &TableSchema,
    page: &mut Page,
    changes: Vec<Change>,
) -> Result<bool, TableFault>
    requires going { is_full page.old ≡ false }
    requires stream { IsSome schema.now.view }
    ensures puts { (shows : View) (most from : ℕ) (seen : List machine.Change)
        → schema.now.view ≡ Some shows → PageHasRecords schema.now shows most from page.old seen
        → All IsFit (each change_in changes.items)
        → IfOk result (Puts schema.now shows most from page.new seen
        (each change_in changes.items)) }
    ensures ends { IfOk result (λ more. is_full page.new ≡ not more) }
    ensures fault { All IsFit (each change_in changes.items) → IfErr result IsReadFault }
    ensures unfailed { IsErrOf result TableFault.Failed → ⊥ }
{
    for change in changes {
        page.put(alloc, schema, change)?;
        if page.is_full() {
            return Ok(false);
        }
    }
    Ok(true)
}
