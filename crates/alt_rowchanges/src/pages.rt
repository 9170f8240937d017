//! What rows that are read tell: the items of a table, what an index keeps of them, and the changes of a stream.

ghost use Rattle.std.specs.Prelude.{◌≡◌, ◌++◌, ◌+◌, map as each, List, None, IfOk, IfErr, IfSome, OnOk, OnErr, IsErrOf, Err, Option, option_map};
ghost use Rattle.std.specs.List.{last_or};
ghost use Rattle.alt_base.specs.Prefix.{IsPrefix};
ghost use Rattle.alt_rowchanges.specs.Faults.{IsReadFault, TableFaultIsUnspent};
ghost use Rattle.alt_rowchanges.specs.Pages.{AreItemsOf, AreKept, ArePut, AreChangesOf};
ghost use Rattle.alt_value.specs.Tree.{Pair};
ghost use Rattle.alt_changes.specs.ChangeRows.{change_in};
ghost use Rattle.alt_machine.specs.State as machine;
ghost use Rattle.alt_views.specs.ItemRows.{IsReadItem, item_columns};

use crate::faults::TableFault;
use alt_base::NoMemory;
use alt_cells::ShownRow;
use alt_changes::Change;
use alt_fields::Bytes;
use alt_opening::change_at;
use alt_schema::{IndexSchema, TableSchema};
use alt_value::Item;
use alt_views::{Unread, item_from_row, item_of_index_row, item_of_row};
use std::alloc::Global;

/// The item of a row, where one is shown.
pub fn item_of(alloc: Global, row: &Option<ShownRow>) -> Result<Option<Item>, Unread>
    ensures item { IfOk result (λ item. IfSome item IsReadItem
        × (row.now ≡ option_map item_columns item)) }
    ensures none { result ≡ Err Unread.Bad → (item : Option (List Pair)) → IfSome item IsReadItem
        → row.now ≡ option_map item_columns item → ⊥ }
{
    match row {
        Some(row) => Ok(Some(item_of_row(alloc, row)?)),
        None => Ok(None),
    }
}

/// Puts the items of rows at the end of the list: the place of the last of them. A row is let go as soon as it is read.
pub fn read_page(
    alloc: Global,
    family: u32,
    page: Vec<(Bytes, ShownRow)>,
    out: &mut Vec<Item>,
) -> Result<Option<Bytes>, TableFault>
    ensures items { OnOk result (ArePut page.items out.old.items out.new.items) }
    ensures last { IfOk result (λ last. last ≡ last_or None (each (λ e. e.0) page.items)) }
    ensures begun { OnErr result (IsPrefix out.old.items out.new.items) }
    ensures unspent { IfErr result TableFaultIsUnspent }
    ensures fault { (items : List (List Pair)) → AreItemsOf page.items items
        → IfErr result IsReadFault }
    ensures unfailed { IsErrOf result TableFault.Failed → ⊥ }
{
    let mut last = None;
    for (place, row) in page {
        match item_from_row(alloc, row) {
            Ok(item) => out.push(item)?,
            Err(Unread::Bad) => return Err(TableFault::BadRow { family, key: place }),
            Err(Unread::NoMemory) => return Err(TableFault::NoMemory),
        }
        last = Some(place);
    }
    Ok(last)
}

/// Puts what an index keeps of items at the end of the list, from its rows: the place of the last of them. A row is let go as soon as it
/// is read.
pub fn read_index_page(
    alloc: Global,
    schema: &TableSchema,
    index: &IndexSchema,
    page: Vec<(Bytes, ShownRow)>,
    out: &mut Vec<Item>,
) -> Result<Option<Bytes>, TableFault>
    ensures items { (items : List (List Pair)) → AreKept schema.now index.now page.items items
        → OnOk result (out.new.items ≡ out.old.items ++ items) }
    ensures last { IfOk result (λ last. last ≡ last_or None (each (λ e. e.0) page.items)) }
    ensures begun { OnErr result (IsPrefix out.old.items out.new.items) }
    ensures unspent { IfErr result TableFaultIsUnspent }
    ensures fault { (items : List (List Pair)) → AreKept schema.now index.now page.items items
        → IfErr result IsReadFault }
    ensures unfailed { IsErrOf result TableFault.Failed → ⊥ }
{
    let family = index.family;
    let mut last = None;
    for (key, row) in page {
        match item_of_index_row(alloc, schema, index, key.as_slice(), &row) {
            Ok(item) => out.push(item)?,
            Err(Unread::Bad) => return Err(TableFault::BadRow { family, key }),
            Err(Unread::NoMemory) => return Err(TableFault::NoMemory),
        }
        last = Some(key);
    }
    Ok(last)
}

/// The changes of rows. A row is let go as soon as it is read.
pub fn read_changes(
    alloc: Global,
    family: u32,
    page: Vec<(Bytes, ShownRow)>,
) -> Result<Vec<Change>, TableFault>
    ensures changes { IfOk result (λ changes. AreChangesOf page.items
        (each change_in changes.items)) }
    ensures unspent { IfErr result TableFaultIsUnspent }
    ensures fault { (changes : List machine.Change) → AreChangesOf page.items changes
        → IfErr result IsReadFault }
    ensures unfailed { IsErrOf result TableFault.Failed → ⊥ }
{
    let mut changes = Vec::new(alloc);
    for (key, row) in page {
        match change_at(alloc, &key, &row) {
            Ok(change) => changes.push(change)?,
            Err(Unread::Bad) => return Err(TableFault::BadRow { family, key }),
            Err(Unread::NoMemory) => return Err(TableFault::NoMemory),
        }
    }
    Ok(changes)
}
