//! The changes of index rows that a write of an item makes.

ghost use Rattle.std.specs.Prelude.{◌≡◌, ◌++◌, ◌∷◌, [], ◌<◌, false, IfOk, OnOk, length, map, option_map, option_and_then, slice_get, Some, None};
ghost use Rattle.alt_cells.specs.Batches.{has_row};
ghost use Rattle.alt_cells.specs.Changes.{change_between};
ghost use Rattle.alt_schema.specs.Indexes.{indexes};
ghost use Rattle.alt_schema.specs.declared.schema.IndexSchema.{IndexSchema};
ghost use Rattle.alt_views.specs.Batches.{AreNew, AreOfOwnFamilies};
ghost use Rattle.alt_views.specs.private.Changed.{DifferAt};
ghost use Rattle.alt_views.specs.IndexRows.{built_row, built_row_changes, if_said, index_changes, moved_changes};
ghost use Rattle.alt_views.specs.Read.{row_at};

use crate::changed::{changed_names, may_change};
use crate::indexed::IndexRow;
use crate::reach::built_row;
use crate::rows::projection::index_at;
use alt_base::NoMemory;
use alt_cells::{Batch, RowChange};
use alt_schema::TableSchema;
use alt_value::Item;
use std::alloc::Global;

/// Puts the row changes at the end of a batch that turn the index rows of an item into those of another, for every index of the table; an
/// item that isn't there has no rows, and an index that is being built has none of an item that it isn't built of. Where a row keeps its key, only what differs is written, and nothing where nothing does. The
/// families of the indexes differ, and the batch has no change of these rows yet.
pub fn index_changes(
    alloc: Global,
    schema: &TableSchema,
    old: Option<&Item>,
    new: Option<&Item>,
    batch: &mut Batch,
) -> Result<(), NoMemory>
    requires families { AreOfOwnFamilies schema.now }
    requires rows { AreNew batch.old
        (index_changes schema.now (option_map (λ i. i.now) old) (option_map (λ i. i.now) new)) }
    ensures changes { OnOk result (batch.new ≡ batch.old ++ index_changes schema.now
        (option_map (λ i. i.now) old.entry) (option_map (λ i. i.now) new.entry)) }
{
    let count = schema.locals.as_slice().len() + schema.globals.as_slice().len();
    let names = &changed_names(alloc, count, old, new)?;
    for number in 0..count {
        change_index(alloc, schema, number, names, old, new, batch)?;
    }
    Ok(())
}

/// The same for one index, with the names at which the items differ where these are told. Where it keeps none of them no row is made.
fn change_index(
    alloc: Global,
    schema: &TableSchema,
    number: usize,
    names: &Option<Vec<&str>>,
    old: Option<&Item>,
    new: Option<&Item>,
    batch: &mut Batch,
) -> Result<(), NoMemory>
    requires there { number < length (indexes schema.now) }
    requires names { DifferAt (option_map (λ v. map (λ n. n.now) v.items) names.now)
        (option_map (λ i. i.now) old) (option_map (λ i. i.now) new) }
    requires rows { (i : IndexSchema) → slice_get (indexes schema.now) number ≡ Some i
        → AreNew batch.old
        (built_row_changes schema.now (option_map (λ i. i.now) old) (option_map (λ i. i.now) new) i) }
    ensures changes { (i : IndexSchema) → slice_get (indexes schema.now) number ≡ Some i
        → OnOk result (batch.new ≡ batch.old ++ built_row_changes schema.now
        (option_map (λ i. i.now) old.entry) (option_map (λ i. i.now) new.entry) i) }
{
    let index = index_at(schema, number);
    if !may_change(schema, index, names) {
        return Ok(());
    }
    let family = index.family;
    let before = row_of(alloc, schema, number, old)?;
    let after = row_of(alloc, schema, number, new)?;
    change_row(alloc, family, before, after, batch)
}

/// The row of an item, if one is there, in the index of that number, as far as that is built.
fn row_of(
    alloc: Global,
    schema: &TableSchema,
    number: usize,
    item: Option<&Item>,
) -> Result<Option<IndexRow>, NoMemory>
    requires there { number < length (indexes schema.now) }
    ensures row { (i : IndexSchema) → slice_get (indexes schema.now) number ≡ Some i
        → IfOk result (λ row. option_map row_at row
        ≡ option_and_then (built_row schema.now i) (option_map (λ i. i.now) item.entry)) }
{
    match item {
        Some(item) => built_row(alloc, schema, number, item),
        None => Ok(None),
    }
}

/// Puts the changes of a row of a family at the end of a batch that was there, or wasn't, and that is to be there, or isn't.
fn change_row(
    alloc: Global,
    family: u32,
    before: Option<IndexRow>,
    after: Option<IndexRow>,
    batch: &mut Batch,
) -> Result<(), NoMemory>
    requires rows { AreNew batch.old
        (moved_changes family (option_map row_at before) (option_map row_at after)) }
    ensures changes { OnOk result (batch.new ≡ batch.old
        ++ moved_changes family (option_map row_at before) (option_map row_at after)) }
{
    match (before, after) {
        (None, None) => Ok(()),
        (Some(gone), None) => take(alloc, family, gone, batch),
        (None, Some(made)) => make(alloc, family, made, batch),
        (Some(gone), Some(made)) => {
            if made.key.as_slice() == gone.key.as_slice() {
                return change_columns(alloc, family, gone, made, batch);
            }
            take(alloc, family, gone, batch)?;
            make(alloc, family, made, batch)
        }
    }
}

/// A row that goes.
fn take(alloc: Global, family: u32, row: IndexRow, batch: &mut Batch) -> Result<(), NoMemory>
    requires new { has_row batch.old family row.key ≡ false }
    ensures change { OnOk result (batch.new ≡ batch.old
        ++ change_between family row.key (Some row.columns) None ∷ []) }
{
    let IndexRow { key, columns } = row;
    batch.add(RowChange::between(alloc, family, key, Some(&columns), None)?)
}

/// A row that comes.
fn make(alloc: Global, family: u32, row: IndexRow, batch: &mut Batch) -> Result<(), NoMemory>
    requires new { has_row batch.old family row.key ≡ false }
    ensures change { OnOk result (batch.new ≡ batch.old
        ++ change_between family row.key None (Some row.columns) ∷ []) }
{
    let IndexRow { key, columns } = row;
    batch.add(RowChange::made(alloc, family, key, columns)?)
}

/// A row that stays at its key, if a column of it changes.
fn change_columns(
    alloc: Global,
    family: u32,
    before: IndexRow,
    after: IndexRow,
    batch: &mut Batch,
) -> Result<(), NoMemory>
    requires new { AreNew batch.old (if_said
        (change_between family before.key (Some before.columns) (Some after.columns))) }
    ensures change { OnOk result (batch.new ≡ batch.old ++ if_said
        (change_between family before.key (Some before.columns) (Some after.columns))) }
{
    let IndexRow { key, columns } = before;
    let change = RowChange::between(alloc, family, key, Some(&columns), Some(&after.columns))?;
    if change.cells.as_slice().is_empty() {
        return Ok(());
    }
    batch.add(change)
}
