//! The row changes of an item that is written: those of its row, of its rows in the indexes and of its change in the stream.

ghost use Rattle.std.specs.Prelude.{◌≡◌, ◌∷◌, IfOk, IfSome, OnOk, option_map};
ghost use Rattle.alt_cells.specs.Changes.{change_between};
ghost use Rattle.alt_opening.specs.Families.{HasOwnFamilies};
ghost use Rattle.alt_views.specs.IndexRows.{index_changes};
ghost use Rattle.alt_views.specs.ItemRows.{item_columns};
ghost use Rattle.alt_rowchanges.specs.RowChanges.{item_changes};
ghost use Rattle.alt_value.specs.Values.{IsItemOfValues};

use alt_base::NoMemory;
use alt_cells::{Batch, RowChange, ShownRow};
use alt_changes::change_row;
use alt_codec::Writer;
use alt_fields::Bytes;
use alt_schema::TableSchema;
use alt_value::Item;
use alt_views::{index_changes, row_of_item};
use std::alloc::Global;

/// The row changes of an item by the write of a number at a moment: in its table, in the indexes and in the stream, which tells who made
/// the write. `row` is that of the old item.
pub fn item_batch(
    alloc: Global,
    schema: &TableSchema,
    number: u64,
    moment: u64,
    by: Writer,
    place: Bytes,
    row: Option<ShownRow>,
    old: &Option<Item>,
    new: &Option<Item>,
) -> Result<Batch, NoMemory>
    requires families { HasOwnFamilies schema.now }
    requires row { row ≡ option_map item_columns old.now }
    ensures changes { IfOk result (λ batch.
        batch ≡ item_changes schema.now number moment by place old.now new.now) }
    ensures held { OnOk result (IfSome new.now IsItemOfValues) }
{
    let mut batch = view_batch(alloc, schema, place, row, old, new)?;
    change_row(
        alloc,
        schema,
        old.as_ref(),
        new.as_ref(),
        number,
        moment,
        by,
        &mut batch,
    )?;
    Ok(batch)
}

/// Those in its table and in the indexes: a row that is made or removed is cleared, and of one that changes only what differs is written.
fn view_batch(
    alloc: Global,
    schema: &TableSchema,
    place: Bytes,
    row: Option<ShownRow>,
    old: &Option<Item>,
    new: &Option<Item>,
) -> Result<Batch, NoMemory>
    requires families { HasOwnFamilies schema.now }
    requires row { row ≡ option_map item_columns old.now }
    ensures changes { IfOk result (λ batch. batch ≡ change_between schema.now.family place
        (option_map item_columns old.now) (option_map item_columns new.now)
        ∷ index_changes schema.now old.now new.now) }
    ensures held { OnOk result (IfSome new.now IsItemOfValues) }
{
    let after = row_of(alloc, new)?;
    let change = change_of(alloc, schema.family, place, row, after)?;
    let mut batch = Batch::new(alloc);
    batch.add(change)?;
    index_changes(alloc, schema, old.as_ref(), new.as_ref(), &mut batch)?;
    Ok(batch)
}

/// The change that turns one row into another; one that is made is moved.
fn change_of(
    alloc: Global,
    family: u32,
    key: Bytes,
    old: Option<ShownRow>,
    new: Option<ShownRow>,
) -> Result<RowChange, NoMemory>
    ensures { IfOk result (λ change. change ≡ change_between family key old new) }
{
    match (old, new) {
        (None, Some(row)) => RowChange::made(alloc, family, key, row),
        (old, new) => RowChange::between(alloc, family, key, old.as_ref(), new.as_ref()),
    }
}

/// The row of an item, where there is one.
pub fn row_of(alloc: Global, item: &Option<Item>) -> Result<Option<ShownRow>, NoMemory>
    ensures row { IfOk result (λ row. row ≡ option_map item_columns item.now) }
    ensures held { IfSome item.now IsItemOfValues }
{
    match item {
        Some(item) => {
            let _count = item.len();
            Ok(Some(row_of_item(alloc, item)?))
        }
        None => Ok(None),
    }
}

/// An item of its own, where one is given.
pub fn copy_of(item: Option<&Item>) -> Result<Option<Item>, NoMemory>
    ensures { IfOk result (λ o. o ≡ option_map (λ i. i.now) item.entry) }
{
    match item {
        Some(item) => Ok(Some(item.copy()?)),
        None => Ok(None),
    }
}
