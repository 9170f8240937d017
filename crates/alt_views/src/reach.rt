//! The rows of an index that is being built, which are those of the items of which it is built (Developer Guide, "Managing global secondary
//! indexes", "Backfilling").

ghost use Rattle.std.specs.Prelude.{◌≡◌, ◌<◌, IfOk, Some, length, option_map, option_and_then, slice_get};
ghost use Rattle.alt_machine.specs.Building.{is_built_of_item};
ghost use Rattle.alt_schema.specs.Indexes.{indexes};
ghost use Rattle.alt_schema.specs.declared.schema.Built.TheVariants.{UpTo};
ghost use Rattle.alt_views.specs.IndexRows.{built_row};
ghost use Rattle.alt_views.specs.Read.{row_at};

use crate::indexed::{IndexRow, index_row};
use crate::place::place_of;
use crate::rows::projection::index_at;
use crate::start::start_place;
use alt_base::NoMemory;
use alt_schema::{Built, TableSchema};
use alt_value::Item;
use std::alloc::Global;

/// An item's row in the index of that number, below the number of the indexes. None exactly where the item isn't in the index, or the
/// index isn't built of it yet.
pub fn built_row(
    alloc: Global,
    schema: &TableSchema,
    number: usize,
    item: &Item,
) -> Result<Option<IndexRow>, NoMemory>
    requires there { number < length (indexes schema.now) }
    ensures row { IfOk result (λ row. option_map row_at row ≡ option_and_then
        (λ i. built_row schema.now i item.now) (slice_get (indexes schema.now) number)) }
{
    if is_reached(alloc, schema, &index_at(schema, number).built, item)? {
        index_row(alloc, schema, number, item)
    } else {
        Ok(None)
    }
}

/// Whether an index that is built so far is built of an item.
fn is_reached(
    alloc: Global,
    schema: &TableSchema,
    built: &Built,
    item: &Item,
) -> Result<bool, NoMemory>
    ensures { IfOk result (λ reached. reached ≡ is_built_of_item schema.now built.now item.now) }
{
    match built {
        Built::Whole => Ok(true),
        Built::UpTo(None) => Ok(false),
        Built::UpTo(Some(key)) => is_up_to(alloc, schema, key, item),
    }
}

/// Whether the place of an item is that of a key, or before it.
fn is_up_to(alloc: Global, schema: &TableSchema, key: &Item, item: &Item) -> Result<bool, NoMemory>
    ensures { IfOk result (λ reached. reached
        ≡ is_built_of_item schema.now (UpTo (Some key.now)) item.now) }
{
    let Some(place) = place_of(alloc, schema, item)? else {
        return Ok(false);
    };
    match start_place(alloc, schema, None, key)? {
        Some(last) => Ok(place.as_slice().cmp(last.as_slice()).is_le()),
        None => Ok(false),
    }
}
