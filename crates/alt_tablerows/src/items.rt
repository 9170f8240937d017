//! Whether a row is that of an item which may stand at its key, and how many bytes that has.

ghost use Rattle.std.specs.Prelude.{◌≡◌, ◌↔◌, List, Some, Err, IfOk, OnOk, IsTrue, true};
ghost use Rattle.alt_machine.specs.Keys.{key_fits, place_of};
ghost use Rattle.alt_tablerows.specs.ItemTests.{IsItemAt, IsWithin};
ghost use Rattle.alt_value.specs.Tree.{Pair};

use alt_base::NoMemory;
use alt_cells::ShownRow;
use alt_fields::Bytes;
use alt_machine::LARGEST_ITEM;
use alt_schema::TableSchema;
use alt_value::Item;
use alt_views::{Unread, key_fits, key_of_row, place_of};
use std::alloc::Global;

/// How many bytes the item has whose row this is, where it may stand at that key. Of the item the key alone is kept.
pub fn test_item(
    alloc: Global,
    schema: &TableSchema,
    key: &Bytes,
    row: &ShownRow,
) -> Result<u64, Unread>
    ensures item { OnOk result ((item : List Pair) × IsItemAt schema.now key.now row.now item) }
    ensures size { IfOk result (λ size. IsWithin size key.now row.now) }
    ensures none { result ≡ Err Unread.Bad → (item : List Pair)
        → IsItemAt schema.now key.now row.now item → ⊥ }
{
    match key_of_row(alloc, schema, row, LARGEST_ITEM)? {
        Some((own, size)) => {
            if !stands_at(alloc, schema, key, &own)? {
                return Err(Unread::Bad);
            }
            Ok(size)
        }
        None => Err(Unread::Bad),
    }
}

/// Whether the key of an item gives it that place, and fits.
fn stands_at(
    alloc: Global,
    schema: &TableSchema,
    place: &Bytes,
    key: &Item,
) -> Result<bool, NoMemory>
    ensures stands { IfOk result (λ stands. IsTrue stands
        ↔ (place_of schema.now key.now ≡ Some place.now) × (key_fits schema.now key.now ≡ true)) }
{
    let found = place_of(alloc, schema, key)?;
    let Some(found) = found else {
        return Ok(false);
    };
    Ok(found == *place && key_fits(schema, key))
}
