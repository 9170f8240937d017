//! Whether a row of a stream is one that it may have: it tells what was trimmed, is left over, or is that of a change which the table may
//! keep.

ghost use Rattle.std.specs.Prelude.{◌≡◌, ◌↔◌, ℕ, List, Err, Some, IfOk, IfSome, OnOk, IsTrue};
ghost use Rattle.alt_changes.specs.ChangeRows.{IsReadChange, IsReadItem, change_in};
ghost use Rattle.alt_machine.specs.Same.{is_same};
ghost use Rattle.alt_machine.specs.Valid.{IsChange, IsStored};
ghost use Rattle.alt_tablerows.specs.StreamRows.{AreOfOne, IsChangeRow, IsStreamRow};

use crate::change_rows::{change_at, number_of};
use crate::trimmed_row::tells_trimmed;
use alt_base::NoMemory;
use alt_cells::ShownRow;
use alt_changes::Change;
use alt_fields::Bytes;
use alt_machine::LARGEST_ITEM;
use alt_schema::TableSchema;
use alt_value::{Item, item_equal, item_size_within};
use alt_views::{Unread, key_fits, place_of};
use std::alloc::Global;

/// Whether a row is one that a stream may have: at 0 it tells what was trimmed, up to that number it is left over and may be any, and
/// behind it is that of a change which the table may keep before the next number.
pub fn test_row(
    alloc: Global,
    schema: &TableSchema,
    next: u64,
    trimmed: u64,
    key: &Bytes,
    row: &ShownRow,
) -> Result<(), Unread>
    ensures row { OnOk result (IsStreamRow schema.now next trimmed key.now row.now) }
    ensures none { result ≡ Err Unread.Bad
        → IsStreamRow schema.now next trimmed key.now row.now → ⊥ }
{
    let Some(number) = number_of(key.as_slice()) else {
        return Err(Unread::Bad);
    };
    if number == 0 {
        return if tells_trimmed(row, next) {
            Ok(())
        } else {
            Err(Unread::Bad)
        };
    }
    if number <= trimmed {
        return if trimmed < next {
            Ok(())
        } else {
            Err(Unread::Bad)
        };
    }
    test_change(alloc, schema, next, key, row)
}

/// Whether a row is that of a change which a table may keep before the next number.
fn test_change(
    alloc: Global,
    schema: &TableSchema,
    next: u64,
    key: &Bytes,
    row: &ShownRow,
) -> Result<(), Unread>
    ensures change { OnOk result (IsChangeRow schema.now next key.now row.now) }
    ensures none { result ≡ Err Unread.Bad → IsChangeRow schema.now next key.now row.now → ⊥ }
{
    let change = change_at(alloc, key, row)?;
    if may_keep(alloc, schema, next, &change)? {
        Ok(())
    } else {
        Err(Unread::Bad)
    }
}

/// Whether a table may keep a change: its number is below the next one, and its items differ and are of one place of the table.
fn may_keep(
    alloc: Global,
    schema: &TableSchema,
    next: u64,
    change: &Change,
) -> Result<bool, NoMemory>
    requires read { IsReadChange (change_in change.now) }
    ensures keeps { IfOk result (λ keeps.
        IsTrue keeps ↔ IsChange schema.now next (change_in change.now)) }
{
    if change.number >= next || same(&change.old, &change.new) {
        return Ok(false);
    }
    are_of_one(alloc, schema, &change.old, &change.new)
}

/// Whether both are one item, or neither is there.
pub fn same(old: &Option<Item>, new: &Option<Item>) -> bool
    ensures { result ≡ is_same old.now new.now }
{
    match (old, new) {
        (None, None) => true,
        (Some(old), Some(new)) => item_equal(old, new),
        _ => false,
    }
}

/// Whether two items, where they are there, are of one place of a table.
fn are_of_one(
    alloc: Global,
    schema: &TableSchema,
    old: &Option<Item>,
    new: &Option<Item>,
) -> Result<bool, NoMemory>
    requires old { IfSome old.now IsReadItem }
    requires new { IfSome new.now IsReadItem }
    ensures one { IfOk result (λ one. IsTrue one ↔ AreOfOne schema.now old.now new.now) }
{
    match (old, new) {
        (Some(old), Some(new)) => {
            let at = place_held(alloc, schema, old)?;
            let there = place_held(alloc, schema, new)?;
            Ok(are_one(&at, &there))
        }
        (Some(item), None) => Ok(place_held(alloc, schema, item)?.is_some()),
        (None, Some(item)) => Ok(place_held(alloc, schema, item)?.is_some()),
        (None, None) => Ok(true),
    }
}

/// Whether both places are there, and one.
fn are_one(a: &Option<Bytes>, b: &Option<Bytes>) -> bool
    ensures { IsTrue result ↔ (place : List ℕ) × (a.now ≡ Some place) × (b.now ≡ Some place) }
{
    match (a, b) {
        (Some(a), Some(b)) => a == b,
        _ => false,
    }
}

/// The place of a table at which an item may have stood, None where it is too large or hasn't a key that fits.
fn place_held(alloc: Global, schema: &TableSchema, item: &Item) -> Result<Option<Bytes>, NoMemory>
    requires { IsReadItem item.now }
    ensures place { IfOk result (λ o. (place : List ℕ)
        → (o ≡ Some place) ↔ IsStored schema.now place item.now) }
{
    let place = place_of(alloc, schema, item)?;
    if key_fits(schema, item) && item_size_within(item, LARGEST_ITEM).is_some() {
        Ok(place)
    } else {
        Ok(None)
    }
}
