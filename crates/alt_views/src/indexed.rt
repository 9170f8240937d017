//! The rows of indexes (docs/formats/table-rows.md): the keys of the index and of the table make the key of a row, and the other attributes that
//! the index keeps its columns.

ghost use Rattle.std.specs.Prelude.{◌≡◌, ◌<◌, ◌++◌, ℕ, List, IfOk, drop, length, option_map, option_and_then, slice_get, Err, Some};
ghost use Rattle.std.specs.List.{flat_map};
ghost use Rattle.alt_keyorder.specs.KeyBytes.{key_bytes};
ghost use Rattle.alt_keyorder.specs.Place.{key_values as parts_of};
ghost use Rattle.alt_machine.specs.Building.{built_place};
ghost use Rattle.alt_machine.specs.Indexed as machine;
ghost use Rattle.alt_schema.specs.Indexes.{indexes};
ghost use Rattle.alt_value.specs.Item.{with_pair};
ghost use Rattle.alt_value.specs.Tree.{Tree, Pair};
ghost use Rattle.alt_value.specs.Values.{IsItemOfValues};
ghost use Rattle.alt_views.specs.IndexRows.{beside, beside_keys, row_in_index};
ghost use Rattle.alt_views.specs.Read.{AreValuesOf, IsKeptAt, IsValueOf, ReadsIndexRow, TakesKeyPart, row_at, with_values};

use crate::item_row::{Unread, item_of_row, row_of_item};
use crate::place::index_place;
use crate::rows::projection::{index_at, index_item};
use crate::start::start_place;
use alt_base::NoMemory;
use alt_cells::ShownRow;
use alt_fields::Bytes;
use alt_keyorder::take_part;
use alt_schema::{IndexSchema, KeyAttr, TableSchema};
use alt_value::Item;
use std::alloc::Global;

/// A row of an index: its key, and the columns at it.
#[derive(Debug, Drop)]
pub struct IndexRow {
    pub key: Bytes,
    pub columns: ShownRow,
}

/// An item's row in the index of that number, below the number of the indexes. None exactly where the item isn't in the index.
pub fn index_row(
    alloc: Global,
    schema: &TableSchema,
    number: usize,
    item: &Item,
) -> Result<Option<IndexRow>, NoMemory>
    requires there { number < length (indexes schema.now) }
    ensures row { IfOk result (λ row. option_map row_at row ≡ option_and_then
        (λ i. row_in_index schema.now i item.now) (slice_get (indexes schema.now) number)) }
{
    let index = index_at(schema, number);
    let Some(mut kept) = index_item(alloc, schema, number, item)? else {
        return Ok(None);
    };
    let Some(key) = index_place(alloc, schema, index, item)? else {
        return Ok(None);
    };
    take_keys_out(schema, index, &mut kept);
    let columns = row_of_item(alloc, &kept)?;
    Ok(Some(IndexRow { key, columns }))
}

/// Leaves of an item the attributes that aren't keys of the index or of the table.
fn take_keys_out(schema: &TableSchema, index: &IndexSchema, item: &mut Item)
    ensures rest { item.new ≡ beside_keys schema.now index.now item.old }
{
    take_out(item, &schema.hash, &schema.range);
    take_out(item, &index.hash, &index.range);
}

fn take_out(item: &mut Item, hash: &KeyAttr, range: &Option<KeyAttr>)
    ensures rest { item.new ≡ beside hash.now range.now item.old }
{
    let _ = item.remove(hash.name.as_str());
    if let Some(range) = range {
        let _ = item.remove(range.name.as_str());
    }
}

/// The bytes of a token, which stand in front of the parts of a key.
const TOKEN_LENGTH: usize = 8;

/// What an index keeps of an item, read from its row there: the keys from the row's key, and the other attributes from its columns.
pub fn item_of_index_row(
    alloc: Global,
    schema: &TableSchema,
    index: &IndexSchema,
    key: &[u8],
    columns: &ShownRow,
) -> Result<Item, Unread>
    // Whatever the index keeps of an item there is read.
    ensures reads { (kept : List Pair) → IsKeptAt schema.now index.now kept key.now columns.now
        → ReadsIndexRow kept result }
{
    let mut item = item_of_row(alloc, columns)?;
    let at = take_key(
        alloc,
        &mut item,
        &index.hash,
        &index.range,
        key,
        TOKEN_LENGTH,
    )?;
    take_key(alloc, &mut item, &schema.hash, &schema.range, key, at)?;
    Ok(item)
}

/// The key of a table of that place. It needn't be that of an item.
pub fn key_of_place(alloc: Global, schema: &TableSchema, place: &[u8]) -> Result<Item, Unread>
    ensures key { IfOk result (λ key. built_place schema.now key ≡ Some place.now) }
    ensures none { result ≡ Err Unread.Bad → (key : List Pair) → IsItemOfValues key
        → built_place schema.now key ≡ Some place.now → ⊥ }
{
    let mut key = Item::new(alloc);
    let _end = take_key(
        alloc,
        &mut key,
        &schema.hash,
        &schema.range,
        place,
        TOKEN_LENGTH,
    )?;
    match start_place(alloc, schema, None, &key)? {
        Some(own) if own.as_slice() == place => Ok(key),
        _ => Err(Unread::Bad),
    }
}

/// Puts the values of a key, whose parts stand at a place, into an item: where they end.
fn take_key(
    alloc: Global,
    item: &mut Item,
    hash: &KeyAttr,
    range: &Option<KeyAttr>,
    key: &[u8],
    at: usize,
) -> Result<usize, Unread>
    ensures taken { (values : machine.KeyValues) (behind : List ℕ)
        → AreValuesOf hash.now range.now values
        → drop at key.now ≡ flat_map key_bytes (parts_of values.hash values.range) ++ behind
        → TakesKeyPart (with_values hash.now range.now values item.old) key.now behind item.new result }
{
    let at = take_value(alloc, item, hash, key, at)?;
    match range {
        Some(range) => take_value(alloc, item, range, key, at),
        None => Ok(at),
    }
}

/// Puts the value of a key attribute, whose part stands at a place, into an item: where it ends.
fn take_value(
    alloc: Global,
    item: &mut Item,
    attribute: &KeyAttr,
    key: &[u8],
    at: usize,
) -> Result<usize, Unread>
    ensures taken { (t : Tree) (behind : List ℕ) → IsValueOf attribute.now t
        → drop at key.now ≡ key_bytes t ++ behind
        → TakesKeyPart (with_pair attribute.now.name t item.old) key.now behind item.new result }
{
    let name = attribute.name.as_str();
    match take_part(alloc, attribute.kind, key, at)? {
        Some((value, end)) if !name.is_empty() => {
            item.put(name, value)?;
            Ok(end)
        }
        _ => Err(Unread::Bad),
    }
}
