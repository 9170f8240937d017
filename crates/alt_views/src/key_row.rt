//! The key of the item whose row this is. Its other attributes are read and measured, and dropped one by one.

ghost use Rattle.std.specs.Prelude.{◌≡◌, ◌<◌, ◌+◌, ◌∷◌, [], List, length, Err, IfOk, OnOk, T, map as each};
ghost use Rattle.std.specs.FinMap.Entries.{is_sorted};
ghost use Rattle.alt_cells.specs.Keys.{key_cmp};
ghost use Rattle.alt_value.specs.Size.{left_after, size};
ghost use Rattle.alt_value.specs.Stands.{tree_of};
ghost use Rattle.alt_value.specs.Tree.{Pair};
ghost use Rattle.alt_views.specs.ItemRows.{IsReadItem, column_of, item_columns};
ghost use Rattle.alt_views.specs.OwnKeys.{IsKeyWithin};
ghost use Rattle.alt_views.specs.private.OwnKeys.{key_with_own_attribute, left_behind};

use crate::item_row::{Unread, attribute_of, behind_marker};
use crate::rows::projection::is_key;
use alt_base::NoMemory;
use alt_cells::ShownRow;
use alt_fields::Bytes;
use alt_schema::TableSchema;
use alt_value::{Attr, Item, size_within};
use std::alloc::Global;

/// The key attributes of the item whose row this is, and how many bytes the item has, where these are so many at most; None where it has
/// more.
pub fn key_of_row(
    alloc: Global,
    schema: &TableSchema,
    row: &ShownRow,
    most: u64,
) -> Result<Option<(Item, u64)>, Unread>
    ensures key { IfOk result (λ key. (item : List Pair) × IsReadItem item
        × (row.now ≡ item_columns item) × IsKeyWithin schema.now most item key) }
    ensures none { result ≡ Err Unread.Bad → (item : List Pair) → IsReadItem item
        → row.now ≡ item_columns item → ⊥ }
{
    let Some(columns) = behind_marker(row.as_slice()) else {
        return Err(Unread::Bad);
    };
    key_of_columns(alloc, schema, columns, most)
}

/// The key of the item with these attributes, and how many bytes the item has.
fn key_of_columns(
    alloc: Global,
    schema: &TableSchema,
    columns: &[(Bytes, Bytes)],
    most: u64,
) -> Result<Option<(Item, u64)>, Unread>
    requires { T (is_sorted key_cmp (([], []) ∷ columns.now)) }
    ensures key { IfOk result (λ key. (item : List Pair) × IsReadItem item
        × (columns.now ≡ each column_of item) × IsKeyWithin schema.now most item key) }
    ensures none { result ≡ Err Unread.Bad → (item : List Pair) → IsReadItem item
        → columns.now ≡ each column_of item → ⊥ }
{
    let mut key = Item::new(alloc);
    let mut left = Some(most);
    for column in columns {
        let (name, value) = attribute_of(alloc, column)?;
        left = left_behind(left, name, &value);
        keep(schema, &mut key, name, value)?;
    }
    let _count = columns.len();
    match left {
        Some(left) => Ok(Some((key, most - left))),
        None => Ok(None),
    }
}

/// Puts an attribute of a key into it, and drops any other.
fn keep(schema: &TableSchema, key: &mut Item, name: &str, value: Attr) -> Result<(), NoMemory>
    requires { 0 < length name.now }
    ensures { OnOk result (key.new ≡ key_with_own_attribute schema.now (name.now, tree_of value) key.old) }
{
    if is_key(&schema.hash, &schema.range, name) {
        key.put(name, value)?;
    }
    Ok(())
}

/// What is left of a budget behind an attribute, None where it is too little, as it was.
fn left_behind(left: Option<u64>, name: &str, value: &Attr) -> Option<u64>
    ensures { result ≡ left_behind (name.now, tree_of value.now) left }
{
    match left {
        Some(left) => left_of_one(left, name, value),
        None => None,
    }
}

/// What is left of it behind one, None where that is larger.
fn left_of_one(left: u64, name: &str, value: &Attr) -> Option<u64>
    ensures { result ≡ left_after left (length name.now + size (tree_of value.now)) }
{
    let left = left.checked_sub(name.len() as u64)?;
    let size = size_within(value, left)?;
    Some(left - size)
}
