//! The rows of items: a marker, and a column for each attribute (docs/formats/table-rows.md).

ghost use Rattle.std.specs.Prelude.{◌≡◌, ◌↔◌, ◌++◌, ◌∷◌, [], ℕ, List, Err, IfOk, IfSome, IfNone, IsTrue, OnOk, T, map as each};
ghost use Rattle.std.specs.FinMap.{entries};
ghost use Rattle.std.specs.FinMap.Entries.{is_sorted};
ghost use Rattle.alt_cells.specs.Keys.{key_cmp};
ghost use Rattle.alt_views.specs.ItemRows.{column_of, item_columns, IsAttribute, IsReadItem};
ghost use Rattle.alt_value.specs.Stands.{tree_of};
ghost use Rattle.alt_value.specs.Tree.{Pair};

use alt_base::NoMemory;
use alt_cellbytes::{attr_within, bytes_of};
use alt_cells::ShownRow;
use alt_fields::{Bytes, BytesFault};
use alt_value::{Attr, Item, Text};
use std::alloc::Global;

/// The most lists and maps around a value.
const DEEPEST: usize = 32;

/// The buffer for the bytes of a value grows only beyond this.
const ROOM: usize = 256;

/// Why a row isn't read.
#[derive(Clone, Copy, Debug, PartialEq, Eq)]
pub enum Unread {
    /// It is none of its family.
    Bad,
    /// Memory was refused.
    NoMemory,
}

impl From<NoMemory> for Unread {
    ghost use Rattle.alt_views.specs.declared.item_row.Unread.TheVariants as unread;

    ghost from_gives = { λ _ f. f ≡ unread.NoMemory };

    fn from(_: NoMemory) -> Self {
        Unread::NoMemory
    }
}

/// The row of an item.
pub fn row_of_item(alloc: Global, item: &Item) -> Result<ShownRow, NoMemory>
    ensures row { IfOk result (λ row. row ≡ item_columns item.now) }
{
    let mut row = ShownRow::with_capacity(alloc, item.len().saturating_add(1))?;
    push_marker(alloc, &mut row)?;
    let mut bytes = Vec::with_capacity(alloc, ROOM)?;
    for at in 0..item.len() {
        let Some((name, value)) = item.at(at) else {
            unreachable!();
        };
        push_attribute(alloc, &mut row, name, value, &mut bytes)?;
    }
    Ok(row)
}

/// Puts the marker, which is empty and stands at the empty name, into a row without columns.
fn push_marker(alloc: Global, row: &mut ShownRow) -> Result<(), NoMemory>
    requires { entries row.old ≡ [] }
    ensures { OnOk result (entries row.new ≡ ([], []) ∷ []) }
{
    row.push(Bytes::new(alloc, &[])?, Bytes::new(alloc, &[])?)
}

/// Puts the column of an attribute at the end. Its bytes are made in a buffer for all, so that they are kept in no more room than they
/// take.
fn push_attribute(
    alloc: Global,
    row: &mut ShownRow,
    name: &str,
    value: &Attr,
    bytes: &mut Vec<u8>,
) -> Result<(), NoMemory>
    requires { T (is_sorted key_cmp
        (entries row.old ++ column_of (name.now, tree_of value.now) ∷ [])) }
    ensures { OnOk result
        (entries row.new ≡ entries row.old ++ column_of (name.now, tree_of value.now) ∷ []) }
{
    let name = Bytes::new(alloc, name.as_bytes())?;
    bytes.clear();
    bytes_of(value, bytes)?;
    row.push(name, Bytes::new(alloc, bytes.as_slice())?)
}

/// The item whose row this is: behind the marker each column is an attribute, with a value that isn't too deep.
pub fn item_of_row(alloc: Global, row: &ShownRow) -> Result<Item, Unread>
    ensures item { IfOk result (λ item. IsReadItem item × (row.now ≡ item_columns item)) }
    ensures none { result ≡ Err Unread.Bad → (item : List Pair) → IsReadItem item
        → row.now ≡ item_columns item → ⊥ }
{
    let Some(columns) = behind_marker(row.as_slice()) else {
        return Err(Unread::Bad);
    };
    item_of_columns(alloc, columns)
}

/// The same of a row that is let go: its names are moved and not copied.
pub fn item_from_row(alloc: Global, row: ShownRow) -> Result<Item, Unread>
    ensures item { IfOk result (λ item. IsReadItem item × (row ≡ item_columns item)) }
    ensures none { result ≡ Err Unread.Bad → (item : List Pair) → IsReadItem item
        → row ≡ item_columns item → ⊥ }
{
    let mut columns = row.into_entries();
    let Some(_) = behind_marker(columns.as_slice()) else {
        return Err(Unread::Bad);
    };
    let _marker = columns.remove(0);
    item_from_columns(alloc, columns)
}

/// The columns behind the marker, None where the marker isn't there.
pub(crate) fn behind_marker(columns: &[(Bytes, Bytes)]) -> Option<&[(Bytes, Bytes)]>
    ensures behind { IfSome result (λ rest. columns.now ≡ ([], []) ∷ rest.now) }
    ensures none { IfNone result ((rest : List (List ℕ × List ℕ))
        → columns.now ≡ ([], []) ∷ rest → ⊥) }
{
    let [marker, rest @ ..] = columns else {
        return None;
    };
    if is_marker(marker) { Some(rest) } else { None }
}

fn is_marker(column: &(Bytes, Bytes)) -> bool
    ensures { IsTrue result ↔ (column.now ≡ ([], [])) }
{
    column.0.as_slice().is_empty() && column.1.as_slice().is_empty()
}

/// The item with these attributes.
fn item_of_columns(alloc: Global, columns: &[(Bytes, Bytes)]) -> Result<Item, Unread>
    requires { T (is_sorted key_cmp (([], []) ∷ columns.now)) }
    ensures item { IfOk result (λ item. IsReadItem item × (columns.now ≡ each column_of item)) }
    ensures none { result ≡ Err Unread.Bad → (item : List Pair) → IsReadItem item
        → columns.now ≡ each column_of item → ⊥ }
{
    let mut item = Item::with_capacity(alloc, columns.len())?;
    for column in columns {
        let (name, value) = attribute_of(alloc, column)?;
        item.put(name, value)?;
    }
    let _count = item.len();
    Ok(item)
}

/// The item with these attributes, whose names are moved.
fn item_from_columns(alloc: Global, columns: Vec<(Bytes, Bytes)>) -> Result<Item, Unread>
    requires { T (is_sorted key_cmp (([], []) ∷ columns.items)) }
    ensures item { IfOk result (λ item. IsReadItem item × (columns.items ≡ each column_of item)) }
    ensures none { result ≡ Err Unread.Bad → (item : List Pair) → IsReadItem item
        → columns.items ≡ each column_of item → ⊥ }
{
    let mut item = Item::with_capacity(alloc, columns.len())?;
    for (called, stored) in columns {
        let (name, value) = attribute_from(alloc, called, &stored)?;
        item.put_owned(name, value)?;
    }
    let _count = item.len();
    Ok(item)
}

/// The name and the value of an attribute.
pub(crate) fn attribute_of<'r>(
    alloc: Global,
    column: &'r (Bytes, Bytes),
) -> Result<(&'r str, Attr), Unread>
    ensures attribute { IfOk result (λ p. IsAttribute (p.0.now, tree_of p.1)
        × (column.now ≡ column_of (p.0.now, tree_of p.1))) }
    ensures none { result ≡ Err Unread.Bad → (p : Pair) → IsAttribute p
        → column.now ≡ column_of p → ⊥ }
{
    let Ok(name) = std::str::from_utf8(column.0.as_slice()) else {
        return Err(Unread::Bad);
    };
    if name.is_empty() {
        return Err(Unread::Bad);
    }
    match attr_within(alloc, column.1.as_slice(), DEEPEST) {
        Ok(value) => Ok((name, value)),
        Err(BytesFault::Bad { .. }) => Err(Unread::Bad),
        Err(BytesFault::NoMemory) => Err(Unread::NoMemory),
    }
}

/// The same, with the name moved.
fn attribute_from(alloc: Global, name: Bytes, value: &Bytes) -> Result<(Text, Attr), Unread>
    ensures attribute { IfOk result (λ p. IsAttribute (p.0, tree_of p.1)
        × ((name, value.now) ≡ column_of (p.0, tree_of p.1))) }
    ensures none { result ≡ Err Unread.Bad → (p : Pair) → IsAttribute p
        → (name, value.now) ≡ column_of p → ⊥ }
{
    let Some(name) = Text::from_bytes(name) else {
        return Err(Unread::Bad);
    };
    if name.len() == 0 {
        return Err(Unread::Bad);
    }
    match attr_within(alloc, value.as_slice(), DEEPEST) {
        Ok(value) => Ok((name, value)),
        Err(BytesFault::Bad { .. }) => Err(Unread::Bad),
        Err(BytesFault::NoMemory) => Err(Unread::NoMemory),
    }
}
