//! An item's row in an index: the item cut to what the index keeps.

ghost use Rattle.std.specs.Prelude.{◌≡◌, ◌<◌, ◌+◌, Some, take, length, slice_get, option_and_then, IfOk, OnOk};
ghost use Rattle.alt_value.specs.Item.{IsItem};
ghost use Rattle.alt_schema.specs.Indexes.{indexes, index_row, is_in_index, has_part, cut, is_projected, is_included, is_key, has_key_name, stands_among_names};

use crate::rows::index::is_key_value;
use alt_base::NoMemory;
use alt_schema::{IndexSchema, KeyAttr, Projection, TableSchema};
use alt_value::{Item, Text, copy};
use std::alloc::Global;

/// The item's row in the index of that number, below the number of the indexes: the item cut to the
/// projected attributes, the keys of the table and of the index among them. None exactly where the item
/// isn't in the index: a key attribute of the index is missing, or its value can't be a key of its kind there.
pub fn index_item(
    alloc: Global,
    s: &TableSchema,
    index: usize,
    item: &Item,
) -> Result<Option<Item>, NoMemory>
    requires there { index < length (indexes s.now) }
    ensures row { IfOk result (λ row. row
        ≡ option_and_then (index_row s.now item.now) (slice_get (indexes s.now) index)) }
{
    let index = index_at(s, index);
    if !is_in_index(index, item) {
        return Ok(None);
    }
    Ok(Some(cut(alloc, s, index, item)?))
}

/// The index of that number, below the number of the indexes.
pub fn index_at(s: &TableSchema, index: usize) -> &IndexSchema
    requires there { index < length (indexes s.now) }
    ensures index { Some result.now ≡ slice_get (indexes s.now) index }
{
    let locals = s.locals.as_slice();
    if index < locals.len() {
        &locals[index]
    } else {
        &s.globals.as_slice()[index - locals.len()]
    }
}

fn is_in_index(index: &IndexSchema, item: &Item) -> bool
    ensures { result ≡ is_in_index index.now item.now }
{
    let has_range = match &index.range {
        Some(range) => has_part(range, 1024, item),
        None => true,
    };
    has_part(&index.hash, 2048, item) && has_range
}

fn has_part(key: &KeyAttr, most: usize, item: &Item) -> bool
    ensures { result ≡ has_part most item.now key.now }
{
    match item.get(key.name.as_str()) {
        Some(value) => is_key_value(value, key.kind, most),
        None => false,
    }
}

fn cut(alloc: Global, s: &TableSchema, index: &IndexSchema, item: &Item) -> Result<Item, NoMemory>
    ensures { IfOk result (λ row. row ≡ cut s.now index.now item.now) }
{
    let mut row = Item::new(alloc);
    for i in 0..item.len() {
        keep(&mut row, s, index, item, i)?;
    }
    Ok(row)
}

/// Puts the attribute at that place of the item into the row of those before it, if it is projected.
fn keep(
    row: &mut Item,
    s: &TableSchema,
    index: &IndexSchema,
    item: &Item,
    i: usize,
) -> Result<(), NoMemory>
    requires whole { IsItem item.now }
    requires within { i < length item.now }
    requires before { row.old ≡ cut s.now index.now (take i item.now) }
    ensures { OnOk result (row.new ≡ cut s.now index.now (take (i + 1) item.now)) }
{
    if let Some((name, value)) = item.at(i) {
        if is_projected(s, index, name) {
            row.put(name, copy(value)?)?;
        }
    }
    Ok(())
}

/// Whether an index keeps an attribute of that name.
pub(crate) fn is_projected(s: &TableSchema, index: &IndexSchema, name: &str) -> bool
    ensures { result ≡ is_projected s.now index.now name.now }
{
    is_included(&index.projection, name)
        || is_key(&s.hash, &s.range, name)
        || is_key(&index.hash, &index.range, name)
}

fn is_included(projection: &Projection, name: &str) -> bool
    ensures { result ≡ is_included projection.now name.now }
{
    match projection {
        Projection::All => true,
        Projection::KeysOnly => false,
        Projection::Include(names) => stands_in(names.as_slice(), name),
    }
}

fn stands_in(names: &[Text], name: &str) -> bool
    ensures { result ≡ stands_among_names names.now name.now }
{
    names.iter().any(|other| other.as_str() == name)
}

/// Whether an attribute of that name is a key of these.
pub fn is_key(hash: &KeyAttr, range: &Option<KeyAttr>, name: &str) -> bool
    ensures key { result ≡ is_key hash.now range.now name.now }
{
    let is_range = match range {
        Some(range) => has_key_name(range, name),
        None => false,
    };
    has_key_name(hash, name) || is_range
}

fn has_key_name(key: &KeyAttr, name: &str) -> bool
    ensures { result ≡ has_key_name name.now key.now }
{
    key.name.as_str() == name
}
