//! The indexes of a table: the one of a name, and whether an item's index keys are keys.

ghost use Rattle.std.specs.Prelude.{◌≡◌, ◌<◌, length, IfSome};
ghost use Rattle.std.specs.List.{position, list_all};
ghost use Rattle.alt_value.specs.Stands.{tree_of};
ghost use Rattle.alt_schema.specs.Indexes.{indexes, is_read_as, is_key_length, is_key_value, part_fits, index_fits, keys_fit};
ghost use Rattle.alt_views.specs.Readable.{CanRead};

use alt_schema::{IndexSchema, KeyAttr, TableSchema};
use alt_value::{Attr, Item, KeyKind};

/// The number of the index of that name, below the number of the indexes; none exactly where no index
/// of the table has it, or it is being built.
pub fn index_named(s: &TableSchema, name: &str) -> Option<usize>
    ensures first { result ≡ position (is_read_as name.now) (indexes s.now) }
    ensures within { IfSome result (λ number. number < length (indexes s.now)) }
    ensures read { IfSome result (λ number. CanRead s.now number) }
{
    number_of(s, name)
}

fn number_of(s: &TableSchema, name: &str) -> Option<usize>
    ensures first { result ≡ position (is_read_as name.now) (indexes s.now) }
{
    let locals = s.locals.as_slice();
    match place_of(locals, name) {
        Some(i) => Some(i),
        None => Some(locals.len() + place_of(s.globals.as_slice(), name)?),
    }
}

fn place_of(list: &[IndexSchema], name: &str) -> Option<usize>
    ensures { result ≡ position (is_read_as name.now) list.now }
{
    list.iter().position(|index| index.name.as_str() == name && index.built.is_whole())
}

/// Whether each key attribute of an index that the item has is of its kind, not empty, and at most
/// 2,048 bytes long as a HASH key or 1,024 as a RANGE key.
pub fn index_keys_fit(s: &TableSchema, item: &Item) -> bool
    ensures fit { result ≡ keys_fit s.now item.now }
{
    all_fit(s.locals.as_slice(), item) && all_fit(s.globals.as_slice(), item)
}

fn all_fit(list: &[IndexSchema], item: &Item) -> bool
    ensures { result ≡ list_all (index_fits item.now) list.now }
{
    list.iter().all(|index| index_fits(index, item))
}

fn index_fits(index: &IndexSchema, item: &Item) -> bool
    ensures { result ≡ index_fits item.now index.now }
{
    let range_fits = match &index.range {
        Some(range) => part_fits(range, 1024, item),
        None => true,
    };
    part_fits(&index.hash, 2048, item) && range_fits
}

fn part_fits(key: &KeyAttr, most: usize, item: &Item) -> bool
    ensures { result ≡ part_fits most item.now key.now }
{
    match item.get(key.name.as_str()) {
        Some(value) => is_key_value(value, key.kind, most),
        None => true,
    }
}

/// Whether a value can be a key of that kind, with so many bytes at most.
pub(crate) fn is_key_value(value: &Attr, kind: KeyKind, most: usize) -> bool
    ensures { result ≡ is_key_value most kind (tree_of value.now) }
{
    match (kind, value) {
        (KeyKind::S, Attr::S(text)) => is_key_length(text.as_str().len(), most),
        (KeyKind::N, Attr::N(_)) => true,
        (KeyKind::B, Attr::B(bytes)) => is_key_length(bytes.as_slice().len(), most),
        _ => false,
    }
}

fn is_key_length(length: usize, most: usize) -> bool
    ensures { result ≡ is_key_length most length }
{
    0 < length && length <= most
}
