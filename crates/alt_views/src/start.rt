//! The place of a key at which no item need be, as a page's start key and the key up to which an index is built.

ghost use Rattle.std.specs.Prelude.{◌≡◌, true, Some, None, IfOk, IfSome, option_map};
ghost use Rattle.alt_keyorder.specs.Place.{place_bytes};
ghost use Rattle.alt_machine.specs.Indexed.{values_of};
ghost use Rattle.alt_machine.specs.Lists as machine;
ghost use Rattle.alt_machine.specs.Sources as sources;
ghost use Rattle.alt_value.specs.Stands.{tree_of};
ghost use Rattle.alt_views.specs.Values.{AreKeys, machine_key_values};

use crate::place::{KeyValues, place_of_both, put_hash};
use crate::rows::projection::is_key;
use alt_base::NoMemory;
use alt_fields::Bytes;
use alt_keyorder::key_part;
use alt_schema::{IndexSchema, KeyAttr, TableSchema};
use alt_value::{Attr, Item, KeyKind};
use std::alloc::Global;

/// The place in a table, or in an index, of a key at which no item need be, `None` exactly where it isn't one of what is read: it has the
/// key attributes, each of its kind, and no others.
pub fn start_place(
    alloc: Global,
    schema: &TableSchema,
    index: Option<&IndexSchema>,
    key: &Item,
) -> Result<Option<Bytes>, NoMemory>
    ensures place { IfOk result (λ place. place ≡ machine.start_place schema.now
        (option_map (λ i. i.now) index.entry) key.now) }
{
    if !has_keys_alone(schema, index, key) {
        return Ok(None);
    }
    match index {
        Some(index) => place_in_index(alloc, schema, index, key),
        None => place_in_table(alloc, schema, key),
    }
}

/// Whether a key has no attributes but keys.
fn has_keys_alone(schema: &TableSchema, index: Option<&IndexSchema>, key: &Item) -> bool
    ensures { result ≡ machine.has_keys_alone schema.now (option_map (λ i. i.now) index.entry)
        key.now }
{
    for at in 0..key.len() {
        if let Some((name, _)) = key.at(at) {
            if !is_key_there(schema, index, name) {
                return false;
            }
        }
    }
    true
}

/// The place of its keys in an index: the token of the index's HASH value, and then the parts of the values of both keys
/// (docs/formats/key-bytes.md).
fn place_in_index(
    alloc: Global,
    schema: &TableSchema,
    index: &IndexSchema,
    key: &Item,
) -> Result<Option<Bytes>, NoMemory>
    ensures place { IfOk result (λ place. place ≡ option_map place_bytes
        (machine.place_there schema.now (Some index.now) key.now)) }
{
    let Some(own) = start_values(key, &index.hash, &index.range) else {
        return Ok(None);
    };
    let Some(of_table) = start_values(key, &schema.hash, &schema.range) else {
        return Ok(None);
    };
    Ok(Some(place_of_both(alloc, own, of_table)?))
}

/// The values of a key in a key, `None` exactly where it hasn't all of it.
fn start_values<'k>(key: &'k Item, hash: &KeyAttr, range: &Option<KeyAttr>) -> Option<KeyValues<'k>>
    ensures values { option_map machine_key_values result
        ≡ values_of (machine.start_value key.now) hash.now range.now }
    ensures keys { IfSome result AreKeys }
{
    let hash = start_value(key, hash)?;
    match range {
        Some(range) => Some(KeyValues {
            hash,
            range: Some(start_value(key, range)?),
        }),
        None => Some(KeyValues { hash, range: None }),
    }
}

/// Its place in the table: the token of its HASH value, and then the parts of its HASH and RANGE values.
fn place_in_table(
    alloc: Global,
    schema: &TableSchema,
    key: &Item,
) -> Result<Option<Bytes>, NoMemory>
    ensures place { IfOk result (λ place. place ≡ option_map place_bytes
        (machine.place_there schema.now None key.now)) }
{
    let Some(hash) = start_value(key, &schema.hash) else {
        return Ok(None);
    };
    let mut out = Vec::new(alloc);
    put_hash(hash, &mut out)?;
    if let Some(attribute) = &schema.range {
        let Some(range) = start_value(key, attribute) else {
            return Ok(None);
        };
        key_part(range, &mut out)?;
    }
    Ok(Some(Bytes::from_vec(out)))
}

/// The value of a key attribute in a key, where it is there and of its kind.
fn start_value<'k>(key: &'k Item, attribute: &KeyAttr) -> Option<&'k Attr>
    ensures { option_map (λ a. tree_of a.now) result ≡ machine.start_value key.now attribute.now }
{
    match key.get(attribute.name.as_str()) {
        Some(value) if is_of_kind(attribute.kind, value) => Some(value),
        _ => None,
    }
}

/// Whether it is a value of that kind; it may be empty.
fn is_of_kind(kind: KeyKind, value: &Attr) -> bool
    ensures { result ≡ machine.is_of_kind kind (tree_of value.now) }
{
    match (kind, value) {
        (KeyKind::S, Attr::S(_)) => true,
        (KeyKind::N, Attr::N(_)) => true,
        (KeyKind::B, Attr::B(_)) => true,
        _ => false,
    }
}

/// Whether an attribute of that name is a key there: of the table, and in an index of the index too.
fn is_key_there(schema: &TableSchema, index: Option<&IndexSchema>, name: &str) -> bool
    ensures { result
        ≡ sources.is_key_there schema.now (option_map (λ i. i.now) index.entry) name.now }
{
    match index {
        Some(index) => {
            is_key(&schema.hash, &schema.range, name) || is_key(&index.hash, &index.range, name)
        }
        None => is_key(&schema.hash, &schema.range, name),
    }
}
