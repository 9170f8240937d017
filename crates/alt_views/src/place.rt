//! The place of an item in its table and in an index.

ghost use Rattle.std.specs.Prelude.{◌≡◌, ◌++◌, IfOk, IfSome, OnOk, option_map};
ghost use Rattle.std.specs.List.{flat_map};
ghost use Rattle.std.specs.Int.{w64, to_be_bytes};
ghost use Rattle.alt_keyorder.specs.KeyBytes.{IsKey, key_bytes};
ghost use Rattle.alt_keyorder.specs.Place.{key_values as parts_of, place_bytes};
ghost use Rattle.alt_keyorder.specs.Token.{token_of};
ghost use Rattle.alt_machine.specs.Indexed.{index_place, place_of_both, values_of};
ghost use Rattle.alt_machine.specs.Keys.{byte_count, can_be_key, is_key_value_within, key_fits, key_value, place_of};
ghost use Rattle.alt_value.specs.Stands.{tree_of};
ghost use Rattle.alt_views.specs.Values.{AreKeys, machine_key_values};

use alt_base::NoMemory;
use alt_fields::{Bytes, put_u64};
use alt_keyorder::{key_part, token};
use alt_schema::{IndexSchema, KeyAttr, TableSchema};
use alt_value::{Attr, Item, KeyKind};
use std::alloc::Global;

/// The place that its key gives an item, `None` exactly where the item hasn't all of its key: the token of the HASH value, and then
/// the parts of the HASH and RANGE values (docs/formats/key-bytes.md).
pub fn place_of(alloc: Global, schema: &TableSchema, item: &Item) -> Result<Option<Bytes>, NoMemory>
    ensures place { IfOk result (λ place. place ≡ place_of schema.now item.now) }
{
    let Some(hash) = key_value(item, &schema.hash) else {
        return Ok(None);
    };
    let mut out = Vec::new(alloc);
    put_hash(hash, &mut out)?;
    if let Some(key) = &schema.range {
        let Some(range) = key_value(item, key) else {
            return Ok(None);
        };
        key_part(range, &mut out)?;
    }
    Ok(Some(Bytes::from_vec(out)))
}

/// Appends the token and the part of a HASH value.
pub(crate) fn put_hash(hash: &Attr, out: &mut Vec<u8>) -> Result<(), NoMemory>
    requires { IsKey (tree_of hash.now) }
    ensures { OnOk result (out.new.items ≡ out.old.items
        ++ (to_be_bytes w64 (token_of (tree_of hash.now)) ++ key_bytes (tree_of hash.now))) }
{
    put_u64(out, token(hash))?;
    key_part(hash, out)
}

/// The values of a key, as they stand in an item: HASH, and RANGE where the key has it.
#[derive(Clone, Copy)]
pub struct KeyValues<'i> {
    pub hash: &'i Attr,
    pub range: Option<&'i Attr>,
}

/// The values of a key in an item, `None` exactly where it hasn't all of it.
pub fn key_values<'i>(
    item: &'i Item,
    hash: &KeyAttr,
    range: &Option<KeyAttr>,
) -> Option<KeyValues<'i>>
    ensures values { option_map machine_key_values result
        ≡ values_of (key_value item.now) hash.now range.now }
    ensures keys { IfSome result AreKeys }
{
    let hash = key_value(item, hash)?;
    match range {
        Some(range) => Some(KeyValues {
            hash,
            range: Some(key_value(item, range)?),
        }),
        None => Some(KeyValues { hash, range: None }),
    }
}

/// The place of an index's key, behind which comes the table's: the token of its HASH value, and then the parts of all values
/// (docs/formats/key-bytes.md).
pub fn place_of_both(alloc: Global, own: KeyValues, of_table: KeyValues) -> Result<Bytes, NoMemory>
    requires own { AreKeys own }
    requires of_table { AreKeys of_table }
    ensures place { IfOk result (λ bytes. bytes
        ≡ place_bytes (place_of_both (machine_key_values own.entry) (machine_key_values of_table.entry))) }
{
    let mut out = Vec::new(alloc);
    put_u64(&mut out, token(own.hash))?;
    put_values(own, &mut out)?;
    put_values(of_table, &mut out)?;
    Ok(Bytes::from_vec(out))
}

/// The place that its keys give an item in an index, `None` exactly where it hasn't all of both.
pub fn index_place(
    alloc: Global,
    schema: &TableSchema,
    index: &IndexSchema,
    item: &Item,
) -> Result<Option<Bytes>, NoMemory>
    ensures place { IfOk result (λ place. place
        ≡ option_map place_bytes (index_place schema.now index.now item.now)) }
{
    let Some(own) = key_values(item, &index.hash, &index.range) else {
        return Ok(None);
    };
    let Some(of_table) = key_values(item, &schema.hash, &schema.range) else {
        return Ok(None);
    };
    Ok(Some(place_of_both(alloc, own, of_table)?))
}

/// Appends the parts of a key's values.
fn put_values(values: KeyValues, out: &mut Vec<u8>) -> Result<(), NoMemory>
    requires { AreKeys values }
    ensures { OnOk result (out.new.items ≡ out.old.items ++ flat_map key_bytes
        (parts_of (machine_key_values values.entry).hash (machine_key_values values.entry).range)) }
{
    key_part(values.hash, out)?;
    match values.range {
        Some(range) => key_part(range, out),
        None => Ok(()),
    }
}

/// The value of a key attribute, where it is there and can be a key.
fn key_value<'i>(item: &'i Item, key: &KeyAttr) -> Option<&'i Attr>
    ensures { option_map (λ a. tree_of a.now) result ≡ key_value item.now key.now }
{
    match item.get(key.name.as_str()) {
        Some(value) if can_be_key(key.kind, value) => Some(value),
        _ => None,
    }
}

/// Whether it is a value of that kind that isn't empty.
fn can_be_key(kind: KeyKind, value: &Attr) -> bool
    ensures { result ≡ can_be_key kind (tree_of value.now) }
{
    match kind {
        KeyKind::S => match value {
            Attr::S(text) => !text.as_str().is_empty(),
            _ => false,
        },
        KeyKind::N => match value {
            Attr::N(_) => true,
            _ => false,
        },
        KeyKind::B => match value {
            Attr::B(bytes) => !bytes.as_slice().is_empty(),
            _ => false,
        },
    }
}

/// The most bytes of a HASH and of a RANGE value (Developer Guide, "Service, account, and table quotas").
const LONGEST_HASH: usize = 2048;

const LONGEST_RANGE: usize = 1024;

/// Whether the values of the key are short enough.
pub fn key_fits(schema: &TableSchema, item: &Item) -> bool
    ensures fits { result ≡ key_fits schema.now item.now }
{
    if !is_within(LONGEST_HASH, item, &schema.hash) {
        return false;
    }
    match &schema.range {
        Some(range) => is_within(LONGEST_RANGE, item, range),
        None => true,
    }
}

fn is_within(most: usize, item: &Item, key: &KeyAttr) -> bool
    ensures { result ≡ is_key_value_within most item.now key.now }
{
    match item.get(key.name.as_str()) {
        Some(value) => byte_count(value) <= most,
        None => true,
    }
}

fn byte_count(value: &Attr) -> usize
    ensures { result ≡ byte_count (tree_of value.now) }
{
    match value {
        Attr::S(text) => text.as_str().len(),
        Attr::B(bytes) => bytes.as_slice().len(),
        _ => 0,
    }
}
