//! A step in which an index is built further: what it reads, how far the index is built then, and its row changes.

ghost use Rattle.std.specs.Prelude.{◌≡◌, ◌++◌, ◌∷◌, [], ◌+◌, ◌<◌, ◌≤◌, false, Some, None, IfOk, OnOk, IsSome, length, take, map as each, slice_get};
ghost use Rattle.std.specs.List.{last_or};
ghost use Rattle.alt_machine.specs.Building.{building_in};
ghost use Rattle.alt_machine.specs.Lists.{key_attributes};
ghost use Rattle.alt_schema.specs.declared.schema.Built.TheVariants.{Whole, UpTo};
ghost use Rattle.alt_schema.specs.declared.schema.IndexSchema.{IndexSchema};
ghost use Rattle.alt_cells.specs.Batches.{has_row};
ghost use Rattle.alt_cells.specs.Changes.{change_between};
ghost use Rattle.alt_changes.specs.KeyOf.{with_attribute};
ghost use Rattle.alt_rowchanges.specs.Steps.{AreApartIn, built_to, first_behind, step_row_changes};
ghost use Rattle.alt_value.specs.Item.{at_name};

use alt_base::NoMemory;
use alt_cells::{Batch, RowChange};
use alt_fields::Bytes;
use alt_keyorder::KeyRange;
use alt_opening::{CATALOG, row_of_schema};
use alt_schema::{Built, KeyAttr, TableSchema};
use alt_value::{Item, copy};
use alt_views::{IndexRow, index_row, start_place};
use std::alloc::Global;

/// How many of the items that were read are taken.
pub fn taken_of(items: &[Item], most: u32) -> usize
    ensures taken { result ≤ length items.now }
    ensures most { result ≤ most }
    ensures all { length items.now ≤ most → result ≡ length items.now }
    ensures some { most < length items.now → result ≡ most }
{
    if items.len() <= most as usize {
        items.len()
    } else {
        most as usize
    }
}

/// The places of the items of which the index that is being built isn't built yet.
pub fn left_range(alloc: Global, schema: &TableSchema) -> Result<KeyRange, NoMemory>
    requires building { IsSome (building_in schema.now) }
    ensures to { IfOk result (λ r. r.to ≡ None) }
    ensures from { (i : IndexSchema) → building_in schema.now ≡ Some i
        → IfOk result (λ r. r.from ≡ first_behind (built_to schema.now i.built)) }
{
    let from = match place_built(alloc, schema)? {
        Some(place) => behind(alloc, place.as_slice())?,
        None => Vec::new(alloc),
    };
    Ok(KeyRange {
        from: Bytes::from_vec(from),
        to: None,
    })
}

/// The place up to which the index that is being built is built, none where it isn't begun.
fn place_built(alloc: Global, schema: &TableSchema) -> Result<Option<Bytes>, NoMemory>
    requires building { IsSome (building_in schema.now) }
    ensures place { (i : IndexSchema) → building_in schema.now ≡ Some i
        → IfOk result (λ place. place ≡ built_to schema.now i.built) }
{
    match &schema.globals.as_slice()[building_number(schema)].built {
        Built::UpTo(Some(key)) => start_place(alloc, schema, None, key),
        Built::UpTo(None) => Ok(None),
        Built::Whole => Ok(None),
    }
}

/// The least key above one.
fn behind(alloc: Global, place: &[u8]) -> Result<Vec<u8>, NoMemory>
    ensures { IfOk result (λ above. above.items ≡ place.now ++ 0 ∷ []) }
{
    let mut above = Vec::from_slice(alloc, place)?;
    above.push(0)?;
    Ok(above)
}

/// The number of the global index that is being built.
fn building_number(schema: &TableSchema) -> usize
    requires building { IsSome (building_in schema.now) }
    ensures within { result < length schema.now.globals }
    ensures there { slice_get schema.now.globals result ≡ building_in schema.now }
{
    let globals = schema.globals.as_slice();
    for i in 0..globals.len() {
        if !globals[i].built.is_whole() {
            return i;
        }
    }
    unreachable!();
}

/// How far it is built with so many of the items that are left: whole where these are all of them.
pub fn built_after(
    alloc: Global,
    schema: &TableSchema,
    items: &[Item],
    taken: usize,
) -> Result<Built, NoMemory>
    requires taken { taken ≤ length items.now }
    ensures whole { taken ≡ length items.now → IfOk result (λ b. b ≡ Whole) }
    ensures up_to { taken < length items.now → 1 ≤ taken → IfOk result (λ b. b ≡ UpTo
        (last_or None (each (key_attributes schema.now None) (take taken items.now)))) }
{
    if taken == items.len() || taken == 0 {
        return Ok(Built::Whole);
    }
    let key = key_attributes(alloc, schema, &items[taken - 1])?;
    Ok(Built::UpTo(Some(key)))
}

/// The key attributes of an item.
fn key_attributes(alloc: Global, schema: &TableSchema, item: &Item) -> Result<Item, NoMemory>
    ensures key { IfOk result (λ key. key ≡ key_attributes schema.now None item.now) }
{
    let _count = item.len();
    let mut key = Item::new(alloc);
    put_attribute(&mut key, &schema.hash, item)?;
    if let Some(range) = &schema.range {
        put_attribute(&mut key, range, item)?;
    }
    Ok(key)
}

/// Puts a key attribute of an item into its key, where the item has it.
fn put_attribute(key: &mut Item, attribute: &KeyAttr, item: &Item) -> Result<(), NoMemory>
    ensures put { OnOk result (key.new
        ≡ with_attribute attribute.now.name (at_name attribute.now.name item.now) key.old) }
{
    let name = attribute.name.as_str();
    match item.get(name) {
        Some(value) if !name.is_empty() => key.put(name, copy(value)?),
        _ => Ok(()),
    }
}

/// The row changes of the step: the row of the description changes, and those of these items in the index come. On a disk that doesn't
/// tell its contents two items may have one row there: then the first of them stands.
pub fn step(
    alloc: Global,
    schema: &TableSchema,
    later: &TableSchema,
    items: &[Item],
) -> Result<Batch, NoMemory>
    requires building { IsSome (building_in schema.now) }
    ensures changes { (i : IndexSchema) → building_in schema.now ≡ Some i → 1 ≤ i.family
        → AreApartIn schema.now i items.now
        → IfOk result (λ batch. batch ≡ step_row_changes schema.now later.now i items.now) }
{
    let old = row_of_schema(alloc, schema)?;
    let new = row_of_schema(alloc, later)?;
    let key = Bytes::new(alloc, schema.name.as_str().as_bytes())?;
    let mut batch = Batch::new(alloc);
    batch.add(RowChange::between(alloc, CATALOG, key, Some(&old), Some(&new))?)?;
    let locals = schema.locals.as_slice();
    let globals = schema.globals.as_slice();
    let at = building_number(schema);
    let number = locals.len() + at;
    let family = globals[at].family;
    for n in 0..items.len() {
        if let Some(row) = index_row(alloc, schema, number, &items[n])? {
            put_row(alloc, family, row, &mut batch)?;
        }
    }
    Ok(batch)
}

/// Puts a row that comes, unless one of its key does already.
fn put_row(alloc: Global, family: u32, row: IndexRow, batch: &mut Batch) -> Result<(), NoMemory>
    ensures put { has_row batch.old family row.key ≡ false → OnOk result (batch.new
        ≡ batch.old ++ change_between family row.key None (Some row.columns) ∷ []) }
{
    let IndexRow { key, columns } = row;
    if batch.has(family, key.as_slice()) {
        return Ok(());
    }
    batch.add(RowChange::made(alloc, family, key, columns)?)
}
