//! The row changes of the catalog: of a new table, of one that is dropped, and of one that has another attribute for time to live.

ghost use Rattle.std.specs.Prelude.{◌≡◌, ◌<◌, ◌≤◌, length, IfOk, option_map};
ghost use Rattle.alt_machine.specs.State.{families_of};
ghost use Rattle.alt_schema.specs.Described.{IsNew};
ghost use Rattle.alt_schemabytes.specs.Held.{IsHeldText, Where};
ghost use Rattle.alt_rowchanges.specs.RowChanges.{creation_changes, drop_changes, time_changes};

use alt_base::NoMemory;
use alt_cells::{Batch, RowChange};
use alt_fields::Bytes;
use alt_machine::MOST_FAMILIES;
use alt_opening::{CATALOG, row_of_family, row_of_schema, row_with_time};
use alt_schema::TableSchema;
use alt_value::Text;
use std::alloc::Global;

/// The row changes of a new table: its description, and the next family.
pub fn creation(
    alloc: Global,
    before: u32,
    after: u32,
    schema: &TableSchema,
) -> Result<Batch, NoMemory>
    requires named { 0 < length schema.now.name }
    ensures changes { IfOk result (λ batch. batch ≡ creation_changes before after schema.now) }
{
    let row = row_of_schema(alloc, schema)?;
    let key = Bytes::new(alloc, schema.name.as_str().as_bytes())?;
    let old = row_of_family(alloc, before)?;
    let new = row_of_family(alloc, after)?;
    let mut batch = Batch::new(alloc);
    batch.add(RowChange::between(alloc, CATALOG, key, None, Some(&row))?)?;
    let next = Bytes::new(alloc, &[])?;
    batch.add(RowChange::between(alloc, CATALOG, next, old.as_ref(), new.as_ref())?)?;
    Ok(batch)
}

/// The row changes of a table that is dropped: its description goes, and its rows stay where nobody looks.
pub fn removal(alloc: Global, schema: &TableSchema) -> Result<Batch, NoMemory>
    ensures changes { IfOk result (λ batch. batch ≡ drop_changes schema.now) }
{
    let row = row_of_schema(alloc, schema)?;
    let key = Bytes::new(alloc, schema.name.as_str().as_bytes())?;
    let mut batch = Batch::new(alloc);
    batch.add(RowChange::between(alloc, CATALOG, key, Some(&row), None)?)?;
    Ok(batch)
}

/// The row changes of a table with another attribute for time to live, or none: the row of its description changes.
pub fn timing(alloc: Global, schema: &TableSchema, ttl: Option<&Text>) -> Result<Batch, NoMemory>
    ensures changes { IfOk result (λ batch. batch
        ≡ time_changes schema.now (option_map (λ t. t.now) ttl.entry)) }
{
    let old = row_of_schema(alloc, schema)?;
    let new = row_with_time(alloc, schema, ttl)?;
    let key = Bytes::new(alloc, schema.name.as_str().as_bytes())?;
    let mut batch = Batch::new(alloc);
    batch.add(RowChange::between(alloc, CATALOG, key, Some(&old), Some(&new))?)?;
    Ok(batch)
}

/// A copy of a name, where one is given.
pub fn named(alloc: Global, name: Option<&str>) -> Result<Option<Text>, NoMemory>
    ensures copied { IfOk result (λ text. text ≡ option_map (λ n. n.now) name.entry) }
    ensures held { IfOk result (Where IsHeldText) }
{
    let Some(name) = name else {
        return Ok(None);
    };
    let text = Text::new(alloc, name)?;
    let _length = text.len();
    Ok(Some(text))
}

/// How many families a table takes.
pub fn family_count(schema: &TableSchema) -> usize
    requires { IsNew schema.now }
    ensures count { result ≡ length (families_of schema.now) }
    ensures few { result ≤ MOST_FAMILIES }
{
    let stream = if schema.stream_family.is_some() { 1 } else { 0 };
    1 + (schema.locals.as_slice().len() + schema.globals.as_slice().len() + stream)
}
