//! The row changes of a table that gets a global index more, or one less, and the family that it takes.

ghost use Rattle.std.specs.Prelude.{◌==◌, ◌&&◌, ◌||◌, ◌≡◌, ◌+◌, ◌<◌, length, nat_le, if◌then◌else◌, true, false, IfOk};
ghost use Rattle.std.specs.List.{list_any};
ghost use Rattle.std.specs.Option.{option_map_or};
ghost use Rattle.alt_machine.specs.State.{families_of};
ghost use Rattle.alt_rowchanges.specs.Altering.{has_more};
ghost use Rattle.alt_rowchanges.specs.RowChanges.{alter_changes};

use alt_base::NoMemory;
use alt_cells::{Batch, RowChange};
use alt_fields::Bytes;
use alt_machine::FAMILIES_END;
use alt_opening::{CATALOG, row_of_family, row_of_schema};
use alt_schema::{IndexSchema, TableSchema};
use std::alloc::Global;

/// The row changes of a table with another description: the row of the description changes, and the next family.
pub fn alteration(
    alloc: Global,
    before: u32,
    after: u32,
    old: &TableSchema,
    schema: &TableSchema,
) -> Result<Batch, NoMemory>
    requires named { 0 < length old.now.name }
    ensures changes { IfOk result (λ batch. batch
        ≡ alter_changes before after old.now schema.now) }
{
    let was = row_of_schema(alloc, old)?;
    let row = row_of_schema(alloc, schema)?;
    let key = Bytes::new(alloc, old.name.as_str().as_bytes())?;
    let before = row_of_family(alloc, before)?;
    let after = row_of_family(alloc, after)?;
    let mut batch = Batch::new(alloc);
    batch.add(RowChange::between(alloc, CATALOG, key, Some(&was), Some(&row))?)?;
    let next = Bytes::new(alloc, &[])?;
    batch.add(RowChange::between(alloc, CATALOG, next, before.as_ref(), after.as_ref())?)?;
    Ok(batch)
}

/// Whether a description has an index more than another.
pub fn has_more(old: &TableSchema, schema: &TableSchema) -> bool
    ensures { result ≡ has_more old.now schema.now }
{
    old.globals.as_slice().len() < schema.globals.as_slice().len()
}

/// Whether an index more can't have the family that comes next: it is beyond the last, or one of the table's, which it is on no disk that
/// tells its contents.
pub fn lacks_family(more: bool, schema: &TableSchema, family: u32) -> bool
    ensures { result ≡ (more && (nat_le FAMILIES_END family
        || list_any (λ f. f == family) (families_of schema.now))) }
{
    more && (family >= FAMILIES_END || has_family(schema, family))
}

/// The family that comes next behind a table that gets another description, where it has an index more or not.
pub fn family_after(more: bool, family: u32) -> u32
    requires room { more ≡ true → family < FAMILIES_END }
    ensures { result ≡ (if more then family + 1 else family) }
{
    if more { family + 1 } else { family }
}

/// Whether a table has a family.
fn has_family(schema: &TableSchema, family: u32) -> bool
    ensures { result ≡ list_any (λ f. f == family) (families_of schema.now) }
{
    let own = schema.family == family;
    let local = is_indexed(schema.locals.as_slice(), family);
    let global = is_indexed(schema.globals.as_slice(), family);
    let stream = is_streamed(schema.stream_family, family);
    one_of(own, local, global, stream)
}

/// Whether one of four is so.
fn one_of(own: bool, local: bool, global: bool, stream: bool) -> bool
    ensures { result ≡ (((own || local) || global) || stream) }
{
    own || local || global || stream
}

/// Whether one of these indexes has it.
fn is_indexed(indexes: &[IndexSchema], family: u32) -> bool
    ensures { result ≡ list_any (λ i. i.family == family) indexes.now }
{
    indexes.iter().any(|index| index.family == family)
}

/// Whether a stream has it.
fn is_streamed(stream: Option<u32>, family: u32) -> bool
    ensures { result ≡ option_map_or (λ f. f == family) stream false }
{
    match stream {
        Some(own) => own == family,
        None => false,
    }
}
