//! The rows of the catalog: descriptions at their tables' names, each with what stands beside its bytes, and the next family at the empty
//! key (docs/formats/table-rows.md).

ghost use Rattle.std.specs.Prelude.{◌≡◌, ◌<◌, ◌≤◌, ◌^◌, ℕ, List, true, Option, Some, Err, IfOk, IfSome, IfNone, option_map};
ghost use Rattle.std.specs.Int.{w32, to_be_bytes};
ghost use Rattle.std.specs.List.{list_all};
ghost use Rattle.alt_schema.specs.Bare.{is_whole};
ghost use Rattle.alt_schema.specs.Described.{IsDescription};
ghost use Rattle.alt_schemabytes.specs.Held.{IsHeld, IsHeldText, Where};
ghost use Rattle.alt_schema.specs.Indexes.{indexes};
ghost use Rattle.alt_schema.specs.declared.schema.TableSchema.{TableSchema};
ghost use Rattle.alt_tablerows.specs.Families.{HasOwnFamilies};
ghost use Rattle.alt_tablerows.specs.CatalogRows.{one_column, next_row, described_row, table_row, plain_row, built_cell, with_built_cell};
ghost use Rattle.alt_machine.specs.Building.{IsBuilt};

use crate::building::{built_and_rest, built_cell, built_up, row_of_columns, with_built_cell};
use alt_base::NoMemory;
use alt_cells::ShownRow;
use alt_fields::{Bytes, BytesFault, put_u32, take_u32};
use alt_machine::FAMILIES_END;
use alt_schema::TableSchema;
use alt_schemabytes::{held, schema_bytes, schema_of_bytes};
use alt_value::Text;
use alt_views::Unread;
use std::alloc::Global;

/// The family of the catalog.
pub const CATALOG: u32 = 0;

/// The column of the next family.
const NEXT: &[u8] = b"next";

/// The column of a description.
const TABLE: &[u8] = b"t";

/// The column of the attribute for time to live.
const TIME: &[u8] = b"l";

/// The row of a table.
pub fn row_of_schema(alloc: Global, schema: &TableSchema) -> Result<ShownRow, NoMemory>
    ensures row { IfOk result (λ row. row ≡ table_row schema.now) }
{
    match &schema.ttl {
        Some(name) => row_with_time(alloc, schema, Some(name)),
        None => row_with_time(alloc, schema, None),
    }
}

/// The row of a table as it is with that attribute for time to live, or with none.
pub fn row_with_time(
    alloc: Global,
    schema: &TableSchema,
    ttl: Option<&Text>,
) -> Result<ShownRow, NoMemory>
    ensures row { IfOk result (λ row. row
        ≡ table_row (record schema.now { ttl = option_map (λ t. t.now) ttl.entry })) }
{
    let row = plain_row(alloc, schema, ttl)?;
    match built_cell(alloc, schema)? {
        Some(value) => with_built_cell(alloc, value, row),
        None => Ok(row),
    }
}

/// The row of a table, as if each index of it were whole, with that attribute for time to live, or with none.
fn plain_row(alloc: Global, schema: &TableSchema, ttl: Option<&Text>) -> Result<ShownRow, NoMemory>
    ensures row { IfOk result (λ row. row
        ≡ plain_row (record schema.now { ttl = option_map (λ t. t.now) ttl.entry })) }
{
    let mut bytes = Vec::new(alloc);
    schema_bytes(schema, &mut bytes)?;
    match ttl {
        Some(name) => timed_row(alloc, name, bytes),
        None => one_column(alloc, TABLE, bytes),
    }
}

/// The row of a table with time to live.
fn timed_row(alloc: Global, name: &Text, bytes: Vec<u8>) -> Result<ShownRow, NoMemory>
    ensures row { IfOk result (λ row. row ≡ described_row (Some name.now) bytes.items) }
{
    let mut row = ShownRow::new(alloc);
    let value = Bytes::new(alloc, name.as_str().as_bytes())?;
    row.push(Bytes::new(alloc, TIME)?, value)?;
    row.push(Bytes::new(alloc, TABLE)?, Bytes::from_vec(bytes))?;
    Ok(row)
}

/// The row of the next family, none where it is 1.
pub fn row_of_family(alloc: Global, family: u32) -> Result<Option<ShownRow>, NoMemory>
    ensures row { IfOk result (λ row. row ≡ next_row family) }
{
    if family == 1 {
        return Ok(None);
    }
    let mut bytes = Vec::new(alloc);
    put_u32(&mut bytes, family)?;
    let row = one_column(alloc, NEXT, bytes)?;
    Ok(Some(row))
}

/// A row of one column.
fn one_column(alloc: Global, name: &[u8], value: Vec<u8>) -> Result<ShownRow, NoMemory>
    ensures row { IfOk result (λ row. row ≡ one_column name.now value.items) }
{
    let mut row = ShownRow::new(alloc);
    row.push(Bytes::new(alloc, name)?, Bytes::from_vec(value))?;
    Ok(row)
}

/// The description whose row this is.
pub fn schema_of_row(alloc: Global, row: &ShownRow) -> Result<TableSchema, Unread>
    ensures schema { IfOk result (λ d. IsDescription d × IsHeld d × IsBuilt d
        × (row.now ≡ table_row d)) }
    ensures none { result ≡ Err Unread.Bad → (d : TableSchema) → IsDescription d → IsHeld d
        → IsBuilt d → HasOwnFamilies d → row.now ≡ table_row d → ⊥ }
{
    let Some((cell, columns)) = built_and_rest(row) else {
        return plain_schema(alloc, row);
    };
    let rest = row_of_columns(alloc, columns)?;
    let schema = plain_schema(alloc, &rest)?;
    let built = built_up(alloc, schema, cell)?;
    held(&built);
    Ok(built)
}

/// The description of the row, as if each index were whole.
fn plain_schema(alloc: Global, row: &ShownRow) -> Result<TableSchema, Unread>
    ensures schema { IfOk result (λ d. IsDescription d × IsHeld d × (row.now ≡ plain_row d)) }
    ensures whole { IfOk result (λ d. list_all (λ i. is_whole i.built) (indexes d) ≡ true) }
    ensures none { result ≡ Err Unread.Bad → (d : TableSchema) → IsDescription d → IsHeld d
        → row.now ≡ plain_row d → ⊥ }
{
    let Some((time, bytes)) = cells_of(row) else {
        return Err(Unread::Bad);
    };
    let ttl = time_of(alloc, time)?;
    match schema_of_bytes(alloc, bytes) {
        Ok(schema) => {
            let timed = with_time(schema, ttl);
            held(&timed);
            Ok(timed)
        }
        Err(BytesFault::Bad { .. }) => Err(Unread::Bad),
        Err(BytesFault::NoMemory) => Err(Unread::NoMemory),
    }
}

/// The values of the cells of a table's row: the attribute for time to live, where there is one, and the bytes of its description. None
/// where it has others.
fn cells_of(row: &ShownRow) -> Option<(Option<&[u8]>, &[u8])>
    ensures cells { IfSome result (λ c. row.now
        ≡ described_row (option_map (λ t. t.now) c.0) c.1.now) }
    ensures none { IfNone result ((time : Option (List ℕ)) (bytes : List ℕ)
        → row.now ≡ described_row time bytes → ⊥) }
{
    if let Some(bytes) = value_of(row, TABLE) {
        return Some((None, bytes));
    }
    match timed_cells(row) {
        Some((name, bytes)) => Some((Some(name), bytes)),
        None => None,
    }
}

/// The same of a table with time to live.
fn timed_cells(row: &ShownRow) -> Option<(&[u8], &[u8])>
    ensures cells { IfSome result (λ c. row.now ≡ described_row (Some c.0.now) c.1.now) }
    ensures none { IfNone result ((name bytes : List ℕ)
        → row.now ≡ described_row (Some name) bytes → ⊥) }
{
    let columns = row.as_slice();
    if columns.len() != 2 {
        return None;
    }
    let time = &columns[0];
    let table = &columns[1];
    if time.0.as_slice() != TIME {
        return None;
    }
    if table.0.as_slice() != TABLE {
        return None;
    }
    Some((time.1.as_slice(), table.1.as_slice()))
}

/// The text of an attribute's name, where there is one.
fn time_of(alloc: Global, time: Option<&[u8]>) -> Result<Option<Text>, Unread>
    ensures text { IfOk result (λ text. text ≡ option_map (λ t. t.now) time.entry) }
    ensures none { result ≡ Err Unread.Bad
        → Where IsHeldText (option_map (λ t. t.now) time.entry) → ⊥ }
{
    let Some(bytes) = time else {
        return Ok(None);
    };
    match std::str::from_utf8(bytes) {
        Ok(name) => Ok(Some(Text::new(alloc, name)?)),
        Err(_) => Err(Unread::Bad),
    }
}

/// The description with that time to live.
fn with_time(schema: TableSchema, ttl: Option<Text>) -> TableSchema
    ensures { result ≡ record schema { ttl = ttl } }
{
    let mut schema = schema;
    schema.ttl = ttl;
    schema
}

/// The next family that the row at the empty key tells, where one is shown there. None where no family has that row.
pub fn family_of_row(row: Option<&ShownRow>) -> Option<u32>
    ensures family { IfSome result (λ family. (1 ≤ family) × (family ≤ FAMILIES_END)
        × (option_map (λ r. r.now) row.entry ≡ next_row family)) }
    ensures none { IfNone result ((family : ℕ) → 1 ≤ family → family ≤ FAMILIES_END
        → option_map (λ r. r.now) row.entry ≡ next_row family → ⊥) }
{
    let Some(row) = row else {
        return Some(1);
    };
    match value_of(row, NEXT) {
        Some(bytes) => family_of_bytes(bytes),
        None => None,
    }
}

/// The next family that is written in four bytes, which is 2 or above.
fn family_of_bytes(bytes: &[u8]) -> Option<u32>
    ensures family { IfSome result (λ family. (2 ≤ family) × (family < 2 ^ 32)
        × (bytes.now ≡ to_be_bytes w32 family)) }
    ensures none { IfNone result ((family : ℕ) → 2 ≤ family → family < 2 ^ 32
        → bytes.now ≡ to_be_bytes w32 family → ⊥) }
{
    if bytes.len() != 4 {
        return None;
    }
    match take_u32(bytes, 0) {
        Ok((family, _)) => if family < 2 { None } else { Some(family) },
        Err(_) => None,
    }
}

/// The value of a row's one column, where it has that name and is the only one.
pub(crate) fn value_of<'r>(row: &'r ShownRow, name: &[u8]) -> Option<&'r [u8]>
    ensures value { IfSome result (λ value. row.now ≡ one_column name.now value.now) }
    ensures none { IfNone result ((value : List ℕ) → row.now ≡ one_column name.now value → ⊥) }
{
    let columns = row.as_slice();
    if columns.len() != 1 {
        return None;
    }
    let column = &columns[0];
    if column.0.as_slice() == name {
        Some(column.1.as_slice())
    } else {
        None
    }
}
