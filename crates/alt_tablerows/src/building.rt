//! The cell of a table's row that tells how far one of its indexes is built, while one is being built (docs/formats/table-rows.md).

ghost use Rattle.std.specs.Prelude.{◌≡◌, ◌==◌, ◌++◌, ◌∷◌, [], ℕ, List, T, true, Some, Err, IfOk, IfSome, IfNone, OnOk, option_map, unwrap_or, codes};
ghost use Rattle.std.specs.Int.{w32, to_be_bytes};
ghost use Rattle.std.specs.FinMap as map;
ghost use Rattle.std.specs.FinMap.Entries.{is_sorted};
ghost use Rattle.std.specs.List.{count_by, list_all};
ghost use Rattle.alt_cells.specs.Keys.{key_cmp};
ghost use Rattle.alt_machine.specs.Building.{IsBuilt};
ghost use Rattle.alt_schema.specs.Bare.{bare, is_whole};
ghost use Rattle.alt_schemabytes.specs.Held.{IsHeld, IsHeldBuilt};
ghost use Rattle.alt_schema.specs.Indexes.{indexes};
ghost use Rattle.alt_schema.specs.declared.schema.Built.{Built};
ghost use Rattle.alt_schema.specs.declared.schema.IndexSchema.{IndexSchema};
ghost use Rattle.alt_schema.specs.declared.schema.TableSchema.{TableSchema};
ghost use Rattle.alt_tablerows.specs.Families.{HasOwnFamilies};
ghost use Rattle.alt_tablerows.specs.CatalogRows.{built_bytes, built_cell, with_built_cell};
ghost use Rattle.alt_tablerows.specs.private.Cells.{AllBelow, TellsBuilt};

use alt_base::NoMemory;
use alt_cells::ShownRow;
use alt_fields::{Bytes, put_u32, take_u32};
use alt_schema::{Built, IndexSchema, TableSchema, with_built};
use alt_views::{Unread, key_of_place, start_place};
use std::alloc::Global;

/// The column of an index that is being built.
const BUILT: &[u8] = b"b";

// ---- written

/// How far the index that is being built is built, behind its family, where one is being built.
pub(crate) fn built_cell(alloc: Global, schema: &TableSchema) -> Result<Option<Vec<u8>>, NoMemory>
    ensures cell { IfOk result (λ cell. option_map (λ v. v.items) cell ≡ built_cell schema.now) }
{
    for index in schema.globals.as_slice() {
        if !index.built.is_whole() {
            let bytes = cell_of(alloc, schema, index)?;
            return Ok(Some(bytes));
        }
    }
    Ok(None)
}

fn cell_of(alloc: Global, schema: &TableSchema, index: &IndexSchema) -> Result<Vec<u8>, NoMemory>
    ensures cell { IfOk result (λ cell. cell.items
        ≡ to_be_bytes w32 index.now.family ++ built_bytes schema.now index.now.built) }
{
    let mut bytes = Vec::new(alloc);
    put_u32(&mut bytes, index.family)?;
    put_built(alloc, schema, &index.built, &mut bytes)?;
    Ok(bytes)
}

/// Puts how far an index is built at the end of bytes.
fn put_built(
    alloc: Global,
    schema: &TableSchema,
    built: &Built,
    out: &mut Vec<u8>,
) -> Result<(), NoMemory>
    ensures put { OnOk result (out.new.items ≡ out.old.items ++ built_bytes schema.now built.now) }
{
    match built {
        Built::Whole => Ok(()),
        Built::UpTo(None) => {
            out.push(0)?;
            Ok(())
        }
        Built::UpTo(Some(key)) => {
            let place = start_place(alloc, schema, None, key)?;
            out.push(1)?;
            put_place(place, out)
        }
    }
}

fn put_place(place: Option<Bytes>, out: &mut Vec<u8>) -> Result<(), NoMemory>
    ensures put { OnOk result (out.new.items ≡ out.old.items ++ unwrap_or place []) }
{
    match place {
        Some(place) => {
            out.extend_from_slice(place.as_slice())?;
            Ok(())
        }
        None => Ok(()),
    }
}

/// A row with a cell for that in front.
pub(crate) fn with_built_cell(
    alloc: Global,
    value: Vec<u8>,
    row: ShownRow,
) -> Result<ShownRow, NoMemory>
    requires rises { AllBelow (codes "b") (map.entries row) }
    ensures row { IfOk result (λ new. new ≡ with_built_cell (Some value.items) row) }
{
    let mut new = ShownRow::new(alloc);
    new.push(Bytes::new(alloc, BUILT)?, Bytes::from_vec(value))?;
    push_all(&mut new, row.as_slice())?;
    Ok(new)
}

/// Puts columns behind those of a row.
fn push_all(row: &mut ShownRow, columns: &[(Bytes, Bytes)]) -> Result<(), NoMemory>
    requires rise { T (is_sorted key_cmp (map.entries row.old ++ columns.now)) }
    ensures pushed { OnOk result (map.entries row.new ≡ map.entries row.old ++ columns.now) }
{
    for column in columns {
        let name = column.0.copy()?;
        let value = column.1.copy()?;
        row.push(name, value)?;
    }
    Ok(())
}

// ---- read

/// The cell of a row, where it has it, and the columns behind it.
pub(crate) fn built_and_rest(row: &ShownRow) -> Option<(&[u8], &[(Bytes, Bytes)])>
    ensures parts { IfSome result (λ p. map.entries row.now ≡ (codes "b", p.0.now) ∷ p.1.now) }
    ensures none { IfNone result ((value : List ℕ) (rest : List (List ℕ × List ℕ))
        → map.entries row.now ≡ (codes "b", value) ∷ rest → ⊥) }
{
    let columns = row.as_slice();
    if columns.is_empty() {
        return None;
    }
    let first = &columns[0];
    if first.0.as_slice() != BUILT {
        return None;
    }
    Some((first.1.as_slice(), &columns[1..]))
}

/// A row of these columns.
pub(crate) fn row_of_columns(
    alloc: Global,
    columns: &[(Bytes, Bytes)],
) -> Result<ShownRow, NoMemory>
    requires rise { T (is_sorted key_cmp columns.now) }
    ensures row { IfOk result (λ row. map.entries row ≡ columns.now) }
{
    let mut row = ShownRow::new(alloc);
    push_all(&mut row, columns)?;
    Ok(row)
}

/// The description with its global index of a family built as far as a cell tells, which is of no whole one.
pub(crate) fn built_up(
    alloc: Global,
    schema: TableSchema,
    cell: &[u8],
) -> Result<TableSchema, Unread>
    requires whole { list_all (λ i. is_whole i.built) (indexes schema) ≡ true }
    ensures built { IfOk result (λ e. IsBuilt e × (built_cell e ≡ Some cell.now)) }
    ensures same { IfOk result (λ e. (bare e ≡ bare schema) × (e.ttl ≡ schema.ttl)) }
    ensures none { result ≡ Err Unread.Bad → (e : TableSchema) → IsHeld e → IsBuilt e
        → HasOwnFamilies e → bare e ≡ bare schema → built_cell e ≡ Some cell.now → ⊥ }
{
    let Ok((family, at)) = take_u32(cell, 0) else {
        return Err(Unread::Bad);
    };
    if count_of(schema.globals.as_slice(), family) != 1 {
        return Err(Unread::Bad);
    }
    let built = built_of(alloc, &schema, &cell[at..])?;
    match with_built(alloc, &schema, family, built)? {
        Some(schema) => Ok(schema),
        None => Err(Unread::Bad),
    }
}

/// How many indexes have a family.
fn count_of(indexes: &[IndexSchema], family: u32) -> usize
    ensures { result ≡ count_by (λ i. i.family == family) indexes.now }
{
    let mut count = 0;
    for index in indexes {
        if index.family == family {
            count += 1;
        }
    }
    count
}

/// How far an index is built by these bytes.
fn built_of(alloc: Global, schema: &TableSchema, bytes: &[u8]) -> Result<Built, Unread>
    ensures built { IfOk result (TellsBuilt schema.now bytes.now) }
    ensures none { result ≡ Err Unread.Bad → (built : Built) → IsHeldBuilt built
        → TellsBuilt schema.now bytes.now built → ⊥ }
{
    match bytes {
        [0] => Ok(Built::UpTo(None)),
        [1, place @ ..] => {
            let key = key_of_place(alloc, schema, place)?;
            Ok(Built::UpTo(Some(key)))
        }
        _ => Err(Unread::Bad),
    }
}
