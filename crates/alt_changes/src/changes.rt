//! The row of a change in the family of its stream (docs/formats/table-rows.md): its moment, the item before and after it, where
//! one was there, and that time to live wrote it, where it did.

ghost use Rattle.std.specs.Prelude.{◌≡◌, ◌++◌, ℕ, Some, false, IfOk, OnOk, map as each, option_map};
ghost use Rattle.std.specs.List.{flat_map};
ghost use Rattle.alt_cellbytes.specs.Places.{entry_bytes};
ghost use Rattle.alt_cells.specs.Batches.{has_row};
ghost use Rattle.alt_cells.specs.Changes.{with_value};
ghost use Rattle.alt_changes.specs.ChangeRows.{columns_of_change, item_bytes, item_column, row_changes, row_key, writer_column};
ghost use Rattle.alt_machine.specs.Changes.{change_left};
ghost use Rattle.alt_machine.specs.Same.{is_same};

use alt_base::NoMemory;
use alt_cellbytes::bytes_of;
use alt_cells::{Batch, CellList, RowChange};
use alt_codec::Writer;
use alt_fields::{Bytes, put_bytes, put_u64};
use alt_schema::TableSchema;
use alt_value::{Item, item_equal};
use std::alloc::Global;

/// What a stream keeps of a write: its number and its moment, the item before and after it, where one was there, and who made it.
#[derive(Drop)]
pub struct Change {
    pub number: u64,
    pub moment: u64,
    pub old: Option<Item>,
    pub new: Option<Item>,
    pub by: Writer,
}

/// The column of a change's moment.
pub(crate) const MOMENT: &[u8] = b"m";

/// The column of the item after it.
pub(crate) const NEW: &[u8] = b"n";

/// The column of the item before it.
pub(crate) const OLD: &[u8] = b"o";

/// The column that tells that time to live wrote it.
pub(crate) const EXPIRED: &[u8] = b"u";

/// The byte with which the cell bytes of a map begin.
pub(crate) const MAP: u8 = 10;

/// Puts the row of the change that a write leaves at the end of a batch, where one item gives way to another in a table with a stream:
/// none where the item stays as it is. The batch has no change of the row of that number yet.
pub fn change_row(
    alloc: Global,
    schema: &TableSchema,
    old: Option<&Item>,
    new: Option<&Item>,
    number: u64,
    moment: u64,
    by: Writer,
    batch: &mut Batch,
) -> Result<(), NoMemory>
    requires row { (family : ℕ) → schema.now.stream_family ≡ Some family
        → has_row batch.old family (row_key number) ≡ false }
    ensures changes { OnOk result (batch.new ≡ batch.old ++ row_changes schema.now
        (change_left number moment by (option_map (λ i. i.now) old.entry)
        (option_map (λ i. i.now) new.entry))) }
{
    let Some(family) = schema.stream_family else {
        return Ok(());
    };
    if same(old, new) {
        return Ok(());
    }
    let change = RowChange {
        family,
        key: number_bytes(alloc, number)?,
        clear: true,
        cells: cells_of(alloc, moment, by, old, new)?,
    };
    batch.add(change)
}

/// Whether both are one item, or neither is there.
fn same(old: Option<&Item>, new: Option<&Item>) -> bool
    ensures { result ≡ is_same (option_map (λ i. i.now) old.entry)
        (option_map (λ i. i.now) new.entry) }
{
    match (old, new) {
        (None, None) => true,
        (Some(old), Some(new)) => item_equal(old, new),
        _ => false,
    }
}

/// A number in 8 bytes.
pub(crate) fn number_bytes(alloc: Global, number: u64) -> Result<Bytes, NoMemory>
    ensures { IfOk result (λ bytes. bytes ≡ row_key number) }
{
    let mut out = Vec::new(alloc);
    put_u64(&mut out, number)?;
    Ok(Bytes::from_vec(out))
}

/// The cells of the row of a change.
fn cells_of(
    alloc: Global,
    moment: u64,
    by: Writer,
    old: Option<&Item>,
    new: Option<&Item>,
) -> Result<CellList, NoMemory>
    ensures { IfOk result (λ cells. cells ≡ each with_value (columns_of_change moment by
        (option_map (λ i. i.now) old.entry) (option_map (λ i. i.now) new.entry))) }
{
    let mut cells = CellList::new(alloc);
    let bytes = number_bytes(alloc, moment)?;
    cells.push(Bytes::new(alloc, MOMENT)?, Some(bytes))?;
    push_item(alloc, &mut cells, NEW, new)?;
    push_item(alloc, &mut cells, OLD, old)?;
    push_writer(alloc, &mut cells, by)?;
    Ok(cells)
}

/// Puts the cell of an item at the end, where it is there.
fn push_item(
    alloc: Global,
    cells: &mut CellList,
    name: &[u8],
    item: Option<&Item>,
) -> Result<(), NoMemory>
    ensures { OnOk result (cells.new ≡ cells.old ++ each with_value
        (item_column name.now (option_map (λ i. i.now) item.entry))) }
{
    match item {
        Some(item) => {
            let bytes = item_bytes(alloc, item)?;
            cells.push(Bytes::new(alloc, name)?, Some(bytes))
        }
        None => Ok(()),
    }
}

/// Puts the cell at the end that tells that time to live wrote the change, where it did.
fn push_writer(alloc: Global, cells: &mut CellList, by: Writer) -> Result<(), NoMemory>
    ensures { OnOk result (cells.new ≡ cells.old ++ each with_value (writer_column by)) }
{
    match by {
        Writer::User => Ok(()),
        Writer::Expiry => cells.push(
            Bytes::new(alloc, EXPIRED)?,
            Some(Bytes::from_vec(Vec::new(alloc))),
        ),
    }
}

/// The cell bytes of an item, which are those of a map.
fn item_bytes(alloc: Global, item: &Item) -> Result<Bytes, NoMemory>
    ensures { IfOk result (λ bytes. bytes ≡ item_bytes item.now) }
{
    let mut out = Vec::new(alloc);
    out.push(MAP)?;
    put_u64(&mut out, item.len() as u64)?;
    put_attributes(item, &mut out)?;
    Ok(Bytes::from_vec(out))
}

/// Appends each attribute: its name as a field, and its cell bytes.
fn put_attributes(item: &Item, out: &mut Vec<u8>) -> Result<(), NoMemory>
    ensures { OnOk result (out.new.items ≡ out.old.items ++ flat_map entry_bytes item.now) }
{
    for place in 0..item.len() {
        let Some((name, value)) = item.at(place) else {
            break;
        };
        put_bytes(out, name.as_bytes())?;
        bytes_of(value, out)?;
    }
    Ok(())
}
