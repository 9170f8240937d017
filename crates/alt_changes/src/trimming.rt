//! What a write does to the rows of a stream where changes were trimmed (docs/formats/table-rows.md): the row of number 0 tells the
//! number of the last of them, and rows that are left over of them are hidden.

ghost use Rattle.std.specs.Prelude.{◌≡◌, ◌≢◌, ◌≤◌, ◌<◌, ◌^◌, ◌++◌, ℕ, Some, false, All, AllPairs, IfOk, OnOk, map};
ghost use Rattle.alt_cells.specs.Batches.{has_row};
ghost use Rattle.alt_cells.specs.Changes.{change_between};
ghost use Rattle.alt_changes.specs.ChangeRows.{row_key};
ghost use Rattle.alt_changes.specs.TrimRows.{AreLeft, hidden, trim_changes, trimmed_row};

use crate::changes::number_bytes;
use alt_base::NoMemory;
use alt_cells::{Batch, CellList, RowChange};
use alt_fields::Bytes;
use alt_schema::TableSchema;
use std::alloc::Global;

/// The column of the trimmed number.
const TRIMMED: &[u8] = b"x";

/// Puts at the end of a batch what a write does to the rows of the changes that a table's stream trimmed, where `trimmed` is the number of
/// the last of them with the write and `before` was it without: the row of number 0 exactly where the two differ, and for each of
/// these rows that are left over that it is hidden. The batch has no change of these rows yet.
pub fn trim_rows(
    alloc: Global,
    schema: &TableSchema,
    trimmed: u64,
    before: u64,
    leftovers: &[u64],
    batch: &mut Batch,
) -> Result<(), NoMemory>
    requires rise { before ≤ trimmed }
    requires left { AreLeft trimmed leftovers.now }
    requires differ { AllPairs (λ m n. m ≢ n) leftovers.now }
    requires zero { (family : ℕ) → schema.now.stream_family ≡ Some family
        → has_row batch.old family (row_key 0) ≡ false }
    requires rows { (family : ℕ) → schema.now.stream_family ≡ Some family
        → All (λ n. has_row batch.old family (row_key n) ≡ false) leftovers.now }
    ensures changes { OnOk result (batch.new
        ≡ batch.old ++ trim_changes schema.now before trimmed leftovers.now) }
{
    let Some(family) = schema.stream_family else {
        return Ok(());
    };
    if before != trimmed {
        batch.add(trimmed_change(alloc, family, before, trimmed)?)?;
    }
    hide_rows(alloc, family, leftovers, batch)
}

/// The change of the row of number 0 where the trimmed number rises.
fn trimmed_change(
    alloc: Global,
    family: u32,
    before: u64,
    trimmed: u64,
) -> Result<RowChange, NoMemory>
    requires rise { before < trimmed }
    ensures { IfOk result (λ change. change
        ≡ change_between family (row_key 0) (trimmed_row before) (trimmed_row trimmed)) }
{
    let mut cells = CellList::new(alloc);
    let bytes = number_bytes(alloc, trimmed)?;
    cells.push(Bytes::new(alloc, TRIMMED)?, Some(bytes))?;
    Ok(RowChange {
        family,
        key: number_bytes(alloc, 0)?,
        clear: before == 0,
        cells,
    })
}

/// Hides the rows of these numbers.
fn hide_rows(alloc: Global, family: u32, numbers: &[u64], batch: &mut Batch) -> Result<(), NoMemory>
    requires small { All (λ n. n < 2 ^ 64) numbers.now }
    requires differ { AllPairs (λ m n. m ≢ n) numbers.now }
    requires rows { All (λ n. has_row batch.old family (row_key n) ≡ false) numbers.now }
    ensures { OnOk result (batch.new ≡ batch.old ++ map (hidden family) numbers.now) }
{
    for number in numbers {
        let change = RowChange {
            family,
            key: number_bytes(alloc, *number)?,
            clear: true,
            cells: CellList::new(alloc),
        };
        batch.add(change)?;
    }
    Ok(())
}
