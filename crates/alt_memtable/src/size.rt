//! How many bytes a row takes, counted up to 2^62.

ghost use Rattle.std.specs.Prelude.{◌≡◌, ◌+◌, ◌≤◌, length};
ghost use Rattle.std.specs.List.{flat_map};
ghost use Rattle.alt_cells.specs.Format.{bytes_of_row, cell_bytes};
ghost use Rattle.alt_memtable.specs.Rows.{most_bytes, more_bytes};

use alt_cells::{Cell, RowCells};
use alt_fields::Bytes;

/// A count that stops.
const MOST: u64 = 1 << 62;

/// The count with so many more.
pub(crate) fn with_more(count: u64, more: usize) -> u64
    requires { count ≤ most_bytes }
    ensures { result ≡ more_bytes count more }
{
    if more as u64 >= MOST - count {
        MOST
    } else {
        count + more as u64
    }
}

/// The count with the bytes of a row more.
pub(crate) fn with_row(count: u64, row: &RowCells) -> u64
    requires { count ≤ most_bytes }
    ensures { result ≡ more_bytes count (length (bytes_of_row row.now)) }
{
    let cells = row.cells.as_slice();
    let head = if row.gone.is_some() { 17 } else { 9 };
    with_cells(with_more(count, head), cells)
}

fn with_cells(count: u64, cells: &[(Bytes, Cell)]) -> u64
    requires { count ≤ most_bytes }
    ensures { result ≡ more_bytes count (length (flat_map cell_bytes cells.now)) }
{
    let mut count = count;
    for entry in cells {
        count = with_cell(count, &entry.0, &entry.1);
    }
    count
}

fn with_cell(count: u64, name: &Bytes, cell: &Cell) -> u64
    requires { count ≤ most_bytes }
    ensures { result ≡ more_bytes count (length (cell_bytes (name.now, cell.now))) }
{
    let count = with_more(with_more(count, 17), name.as_slice().len());
    match &cell.value {
        Some(value) => with_more(with_more(count, 8), value.as_slice().len()),
        None => count,
    }
}
