//! The row of number 0 of a stream, which tells the number of the last change that was trimmed (docs/formats/table-rows.md).

ghost use Rattle.std.specs.Prelude.{◌≡◌, ◌≤◌, ◌<◌, ◌↔◌, ℕ, IsTrue, option_map};
ghost use Rattle.alt_changes.specs.TrimRows.{number_told, trimmed_columns, trimmed_told};

use crate::catalog_row::value_of;
use crate::change_rows::number_of;
use alt_cells::ShownRow;
use alt_fields::take_u64;

/// Its key.
pub const ROW_OF_TRIMMED: [u8; 8] = [0; 8];

/// Its one column.
const TRIMMED: &[u8] = b"x";

/// Whether a row is that of a number from 1 on and below the next one.
pub(crate) fn tells_trimmed(row: &ShownRow, next: u64) -> bool
    ensures { IsTrue result ↔ (n : ℕ) × (1 ≤ n) × (n < next) × (row.now ≡ trimmed_columns n) }
{
    let Some(bytes) = value_of(row, TRIMMED) else {
        return false;
    };
    match number_of(bytes) {
        Some(number) => 1 <= number && number < next,
        None => false,
    }
}

/// The number that it tells, 0 where it isn't there or has none to tell.
pub fn trimmed_told(row: Option<&ShownRow>) -> u64
    ensures { result ≡ trimmed_told (option_map (λ r. r.now) row.entry) }
{
    let Some(row) = row else {
        return 0;
    };
    match row.get(TRIMMED) {
        Some(bytes) => number_told(bytes.as_slice()),
        None => 0,
    }
}

/// The number of 8 bytes, and 0 of any others.
fn number_told(bytes: &[u8]) -> u64
    ensures { result ≡ number_told bytes.now }
{
    match take_u64(bytes, 0) {
        Ok((number, end)) if end == bytes.len() => number,
        _ => 0,
    }
}
