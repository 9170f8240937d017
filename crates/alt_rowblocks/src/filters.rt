//! The filters of blocks, in memory beside their marks: a look for a key that a block can't have asks for no read.

ghost use Rattle.std.specs.Prelude.{IsTrue, ◌↔◌, slice_get};
ghost use Rattle.alt_rowblocks.specs.Filtering.{FilterHoldsRows, IsDenied};

use alt_cells::RowCells;
use alt_fields::Bytes;
use alt_filter::Filter;

/// The filter of a block's rows.
pub(crate) fn filter_of(rows: &[(Bytes, RowCells)]) -> Filter
    ensures { FilterHoldsRows result rows.now }
{
    let mut filter = Filter::new();
    for entry in rows {
        filter.add(entry.0.as_slice());
    }
    filter
}

/// Whether there is a filter of this block, and the key isn't in it.
pub fn is_denied(filters: &[Filter], i: usize, key: &[u8]) -> bool
    ensures { IsTrue result ↔ IsDenied (slice_get filters.now i) key.now }
{
    match filters.get(i) {
        Some(filter) => !filter.may_have(key),
        None => false,
    }
}
