//! What was found at a place of a table, for a write to take back.

ghost use Rattle.std.specs.Prelude.{◌≡◌, option_map};
ghost use Rattle.alt_views.specs.ItemRows.{item_columns};

use alt_cells::ShownRow;
use alt_fields::Bytes;
use alt_value::Item;

/// What was found at a place of a table, with the row that shows it. A write takes it back.
#[derive(Drop)]
pub struct Found {
    pub place: Bytes,
    pub item: Option<Item>,
    pub(crate) row: Option<ShownRow>,
    ghost shown: { row ≡ option_map item_columns item },
}
