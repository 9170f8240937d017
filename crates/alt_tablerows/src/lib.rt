//! The rows of a store, one at a time (docs/formats/table-rows.md): what one tells, and whether it may stand where it does.
//!
//! `catalog_row` has the rows of descriptions and of the next family, both ways, with `building`, the cell of an index that is being built;
//! `good` tests a description that was read, with `made`, whether it is as it is made, and `families`. `items` tests the row of an item,
//! `stream_row` one of a stream, with `change_rows`, the rows of changes, and `trimmed_row`, that of what was trimmed of them.
#![tactic(auto)]

mod building;
mod catalog_row;
mod change_rows;
mod families;
mod good;
mod items;
mod made;
mod stream_row;
mod trimmed_row;

pub use alt_schemabytes::held;
pub use alt_views::{
    IndexRow, Unread, built_row, index_at, item_of_index_row, item_of_row, place_of,
};
pub use catalog_row::{
    CATALOG, family_of_row, row_of_family, row_of_schema, row_with_time, schema_of_row,
};
pub use change_rows::{change_at, number_of};
pub use families::{families_of, has_family};
pub use good::is_good;
pub use items::test_item;
pub use stream_row::{same, test_row};
pub use trimmed_row::{ROW_OF_TRIMMED, trimmed_told};
