//! The rows of items: those of a table, at the places of their keys, and those of its indexes; and the row changes that turn the index
//! rows of one item into those of another.
#![tactic(auto)]

mod changed;
mod changes;
mod indexed;
mod item_row;
mod key_row;
mod place;
mod reach;
mod rows;
mod start;

pub use changes::index_changes;
pub use indexed::{IndexRow, index_row, item_of_index_row, key_of_place};
pub use item_row::{Unread, item_from_row, item_of_row, row_of_item};
pub use key_row::key_of_row;
pub use place::{KeyValues, index_place, key_fits, key_values, place_of, place_of_both};
pub use reach::built_row;
pub use rows::index::{index_keys_fit, index_named};
pub use rows::projection::{index_at, index_item, is_key};
pub use start::start_place;
