//! Families of rows: of each the rows in memory that no file has, and its row files in hand.
#![tactic(auto)]

mod family;
mod first;
mod memory;
mod row;
mod rows;
mod source;

pub use family::Family;
pub use first::first_shown;
pub use memory::{put_batches, put_changes, with_more};
pub use row::shown_row;
pub use rows::shown_rows;
