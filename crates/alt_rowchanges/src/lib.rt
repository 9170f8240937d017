//! The rows of tables: which row changes each write of the state makes, what it takes from the front of a stream, and what rows that are read tell.
#![tactic(auto)]

mod altering;
mod build;
mod catalog;
mod faults;
mod fronts;
mod items;
mod leftovers;
mod moments;
mod pages;
mod trimming;

pub use alt_opening::{
    Catalog, Engine, Limits, Live, MakeFault, OpenFault, Store, Task, Trimmed, Worked, forget,
    make_store, open_store, renumber, same, trimmed_number,
};
pub use altering::{alteration, family_after, has_more, lacks_family};
pub use build::{built_after, left_range, step, taken_of};
pub use catalog::{creation, family_count, named, removal, timing};
pub use faults::TableFault;
pub use fronts::{Front, forget_front, front_of, know_front};
pub use items::{copy_of, item_batch, row_of};
pub use leftovers::{behind, numbers_of, range_from, range_of};
pub use moments::expires_from;
pub use pages::{item_of, read_changes, read_index_page, read_page};
pub use trimming::{Trim, ahead, from_kept, is_over, is_within, kept_in, next, put_trim};
