//! A flush: the rows that a family has in memory become a row file, and a draft of the next version names it.
#![tactic(auto)]

mod draft;
mod laws;
mod lists;
mod merge;
mod remove;
mod write;

pub use draft::{over_new_log, renumbered, with_flush, with_segment, without};
pub use laws::draft_laws;
pub use merge::with_merge;
pub use remove::{has, remove_left_over};
pub use write::write_rows;
