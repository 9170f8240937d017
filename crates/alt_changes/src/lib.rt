//! The changes that a stream keeps: as rows of the stream's family, and the iterators that stand for places among them.
#![tactic(auto)]

mod changes;
mod iterators;
mod reading;
mod trimming;

pub use changes::{Change, change_row};
pub use iterators::{iterator_of, iterator_text, sequence_number};
pub use reading::change_of;
pub use trimming::trim_rows;
