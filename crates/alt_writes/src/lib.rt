//! The writes of a store as the entries of its log: their bytes, and how they are read back.
#![tactic(auto)]

mod format;
mod read;

pub use format::{group_of, write_of};
pub use read::{LoggedWrite, Stop, read_group, read_write};
