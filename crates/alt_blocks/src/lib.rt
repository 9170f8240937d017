//! Reads of a disk, kept: a disk with the same reads, over a cache that a write or a removal empties.
#![tactic(auto)]

mod cache;
mod cached;
mod shell;

pub use cache::{BlockCache, LONGEST_KEPT};
pub use cached::Cached;
