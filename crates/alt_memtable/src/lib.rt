//! Rows in memory, joined as they are put, in the order of their keys.
#![tactic(auto)]

mod size;
mod table;
mod walk;

pub use table::Memtable;
pub use walk::MemWalk;
