//! What several crates cite: want of memory, counts that rise, prefixes.
#![tactic(auto)]

mod memory;

pub use memory::NoMemory;
