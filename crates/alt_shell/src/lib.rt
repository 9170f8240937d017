//! The outside of a run besides its files: standard streams, connections and a clock, on the moments of a disk.
#![tactic(auto)]

mod clock;
mod kept;
mod memory;
mod memory_calls;
mod memory_files;
mod memory_streams;
mod pieces;
mod shell;
mod talks;
mod wire;

pub use memory::MemoryShell;
pub use shell::{CLOCK_END, Shell};
