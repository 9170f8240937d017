//! A disk of numbered files, told by what reads give and by what a stop may leave at each moment.
#![tactic(auto)]

mod buffer;
mod disk;
mod files;
mod history;
mod made;
mod memory;
mod pick;
mod stopped;
mod trace;

pub use disk::{Disk, DiskFault, Failed};
pub use memory::MemoryDisk;
