//! The real shell: a folder of files, the standard streams, connections on the loopback address and the system's clock. It is the
//! trusted edge of the program, and tells nothing but its counts (docs/OPERATING.md has what it makes of the folder).
#![tactic(auto)]

mod disk;
mod folder;
mod shell;
mod standard;
mod streams;
mod talk;

pub use shell::HostShell;
