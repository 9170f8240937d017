//! A run of the program over any shell: its words, and what comes of them.
#![tactic(auto)]

mod chain;
mod ending;
mod ending_of;
mod init;
mod lines;
mod open;
mod reply;
mod running;
mod serve;
mod tally;
mod trial;
mod words;

pub use chain::chains;
pub use running::run;
pub use words::{Command, Job, command_of, port_of};
