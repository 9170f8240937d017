//! The text of an update, parsed to its actions, and the paths that they change.
#![tactic(auto)]

mod action;
mod crowded;
mod overlap;
mod repeated;
mod term;
mod text;
mod update;

pub use overlap::targets;
pub use text::parse;
