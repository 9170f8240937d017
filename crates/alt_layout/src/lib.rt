//! Which rows the files of a store hold, by its last version, and what calls on one file leave of them at each moment: definitions and their laws.
#![tactic(auto)]

mod laws;

pub use laws::{layout_laws, moment_laws};
