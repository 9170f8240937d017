//! The text of a condition, parsed to its tree.
#![tactic(auto)]

mod condition;
mod crowded;
mod operand;
mod test;
mod text;

pub use text::parse;
