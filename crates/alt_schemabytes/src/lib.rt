//! The bytes in which the store keeps the description of a table, written and read again.
//!
//! The table of the format is docs/formats/descriptions.md.
#![tactic(auto)]

mod format;
mod holding;
mod parsing;
mod parts;

pub use format::schema_bytes;
pub use holding::held;
pub use parsing::schema_of_bytes;
