//! An item straight from the text of a body, without a JSON tree of it; of the body's other members those of some names are read to trees.
#![tactic(auto)]

mod ahead;
mod batch;
mod direct;
mod flat_ahead;
mod sets_ahead;
mod tokens;

pub use ahead::{ReadAhead, read_ahead};
pub use batch::{TableWrites, Write, batch_ahead};
