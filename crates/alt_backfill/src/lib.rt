//! UpdateTable (DynamoDB API Reference, "UpdateTable"), and Build, the step in which a run builds an index further by itself
//! (docs/API.md).
#![tactic(auto)]

mod alteration;
mod asked;
mod building;
mod changes;

pub use alteration::update_table;
pub use building::build;
