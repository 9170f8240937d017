//! The members of a request that its operation heeds.
#![tactic(auto)]

mod bodies;
mod heeds;

pub use bodies::read_heeded;
pub use heeds::{heeded, members_laws};
