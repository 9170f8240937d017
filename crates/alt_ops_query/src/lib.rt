//! The operations on lists of items: Query and Scan (DynamoDB API Reference, "Actions"; docs/API.md).
#![tactic(auto)]

mod asking;
mod pages;
mod places;
mod querying;
mod replies;
mod scanning;
mod selecting;
mod sources;
mod walking;

pub use querying::query;
pub use scanning::scan;
