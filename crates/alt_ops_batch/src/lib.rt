//! The operations on batches: BatchWriteItem and BatchGetItem (DynamoDB API Reference, "Actions"; docs/API.md).
#![tactic(auto)]

mod asked_ahead;
mod asked_reads;
mod asked_writes;
mod get;
mod keys;
mod members;
mod reading;
mod replies;
mod write;

pub use get::batch_get_item;
pub use write::{batch_write_item, batch_write_item_ahead};
