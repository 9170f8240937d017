//! The operations on one item: PutItem, GetItem, DeleteItem and UpdateItem (DynamoDB API Reference, "Actions"; docs/API.md).
#![tactic(auto)]

mod changing;
mod delete;
mod get;
mod items;
mod leaving;
mod put;
mod returning;
mod update;

pub use delete::delete_item;
pub use get::get_item;
pub use put::{put_item, put_item_ahead};
pub use update::update_item;
