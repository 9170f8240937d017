//! Time to live: UpdateTimeToLive and DescribeTimeToLive (DynamoDB API Reference, "Actions"), and ExpireItems, which deletes the items
//! whose time is over (docs/API.md).
#![tactic(auto)]

mod describe_time;
mod expiry;
mod foresight;
mod over;
mod replies;
mod search;
mod settling;
mod standings;
mod survey;
mod update_time;

pub use alt_ops_batch::{batch_get_item, batch_write_item, batch_write_item_ahead};
pub use alt_ops_query::{query, scan};
pub use alt_ops_table::{create_table, delete_table, describe_table, list_tables};
pub use describe_time::describe_time_to_live;
pub use expiry::{expire, expire_items};
pub use update_time::update_time_to_live;
