//! The operations on tables: CreateTable, DescribeTable, ListTables and DeleteTable (DynamoDB API Reference, "Actions";
//! docs/API.md).
#![tactic(auto)]

mod create;
mod delete;
mod describe;
mod list;
mod replies;

pub use create::create_table;
pub use delete::delete_table;
pub use describe::describe_table;
pub use list::list_tables;
pub use replies::described;
