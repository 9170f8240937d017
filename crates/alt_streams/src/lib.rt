//! The operations of DynamoDB Streams: ListStreams, DescribeStream, GetShardIterator and GetRecords (DynamoDB Streams API Reference,
//! "Actions"; docs/API.md).
#![tactic(auto)]

mod describe;
mod iterators;
mod list;
mod page;
mod paging;
mod record;
mod records;
mod shown;
mod streams;

pub use describe::describe_stream;
pub use iterators::get_shard_iterator;
pub use list::list_streams;
pub use records::get_records;
