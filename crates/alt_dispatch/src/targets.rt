//! The operation that a request's target names.

ghost use Rattle.std.specs.Prelude.{◌≡◌};
ghost use Rattle.alt_dispatch.specs.Targets.{is_on_streams, on_tables, on_streams, stream_operation_at, operation_at};

use crate::answers::operation_named;
use alt_machine::Operation;

/// What stands before the name of an operation on tables and items (DynamoDB API Reference, "Making HTTP requests").
const TABLES_VERSION: &[u8] = b"DynamoDB_20120810.";

/// What stands before the name of an operation on streams (DynamoDB Streams API Reference).
const STREAMS_VERSION: &[u8] = b"DynamoDBStreams_20120810.";

/// The operation of the value of `X-Amz-Target`, `None` exactly where that isn't a version and the name of one that is built and goes with
/// that version.
pub fn operation_of(target: &[u8]) -> Option<Operation>
    ensures { result ≡ operation_at target.now }
{
    match target.strip_prefix(TABLES_VERSION) {
        Some(name) => on_tables(operation_named(name)?),
        None => stream_operation_of(target),
    }
}

/// The operation on streams of such a value, `None` exactly where it names none.
fn stream_operation_of(target: &[u8]) -> Option<Operation>
    ensures { result ≡ stream_operation_at target.now }
{
    match target.strip_prefix(STREAMS_VERSION) {
        Some(name) => on_streams(operation_named(name)?),
        None => None,
    }
}

/// The operation, where it is one on tables and items.
fn on_tables(operation: Operation) -> Option<Operation>
    ensures { result ≡ on_tables operation }
{
    if is_on_streams(operation) {
        None
    } else {
        Some(operation)
    }
}

/// The operation, where it is one on streams.
fn on_streams(operation: Operation) -> Option<Operation>
    ensures { result ≡ on_streams operation }
{
    if is_on_streams(operation) {
        Some(operation)
    } else {
        None
    }
}

fn is_on_streams(operation: Operation) -> bool
    ensures { result ≡ is_on_streams operation }
{
    match operation {
        Operation::ListStreams => true,
        Operation::DescribeStream => true,
        Operation::GetShardIterator => true,
        Operation::GetRecords => true,
        _ => false,
    }
}
