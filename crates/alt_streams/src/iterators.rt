//! GetShardIterator.

ghost use Rattle.std.specs.Prelude.{◌≡◌, ◌&&◌, ◌<◌, ◌^◌, false, IfErr, IfOk, IfSome, codes};
ghost use Rattle.serde_json.specs.Data.{string};
ghost use Rattle.serde_json.specs.View.{members_view};
ghost use Rattle.serde_json.specs.Written.{has_float};
ghost use Rattle.alt_machine.specs.Ops.GetShardIterator.{get_shard_iterator, is_kind, is_numbered, number_given, of_body, starts};
ghost use Rattle.alt_machine.specs.Replies.{answers};
ghost use Rattle.alt_machine.specs.State.{State};
ghost use Rattle.alt_machine.specs.Streams.{iterator_text, may_be_shard};
ghost use Rattle.alt_request.specs.Carried.{Carries, Moves};
ghost use Rattle.alt_request.specs.Steps.{IsMemory, Tested};
ghost use Rattle.alt_shape.specs.Body.{body_json};
ghost use Rattle.alt_shape.specs.Refusals.{answer_of};
ghost use Rattle.alt_streams.specs.private.Paged.{iterator_at};
ghost use Rattle.alt_request.specs.TablesStands.{Stands, bounds_of};

use crate::streams::{arn_in, is_trimmed, may_be_shard, stream_target};
use alt_base::NoMemory;
use alt_changes::{iterator_text, sequence_number};
use alt_disk::Disk;
use alt_request::{Stop, TableFault, Tables, asks, one_member};
use alt_schema::TableSchema;
use alt_shape::{Refusal, Reply, bodies, given, text_at};
use serde_json::{Map, Value};
use std::alloc::Global;

/// Answers an iterator, which stands for the changes of a stream from a number on (Streams API Reference, "GetShardIterator"). The
/// refusals are those of docs/API.md.
pub fn get_shard_iterator<D: Disk>(
    alloc: Global,
    tables: &mut Tables,
    disk: &mut D,
    body: &Map<String, Value>,
    moment: u64,
) -> Result<Reply, Stop>
    ensures carried { Carries (bounds_of tables.old).file (λ s. get_shard_iterator s (members_view body.now.entries))
        (Stands (D.state disk.old) tables.old) (Stands (D.state disk.new) tables.new) result }
    ensures limits { bounds_of tables.new ≡ bounds_of tables.old }
    ensures moves { Moves (λ s. get_shard_iterator s (members_view body.now.entries))
        (Stands (D.state disk.old) tables.old) (D.state disk.old) (D.state disk.new) result }
    ensures disk { D.state disk.new ≡ D.state disk.old }
{
    let _ = disk;
    let _ = moment;
    unfit(body)?;
    let from = starts(tables.next_number(), body);
    let schema = stream_target(alloc, tables, arn_in(body))?;
    if is_trimmed(tables.trimmed(schema.name.as_str()), from) {
        return Err(Stop::Refused(Refusal::TRIMMED));
    }
    iterator_reply(alloc, schema, from)
}

/// Why the body alone is refused.
fn unfit(body: &Map<String, Value>) -> Result<(), Stop>
    ensures tested { Tested (of_body (members_view body.now.entries)) result }
{
    if let Some(broken) = bodies::get_shard_iterator(body) {
        return Err(Stop::Refused(Refusal::from(broken)));
    }
    if !is_placed(body) {
        return Err(Stop::Refused(Refusal::BAD_STREAM_ARGUMENT));
    }
    Ok(())
}

/// Whether the shard is that of the stream, and the number is one.
fn is_placed(body: &Map<String, Value>) -> bool
    ensures { result ≡ (may_be_shard (codes "ShardId") (members_view body.now.entries)
        && is_numbered (members_view body.now.entries)) }
{
    may_be_shard(body, "ShardId") && is_numbered(body)
}

/// Whether a number that is given has its form, and one that is needed is given.
fn is_numbered(body: &Map<String, Value>) -> bool
    ensures { result ≡ is_numbered (members_view body.now.entries) }
{
    if given(body, "SequenceNumber").is_some() {
        number_given(body).is_some()
    } else {
        !(is_kind(body, "AT_SEQUENCE_NUMBER") || is_kind(body, "AFTER_SEQUENCE_NUMBER"))
    }
}

/// The number that is given.
fn number_given(body: &Map<String, Value>) -> Option<u64>
    ensures number { result ≡ number_given (members_view body.now.entries) }
    ensures small { IfSome result (λ n. n < 2 ^ 62) }
{
    sequence_number(text_at(body, "SequenceNumber").unwrap_or(""))
}

/// Whether the iterator is of that kind.
fn is_kind(body: &Map<String, Value>, word: &str) -> bool
    ensures { result ≡ is_kind word.now (members_view body.now.entries) }
{
    asks(body, "ShardIteratorType", word)
}

/// The first number of the changes that are meant, where the next write has that number.
fn starts(next: u64, body: &Map<String, Value>) -> u64
    ensures starts { (s : State) → s.next_number ≡ next
        → result ≡ starts s (members_view body.now.entries) }
{
    if is_kind(body, "TRIM_HORIZON") {
        0
    } else if is_kind(body, "LATEST") {
        next
    } else if is_kind(body, "AT_SEQUENCE_NUMBER") {
        number_given(body).unwrap_or(0)
    } else {
        number_given(body).unwrap_or(0) + 1
    }
}

/// The reply with the iterator of a table's stream at a number.
fn iterator_reply(alloc: Global, schema: &TableSchema, from: u64) -> Result<Reply, Stop>
    ensures reply { IfOk result (λ reply. answer_of reply ≡ answers (codes "ShardIterator")
        (string (iterator_text (iterator_at schema.now from)))) }
    ensures plain { IfOk result (λ reply. has_float (body_json reply.body) ≡ false) }
    ensures cause { IfErr result IsMemory }
{
    match iterator_member(alloc, schema, from) {
        Ok(reply) => Ok(reply),
        Err(_) => Err(Stop::Fault(TableFault::NoMemory)),
    }
}

fn iterator_member(alloc: Global, schema: &TableSchema, from: u64) -> Result<Reply, NoMemory>
    ensures reply { IfOk result (λ reply. answer_of reply ≡ answers (codes "ShardIterator")
        (string (iterator_text (iterator_at schema.now from)))) }
    ensures plain { IfOk result (λ reply. has_float (body_json reply.body) ≡ false) }
{
    let text = iterator_text(alloc, schema, from)?;
    let text = Value::String(String::from_str(alloc, text.as_str())?);
    one_member(alloc, "ShardIterator", text)
}
