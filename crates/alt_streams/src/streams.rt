//! The table whose stream has a name, and what a request says of a stream.

ghost use Rattle.std.specs.Prelude.{◌≡◌, ◌<◌, ◌^◌, ℕ, List, Some, IfOk, option_map};
ghost use Rattle.std.specs.Str.{bytes_eq};
ghost use Rattle.serde_json.specs.View.{members_view};
ghost use Rattle.alt_machine.specs.Streams.{arn_in, is_stream, may_be_shard};
ghost use Rattle.alt_machine.specs.Trimming.{is_trimmed};
ghost use Rattle.alt_schema.specs.Json.{stream_arn};
ghost use Rattle.alt_streams.specs.private.Named.{IsStreamOf, OnStream};
ghost use Rattle.alt_request.specs.TablesStands.{catalog_of};

use alt_base::NoMemory;
use alt_request::{Stop, TableFault, Tables};
use alt_schema::{TableSchema, stream_arn};
use alt_shape::{Refusal, text_at};
use serde_json::{Map, Value};
use std::alloc::Global;

/// The name of the one shard of a stream.
pub(crate) const SHARD: &str = "shardId-00000000000000000000";

/// The bytes of a stream's name before that of its table: `arn:aws:dynamodb:local:000000000000:table/`.
const FRONT: usize = 42;

/// The bytes of a stream's name behind that of its table: `/stream/` and 21 digits.
const TAIL: usize = 29;

/// The description of the table whose stream has this name, `None` exactly where there is none.
pub(crate) fn stream_named<'t>(
    alloc: Global,
    tables: &'t Tables,
    arn: &str,
) -> Result<Option<&'t TableSchema>, NoMemory>
    ensures named { IfOk result (λ o. IsStreamOf (catalog_of tables.now) arn.now
        (option_map (λ d. d.now) o)) }
{
    let Some(name) = name_in(arn) else {
        return Ok(None);
    };
    let Some(schema) = tables.table(name) else {
        return Ok(None);
    };
    if is_stream(alloc, schema, arn)? {
        Ok(Some(schema))
    } else {
        Ok(None)
    }
}

/// The description of the table whose stream has this name, or the refusal where there is none.
pub(crate) fn stream_target<'t>(
    alloc: Global,
    tables: &'t Tables,
    arn: &str,
) -> Result<&'t TableSchema, Stop>
    ensures found { OnStream (catalog_of tables.now) arn.now result }
{
    match stream_named(alloc, tables, arn) {
        Ok(Some(schema)) => Ok(schema),
        Ok(None) => Err(Stop::Refused(Refusal::NOT_FOUND)),
        Err(_) => Err(Stop::Fault(TableFault::NoMemory)),
    }
}

/// The stream of a table has this name.
fn is_stream(alloc: Global, schema: &TableSchema, arn: &str) -> Result<bool, NoMemory>
    ensures { IfOk result (λ b. b ≡ is_stream arn.now schema.now) }
{
    let named = has_name(alloc, schema, arn)?;
    Ok(schema.view.is_some() && named)
}

/// That is the name that the stream of a table has, or would have.
fn has_name(alloc: Global, schema: &TableSchema, arn: &str) -> Result<bool, NoMemory>
    ensures { IfOk result (λ b. b ≡ bytes_eq (stream_arn schema.now.name schema.now.number)
        arn.now) }
{
    let own = stream_arn(alloc, schema.name.as_str(), schema.number)?;
    Ok(own.as_str() == arn)
}

/// The name of the table in that of its stream. Of another text the answer is any part of it, or none.
fn name_in(arn: &str) -> Option<&str>
    ensures { (name : List ℕ) → (number : ℕ) → number < 2 ^ 62 → arn.now ≡ stream_arn name number
        → option_map (λ s. s.now) result ≡ Some name }
{
    let (_, rest) = arn.split_at_checked(FRONT)?;
    let (name, _) = rest.split_at_checked(rest.len().checked_sub(TAIL)?)?;
    Some(name)
}

/// The name of the stream of a request.
pub(crate) fn arn_in(body: &Map<String, Value>) -> &str
    ensures { result.now ≡ arn_in (members_view body.now.entries) }
{
    text_at(body, "StreamArn").unwrap_or("")
}

/// The member of that name, where it is there, names the shard.
pub(crate) fn may_be_shard(body: &Map<String, Value>, name: &str) -> bool
    ensures { result ≡ may_be_shard name.now (members_view body.now.entries) }
{
    match text_at(body, name) {
        Some(text) => text == SHARD,
        None => true,
    }
}

/// Whether changes from a number on were kept once, and are no longer, where those up to another one were trimmed.
pub(crate) fn is_trimmed(trimmed: u64, from: u64) -> bool
    ensures { result ≡ is_trimmed trimmed from }
{
    1 <= from && from <= trimmed
}
