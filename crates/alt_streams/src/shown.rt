//! What is shown of a stream and of its table's keys.

ghost use Rattle.std.specs.Prelude.{◌≡◌, IfOk};
ghost use Rattle.serde_json.specs.Data.{string};
ghost use Rattle.serde_json.specs.View.{view};
ghost use Rattle.alt_machine.specs.Ops.ListStreams.{stream_json};
ghost use Rattle.alt_schema.specs.Json.{key_json, key_schema_json};

use alt_base::NoMemory;
use alt_schema::{KeyAttr, TableSchema, label, stream_arn};
use serde_json::{Value, json};
use std::alloc::Global;

/// A stream in a list (Streams API Reference, "Stream").
pub(crate) fn stream_json(alloc: Global, schema: &TableSchema) -> Result<Value, NoMemory>
    ensures { IfOk result (λ v. view v ≡ stream_json schema.now) }
{
    let arn = stream_arn(alloc, schema.name.as_str(), schema.number)?;
    let label = label(alloc, schema.number)?;
    Ok(json!(in alloc; {
        "StreamArn": arn.as_str(),
        "StreamLabel": label.as_str(),
        "TableName": schema.name.as_str(),
    })?)
}

/// The keys of a table (API Reference, "KeySchemaElement").
pub(crate) fn key_schema_json(
    alloc: Global,
    hash: &KeyAttr,
    range: &Option<KeyAttr>,
) -> Result<Value, NoMemory>
    ensures { IfOk result (λ v. view v ≡ key_schema_json hash.now range.now) }
{
    let hash = key_json(alloc, "HASH", hash)?;
    match range {
        Some(range) => {
            let range = key_json(alloc, "RANGE", range)?;
            Ok(json!(in alloc; [hash, range])?)
        }
        None => Ok(json!(in alloc; [hash])?),
    }
}

fn key_json(alloc: Global, role: &str, key: &KeyAttr) -> Result<Value, NoMemory>
    ensures { IfOk result (λ v. view v ≡ key_json role.now key.now) }
{
    Ok(json!(in alloc; {"AttributeName": key.name.as_str(), "KeyType": role})?)
}

/// A text as it is shown.
pub(crate) fn text_json(alloc: Global, text: &str) -> Result<Value, NoMemory>
    ensures { IfOk result (λ v. view v ≡ string text.now) }
{
    Ok(Value::String(String::from_str(alloc, text)?))
}
