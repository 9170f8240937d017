//! A JSON value as a tree, from the tokens of a text that more is read from: it is read, or refused, as `serde_json` does with a whole text.

ghost use Rattle.std.specs.Prelude.{◌≡◌, ◌<◌, length, Some, None, IfOk, OnOk};
ghost use Rattle.json.specs.Json.{value, items, members};
ghost use Rattle.serde_json.specs.Data.{no_members};
ghost use Rattle.serde_json.specs.Read.{of_json, of_items, of_members, converted};
ghost use Rattle.serde_json.specs.View.{view, items_view, members_view};
ghost use Rattle.alt_named.specs.Parts.{IsRefused};

use crate::numbers::number_of;
use crate::unread::Unread;
use json::{Reader, Token};
use serde_json::{Map, Value};
use std::alloc::Global;

/// The next value, with at most `depth` arrays and objects within one another.
#[cycle(trees)]
pub fn tree(alloc: Global, reader: &mut Reader<'_>, depth: usize) -> Result<Value, Unread>
    ensures read { IfOk result
        (λ v. converted of_json (value depth reader.old) ≡ Some (view v, reader.new)) }
    ensures shorter { OnOk result (length reader.new < length reader.old) }
    ensures refused { IsRefused result → converted of_json (value depth reader.old) ≡ None }
{
    let token = reader.next().ok_or(Unread::Refused)?;
    match token {
        Token::String(text) => Ok(Value::String(String::from_str(alloc, text)?)),
        Token::Number(text) => match number_of(text) {
            Some(number) => Ok(Value::Number(number)),
            None => Err(Unread::Refused),
        },
        Token::Bool(b) => Ok(Value::Bool(b)),
        Token::Null => Ok(Value::Null),
        Token::EndObject | Token::EndArray | Token::Key(_) | Token::Bad => Err(Unread::Refused),
        Token::BeginArray => {
            if depth == 0 {
                return Err(Unread::Refused);
            }
            Ok(Value::Array(tree_items(alloc, reader, depth - 1)?))
        }
        Token::BeginObject => {
            if depth == 0 {
                return Err(Unread::Refused);
            }
            Ok(Value::Object(tree_members(alloc, reader, depth - 1)?))
        }
    }
}

/// The items of an array behind its bracket.
#[cycle(trees)]
fn tree_items(alloc: Global, reader: &mut Reader<'_>, depth: usize) -> Result<Vec<Value>, Unread>
    ensures read { IfOk result
        (λ v. converted of_items (items (value depth) (length reader.old) reader.old)
        ≡ Some (items_view v.items, reader.new)) }
    ensures shorter { OnOk result (length reader.new < length reader.old) }
    ensures refused { IsRefused result
        → converted of_items (items (value depth) (length reader.old) reader.old) ≡ None }
{
    let mut found = Vec::new(alloc);
    'items: while !reader.take_end_array() {
        let item = tree(alloc, reader, depth)?;
        found.push(item)?;
    }
    Ok(found)
}

/// The members of an object behind its brace.
#[cycle(trees)]
fn tree_members(
    alloc: Global,
    reader: &mut Reader<'_>,
    depth: usize,
) -> Result<Map<String, Value>, Unread>
    ensures read { IfOk result
        (λ m. converted (λ os. of_members os no_members)
        (members (value depth) (length reader.old) reader.old)
        ≡ Some (members_view m.entries, reader.new)) }
    ensures shorter { OnOk result (length reader.new < length reader.old) }
    ensures refused { IsRefused result → converted (λ os. of_members os no_members)
        (members (value depth) (length reader.old) reader.old) ≡ None }
{
    let mut found = Map::new(alloc);
    'members: while let Some(name) = reader.next_key()? {
        let key = String::from_str(alloc, name)?;
        let member = tree(alloc, reader, depth)?;
        drop(found.insert(key, member)?);
    }
    Ok(found)
}
