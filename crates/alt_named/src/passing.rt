//! A JSON value that is read past: what `serde_json` reads to a tree is passed, and all else is refused as it would be there.

ghost use Rattle.std.specs.Prelude.{◌≡◌, ◌<◌, length, Some, None, OnOk};
ghost use Rattle.json.specs.Json.{value, items, members};
ghost use Rattle.serde_json.specs.Data.{Data, Items, Members, no_members};
ghost use Rattle.serde_json.specs.Read.{of_json, of_items, of_members, converted};
ghost use Rattle.alt_named.specs.Parts.{IsRefused};

use crate::numbers::number_of;
use crate::unread::Unread;
use json::{Reader, Token};

/// Passes the next value, with at most `depth` arrays and objects within one another.
#[cycle(passing)]
pub fn pass(reader: &mut Reader<'_>, depth: usize) -> Result<(), Unread>
    ensures passed { OnOk result ((d : Data)
        × (converted of_json (value depth reader.old) ≡ Some (d, reader.new))) }
    ensures shorter { OnOk result (length reader.new < length reader.old) }
    ensures refused { IsRefused result → converted of_json (value depth reader.old) ≡ None }
{
    let token = reader.next().ok_or(Unread::Refused)?;
    match token {
        Token::String(_) => Ok(()),
        Token::Number(text) => match number_of(text) {
            Some(_) => Ok(()),
            None => Err(Unread::Refused),
        },
        Token::Bool(_) => Ok(()),
        Token::Null => Ok(()),
        Token::EndObject | Token::EndArray | Token::Key(_) | Token::Bad => Err(Unread::Refused),
        Token::BeginArray => {
            if depth == 0 {
                return Err(Unread::Refused);
            }
            pass_items(reader, depth - 1)?;
            Ok(())
        }
        Token::BeginObject => {
            if depth == 0 {
                return Err(Unread::Refused);
            }
            pass_members(reader, depth - 1)?;
            Ok(())
        }
    }
}

/// Passes the items of an array behind its bracket.
#[cycle(passing)]
fn pass_items(reader: &mut Reader<'_>, depth: usize) -> Result<(), Unread>
    ensures passed { OnOk result ((ds : Items)
        × (converted of_items (items (value depth) (length reader.old) reader.old)
        ≡ Some (ds, reader.new))) }
    ensures shorter { OnOk result (length reader.new < length reader.old) }
    ensures refused { IsRefused result
        → converted of_items (items (value depth) (length reader.old) reader.old) ≡ None }
{
    'items: while !reader.take_end_array() {
        pass(reader, depth)?;
    }
    Ok(())
}

/// Passes the members of an object behind its brace.
#[cycle(passing)]
fn pass_members(reader: &mut Reader<'_>, depth: usize) -> Result<(), Unread>
    ensures passed { OnOk result ((ms : Members)
        × (converted (λ os. of_members os no_members)
        (members (value depth) (length reader.old) reader.old) ≡ Some (ms, reader.new))) }
    ensures shorter { OnOk result (length reader.new < length reader.old) }
    ensures refused { IsRefused result → converted (λ os. of_members os no_members)
        (members (value depth) (length reader.old) reader.old) ≡ None }
{
    'members: while let Some(_) = reader.next_key()? {
        pass(reader, depth)?;
    }
    Ok(())
}
