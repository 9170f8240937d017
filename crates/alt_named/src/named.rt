//! A body of which the members of some names are read.

ghost use Rattle.std.specs.Prelude.{◌≡◌, ◌∷◌, ◌<◌, length, map, Some, None, IfOk, OnOk, option_and_then, option_map};
ghost use Rattle.std.specs.List.{list_any};
ghost use Rattle.std.specs.Str.{bytes_eq};
ghost use Rattle.json.specs.Json.{value, members};
ghost use Rattle.json.specs.Reads.{token_of};
ghost use Rattle.json.specs.Token as token;
ghost use Rattle.serde_json.specs.Data.{Data, Members, no_members, object, put};
ghost use Rattle.serde_json.specs.Find.{as_object};
ghost use Rattle.serde_json.specs.Read.{of_json, of_members, converted, read};
ghost use Rattle.serde_json.specs.View.{members_view};
ghost use Rattle.alt_named.specs.Named.{AreSame, SaysNamed, body_of, is_among};
ghost use Rattle.alt_named.specs.Parts.{IsRefused, is_brace, object_of};

use crate::passing::pass;
use crate::trees::tree;
use crate::unread::Unread;
use alt_base::NoMemory;
use json::{Reader, Scratch, Token};
use serde_json::{Map, Value};
use simdutf8::basic::from_utf8;
use std::alloc::Global;

/// How many arrays and objects may stand within one another in a member, as `serde_json` has it: 127 in the body.
const LEVELS: usize = 126;

/// The members of these names, where the body is text in UTF-8 of one object. Others are told apart from what is no JSON, and cost nothing.
/// The text is read by means of `scratch`, which is kept from body to body and changes nothing of what is read.
pub fn read_named(
    alloc: Global,
    scratch: &mut Scratch<Global>,
    names: &[&str],
    bytes: &[u8],
) -> Result<Option<Map<String, Value>>, NoMemory>
    ensures named { IfOk result (λ o. SaysNamed (map (λ w. w.now) names.now) (body_of bytes.now)
        (option_map (λ m. members_view m.entries) o)) }
{
    match from_utf8(bytes) {
        Ok(text) => of_text(alloc, scratch, names, text),
        Err(_) => Ok(None),
    }
}

/// The same of a text.
fn of_text(
    alloc: Global,
    scratch: &mut Scratch<Global>,
    names: &[&str],
    text: &str,
) -> Result<Option<Map<String, Value>>, NoMemory>
    ensures named { IfOk result (λ o. SaysNamed (map (λ w. w.now) names.now)
        (option_and_then as_object (read text.now)) (option_map (λ m. members_view m.entries) o)) }
{
    match text_named(alloc, scratch, names, text) {
        Ok(found) => Ok(Some(found)),
        Err(Unread::Refused) => Ok(None),
        Err(Unread::NoMemory) => Err(NoMemory),
    }
}

/// The same of a text that is an object.
fn text_named(
    alloc: Global,
    scratch: &mut Scratch<Global>,
    names: &[&str],
    text: &str,
) -> Result<Map<String, Value>, Unread>
    ensures named { IfOk result (λ m. (ms : Members) × (read text.now ≡ Some (object ms))
        × AreSame (map (λ w. w.now) names.now) ms (members_view m.entries)) }
    ensures refused { IsRefused result → option_and_then as_object (read text.now) ≡ None }
{
    let mut reader = Reader::new(text, scratch)?;
    open_object(&mut reader)?;
    let found = members_named(alloc, names, &mut reader)?;
    match reader.next() {
        Some(_) => Err(Unread::Refused),
        None => Ok(found),
    }
}

/// Passes the brace that opens an object.
fn open_object(reader: &mut Reader<'_>) -> Result<(), Unread>
    ensures passed { OnOk result (reader.old ≡ token.begin_object ∷ reader.new) }
    ensures refused { IsRefused result → object_of reader.old ≡ None }
{
    let token = reader.next().ok_or(Unread::Refused)?;
    if is_brace(&token) {
        Ok(())
    } else {
        Err(Unread::Refused)
    }
}

fn is_brace(token: &Token<'_>) -> bool
    ensures { result ≡ is_brace (token_of token.now) }
{
    match token {
        Token::BeginObject => true,
        _ => false,
    }
}

/// The members of these names, of the tokens behind the first brace.
fn members_named(
    alloc: Global,
    names: &[&str],
    reader: &mut Reader<'_>,
) -> Result<Map<String, Value>, Unread>
    ensures named { IfOk result (λ m. (ms : Members)
        × (converted (λ os. of_members os no_members)
        (members (value 126) (length reader.old) reader.old) ≡ Some (ms, reader.new))
        × AreSame (map (λ w. w.now) names.now) ms (members_view m.entries)) }
    ensures refused { IsRefused result → converted (λ os. of_members os no_members)
        (members (value 126) (length reader.old) reader.old) ≡ None }
{
    let mut found = Map::new(alloc);
    'members: while let Some(name) = reader.next_key()? {
        member_named(alloc, names, reader, name, &mut found)?;
    }
    Ok(found)
}

/// Reads the member of a name, or reads past it.
fn member_named(
    alloc: Global,
    names: &[&str],
    reader: &mut Reader<'_>,
    name: &str,
    found: &mut Map<String, Value>,
) -> Result<(), Unread>
    ensures member { OnOk result ((d : Data)
        × (converted of_json (value 126 reader.old) ≡ Some (d, reader.new))
        × ((ms : Members)
        → AreSame (map (λ w. w.now) names.now) ms (members_view found.old.entries)
        → AreSame (map (λ w. w.now) names.now) (put name.now d ms)
        (members_view found.new.entries))) }
    ensures shorter { OnOk result (length reader.new < length reader.old) }
    ensures refused { IsRefused result → converted of_json (value 126 reader.old) ≡ None }
{
    if !is_among(names, name) {
        pass(reader, LEVELS)?;
        return Ok(());
    }
    let key = String::from_str(alloc, name)?;
    let member = tree(alloc, reader, LEVELS)?;
    drop(found.insert(key, member)?);
    Ok(())
}

/// Whether a name is one of those.
#[tactic(auto, using(crate::proofs::Words::is_among_map))]
pub fn is_among(names: &[&str], name: &str) -> bool
    ensures { result ≡ is_among (map (λ w. w.now) names.now) name.now }
{
    any_equals(names, name)
}

fn any_equals(names: &[&str], name: &str) -> bool
    ensures { result ≡ list_any (λ w. bytes_eq w.now name.now) names.now }
{
    names.iter().any(|word| *word == name)
}
