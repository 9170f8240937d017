//! A body with its item read ahead: the item straight from the text, and other members, of some names, as JSON trees.

ghost use Rattle.std.specs.Prelude.{◌≡◌, ◌<◌, length, map, Some, IfOk, IfSome, OnOk};
ghost use Rattle.json.specs.Json.{value, members};
ghost use Rattle.serde_json.specs.Data.{Data, Members, no_members, put};
ghost use Rattle.serde_json.specs.Read.{of_json, of_members, converted};
ghost use Rattle.serde_json.specs.View.{view, members_view};
ghost use Rattle.alt_readahead.specs.Ahead.{AddsMember};
ghost use Rattle.alt_readahead.specs.Direct.{IsReadAhead, SaysObject};

use crate::direct::item_ahead;
use crate::tokens::{Unread, open_object};
use alt_base::NoMemory;
use alt_named::{is_among, pass, tree};
use alt_value::Item;
use json::{Reader, Scratch};
use serde_json::{Map, Value};
use simdutf8::basic::from_utf8;
use std::alloc::Global;

/// How many arrays and objects may stand within one another in a member, as `serde_json` has it: 127 in the body.
const LEVELS: usize = 126;

/// Members of a body, with an empty object in the place of the item, and the item.
#[derive(Drop)]
pub struct ReadAhead {
    pub members: Map<String, Value>,
    pub item: Item,
}

/// A body whose item is read straight from the text, with its members of these names. `None` where it has to be read the long way.
/// `scratch` is kept from body to body, and changes nothing of what is read.
pub fn read_ahead(
    alloc: Global,
    scratch: &mut Scratch<Global>,
    names: &[&str],
    bytes: &[u8],
) -> Result<Option<ReadAhead>, NoMemory>
    ensures body { IfOk result (λ o. IfSome o (λ b. (ms : Members) × SaysObject bytes.now ms
        × IsReadAhead (map (λ w. w.now) names.now) ms (members_view b.members.entries) b.item)) }
{
    let Ok(text) = from_utf8(bytes) else {
        return Ok(None);
    };
    match text_ahead(alloc, scratch, names, text) {
        Ok(body) => Ok(Some(body)),
        Err(Unread::Otherwise) => Ok(None),
        Err(Unread::NoMemory) => Err(NoMemory),
    }
}

/// The same of a text.
fn text_ahead(
    alloc: Global,
    scratch: &mut Scratch<Global>,
    names: &[&str],
    text: &str,
) -> Result<ReadAhead, Unread>
    ensures body { IfOk result (λ b. (ms : Members) × SaysObject text.now ms
        × IsReadAhead (map (λ w. w.now) names.now) ms (members_view b.members.entries) b.item) }
{
    let mut reader = Reader::new(text, scratch)?;
    open_object(&mut reader)?;
    let body = body_ahead(alloc, names, &mut reader)?;
    if reader.next().is_some() {
        return Err(Unread::Otherwise);
    }
    Ok(body)
}

/// The same of the tokens behind the first brace.
fn body_ahead(alloc: Global, names: &[&str], reader: &mut Reader<'_>) -> Result<ReadAhead, Unread>
    ensures body { IfOk result (λ b. (ms : Members)
        × (converted (λ os. of_members os no_members)
        (members (value 126) (length reader.old) reader.old) ≡ Some (ms, reader.new))
        × IsReadAhead (map (λ w. w.now) names.now) ms (members_view b.members.entries) b.item) }
{
    let mut members = Map::new(alloc);
    let mut item = None;
    'members: while let Some(name) = reader.next_key()? {
        member_ahead(alloc, names, reader, name, &mut members, &mut item)?;
    }
    match item {
        Some(item) => Ok(ReadAhead { members, item }),
        None => Err(Unread::Otherwise),
    }
}

/// Reads the member of a name, and puts it to those found, or reads past it.
fn member_ahead(
    alloc: Global,
    names: &[&str],
    reader: &mut Reader<'_>,
    name: &str,
    found: &mut Map<String, Value>,
    item: &mut Option<Item>,
) -> Result<(), Unread>
    ensures member { OnOk result ((d : Data)
        × (converted of_json (value 126 reader.old) ≡ Some (d, reader.new))
        × AddsMember (map (λ w. w.now) names.now) name.now d (members_view found.old.entries) item.old
        (members_view found.new.entries) item.new) }
    ensures shorter { OnOk result (length reader.new < length reader.old) }
{
    if name == "Item" {
        let read = item_ahead(alloc, reader, LEVELS)?;
        *item = Some(read);
        put(alloc, found, name, Value::Object(Map::new(alloc)))?;
        return Ok(());
    }
    if !is_among(names, name) {
        pass(reader, LEVELS)?;
        return Ok(());
    }
    let value = tree(alloc, reader, LEVELS)?;
    put(alloc, found, name, value)?;
    Ok(())
}

/// Puts a member to those found, in the place of one of the same name.
fn put(
    alloc: Global,
    found: &mut Map<String, Value>,
    name: &str,
    value: Value,
) -> Result<(), Unread>
    ensures put { OnOk result (members_view found.new.entries
        ≡ put name.now (view value) (members_view found.old.entries)) }
{
    let name = String::from_str(alloc, name)?;
    drop(found.insert(name, value)?);
    Ok(())
}
