//! Values and items, read straight from the tokens of a body, without a tree. What is spelled in any but the plainest way isn't
//! read so: the tree says then what it stands for, or why it stands for nothing.

ghost use Rattle.std.specs.Prelude.{◌<◌, length, IfOk, OnOk};
ghost use Rattle.alt_value.specs.Stands.{tree_of};
ghost use Rattle.alt_codec.specs.Reading.{value_in, payload_in, list_in, map_in};
ghost use Rattle.alt_readahead.specs.Direct.{ReadsItem, ReadsValue};
ghost use Rattle.alt_readahead.specs.Payloads.{ReadsBy, ReadsElements, ReadsFields};

use crate::flat_ahead::{binary_value, null_value, number_value, text_value, truth_value};
use crate::sets_ahead::{binaries_value, numbers_value, texts_value};
use crate::tokens::{Unread, close_object, name, open_array, open_object};
use alt_value::{Attr, AttrList, Item, ItemBuilder};
use json::Reader;
use std::alloc::Global;

/// How deep lists and maps may nest.
const LEVELS: u32 = 32;

/// The item that the next JSON stands for, with so many levels of JSON left.
pub(crate) fn item_ahead(
    alloc: Global,
    reader: &mut Reader<'_>,
    depth: usize,
) -> Result<Item, Unread>
    ensures item { IfOk result (λ i. ReadsItem depth reader.old i reader.new) }
    ensures shorter { OnOk result (length reader.new < length reader.old) }
{
    if depth == 0 {
        return Err(Unread::Otherwise);
    }
    open_object(reader)?;
    fields_at(alloc, reader, depth - 1, LEVELS)
}

/// A value: an object whose one member is named by the kind. Its payload may be an array or an object.
#[cycle(direct)]
fn value_at(alloc: Global, reader: &mut Reader<'_>, depth: usize, room: u32) -> Result<Attr, Unread>
    ensures value { IfOk result (λ a. ReadsValue depth room reader.old (tree_of a) reader.new) }
{
    if depth < 2 {
        return Err(Unread::Otherwise);
    }
    open_object(reader)?;
    let kind = name(reader)?;
    let value = payload_at(alloc, reader, depth - 1, room, kind)?;
    close_object(reader)?;
    Ok(value)
}

/// The value of a kind's name, of which the payload comes next.
#[cycle(direct)]
fn payload_at(
    alloc: Global,
    reader: &mut Reader<'_>,
    depth: usize,
    room: u32,
    kind: &str,
) -> Result<Attr, Unread>
    requires { 0 < depth }
    ensures value { IfOk result
        (λ a. ReadsBy (payload_in room kind.now) depth reader.old (tree_of a) reader.new) }
{
    match kind {
        "S" => text_value(alloc, reader),
        "N" => number_value(reader),
        "M" => map_at(alloc, reader, depth, room),
        "L" => list_at(alloc, reader, depth, room),
        "BOOL" => truth_value(reader),
        "B" => binary_value(alloc, reader),
        "NULL" => null_value(reader),
        "SS" => texts_value(alloc, reader, depth),
        "NS" => numbers_value(alloc, reader, depth),
        "BS" => binaries_value(alloc, reader, depth),
        _ => Err(Unread::Otherwise),
    }
}

#[cycle(direct)]
fn list_at(alloc: Global, reader: &mut Reader<'_>, depth: usize, room: u32) -> Result<Attr, Unread>
    requires { 0 < depth }
    ensures value { IfOk result
        (λ a. ReadsBy (list_in room) depth reader.old (tree_of a) reader.new) }
{
    if room == 0 {
        return Err(Unread::Otherwise);
    }
    open_array(reader)?;
    let elements = elements_at(alloc, reader, depth - 1, room - 1)?;
    Ok(Attr::L(elements))
}

#[cycle(direct)]
fn elements_at(
    alloc: Global,
    reader: &mut Reader<'_>,
    depth: usize,
    room: u32,
) -> Result<AttrList, Unread>
    ensures elements { IfOk result
        (λ l. ReadsElements (value_in room) depth reader.old l reader.new) }
{
    let mut elements = AttrList::new(alloc);
    'elements: while !reader.take_end_array() {
        let element = value_at(alloc, reader, depth, room)?;
        elements.push(element)?;
    }
    Ok(elements)
}

#[cycle(direct)]
fn map_at(alloc: Global, reader: &mut Reader<'_>, depth: usize, room: u32) -> Result<Attr, Unread>
    requires { 0 < depth }
    ensures value { IfOk result
        (λ a. ReadsBy (map_in room) depth reader.old (tree_of a) reader.new) }
{
    if room == 0 {
        return Err(Unread::Otherwise);
    }
    open_object(reader)?;
    let fields = fields_at(alloc, reader, depth - 1, room - 1)?;
    Ok(Attr::M(fields))
}

/// The pairs of an item or of a map, whose names come in any order: they take time in line with their number, but for the logarithm of
/// a sort.
#[cycle(direct)]
fn fields_at(
    alloc: Global,
    reader: &mut Reader<'_>,
    depth: usize,
    room: u32,
) -> Result<Item, Unread>
    ensures fields { IfOk result (λ i. ReadsFields depth room reader.old i reader.new) }
{
    let mut item = ItemBuilder::new(alloc);
    'fields: while let Some(name) = reader.next_key()? {
        if name.is_empty() {
            return Err(Unread::Otherwise);
        }
        let value = value_at(alloc, reader, depth, room)?;
        item.put(name, value)?;
    }
    match item.into_item() {
        Ok(item) => Ok(item),
        Err(_) => Err(Unread::NoMemory),
    }
}
