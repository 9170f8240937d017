//! What a reply says: a JSON tree, or an object of members, of which items are written without a tree.

ghost use Rattle.std.specs.Prelude.{◌≡◌, ◌++◌, false, IfOk, OnOk, string_bytes};
ghost use Rattle.std.specs.List.{flat_map};
ghost use Rattle.serde_json.specs.Data.{object, array};
ghost use Rattle.serde_json.specs.Written.{has_float, compact_text, outline};
ghost use Rattle.json.specs.Tree.{json_tokens};
ghost use Rattle.alt_shape.specs.Body.{body_json, items_json, members_json, part_json, tables_json};
ghost use Rattle.alt_shape.specs.Pieces.{item_tokens, member_tokens, table_tokens};

use crate::object::{Object, write_list};
use alt_base::NoMemory;
use alt_codec::write_item;
use alt_value::{Item, Text};
use json::Writer;
use serde_json::Value;
use std::alloc::Global;

/// The body of a reply.
#[derive(Drop)]
pub enum Body {
    /// A JSON tree.
    Tree(Value),
    /// An object of these members, in this order: their names are to rise by their bytes, as those of a tree do.
    Members(Vec<Member>),
}

/// A member of a reply.
#[derive(Drop)]
pub struct Member {
    pub name: &'static str,
    pub value: Part,
}

/// What stands at a member of a reply.
#[derive(Drop)]
pub enum Part {
    Text(&'static str),
    Owned(String),
    Count(u64),
    Item(Item),
    Items(Vec<Item>),
    /// An object of these tables, in this order: their names are to rise by their bytes too.
    Tables(Vec<TableItems>),
    /// A list of these objects.
    Objects(Vec<Object>),
}

/// A table with items of it.
#[derive(Drop)]
pub struct TableItems {
    pub table: Text,
    pub items: Vec<Item>,
}

impl Body {
    /// The text of the body, without a space. Members need no memory but that of the text.
    pub fn to_string(&self, alloc: Global) -> Result<String, NoMemory>
        ensures text { IfOk result (λ s. has_float (body_json self.now) ≡ false
            → string_bytes s ≡ compact_text (body_json self.now)) }
    {
        match self {
            Body::Tree(value) => Ok(value.to_string(alloc)?),
            Body::Members(members) => text_of(alloc, members.as_slice()),
        }
    }
}

/// The text of an object of these members.
fn text_of(alloc: Global, members: &[Member]) -> Result<String, NoMemory>
    ensures { IfOk result (λ s. string_bytes s
        ≡ compact_text (object (members_json members.now))) }
{
    let mut out = Writer::new(Vec::with_capacity(alloc, 256)?);
    out.begin_object()?;
    write_members(alloc, &mut out, members)?;
    out.end_object()?;
    match String::from_utf8(out.into_inner()) {
        Ok(text) => Ok(text),
        Err(_) => unreachable!(),
    }
}

fn write_members(alloc: Global, out: &mut Writer, members: &[Member]) -> Result<(), NoMemory>
    ensures written { OnOk result (out.new.tokens
        ≡ out.old.tokens ++ flat_map member_tokens members.now) }
    ensures before { out.new.before ≡ out.old.before }
{
    for member in members {
        out.key(member.name)?;
        write_part(alloc, out, &member.value)?;
    }
    Ok(())
}

fn write_part(alloc: Global, out: &mut Writer, part: &Part) -> Result<(), NoMemory>
    ensures written { OnOk result (out.new.tokens
        ≡ out.old.tokens ++ json_tokens (outline (part_json part.now))) }
    ensures before { out.new.before ≡ out.old.before }
{
    match part {
        Part::Text(text) => Ok(out.string(text)?),
        Part::Owned(text) => Ok(out.string(text.as_str())?),
        Part::Count(number) => Ok(out.u64(*number)?),
        Part::Item(item) => write_item(alloc, out, item),
        Part::Items(items) => write_array(alloc, out, items.as_slice()),
        Part::Tables(tables) => write_object(alloc, out, tables.as_slice()),
        Part::Objects(objects) => write_list(alloc, out, objects.as_slice()),
    }
}

fn write_array(alloc: Global, out: &mut Writer, items: &[Item]) -> Result<(), NoMemory>
    ensures written { OnOk result (out.new.tokens
        ≡ out.old.tokens ++ json_tokens (outline (array (items_json items.now)))) }
    ensures before { out.new.before ≡ out.old.before }
{
    out.begin_array()?;
    write_items(alloc, out, items)?;
    Ok(out.end_array()?)
}

fn write_items(alloc: Global, out: &mut Writer, items: &[Item]) -> Result<(), NoMemory>
    ensures written { OnOk result (out.new.tokens
        ≡ out.old.tokens ++ flat_map item_tokens items.now) }
    ensures before { out.new.before ≡ out.old.before }
{
    for item in items {
        write_item(alloc, out, item)?;
    }
    Ok(())
}

/// An object of these tables, each an array of its items.
fn write_object(alloc: Global, out: &mut Writer, tables: &[TableItems]) -> Result<(), NoMemory>
    ensures written { OnOk result (out.new.tokens
        ≡ out.old.tokens ++ json_tokens (outline (object (tables_json tables.now)))) }
    ensures before { out.new.before ≡ out.old.before }
{
    out.begin_object()?;
    write_tables(alloc, out, tables)?;
    Ok(out.end_object()?)
}

fn write_tables(alloc: Global, out: &mut Writer, tables: &[TableItems]) -> Result<(), NoMemory>
    ensures written { OnOk result (out.new.tokens
        ≡ out.old.tokens ++ flat_map table_tokens tables.now) }
    ensures before { out.new.before ≡ out.old.before }
{
    for table in tables {
        out.key(table.table.as_str())?;
        write_array(alloc, out, table.items.as_slice())?;
    }
    Ok(())
}
