//! An object of a list that a reply holds. Its values are plain, or objects of plain values.

ghost use Rattle.std.specs.Prelude.{◌≡◌, ◌++◌, OnOk};
ghost use Rattle.std.specs.List.{flat_map};
ghost use Rattle.serde_json.specs.Data.{object, array};
ghost use Rattle.serde_json.specs.Written.{outline};
ghost use Rattle.json.specs.Tree.{json_tokens};
ghost use Rattle.alt_shape.specs.Objects.{entries_json, fields_json, inner_json, leaf_json, objects_json};
ghost use Rattle.alt_shape.specs.ObjectPieces.{entry_tokens, field_tokens, object_tokens};

use alt_base::NoMemory;
use alt_codec::write_item;
use alt_value::Item;
use json::Writer;
use std::alloc::Global;

/// An object of these entries, in this order: their names are to rise by their bytes, and so at each level.
#[derive(Drop)]
pub struct Object {
    pub entries: Vec<Entry>,
}

/// A member of such an object.
#[derive(Drop)]
pub struct Entry {
    pub name: &'static str,
    pub value: Inner,
}

/// What stands at an entry.
#[derive(Drop)]
pub enum Inner {
    Leaf(Leaf),
    Fields(Vec<Field>),
}

/// A member of an object inside.
#[derive(Drop)]
pub struct Field {
    pub name: &'static str,
    pub value: Leaf,
}

/// A plain value.
#[derive(Drop)]
pub enum Leaf {
    Word(&'static str),
    Text(String),
    Count(u64),
    Item(Item),
}

/// Writes a list of objects.
pub(crate) fn write_list(
    alloc: Global,
    out: &mut Writer,
    objects: &[Object],
) -> Result<(), NoMemory>
    ensures written { OnOk result (out.new.tokens
        ≡ out.old.tokens ++ json_tokens (outline (array (objects_json objects.now)))) }
    ensures before { out.new.before ≡ out.old.before }
{
    out.begin_array()?;
    write_objects(alloc, out, objects)?;
    Ok(out.end_array()?)
}

fn write_objects(alloc: Global, out: &mut Writer, objects: &[Object]) -> Result<(), NoMemory>
    ensures written { OnOk result (out.new.tokens
        ≡ out.old.tokens ++ flat_map object_tokens objects.now) }
    ensures before { out.new.before ≡ out.old.before }
{
    for object in objects {
        write_entries(alloc, out, object.entries.as_slice())?;
    }
    Ok(())
}

fn write_entries(alloc: Global, out: &mut Writer, entries: &[Entry]) -> Result<(), NoMemory>
    ensures written { OnOk result (out.new.tokens
        ≡ out.old.tokens ++ json_tokens (outline (object (entries_json entries.now)))) }
    ensures before { out.new.before ≡ out.old.before }
{
    out.begin_object()?;
    entries_inside(alloc, out, entries)?;
    Ok(out.end_object()?)
}

fn entries_inside(alloc: Global, out: &mut Writer, entries: &[Entry]) -> Result<(), NoMemory>
    ensures written { OnOk result (out.new.tokens
        ≡ out.old.tokens ++ flat_map entry_tokens entries.now) }
    ensures before { out.new.before ≡ out.old.before }
{
    for entry in entries {
        out.key(entry.name)?;
        write_inner(alloc, out, &entry.value)?;
    }
    Ok(())
}

fn write_inner(alloc: Global, out: &mut Writer, inner: &Inner) -> Result<(), NoMemory>
    ensures written { OnOk result (out.new.tokens
        ≡ out.old.tokens ++ json_tokens (outline (inner_json inner.now))) }
    ensures before { out.new.before ≡ out.old.before }
{
    match inner {
        Inner::Leaf(leaf) => write_leaf(alloc, out, leaf),
        Inner::Fields(fields) => write_fields(alloc, out, fields.as_slice()),
    }
}

fn write_fields(alloc: Global, out: &mut Writer, fields: &[Field]) -> Result<(), NoMemory>
    ensures written { OnOk result (out.new.tokens
        ≡ out.old.tokens ++ json_tokens (outline (object (fields_json fields.now)))) }
    ensures before { out.new.before ≡ out.old.before }
{
    out.begin_object()?;
    fields_inside(alloc, out, fields)?;
    Ok(out.end_object()?)
}

fn fields_inside(alloc: Global, out: &mut Writer, fields: &[Field]) -> Result<(), NoMemory>
    ensures written { OnOk result (out.new.tokens
        ≡ out.old.tokens ++ flat_map field_tokens fields.now) }
    ensures before { out.new.before ≡ out.old.before }
{
    for field in fields {
        out.key(field.name)?;
        write_leaf(alloc, out, &field.value)?;
    }
    Ok(())
}

fn write_leaf(alloc: Global, out: &mut Writer, leaf: &Leaf) -> Result<(), NoMemory>
    ensures written { OnOk result (out.new.tokens
        ≡ out.old.tokens ++ json_tokens (outline (leaf_json leaf.now))) }
    ensures before { out.new.before ≡ out.old.before }
{
    match leaf {
        Leaf::Word(word) => Ok(out.string(word)?),
        Leaf::Text(text) => Ok(out.string(text.as_str())?),
        Leaf::Count(number) => Ok(out.u64(*number)?),
        Leaf::Item(item) => write_item(alloc, out, item),
    }
}
