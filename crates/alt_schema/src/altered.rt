//! The description of a table to which a global index is added, or from which one is taken (API Reference, "UpdateTable").

ghost use Rattle.std.specs.List.{filter};
ghost use Rattle.std.specs.Prelude.{◌≡◌, ◌++◌, map, Ok, Err, IfOk, OnOk, None, IfErr, not, List};
ghost use Rattle.serde_json.specs.View.{members_view};
ghost use Rattle.alt_schema.specs.Altered.{definitions_fit, definitions_with, key_schema_elements, stated_index, stated_with, with_index, without_index, word_of, included_names, IsFaultOf, refused_with, refused_without};
ghost use Rattle.alt_schema.specs.Described.{IsKnownFault};
ghost use Rattle.alt_description.specs.Indexes.{is_named, is_used};
ghost use Rattle.alt_schema.specs.Rules.{is_defined};
ghost use Rattle.alt_schema.specs.Stated.{definitions_of, index_in};
ghost use Rattle.alt_description.specs.declared.schema.KeyAttr.{KeyAttr};

use crate::described::{SchemaFault, index_for};
use crate::reading::{definitions_of, index_in};
use crate::rules::{indexes_fit, keys_fit_together};
use crate::stated::{Element, ElementList, Stated, StatedIndex, StatedIndexList};
use crate::used::{definitions_fit, is_defined, is_used};
use alt_base::NoMemory;
use alt_description::{
    Built, IndexList, IndexSchema, KeyAttr, KeyAttrList, Projection, TableSchema, TextList,
    copied_index, copied_key, copied_keys, copied_schema, copied_texts,
};
use alt_shape::Refusal;
use alt_value::Text;
use serde_json::{Map, Value};
use std::alloc::Global;

/// The description with the index that `create` states, which has that family and of which nothing is built, and with the definitions of
/// the body whose names it lacks. Refused where a definition of the body doesn't fit or the keys aren't good, and then where an index isn't.
pub fn with_index(
    alloc: Global,
    s: &TableSchema,
    body: &Map<String, Value>,
    create: &Map<String, Value>,
    family: u32,
) -> Result<TableSchema, SchemaFault>
    ensures taken { OnOk result (refused_with s.now
        (definitions_of (members_view body.now.entries)) family
        (index_in (members_view create.now.entries)) ≡ None) }
    ensures described { IfOk result (λ e. e ≡ with_index s.now
        (definitions_of (members_view body.now.entries)) family
        (index_in (members_view create.now.entries))) }
    ensures cause { IfErr result (IsFaultOf (refused_with s.now
        (definitions_of (members_view body.now.entries)) family
        (index_in (members_view create.now.entries)))) }
    ensures known { IfErr result IsKnownFault }
{
    let more = definitions_of(alloc, body)?;
    let index = index_in(alloc, create)?;
    let later = later_with(alloc, s, more.as_slice(), family, &index)?;
    if !definitions_fit(s, &later, more.as_slice()) {
        return Err(SchemaFault::Refused(Refusal::BAD_KEY_SCHEMA));
    }
    let stated = stated_with(alloc, s, later.definitions.as_slice(), index)?;
    if !keys_fit_together(alloc, &stated)? {
        return Err(SchemaFault::Refused(Refusal::BAD_KEY_SCHEMA));
    }
    if !indexes_fit(&stated) {
        return Err(SchemaFault::Refused(Refusal::BAD_INDEX));
    }
    Ok(later)
}

/// The description without the global index of that name, and without the definitions that no key uses then. Refused where a definition of
/// the body doesn't fit.
pub fn without_index(
    alloc: Global,
    s: &TableSchema,
    body: &Map<String, Value>,
    name: &str,
) -> Result<TableSchema, SchemaFault>
    ensures taken { OnOk result (refused_without s.now
        (definitions_of (members_view body.now.entries)) name.now ≡ None) }
    ensures described { IfOk result (λ e. e ≡ without_index s.now name.now) }
    ensures cause { IfErr result (IsFaultOf (refused_without s.now
        (definitions_of (members_view body.now.entries)) name.now)) }
    ensures known { IfErr result IsKnownFault }
{
    let more = definitions_of(alloc, body)?;
    let later = later_without(alloc, s, name)?;
    if !definitions_fit(s, &later, more.as_slice()) {
        return Err(SchemaFault::Refused(Refusal::BAD_KEY_SCHEMA));
    }
    Ok(later)
}

/// Whether the definitions of the body fit a description that stays as it is.
pub fn fits_definitions(
    alloc: Global,
    s: &TableSchema,
    body: &Map<String, Value>,
) -> Result<bool, NoMemory>
    ensures fit { IfOk result (λ fit. fit ≡ definitions_fit s.now s.now
        (definitions_of (members_view body.now.entries))) }
{
    let more = definitions_of(alloc, body)?;
    Ok(definitions_fit(s, s, more.as_slice()))
}

// ---- an index more

fn later_with(
    alloc: Global,
    s: &TableSchema,
    more: &[KeyAttr],
    family: u32,
    index: &StatedIndex,
) -> Result<TableSchema, NoMemory>
    ensures { IfOk result (λ e. e ≡ with_index s.now more.now family index.now) }
{
    let mut later = copied_schema(alloc, s)?;
    add_definitions(&mut later.definitions, more, s.definitions.as_slice())?;
    let mut added = index_for(alloc, later.definitions.as_slice(), family, index)?;
    added.built = Built::UpTo(None);
    later.globals.push(added)?;
    Ok(later)
}

/// Puts the definitions whose names those lack behind a list.
fn add_definitions(
    list: &mut KeyAttrList,
    more: &[KeyAttr],
    those: &[KeyAttr],
) -> Result<(), NoMemory>
    ensures added { OnOk result (list.new
        ≡ list.old ++ filter (λ a. not (is_defined those.now a.name)) more.now) }
{
    for definition in more {
        if !is_defined(those, definition.name.as_str()) {
            list.push(copied_key(definition)?)?;
        }
    }
    Ok(())
}

/// The table with an index more, as a CreateTable would state it.
fn stated_with(
    alloc: Global,
    s: &TableSchema,
    definitions: &[KeyAttr],
    index: StatedIndex,
) -> Result<Stated, NoMemory>
    ensures stated { (more : List KeyAttr) → definitions.now ≡ definitions_with s.now more
        → IfOk result (λ b. b ≡ stated_with s.now more index) }
{
    let locals = stated_indexes(alloc, s.locals.as_slice())?;
    let mut globals = stated_indexes(alloc, s.globals.as_slice())?;
    globals.push(index)?;
    Ok(Stated {
        name: s.name.copy()?,
        keys: elements_of(alloc, &s.hash, &s.range)?,
        definitions: copied_keys(alloc, definitions)?,
        locals,
        globals,
        view: s.view,
    })
}

fn stated_indexes(alloc: Global, indexes: &[IndexSchema]) -> Result<StatedIndexList, NoMemory>
    ensures { IfOk result (λ is. is ≡ map stated_index indexes.now) }
{
    let mut list = StatedIndexList::new(alloc);
    for index in indexes {
        list.push(stated_index(alloc, index)?)?;
    }
    Ok(list)
}

fn stated_index(alloc: Global, index: &IndexSchema) -> Result<StatedIndex, NoMemory>
    ensures { IfOk result (λ i. i ≡ stated_index index.now) }
{
    Ok(StatedIndex {
        name: index.name.copy()?,
        keys: elements_of(alloc, &index.hash, &index.range)?,
        projects: Text::new(alloc, word_of(&index.projection))?,
        includes: names_of(alloc, &index.projection)?,
    })
}

/// The elements of a key schema.
fn elements_of(
    alloc: Global,
    hash: &KeyAttr,
    range: &Option<KeyAttr>,
) -> Result<ElementList, NoMemory>
    ensures { IfOk result (λ es. es ≡ key_schema_elements hash.now range.now) }
{
    let mut list = ElementList::new(alloc);
    list.push(element(alloc, hash, "HASH")?)?;
    if let Some(range) = range {
        list.push(element(alloc, range, "RANGE")?)?;
    }
    Ok(list)
}

fn element(alloc: Global, key: &KeyAttr, role: &str) -> Result<Element, NoMemory>
    ensures { IfOk result (λ e. (e.name ≡ key.now.name) × (e.role ≡ role.now)) }
{
    Ok(Element {
        name: key.name.copy()?,
        role: Text::new(alloc, role)?,
    })
}

/// The word of a projection.
fn word_of(projection: &Projection) -> &'static str
    ensures { result.now ≡ word_of projection.now }
{
    match projection {
        Projection::All => "ALL",
        Projection::KeysOnly => "KEYS_ONLY",
        Projection::Include(_) => "INCLUDE",
    }
}

/// The names that it includes.
fn names_of(alloc: Global, projection: &Projection) -> Result<Option<TextList>, NoMemory>
    ensures { IfOk result (λ ns. ns ≡ included_names projection.now) }
{
    match projection {
        Projection::All => Ok(None),
        Projection::KeysOnly => Ok(None),
        Projection::Include(names) => Ok(Some(copied_texts(alloc, names.as_slice())?)),
    }
}

// ---- an index less

fn later_without(alloc: Global, s: &TableSchema, name: &str) -> Result<TableSchema, NoMemory>
    ensures { IfOk result (λ e. e ≡ without_index s.now name.now) }
{
    let mut later = copied_schema(alloc, s)?;
    later.globals = others(alloc, s.globals.as_slice(), name)?;
    later.definitions = used_definitions(alloc, &later)?;
    Ok(later)
}

/// The indexes of other names.
fn others(alloc: Global, indexes: &[IndexSchema], name: &str) -> Result<IndexList, NoMemory>
    ensures { IfOk result (λ is. is ≡ filter (λ i. not (is_named name.now i)) indexes.now) }
{
    let mut list = IndexList::new(alloc);
    for index in indexes {
        if index.name.as_str() != name {
            list.push(copied_index(alloc, index)?)?;
        }
    }
    Ok(list)
}

/// The definitions that a key uses.
fn used_definitions(alloc: Global, s: &TableSchema) -> Result<KeyAttrList, NoMemory>
    ensures { IfOk result (λ ds. ds ≡ filter (λ a. is_used s.now a.name) s.now.definitions) }
{
    let mut list = KeyAttrList::new(alloc);
    for definition in s.definitions.as_slice() {
        if is_used(s, definition.name.as_str()) {
            list.push(copied_key(definition)?)?;
        }
    }
    Ok(list)
}
