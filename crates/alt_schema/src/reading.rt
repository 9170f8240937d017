//! Reads what the body of a CreateTable states.

ghost use Rattle.std.specs.Prelude.{◌≡◌, ◌++◌, [], IfOk, OnOk, codes, option_map, option_and_then};
ghost use Rattle.std.specs.Option.{option_map_or};
ghost use Rattle.serde_json.specs.View.{view, items_view, members_view};
ghost use Rattle.alt_schema.specs.Stated.{stated, text_of, stated_by, stated_at, element_in, element_of, key_schema_of, kind_named, definition_in, definition_of, definitions_of, word_of, included_in, index_in, index_of, view_named, view_in, view_of};

use crate::stated::{Element, ElementList, Stated, StatedIndex, StatedIndexList};
use alt_base::NoMemory;
use alt_description::{KeyAttr, KeyAttrList, TextList, View};
use alt_shape::{array_at, field, text_at};
use alt_value::{KeyKind, Text};
use serde_json::{Map, Value};
use std::alloc::Global;

/// What a body states. A member that is absent or of another kind reads as empty.
pub fn stated_of_json(alloc: Global, body: &Map<String, Value>) -> Result<Stated, NoMemory>
    ensures whole { IfOk result (λ s. s ≡ stated (members_view body.now.entries)) }
{
    let name = text_of(alloc, body, "TableName")?;
    let keys = key_schema_of(alloc, body)?;
    let definitions = definitions_of(alloc, body)?;
    let locals = indexes_of(alloc, body, "LocalSecondaryIndexes")?;
    let globals = indexes_of(alloc, body, "GlobalSecondaryIndexes")?;
    Ok(Stated {
        name,
        keys,
        definitions,
        locals,
        globals,
        view: view_of(body),
    })
}

fn text_of(alloc: Global, owner: &Map<String, Value>, name: &str) -> Result<Text, NoMemory>
    ensures { IfOk result (λ s. s ≡ text_of name.now (members_view owner.now.entries)) }
{
    Text::new(alloc, word_at(owner, name))
}

fn word_at<'v>(owner: &'v Map<String, Value>, name: &str) -> &'v str
    ensures { result.now ≡ text_of name.now (members_view owner.now.entries) }
{
    text_at(owner, name).unwrap_or("")
}

fn key_schema_of(alloc: Global, owner: &Map<String, Value>) -> Result<ElementList, NoMemory>
    ensures { IfOk result (λ es. es ≡ key_schema_of (members_view owner.now.entries)) }
{
    match field!(owner, "KeySchema": array) {
        Some(values) => elements(alloc, values),
        None => Ok(ElementList::new(alloc)),
    }
}

#[tactic(auto, using(crate::proofs::Walks::stated_more))]
fn elements(alloc: Global, values: &[Value]) -> Result<ElementList, NoMemory>
    ensures { IfOk result (λ es. es ≡ stated_by element_of (items_view values.now)) }
{
    let mut list = ElementList::new(alloc);
    for value in values {
        push_element(alloc, &mut list, value)?;
    }
    Ok(list)
}

fn push_element(alloc: Global, list: &mut ElementList, value: &Value) -> Result<(), NoMemory>
    ensures { OnOk result (list.new ≡ list.old ++ element_of (view value.now)) }
{
    match value.as_object() {
        Some(members) => list.push(element_in(alloc, members)?),
        None => Ok(()),
    }
}

fn element_in(alloc: Global, members: &Map<String, Value>) -> Result<Element, NoMemory>
    ensures { IfOk result (λ e. e ≡ element_in (members_view members.now.entries)) }
{
    Ok(Element {
        name: text_of(alloc, members, "AttributeName")?,
        role: text_of(alloc, members, "KeyType")?,
    })
}

pub(crate) fn definitions_of(
    alloc: Global,
    owner: &Map<String, Value>,
) -> Result<KeyAttrList, NoMemory>
    ensures { IfOk result (λ ds. ds ≡ definitions_of (members_view owner.now.entries)) }
{
    match field!(owner, "AttributeDefinitions": array) {
        Some(values) => definitions(alloc, values),
        None => Ok(KeyAttrList::new(alloc)),
    }
}

#[tactic(auto, using(crate::proofs::Walks::stated_more))]
fn definitions(alloc: Global, values: &[Value]) -> Result<KeyAttrList, NoMemory>
    ensures { IfOk result (λ ds. ds ≡ stated_by definition_of (items_view values.now)) }
{
    let mut list = KeyAttrList::new(alloc);
    for value in values {
        push_definition(alloc, &mut list, value)?;
    }
    Ok(list)
}

fn push_definition(alloc: Global, list: &mut KeyAttrList, value: &Value) -> Result<(), NoMemory>
    ensures { OnOk result (list.new ≡ list.old ++ definition_of (view value.now)) }
{
    match value.as_object() {
        Some(members) => list.push(definition_in(alloc, members)?),
        None => Ok(()),
    }
}

fn definition_in(alloc: Global, members: &Map<String, Value>) -> Result<KeyAttr, NoMemory>
    ensures { IfOk result (λ d. d ≡ definition_in (members_view members.now.entries)) }
{
    Ok(KeyAttr {
        name: text_of(alloc, members, "AttributeName")?,
        kind: kind_named(word_at(members, "AttributeType")),
    })
}

fn kind_named(word: &str) -> KeyKind
    ensures { result ≡ kind_named word.now }
{
    if word == "S" {
        KeyKind::S
    } else if word == "N" {
        KeyKind::N
    } else {
        KeyKind::B
    }
}

fn indexes_of(
    alloc: Global,
    owner: &Map<String, Value>,
    name: &str,
) -> Result<StatedIndexList, NoMemory>
    ensures { IfOk result (λ is. is
        ≡ stated_at index_of name.now (members_view owner.now.entries)) }
{
    match array_at(owner, name) {
        Some(values) => indexes(alloc, values),
        None => Ok(StatedIndexList::new(alloc)),
    }
}

#[tactic(auto, using(crate::proofs::Walks::stated_more))]
fn indexes(alloc: Global, values: &[Value]) -> Result<StatedIndexList, NoMemory>
    ensures { IfOk result (λ is. is ≡ stated_by index_of (items_view values.now)) }
{
    let mut list = StatedIndexList::new(alloc);
    for value in values {
        push_index(alloc, &mut list, value)?;
    }
    Ok(list)
}

fn push_index(alloc: Global, list: &mut StatedIndexList, value: &Value) -> Result<(), NoMemory>
    ensures { OnOk result (list.new ≡ list.old ++ index_of (view value.now)) }
{
    match value.as_object() {
        Some(members) => list.push(index_in(alloc, members)?),
        None => Ok(()),
    }
}

pub(crate) fn index_in(alloc: Global, members: &Map<String, Value>) -> Result<StatedIndex, NoMemory>
    ensures { IfOk result (λ i. i ≡ index_in (members_view members.now.entries)) }
{
    let projection = field!(members, "Projection": object);
    Ok(StatedIndex {
        name: text_of(alloc, members, "IndexName")?,
        keys: key_schema_of(alloc, members)?,
        projects: projects(alloc, projection)?,
        includes: includes(alloc, projection)?,
    })
}

/// The word of an index's projection.
fn projects(alloc: Global, projection: Option<&Map<String, Value>>) -> Result<Text, NoMemory>
    ensures { IfOk result (λ s. s
        ≡ option_map_or (text_of (codes "ProjectionType"))
        (option_map (λ m. members_view m.now.entries) projection.entry) []) }
{
    match projection {
        Some(members) => text_of(alloc, members, "ProjectionType"),
        None => Text::new(alloc, ""),
    }
}

/// The names of its NonKeyAttributes.
fn includes(
    alloc: Global,
    projection: Option<&Map<String, Value>>,
) -> Result<Option<TextList>, NoMemory>
    ensures { IfOk result (λ ns. ns
        ≡ option_and_then included_in
        (option_map (λ m. members_view m.now.entries) projection.entry)) }
{
    match projection {
        Some(members) => included_in(alloc, members),
        None => Ok(None),
    }
}

fn included_in(alloc: Global, projection: &Map<String, Value>) -> Result<Option<TextList>, NoMemory>
    ensures { IfOk result (λ ns. ns ≡ included_in (members_view projection.now.entries)) }
{
    match field!(projection, "NonKeyAttributes": array) {
        Some(values) => Ok(Some(texts(alloc, values)?)),
        None => Ok(None),
    }
}

#[tactic(auto, using(crate::proofs::Walks::stated_more))]
fn texts(alloc: Global, values: &[Value]) -> Result<TextList, NoMemory>
    ensures { IfOk result (λ ss. ss ≡ stated_by word_of (items_view values.now)) }
{
    let mut list = TextList::new(alloc);
    for value in values {
        push_text(alloc, &mut list, value)?;
    }
    Ok(list)
}

fn push_text(alloc: Global, list: &mut TextList, value: &Value) -> Result<(), NoMemory>
    ensures { OnOk result (list.new ≡ list.old ++ word_of (view value.now)) }
{
    match value.as_str() {
        Some(text) => list.push(Text::new(alloc, text)?),
        None => Ok(()),
    }
}

/// What the stream of a table shows, where it is enabled.
fn view_of(body: &Map<String, Value>) -> Option<View>
    ensures { result ≡ view_of (members_view body.now.entries) }
{
    match field!(body, "StreamSpecification": object) {
        Some(members) => view_in(members),
        None => None,
    }
}

fn view_in(specification: &Map<String, Value>) -> Option<View>
    ensures { result ≡ view_in (members_view specification.now.entries) }
{
    if field!(specification, "StreamEnabled": truth).unwrap_or(false) {
        view_named(word_at(specification, "StreamViewType"))
    } else {
        None
    }
}

fn view_named(word: &str) -> Option<View>
    ensures { result ≡ view_named word.now }
{
    if word == "KEYS_ONLY" {
        Some(View::KeysOnly)
    } else if word == "NEW_IMAGE" {
        Some(View::NewImage)
    } else if word == "OLD_IMAGE" {
        Some(View::OldImage)
    } else if word == "NEW_AND_OLD_IMAGES" {
        Some(View::NewAndOldImages)
    } else {
        None
    }
}
