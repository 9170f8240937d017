//! The objects inside a body, in the order in which they are tested.

ghost use Rattle.std.specs.Prelude.{◌≡◌, ◌∷◌, [], codes};
ghost use Rattle.serde_json.specs.View.{view, items_view, members_view};
ghost use Rattle.alt_shape.specs.Bodies as bodies;
ghost use Rattle.alt_shape.specs.BodyParts.{in_array, in_object, in_items, in_members, object_fault, array_fault, text_fault, key_fault, required};
ghost use Rattle.alt_shape.specs.Shape.{a_text, first_unmet};

use crate::checking::first_broken;
use crate::fields::array_at;
use crate::rule::Broken;
use crate::{field, older, tables};
use serde_json::{Map, Value};

/// The elements of KeySchema, of a table or of an index.
pub(crate) fn key_schema(owner: &Map<String, Value>) -> Option<Broken>
    ensures { result ≡ in_array (codes "KeySchema") (bodies.key_schema)
        (members_view owner.now.entries) }
{
    match field!(owner, "KeySchema": array) {
        Some(elements) => each_key_schema_element(elements),
        None => None,
    }
}

#[tactic(auto, using(crate::proofs::Walks::in_items_from))]
fn each_key_schema_element(elements: &[Value]) -> Option<Broken>
    ensures { result ≡ in_items (object_fault bodies.key_schema_element) (items_view elements.now) }
{
    for element in elements {
        if let Some(broken) = key_schema_element(element) {
            return Some(broken);
        }
    }
    None
}

fn key_schema_element(element: &Value) -> Option<Broken>
    ensures { result ≡ object_fault (bodies.key_schema_element) (view element.now) }
{
    match element.as_object() {
        Some(members) => first_broken(&tables::KEY_SCHEMA_ELEMENT, members),
        None => Some(Broken::WrongKind),
    }
}

/// The elements of AttributeDefinitions.
pub(crate) fn attribute_definitions(owner: &Map<String, Value>) -> Option<Broken>
    ensures { result ≡ in_array (codes "AttributeDefinitions")
        (in_items (object_fault bodies.attribute_definition)) (members_view owner.now.entries) }
{
    match field!(owner, "AttributeDefinitions": array) {
        Some(elements) => each_attribute_definition(elements),
        None => None,
    }
}

#[tactic(auto, using(crate::proofs::Walks::in_items_from))]
fn each_attribute_definition(elements: &[Value]) -> Option<Broken>
    ensures { result ≡ in_items (object_fault bodies.attribute_definition)
        (items_view elements.now) }
{
    for element in elements {
        if let Some(broken) = attribute_definition(element) {
            return Some(broken);
        }
    }
    None
}

fn attribute_definition(element: &Value) -> Option<Broken>
    ensures { result ≡ object_fault (bodies.attribute_definition) (view element.now) }
{
    match element.as_object() {
        Some(members) => first_broken(&tables::ATTRIBUTE_DEFINITION, members),
        None => Some(Broken::WrongKind),
    }
}

/// The indexes of LocalSecondaryIndexes or GlobalSecondaryIndexes, each with what is inside it.
pub(crate) fn indexes(owner: &Map<String, Value>, name: &str) -> Option<Broken>
    ensures { result ≡ in_array (name.now) (in_items (object_fault bodies.secondary_index))
        (members_view owner.now.entries) }
{
    match array_at(owner, name) {
        Some(elements) => each_index(elements),
        None => None,
    }
}

#[tactic(auto, using(crate::proofs::Walks::in_items_from))]
fn each_index(elements: &[Value]) -> Option<Broken>
    ensures { result ≡ in_items (object_fault bodies.secondary_index) (items_view elements.now) }
{
    for element in elements {
        if let Some(broken) = index(element) {
            return Some(broken);
        }
    }
    None
}

fn index(element: &Value) -> Option<Broken>
    ensures { result ≡ object_fault (bodies.secondary_index) (view element.now) }
{
    match element.as_object() {
        Some(members) => index_members(members),
        None => Some(Broken::WrongKind),
    }
}

fn index_members(index: &Map<String, Value>) -> Option<Broken>
    ensures { result ≡ bodies.secondary_index (members_view index.now.entries) }
{
    first_broken(&tables::SECONDARY_INDEX, index)
        .or_else(|| key_schema(index))
        .or_else(|| projection(index))
}

/// The changes of GlobalSecondaryIndexUpdates, each with what is inside it.
pub(crate) fn index_updates(owner: &Map<String, Value>) -> Option<Broken>
    ensures { result ≡ in_array (codes "GlobalSecondaryIndexUpdates")
        (in_items (object_fault bodies.index_update)) (members_view owner.now.entries) }
{
    match field!(owner, "GlobalSecondaryIndexUpdates": array) {
        Some(elements) => each_index_update(elements),
        None => None,
    }
}

#[tactic(auto, using(crate::proofs::Walks::in_items_from))]
fn each_index_update(elements: &[Value]) -> Option<Broken>
    ensures { result ≡ in_items (object_fault bodies.index_update) (items_view elements.now) }
{
    for element in elements {
        if let Some(broken) = index_update(element) {
            return Some(broken);
        }
    }
    None
}

fn index_update(element: &Value) -> Option<Broken>
    ensures { result ≡ object_fault (bodies.index_update) (view element.now) }
{
    match element.as_object() {
        Some(members) => update_members(members),
        None => Some(Broken::WrongKind),
    }
}

fn update_members(update: &Map<String, Value>) -> Option<Broken>
    ensures { result ≡ bodies.index_update (members_view update.now.entries) }
{
    first_broken(&tables::INDEX_UPDATE, update)
        .or_else(|| created(update))
        .or_else(|| deleted(update))
}

/// The index that comes.
fn created(update: &Map<String, Value>) -> Option<Broken>
    ensures { result ≡ in_object (codes "Create") (bodies.secondary_index)
        (members_view update.now.entries) }
{
    match field!(update, "Create": object) {
        Some(members) => index_members(members),
        None => None,
    }
}

/// The index that goes.
fn deleted(update: &Map<String, Value>) -> Option<Broken>
    ensures { result ≡ in_object (codes "Delete")
        (first_unmet (required (codes "IndexName") a_text ∷ [])) (members_view update.now.entries) }
{
    match field!(update, "Delete": object) {
        Some(members) => first_broken(&tables::INDEX_DELETED, members),
        None => None,
    }
}

/// The Projection of an index.
fn projection(owner: &Map<String, Value>) -> Option<Broken>
    ensures { result ≡ in_object (codes "Projection") (bodies.projection)
        (members_view owner.now.entries) }
{
    match field!(owner, "Projection": object) {
        Some(members) => projection_members(members),
        None => None,
    }
}

fn projection_members(projection: &Map<String, Value>) -> Option<Broken>
    ensures { result ≡ bodies.projection (members_view projection.now.entries) }
{
    first_broken(&tables::PROJECTION, projection).or_else(|| non_key_attributes(projection))
}

/// The elements of NonKeyAttributes, which are texts.
fn non_key_attributes(owner: &Map<String, Value>) -> Option<Broken>
    ensures { result ≡ in_array (codes "NonKeyAttributes") (in_items text_fault)
        (members_view owner.now.entries) }
{
    match field!(owner, "NonKeyAttributes": array) {
        Some(elements) => each_text(elements),
        None => None,
    }
}

#[tactic(auto, using(crate::proofs::Walks::in_items_from))]
pub(crate) fn each_text(elements: &[Value]) -> Option<Broken>
    ensures { result ≡ in_items (text_fault) (items_view elements.now) }
{
    for element in elements {
        if let Some(broken) = text(element) {
            return Some(broken);
        }
    }
    None
}

fn text(element: &Value) -> Option<Broken>
    ensures { result ≡ text_fault (view element.now) }
{
    if element.is_string() {
        None
    } else {
        Some(Broken::WrongKind)
    }
}

/// The StreamSpecification of a table.
pub(crate) fn stream_specification(owner: &Map<String, Value>) -> Option<Broken>
    ensures { result ≡ in_object (codes "StreamSpecification") (bodies.stream_specification)
        (members_view owner.now.entries) }
{
    match field!(owner, "StreamSpecification": object) {
        Some(members) => first_broken(&tables::STREAM_SPECIFICATION, members),
        None => None,
    }
}

/// The write requests of a batch, table by table.
pub(crate) fn write_requests(body: &Map<String, Value>) -> Option<Broken>
    ensures { result ≡ in_object (codes "RequestItems")
        (in_members (array_fault (in_items (object_fault bodies.write_request))))
        (members_view body.now.entries) }
{
    match field!(body, "RequestItems": object) {
        Some(tables) => each_table_of_writes(tables),
        None => None,
    }
}

fn each_table_of_writes(tables: &Map<String, Value>) -> Option<Broken>
    ensures { result ≡ in_members (array_fault (in_items (object_fault bodies.write_request)))
        (members_view tables.now.entries) }
{
    for (_, requests) in tables {
        if let Some(broken) = table_of_writes(requests) {
            return Some(broken);
        }
    }
    None
}

fn table_of_writes(requests: &Value) -> Option<Broken>
    ensures { result ≡ array_fault (in_items (object_fault bodies.write_request))
        (view requests.now) }
{
    match requests.as_array() {
        Some(elements) => each_write_request(elements),
        None => Some(Broken::WrongKind),
    }
}

#[tactic(auto, using(crate::proofs::Walks::in_items_from))]
fn each_write_request(elements: &[Value]) -> Option<Broken>
    ensures { result ≡ in_items (object_fault bodies.write_request) (items_view elements.now) }
{
    for element in elements {
        if let Some(broken) = write_request(element) {
            return Some(broken);
        }
    }
    None
}

fn write_request(element: &Value) -> Option<Broken>
    ensures { result ≡ object_fault bodies.write_request (view element.now) }
{
    match element.as_object() {
        Some(members) => write_request_members(members),
        None => Some(Broken::WrongKind),
    }
}

fn write_request_members(request: &Map<String, Value>) -> Option<Broken>
    ensures { result ≡ bodies.write_request (members_view request.now.entries) }
{
    first_broken(&tables::WRITE_REQUEST, request)
        .or_else(|| put_request(request))
        .or_else(|| delete_request(request))
}

/// The PutRequest of a write request.
fn put_request(owner: &Map<String, Value>) -> Option<Broken>
    ensures { result
        ≡ in_object (codes "PutRequest") bodies.put_request (members_view owner.now.entries) }
{
    match field!(owner, "PutRequest": object) {
        Some(members) => first_broken(&tables::PUT_REQUEST, members),
        None => None,
    }
}

/// The DeleteRequest of a write request.
fn delete_request(owner: &Map<String, Value>) -> Option<Broken>
    ensures { result
        ≡ in_object (codes "DeleteRequest") bodies.delete_request (members_view owner.now.entries) }
{
    match field!(owner, "DeleteRequest": object) {
        Some(members) => first_broken(&tables::DELETE_REQUEST, members),
        None => None,
    }
}

/// The keys and attributes of a batch, table by table.
pub(crate) fn keys_and_attributes(body: &Map<String, Value>) -> Option<Broken>
    ensures { result ≡ in_object (codes "RequestItems")
        (in_members (object_fault bodies.keys_and_attributes)) (members_view body.now.entries) }
{
    match field!(body, "RequestItems": object) {
        Some(tables) => each_table_of_keys(tables),
        None => None,
    }
}

fn each_table_of_keys(tables: &Map<String, Value>) -> Option<Broken>
    ensures { result ≡ in_members (object_fault bodies.keys_and_attributes)
        (members_view tables.now.entries) }
{
    for (_, asked) in tables {
        if let Some(broken) = table_of_keys(asked) {
            return Some(broken);
        }
    }
    None
}

fn table_of_keys(asked: &Value) -> Option<Broken>
    ensures { result ≡ object_fault bodies.keys_and_attributes (view asked.now) }
{
    match asked.as_object() {
        Some(members) => table_of_keys_members(members),
        None => Some(Broken::WrongKind),
    }
}

fn table_of_keys_members(asked: &Map<String, Value>) -> Option<Broken>
    ensures { result ≡ bodies.keys_and_attributes (members_view asked.now.entries) }
{
    first_broken(&tables::KEYS_AND_ATTRIBUTES, asked)
        .or_else(|| keys(asked))
        .or_else(|| older::names(asked))
}

/// The elements of Keys, which are objects.
fn keys(owner: &Map<String, Value>) -> Option<Broken>
    ensures { result ≡ in_array (codes "Keys") (in_items key_fault)
        (members_view owner.now.entries) }
{
    match field!(owner, "Keys": array) {
        Some(elements) => each_key(elements),
        None => None,
    }
}

#[tactic(auto, using(crate::proofs::Walks::in_items_from))]
fn each_key(elements: &[Value]) -> Option<Broken>
    ensures { result ≡ in_items key_fault (items_view elements.now) }
{
    for element in elements {
        if let Some(broken) = key(element) {
            return Some(broken);
        }
    }
    None
}

fn key(element: &Value) -> Option<Broken>
    ensures { result ≡ key_fault (view element.now) }
{
    if element.is_object() {
        None
    } else {
        Some(Broken::WrongKind)
    }
}
