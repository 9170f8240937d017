//! Whether a description that was read is one as it is made: names, keys, definitions and indexes.

ghost use Rattle.std.specs.Prelude.{◌≡◌, ◌&&◌, ◌++◌, length, nat_lt, nat_le};
ghost use Rattle.std.specs.List.{list_any, list_all};
ghost use Rattle.std.specs.Str.{bytes_eq};
ghost use Rattle.alt_machine.specs.Valid.{is_pair, are_two, is_local, names_few};
ghost use Rattle.alt_schema.specs.Indexes.{indexes, is_key, is_used};
ghost use Rattle.alt_schema.specs.Rules.{is_name, all_differ, most_included};
ghost use Rattle.alt_tablerows.specs.private.Made.{all_indexes, are_few_indexes, are_keyed, are_named, are_shaped, is_as_made};

use alt_schema::{IndexSchema, KeyAttr, Projection, TableSchema, is_name};
use alt_value::Text;

/// The most local indexes of a table (Developer Guide, "Service, account, and table quotas", as the next two).
const MOST_LOCALS: usize = 5;

/// The most global indexes of a table.
const MOST_GLOBALS: usize = 20;

/// The most names of attributes that one index keeps.
const MOST_INCLUDED: usize = 20;

/// Whether a description is as it is made.
pub(crate) fn is_as_made(schema: &TableSchema) -> bool
    ensures { result ≡ is_as_made schema.now }
{
    if !are_few_indexes(schema) {
        return false;
    }
    if !are_named(schema) {
        return false;
    }
    are_keyed(schema) && are_shaped(schema)
}

fn are_few_indexes(schema: &TableSchema) -> bool
    ensures { result ≡ are_few_indexes schema.now }
{
    schema.locals.as_slice().len() <= MOST_LOCALS && schema.globals.as_slice().len() <= MOST_GLOBALS
}

/// Names are as they have to be, and those of indexes differ.
fn are_named(schema: &TableSchema) -> bool
    ensures { result ≡ are_named schema.now }
{
    if !is_name(schema.name.as_str()) {
        return false;
    }
    all_named(schema) && names_differ(schema.locals.as_slice(), schema.globals.as_slice())
}

fn all_named(schema: &TableSchema) -> bool
    ensures { result ≡ all_indexes (λ i. is_name i.name) schema.now }
{
    spell_names(schema.locals.as_slice()) && spell_names(schema.globals.as_slice())
}

/// Keys are as they have to be, and exactly the key attributes are defined.
fn are_keyed(schema: &TableSchema) -> bool
    ensures { result ≡ are_keyed schema.now }
{
    if !is_pair(&schema.hash, &schema.range) {
        return false;
    }
    all_paired(schema) && all_used(schema, schema.definitions.as_slice())
}

fn all_paired(schema: &TableSchema) -> bool
    ensures { result ≡ all_indexes (λ i. is_pair i.hash i.range) schema.now }
{
    have_pairs(schema.locals.as_slice()) && have_pairs(schema.globals.as_slice())
}

/// So are the keys of local indexes, and projections.
fn are_shaped(schema: &TableSchema) -> bool
    ensures { result ≡ are_shaped schema.now }
{
    all_local(&schema.hash, &schema.range, schema.locals.as_slice()) && all_project(schema)
}

fn all_project(schema: &TableSchema) -> bool
    ensures { result ≡ all_indexes (λ i. names_few i.projection) schema.now }
{
    project_few(schema.locals.as_slice()) && project_few(schema.globals.as_slice())
}

fn spell_names(indexes: &[IndexSchema]) -> bool
    ensures { result ≡ list_all (λ i. is_name i.name) indexes.now }
{
    indexes.iter().all(|index| is_name(index.name.as_str()))
}

/// The names of the indexes of both lists differ.
fn names_differ(locals: &[IndexSchema], globals: &[IndexSchema]) -> bool
    ensures { result ≡ all_differ (λ i. i.name) (locals.now ++ globals.now) }
{
    for (i, index) in locals.iter().enumerate() {
        if is_named(&locals[i + 1..], index.name.as_str())
            || is_named(globals, index.name.as_str())
        {
            return false;
        }
    }
    differ_among(globals)
}

fn differ_among(indexes: &[IndexSchema]) -> bool
    ensures { result ≡ all_differ (λ i. i.name) indexes.now }
{
    for (i, index) in indexes.iter().enumerate() {
        if is_named(&indexes[i + 1..], index.name.as_str()) {
            return false;
        }
    }
    true
}

fn is_named(indexes: &[IndexSchema], name: &str) -> bool
    ensures { result ≡ list_any (λ i. bytes_eq i.name name.now) indexes.now }
{
    indexes.iter().any(|index| index.name.as_str() == name)
}

/// HASH, and perhaps RANGE, of two different names, none of them empty.
fn is_pair(hash: &KeyAttr, range: &Option<KeyAttr>) -> bool
    ensures { result ≡ is_pair hash.now range.now }
{
    if hash.name.as_str().is_empty() {
        return false;
    }
    match range {
        Some(range) => {
            !range.name.as_str().is_empty() && hash.name.as_str() != range.name.as_str()
        }
        None => true,
    }
}

fn have_pairs(indexes: &[IndexSchema]) -> bool
    ensures { result ≡ list_all (λ i. is_pair i.hash i.range) indexes.now }
{
    indexes
        .iter()
        .all(|index| is_pair(&index.hash, &index.range))
}

/// Each attribute that is defined is a key of the table or of an index.
fn all_used(schema: &TableSchema, definitions: &[KeyAttr]) -> bool
    ensures { result ≡ list_all (λ a. is_used schema.now a.name) definitions.now }
{
    definitions
        .iter()
        .all(|definition| is_used(schema, definition.name.as_str()))
}

fn is_used(schema: &TableSchema, name: &str) -> bool
    ensures { result ≡ is_used schema.now name.now }
{
    is_key(&schema.hash, &schema.range, name)
        || any_key(schema.locals.as_slice(), name)
        || any_key(schema.globals.as_slice(), name)
}

fn any_key(indexes: &[IndexSchema], name: &str) -> bool
    ensures { result ≡ list_any (λ i. is_key i.hash i.range name.now) indexes.now }
{
    indexes
        .iter()
        .any(|index| is_key(&index.hash, &index.range, name))
}

fn is_key(hash: &KeyAttr, range: &Option<KeyAttr>, name: &str) -> bool
    ensures { result ≡ is_key hash.now range.now name.now }
{
    if hash.name.as_str() == name {
        return true;
    }
    match range {
        Some(range) => range.name.as_str() == name,
        None => false,
    }
}

fn all_local(hash: &KeyAttr, range: &Option<KeyAttr>, indexes: &[IndexSchema]) -> bool
    ensures { result ≡ list_all (is_local hash.now range.now) indexes.now }
{
    indexes.iter().all(|index| is_local(hash, range, index))
}

/// A local index has the HASH key of its table, and another RANGE key.
fn is_local(hash: &KeyAttr, range: &Option<KeyAttr>, index: &IndexSchema) -> bool
    ensures { result ≡ is_local hash.now range.now index.now }
{
    index.hash.name.as_str() == hash.name.as_str() && are_two(range, &index.range)
}

fn are_two(range: &Option<KeyAttr>, other: &Option<KeyAttr>) -> bool
    ensures { result ≡ are_two range.now other.now }
{
    match (range, other) {
        (Some(range), Some(other)) => other.name.as_str() != range.name.as_str(),
        _ => false,
    }
}

fn project_few(indexes: &[IndexSchema]) -> bool
    ensures { result ≡ list_all (λ i. names_few i.projection) indexes.now }
{
    indexes.iter().all(|index| names_few(&index.projection))
}

/// A projection that names attributes names 1 to 20, and each name has bytes.
fn names_few(projection: &Projection) -> bool
    ensures { result ≡ names_few projection.now }
{
    match projection {
        Projection::All | Projection::KeysOnly => true,
        Projection::Include(names) => are_few(names.as_slice()),
    }
}

fn are_few(names: &[Text]) -> bool
    ensures { result ≡ (nat_lt 0 (length names.now)
        && (nat_le (length names.now) most_included
        && list_all (λ n. nat_lt 0 (length n)) names.now)) }
{
    0 < names.len() && names.len() <= MOST_INCLUDED && none_empty(names)
}

fn none_empty(names: &[Text]) -> bool
    ensures { result ≡ list_all (λ n. nat_lt 0 (length n)) names.now }
{
    names.iter().all(|name| !name.as_str().is_empty())
}
