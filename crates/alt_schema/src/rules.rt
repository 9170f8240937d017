//! Tests what the body of a CreateTable states: the names, then the key schemas and definitions, then
//! the indexes.

ghost use Rattle.std.specs.Prelude.{◌≡◌, ◌&&◌, ◌++◌, true, length, nat_lt, nat_le, is_some, IfOk};
ghost use Rattle.std.specs.List.{list_any, list_all};
ghost use Rattle.std.specs.Str.{bytes_eq};
ghost use Rattle.alt_schema.specs.Named.{kind_at, AreOf, HasMore};
ghost use Rattle.alt_schema.specs.Rules.{is_name_byte, is_name, names_fit, plays, is_key_schema, is_used_in, is_used_in_any_schema, is_defined, in_each_schema, all_differ, defines_exactly, keys_fit_together, is_projection, most_included, is_local_to, indexes_fit, refused_for};

use crate::named::{Kinds, kinds_of};
use crate::stated::{Element, Stated, StatedIndex};
use alt_base::NoMemory;
use alt_description::{KeyAttr, TextList};
use alt_shape::Refusal;
use alt_value::Text;
use std::alloc::Global;

/// The most local indexes of a table (Developer Guide, "Service, account, and table quotas", as the
/// next two).
const MOST_LOCALS: usize = 5;

/// The most global indexes of a table.
const MOST_GLOBALS: usize = 20;

/// The most names in NonKeyAttributes of one index.
const MOST_INCLUDED: usize = 20;

/// Why what a body states is refused: a name, a key schema or the definitions, or an index.
#[tactic(auto, unfolding(crate::specs::Rules::refused_for))]
pub fn refused_for(alloc: Global, b: &Stated) -> Result<Option<Refusal>, NoMemory>
    ensures first { IfOk result (λ refusal. refusal ≡ refused_for b.now) }
{
    if !names_fit(b) {
        Ok(Some(Refusal::BAD_NAME))
    } else if !keys_fit_together(alloc, b)? {
        Ok(Some(Refusal::BAD_KEY_SCHEMA))
    } else if !indexes_fit(b) {
        Ok(Some(Refusal::BAD_INDEX))
    } else {
        Ok(None)
    }
}

// ---- names

fn names_fit(b: &Stated) -> bool
    ensures { result ≡ names_fit b.now }
{
    is_name(b.name.as_str())
        && index_names_fit(b.locals.as_slice())
        && index_names_fit(b.globals.as_slice())
}

fn index_names_fit(indexes: &[StatedIndex]) -> bool
    ensures { result ≡ list_all (λ i. is_name i.name) indexes.now }
{
    indexes.iter().all(|index| is_name(index.name.as_str()))
}

/// A table or index name has 3 to 255 characters, each a letter, a digit, `_`, `-` or `.`
/// (Developer Guide, "Naming rules").
pub fn is_name(name: &str) -> bool
    ensures { result ≡ is_name name.now }
{
    3 <= name.len() && name.len() <= 255 && has_name_bytes(name.as_bytes())
}

fn has_name_bytes(bytes: &[u8]) -> bool
    ensures { result ≡ list_all is_name_byte bytes.now }
{
    bytes.iter().all(|b| is_name_byte(*b))
}

fn is_name_byte(b: u8) -> bool
    ensures { result ≡ is_name_byte b }
{
    b.is_ascii_alphanumeric() || b == b'_' || b == b'-' || b == b'.'
}

// ---- key schemas and definitions

pub(crate) fn keys_fit_together(alloc: Global, b: &Stated) -> Result<bool, NoMemory>
    ensures { IfOk result (λ fit. fit ≡ keys_fit_together b.now) }
{
    if all_key_schemas(b) {
        defines_exactly(alloc, b)
    } else {
        Ok(false)
    }
}

fn all_key_schemas(b: &Stated) -> bool
    ensures { result ≡ in_each_schema is_key_schema b.now }
{
    is_key_schema(b.keys.as_slice())
        && have_key_schemas(b.locals.as_slice())
        && have_key_schemas(b.globals.as_slice())
}

fn have_key_schemas(indexes: &[StatedIndex]) -> bool
    ensures { result ≡ list_all (λ i. is_key_schema i.keys) indexes.now }
{
    indexes
        .iter()
        .all(|index| is_key_schema(index.keys.as_slice()))
}

/// HASH first, perhaps RANGE second, of two different attributes.
fn is_key_schema(keys: &[Element]) -> bool
    ensures { result ≡ is_key_schema keys.now }
{
    match keys {
        [hash] => plays(hash, "HASH"),
        [hash, range] => {
            plays(hash, "HASH")
                && plays(range, "RANGE")
                && hash.name.as_str() != range.name.as_str()
        }
        _ => false,
    }
}

fn plays(element: &Element, role: &str) -> bool
    ensures { result ≡ plays role.now element.now }
{
    element.role.as_str() == role && !element.name.as_str().is_empty()
}

/// The definitions name exactly the attributes that are used, each once.
fn defines_exactly(alloc: Global, b: &Stated) -> Result<bool, NoMemory>
    ensures { IfOk result (λ exactly. exactly ≡ defines_exactly b.now) }
{
    match kinds_of(alloc, b.definitions.as_slice())? {
        Some(kinds) => uses_exactly(alloc, &kinds, b),
        None => Ok(false),
    }
}

/// Each attribute that is defined is used, and each that is used is defined.
fn uses_exactly<'b>(alloc: Global, kinds: &Kinds<'b>, b: &'b Stated) -> Result<bool, NoMemory>
    requires { AreOf kinds.now b.now.definitions }
    ensures { IfOk result (λ exactly. exactly
        ≡ (list_all (λ d. is_used_in_any_schema b.now d.name) b.now.definitions
        && in_each_schema (list_all (λ e. is_defined b.now.definitions e.name)) b.now)) }
{
    let mut used = Kinds::new(alloc);
    if add_used(&mut used, kinds, b)? {
        Ok(all_among(b.definitions.as_slice(), &used))
    } else {
        Ok(false)
    }
}

fn all_among(definitions: &[KeyAttr], used: &Kinds) -> bool
    ensures { result ≡ list_all (λ d. is_some (kind_at used.now d.name)) definitions.now }
{
    definitions.iter().all(|definition| used.kind_of(definition.name.as_str()).is_some())
}

/// Puts the names that are used to those given, as long as each has a kind.
fn add_used<'b>(used: &mut Kinds<'b>, kinds: &Kinds<'b>, b: &'b Stated) -> Result<bool, NoMemory>
    ensures all { IfOk result (λ all. all
        ≡ in_each_schema (list_all (λ e. is_some (kind_at kinds.now e.name))) b.now) }
    ensures used { IfOk result (λ all. all ≡ true → HasMore used.old used.new (is_used_in_any_schema b.now)) }
{
    if !add_keys(used, kinds, b.keys.as_slice())? {
        return Ok(false);
    }
    if !add_indexes(used, kinds, b.locals.as_slice())? {
        return Ok(false);
    }
    add_indexes(used, kinds, b.globals.as_slice())
}

fn add_indexes<'b>(
    used: &mut Kinds<'b>,
    kinds: &Kinds<'b>,
    indexes: &'b [StatedIndex],
) -> Result<bool, NoMemory>
    ensures all { IfOk result (λ all. all
        ≡ list_all (λ i. list_all (λ e. is_some (kind_at kinds.now e.name)) i.keys) indexes.now) }
    ensures used { IfOk result (λ all. all ≡ true
        → HasMore used.old used.new (λ name. list_any (λ i. is_used_in name i.keys) indexes.now)) }
{
    for index in indexes {
        if !add_keys(used, kinds, index.keys.as_slice())? {
            return Ok(false);
        }
    }
    Ok(true)
}

fn add_keys<'b>(
    used: &mut Kinds<'b>,
    kinds: &Kinds<'b>,
    keys: &'b [Element],
) -> Result<bool, NoMemory>
    ensures all { IfOk result (λ all. all
        ≡ list_all (λ e. is_some (kind_at kinds.now e.name)) keys.now) }
    ensures used { IfOk result (λ all. all ≡ true
        → HasMore used.old used.new (λ name. is_used_in name keys.now)) }
{
    for element in keys {
        if !add_name(used, kinds, element.name.as_str())? {
            return Ok(false);
        }
    }
    Ok(true)
}

/// Puts a name to those given, if it has a kind.
fn add_name<'b>(used: &mut Kinds<'b>, kinds: &Kinds<'b>, name: &'b str) -> Result<bool, NoMemory>
    ensures all { IfOk result (λ there. there ≡ is_some (kind_at kinds.now name.now)) }
    ensures used { IfOk result (λ there. there ≡ true
        → HasMore used.old used.new (bytes_eq name.now)) }
{
    match kinds.kind_of(name) {
        Some(kind) => {
            used.add(name, kind)?;
            Ok(true)
        }
        None => Ok(false),
    }
}

// ---- indexes

pub(crate) fn indexes_fit(b: &Stated) -> bool
    ensures { result ≡ indexes_fit b.now }
{
    let locals = b.locals.as_slice();
    let globals = b.globals.as_slice();
    locals.len() <= MOST_LOCALS
        && globals.len() <= MOST_GLOBALS
        && names_differ(locals, globals)
        && all_local_to(b.keys.as_slice(), locals)
        && have_projections(locals)
        && have_projections(globals)
}

/// The names of the indexes of both lists differ.
fn names_differ(locals: &[StatedIndex], globals: &[StatedIndex]) -> bool
    ensures { result ≡ all_differ (λ i. i.name) (locals.now ++ globals.now) }
{
    for (i, index) in locals.iter().enumerate() {
        if is_named(&locals[i + 1..], index.name.as_str())
            || is_named(globals, index.name.as_str())
        {
            return false;
        }
    }
    differ_among(globals)
}

fn differ_among(indexes: &[StatedIndex]) -> bool
    ensures { result ≡ all_differ (λ i. i.name) indexes.now }
{
    for (i, index) in indexes.iter().enumerate() {
        if is_named(&indexes[i + 1..], index.name.as_str()) {
            return false;
        }
    }
    true
}

fn is_named(indexes: &[StatedIndex], name: &str) -> bool
    ensures { result ≡ list_any (λ i. bytes_eq i.name name.now) indexes.now }
{
    indexes.iter().any(|index| index.name.as_str() == name)
}

fn all_local_to(keys: &[Element], indexes: &[StatedIndex]) -> bool
    ensures { result ≡ list_all (λ i. is_local_to keys.now i.keys) indexes.now }
{
    indexes
        .iter()
        .all(|index| is_local_to(keys, index.keys.as_slice()))
}

/// A local index has the HASH key of its table, and another RANGE key.
fn is_local_to(table: &[Element], index: &[Element]) -> bool
    ensures { result ≡ is_local_to table.now index.now }
{
    match (table, index) {
        ([hash, range], [index_hash, index_range]) => {
            index_hash.name.as_str() == hash.name.as_str()
                && index_range.name.as_str() != range.name.as_str()
        }
        _ => false,
    }
}

fn have_projections(indexes: &[StatedIndex]) -> bool
    ensures { result ≡ list_all (λ i. is_projection i.projects i.includes) indexes.now }
{
    indexes.iter().all(|index| is_projection(index.projects.as_str(), &index.includes))
}

/// ALL or KEYS_ONLY without names, or INCLUDE with 1 to 20 names that aren't empty.
fn is_projection(word: &str, names: &Option<TextList>) -> bool
    ensures { result ≡ is_projection word.now names.now }
{
    match names {
        None => word == "ALL" || word == "KEYS_ONLY",
        Some(names) => word == "INCLUDE" && can_be_included(names.as_slice()),
    }
}

fn can_be_included(names: &[Text]) -> bool
    ensures { result ≡ (nat_lt 0 (length names.now)
        && (nat_le (length names.now) most_included
        && list_all (λ n. nat_lt 0 (length n)) names.now)) }
{
    0 < names.len() && names.len() <= MOST_INCLUDED && none_empty(names)
}

fn none_empty(names: &[Text]) -> bool
    ensures { result ≡ list_all (λ n. nat_lt 0 (length n)) names.now }
{
    names.iter().all(|name| !name.as_str().is_empty())
}
