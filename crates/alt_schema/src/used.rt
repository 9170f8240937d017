//! Which attributes the keys of a table and of its indexes use, and whether definitions fit them.

ghost use Rattle.std.specs.Prelude.{◌≡◌};
ghost use Rattle.std.specs.List.{list_all, list_any};
ghost use Rattle.alt_schema.specs.Altered.{definitions_fit, differs_in_kind};
ghost use Rattle.alt_schema.specs.Described.{same_kind};
ghost use Rattle.alt_description.specs.Indexes.{is_key, is_used};
ghost use Rattle.alt_schema.specs.Rules.{all_differ, is_defined};

use alt_description::{IndexSchema, KeyAttr, TableSchema};
use alt_value::KeyKind;

/// Whether definitions fit a description as it is and as it is then: of its kinds, each used then, and given once.
pub(crate) fn definitions_fit(s: &TableSchema, later: &TableSchema, more: &[KeyAttr]) -> bool
    ensures { result ≡ definitions_fit s.now later.now more.now }
{
    !differ_in_kind(s, more) && all_used(later, more) && differ_in_name(more)
}

/// Whether one of them has another kind than the table's of its name.
fn differ_in_kind(s: &TableSchema, more: &[KeyAttr]) -> bool
    ensures { result ≡ list_any (differs_in_kind s.now) more.now }
{
    more.iter().any(|definition| differs_in_kind(s, definition))
}

fn differs_in_kind(s: &TableSchema, definition: &KeyAttr) -> bool
    ensures { result ≡ differs_in_kind s.now definition.now }
{
    s.definitions.as_slice().iter().any(|own| {
        own.name.as_str() == definition.name.as_str() && !same_kind(own.kind, definition.kind)
    })
}

fn same_kind(a: KeyKind, b: KeyKind) -> bool
    ensures { result ≡ same_kind a b }
{
    match (a, b) {
        (KeyKind::S, KeyKind::S) => true,
        (KeyKind::N, KeyKind::N) => true,
        (KeyKind::B, KeyKind::B) => true,
        _ => false,
    }
}

fn all_used(later: &TableSchema, more: &[KeyAttr]) -> bool
    ensures { result ≡ list_all (λ a. is_used later.now a.name) more.now }
{
    more.iter()
        .all(|definition| is_used(later, definition.name.as_str()))
}

fn differ_in_name(more: &[KeyAttr]) -> bool
    ensures { result ≡ all_differ (λ a. a.name) more.now }
{
    for (i, definition) in more.iter().enumerate() {
        if is_defined(&more[i + 1..], definition.name.as_str()) {
            return false;
        }
    }
    true
}

/// Whether one of these definitions has that name.
pub(crate) fn is_defined(definitions: &[KeyAttr], name: &str) -> bool
    ensures { result ≡ is_defined definitions.now name.now }
{
    definitions
        .iter()
        .any(|definition| definition.name.as_str() == name)
}

/// Whether an attribute is a key of the table or of an index.
pub(crate) fn is_used(s: &TableSchema, name: &str) -> bool
    ensures { result ≡ is_used s.now name.now }
{
    is_key(&s.hash, &s.range, name)
        || have_key(s.locals.as_slice(), name)
        || have_key(s.globals.as_slice(), name)
}

fn have_key(indexes: &[IndexSchema], name: &str) -> bool
    ensures { result ≡ list_any (λ i. is_key i.hash i.range name.now) indexes.now }
{
    indexes
        .iter()
        .any(|index| is_key(&index.hash, &index.range, name))
}

fn is_key(hash: &KeyAttr, range: &Option<KeyAttr>, name: &str) -> bool
    ensures { result ≡ is_key hash.now range.now name.now }
{
    let is_range = match range {
        Some(range) => range.name.as_str() == name,
        None => false,
    };
    hash.name.as_str() == name || is_range
}
