//! Where two items differ, and whether an index keeps anything there.

ghost use Rattle.std.specs.Prelude.{◌≡◌, ◌↔◌, IfOk, IsTrue, Some, is_some, map, option_map};
ghost use Rattle.std.specs.List.{list_any};
ghost use Rattle.alt_schema.specs.Indexes.{is_projected};
ghost use Rattle.alt_value.specs.Item.{at_name};
ghost use Rattle.alt_value.specs.Stands.{tree_of};
ghost use Rattle.alt_views.specs.private.Changed.{AreAlikeBeside, DifferAt, index_may_change};

use crate::rows::projection::is_projected;
use alt_base::NoMemory;
use alt_schema::{IndexSchema, TableSchema};
use alt_value::{Attr, Item, equal};
use std::alloc::Global;

/// The names at which two items differ, where both are there; none are looked for where there are no indexes.
pub fn changed_names<'i>(
    alloc: Global,
    indexes: usize,
    old: Option<&'i Item>,
    new: Option<&'i Item>,
) -> Result<Option<Vec<&'i str>>, NoMemory>
    ensures names { IfOk result (λ names. DifferAt
        (option_map (λ v. map (λ n. n.now) v.items) names)
        (option_map (λ i. i.now) old.entry) (option_map (λ i. i.now) new.entry)) }
{
    if indexes == 0 {
        return Ok(None);
    }
    match (old, new) {
        (Some(old), Some(new)) => Ok(Some(names_between(alloc, old, new)?)),
        _ => Ok(None),
    }
}

/// The names at which two items differ.
fn names_between<'i>(alloc: Global, old: &'i Item, new: &'i Item) -> Result<Vec<&'i str>, NoMemory>
    ensures names { IfOk result (λ names. AreAlikeBeside (map (λ n. n.now) names.items)
        old.now new.now) }
{
    let mut names = Vec::new(alloc);
    for at in 0..new.len() {
        let Some((name, value)) = new.at(at) else {
            unreachable!();
        };
        if !has_value(old, name, value) {
            names.push(name)?;
        }
    }
    for at in 0..old.len() {
        let Some((name, _)) = old.at(at) else {
            unreachable!();
        };
        if !has_name(new, name) {
            names.push(name)?;
        }
    }
    Ok(names)
}

/// Whether an item has that value at a name.
fn has_value(item: &Item, name: &str, value: &Attr) -> bool
    ensures { IsTrue result ↔ (at_name name.now item.now ≡ Some (tree_of value.now)) }
{
    match item.get(name) {
        Some(other) => equal(other, value),
        None => false,
    }
}

fn has_name(item: &Item, name: &str) -> bool
    ensures { result ≡ is_some (at_name name.now item.now) }
{
    item.get(name).is_some()
}

/// Whether an index keeps one of these names; where none are told it may keep one that changes.
pub fn may_change(schema: &TableSchema, index: &IndexSchema, names: &Option<Vec<&str>>) -> bool
    ensures kept { result ≡ index_may_change schema.now index.now
        (option_map (λ v. map (λ n. n.now) v.items) names.now) }
{
    match names {
        Some(names) => keeps_one(schema, index, names.as_slice()),
        None => true,
    }
}

fn keeps_one(schema: &TableSchema, index: &IndexSchema, names: &[&str]) -> bool
    ensures { result ≡ list_any (is_projected schema.now index.now) (map (λ n. n.now) names.now) }
{
    for name in names {
        if is_projected(schema, index, name) {
            return true;
        }
    }
    false
}
