//! A value with changes within it: copied once, with what is changed in the place of what was there.

ghost use Rattle.std.specs.Prelude.{◌≡◌, ◌++◌, ◌<◌, ℕ, List, Some, slice_get, map, length, option_map, option_to_list, IfOk, OnOk};
ghost use Rattle.std.specs.Option.{option_or};
ghost use Rattle.alt_value.specs.Item.{IsItem, at_name};
ghost use Rattle.alt_value.specs.Stands.{tree_of};
ghost use Rattle.alt_value.specs.Tree.{trees_of, fields_of, elements, pairs};
ghost use Rattle.alt_expr.specs.Updated as spec;
ghost use Rattle.alt_updeval.specs.Shown.{made_tree, way_of, is_put, is_taken_out, ways_in, new_at, put_if, put_new_if};

use crate::made::{Made, copied, element};
use crate::stepping::{Way, by_index, by_name, by_new_name, past_end};
use alt_base::NoMemory;
use alt_expr::{gathered, groups};
use alt_value::{Attr, AttrList, Item, copy};
use std::alloc::Global;

/// What becomes of a value: it is put anew, taken out, or changed within.
#[cycle(within)]
pub(crate) fn changed<'a>(
    alloc: Global,
    ways: &[Way<'a>],
    old: &'a Attr,
) -> Result<Option<Attr>, NoMemory>
    ensures { IfOk result (λ o. option_map tree_of o
        ≡ spec.changed (map way_of ways.now) (tree_of old.now)) }
{
    if let Some(new) = put_here(ways) {
        return Ok(Some(copied(alloc, new)?));
    }
    if is_taken(ways) {
        return Ok(None);
    }
    match old {
        Attr::L(list) => Ok(Some(Attr::L(changed_list(alloc, ways, list)?))),
        Attr::M(map) => Ok(Some(Attr::M(changed_map(alloc, ways, map)?))),
        _ => Ok(Some(copy(old)?)),
    }
}

/// What is put at this very place.
#[tactic(auto, using(crate::proofs::Here::put_one))]
pub(crate) fn put_here<'a>(ways: &[Way<'a>]) -> Option<&'a Made<'a>>
    ensures { option_map (λ m. made_tree m.now) result ≡ spec.put_here (map way_of ways.now) }
{
    for way in ways {
        if puts_here(way) {
            return way.1;
        }
    }
    None
}

fn puts_here(way: &Way<'_>) -> bool
    ensures { result ≡ is_put (way_of way.now) }
{
    way.0.is_empty() && way.1.is_some()
}

/// Whether this very place is taken out.
#[tactic(auto, using(crate::proofs::Here::taken_one))]
fn is_taken(ways: &[Way<'_>]) -> bool
    ensures { result ≡ spec.is_taken (map way_of ways.now) }
{
    for way in ways {
        if takes_here(way) {
            return true;
        }
    }
    false
}

fn takes_here(way: &Way<'_>) -> bool
    ensures { result ≡ is_taken_out (way_of way.now) }
{
    way.0.is_empty() && way.1.is_none()
}

/// Elements that are put keep their old index, removed ones are out, and those past the end follow.
#[cycle(within)]
fn changed_list<'a>(
    alloc: Global,
    ways: &[Way<'a>],
    list: &'a AttrList,
) -> Result<AttrList, NoMemory>
    ensures { IfOk result (λ l. l
        ≡ elements (spec.changed_elements (map way_of ways.now) 0 (trees_of list.now))
        ++ map (λ p. p.1) (spec.elements_past_end (length list.now) (map way_of ways.now))) }
{
    let indexed = gathered(alloc, by_index(alloc, ways)?)?;
    let mut out = AttrList::new(alloc);
    for i in 0..list.len() {
        push_changed(alloc, &mut out, indexed.get(&i), element(list, i))?;
    }
    push_past(alloc, &mut out, ways, list.len())?;
    Ok(out)
}

/// Appends what becomes of an element.
#[cycle(within)]
#[tactic(auto, using(crate::proofs::Under::unchanged))]
fn push_changed<'a>(
    alloc: Global,
    out: &mut AttrList,
    ways: Option<&Vec<Way<'a>>>,
    element: &'a Attr,
) -> Result<(), NoMemory>
    ensures { OnOk result (out.new
        ≡ out.old ++ option_to_list (spec.changed (ways_in ways.entry) (tree_of element.now))) }
{
    match ways {
        Some(ways) => push_some(out, changed(alloc, ways.as_slice(), element)?),
        None => out.push(copy(element)?),
    }
}

fn push_some(out: &mut AttrList, new: Option<Attr>) -> Result<(), NoMemory>
    ensures { OnOk result (out.new ≡ out.old ++ option_to_list (option_map tree_of new)) }
{
    match new {
        Some(new) => out.push(new),
        None => Ok(()),
    }
}

/// Appends what is put past the end, by rising index.
fn push_past(
    alloc: Global,
    out: &mut AttrList,
    ways: &[Way<'_>],
    count: usize,
) -> Result<(), NoMemory>
    ensures { OnOk result
        (out.new ≡ out.old ++ map (λ p. p.1) (spec.elements_past_end count (map way_of ways.now))) }
{
    let indexed = groups(alloc, past_end(alloc, ways, count)?)?;
    for (_, behind) in &indexed {
        push_put(alloc, out, behind.as_slice())?;
    }
    Ok(())
}

fn push_put(alloc: Global, out: &mut AttrList, ways: &[Way<'_>]) -> Result<(), NoMemory>
    ensures { OnOk result
        (out.new ≡ out.old ++ option_to_list (spec.put_here (map way_of ways.now))) }
{
    match put_here(ways) {
        Some(new) => out.push(copied(alloc, new)?),
        None => Ok(()),
    }
}

/// Each pair has what becomes of it, and what is put at new names joins.
#[cycle(within)]
fn changed_map<'a>(alloc: Global, ways: &[Way<'a>], old: &'a Item) -> Result<Item, NoMemory>
    ensures { IfOk result (λ m. m ≡ spec.put_names (map way_of ways.now)
        (pairs (spec.changed_fields (map way_of ways.now) (fields_of old.now)))) }
{
    let _held = old.len();
    let named = gathered(alloc, by_name(alloc, ways)?)?;
    let mut out = Item::new(alloc);
    for i in 0..old.len() {
        let (name, value) = pair(old, i);
        put_changed(alloc, &mut out, name, named.get(&name), value)?;
    }
    put_new_names(alloc, &mut out, ways, old)?;
    let _whole = out.len();
    Ok(out)
}

/// The pair at a place of a map.
fn pair(map: &Item, i: usize) -> (&str, &Attr)
    requires { i < length map.now }
    ensures pair { Some (result.0.now, tree_of result.1.now) ≡ slice_get map.now i }
    ensures named { 0 < length result.0.now }
    ensures item { IsItem map.now }
{
    let _held = map.len();
    match map.at(i) {
        Some(pair) => pair,
        None => unreachable!(),
    }
}

/// Puts what becomes of the value of a name.
#[cycle(within)]
#[tactic(auto, using(crate::proofs::Under::unchanged))]
fn put_changed<'a>(
    alloc: Global,
    out: &mut Item,
    name: &str,
    ways: Option<&Vec<Way<'a>>>,
    value: &'a Attr,
) -> Result<(), NoMemory>
    requires { 0 < length name.now }
    ensures { OnOk result (out.new
        ≡ put_if name.now (spec.changed (ways_in ways.entry) (tree_of value.now)) out.old) }
{
    match ways {
        Some(ways) => put_some(out, name, changed(alloc, ways.as_slice(), value)?),
        None => out.put(name, copy(value)?),
    }
}

fn put_some(out: &mut Item, name: &str, new: Option<Attr>) -> Result<(), NoMemory>
    requires { 0 < length name.now }
    ensures { OnOk result (out.new ≡ put_if name.now (option_map tree_of new) out.old) }
{
    match new {
        Some(new) => out.put(name, new),
        None => Ok(()),
    }
}

/// Puts what is put at names that the map didn't have.
fn put_new_names(
    alloc: Global,
    out: &mut Item,
    ways: &[Way<'_>],
    old: &Item,
) -> Result<(), NoMemory>
    ensures { OnOk result ((q : List ℕ) → at_name q out.new
        ≡ option_or (new_at (map way_of ways.now) old.now q) (at_name q out.old)) }
{
    let named = groups(alloc, by_new_name(alloc, ways, old)?)?;
    for (name, behind) in &named {
        put_new(alloc, out, *name, behind.as_slice())?;
    }
    Ok(())
}

/// Puts what is put at a new name. No name is empty.
fn put_new(alloc: Global, out: &mut Item, name: &str, ways: &[Way<'_>]) -> Result<(), NoMemory>
    ensures { OnOk result
        (out.new ≡ put_new_if name.now (spec.put_here (map way_of ways.now)) out.old) }
{
    if name.is_empty() {
        return Ok(());
    }
    match put_here(ways) {
        Some(new) => out.put(name, copied(alloc, new)?),
        None => Ok(()),
    }
}
