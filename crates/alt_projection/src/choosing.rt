//! The walk over a value: it is chosen whole where a path ends at it, and else part by part. It looks once at each attribute or
//! element, and asks which paths go on from there; it copies only what it gives.

ghost use Rattle.std.specs.Prelude.{◌≡◌, ◌++◌, ◌+◌, ◌<◌, length, option_map, option_to_list, slice_get, Some, IfOk, OnOk};
ghost use Rattle.alt_value.specs.Item.{IsItem};
ghost use Rattle.alt_value.specs.Stands.{tree_of};
ghost use Rattle.alt_value.specs.Tree.{trees_of, fields_of, elements};
ghost use Rattle.alt_expr.specs.Projected as spec;
ghost use Rattle.alt_projection.specs.Ways.{Rise, Longer, tails, put_if};
ghost use Rattle.alt_expr.specs.declared.path.PathPart.TheVariants.{Name, Index};

use crate::behind::{Step, behind};
use alt_base::NoMemory;
use alt_expr::Path;
use alt_value::{Attr, AttrList, Item, copy};
use std::alloc::Global;

/// What paths choose of a value, behind their first `depth` steps.
#[cycle(choosing)]
fn chosen(
    alloc: Global,
    ways: &[Path],
    depth: usize,
    value: &Attr,
) -> Result<Option<Attr>, NoMemory>
    requires { Rise depth ways.now }
    ensures { IfOk result (λ o. option_map tree_of o
        ≡ spec.chosen (tails depth ways.now) (tree_of value.now)) }
{
    if is_whole(ways, depth) {
        return match copy(value) {
            Ok(whole) => Ok(Some(whole)),
            Err(e) => Err(e),
        };
    }
    match value {
        Attr::L(list) => match chosen_elements(alloc, ways, depth, list) {
            Ok(some) => Ok(some_list(some)),
            Err(e) => Err(e),
        },
        Attr::M(map) => match chosen_fields(alloc, ways, depth, map) {
            Ok(some) => Ok(some_map(some)),
            Err(e) => Err(e),
        },
        _ => Ok(None),
    }
}

/// Whether a path ends here. It would stand first.
fn is_whole(ways: &[Path], depth: usize) -> bool
    requires { Rise depth ways.now }
    ensures { result ≡ spec.is_chosen_whole (tails depth ways.now) }
{
    match ways {
        [first, ..] => first.len() <= depth,
        [] => false,
    }
}

fn some_list(list: AttrList) -> Option<Attr>
    ensures { option_map tree_of result ≡ spec.some_list (trees_of list) }
{
    if list.len() == 0 {
        None
    } else {
        Some(Attr::L(list))
    }
}

fn some_map(map: Item) -> Option<Attr>
    ensures { option_map tree_of result ≡ spec.some_map (fields_of map) }
{
    if map.len() == 0 {
        None
    } else {
        Some(Attr::M(map))
    }
}

/// What paths choose of a map.
#[cycle(choosing)]
pub(crate) fn chosen_fields(
    alloc: Global,
    ways: &[Path],
    depth: usize,
    item: &Item,
) -> Result<Item, NoMemory>
    requires { Rise depth ways.now }
    ensures { IfOk result (λ i. i ≡ spec.projected (tails depth ways.now) item.now) }
{
    let _held = item.len();
    let mut out = Item::new(alloc);
    for i in 0..item.len() {
        let (name, value) = pair(item, i);
        put_chosen(alloc, &mut out, ways, depth, name, value)?;
    }
    let _whole = out.len();
    Ok(out)
}

/// The pair at a place of a map.
fn pair(map: &Item, i: usize) -> (&str, &Attr)
    requires { i < length map.now }
    ensures pair { Some (result.0.now, tree_of result.1.now) ≡ slice_get map.now i }
    ensures named { 0 < length result.0.now }
    ensures item { IsItem map.now }
{
    let _held = map.len();
    match map.at(i) {
        Some(pair) => pair,
        None => unreachable!(),
    }
}

/// Puts what paths choose of the value of a name.
#[cycle(choosing)]
fn put_chosen(
    alloc: Global,
    out: &mut Item,
    ways: &[Path],
    depth: usize,
    name: &str,
    value: &Attr,
) -> Result<(), NoMemory>
    requires rising { Rise depth ways.now }
    requires named { 0 < length name.now }
    ensures { OnOk result (out.new ≡ put_if name.now
        (spec.chosen (spec.under (Name name.now) (tails depth ways.now)) (tree_of value.now))
        out.old) }
{
    let further = behind(ways, depth, &Step::Name(name));
    match chosen_further(alloc, further, depth, value) {
        Ok(Some(part)) => out.put(name, part),
        Ok(None) => Ok(()),
        Err(e) => Err(e),
    }
}

/// What paths choose of a value, behind one step more than `depth`. Where none goes on it isn't looked at.
#[cycle(choosing)]
fn chosen_further(
    alloc: Global,
    ways: &[Path],
    depth: usize,
    value: &Attr,
) -> Result<Option<Attr>, NoMemory>
    requires rising { Rise (depth + 1) ways.now }
    requires longer { Longer depth ways.now }
    ensures { IfOk result (λ o. option_map tree_of o
        ≡ spec.chosen (tails (depth + 1) ways.now) (tree_of value.now)) }
{
    match ways {
        [first, ..] => {
            let _more = first.len();
            chosen(alloc, ways, depth + 1, value)
        }
        [] => Ok(None),
    }
}

/// What paths choose of a list.
#[cycle(choosing)]
fn chosen_elements(
    alloc: Global,
    ways: &[Path],
    depth: usize,
    list: &AttrList,
) -> Result<AttrList, NoMemory>
    requires { Rise depth ways.now }
    ensures { IfOk result (λ l. l
        ≡ elements (spec.chosen_elements (tails depth ways.now) 0 (trees_of list.now))) }
{
    let mut out = AttrList::new(alloc);
    for i in 0..list.len() {
        push_chosen(alloc, &mut out, ways, depth, i, element(list, i))?;
    }
    Ok(out)
}

/// The element at a place of a list.
fn element(list: &AttrList, i: usize) -> &Attr
    requires { i < length list.now }
    ensures { Some (tree_of result.now) ≡ slice_get list.now i }
{
    match list.get(i) {
        Some(element) => element,
        None => unreachable!(),
    }
}

/// Appends what paths choose of the element at an index.
#[cycle(choosing)]
fn push_chosen(
    alloc: Global,
    out: &mut AttrList,
    ways: &[Path],
    depth: usize,
    i: usize,
    element: &Attr,
) -> Result<(), NoMemory>
    requires { Rise depth ways.now }
    ensures { OnOk result (out.new ≡ out.old ++ option_to_list
        (spec.chosen (spec.under (Index i) (tails depth ways.now)) (tree_of element.now))) }
{
    let further = behind(ways, depth, &Step::Index(i));
    match chosen_further(alloc, further, depth, element) {
        Ok(Some(part)) => out.push(part),
        Ok(None) => Ok(()),
        Err(e) => Err(e),
    }
}
