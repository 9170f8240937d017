//! The paths of AttributesToGet.

ghost use Rattle.std.specs.Prelude.{◌≡◌, Some, map, IfOk, IfErr};
ghost use Rattle.serde_json.specs.View.{view, items_view};
ghost use Rattle.alt_legacy.specs.Answered.{IsBad};
ghost use Rattle.alt_legacy.specs.Names as spec;
ghost use Rattle.alt_legacy.specs.Trees as trees;

use crate::fault::LegacyFault;
use crate::tree::path;
use alt_base::NoMemory;
use alt_expr::{Items, Paths, Shared};
use alt_value::{Text, TextSet};
use serde_json::Value;
use std::alloc::Global;

/// The names of a member AttributesToGet as paths, in order. A dot is a part of a name.
pub fn names_of(alloc: Global, names: &Value) -> Result<Paths, LegacyFault>
    ensures paths { IfOk result (λ ps. trees.paths_in (view names.now) ≡ Some ps) }
    ensures cause { IfErr result (IsBad (spec.names_of_member (view names.now))) }
{
    let Some(items) = names.as_array() else {
        return Err(LegacyFault::Bad);
    };
    let names = texts_of(alloc, items.as_slice())?;
    if names.is_empty() {
        return Err(LegacyFault::Bad);
    }
    let paths = paths_of(alloc, names.as_slice())?;
    if TextSet::from_members(names).is_none() {
        return Err(LegacyFault::Bad);
    }
    Ok(paths)
}

/// The names, of which none is empty.
fn texts_of(alloc: Global, items: &[Value]) -> Result<Vec<Text>, LegacyFault>
    ensures ok { IfOk result (λ ts. spec.element_names (items_view items.now) ≡ Some ts.items) }
    ensures err { IfErr result (IsBad (spec.element_names (items_view items.now))) }
{
    let mut found = Vec::new(alloc);
    for v in items {
        let name = text_of(alloc, v)?;
        found.push(name)?;
    }
    Ok(found)
}

fn text_of(alloc: Global, v: &Value) -> Result<Text, LegacyFault>
    ensures ok { IfOk result (λ t. spec.element_name (view v.now) ≡ Some t) }
    ensures err { IfErr result (IsBad (spec.element_name (view v.now))) }
{
    let Some(name) = v.as_str() else {
        return Err(LegacyFault::Bad);
    };
    if name.is_empty() {
        return Err(LegacyFault::Bad);
    }
    match Text::new(alloc, name) {
        Ok(name) => Ok(name),
        Err(_) => Err(LegacyFault::NoMemory),
    }
}

fn paths_of(alloc: Global, names: &[Text]) -> Result<Paths, NoMemory>
    ensures { IfOk result (λ ps. ps ≡ map trees.attribute_path names.now) }
{
    let mut found = Items::new(alloc);
    for name in names {
        let name = Shared::new(alloc, name.copy()?)?;
        let path = path(alloc, &name)?;
        found.push(path)?;
    }
    Ok(found)
}
