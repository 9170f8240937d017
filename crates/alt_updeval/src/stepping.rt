//! Edits by their first step: those that go on from each name, and from each index.

ghost use Rattle.std.specs.Prelude.{◌≡◌, map, IfOk};
ghost use Rattle.alt_updeval.specs.Shown as spec;

use crate::made::Made;
use alt_base::NoMemory;
use alt_expr::PathPart;
use alt_value::Item;
use std::alloc::Global;

/// What stands behind some steps of a place that is changed, and its new value, or none where it
/// is taken out.
pub(crate) type Way<'a> = (&'a [PathPart], Option<&'a Made<'a>>);

/// The edits that begin with a name, by that name.
pub(crate) fn by_name<'a>(
    alloc: Global,
    ways: &[Way<'a>],
) -> Result<Vec<(&'a str, Way<'a>)>, NoMemory>
    ensures { IfOk result (λ v. map spec.way_at_name v.items
        ≡ spec.named_edits (map spec.way_of ways.now)) }
{
    let mut named = Vec::new(alloc);
    for way in ways {
        match way.0 {
            [PathPart::Name(name), rest @ ..] => named.push((name.get().as_str(), (rest, way.1)))?,
            _ => {}
        }
    }
    Ok(named)
}

/// Those of them whose name isn't in the map.
pub(crate) fn by_new_name<'a>(
    alloc: Global,
    ways: &[Way<'a>],
    old: &Item,
) -> Result<Vec<(&'a str, Way<'a>)>, NoMemory>
    ensures { IfOk result (λ v. map spec.way_at_name v.items
        ≡ spec.new_names old.now (spec.named_edits (map spec.way_of ways.now))) }
{
    let mut named = Vec::new(alloc);
    for way in ways {
        match way.0 {
            [PathPart::Name(name), rest @ ..] => {
                if old.get(name.get().as_str()).is_none() {
                    named.push((name.get().as_str(), (rest, way.1)))?;
                }
            }
            _ => {}
        }
    }
    Ok(named)
}

/// The edits that begin with an index, by that index.
pub(crate) fn by_index<'a>(
    alloc: Global,
    ways: &[Way<'a>],
) -> Result<Vec<(usize, Way<'a>)>, NoMemory>
    ensures { IfOk result (λ v. map spec.way_at_index v.items
        ≡ spec.indexed_edits (map spec.way_of ways.now)) }
{
    let mut indexed = Vec::new(alloc);
    for way in ways {
        match way.0 {
            [PathPart::Index(i), rest @ ..] => indexed.push((*i as usize, (rest, way.1)))?,
            _ => {}
        }
    }
    Ok(indexed)
}

/// Those of them whose index is past the end of a list that is so long.
pub(crate) fn past_end<'a>(
    alloc: Global,
    ways: &[Way<'a>],
    count: usize,
) -> Result<Vec<(usize, Way<'a>)>, NoMemory>
    ensures { IfOk result (λ v. map spec.way_at_index v.items
        ≡ spec.edits_past_end count (spec.indexed_edits (map spec.way_of ways.now))) }
{
    let mut indexed = Vec::new(alloc);
    for way in ways {
        match way.0 {
            [PathPart::Index(i), rest @ ..] => {
                if count <= *i as usize {
                    indexed.push((*i as usize, (rest, way.1)))?;
                }
            }
            _ => {}
        }
    }
    Ok(indexed)
}
