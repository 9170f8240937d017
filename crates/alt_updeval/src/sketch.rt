//! An update of which no more is copied than an item may have: behind that, a few bytes stand in for each large value.

ghost use Rattle.std.specs.Prelude.{◌≡◌, ◌&&◌, true, map, IfOk, IfErr};
ghost use Rattle.std.specs.List.Sorted.{IsStrictlySortedBy};
ghost use Rattle.alt_value.specs.Members.{text_order};
ghost use Rattle.alt_expr.specs.Updated as spec;
ghost use Rattle.alt_expr.specs.UpdateLanguage.{begin_with_names};
ghost use Rattle.alt_updeval.specs.Answers.{IsFaultAsDefined};
ghost use Rattle.alt_updeval.specs.Shown.{attribute_edit, AreSketched};
ghost use Rattle.alt_updeval.specs.Sketched.{IsSketch};
ghost use Rattle.alt_updeval.specs.StandsIn.{StandsInEdit};

use crate::UpdateFault;
use crate::action::{Edit, edit};
use crate::standing::stand_in;
use crate::update::{AttrChange, changes};
use alt_base::NoMemory;
use alt_expr::{Action, AttrView, Update};
use std::alloc::Global;

/// What an update makes of an item, or what stands in for it: values that are as deep, no larger, and the same where they may be keys.
#[derive(Drop)]
pub struct Sketch {
    pub changes: Vec<AttrChange>,
    /// No value was left out: the changes are those of the update.
    pub whole: bool,
}

/// The changes of an update, each once and in the order of their names, with a few bytes in the place of each large value once `most`
/// bytes were put; or why the first refused action in text order is refused.
pub fn sketched<V: AttrView>(
    alloc: Global,
    update: &Update,
    view: &V,
    most: u64,
) -> Result<Sketch, UpdateFault>
    requires begins { begin_with_names update.now ≡ true }
    ensures sketch { IfOk result
        (IsSketch (V.attribute view.now) (spec.updated (V.attribute view.now) update.now)) }
    ensures refused { IfErr result (IsFaultAsDefined (spec.updated (V.attribute view.now) update.now)) }
    ensures rising { IfOk result
        (λ s. IsStrictlySortedBy text_order (map (λ c. c.name) s.changes.items)) }
{
    let (all, whole) = edits(alloc, update.as_slice(), view, most)?;
    let changes = changes(alloc, all, view)?;
    Ok(Sketch { changes, whole })
}

/// What all actions do, some with what stands in for their values, and whether none has; or why the first that is refused is.
fn edits<'a, V: AttrView>(
    alloc: Global,
    actions: &'a [Action],
    view: &'a V,
    most: u64,
) -> Result<(Vec<Edit<'a>>, bool), UpdateFault>
    requires { begin_with_names actions.now ≡ true }
    ensures edits { IfOk result (λ r. AreSketched (spec.edits (V.attribute view.now) actions.now)
        (map attribute_edit r.0.items) r.1) }
    ensures refused { IfErr result (IsFaultAsDefined (spec.edits (V.attribute view.now) actions.now)) }
{
    let mut all = Vec::new(alloc);
    let mut whole = true;
    let mut left = most;
    for action in actions {
        let (edit, same) = cut(alloc, edit(alloc, action, view)?, &mut left)?;
        whole = both(whole, same);
        all.push(edit)?;
    }
    Ok((all, whole))
}

fn both(before: bool, now: bool) -> bool
    ensures { result ≡ (before && now) }
{
    before && now
}

/// An edit, and true; or one with what stands in for its value, and false.
fn cut<'a>(alloc: Global, edit: Edit<'a>, left: &mut u64) -> Result<(Edit<'a>, bool), NoMemory>
    ensures edit { IfOk result (λ r. StandsInEdit (attribute_edit r.0) (attribute_edit edit.entry)) }
    ensures same { IfOk result (λ r. r.1 ≡ true → attribute_edit r.0 ≡ attribute_edit edit.entry) }
{
    let (name, (path, value)) = edit;
    let Some(value) = value else {
        return Ok(((name, (path, None)), true));
    };
    match stand_in(alloc, &value, left)? {
        Some(other) => Ok(((name, (path, Some(other))), false)),
        None => Ok(((name, (path, Some(value))), true)),
    }
}
