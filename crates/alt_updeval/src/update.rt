//! All actions together: the attributes that change.

ghost use Rattle.std.specs.Prelude.{◌≡◌, true, ℕ, List, map, option_map, IfOk};
ghost use Rattle.std.specs.List.Sorted.{IsStrictlySortedBy};
ghost use Rattle.alt_value.specs.Members.{text_order};
ghost use Rattle.alt_value.specs.Stands.{tree_of};
ghost use Rattle.alt_expr.specs.Updated as spec;
ghost use Rattle.alt_expr.specs.UpdateLanguage.{begin_with_names};
ghost use Rattle.alt_expr.specs.declared.path.PathPart.TheVariants.{Name};
ghost use Rattle.alt_updeval.specs.Answers.{AnswersAsDefined};
ghost use Rattle.alt_updeval.specs.Changes.{changed_by};
ghost use Rattle.alt_updeval.specs.Shown.{edit_behind_step, attribute_edit, way_of, is_edited_whole as is_whole_edit};

use crate::UpdateFault;
use crate::action::{Edit, Rest, edit};
use crate::made::{copied, kept};
use crate::stepping::Way;
use crate::within::{changed as changed_value, put_here};
use alt_base::NoMemory;
use alt_expr::{Action, AttrView, Update, groups};
use alt_value::{Attr, Text};
use std::alloc::Global;

/// An attribute that changes: its new value, or none where it is removed.
#[derive(Drop)]
pub struct AttrChange {
    pub name: Text,
    pub value: Option<Attr>,
}

/// The attributes that an update changes, each once and in the order of their names; or why the
/// first refused action in text order is refused. Each operand is of the item as it was (DynamoDB
/// Developer Guide, "Using update expressions in DynamoDB").
pub fn changed<V: AttrView>(
    alloc: Global,
    update: &Update,
    view: &V,
) -> Result<Vec<AttrChange>, UpdateFault>
    requires begins { begin_with_names update.now ≡ true }
    ensures changed { AnswersAsDefined (λ cs. changed_by cs.items (V.attribute view.now)) result
        (spec.updated (V.attribute view.now) update.now) }
    ensures rising { IfOk result
        (λ cs. IsStrictlySortedBy text_order (map (λ c. c.name) cs.items)) }
{
    let all = edits(alloc, update.as_slice(), view)?;
    Ok(changes(alloc, all, view)?)
}

/// What all actions do, or why the first that is refused is.
fn edits<'a, V: AttrView>(
    alloc: Global,
    actions: &'a [Action],
    view: &'a V,
) -> Result<Vec<Edit<'a>>, UpdateFault>
    requires { begin_with_names actions.now ≡ true }
    ensures { AnswersAsDefined (λ v. map attribute_edit v.items) result
        (spec.edits (V.attribute view.now) actions.now) }
{
    let mut all = Vec::new(alloc);
    for action in actions {
        all.push(edit(alloc, action, view)?)?;
    }
    Ok(all)
}

/// What becomes of each attribute that is named.
pub(crate) fn changes<V: AttrView>(
    alloc: Global,
    all: Vec<Edit<'_>>,
    view: &V,
) -> Result<Vec<AttrChange>, NoMemory>
    ensures after { IfOk result (λ cs. (name : List ℕ)
        → changed_by cs.items (V.attribute view.now) name
        ≡ spec.place_after (spec.under (Name name) (map attribute_edit all.entry.items))
        (V.attribute view.now name)) }
    ensures rising { IfOk result
        (λ cs. IsStrictlySortedBy text_order (map (λ c. c.name) cs.items)) }
{
    let mut list = Vec::new(alloc);
    for (name, rests) in groups(alloc, all)? {
        list.push(change(alloc, name, rests, view)?)?;
    }
    Ok(list)
}

fn change<V: AttrView>(
    alloc: Global,
    name: &str,
    rests: Vec<Rest<'_>>,
    view: &V,
) -> Result<AttrChange, NoMemory>
    ensures name { IfOk result (λ c. c.name ≡ name.now) }
    ensures value { IfOk result (λ c. option_map tree_of c.value
        ≡ spec.place_after (map edit_behind_step rests.entry.items) (V.attribute view.now name.now)) }
{
    let value = new_value(alloc, rests, view.attr(name))?;
    Ok(AttrChange {
        name: Text::new(alloc, name)?,
        value,
    })
}

/// What becomes of an attribute, which may have had a value.
fn new_value(
    alloc: Global,
    rests: Vec<Rest<'_>>,
    old: Option<&Attr>,
) -> Result<Option<Attr>, NoMemory>
    ensures { IfOk result (λ o. option_map tree_of o
        ≡ spec.place_after (map edit_behind_step rests.entry.items) (option_map (λ a. tree_of a.now) old.entry)) }
{
    if !is_whole(rests.as_slice()) {
        return within(alloc, rests.as_slice(), old);
    }
    let mut rests = rests;
    match rests.pop() {
        Some((_, Some(new))) => Ok(Some(kept(alloc, new)?)),
        _ => Ok(None),
    }
}

/// Whether the only change is that of the attribute itself.
fn is_whole(rests: &[Rest<'_>]) -> bool
    ensures { result ≡ is_whole_edit (map edit_behind_step rests.now) }
{
    match rests {
        [(path, _)] => path.is_empty(),
        _ => false,
    }
}

fn within(alloc: Global, rests: &[Rest<'_>], old: Option<&Attr>) -> Result<Option<Attr>, NoMemory>
    ensures { IfOk result (λ o. option_map tree_of o
        ≡ spec.place_after (map edit_behind_step rests.now) (option_map (λ a. tree_of a.now) old.entry)) }
{
    let ways = ways_of(alloc, rests)?;
    match old {
        Some(old) => changed_value(alloc, ways.as_slice(), old),
        None => match put_here(ways.as_slice()) {
            Some(new) => Ok(Some(copied(alloc, new)?)),
            None => Ok(None),
        },
    }
}

/// The changes, borrowed.
fn ways_of<'a>(alloc: Global, rests: &'a [Rest<'a>]) -> Result<Vec<Way<'a>>, NoMemory>
    ensures { IfOk result (λ v. map way_of v.items ≡ map edit_behind_step rests.now) }
{
    let mut ways = Vec::with_capacity(alloc, rests.len())?;
    for rest in rests {
        ways.push((rest.0, rest.1.as_ref()))?;
    }
    Ok(ways)
}
