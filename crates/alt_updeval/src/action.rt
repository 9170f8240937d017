//! Single actions: what each does to which place, or why it is refused.

ghost use Rattle.std.specs.Prelude.{◌≡◌, Some, true, option_map};
ghost use Rattle.alt_value.specs.Stands.{tree_of};
ghost use Rattle.alt_expr.specs.Updated as spec;
ghost use Rattle.alt_expr.specs.UpdateLanguage.{begins_with_name, target};
ghost use Rattle.alt_expr.specs.declared.update.Action.TheVariants as action;
ghost use Rattle.alt_updeval.specs.Answers.{AnswersAsDefined};
ghost use Rattle.alt_updeval.specs.Shown.{made_tree, attribute_edit};

use crate::UpdateFault;
use crate::made::Made;
use crate::sets::{added, put_first, take_none, taken};
use crate::term::sum_of;
use alt_expr::{Action, AttrView, PathPart, Sum, located};
use alt_value::Attr;
use std::alloc::Global;

/// What stands behind the first step of a place that is changed, and its new value, or none where
/// it is taken out.
pub(crate) type Rest<'a> = (&'a [PathPart], Option<Made<'a>>);

/// An attribute's name, and what is changed behind it.
pub(crate) type Edit<'a> = (&'a str, Rest<'a>);

/// What an action does, or why it is refused.
pub(crate) fn edit<'a, V: AttrView>(
    alloc: Global,
    action: &'a Action,
    view: &'a V,
) -> Result<Edit<'a>, UpdateFault>
    requires { begins_with_name (target action.now) ≡ true }
    ensures { AnswersAsDefined attribute_edit result (spec.edit (V.attribute view.now) action.now) }
{
    match action {
        Action::Set(path, sum) => set(alloc, path.as_slice(), sum, view),
        Action::Remove(path) => remove(path.as_slice(), view),
        Action::Add(name, value) => add(name.get().as_str(), value.get(), view),
        Action::Delete(name, value) => delete(name.get().as_str(), value.get(), view),
    }
}

fn set<'a, V: AttrView>(
    alloc: Global,
    path: &'a [PathPart],
    sum: &'a Sum,
    view: &'a V,
) -> Result<Edit<'a>, UpdateFault>
    requires { begins_with_name path.now ≡ true }
    ensures { AnswersAsDefined attribute_edit result
        (spec.edit (V.attribute view.now) (action.Set path.now sum.now)) }
{
    let value = sum_of(alloc, sum, view)?;
    parent(path, view)?;
    Ok(at(path, Some(value)))
}

fn remove<'a, V: AttrView>(path: &'a [PathPart], view: &V) -> Result<Edit<'a>, UpdateFault>
    requires { begins_with_name path.now ≡ true }
    ensures { AnswersAsDefined attribute_edit result (spec.edit (V.attribute view.now) (action.Remove path.now)) }
{
    parent(path, view)?;
    Ok(at(path, None))
}

/// The place of a path, with its new value.
fn at<'a>(path: &'a [PathPart], value: Option<Made<'a>>) -> Edit<'a>
    requires { begins_with_name path.now ≡ true }
    ensures { attribute_edit result ≡ (path.now, option_map made_tree value.entry) }
{
    match path {
        [PathPart::Name(name), rest @ ..] => (name.get().as_str(), (rest, value)),
        _ => unreachable!(),
    }
}

/// A path of more than one part needs its parent.
fn parent<V: AttrView>(path: &[PathPart], view: &V) -> Result<(), UpdateFault>
    ensures { AnswersAsDefined (λ u. u) result (spec.parent (V.attribute view.now) path.now) }
{
    let count = path.len();
    if count <= 1 {
        return Ok(());
    }
    match located(&path[..count - 1], view) {
        Some(parent) => takes(parent, &path[count - 1]),
        None => Err(UpdateFault::BadPath),
    }
}

/// A map takes a name, and a list an index.
fn takes(parent: &Attr, last: &PathPart) -> Result<(), UpdateFault>
    ensures { AnswersAsDefined (λ u. u) result (spec.takes (tree_of parent.now) (Some last.now)) }
{
    match (parent, last) {
        (Attr::M(_), PathPart::Name(_)) => Ok(()),
        (Attr::L(_), PathPart::Index(_)) => Ok(()),
        _ => Err(UpdateFault::BadKind),
    }
}

fn add<'a, V: AttrView>(name: &'a str, value: &'a Attr, view: &V) -> Result<Edit<'a>, UpdateFault>
    ensures { AnswersAsDefined attribute_edit result
        (spec.edit (V.attribute view.now) (action.Add name.now value.now)) }
{
    let new = match view.attr(name) {
        Some(old) => added(old, value)?,
        None => put_first(value)?,
    };
    Ok((name, (&[], Some(new))))
}

fn delete<'a, V: AttrView>(
    name: &'a str,
    value: &'a Attr,
    view: &V,
) -> Result<Edit<'a>, UpdateFault>
    ensures { AnswersAsDefined attribute_edit result
        (spec.edit (V.attribute view.now) (action.Delete name.now value.now)) }
{
    let rest = match view.attr(name) {
        Some(old) => taken(old, value)?,
        None => take_none(value)?,
    };
    Ok((name, (&[], rest)))
}
