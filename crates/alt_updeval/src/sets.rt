//! ADD and DELETE: a number or a set with what is added, or a set without what is deleted.

ghost use Rattle.std.specs.Prelude.{◌≡◌, None, Some, option_map};
ghost use Rattle.alt_value.specs.Stands.{tree_of};
ghost use Rattle.alt_value.specs.Tree.{SS_tree, NS_tree, BS_tree};
ghost use Rattle.alt_expr.specs.Updated as spec;
ghost use Rattle.alt_updeval.specs.Answers.{AnswersAsDefined};
ghost use Rattle.alt_updeval.specs.Shown.{made_tree};

use crate::UpdateFault;
use crate::made::Made;
use crate::term::as_number;
use alt_value::{Attr, BytesSet, NumberSet, TextSet};

/// A number or a set, where nothing was.
pub(crate) fn put_first(value: &Attr) -> Result<Made<'_>, UpdateFault>
    ensures { AnswersAsDefined made_tree result (spec.added None (tree_of value.now)) }
{
    match value {
        Attr::N(_) | Attr::Ss(_) | Attr::Ns(_) | Attr::Bs(_) => Ok(Made::Borrowed(value)),
        _ => Err(UpdateFault::BadKind),
    }
}

/// A number that is added to, or a set that is united with one of its kind.
pub(crate) fn added<'a>(old: &Attr, value: &Attr) -> Result<Made<'a>, UpdateFault>
    ensures { AnswersAsDefined made_tree result (spec.added (Some (tree_of old.now)) (tree_of value.now)) }
{
    match (old, value) {
        (Attr::N(number), Attr::N(more)) => as_number(number.add(more)),
        (Attr::Ss(set), Attr::Ss(more)) => Ok(Made::Own(Attr::Ss(set.union(more)?))),
        (Attr::Ns(set), Attr::Ns(more)) => Ok(Made::Own(Attr::Ns(set.union(more)?))),
        (Attr::Bs(set), Attr::Bs(more)) => Ok(Made::Own(Attr::Bs(set.union(more)?))),
        _ => Err(UpdateFault::BadKind),
    }
}

/// Members of a set, where nothing is.
pub(crate) fn take_none<'a>(value: &Attr) -> Result<Option<Made<'a>>, UpdateFault>
    ensures { AnswersAsDefined (option_map made_tree) result (spec.taken_from_set None (tree_of value.now)) }
{
    match value {
        Attr::Ss(_) | Attr::Ns(_) | Attr::Bs(_) => Ok(None),
        _ => Err(UpdateFault::BadKind),
    }
}

/// A set without members that are taken out, which are of its kind; none where it is left empty.
pub(crate) fn taken<'a>(old: &Attr, value: &Attr) -> Result<Option<Made<'a>>, UpdateFault>
    ensures { AnswersAsDefined (option_map made_tree) result
        (spec.taken_from_set (Some (tree_of old.now)) (tree_of value.now)) }
{
    match (old, value) {
        (Attr::Ss(set), Attr::Ss(less)) => Ok(texts_left(set.without(less)?)),
        (Attr::Ns(set), Attr::Ns(less)) => Ok(numbers_left(set.without(less)?)),
        (Attr::Bs(set), Attr::Bs(less)) => Ok(binaries_left(set.without(less)?)),
        _ => Err(UpdateFault::BadKind),
    }
}

fn texts_left<'a>(set: TextSet) -> Option<Made<'a>>
    ensures { option_map made_tree result ≡ spec.left SS_tree set }
{
    if set.len() == 0 {
        None
    } else {
        Some(Made::Own(Attr::Ss(set)))
    }
}

fn numbers_left<'a>(set: NumberSet) -> Option<Made<'a>>
    ensures { option_map made_tree result ≡ spec.left NS_tree set }
{
    if set.len() == 0 {
        None
    } else {
        Some(Made::Own(Attr::Ns(set)))
    }
}

fn binaries_left<'a>(set: BytesSet) -> Option<Made<'a>>
    ensures { option_map made_tree result ≡ spec.left BS_tree set }
{
    if set.len() == 0 {
        None
    } else {
        Some(Made::Own(Attr::Bs(set)))
    }
}
