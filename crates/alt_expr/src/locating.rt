//! The part of an item that a path leads to, borrowed.

ghost use Rattle.std.specs.Prelude.{◌≡◌, option_map};
ghost use Rattle.alt_value.specs.Stands.{tree_of};
ghost use Rattle.alt_expr.specs.Located as spec;

use crate::{AttrView, PathPart};
use alt_value::Attr;

/// The part of the item that the path leads to, None exactly where it is missing.
pub fn located<'a, V: AttrView>(path: &[PathPart], view: &'a V) -> Option<&'a Attr>
    ensures part { option_map (λ a. tree_of a.now) result
        ≡ spec.located (V.attribute view.now) path.now }
{
    match path {
        [PathPart::Name(name), steps @ ..] => match view.attr(name.get().as_str()) {
            Some(value) => part(steps, value),
            None => None,
        },
        _ => None,
    }
}

/// The part of a value that the steps lead to, None exactly where it is missing.
pub fn part<'a>(steps: &[PathPart], value: &'a Attr) -> Option<&'a Attr>
    ensures part { option_map (λ a. tree_of a.now) result
        ≡ spec.part steps.now (tree_of value.now) }
{
    let mut here = value;
    for step in steps {
        match stepped(step, here) {
            Some(next) => here = next,
            None => return None,
        }
    }
    Some(here)
}

/// What one step leads to.
pub fn stepped<'a>(step: &PathPart, value: &'a Attr) -> Option<&'a Attr>
    ensures part { option_map (λ a. tree_of a.now) result ≡ spec.step_into step.now (tree_of value.now) }
{
    match step {
        PathPart::Name(name) => match value {
            Attr::M(map) => map.get(name.get().as_str()),
            _ => None,
        },
        PathPart::Index(i) => match value {
            Attr::L(list) => list.get(*i as usize),
            _ => None,
        },
    }
}
