//! The paths that actions change, and whether two of them overlap.

ghost use Rattle.std.specs.Prelude.{◌≡◌, [], ◌∷◌, map, IfOk};
ghost use Rattle.alt_expr.specs.UpdateLanguage.{target, targets_overlap as two_overlap};
ghost use Rattle.alt_expr.specs.declared.path.PathPart.TheVariants.{Name};

use alt_base::NoMemory;
use alt_expr::{Action, Items, Path, PathPart, Paths, Shared, some_overlap};
use alt_value::Text;
use std::alloc::Global;

/// Whether of the paths that two actions change one begins with the other or equals it.
pub(crate) fn targets_overlap(alloc: Global, actions: &[Action]) -> Result<bool, NoMemory>
    ensures { IfOk result (λ b. b ≡ two_overlap actions.now) }
{
    match actions {
        [] | [_] => Ok(false),
        _ => some_overlap(alloc, targets(alloc, actions)?.as_slice()),
    }
}

/// The paths that actions change, each of its own, since an addition has only a name. They share the names.
pub fn targets(alloc: Global, actions: &[Action]) -> Result<Paths, NoMemory>
    ensures targets { IfOk result (λ paths. paths ≡ map target actions.now) }
{
    let mut targets = Items::new(alloc);
    for action in actions {
        targets.push(path_of(alloc, action)?)?;
    }
    Ok(targets)
}

fn path_of(alloc: Global, action: &Action) -> Result<Path, NoMemory>
    ensures { IfOk result (λ p. p ≡ target action.now) }
{
    match action {
        Action::Set(path, _) => copied(alloc, path.as_slice()),
        Action::Remove(path) => copied(alloc, path.as_slice()),
        Action::Add(name, _) => named(alloc, name),
        Action::Delete(name, _) => named(alloc, name),
    }
}

fn named(alloc: Global, name: &Shared<Text>) -> Result<Path, NoMemory>
    ensures { IfOk result (λ p. p ≡ Name name.now ∷ []) }
{
    let mut path = Items::new(alloc);
    path.push(PathPart::Name(name.share()?))?;
    Ok(path)
}

fn copied(alloc: Global, parts: &[PathPart]) -> Result<Path, NoMemory>
    ensures { IfOk result (λ p. p ≡ parts.now) }
{
    let mut path = Items::new(alloc);
    for part in parts {
        path.push(copy_part(part)?)?;
    }
    Ok(path)
}

fn copy_part(part: &PathPart) -> Result<PathPart, NoMemory>
    ensures { IfOk result (λ p. p ≡ part.now) }
{
    match part {
        PathPart::Name(name) => Ok(PathPart::Name(name.share()?)),
        PathPart::Index(i) => Ok(PathPart::Index(*i)),
    }
}
