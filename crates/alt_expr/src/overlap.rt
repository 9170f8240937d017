//! Paths of which one begins with another. They are put in order, so that a path stands right before those that begin with it.

ghost use Rattle.std.specs.Prelude.{◌≡◌, map, IfOk};
ghost use Rattle.alt_expr.specs.PathsGrammar as spec;
ghost use Rattle.alt_expr.specs.PathOrder.{is_one_before, is_before_one};

use crate::path::{Path, PathPart};
use alt_base::NoMemory;
use std::alloc::Global;
use std::cmp::Ordering;

/// Whether of two of the paths one begins with the other or equals it.
pub fn some_overlap(alloc: Global, paths: &[Path]) -> Result<bool, NoMemory>
    ensures overlap { IfOk result (λ b. b ≡ spec.some_overlap paths.now) }
{
    let mut ways = ways_of(alloc, paths)?;
    ways.sort_unstable();
    Ok(is_before_one(&ways))
}

fn ways_of(alloc: Global, paths: &[Path]) -> Result<Vec<&[PathPart]>, NoMemory>
    ensures { IfOk result (λ ways. map (λ w. w.now) ways.items ≡ paths.now) }
{
    let mut ways = Vec::with_capacity(alloc, paths.len())?;
    for path in paths {
        ways.push(path.as_slice())?;
    }
    Ok(ways)
}

/// Whether one of the paths begins with the one right before it.
fn is_before_one(ways: &[&[PathPart]]) -> bool
    ensures { result ≡ is_before_one (map (λ w. w.now) ways.now) }
{
    match ways {
        [] => false,
        [first, rest @ ..] => is_one_before(*first, rest),
    }
}

fn is_one_before(first: &[PathPart], rest: &[&[PathPart]]) -> bool
    ensures { result ≡ is_one_before first.now (map (λ w. w.now) rest.now) }
{
    let mut before = first;
    for way in rest {
        if way.starts_with(before) {
            return true;
        }
        before = *way;
    }
    false
}

impl PartialEq for PathPart {
    ghost use Rattle.alt_expr.specs.Projected.{same_step};
    ghost use Rattle.alt_expr.specs.PartOrder.{parts_per};

    ghost eq = { same_step };

    ghost laws = { parts_per };

    fn eq(&self, other: &PathPart) -> bool {
        match (self, other) {
            (PathPart::Name(m), PathPart::Name(n)) => m.get().as_str() == n.get().as_str(),
            (PathPart::Index(i), PathPart::Index(j)) => i == j,
            _ => false,
        }
    }
}

impl Eq for PathPart {
    ghost use Rattle.alt_expr.specs.PartOrder.{parts_equiv};

    ghost laws = { parts_equiv };
}

impl PartialOrd for PathPart {
    ghost use Rattle.std.specs.Prelude.{Some};
    ghost use Rattle.alt_expr.specs.PathOrder.{part_cmp};
    ghost use Rattle.alt_expr.specs.PartOrder.{parts_po};

    ghost partial_cmp = { λ x y. Some (part_cmp x y) };

    ghost laws = { parts_po };

    fn partial_cmp(&self, other: &PathPart) -> Option<Ordering> {
        Some(self.cmp(other))
    }
}

impl Ord for PathPart {
    ghost use Rattle.std.specs.Prelude.{refl};
    ghost use Rattle.alt_expr.specs.PathOrder.{part_cmp};
    ghost use Rattle.alt_expr.specs.PartOrder.{parts_total, parts_tie};

    ghost cmp = { part_cmp };

    ghost total = { parts_total };

    ghost matches_partial_cmp = { λ x y. refl };

    ghost matches_eq = { λ x y. parts_tie x y };

    fn cmp(&self, other: &PathPart) -> Ordering {
        match (self, other) {
            (PathPart::Name(m), PathPart::Name(n)) => m.get().as_str().cmp(n.get().as_str()),
            (PathPart::Index(i), PathPart::Index(j)) => i.cmp(j),
            (PathPart::Name(_), PathPart::Index(_)) => Ordering::Less,
            (PathPart::Index(_), PathPart::Name(_)) => Ordering::Greater,
        }
    }
}
