//! Of paths in rising order, those that go on from a step: they stand together, and are found by halves.

ghost use Rattle.std.specs.Prelude.{◌≡◌, ◌+◌, drop};
ghost use Rattle.std.specs.Ordering.{is_lt, is_le};
ghost use Rattle.alt_expr.specs.PathOrder.{part_cmp};
ghost use Rattle.alt_expr.specs.Projected.{under};
ghost use Rattle.alt_projection.specs.Ways.{Rise, Longer, tails, side, step_of};

use alt_expr::{Path, PathPart};
use std::cmp::Ordering;

/// A step that a value offers: a name of a map, or an index of a list.
#[derive(Drop)]
pub(crate) enum Step<'a> {
    Name(&'a str),
    Index(usize),
}

/// The paths that go on from a step behind their first `depth` steps.
pub(crate) fn behind<'a>(ways: &'a [Path], depth: usize, step: &Step<'_>) -> &'a [Path]
    requires { Rise depth ways.now }
    ensures under { tails (depth + 1) result.now ≡ under (step_of step.now) (tails depth ways.now) }
    ensures rising { Rise (depth + 1) result.now }
    ensures longer { Longer depth result.now }
{
    let first = ways.partition_point(
        |way: &Path| -> bool
            ensures { result ≡ is_lt (side (step_of step.entry.now) (drop depth way.now)) }
        { rank(way.as_slice(), depth, step).is_lt() },
    );
    let rest = &ways[first..];
    let end = rest.partition_point(
        |way: &Path| -> bool
            ensures { result ≡ is_le (side (step_of step.entry.now) (drop depth way.now)) }
        { rank(way.as_slice(), depth, step).is_le() },
    );
    &rest[..end]
}

/// How a path's next part stands to a step. A path that ends stands before all.
fn rank(way: &[PathPart], depth: usize, step: &Step<'_>) -> Ordering
    ensures { result ≡ side (step_of step.now) (drop depth way.now) }
{
    match way.get(depth) {
        Some(part) => order(part, step),
        None => Ordering::Less,
    }
}

fn order(part: &PathPart, step: &Step<'_>) -> Ordering
    ensures { result ≡ part_cmp part.now (step_of step.now) }
{
    match (part, step) {
        (PathPart::Name(m), Step::Name(n)) => m.get().as_str().cmp(*n),
        (PathPart::Index(i), Step::Index(j)) => (*i as usize).cmp(j),
        (PathPart::Name(_), Step::Index(_)) => Ordering::Less,
        (PathPart::Index(_), Step::Name(_)) => Ordering::Greater,
    }
}
