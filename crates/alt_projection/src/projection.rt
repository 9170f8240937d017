//! What paths choose of an item. The paths are put in order once, for however many items.

ghost use Rattle.std.specs.Prelude.{◌≡◌, map, IfOk};
ghost use Rattle.alt_expr.specs.Projected.{projected};
ghost use Rattle.alt_projection.specs.Ways.{SamePaths, Rise};

use crate::choosing::chosen_fields;
use alt_base::NoMemory;
use alt_expr::{Items, Path, PathPart, Paths};
use alt_value::Item;
use std::alloc::Global;
use std::marker::Model;

/// Paths that are ready to choose of many items. Contracts see the paths, in the order of their text.
#[derive(Drop)]
pub struct Projection {
    paths: Paths,
    /// The same in rising order, in which those that begin with the same steps stand together.
    ways: Paths,
}

impl Model for Projection {
    ghost use Rattle.std.specs.Prelude.{List};
    ghost use Rattle.alt_expr.specs.declared.path.PathPart.{PathPart};
    ghost use Rattle.alt_projection.specs.Ways.{SamePaths, Rise};

    ghost Value = { List (List PathPart) };

    ghost view = { λ p. p.paths };

    ghost invariant = { λ p. SamePaths p.paths p.ways × Rise 0 p.ways };
}

impl Projection {
    /// The paths, made ready: the one call that costs their sorting.
    pub fn new(alloc: Global, paths: &Paths) -> Result<Projection, NoMemory>
        ensures paths { IfOk result (λ p. p ≡ paths.now) }
    {
        let ways = in_order(alloc, paths)?;
        let same = same(alloc, paths)?;
        Ok(Projection { paths: same, ways })
    }

    /// The parts of the item that the paths choose, in the item's structure.
    pub fn of(&self, alloc: Global, item: &Item) -> Result<Item, NoMemory>
        ensures chosen { IfOk result (λ i. i ≡ projected self.now item.now) }
    {
        match chosen_fields(alloc, self.ways.as_slice(), 0, item) {
            Ok(parts) => Ok(parts),
            Err(e) => Err(e),
        }
    }
}

/// The parts of one item that the paths choose, in the item's structure.
pub fn project(alloc: Global, paths: &Paths, item: &Item) -> Result<Item, NoMemory>
    ensures chosen { IfOk result (λ i. i ≡ projected paths.now item.now) }
{
    let ways = in_order(alloc, paths)?;
    let parts = chosen_fields(alloc, ways.as_slice(), 0, item)?;
    Ok(parts)
}

/// The same paths.
fn same(alloc: Global, paths: &Paths) -> Result<Paths, NoMemory>
    ensures { IfOk result (λ copy. copy ≡ paths.now) }
{
    let ways = ways_of(alloc, paths)?;
    let copy = copies(alloc, ways.as_slice())?;
    Ok(copy)
}

/// The paths in rising order.
fn in_order(alloc: Global, paths: &Paths) -> Result<Paths, NoMemory>
    ensures same { IfOk result (λ ways. SamePaths paths.now ways) }
    ensures rising { IfOk result (λ ways. Rise 0 ways) }
{
    let mut ways = ways_of(alloc, paths)?;
    ways.sort_unstable();
    let sorted = copies(alloc, ways.as_slice())?;
    Ok(sorted)
}

fn ways_of(alloc: Global, paths: &Paths) -> Result<Vec<&[PathPart]>, NoMemory>
    ensures { IfOk result (λ ways. map (λ w. w.now) ways.items ≡ paths.now) }
{
    let mut ways = Vec::with_capacity(alloc, paths.len())?;
    for path in paths.as_slice() {
        ways.push(path.as_slice())?;
    }
    Ok(ways)
}

fn copies(alloc: Global, ways: &[&[PathPart]]) -> Result<Paths, NoMemory>
    ensures { IfOk result (λ paths. paths ≡ map (λ w. w.now) ways.now) }
{
    let mut paths = Items::new(alloc);
    for way in ways {
        paths.push(copy(alloc, *way)?)?;
    }
    Ok(paths)
}

/// The same steps. Names aren't copied, but get an owner more.
fn copy(alloc: Global, way: &[PathPart]) -> Result<Path, NoMemory>
    ensures { IfOk result (λ path. path ≡ way.now) }
{
    let mut path = Items::new(alloc);
    for part in way {
        path.push(shared(part)?)?;
    }
    Ok(path)
}

fn shared(part: &PathPart) -> Result<PathPart, NoMemory>
    ensures { IfOk result (λ copy. copy ≡ part.now) }
{
    match part {
        PathPart::Name(name) => match name.share() {
            Ok(name) => Ok(PathPart::Name(name)),
            Err(e) => Err(e),
        },
        PathPart::Index(i) => Ok(PathPart::Index(*i)),
    }
}
