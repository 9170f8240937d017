//! What is asked of each item, made ready for many: the paths are put in order, and what the filter asks of no attribute is decided.

ghost use Rattle.std.specs.Prelude.{◌≡◌, ◌∷◌, ◌++◌, [], ◌&&◌, not, if◌then◌else◌, List, IfOk, OnOk, OnErr};
ghost use Rattle.alt_expr.specs.Pages as spec;
ghost use Rattle.alt_expr.specs.Pages.{parts};
ghost use Rattle.alt_paging.specs.Looked.{IsFor, IsLooked};
ghost use Rattle.alt_value.specs.Tree.{Pair};

use crate::ask::{ItemList, PageAsk};
use alt_base::NoMemory;
use alt_condeval::{holds, settled};
use alt_expr::{Cond, Paths};
use alt_projection::Projection;
use alt_value::Item;
use std::alloc::Global;

/// Which of the items a page gives, and what it shows of each.
#[derive(Drop)]
pub(crate) struct Look {
    filter: Option<Cond>,
    paths: Option<Projection>,
}

/// Keeps what is shown of an item that meets the filter, unless counts alone are wanted, and tells whether it does. With the first item
/// what is asked is made ready; where memory is wanting, nothing has changed.
pub(crate) fn keep(
    alloc: Global,
    ask: &PageAsk,
    look: &mut Option<Look>,
    item: Item,
    kept: &mut ItemList,
) -> Result<bool, NoMemory>
    ensures met { IfOk result (λ met. IsLooked look.old ask.now
        → met ≡ spec.passes ask.now.filter item) }
    ensures ok { OnOk result (IsLooked look.old ask.now → kept.new ≡ kept.old
        ++ (if spec.passes ask.now.filter item && not ask.now.count_only
        then parts ask.now.paths item ∷ [] else [])) }
    ensures looked { IsLooked look.old ask.now → IsLooked look.new ask.now }
    ensures err { OnErr result (kept.new ≡ kept.old) }
    ensures as_it_was { OnErr result (look.new ≡ look.old) }
{
    if let Some(look) = look {
        return keep_by(alloc, look, ask.count_only, item, kept);
    }
    let new = ready(alloc, ask)?;
    match keep_by(alloc, &new, ask.count_only, item, kept) {
        Ok(met) => {
            *look = Some(new);
            Ok(met)
        }
        Err(e) => {
            drop(new);
            Err(e)
        }
    }
}

/// The same by what was made ready.
fn keep_by(
    alloc: Global,
    look: &Look,
    count_only: bool,
    item: Item,
    kept: &mut ItemList,
) -> Result<bool, NoMemory>
    ensures met { IfOk result (λ met. met ≡ spec.passes look.now.filter item) }
    ensures ok { OnOk result (kept.new ≡ kept.old
        ++ (if spec.passes look.now.filter item && not count_only
        then parts look.now.paths item ∷ [] else [])) }
    ensures err { OnErr result (kept.new ≡ kept.old) }
{
    let met = passes(&look.filter, &item);
    if met && !count_only {
        let shown = shown(alloc, &look.paths, item)?;
        kept.push(shown)?;
    }
    Ok(met)
}

/// What is asked, ready.
fn ready(alloc: Global, ask: &PageAsk) -> Result<Look, NoMemory>
    ensures made { IfOk result (λ look. IsFor look ask.now) }
{
    let filter = settled_filter(alloc, &ask.filter)?;
    let paths = projection(alloc, &ask.paths)?;
    Ok(Look { filter, paths })
}

fn settled_filter(alloc: Global, filter: &Option<Cond>) -> Result<Option<Cond>, NoMemory>
    ensures { IfOk result (λ o. (item : List Pair)
        → spec.passes o item ≡ spec.passes filter.now item) }
{
    match filter {
        Some(filter) => match settled(alloc, filter) {
            Ok(settled) => Ok(Some(settled)),
            Err(e) => Err(e),
        },
        None => Ok(None),
    }
}

fn projection(alloc: Global, paths: &Option<Paths>) -> Result<Option<Projection>, NoMemory>
    ensures { IfOk result (λ o. o ≡ paths.now) }
{
    match paths {
        Some(paths) => match Projection::new(alloc, paths) {
            Ok(projection) => Ok(Some(projection)),
            Err(e) => Err(e),
        },
        None => Ok(None),
    }
}

/// Whether an item meets the filter, if there is one.
fn passes(filter: &Option<Cond>, item: &Item) -> bool
    ensures { result ≡ spec.passes filter.now item.now }
{
    match filter {
        Some(condition) => holds(condition, item),
        None => true,
    }
}

/// What paths choose of an item; where there are none, the item itself, which is moved and not copied.
fn shown(alloc: Global, paths: &Option<Projection>, item: Item) -> Result<Item, NoMemory>
    ensures { IfOk result (λ i. i ≡ parts paths.now item) }
{
    match paths {
        Some(paths) => paths.of(alloc, &item),
        None => Ok(item),
    }
}
