//! What an update makes of an item.

ghost use Rattle.std.specs.Prelude.{◌≡◌, true, [], List, Err, IfOk, IfErr, OnOk, unwrap_or};
ghost use Rattle.alt_expr.specs.UpdateLanguage.{begin_with_names};
ghost use Rattle.alt_expr.specs.Updated.{put_name};
ghost use Rattle.alt_machine.specs.Ops.UpdateItem as machine;
ghost use Rattle.alt_ops_item.specs.private.Outlines.{IsOutline};
ghost use Rattle.alt_ops_item.specs.private.Updates.{with_attribute_change, with_changes, stop_of_update_fault};
ghost use Rattle.alt_request.specs.Steps.{Comes, IsMemory};
ghost use Rattle.alt_value.specs.Item.{IsItem};
ghost use Rattle.alt_value.specs.Stands.{tree_of};
ghost use Rattle.alt_value.specs.Tree.{Pair};

use alt_base::NoMemory;
use alt_expr::{Items, Update};
use alt_machine::LARGEST_ITEM;
use alt_request::{Stop, TableFault, number_refusal};
use alt_shape::Refusal;
use alt_updeval::{AttrChange, Sketch, UpdateFault, changed, sketched};
use alt_value::{Attr, Item};
use std::alloc::Global;

/// The item after an update of the one that is there, or of the empty one where none is. Without an update it is that of no actions.
pub(crate) fn item_after(
    alloc: Global,
    update: &Option<Update>,
    old: &Option<Item>,
) -> Result<Item, Stop>
    requires begins { begin_with_names (unwrap_or update.now []) ≡ true }
    ensures item { Comes (λ i. i) (machine.item_after (unwrap_or update.now []) old.now) result }
{
    match update {
        Some(update) => changed_item(alloc, update, old),
        None => changed_item(alloc, &Items::new(alloc), old),
    }
}

fn changed_item(alloc: Global, update: &Update, old: &Option<Item>) -> Result<Item, Stop>
    requires begins { begin_with_names update.now ≡ true }
    ensures item { Comes (λ i. i) (machine.item_after update.now old.now) result }
{
    let Ok(item) = copy_or_empty(alloc, old) else {
        return Err(Stop::Fault(TableFault::NoMemory));
    };
    match changed(alloc, update, &item) {
        Ok(changes) => with_changes(item, changes),
        Err(fault) => {
            drop(item);
            Err(stop_of(fault))
        }
    }
}

/// What item there would be, and whether it is that itself: no more is copied of the values that are put than an item may have, and
/// behind that a few bytes stand in for each large one. So what is too large is found out before it is made.
pub(crate) fn outline_after(
    alloc: Global,
    update: &Option<Update>,
    old: &Option<Item>,
) -> Result<(Item, bool), Stop>
    requires begins { begin_with_names (unwrap_or update.now []) ≡ true }
    ensures outline { IfOk result
        (λ r. IsOutline (machine.item_after (unwrap_or update.now []) old.now) r.0 r.1) }
    ensures refused { IfErr result (λ stop. Comes {X = List Pair} (λ i. i)
        (machine.item_after (unwrap_or update.now []) old.now) (Err stop)) }
{
    match update {
        Some(update) => outlined_item(alloc, update, old),
        None => outlined_item(alloc, &Items::new(alloc), old),
    }
}

fn outlined_item(alloc: Global, update: &Update, old: &Option<Item>) -> Result<(Item, bool), Stop>
    requires begins { begin_with_names update.now ≡ true }
    ensures outline { IfOk result (λ r. IsOutline (machine.item_after update.now old.now) r.0 r.1) }
    ensures refused { IfErr result (λ stop. Comes {X = List Pair} (λ i. i)
        (machine.item_after update.now old.now) (Err stop)) }
{
    let Ok(item) = copy_or_empty(alloc, old) else {
        return Err(Stop::Fault(TableFault::NoMemory));
    };
    match sketched(alloc, update, &item, LARGEST_ITEM) {
        Ok(Sketch { changes, whole }) => match with_changes(item, changes) {
            Ok(outline) => Ok((outline, whole)),
            Err(stop) => Err(stop),
        },
        Err(fault) => {
            drop(item);
            Err(stop_of(fault))
        }
    }
}

fn copy_or_empty(alloc: Global, old: &Option<Item>) -> Result<Item, NoMemory>
    ensures same { IfOk result (λ i. i ≡ unwrap_or old.now []) }
    ensures item { IfOk result IsItem }
{
    let copy = match old {
        Some(item) => item.copy()?,
        None => Item::new(alloc),
    };
    let _count = copy.len();
    Ok(copy)
}

fn with_changes(item: Item, changes: Vec<AttrChange>) -> Result<Item, Stop>
    ensures item { IfOk result (λ i. i ≡ with_changes changes.items item) }
    ensures cause { IfErr result IsMemory }
{
    let mut item = item;
    for change in changes {
        make(&mut item, change)?;
    }
    Ok(item)
}

fn make(item: &mut Item, change: AttrChange) -> Result<(), Stop>
    ensures made { OnOk result (item.new ≡ with_attribute_change change item.old) }
    ensures cause { IfErr result IsMemory }
{
    let AttrChange { name, value } = change;
    match value {
        Some(value) => put(item, name.as_str(), value),
        None => {
            let _old = item.remove(name.as_str());
            Ok(())
        }
    }
}

fn put(item: &mut Item, name: &str, value: Attr) -> Result<(), Stop>
    ensures put { OnOk result (item.new ≡ put_name name.now (tree_of value) item.old) }
    ensures cause { IfErr result IsMemory }
{
    if name.is_empty() {
        return Ok(());
    }
    match item.put(name, value) {
        Ok(()) => Ok(()),
        Err(_) => Err(Stop::Fault(TableFault::NoMemory)),
    }
}

/// How a request stops for the fault of an update: it is refused, unless memory was wanting.
fn stop_of(fault: UpdateFault) -> Stop
    ensures { result ≡ stop_of_update_fault fault }
{
    match fault {
        UpdateFault::BadPath => Stop::Refused(Refusal::BAD_UPDATE),
        UpdateFault::BadKind => Stop::Refused(Refusal::BAD_UPDATE),
        UpdateFault::BadNumber(fault) => Stop::Refused(number_refusal(fault)),
        UpdateFault::NoMemory => Stop::Fault(TableFault::NoMemory),
    }
}
