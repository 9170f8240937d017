//! What an update leaves at the place of its key.

ghost use Rattle.std.specs.Prelude.{◌≡◌, ◌<◌, true, [], length, Some, None, IfOk, IfErr, OnOk, nat_le, slice_get, unwrap_or};
ghost use Rattle.std.specs.List.{list_all};
ghost use Rattle.alt_expr.specs.UpdateLanguage.{begin_with_names};
ghost use Rattle.alt_machine.specs.Ops.UpdateItem as machine;
ghost use Rattle.alt_machine.specs.Valid.{deepest};
ghost use Rattle.alt_ops_item.specs.private.Updates.{left_or_refusal, WithPart, is_flat};
ghost use Rattle.alt_request.specs.Steps.{Comes, IsMemory, Tested};
ghost use Rattle.alt_value.specs.Size.{fields_depth};
ghost use Rattle.alt_value.specs.Tree.{fields_of};

use crate::changing::{item_after, outline_after};
use alt_expr::{Action, Update};
use alt_machine::Expressions;
use alt_request::{Stop, TableFault, item_refusal};
use alt_schema::TableSchema;
use alt_shape::Refusal;
use alt_value::{Item, copy, depth_within};
use std::alloc::Global;

/// The most lists and maps around a value (Developer Guide, "Service, account, and table quotas").
const DEEPEST: u32 = 32;

/// What an update leaves in a table, where nothing refuses it: the item, which has its key where it is new, or none.
pub(crate) fn left_in(
    alloc: Global,
    schema: &TableSchema,
    said: &Expressions,
    key: Item,
    old: &Option<Item>,
) -> Result<Option<Item>, Stop>
    requires begins { begin_with_names (unwrap_or said.now.update []) ≡ true }
    ensures left { Comes (λ o. o) (left_or_refusal schema.now said.now key old.now) result }
{
    let (outline, whole) = outline_after(alloc, &said.update, old)?;
    let new = left(said, &key, old, outline)?;
    match left_refusal(schema, &new) {
        Ok(()) => {
            if whole {
                return Ok(new);
            }
            drop(new);
            left_at_length(alloc, schema, said, &key, old)
        }
        Err(stop) => {
            drop(new);
            Err(stop)
        }
    }
}

/// The same without an outline first.
fn left_at_length(
    alloc: Global,
    schema: &TableSchema,
    said: &Expressions,
    key: &Item,
    old: &Option<Item>,
) -> Result<Option<Item>, Stop>
    requires begins { begin_with_names (unwrap_or said.now.update []) ≡ true }
    ensures left { Comes (λ o. o) (left_or_refusal schema.now said.now key.now old.now) result }
{
    let item = item_after(alloc, &said.update, old)?;
    let made = left(said, key, old, item)?;
    match left_refusal(schema, &made) {
        Ok(()) => Ok(made),
        Err(stop) => {
            drop(made);
            Err(stop)
        }
    }
}

fn left(
    said: &Expressions,
    key: &Item,
    old: &Option<Item>,
    item: Item,
) -> Result<Option<Item>, Stop>
    ensures left { IfOk result (λ o. o ≡ machine.left_by_update said.now key.now old.now item) }
    ensures cause { IfErr result IsMemory }
{
    match old {
        Some(_) => Ok(Some(item)),
        None => left_new(said, key, item),
    }
}

fn left_new(said: &Expressions, key: &Item, item: Item) -> Result<Option<Item>, Stop>
    ensures left { IfOk result (λ o. o ≡ machine.left_by_update said.now key.now None item) }
    ensures cause { IfErr result IsMemory }
{
    if makes_none(&said.update) {
        return Ok(None);
    }
    match with_key(key, item) {
        Ok(item) => Ok(Some(item)),
        Err(stop) => Err(stop),
    }
}

/// Whether an update makes no item: whether it is one of REMOVE and DELETE alone.
fn makes_none(update: &Option<Update>) -> bool
    ensures { result ≡ machine.makes_none update.now }
{
    match update {
        Some(update) => all_take_away(update.as_slice()),
        None => false,
    }
}

fn all_take_away(actions: &[Action]) -> bool
    ensures { result ≡ list_all machine.takes_away actions.now }
{
    actions.iter().all(|action| takes_away(action))
}

fn takes_away(action: &Action) -> bool
    ensures { result ≡ machine.takes_away action.now }
{
    match action {
        Action::Remove(_) => true,
        Action::Delete(_, _) => true,
        _ => false,
    }
}

/// The item with the attributes of its key.
fn with_key(key: &Item, item: Item) -> Result<Item, Stop>
    ensures item { IfOk result (λ i. i ≡ machine.with_key_attributes key.now item) }
    ensures cause { IfErr result IsMemory }
{
    let mut item = item;
    let mut left = key.len();
    while left > 0 {
        left -= 1;
        put_part(key, left, &mut item)?;
    }
    Ok(item)
}

/// Puts an attribute of the key into the item.
fn put_part(key: &Item, i: usize, item: &mut Item) -> Result<(), Stop>
    requires within { i < length key.now }
    ensures put { OnOk result (WithPart (slice_get key.now i) item.old item.new) }
    ensures cause { IfErr result IsMemory }
{
    let _count = key.len();
    let Some((name, value)) = key.at(i) else {
        unreachable!();
    };
    let Ok(value) = copy(value) else {
        return Err(Stop::Fault(TableFault::NoMemory));
    };
    match item.put(name, value) {
        Ok(()) => Ok(()),
        Err(_) => Err(Stop::Fault(TableFault::NoMemory)),
    }
}

/// Why what is left is refused in its table.
fn left_refusal(schema: &TableSchema, new: &Option<Item>) -> Result<(), Stop>
    ensures tested { Tested (machine.of_left schema.now new.now) result }
{
    let Some(item) = new else {
        return Ok(());
    };
    if !depth_fits(item) {
        return Err(Stop::Refused(Refusal::NESTED_TOO_DEEP));
    }
    item_refusal(schema, item)
}

/// Whether no value of an item is too deep.
fn depth_fits(item: &Item) -> bool
    ensures { result ≡ nat_le (fields_depth (fields_of item.now)) deepest }
{
    for i in 0..item.len() {
        if !is_flat_at(item, i) {
            return false;
        }
    }
    true
}

fn is_flat_at(item: &Item, i: usize) -> bool
    ensures { result ≡ is_flat (slice_get item.now i) }
{
    match item.at(i) {
        Some((_, value)) => depth_within(value, DEEPEST),
        None => true,
    }
}
