//! The records that a stream shows of its changes (Streams API Reference, "Record" and "StreamRecord"). Their items are written without a tree.

ghost use Rattle.std.specs.Prelude.{◌≡◌, ◌+◌, ◌↔◌, ◌≤◌, IfOk, IfSome, IsSome, IsTrue, None, OnOk, Some, codes, option_map};
ghost use Rattle.std.specs.Option.{option_map_or};
ghost use Rattle.serde_json.specs.Data.{member, no_members, object};
ghost use Rattle.alt_changes.specs.ChangeRows.{change_in};
ghost use Rattle.alt_changes.specs.KeyOf.{HasSizes, IsSized, with_attribute};
ghost use Rattle.alt_codec.specs.Writing.{json_of_pairs};
ghost use Rattle.alt_machine.specs.Changes as machine;
ghost use Rattle.alt_machine.specs.Lists.{key_attributes};
ghost use Rattle.alt_machine.specs.declared.TheConstants.{LARGEST_ITEM};
ghost use Rattle.alt_schema.specs.Json.{member_if};
ghost use Rattle.alt_schema.specs.declared.schema.TableSchema.{TableSchema};
ghost use Rattle.alt_shape.specs.Objects.{entries_json, fields_json, inner_json, leaf_json, object_json};
ghost use Rattle.alt_streams.specs.private.Recorded.{behind};
ghost use Rattle.alt_value.specs.Item.{at_name};
ghost use Rattle.alt_value.specs.Size.{item_size};

use alt_base::NoMemory;
use alt_changes::Change;
use alt_codec::Writer;
use alt_machine::LARGEST_ITEM;
use alt_schema::{KeyAttr, TableSchema, View, label, view_word};
use alt_shape::{Entry, Field, Inner, Leaf, Object};
use alt_value::{Item, copy, item_size_within};
use std::alloc::Global;

/// The record of a change of a table with a stream, whose items are as large as may be stored at most.
pub(crate) fn record_of(
    alloc: Global,
    schema: &TableSchema,
    change: Change,
) -> Result<Object, NoMemory>
    requires stream { IsSome schema.now.view }
    requires sizes { HasSizes (change_in change) }
    ensures json { IfSome schema.now.view (λ shows. IfOk result (λ o. object_json o
        ≡ machine.record_json schema.now shows (change_in change))) }
{
    let Some(shows) = schema.view else {
        unreachable!();
    };
    record_shown(alloc, schema, shows, change)
}

/// The same, of a stream that shows so much.
fn record_shown(
    alloc: Global,
    schema: &TableSchema,
    shows: View,
    change: Change,
) -> Result<Object, NoMemory>
    requires sizes { HasSizes (change_in change) }
    ensures json { IfOk result (λ o. object_json o
        ≡ machine.record_json schema.now shows (change_in change)) }
{
    let name = event_name(&change);
    let by = change.by;
    let number = label(alloc, change.number)?;
    let changed = changed_fields(alloc, schema, shows, change)?;
    let mut entries = Vec::with_capacity(alloc, 7)?;
    put_leaf(&mut entries, "awsRegion", Leaf::Word("local"))?;
    put(&mut entries, "dynamodb", Inner::Fields(changed))?;
    put_leaf(&mut entries, "eventID", Leaf::Text(number))?;
    put_leaf(&mut entries, "eventName", Leaf::Word(name))?;
    put_leaf(&mut entries, "eventSource", Leaf::Word("aws:dynamodb"))?;
    put_leaf(&mut entries, "eventVersion", Leaf::Word("1.1"))?;
    put_identity(alloc, &mut entries, by)?;
    Ok(Object { entries })
}

/// Puts an entry behind those that are there.
#[tactic(auto, using(crate::proofs::Recorded::entries_behind))]
fn put(entries: &mut Vec<Entry>, name: &'static str, value: Inner) -> Result<(), NoMemory>
    ensures { OnOk result (entries_json entries.new.items
        ≡ behind (entries_json entries.old.items) (member name.now (inner_json value) no_members)) }
{
    entries.push(Entry { name, value })?;
    Ok(())
}

fn put_leaf(entries: &mut Vec<Entry>, name: &'static str, leaf: Leaf) -> Result<(), NoMemory>
    ensures { OnOk result (entries_json entries.new.items
        ≡ behind (entries_json entries.old.items) (member name.now (leaf_json leaf) no_members)) }
{
    put(entries, name, Inner::Leaf(leaf))
}

/// Puts who made the change, where that was time to live.
#[tactic(auto, using(crate::proofs::Recorded::nothing_behind))]
fn put_identity(alloc: Global, entries: &mut Vec<Entry>, by: Writer) -> Result<(), NoMemory>
    ensures { OnOk result (entries_json entries.new.items ≡ behind (entries_json entries.old.items)
        (member_if (codes "userIdentity") (machine.identity by) no_members)) }
{
    match by {
        Writer::User => Ok(()),
        Writer::Expiry => {
            let identity = expiry_fields(alloc)?;
            put(entries, "userIdentity", Inner::Fields(identity))
        }
    }
}

/// Time to live, as a record names it.
fn expiry_fields(alloc: Global) -> Result<Vec<Field>, NoMemory>
    ensures { IfOk result (λ v. machine.identity Writer.Expiry
        ≡ Some (object (fields_json v.items))) }
{
    let mut fields = Vec::with_capacity(alloc, 2)?;
    put_field(
        &mut fields,
        "PrincipalId",
        Leaf::Word("dynamodb.amazonaws.com"),
    )?;
    put_field(&mut fields, "Type", Leaf::Word("Service"))?;
    Ok(fields)
}

/// The size of the record of a change of a table with a stream: those of the key and of the items that it shows. `None` exactly
/// where an item is larger than may be stored.
pub(crate) fn record_size(
    alloc: Global,
    schema: &TableSchema,
    change: &Change,
) -> Result<Option<u64>, NoMemory>
    requires stream { IsSome schema.now.view }
    ensures size { IfSome schema.now.view (λ shows. IfOk result (λ size. IfSome size (λ n. n
        ≡ machine.record_size schema.now shows (change_in change.now)))) }
    ensures sizes { IfOk result (λ size. IsSome size ↔ HasSizes (change_in change.now)) }
{
    let Some(shows) = schema.view else {
        unreachable!();
    };
    if !has_sizes(change) {
        return Ok(None);
    }
    Ok(Some(size_shown(alloc, schema, shows, change)?))
}

/// Whether both items of a change are as large as may be stored at most.
fn has_sizes(change: &Change) -> bool
    ensures { IsTrue result ↔ HasSizes (change_in change.now) }
{
    is_sized(&change.old) && is_sized(&change.new)
}

/// Whether an item is, if one is there.
fn is_sized(item: &Option<Item>) -> bool
    ensures { IsTrue result ↔ IsSized item.now }
{
    match item {
        Some(item) => item_size_within(item, LARGEST_ITEM).is_some(),
        None => true,
    }
}

/// The size of the record of a stream that shows so much.
fn size_shown(
    alloc: Global,
    schema: &TableSchema,
    shows: View,
    change: &Change,
) -> Result<u64, NoMemory>
    requires sizes { HasSizes (change_in change.now) }
    ensures size { IfOk result (λ n. n
        ≡ machine.record_size schema.now shows (change_in change.now)) }
{
    let key = changed_key(alloc, schema, change)?;
    Ok(size_with(&key, shows, change))
}

/// The size of the record of a change, whose items have that key.
fn size_with(key: &Item, shows: View, change: &Change) -> u64
    requires key { item_size key.now ≤ LARGEST_ITEM }
    requires sizes { HasSizes (change_in change.now) }
    ensures size { (d : TableSchema) → key.now ≡ machine.changed_key d (change_in change.now)
        → result ≡ machine.record_size d shows (change_in change.now) }
{
    size_of(Some(key)) + images_size(shows, change)
}

/// Puts a field behind those that are there.
#[tactic(auto, using(crate::proofs::Recorded::fields_behind))]
fn put_field(fields: &mut Vec<Field>, name: &'static str, value: Leaf) -> Result<(), NoMemory>
    ensures { OnOk result (fields_json fields.new.items
        ≡ behind (fields_json fields.old.items) (member name.now (leaf_json value) no_members)) }
{
    fields.push(Field { name, value })?;
    Ok(())
}

/// What was changed.
fn changed_fields(
    alloc: Global,
    schema: &TableSchema,
    shows: View,
    change: Change,
) -> Result<Vec<Field>, NoMemory>
    requires sizes { HasSizes (change_in change) }
    ensures json { IfOk result (λ v. object (fields_json v.items)
        ≡ machine.changed_json schema.now shows (change_in change)) }
{
    let key = changed_key(alloc, schema, &change)?;
    let size = size_with(&key, shows, &change);
    let number = label(alloc, change.number)?;
    let Change {
        moment,
        old,
        new,
        ..
    } = change;
    let mut fields = Vec::with_capacity(alloc, 7)?;
    put_field(
        &mut fields,
        "ApproximateCreationDateTime",
        Leaf::Count(moment),
    )?;
    put_field(&mut fields, "Keys", Leaf::Item(key))?;
    put_image(&mut fields, "NewImage", shows_new(shows), new)?;
    put_image(&mut fields, "OldImage", shows_old(shows), old)?;
    put_field(&mut fields, "SequenceNumber", Leaf::Text(number))?;
    put_field(&mut fields, "SizeBytes", Leaf::Count(size))?;
    put_field(&mut fields, "StreamViewType", Leaf::Word(view_word(shows)))?;
    Ok(fields)
}

/// Puts an item, where it is shown and was there.
#[tactic(auto, using(crate::proofs::Recorded::nothing_behind))]
fn put_image(
    fields: &mut Vec<Field>,
    name: &'static str,
    shown: bool,
    item: Option<Item>,
) -> Result<(), NoMemory>
    ensures { OnOk result (fields_json fields.new.items ≡ behind (fields_json fields.old.items)
        (member_if name.now (option_map json_of_pairs (machine.image shown item)) no_members)) }
{
    match item {
        Some(item) if shown => put_field(fields, name, Leaf::Item(item)),
        _ => Ok(()),
    }
}

/// The sizes of the items that are shown.
fn images_size(shows: View, change: &Change) -> u64
    requires sizes { HasSizes (change_in change.now) }
    ensures size { result ≡ option_map_or item_size (machine.new_image shows (change_in change.now)) 0
        + option_map_or item_size (machine.old_image shows (change_in change.now)) 0 }
    ensures bound { result ≤ LARGEST_ITEM + LARGEST_ITEM }
{
    let new = image(shows_new(shows), &change.new);
    let old = image(shows_old(shows), &change.old);
    size_of(new) + size_of(old)
}

/// Whether the old item is shown.
fn shows_old(shows: View) -> bool
    ensures { result ≡ machine.shows_old shows }
{
    match shows {
        View::OldImage | View::NewAndOldImages => true,
        View::KeysOnly | View::NewImage => false,
    }
}

/// Whether the new item is shown.
fn shows_new(shows: View) -> bool
    ensures { result ≡ machine.shows_new shows }
{
    match shows {
        View::NewImage | View::NewAndOldImages => true,
        View::KeysOnly | View::OldImage => false,
    }
}

/// An item, where it is shown and was there.
fn image(shown: bool, item: &Option<Item>) -> Option<&Item>
    ensures { option_map (λ i. i.now) result ≡ machine.image shown item.now }
{
    if shown { item.as_ref() } else { None }
}

/// The size of an item, if one is there.
fn size_of(item: Option<&Item>) -> u64
    requires size { IsSized (option_map (λ i. i.now) item) }
    ensures size { result ≡ option_map_or item_size (option_map (λ i. i.now) item.entry) 0 }
    ensures bound { result ≤ LARGEST_ITEM }
{
    let Some(item) = item else {
        return 0;
    };
    match item_size_within(item, LARGEST_ITEM) {
        Some(size) => size,
        None => unreachable!(),
    }
}

/// What became of the item: it came, it is another one, or it went.
fn event_name(change: &Change) -> &'static str
    ensures { result.now ≡ machine.event_name (change_in change.now) }
{
    match (&change.old, &change.new) {
        (None, _) => "INSERT",
        (Some(_), Some(_)) => "MODIFY",
        (Some(_), None) => "REMOVE",
    }
}

/// The key of the item, which the old and the new one have in common.
fn changed_key(alloc: Global, schema: &TableSchema, change: &Change) -> Result<Item, NoMemory>
    requires sizes { HasSizes (change_in change.now) }
    ensures key { IfOk result (λ key. key
        ≡ machine.changed_key schema.now (change_in change.now)) }
    ensures size { IfOk result (λ key. item_size key ≤ LARGEST_ITEM) }
{
    match (&change.old, &change.new) {
        (Some(item), _) => key_attributes(alloc, schema, item),
        (None, Some(item)) => key_attributes(alloc, schema, item),
        (None, None) => Ok(Item::new(alloc)),
    }
}

/// The key attributes of an item.
fn key_attributes(alloc: Global, schema: &TableSchema, item: &Item) -> Result<Item, NoMemory>
    ensures key { IfOk result (λ key. key ≡ key_attributes schema.now None item.now) }
    ensures size { IfOk result (λ key. item_size key ≤ item_size item.now) }
{
    let _count = item.len();
    let mut key = Item::new(alloc);
    put_attribute(&mut key, &schema.hash, item)?;
    if let Some(range) = &schema.range {
        put_attribute(&mut key, range, item)?;
    }
    Ok(key)
}

/// Puts a key attribute of an item into its key, where the item has it.
fn put_attribute(key: &mut Item, attribute: &KeyAttr, item: &Item) -> Result<(), NoMemory>
    ensures put { OnOk result (key.new
        ≡ with_attribute attribute.now.name (at_name attribute.now.name item.now) key.old) }
{
    let name = attribute.name.as_str();
    match item.get(name) {
        Some(value) if !name.is_empty() => key.put(name, copy(value)?),
        _ => Ok(()),
    }
}
