//! A page as it is answered.

ghost use Rattle.std.specs.Prelude.{◌≡◌, IfOk, OnOk, codes, option_map};
ghost use Rattle.serde_json.specs.Data.{member, no_members};
ghost use Rattle.serde_json.specs.View.{members_view};
ghost use Rattle.alt_codec.specs.Writing.{json_of_pairs};
ghost use Rattle.alt_machine.specs.Lists as machine;
ghost use Rattle.alt_ops_query.specs.private.Replied.{behind, machine_page, with_attribute, with_key};
ghost use Rattle.alt_schema.specs.Json.{member_if};
ghost use Rattle.alt_shape.specs.Body.{members_json, part_json};
ghost use Rattle.alt_shape.specs.Refusals.{answer_of};
ghost use Rattle.alt_value.specs.Item.{at_name};

use crate::selecting::selects;
use alt_base::NoMemory;
use alt_paging::Page;
use alt_schema::{IndexSchema, KeyAttr, TableSchema};
use alt_shape::{Body, Member, Part, Reply};
use alt_value::{Item, copy};
use serde_json::{Map, Value};
use std::alloc::Global;

/// The reply with a page: its counts, its items but for COUNT, and, where it ended early, the key of the last item that was examined.
pub(crate) fn page_reply(
    alloc: Global,
    schema: &TableSchema,
    index: Option<&IndexSchema>,
    body: &Map<String, Value>,
    page: Page,
) -> Result<Reply, NoMemory>
    ensures reply { IfOk result (λ reply. answer_of reply ≡ machine.page_answer schema.now
        (option_map (λ i. i.now) index.entry) (members_view body.now.entries) (machine_page page)
        page.last) }
{
    let Page {
        items,
        count,
        scanned,
        last,
        ..
    } = page;
    let mut members = Vec::with_capacity(alloc, 4)?;
    put(&mut members, "Count", Part::Count(u64::from(count)))?;
    put_items(&mut members, body, items.into_vec())?;
    put_last(alloc, &mut members, schema, index, &last)?;
    put(
        &mut members,
        "ScannedCount",
        Part::Count(u64::from(scanned)),
    )?;
    Ok(Reply {
        status: 200,
        body: Body::Members(members),
    })
}

/// Puts a member behind those that are there.
#[tactic(auto, using(crate::proofs::Shown::members_behind))]
fn put(members: &mut Vec<Member>, name: &'static str, value: Part) -> Result<(), NoMemory>
    ensures put { OnOk result (members_json members.new.items
        ≡ behind (members_json members.old.items) (member name.now (part_json value) no_members)) }
{
    members.push(Member { name, value })?;
    Ok(())
}

/// Puts the items of a page, but for COUNT.
fn put_items(
    members: &mut Vec<Member>,
    body: &Map<String, Value>,
    items: Vec<Item>,
) -> Result<(), NoMemory>
    ensures put { OnOk result (members_json members.new.items
        ≡ behind (members_json members.old.items) (member_if (codes "Items")
        (machine.shown_items (members_view body.now.entries) items.items) no_members)) }
{
    if selects(body, "COUNT") {
        return Ok(());
    }
    put(members, "Items", Part::Items(items))
}

/// Puts the key of the last item that was examined, where there is one to go on from.
#[tactic(auto, using(crate::proofs::Shown::nothing_behind))]
fn put_last(
    alloc: Global,
    members: &mut Vec<Member>,
    schema: &TableSchema,
    index: Option<&IndexSchema>,
    last: &Option<Item>,
) -> Result<(), NoMemory>
    ensures put { OnOk result (members_json members.new.items
        ≡ behind (members_json members.old.items) (member_if (codes "LastEvaluatedKey")
        (option_map (λ i. json_of_pairs (machine.key_attributes schema.now
        (option_map (λ x. x.now) index.entry) i)) last.now) no_members)) }
{
    match last {
        Some(item) => {
            let key = key_attributes(alloc, schema, index, item)?;
            put(members, "LastEvaluatedKey", Part::Item(key))
        }
        None => Ok(()),
    }
}

/// The key attributes of an item, in an index those of both keys.
fn key_attributes(
    alloc: Global,
    schema: &TableSchema,
    index: Option<&IndexSchema>,
    item: &Item,
) -> Result<Item, NoMemory>
    ensures key { IfOk result (λ key. key ≡ machine.key_attributes schema.now
        (option_map (λ i. i.now) index.entry) item.now) }
{
    let _count = item.len();
    let mut key = Item::new(alloc);
    put_key(&mut key, &schema.hash, &schema.range, item)?;
    if let Some(index) = index {
        put_key(&mut key, &index.hash, &index.range, item)?;
    }
    Ok(key)
}

/// Puts the attributes of a key of an item into its key.
fn put_key(
    key: &mut Item,
    hash: &KeyAttr,
    range: &Option<KeyAttr>,
    item: &Item,
) -> Result<(), NoMemory>
    ensures put { OnOk result (key.new ≡ with_key hash.now range.now item.now key.old) }
{
    put_attribute(key, hash, item)?;
    if let Some(range) = range {
        put_attribute(key, range, item)?;
    }
    Ok(())
}

/// Puts a key attribute of an item into its key, where the item has it.
fn put_attribute(key: &mut Item, attribute: &KeyAttr, item: &Item) -> Result<(), NoMemory>
    ensures put { OnOk result (key.new
        ≡ with_attribute attribute.now.name (at_name attribute.now.name item.now) key.old) }
{
    let name = attribute.name.as_str();
    match item.get(name) {
        Some(value) if !name.is_empty() => key.put(name, copy(value)?),
        _ => Ok(()),
    }
}
