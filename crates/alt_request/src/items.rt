//! The item or the key at a member, and what its table says of its key.

ghost use Rattle.std.specs.Prelude.{◌≡◌};
ghost use Rattle.serde_json.specs.View.{members_view};
ghost use Rattle.alt_machine.specs.Keys.{place_of, key_count, byte_count, is_key_value_within, key_fits};
ghost use Rattle.alt_machine.specs.Members.{item_at};
ghost use Rattle.alt_machine.specs.Ops.PutItem.{of_item};
ghost use Rattle.alt_machine.specs.Targets.{member_of, place_in};
ghost use Rattle.alt_machine.specs.Refusals.{or_refused};
ghost use Rattle.alt_request.specs.Steps.{Comes, Tested};
ghost use Rattle.alt_shape.specs.Refusals.{bad_key};
ghost use Rattle.alt_value.specs.Stands.{tree_of};

use alt_fields::Bytes;
use alt_machine::{LARGEST_ITEM, Sought};
use alt_said::{Stop, TableFault, item_of};
use alt_schema::{KeyAttr, TableSchema};
use alt_shape::{Refusal, given};
use alt_value::{Attr, Item, item_size_within};
use alt_views::{index_keys_fit, place_of};
use serde_json::{Map, Value};
use std::alloc::Global;

/// The most bytes of a HASH and of a RANGE value (Developer Guide, "Service, account, and table quotas").
const LONGEST_HASH: usize = 2048;

const LONGEST_RANGE: usize = 1024;

/// The item or the key of a body.
pub fn item_at(alloc: Global, body: &Map<String, Value>, sought: Sought) -> Result<Item, Stop>
    ensures read { Comes (λ i. i) (item_at (member_of sought) (members_view body.now.entries))
        result }
{
    let Some(value) = given(body, member_of(sought)) else {
        return Err(Stop::Refused(Refusal::MEMBER_MISSING));
    };
    item_of(alloc, value)
}

/// The member at which an item or a key stands.
fn member_of(sought: Sought) -> &'static str
    ensures { result.now ≡ member_of sought }
{
    match sought {
        Sought::Item => "Item",
        Sought::Key => "Key",
    }
}

/// The place of an item or a key in its table. A key has the key attributes and no others.
pub(crate) fn place_in(
    alloc: Global,
    sought: Sought,
    schema: &TableSchema,
    item: &Item,
) -> Result<Bytes, Stop>
    ensures place { Comes (λ b. b) (or_refused bad_key (place_in sought schema.now item.now))
        result }
{
    match sought {
        Sought::Item => place_or_refusal(alloc, schema, item),
        Sought::Key => {
            if item.len() == key_count(schema) {
                place_or_refusal(alloc, schema, item)
            } else {
                Err(Stop::Refused(Refusal::BAD_KEY))
            }
        }
    }
}

fn place_or_refusal(alloc: Global, schema: &TableSchema, item: &Item) -> Result<Bytes, Stop>
    ensures place { Comes (λ b. b) (or_refused bad_key (place_of schema.now item.now)) result }
{
    match place_of(alloc, schema, item) {
        Ok(Some(place)) => Ok(place),
        Ok(None) => Err(Stop::Refused(Refusal::BAD_KEY)),
        Err(_) => Err(Stop::Fault(TableFault::NoMemory)),
    }
}

fn key_count(schema: &TableSchema) -> usize
    ensures { result ≡ key_count schema.now }
{
    match &schema.range {
        Some(_) => 2,
        None => 1,
    }
}

/// Why an item is refused in its table, beside its key.
pub fn item_refusal(schema: &TableSchema, item: &Item) -> Result<(), Stop>
    ensures tested { Tested (of_item schema.now item.now) result }
{
    if !index_keys_fit(schema, item) {
        return Err(Stop::Refused(Refusal::BAD_INDEX_KEY));
    }
    if item_size_within(item, LARGEST_ITEM).is_none() {
        return Err(Stop::Refused(Refusal::ITEM_TOO_LARGE));
    }
    Ok(())
}

/// Whether the values of the key are short enough.
pub(crate) fn key_fits(schema: &TableSchema, item: &Item) -> bool
    ensures fits { result ≡ key_fits schema.now item.now }
{
    if !is_within(LONGEST_HASH, item, &schema.hash) {
        return false;
    }
    match &schema.range {
        Some(range) => is_within(LONGEST_RANGE, item, range),
        None => true,
    }
}

fn is_within(most: usize, item: &Item, key: &KeyAttr) -> bool
    ensures { result ≡ is_key_value_within most item.now key.now }
{
    match item.get(key.name.as_str()) {
        Some(value) => byte_count(value) <= most,
        None => true,
    }
}

fn byte_count(value: &Attr) -> usize
    ensures { result ≡ byte_count (tree_of value.now) }
{
    match value {
        Attr::S(text) => text.as_str().len(),
        Attr::B(bytes) => bytes.as_slice().len(),
        _ => 0,
    }
}
