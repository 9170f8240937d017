//! What the list of the items that are due next is told of an item that was looked at.

ghost use Rattle.std.specs.Prelude.{◌≡◌, false, is_some, Some};
ghost use Rattle.std.specs.FinMap as map;
ghost use Rattle.std.specs.Option.{option_map_or};
ghost use Rattle.alt_due.specs.Due.{IsRipe};
ghost use Rattle.alt_machine.specs.Expiry as machine;
ghost use Rattle.alt_schema.specs.declared.schema.TableSchema.{TableSchema};
ghost use Rattle.alt_request.specs.TablesStands.{catalog_of};
ghost use Rattle.alt_ttl.specs.private.Foresight.{Defers, ListSettles};

use crate::over::is_expired;
use alt_due::{Due, Spot};
use alt_request::{Tables, expires_from};
use alt_schema::TableSchema;
use alt_value::Item;

/// Whether a table of that name is there and its items have a time to live.
pub(crate) fn may_expire(tables: &Tables, name: &str) -> bool
    ensures { result ≡ option_map_or (λ d. is_some d.ttl)
        (map.get (catalog_of tables.now) name.now) false }
{
    match tables.table(name) {
        Some(schema) => schema.ttl.is_some(),
        None => false,
    }
}

/// Whether the item at a place that is ready, in a table that is there, has expired. Where it hasn't, the list is told when it will have.
pub(crate) fn settle(
    tables: &Tables,
    moment: u64,
    due: &mut Due,
    spot: &Spot,
    item: &Option<Item>,
) -> bool
    ensures over { (d : TableSchema) → map.get (catalog_of tables.now) spot.now.table ≡ Some d
        → result ≡ option_map_or (machine.is_expired d moment) item.now false }
    ensures settles { (d : TableSchema) → map.get (catalog_of tables.now) spot.now.table ≡ Some d
        → ListSettles d moment spot.now item.now due.old due.new }
    ensures ripe { IsRipe moment due.old → IsRipe moment due.new }
{
    let Some(schema) = tables.table(spot.table.as_str()) else {
        return false;
    };
    let Some(item) = item else {
        due.drop_ready(spot);
        return false;
    };
    if is_expired(schema, moment, item) {
        return true;
    }
    due.drop_ready(spot);
    defer(schema, moment, due, spot, item);
    false
}

/// Notes when an item that hasn't expired at a moment will have, where it will.
fn defer(schema: &TableSchema, moment: u64, due: &mut Due, spot: &Spot, item: &Item)
    ensures deferred { Defers schema.now moment spot.now item.now due.old due.new }
    ensures ripe { IsRipe moment due.old → IsRipe moment due.new }
{
    if let Some(first) = expires_from(schema, item) {
        if moment < first {
            due.note(spot.table.as_str(), spot.place.as_slice(), first);
        }
    }
}
