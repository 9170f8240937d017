//! PutItem.

ghost use Rattle.std.specs.Prelude.{◌≡◌};
ghost use Rattle.serde_json.specs.Data.{Members};
ghost use Rattle.serde_json.specs.View.{members_view};
ghost use Rattle.alt_machine.specs.Ops.PutItem.{put_item};
ghost use Rattle.alt_machine.specs.declared.Operation.TheVariants.{PutItem};
ghost use Rattle.alt_members.specs.Heeded.{heeded};
ghost use Rattle.alt_readahead.specs.Direct.{IsReadAhead};
ghost use Rattle.alt_request.specs.Carried.{Carries, Moves};
ghost use Rattle.alt_request.specs.TablesStands.{AreReady, Stands, bounds_of};

use crate::items::old_reply;
use alt_disk::Disk;
use alt_machine::{Expressions, Sought};
use alt_request::{ItemWrite, Rules, Stop, Tables, Texts, item_refusal, write_item};
use alt_schema::TableSchema;
use alt_shape::{Broken, Reply, bodies};
use alt_value::Item;
use serde_json::{Map, Value};
use std::alloc::Global;

static RULES: Rules = Rules {
    legacy: &["Expected"],
    texts: &["ConditionExpression"],
    joined: &["Expected"],
    named: &["TableName"],
};

/// The item of the request in the place of the one that is there.
struct Put;

impl ItemWrite for Put {
    ghost use Rattle.alt_ops_item.specs.private.Writes.{putting};

    ghost says = { putting };

    fn broken(&self, body: &Map<String, Value>) -> Option<Broken> {
        bodies::put_item(body)
    }

    fn rules(&self) -> &'static Rules {
        &RULES
    }

    fn sought(&self) -> Sought {
        Sought::Item
    }

    fn texts(&self) -> Texts {
        Texts::CONDITIONAL
    }

    fn refusal(&self, schema: &TableSchema, item: &Item) -> Result<(), Stop> {
        item_refusal(schema, item)
    }

    fn left(
        &self,
        _alloc: Global,
        _schema: &TableSchema,
        _said: &Expressions,
        item: Item,
        _old: &Option<Item>,
    ) -> Result<Option<Item>, Stop> {
        Ok(Some(item))
    }

    fn reply(
        &self,
        alloc: Global,
        body: &Map<String, Value>,
        _said: &Expressions,
        old: &Option<Item>,
        _new: &Option<Item>,
    ) -> Result<Reply, Stop> {
        old_reply(alloc, body, old)
    }
}

/// Puts an item in the place of the one with its key, where the condition holds of that (API Reference, "PutItem"). A put of the item
/// that is there is no write.
/// The refusals are those of docs/API.md.
pub fn put_item<D: Disk>(
    alloc: Global,
    tables: &mut Tables,
    disk: &mut D,
    body: &Map<String, Value>,
    moment: u64,
) -> Result<Reply, Stop>
    requires ready { AreReady (D.state disk.old) tables.old }
    ensures carried { Carries (bounds_of tables.old).file
        (λ s. put_item s moment (members_view body.now.entries))
        (Stands (D.state disk.old) tables.old) (Stands (D.state disk.new) tables.new) result }
    ensures limits { bounds_of tables.new ≡ bounds_of tables.old }
    ensures moves { Moves (λ s. put_item s moment (members_view body.now.entries))
        (Stands (D.state disk.old) tables.old) (D.state disk.old) (D.state disk.new) result }
{
    write_item(alloc, &Put, tables, disk, body, None, moment)
}

/// The same, of a request whose item was read ahead: the body has an empty object in its place, and no member that a put doesn't heed.
pub fn put_item_ahead<D: Disk>(
    alloc: Global,
    tables: &mut Tables,
    disk: &mut D,
    body: &Map<String, Value>,
    item: Item,
    moment: u64,
) -> Result<Reply, Stop>
    requires ready { AreReady (D.state disk.old) tables.old }
    requires read { (ms : Members) × IsReadAhead (heeded PutItem) ms (members_view body.now.entries) item }
    ensures carried { (ms : Members) → IsReadAhead (heeded PutItem) ms (members_view body.now.entries) item
        → Carries (bounds_of tables.old).file
        (λ s. put_item s moment ms)
        (Stands (D.state disk.old) tables.old) (Stands (D.state disk.new) tables.new) result }
    ensures limits { bounds_of tables.new ≡ bounds_of tables.old }
    ensures moves { (ms : Members) → IsReadAhead (heeded PutItem) ms (members_view body.now.entries) item
        → Moves (λ s. put_item s moment ms)
        (Stands (D.state disk.old) tables.old) (D.state disk.old) (D.state disk.new) result }
{
    write_item(alloc, &Put, tables, disk, body, Some(item), moment)
}
