//! UpdateItem.

ghost use Rattle.std.specs.Prelude.{◌≡◌};
ghost use Rattle.serde_json.specs.View.{members_view};
ghost use Rattle.alt_machine.specs.Ops.UpdateItem.{update_item};
ghost use Rattle.alt_request.specs.Carried.{Carries, Moves};
ghost use Rattle.alt_request.specs.TablesStands.{AreReady, Stands, bounds_of};

use crate::leaving::left_in;
use crate::returning::update_reply;
use alt_disk::Disk;
use alt_machine::{Expressions, Sought};
use alt_request::{ItemWrite, Rules, Stop, Tables, Texts, write_item};
use alt_schema::TableSchema;
use alt_shape::{Broken, Reply, bodies};
use alt_value::Item;
use serde_json::{Map, Value};
use std::alloc::Global;

static RULES: Rules = Rules {
    legacy: &["Expected", "AttributeUpdates"],
    texts: &["UpdateExpression", "ConditionExpression"],
    joined: &["Expected"],
    named: &["TableName"],
};

/// What the request's update makes of the item that is there.
struct Change;

impl ItemWrite for Change {
    ghost use Rattle.alt_ops_item.specs.private.Writes.{update_writer};

    ghost says = { update_writer };

    fn broken(&self, body: &Map<String, Value>) -> Option<Broken> {
        bodies::update_item(body)
    }

    fn rules(&self) -> &'static Rules {
        &RULES
    }

    fn sought(&self) -> Sought {
        Sought::Key
    }

    fn texts(&self) -> Texts {
        Texts::UPDATING
    }

    fn refusal(&self, _schema: &TableSchema, _key: &Item) -> Result<(), Stop> {
        Ok(())
    }

    fn left(
        &self,
        alloc: Global,
        schema: &TableSchema,
        said: &Expressions,
        key: Item,
        old: &Option<Item>,
    ) -> Result<Option<Item>, Stop> {
        left_in(alloc, schema, said, key, old)
    }

    fn reply(
        &self,
        alloc: Global,
        body: &Map<String, Value>,
        said: &Expressions,
        old: &Option<Item>,
        new: &Option<Item>,
    ) -> Result<Reply, Stop> {
        update_reply(alloc, body, &said.update, old, new)
    }
}

/// Changes the item of a key, or makes one, where the condition holds of what is there (API Reference, "UpdateItem"). An update that
/// changes nothing is no write. The refusals are those of docs/API.md.
pub fn update_item<D: Disk>(
    alloc: Global,
    tables: &mut Tables,
    disk: &mut D,
    body: &Map<String, Value>,
    moment: u64,
) -> Result<Reply, Stop>
    requires ready { AreReady (D.state disk.old) tables.old }
    ensures carried { Carries (bounds_of tables.old).file
        (λ s. update_item s moment (members_view body.now.entries))
        (Stands (D.state disk.old) tables.old) (Stands (D.state disk.new) tables.new) result }
    ensures limits { bounds_of tables.new ≡ bounds_of tables.old }
    ensures moves { Moves (λ s. update_item s moment (members_view body.now.entries))
        (Stands (D.state disk.old) tables.old) (D.state disk.old) (D.state disk.new) result }
{
    write_item(alloc, &Change, tables, disk, body, None, moment)
}
