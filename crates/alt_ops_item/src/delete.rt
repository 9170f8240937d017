//! DeleteItem.

ghost use Rattle.std.specs.Prelude.{◌≡◌};
ghost use Rattle.serde_json.specs.View.{members_view};
ghost use Rattle.alt_machine.specs.Ops.DeleteItem.{delete_item};
ghost use Rattle.alt_request.specs.Carried.{Carries, Moves};
ghost use Rattle.alt_request.specs.TablesStands.{AreReady, Stands, bounds_of};

use crate::items::old_reply;
use alt_disk::Disk;
use alt_machine::{Expressions, Sought};
use alt_request::{ItemWrite, Rules, Stop, Tables, Texts, write_item};
use alt_schema::TableSchema;
use alt_shape::{Broken, Reply, bodies};
use alt_value::Item;
use serde_json::{Map, Value};
use std::alloc::Global;

static RULES: Rules = Rules {
    legacy: &["Expected"],
    texts: &["ConditionExpression"],
    joined: &["Expected"],
    named: &["TableName"],
};

/// Nothing in the place of the item that is there.
struct Delete;

impl ItemWrite for Delete {
    ghost use Rattle.alt_ops_item.specs.private.Writes.{deleting};

    ghost says = { deleting };

    fn broken(&self, body: &Map<String, Value>) -> Option<Broken> {
        bodies::delete_item(body)
    }

    fn rules(&self) -> &'static Rules {
        &RULES
    }

    fn sought(&self) -> Sought {
        Sought::Key
    }

    fn texts(&self) -> Texts {
        Texts::CONDITIONAL
    }

    fn refusal(&self, _schema: &TableSchema, _key: &Item) -> Result<(), Stop> {
        Ok(())
    }

    fn left(
        &self,
        _alloc: Global,
        _schema: &TableSchema,
        _said: &Expressions,
        _key: Item,
        _old: &Option<Item>,
    ) -> Result<Option<Item>, Stop> {
        Ok(None)
    }

    fn reply(
        &self,
        alloc: Global,
        body: &Map<String, Value>,
        _said: &Expressions,
        old: &Option<Item>,
        _new: &Option<Item>,
    ) -> Result<Reply, Stop> {
        old_reply(alloc, body, old)
    }
}

/// Takes out the item of a key, where the condition holds of it (API Reference, "DeleteItem"). Where none is there, nothing is
/// written. The refusals are those of docs/API.md.
pub fn delete_item<D: Disk>(
    alloc: Global,
    tables: &mut Tables,
    disk: &mut D,
    body: &Map<String, Value>,
    moment: u64,
) -> Result<Reply, Stop>
    requires ready { AreReady (D.state disk.old) tables.old }
    ensures carried { Carries (bounds_of tables.old).file
        (λ s. delete_item s moment (members_view body.now.entries))
        (Stands (D.state disk.old) tables.old) (Stands (D.state disk.new) tables.new) result }
    ensures limits { bounds_of tables.new ≡ bounds_of tables.old }
    ensures moves { Moves (λ s. delete_item s moment (members_view body.now.entries))
        (Stands (D.state disk.old) tables.old) (D.state disk.old) (D.state disk.new) result }
{
    write_item(alloc, &Delete, tables, disk, body, None, moment)
}
