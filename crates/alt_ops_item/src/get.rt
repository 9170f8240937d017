//! GetItem.

ghost use Rattle.std.specs.Prelude.{◌≡◌};
ghost use Rattle.serde_json.specs.View.{members_view};
ghost use Rattle.alt_machine.specs.Ops.GetItem.{get_item};
ghost use Rattle.alt_request.specs.Carried.{Carries, Moves};
ghost use Rattle.alt_request.specs.TablesStands.{AreReady, Reads, Stands, bounds_of};

use crate::items::parts_reply;
use alt_disk::Disk;
use alt_machine::Expressions;
use alt_request::{ItemRead, Rules, Stop, Tables, Texts, read_item};
use alt_shape::{Broken, Reply, bodies};
use alt_value::Item;
use serde_json::{Map, Value};
use std::alloc::Global;

static RULES: Rules = Rules {
    legacy: &["AttributesToGet"],
    texts: &["ProjectionExpression"],
    joined: &[],
    named: &["TableName"],
};

/// The item that is there, or what a projection chooses of it.
struct Shown;

impl ItemRead for Shown {
    ghost use Rattle.alt_machine.specs.Expressions.{projecting};
    ghost use Rattle.alt_machine.specs.Ops.GetItem.{rules};
    ghost use Rattle.alt_ops_item.specs.private.Gets.{projected_item_answer};
    ghost use Rattle.alt_shape.specs.Bodies as bodies;

    ghost shape = { bodies.get_item };

    ghost rules = { rules };

    ghost texts = { projecting };

    ghost answer = { projected_item_answer };

    fn broken(&self, body: &Map<String, Value>) -> Option<Broken> {
        bodies::get_item(body)
    }

    fn rules(&self) -> &'static Rules {
        &RULES
    }

    fn texts(&self) -> Texts {
        Texts::PROJECTING
    }

    fn reply(&self, alloc: Global, said: &Expressions, item: Option<Item>) -> Result<Reply, Stop> {
        parts_reply(alloc, "Item", &said.projection, item)
    }
}

/// Answers the item of a key, or what a projection chooses of it (API Reference, "GetItem"). The refusals are those of docs/API.md.
#[tactic(auto, unfolding(alt_machine::specs::Ops::GetItem::get_item))]
pub fn get_item<D: Disk>(
    alloc: Global,
    tables: &mut Tables,
    disk: &mut D,
    body: &Map<String, Value>,
    moment: u64,
) -> Result<Reply, Stop>
    requires ready { AreReady (D.state disk.old) tables.old }
    ensures carried { Carries (bounds_of tables.old).file
        (λ s. get_item s (members_view body.now.entries))
        (Stands (D.state disk.old) tables.old) (Stands (D.state disk.new) tables.new) result }
    ensures limits { bounds_of tables.new ≡ bounds_of tables.old }
    ensures moves { Moves (λ s. get_item s (members_view body.now.entries))
        (Stands (D.state disk.old) tables.old) (D.state disk.old) (D.state disk.new) result }
    ensures disk { Reads (D.state disk.old) (D.state disk.new) }
{
    let _ = moment;
    read_item(alloc, &Shown, tables, disk, body)
}
