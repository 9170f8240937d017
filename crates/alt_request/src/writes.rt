//! Writes of one item: each tests its body as every operation does, and then leaves at the place of its item or key what the operation
//! says, where a condition holds of what is there. An operation says what is its own, and `write_item` does the rest.

ghost use Rattle.std.specs.Prelude.{◌≡◌, false, true, List, Option, Some, Ok, IfOk, IfErr, IfSome, codes};
ghost use Rattle.std.specs.FinMap as map;
ghost use Rattle.serde_json.specs.Data.{Members};
ghost use Rattle.serde_json.specs.View.{members_view};
ghost use Rattle.serde_json.specs.Written.{has_float};
ghost use Rattle.alt_machine.specs.Members.{table_name};
ghost use Rattle.alt_machine.specs.Replies.{item_answer};
ghost use Rattle.alt_machine.specs.State.{State, Table};
ghost use Rattle.alt_machine.specs.Valid.{IsStored};
ghost use Rattle.alt_request.specs.Carried.{Carries, Moves};
ghost use Rattle.alt_request.specs.private.Decided.{CarriesAndMoves};
ghost use Rattle.alt_request.specs.ItemWrites.{Writer, AreSaid, IsAsked, LeavesStored, changes_item, writes_item};
ghost use Rattle.alt_request.specs.Steps.{Comes, IsMemory, Tested, rules_of};
ghost use Rattle.alt_said.specs.Words.{texts_of};
ghost use Rattle.alt_shape.specs.Body.{body_json};
ghost use Rattle.alt_shape.specs.Refusals.{answer_of};
ghost use Rattle.alt_said.specs.TablesStands.{AreReady, Stands, catalog_of, bounds_of};
ghost use Rattle.alt_value.specs.Tree.{Pair};

use crate::body::{Rules, table_name};
use crate::deciding::{Decided, decide};
use crate::targets::{Target, given_target};
use alt_disk::Disk;
use alt_fields::Bytes;
use alt_machine::{Expressions, Sought};
use alt_said::{Stop, Tables, Texts};
use alt_schema::TableSchema;
use alt_shape::{Broken, Reply};
use alt_value::Item;
use serde_json::{Map, Value};
use std::alloc::Global;

/// An operation that writes one item at most, at the place of an item or a key.
pub trait ItemWrite {
    /// What it says of itself.
    ghost says: { Writer };

    /// The fault in a body's shape.
    fn broken(&self, body: &Map<String, Value>) -> Option<Broken>
        ensures { result ≡ says.shape (members_view body.now.entries) };

    /// The rules of its members.
    fn rules(&self) -> &'static Rules
        ensures { rules_of result.now ≡ says.rules };

    /// Whether its body gives an item or a key.
    fn sought(&self) -> Sought
        ensures { result ≡ says.sought };

    /// Its expressions.
    fn texts(&self) -> Texts
        ensures { texts_of result ≡ says.texts };

    /// Why the item or the key is refused in its table, beside its place.
    fn refusal(&self, schema: &TableSchema, item: &Item) -> Result<(), Stop>
        ensures tested { Tested (says.takes schema.now item.now) result };

    /// What it leaves of what is there, or why it is refused.
    fn left(
        &self,
        alloc: Global,
        schema: &TableSchema,
        said: &Expressions,
        item: Item,
        old: &Option<Item>,
    ) -> Result<Option<Item>, Stop>
        requires said { AreSaid says said.now }
        ensures left { Comes (λ o. o) (says.leaves schema.now said.now item old.now) result };

    /// The reply of what was there and of what is left.
    fn reply(
        &self,
        alloc: Global,
        body: &Map<String, Value>,
        said: &Expressions,
        old: &Option<Item>,
        new: &Option<Item>,
    ) -> Result<Reply, Stop>
        ensures reply { IfOk result (λ reply. answer_of reply ≡ item_answer (codes "Attributes")
            (says.shows (members_view body.now.entries) said.now old.now new.now)) }
        ensures plain { IfOk result (λ reply. has_float (body_json reply.body) ≡ false) }
        ensures cause { IfErr result IsMemory };
}

/// Carries out a write of one item, of a body that is at hand, with the item or the key, where that was read already. What is there is looked
/// up once, and the reply is made before the write.
pub fn write_item<W: ItemWrite, D: Disk>(
    alloc: Global,
    write: &W,
    tables: &mut Tables,
    disk: &mut D,
    body: &Map<String, Value>,
    ahead: Option<Item>,
    moment: u64,
) -> Result<Reply, Stop>
    requires ready { AreReady (D.state disk.old) tables.old }
    requires asked { (ms : Members) × IsAsked W.says ms (members_view body.now.entries) ahead }
    requires stored { LeavesStored W.says }
    ensures carried { (ms : Members) → IsAsked W.says ms (members_view body.now.entries) ahead
        → Carries (bounds_of tables.old).file (λ s. writes_item W.says s moment ms)
        (Stands (D.state disk.old) tables.old) (Stands (D.state disk.new) tables.new) result }
    ensures limits { bounds_of tables.new ≡ bounds_of tables.old }
    ensures moves { (ms : Members) → IsAsked W.says ms (members_view body.now.entries) ahead
        → Moves (λ s. writes_item W.says s moment ms)
        (Stands (D.state disk.old) tables.old) (D.state disk.old) (D.state disk.new) result }
{
    let broken = write.broken(body);
    let rules = write.rules();
    let sought = write.sought();
    let texts = write.texts();
    let target = match given_target(alloc, tables, body, broken, rules, sought, &texts, ahead) {
        Ok(target) => target,
        Err(stop) => return Err(stop),
    };
    match write.refusal(target.schema, &target.item) {
        Ok(()) => {}
        Err(stop) => {
            drop(target);
            return Err(stop);
        }
    }
    let Target {
        item,
        place,
        said,
        ..
    } = target;
    let written = write_at(alloc, write, tables, disk, body, &said, item, place, moment);
    drop(said);
    written
}

/// Changes what is at the place of an item or a key in the table that a body names.
fn write_at<W: ItemWrite, D: Disk>(
    alloc: Global,
    write: &W,
    tables: &mut Tables,
    disk: &mut D,
    body: &Map<String, Value>,
    said: &Expressions,
    item: Item,
    place: Bytes,
    moment: u64,
) -> Result<Reply, Stop>
    requires ready { AreReady (D.state disk.old) tables.old }
    requires there { map.contains_key (catalog_of tables.old)
        (table_name (members_view body.now.entries)) ≡ true }
    requires said { AreSaid W.says said.now }
    requires stored { (s : State) (t : Table) → Stands (D.state disk.old) tables.old s
        → map.get s.tables (table_name (members_view body.now.entries)) ≡ Some t
        → (new : Option (List Pair))
        → W.says.leaves t.description said.now item (map.get t.items place) ≡ Ok new
        → IfSome new (IsStored t.description place) }
    ensures works { (t : Table) → CarriesAndMoves (bounds_of tables.old).file
        (λ s. changes_item W.says s moment (members_view body.now.entries) said.now item t place)
        (λ s. Stands (D.state disk.old) tables.old s
        × (map.get s.tables (table_name (members_view body.now.entries)) ≡ Some t))
        (Stands (D.state disk.new) tables.new) (D.state disk.old) (D.state disk.new) result }
    ensures limits { bounds_of tables.new ≡ bounds_of tables.old }
{
    let name = table_name(body);
    let found = match tables.find(disk, name, place) {
        Ok(found) => found,
        Err(fault) => return Err(Stop::Fault(fault)),
    };
    let Some(schema) = tables.table(name) else {
        unreachable!();
    };
    match decide(alloc, write, schema, body, said, item, &found.item) {
        Ok(Decided::Told(reply)) => Ok(reply),
        Ok(Decided::Left(new, reply)) => match tables.write(disk, name, found, new, moment) {
            Ok(_) => Ok(reply),
            Err(fault) => Err(Stop::Fault(fault)),
        },
        Err(stop) => Err(stop),
    }
}
