//! Reads of one table: each tests its body as every operation does, and then answers what its table is, or what stands at a key there.
//! An operation says what is its own, and `read_table` and `read_item` do the rest.

ghost use Rattle.std.specs.Prelude.{◌≡◌, false, true, List, Option, Some, IfOk, IfErr};
ghost use Rattle.std.specs.FinMap as map;
ghost use Rattle.serde_json.specs.Data.{Members};
ghost use Rattle.serde_json.specs.View.{members_view};
ghost use Rattle.serde_json.specs.Written.{has_float};
ghost use Rattle.alt_machine.specs.declared.Expressions.{Expressions};
ghost use Rattle.alt_machine.specs.declared.Sought.TheVariants.{Key};
ghost use Rattle.alt_machine.specs.Body as machine;
ghost use Rattle.alt_machine.specs.Expressions as words;
ghost use Rattle.alt_machine.specs.Members.{table_name};
ghost use Rattle.alt_machine.specs.Outcomes.{says};
ghost use Rattle.alt_machine.specs.State.{State, Table};
ghost use Rattle.alt_machine.specs.Targets.{on_table, on_item};
ghost use Rattle.alt_request.specs.Carried.{Carries, FollowsOutcome, IsPlainResult, Moves};
ghost use Rattle.alt_request.specs.Reads.{finds};
ghost use Rattle.alt_request.specs.Steps.{IsMemory, rules_of};
ghost use Rattle.alt_said.specs.Words.{texts_of};
ghost use Rattle.alt_schema.specs.declared.schema.TableSchema.{TableSchema};
ghost use Rattle.alt_shape.specs.Body.{body_json};
ghost use Rattle.alt_shape.specs.Refusals.{Answer, answer_of};
ghost use Rattle.alt_shape.specs.declared.rule.Broken.{Broken};
ghost use Rattle.alt_said.specs.TablesStands.{AreReady, Reads, Stands, catalog_of, bounds_of};
ghost use Rattle.alt_value.specs.Tree.{Pair};

use crate::body::{Rules, table_name};
use crate::targets::{Target, item_target, table_target};
use alt_disk::Disk;
use alt_fields::Bytes;
use alt_machine::{Expressions, Sought};
use alt_said::{Stop, Tables, Texts};
use alt_schema::TableSchema;
use alt_shape::{Broken, Reply};
use alt_value::Item;
use serde_json::{Map, Value};
use std::alloc::Global;

/// An operation that answers what a table is.
pub trait TableRead {
    /// How a body breaks its shape, if it does.
    ghost shape: { Members → Option Broken };

    /// What the operation says of its members.
    ghost rules: { machine.MemberRules };

    /// What it answers of a table.
    ghost answer: { TableSchema → Answer };

    /// The fault in a body's shape.
    fn broken(&self, body: &Map<String, Value>) -> Option<Broken>
        ensures { result ≡ shape (members_view body.now.entries) };

    /// The rules of its members.
    fn rules(&self) -> &'static Rules
        ensures { rules_of result.now ≡ rules };

    /// The reply of a table.
    fn reply(&self, alloc: Global, schema: &TableSchema) -> Result<Reply, Stop>
        ensures reply { IfOk result (λ reply. answer_of reply ≡ answer schema.now) }
        ensures plain { IfOk result (λ reply. has_float (body_json reply.body) ≡ false) }
        ensures cause { IfErr result IsMemory };
}

/// Carries out a read of what a table is.
pub fn read_table<R: TableRead, D: Disk>(
    alloc: Global,
    read: &R,
    tables: &mut Tables,
    disk: &mut D,
    body: &Map<String, Value>,
) -> Result<Reply, Stop>
    ensures carried { Carries (bounds_of tables.old).file (λ s. on_table
        (machine.body_refusals (R.shape (members_view body.now.entries)) R.rules
        (members_view body.now.entries)) s
        (members_view body.now.entries) (λ t. says (R.answer t.description)))
        (Stands (D.state disk.old) tables.old) (Stands (D.state disk.new) tables.new) result }
    ensures limits { bounds_of tables.new ≡ bounds_of tables.old }
    ensures moves { Moves (λ s. on_table
        (machine.body_refusals (R.shape (members_view body.now.entries)) R.rules
        (members_view body.now.entries)) s
        (members_view body.now.entries) (λ t. says (R.answer t.description)))
        (Stands (D.state disk.old) tables.old) (D.state disk.old) (D.state disk.new) result }
    ensures disk { D.state disk.new ≡ D.state disk.old }
{
    let _ = disk;
    let broken = read.broken(body);
    let schema = table_target(tables, body, broken, read.rules())?;
    read.reply(alloc, schema)
}

/// An operation that answers what stands at a key of a table.
pub trait ItemRead {
    /// How a body breaks its shape, if it does.
    ghost shape: { Members → Option Broken };

    /// What the operation says of its members.
    ghost rules: { machine.MemberRules };

    /// Which of its members are expressions.
    ghost texts: { words.Texts };

    /// What it answers of what its expressions say, and of the item that is there, if one is.
    ghost answer: { Expressions → Option (List Pair) → Answer };

    /// The fault in a body's shape.
    fn broken(&self, body: &Map<String, Value>) -> Option<Broken>
        ensures { result ≡ shape (members_view body.now.entries) };

    /// The rules of its members.
    fn rules(&self) -> &'static Rules
        ensures { rules_of result.now ≡ rules };

    /// Its expressions.
    fn texts(&self) -> Texts
        ensures { texts_of result ≡ texts };

    /// The reply of an item, or of none.
    fn reply(&self, alloc: Global, said: &Expressions, item: Option<Item>) -> Result<Reply, Stop>
        ensures reply { IfOk result (λ reply. answer_of reply ≡ answer said.now item) }
        ensures plain { IfOk result (λ reply. has_float (body_json reply.body) ≡ false) }
        ensures cause { IfErr result IsMemory };
}

/// Carries out a read of what stands at a key.
pub fn read_item<R: ItemRead, D: Disk>(
    alloc: Global,
    read: &R,
    tables: &mut Tables,
    disk: &mut D,
    body: &Map<String, Value>,
) -> Result<Reply, Stop>
    requires ready { AreReady (D.state disk.old) tables.old }
    ensures carried { Carries (bounds_of tables.old).file (λ s. on_item
        (machine.body_refusals (R.shape (members_view body.now.entries)) R.rules
        (members_view body.now.entries)) Key R.texts s
        (members_view body.now.entries) (λ said key t place. finds R.answer said t place))
        (Stands (D.state disk.old) tables.old) (Stands (D.state disk.new) tables.new) result }
    ensures limits { bounds_of tables.new ≡ bounds_of tables.old }
    ensures moves { Moves (λ s. on_item
        (machine.body_refusals (R.shape (members_view body.now.entries)) R.rules
        (members_view body.now.entries)) Key R.texts s
        (members_view body.now.entries) (λ said key t place. finds R.answer said t place))
        (Stands (D.state disk.old) tables.old) (D.state disk.old) (D.state disk.new) result }
    ensures disk { Reads (D.state disk.old) (D.state disk.new) }
{
    let broken = read.broken(body);
    let rules = read.rules();
    let texts = read.texts();
    let target = item_target(alloc, tables, body, broken, rules, Sought::Key, &texts)?;
    let Target {
        item: _key,
        place,
        said,
        ..
    } = target;
    let found = found_reply(alloc, read, tables, disk, body, &said, place);
    drop(said);
    found
}

/// The reply of what stands at a place of the table that a body names.
fn found_reply<R: ItemRead, D: Disk>(
    alloc: Global,
    read: &R,
    tables: &mut Tables,
    disk: &mut D,
    body: &Map<String, Value>,
    said: &Expressions,
    place: Bytes,
) -> Result<Reply, Stop>
    requires ready { AreReady (D.state disk.old) tables.old }
    requires there { map.contains_key (catalog_of tables.old)
        (table_name (members_view body.now.entries)) ≡ true }
    ensures does { (s : State) (t : Table) → Stands (D.state disk.old) tables.old s
        → map.get s.tables (table_name (members_view body.now.entries)) ≡ Some t
        → FollowsOutcome (bounds_of tables.old).file (Stands (D.state disk.new) tables.new) s (finds R.answer said.now t place) result }
    ensures plain { IsPlainResult result }
    ensures limits { bounds_of tables.new ≡ bounds_of tables.old }
    ensures moves { (t : Table) → Moves (λ s. finds R.answer said.now t place)
        (λ s. Stands (D.state disk.old) tables.old s
        × (map.get s.tables (table_name (members_view body.now.entries)) ≡ Some t))
        (D.state disk.old) (D.state disk.new) result }
    ensures disk { Reads (D.state disk.old) (D.state disk.new) }
{
    let found = tables.find(disk, table_name(body), place)?;
    read.reply(alloc, said, found.item)
}
