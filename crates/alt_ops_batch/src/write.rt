//! BatchWriteItem.

ghost use Rattle.std.specs.Prelude.{◌≡◌, false, Some, IfOk, IfErr, map as each};
ghost use Rattle.serde_json.specs.Data.{Members};
ghost use Rattle.serde_json.specs.View.{members_view};
ghost use Rattle.serde_json.specs.Written.{has_float};
ghost use Rattle.alt_machine.specs.Ops.BatchWriteItem as machine;
ghost use Rattle.alt_machine.specs.Ops.BatchWriteItem.{written_by};
ghost use Rattle.alt_machine.specs.State.{State};
ghost use Rattle.alt_ops_batch.specs.private.Batches.{AreAsked};
ghost use Rattle.alt_readahead.specs.Batch.{IsBatchAhead};
ghost use Rattle.alt_request.specs.TablesLooking.{FailsReading, OnlyReads};
ghost use Rattle.alt_request.specs.TablesSeveral.{Every, IsFound, MayWrite, written_at};
ghost use Rattle.alt_request.specs.Carried.{Carries, Moves};
ghost use Rattle.alt_request.specs.Steps.{IsMemory};
ghost use Rattle.alt_shape.specs.Body.{body_json};
ghost use Rattle.alt_shape.specs.Refusals.{answer_of};
ghost use Rattle.alt_request.specs.TablesStands.{AreReady, Stands, catalog_of, bounds_of};

use crate::asked_ahead::writes_ahead;
use crate::asked_writes::writes_asked;
use alt_codec::Writer;
use alt_disk::Disk;
use alt_machine::{PlacedMember, Sought};
use alt_readahead::TableWrites;
use alt_request::{ItemChange, Stop, TableFault, Tables, one_member};
use alt_shape::Reply;
use alt_value::Item;
use serde_json::{Map, Value};
use std::alloc::Global;

/// Puts and deletes items, all of them or none (API Reference, "BatchWriteItem"). A member that leaves what is there is no write. All are
/// looked up and the reply is made before they are written, so behind that nothing but the device keeps the reply back. Where a number
/// or memory is wanting, none is written, and the run ends. The refusals are those of docs/API.md.
pub fn batch_write_item<D: Disk>(
    alloc: Global,
    tables: &mut Tables,
    disk: &mut D,
    body: &Map<String, Value>,
    moment: u64,
) -> Result<Reply, Stop>
    requires ready { AreReady (D.state disk.old) tables.old }
    ensures carried { Carries (bounds_of tables.old).file
        (λ s. machine.batch_write_item s moment (members_view body.now.entries))
        (Stands (D.state disk.old) tables.old) (Stands (D.state disk.new) tables.new) result }
    ensures limits { bounds_of tables.new ≡ bounds_of tables.old }
    ensures moves { Moves (λ s. machine.batch_write_item s moment (members_view body.now.entries))
        (Stands (D.state disk.old) tables.old) (D.state disk.old) (D.state disk.new) result }
{
    let asked = writes_asked(alloc, tables, body);
    write_asked(alloc, tables, disk, asked, moment)
}

/// The same, of a request whose writes were read ahead.
pub fn batch_write_item_ahead<D: Disk>(
    alloc: Global,
    tables: &mut Tables,
    disk: &mut D,
    asked: Vec<TableWrites>,
    moment: u64,
) -> Result<Reply, Stop>
    requires ready { AreReady (D.state disk.old) tables.old }
    requires read { (ms : Members) × IsBatchAhead ms asked.items }
    ensures carried { (ms : Members) → IsBatchAhead ms asked.items
        → Carries (bounds_of tables.old).file (λ s. machine.batch_write_item s moment ms)
        (Stands (D.state disk.old) tables.old) (Stands (D.state disk.new) tables.new) result }
    ensures limits { bounds_of tables.new ≡ bounds_of tables.old }
    ensures moves { (ms : Members) → IsBatchAhead ms asked.items
        → Moves (λ s. machine.batch_write_item s moment ms)
        (Stands (D.state disk.old) tables.old) (D.state disk.old) (D.state disk.new) result }
{
    let asked = writes_ahead(alloc, tables, asked);
    write_asked(alloc, tables, disk, asked, moment)
}

/// Makes the writes that a body asks for, or says why they are refused.
fn write_asked<D: Disk>(
    alloc: Global,
    tables: &mut Tables,
    disk: &mut D,
    asked: Result<Vec<PlacedMember>, Stop>,
    moment: u64,
) -> Result<Reply, Stop>
    requires ready { AreReady (D.state disk.old) tables.old }
    requires asked { (ms : Members) × AreAsked (catalog_of tables.old) ms asked }
    ensures carried { (ms : Members) → AreAsked (catalog_of tables.old) ms asked
        → Carries (bounds_of tables.old).file (λ s. machine.batch_write_item s moment ms)
        (Stands (D.state disk.old) tables.old) (Stands (D.state disk.new) tables.new) result }
    ensures limits { bounds_of tables.new ≡ bounds_of tables.old }
    ensures moves { (ms : Members) → AreAsked (catalog_of tables.old) ms asked
        → Moves (λ s. machine.batch_write_item s moment ms)
        (Stands (D.state disk.old) tables.old) (D.state disk.old) (D.state disk.new) result }
{
    let members = asked?;
    let changes = find_all(alloc, tables, disk, members)?;
    let reply = all_processed(alloc)?;
    tables.write_all(disk, changes, moment, Writer::User)?;
    Ok(reply)
}

/// The reply: nothing is left unprocessed.
fn all_processed(alloc: Global) -> Result<Reply, Stop>
    ensures reply { IfOk result (λ reply. answer_of reply ≡ machine.all_processed) }
    ensures plain { IfOk result (λ reply. has_float (body_json reply.body) ≡ false) }
    ensures cause { IfErr result IsMemory }
{
    Ok(one_member(alloc, "UnprocessedItems", Value::Object(Map::new(alloc)))?)
}

/// What stands at the places of these members, with what they leave there.
fn find_all<D: Disk>(
    alloc: Global,
    tables: &mut Tables,
    disk: &mut D,
    members: Vec<PlacedMember>,
) -> Result<Vec<ItemChange>, TableFault>
    requires ready { AreReady (D.state disk.old) tables.old }
    requires may { Every (MayWrite (catalog_of tables.old)) (each written_by members.items) }
    ensures written { IfOk result (λ v. each written_at v.items ≡ each written_by members.items) }
    ensures found { (s : State) → Stands (D.state disk.old) tables.old s
        → IfOk result (λ v. Every (IsFound s) v.items) }
    ensures only { OnlyReads (D.state disk.old) (D.state disk.new) tables.old tables.new }
    ensures fails { FailsReading (D.state disk.old) (D.state disk.new) tables.old result }
{
    let mut changes = Vec::with_capacity(alloc, members.len())?;
    for member in members {
        changes.push(find(tables, disk, member)?)?;
    }
    Ok(changes)
}

/// What stands at the place of a member, with what it leaves there.
fn find<D: Disk>(
    tables: &mut Tables,
    disk: &mut D,
    member: PlacedMember,
) -> Result<ItemChange, TableFault>
    requires ready { AreReady (D.state disk.old) tables.old }
    requires may { MayWrite (catalog_of tables.old) (written_by member) }
    ensures written { IfOk result (λ c. written_at c ≡ written_by member) }
    ensures found { (s : State) → Stands (D.state disk.old) tables.old s
        → IfOk result (IsFound s) }
    ensures only { OnlyReads (D.state disk.old) (D.state disk.new) tables.old tables.new }
    ensures fails { FailsReading (D.state disk.old) (D.state disk.new) tables.old result }
{
    let PlacedMember {
        table,
        sought,
        item,
        place,
    } = member;
    let found = tables.find(disk, table.as_str(), place)?;
    let new = left_of(sought, item);
    Ok(ItemChange { table, found, new })
}

/// What a member leaves at its place: the item that is put, or nothing.
fn left_of(sought: Sought, item: Item) -> Option<Item>
    ensures { result ≡ machine.left_at_place sought item }
{
    match sought {
        Sought::Item => Some(item),
        Sought::Key => None,
    }
}
