//! The writes that a BatchWriteItem asks for, of a body that was read ahead.

ghost use Rattle.std.specs.Prelude.{◌≡◌, ◌++◌, length, IfOk, IfErr, OnOk, map as each};
ghost use Rattle.std.specs.List.{list_all};
ghost use Rattle.alt_machine.specs.Batches as machine;
ghost use Rattle.alt_ops_batch.specs.private.Ahead as ahead;
ghost use Rattle.alt_request.specs.Steps.{Comes, IsMemory, Tested};
ghost use Rattle.alt_schema.specs.Rules.{is_name};
ghost use Rattle.alt_request.specs.TablesStands.{catalog_of};

use crate::asked_writes::members_refusal;
use crate::members::place_all;
use alt_machine::{BatchMember, MOST_WRITES, PlacedMember, Sought};
use alt_readahead::{TableWrites, Write};
use alt_request::{Stop, Tables};
use alt_schema::is_name;
use alt_shape::Refusal;
use alt_value::Text;
use std::alloc::Global;

/// The writes that were read ahead, with their places, where nothing refuses them.
#[tactic(auto, unfolding(crate::specs::private::Ahead::writes_ahead))]
pub(crate) fn writes_ahead(
    alloc: Global,
    tables: &Tables,
    asked: Vec<TableWrites>,
) -> Result<Vec<PlacedMember>, Stop>
    ensures asked { Comes (λ v. v.items)
        (ahead.writes_ahead (catalog_of tables.now) asked.items) result }
{
    tables_refusal(tables, &asked)?;
    let read = members_of(alloc, asked)?;
    let there = place_all(alloc, tables, read)?;
    match members_refusal(alloc, tables, &there) {
        Ok(()) => Ok(there),
        Err(stop) => Err(stop),
    }
}

/// Refuses writes for their number, and for the names of their tables.
fn tables_refusal(tables: &Tables, asked: &[TableWrites]) -> Result<(), Stop>
    ensures tested { Tested (ahead.table_writes_refusals (catalog_of tables.now) asked.now) result }
{
    if !is_sized(asked) {
        return Err(Stop::Refused(Refusal::BAD_BATCH));
    }
    if !all_are_names(asked) {
        return Err(Stop::Refused(Refusal::BAD_NAME));
    }
    known(tables, asked)
}

/// Whether there is a write, and there aren't more than there may be.
#[tactic(auto, using(crate::proofs::Ahead::members_from, crate::proofs::Founds::too_many, crate::proofs::Founds::sized_by_room))]
fn is_sized(asked: &[TableWrites]) -> bool
    ensures { result ≡ machine.is_sized MOST_WRITES (length (ahead.members_of asked.now)) }
{
    let mut room = MOST_WRITES;
    for table in asked {
        let count = table.writes.len();
        if room < count {
            return false;
        }
        room -= count;
    }
    room < MOST_WRITES
}

fn all_are_names(asked: &[TableWrites]) -> bool
    ensures { result ≡ list_all (λ t. is_name t.table) asked.now }
{
    asked.iter().all(|table| is_name(table.table.as_str()))
}

/// Refuses writes one of whose tables isn't there.
#[tactic(auto, using(crate::proofs::Ahead::known_from))]
fn known(tables: &Tables, asked: &[TableWrites]) -> Result<(), Stop>
    ensures tested { Tested (ahead.missing_table_refusals (catalog_of tables.now) asked.now) result }
{
    for table in asked {
        if tables.table(table.table.as_str()).is_none() {
            return Err(Stop::Refused(Refusal::NOT_FOUND));
        }
    }
    Ok(())
}

/// The writes of each table, in their order.
#[tactic(auto, using(std::proofs::lemmas::List::append_assoc))]
fn members_of(alloc: Global, asked: Vec<TableWrites>) -> Result<Vec<BatchMember>, Stop>
    ensures members { IfOk result (λ v. v.items ≡ ahead.members_of asked.items) }
    ensures cause { IfErr result IsMemory }
{
    let mut members = Vec::new(alloc);
    for writes in asked {
        let TableWrites { table, writes } = writes;
        push_writes(alloc, table.as_str(), writes, &mut members)?;
    }
    Ok(members)
}

#[tactic(auto, using(std::proofs::lemmas::List::map_push))]
fn push_writes(
    alloc: Global,
    table: &str,
    writes: Vec<Write>,
    members: &mut Vec<BatchMember>,
) -> Result<(), Stop>
    ensures pushed { OnOk result (members.new.items
        ≡ members.old.items ++ each (ahead.member_of_write table.now) writes.items) }
    ensures cause { IfErr result IsMemory }
{
    for write in writes {
        members.push(member_of(alloc, table, write)?)?;
    }
    Ok(())
}

fn member_of(alloc: Global, table: &str, write: Write) -> Result<BatchMember, Stop>
    ensures member { IfOk result (λ m. m ≡ ahead.member_of_write table.now write) }
    ensures cause { IfErr result IsMemory }
{
    let table = Text::new(alloc, table)?;
    Ok(match write {
        Write::Put(item) => BatchMember {
            table,
            sought: Sought::Item,
            item,
        },
        Write::Delete(item) => BatchMember {
            table,
            sought: Sought::Key,
            item,
        },
    })
}
