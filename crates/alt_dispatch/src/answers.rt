//! The way of a request: its operation, its body as JSON, and then the operation itself.

ghost use Rattle.std.specs.Prelude.{◌≡◌, false, IfOk, IsErrOf, IsTrue, OnOk, map, option_map};
ghost use Rattle.std.specs.List.{find};
ghost use Rattle.std.specs.Str.{bytes_eq};
ghost use Rattle.serde_json.specs.View.{members_view};
ghost use Rattle.serde_json.specs.Written.{has_float};
ghost use Rattle.alt_base.specs.Counts.{Rose};
ghost use Rattle.alt_disk.specs.Disk.{Goes};
ghost use Rattle.alt_disk.specs.Runs.{Quiet};
ghost use Rattle.alt_machine.specs.Members.{body_of};
ghost use Rattle.alt_machine.specs.Operations.{named_in, operation_named};
ghost use Rattle.alt_machine.specs.Outcomes.{last_state};
ghost use Rattle.alt_machine.specs.State.{State};
ghost use Rattle.alt_machine.specs.Step.{step, operates, with_body};
ghost use Rattle.alt_machine.specs.Valid.{IsValid};
ghost use Rattle.alt_dispatch.specs.Reading.{OperationOnlyReads, is_read};
ghost use Rattle.alt_dispatch.specs.Settled.{Settles, TellsReply};
ghost use Rattle.alt_request.specs.Carried.{Carries, IsPlainResult, Moves};
ghost use Rattle.alt_request.specs.TablesFaults.{WantsMemory};
ghost use Rattle.alt_request.specs.TablesImages.{Leaves};
ghost use Rattle.alt_request.specs.TablesStands.{AreReady, Reads, Stands, bounds_of};
ghost use Rattle.alt_shape.specs.Body.{body_json};

use alt_backfill::update_table;
use alt_disk::Disk;
use alt_machine::Operation;
use alt_members::{heeded, read_heeded};
use alt_ops_item::{delete_item, get_item, put_item, put_item_ahead, update_item};
use alt_readahead::{ReadAhead, batch_ahead, read_ahead};
use alt_request::{Stop, TableFault, Tables};
use alt_shape::{Refusal, Reply, refuse};
use alt_streams::{describe_stream, get_records, get_shard_iterator, list_streams};
use alt_ttl::{
    batch_get_item, batch_write_item, batch_write_item_ahead, create_table, delete_table,
    describe_table, describe_time_to_live, expire_items, list_tables, query, scan,
    update_time_to_live,
};
use json::Scratch;
use serde_json::{Map, Value};
use std::alloc::Global;

/// The operations that are built, by name.
static OPERATIONS: [(&str, Operation); 20] = [
    ("CreateTable", Operation::CreateTable),
    ("DescribeTable", Operation::DescribeTable),
    ("ListTables", Operation::ListTables),
    ("DeleteTable", Operation::DeleteTable),
    ("PutItem", Operation::PutItem),
    ("GetItem", Operation::GetItem),
    ("DeleteItem", Operation::DeleteItem),
    ("UpdateItem", Operation::UpdateItem),
    ("Query", Operation::Query),
    ("Scan", Operation::Scan),
    ("BatchWriteItem", Operation::BatchWriteItem),
    ("BatchGetItem", Operation::BatchGetItem),
    ("ListStreams", Operation::ListStreams),
    ("DescribeStream", Operation::DescribeStream),
    ("GetShardIterator", Operation::GetShardIterator),
    ("GetRecords", Operation::GetRecords),
    ("UpdateTimeToLive", Operation::UpdateTimeToLive),
    ("DescribeTimeToLive", Operation::DescribeTimeToLive),
    ("ExpireItems", Operation::ExpireItems),
    ("UpdateTable", Operation::UpdateTable),
];

/// The built operation of that name, `None` exactly where there is none.
pub fn operation_named(word: &[u8]) -> Option<Operation>
    ensures named { result ≡ operation_named word.now }
{
    named_among(&OPERATIONS, word)
}

fn named_among(operations: &[(&'static str, Operation)], word: &[u8]) -> Option<Operation>
    ensures { result ≡ named_in (map (λ p. (p.0.now, p.1)) operations.now) word.now }
{
    operation_in(operations, word)
}

fn operation_in(operations: &[(&'static str, Operation)], word: &[u8]) -> Option<Operation>
    ensures { result ≡ option_map (λ p. p.1) (find
        (λ p. bytes_eq p.0.now word.now) operations.now) }
{
    let entry = operations.iter().find(|entry| entry.0.as_bytes() == word)?;
    Some(entry.1)
}

/// One request at a moment, in whole seconds since 1970: the reply is that of the machine's step, and the tables then stand for the
/// state after the last of its writes. A refusal is a reply too, and leaves the state. `scratch` is what the reader of JSON writes to:
/// it is kept from request to request, and of no consequence to the answer.
pub fn answer<D: Disk>(
    alloc: Global,
    scratch: &mut Scratch<Global>,
    tables: &mut Tables,
    disk: &mut D,
    operation: Option<Operation>,
    body: &[u8],
    moment: u64,
) -> Result<Reply, TableFault>
    requires ready { AreReady (D.state disk.old) tables.old }
    // Ok has the answer and leaves the state after the last write, and none of the writes lacked a number or a family; an error has its
    // cause.
    ensures settles { (s : State) → Stands (D.state disk.old) tables.old s
        → Settles (bounds_of tables.old).file (Stands (D.state disk.new) tables.new) s
        (step s operation body.now moment) result }
    // Where memory was wanting the disk stands for the state after some of the writes.
    ensures wanting { IsErrOf result TableFault.NoMemory → (s : State)
        → Stands (D.state disk.old) tables.old s
        → WantsMemory (D.state disk.new) (step s operation body.now moment).wants s
        (step s operation body.now moment).atoms }
    // What holds of every state from the empty store on goes on to hold.
    ensures valid { (s : State) → Stands (D.state disk.old) tables.old s
        → OnOk result (IsValid (last_state s (step s operation body.now moment).atoms)) }
    ensures plain { IfOk result (λ reply. has_float (body_json reply.body) ≡ false) }
    // A stop at any moment of the call leaves the state after some of the writes; a request without writes leaves every file.
    ensures leaves { (s : State) → Stands (D.state disk.old) tables.old s
        → Leaves (D.state disk.old) (D.state disk.new) s (step s operation body.now moment).atoms }
    // A reply with the status 400 leaves every file, on any disk that tells them, and so does whatever comes of an operation that only reads.
    ensures refused { IfOk result (λ reply. reply.status ≡ 400 → IsTrue (D.state disk.old).tells
        → Quiet (D.state disk.old) (D.state disk.new)) }
    ensures reads { OperationOnlyReads operation → Reads (D.state disk.old) (D.state disk.new) }
    ensures limits { bounds_of tables.new ≡ bounds_of tables.old }
    ensures goes { Goes (D.state disk.old) (D.state disk.new) }
    ensures cause { IsErrOf result TableFault.Failed
        → Rose (D.state disk.old).faults (D.state disk.new).faults }
{
    let carried = respond(alloc, scratch, tables, disk, operation, body, moment);
    told(alloc, carried)
}

/// A refusal as the reply that tells it.
fn told(alloc: Global, carried: Result<Reply, Stop>) -> Result<Reply, TableFault>
    requires { IsPlainResult carried }
    ensures told { TellsReply carried result }
    ensures plain { IfOk result (λ reply. has_float (body_json reply.body) ≡ false) }
{
    match carried {
        Ok(reply) => Ok(reply),
        Err(Stop::Refused(refusal)) => match refuse(alloc, refusal) {
            Ok(reply) => Ok(reply),
            Err(_) => Err(TableFault::NoMemory),
        },
        Err(Stop::Fault(fault)) => Err(fault),
    }
}

fn respond<D: Disk>(
    alloc: Global,
    scratch: &mut Scratch<Global>,
    tables: &mut Tables,
    disk: &mut D,
    operation: Option<Operation>,
    body: &[u8],
    moment: u64,
) -> Result<Reply, Stop>
    requires ready { AreReady (D.state disk.old) tables.old }
    ensures carried { Carries (bounds_of tables.old).file (λ s. step s operation body.now moment)
        (Stands (D.state disk.old) tables.old) (Stands (D.state disk.new) tables.new) result }
    ensures limits { bounds_of tables.new ≡ bounds_of tables.old }
    ensures moves { Moves (λ s. step s operation body.now moment)
        (Stands (D.state disk.old) tables.old) (D.state disk.old) (D.state disk.new) result }
    ensures reads { OperationOnlyReads operation → Reads (D.state disk.old) (D.state disk.new) }
{
    let Some(operation) = operation else {
        return Err(Stop::Refused(Refusal::UNKNOWN_OPERATION));
    };
    match operation {
        Operation::PutItem => respond_to_put(alloc, scratch, tables, disk, body, moment),
        Operation::BatchWriteItem => respond_to_writes(alloc, scratch, tables, disk, body, moment),
        _ => respond_to(alloc, scratch, tables, disk, operation, body, moment),
    }
}

/// A put, whose item is read straight from the text of its body where that can be.
fn respond_to_put<D: Disk>(
    alloc: Global,
    scratch: &mut Scratch<Global>,
    tables: &mut Tables,
    disk: &mut D,
    body: &[u8],
    moment: u64,
) -> Result<Reply, Stop>
    requires ready { AreReady (D.state disk.old) tables.old }
    ensures carried { Carries (bounds_of tables.old).file (λ s. with_body s Operation.PutItem moment (body_of body.now))
        (Stands (D.state disk.old) tables.old) (Stands (D.state disk.new) tables.new) result }
    ensures limits { bounds_of tables.new ≡ bounds_of tables.old }
    ensures moves { Moves (λ s. with_body s Operation.PutItem moment (body_of body.now))
        (Stands (D.state disk.old) tables.old) (D.state disk.old) (D.state disk.new) result }
{
    match read_ahead(alloc, scratch, heeded(Operation::PutItem), body) {
        Ok(Some(ReadAhead { members, item })) => {
            put_item_ahead(alloc, tables, disk, &members, item, moment)
        }
        Ok(None) => respond_to(
            alloc,
            scratch,
            tables,
            disk,
            Operation::PutItem,
            body,
            moment,
        ),
        Err(_) => Err(Stop::Fault(TableFault::NoMemory)),
    }
}

/// A batch of writes, which are read straight from the text of its body where that can be.
fn respond_to_writes<D: Disk>(
    alloc: Global,
    scratch: &mut Scratch<Global>,
    tables: &mut Tables,
    disk: &mut D,
    body: &[u8],
    moment: u64,
) -> Result<Reply, Stop>
    requires ready { AreReady (D.state disk.old) tables.old }
    ensures carried { Carries (bounds_of tables.old).file (λ s. with_body s Operation.BatchWriteItem moment (body_of body.now))
        (Stands (D.state disk.old) tables.old) (Stands (D.state disk.new) tables.new) result }
    ensures limits { bounds_of tables.new ≡ bounds_of tables.old }
    ensures moves { Moves (λ s. with_body s Operation.BatchWriteItem moment (body_of body.now))
        (Stands (D.state disk.old) tables.old) (D.state disk.old) (D.state disk.new) result }
{
    match batch_ahead(alloc, scratch, body) {
        Ok(Some(asked)) => batch_write_item_ahead(alloc, tables, disk, asked, moment),
        Ok(None) => respond_to(
            alloc,
            scratch,
            tables,
            disk,
            Operation::BatchWriteItem,
            body,
            moment,
        ),
        Err(_) => Err(Stop::Fault(TableFault::NoMemory)),
    }
}

/// An operation of whose body the members that it heeds are read to JSON trees.
fn respond_to<D: Disk>(
    alloc: Global,
    scratch: &mut Scratch<Global>,
    tables: &mut Tables,
    disk: &mut D,
    operation: Operation,
    body: &[u8],
    moment: u64,
) -> Result<Reply, Stop>
    requires ready { AreReady (D.state disk.old) tables.old }
    ensures carried { Carries (bounds_of tables.old).file (λ s. with_body s operation moment (body_of body.now))
        (Stands (D.state disk.old) tables.old) (Stands (D.state disk.new) tables.new) result }
    ensures limits { bounds_of tables.new ≡ bounds_of tables.old }
    ensures moves { Moves (λ s. with_body s operation moment (body_of body.now))
        (Stands (D.state disk.old) tables.old) (D.state disk.old) (D.state disk.new) result }
    ensures reads { IsTrue (is_read operation) → Reads (D.state disk.old) (D.state disk.new) }
{
    match read_heeded(alloc, scratch, operation, body) {
        Ok(Some(members)) => carry_out(alloc, tables, disk, operation, &members, moment),
        Ok(None) => Err(Stop::Refused(Refusal::UNREADABLE)),
        Err(_) => Err(Stop::Fault(TableFault::NoMemory)),
    }
}

fn carry_out<D: Disk>(
    alloc: Global,
    tables: &mut Tables,
    disk: &mut D,
    operation: Operation,
    body: &Map<String, Value>,
    moment: u64,
) -> Result<Reply, Stop>
    requires ready { AreReady (D.state disk.old) tables.old }
    ensures carried { Carries (bounds_of tables.old).file (λ s. operates s operation moment (members_view body.now.entries))
        (Stands (D.state disk.old) tables.old) (Stands (D.state disk.new) tables.new) result }
    ensures limits { bounds_of tables.new ≡ bounds_of tables.old }
    ensures moves { Moves (λ s. operates s operation moment (members_view body.now.entries))
        (Stands (D.state disk.old) tables.old) (D.state disk.old) (D.state disk.new) result }
    ensures reads { IsTrue (is_read operation) → Reads (D.state disk.old) (D.state disk.new) }
{
    match operation {
        Operation::CreateTable => create_table(alloc, tables, disk, body, moment),
        Operation::DescribeTable => describe_table(alloc, tables, disk, body, moment),
        Operation::ListTables => list_tables(alloc, tables, disk, body, moment),
        Operation::DeleteTable => delete_table(alloc, tables, disk, body, moment),
        Operation::PutItem => put_item(alloc, tables, disk, body, moment),
        Operation::GetItem => get_item(alloc, tables, disk, body, moment),
        Operation::DeleteItem => delete_item(alloc, tables, disk, body, moment),
        Operation::UpdateItem => update_item(alloc, tables, disk, body, moment),
        Operation::Query => query(alloc, tables, disk, body, moment),
        Operation::Scan => scan(alloc, tables, disk, body, moment),
        Operation::BatchWriteItem => batch_write_item(alloc, tables, disk, body, moment),
        Operation::BatchGetItem => batch_get_item(alloc, tables, disk, body, moment),
        Operation::ListStreams => list_streams(alloc, tables, disk, body, moment),
        Operation::DescribeStream => describe_stream(alloc, tables, disk, body, moment),
        Operation::GetShardIterator => get_shard_iterator(alloc, tables, disk, body, moment),
        Operation::GetRecords => get_records(alloc, tables, disk, body, moment),
        Operation::UpdateTimeToLive => update_time_to_live(alloc, tables, disk, body, moment),
        Operation::DescribeTimeToLive => describe_time_to_live(alloc, tables, disk, body, moment),
        Operation::ExpireItems => expire_items(alloc, tables, disk, body, moment),
        Operation::UpdateTable => update_table(alloc, tables, disk, body, moment),
    }
}
