//! Reading the keys of a batch, table by table, until the sizes of the items have reached 16 MB.

ghost use Rattle.std.specs.Prelude.{◌≡◌, ◌+◌, ◌<◌, ◌≤◌, ◌∷◌, [], true, Some, All, IfOk, IfErr, OnOk, fold, map as each};
ghost use Rattle.std.specs.FinMap as map;
ghost use Rattle.alt_base.specs.Counts.{Rose};
ghost use Rattle.alt_machine.specs.Ops.BatchGetItem as machine;
ghost use Rattle.alt_machine.specs.State.{State};
ghost use Rattle.alt_ops_batch.specs.private.Readings.{AreAllKnown, KeyTablesAreThere, IsBounded, IsPlainRead, IsFault, IfErrFailed, IsPlainTaken, ItemsAreTaken, ShowsMore, TakesItems, read_so};
ghost use Rattle.alt_ops_batch.specs.private.Batches.{HasPlainNames, reads_of};
ghost use Rattle.alt_request.specs.Steps.{IsMemory};
ghost use Rattle.alt_request.specs.TablesLooking.{OnlyReads};
ghost use Rattle.alt_request.specs.TablesStands.{AreReady, Stands, catalog_of};
ghost use Rattle.alt_value.specs.Size.{item_size};

use crate::asked_reads::TableReads;
use crate::replies::{put_left, shown_parts};
use alt_codec::json_of_item;
use alt_disk::Disk;
use alt_expr::Paths;
use alt_machine::{BATCH_BYTES, LARGEST_ITEM, PlacedMember};
use alt_request::{Found, Stop, Tables};
use alt_shape::TableItems;
use alt_value::{Item, item_size_within};
use serde_json::{Map, Value};
use std::alloc::Global;

/// What is read so far: the sizes of the items, the items of each table, and the tables with keys that are left.
#[derive(Drop)]
pub(crate) struct Read {
    pub(crate) size: u64,
    pub(crate) responses: Vec<TableItems>,
    pub(crate) unprocessed: Map<String, Value>,
}

/// What is read of the keys of one table: the items as they are shown, and the keys that are left.
#[derive(Drop)]
struct Taken {
    items: Vec<Item>,
    left: Vec<Value>,
}

/// Reads the keys of each table.
pub(crate) fn read_all<D: Disk>(
    alloc: Global,
    tables: &mut Tables,
    disk: &mut D,
    asked: Vec<TableReads<'_>>,
) -> Result<Read, Stop>
    requires ready { AreReady (D.state disk.old) tables.old }
    requires there { AreAllKnown (catalog_of tables.old) asked.items }
    requires plain { All HasPlainNames asked.items }
    ensures read { (s : State) → Stands (D.state disk.old) tables.old s
        → IfOk result (λ read. read_so read ≡ fold (machine.with_reads s) machine.nothing_read
        (each reads_of asked.entry.items)) }
    ensures plain { IfOk result IsPlainRead }
    ensures only { OnlyReads (D.state disk.old) (D.state disk.new) tables.old tables.new }
    ensures fault { (s : State) → Stands (D.state disk.old) tables.old s
        → IfErr result IsFault }
    ensures failed { IfErrFailed result (Rose (D.state disk.old).faults (D.state disk.new).faults) }
{
    let mut read = Read {
        size: 0,
        responses: Vec::new(alloc),
        unprocessed: Map::new(alloc),
    };
    for reads in asked {
        read_table(alloc, tables, disk, reads, &mut read)?;
    }
    Ok(read)
}

/// Reads the keys of a table.
fn read_table<D: Disk>(
    alloc: Global,
    tables: &mut Tables,
    disk: &mut D,
    reads: TableReads<'_>,
    read: &mut Read,
) -> Result<(), Stop>
    requires ready { AreReady (D.state disk.old) tables.old }
    requires there { KeyTablesAreThere (catalog_of tables.old) reads.keys.items }
    requires names { HasPlainNames reads }
    requires plain { IsPlainRead read.old }
    requires bounded { IsBounded read.old.size }
    ensures read { (s : State) → Stands (D.state disk.old) tables.old s
        → OnOk result
        (read_so read.new ≡ machine.with_reads s (read_so read.old) (reads_of reads.entry)) }
    ensures plain { OnOk result (IsPlainRead read.new) }
    ensures bounded { OnOk result (IsBounded read.new.size) }
    ensures only { OnlyReads (D.state disk.old) (D.state disk.new) tables.old tables.new }
    ensures fault { (s : State) → Stands (D.state disk.old) tables.old s
        → IfErr result IsFault }
    ensures failed { IfErrFailed result (Rose (D.state disk.old).faults (D.state disk.new).faults) }
{
    let TableReads {
        table,
        body,
        projection,
        keys,
    } = reads;
    let taken = take(alloc, tables, disk, keys, &projection, &mut read.size);
    drop(projection);
    let Taken { items, left } = taken?;
    put_left(alloc, &mut read.unprocessed, table.as_str(), body, left)?;
    read.responses.push(TableItems { table, items })?;
    Ok(())
}

/// Reads these keys, and leaves those behind the item at which the sizes reach 16 MB.
fn take<D: Disk>(
    alloc: Global,
    tables: &mut Tables,
    disk: &mut D,
    keys: Vec<PlacedMember>,
    projection: &Option<Paths>,
    size: &mut u64,
) -> Result<Taken, Stop>
    requires ready { AreReady (D.state disk.old) tables.old }
    requires there { KeyTablesAreThere (catalog_of tables.old) keys.items }
    requires bounded { IsBounded size.old }
    ensures taken { (s : State) → Stands (D.state disk.old) tables.old s
        → IfOk result (λ taken. ItemsAreTaken s projection.now size.old keys.items taken size.new) }
    ensures plain { IfOk result IsPlainTaken }
    ensures bounded { OnOk result (IsBounded size.new) }
    ensures only { OnlyReads (D.state disk.old) (D.state disk.new) tables.old tables.new }
    ensures fault { (s : State) → Stands (D.state disk.old) tables.old s
        → IfErr result IsFault }
    ensures failed { IfErrFailed result (Rose (D.state disk.old).faults (D.state disk.new).faults) }
{
    let mut taken = Taken {
        items: Vec::new(alloc),
        left: Vec::new(alloc),
    };
    for key in keys {
        take_key(alloc, tables, disk, key, projection, &mut taken, size)?;
    }
    Ok(taken)
}

/// Reads a key, or leaves it where the sizes have reached 16 MB.
fn take_key<D: Disk>(
    alloc: Global,
    tables: &mut Tables,
    disk: &mut D,
    key: PlacedMember,
    projection: &Option<Paths>,
    taken: &mut Taken,
    size: &mut u64,
) -> Result<(), Stop>
    requires ready { AreReady (D.state disk.old) tables.old }
    requires there { map.contains_key (catalog_of tables.old) key.table ≡ true }
    requires plain { IsPlainTaken taken.old }
    requires bounded { IsBounded size.old }
    ensures takes { (s : State) → Stands (D.state disk.old) tables.old s
        → OnOk result (TakesItems s projection.now size.old (key ∷ []) taken.old taken.new size.new) }
    ensures plain { OnOk result (IsPlainTaken taken.new) }
    ensures bounded { OnOk result (IsBounded size.new) }
    ensures only { OnlyReads (D.state disk.old) (D.state disk.new) tables.old tables.new }
    ensures fault { (s : State) → Stands (D.state disk.old) tables.old s
        → IfErr result IsFault }
    ensures failed { IfErrFailed result (Rose (D.state disk.old).faults (D.state disk.new).faults) }
{
    if *size >= BATCH_BYTES {
        taken.left.push(json_of_item(alloc, &key.item)?)?;
        return Ok(());
    }
    read_key(alloc, tables, disk, key, projection, &mut taken.items, size)
}

/// Reads a key: the item that stands there is shown, and its size is counted.
fn read_key<D: Disk>(
    alloc: Global,
    tables: &mut Tables,
    disk: &mut D,
    key: PlacedMember,
    projection: &Option<Paths>,
    items: &mut Vec<Item>,
    size: &mut u64,
) -> Result<(), Stop>
    requires ready { AreReady (D.state disk.old) tables.old }
    requires there { map.contains_key (catalog_of tables.old) key.table ≡ true }
    requires below { size.old < BATCH_BYTES }
    ensures shown { (s : State) → Stands (D.state disk.old) tables.old s
        → OnOk result (ShowsMore projection.now (machine.found_at s key) items.old.items
        items.new.items) }
    ensures size { (s : State) → Stands (D.state disk.old) tables.old s
        → OnOk result (size.new ≡ size.old + machine.size_at s key) }
    ensures bounded { OnOk result (IsBounded size.new) }
    ensures only { OnlyReads (D.state disk.old) (D.state disk.new) tables.old tables.new }
    ensures fault { (s : State) → Stands (D.state disk.old) tables.old s
        → IfErr result IsFault }
    ensures failed { IfErrFailed result (Rose (D.state disk.old).faults (D.state disk.new).faults) }
{
    let PlacedMember { table, place, .. } = key;
    let found = tables.find(disk, table.as_str(), place)?;
    let Found { item, .. } = found;
    match item {
        Some(item) => show(alloc, projection, item, items, size),
        None => Ok(()),
    }
}

/// Shows an item, and counts its size.
fn show(
    alloc: Global,
    projection: &Option<Paths>,
    item: Item,
    items: &mut Vec<Item>,
    size: &mut u64,
) -> Result<(), Stop>
    requires below { size.old < BATCH_BYTES }
    ensures shown { OnOk result (ShowsMore projection.now (Some item) items.old.items
        items.new.items) }
    ensures size { item_size item ≤ LARGEST_ITEM
        → OnOk result (size.new ≡ size.old + item_size item) }
    ensures bounded { OnOk result (IsBounded size.new) }
    ensures cause { IfErr result IsMemory }
{
    let more = size_of(&item);
    items.push(shown_parts(alloc, projection, item)?)?;
    *size += more;
    Ok(())
}

/// The size of an item. One on a disk that keeps what was written is never larger than an item may be.
fn size_of(item: &Item) -> u64
    ensures size { item_size item.now ≤ LARGEST_ITEM → result ≡ item_size item.now }
    ensures most { result ≤ LARGEST_ITEM }
{
    match item_size_within(item, LARGEST_ITEM) {
        Some(size) => size,
        None => LARGEST_ITEM,
    }
}
