//! The writes of a batch, read straight from the text of its body: table by table, each a put of an item or a delete of a key.

ghost use Rattle.std.specs.Prelude.{◌≡◌, ◌<◌, ◌≤◌, length, IfOk, IfSome, OnOk};
ghost use Rattle.json.specs.Json.{value, members};
ghost use Rattle.serde_json.specs.Data.{Data, Members, no_members, put};
ghost use Rattle.serde_json.specs.Read.{of_json, of_members, converted};
ghost use Rattle.alt_readahead.specs.Batch.{IsBatchAhead, SaysWrite, alone};
ghost use Rattle.alt_readahead.specs.Batches.{IsBatchSoFar, IsTablePut, place_among, ReadsRequest, ReadsTables, ReadsWrite, ReadsWrites};
ghost use Rattle.alt_readahead.specs.Direct.{SaysObject};

use crate::direct::item_ahead;
use crate::tokens::{Unread, close_object, name, open_array, open_object};
use alt_base::NoMemory;
use alt_named::pass;
use alt_value::{Item, Text};
use json::{Reader, Scratch};
use simdutf8::basic::from_utf8;
use std::alloc::Global;
use std::cmp::Ordering;

/// How many arrays and objects may stand within one another in a member, as `serde_json` has it: 127 in the body.
const LEVELS: usize = 126;

/// The most tables that are read so. A batch with as many has no more writes than one to each, so one with more of them is an odd one.
const MOST_TABLES: usize = 25;

/// A write of a batch: the item that is put, or the key of the one that is deleted.
#[derive(Drop)]
pub enum Write {
    Put(Item),
    Delete(Item),
}

/// A table with its writes.
#[derive(Drop)]
pub struct TableWrites {
    pub table: Text,
    pub writes: Vec<Write>,
}

/// The writes of a batch, read straight from the text of its body. `None` where it has to be read the long way.
/// `scratch` is kept from body to body, and changes nothing of what is read.
pub fn batch_ahead(
    alloc: Global,
    scratch: &mut Scratch<Global>,
    bytes: &[u8],
) -> Result<Option<Vec<TableWrites>>, NoMemory>
    ensures body { IfOk result (λ o. IfSome o (λ v. (ms : Members) × SaysObject bytes.now ms
        × IsBatchAhead ms v.items)) }
{
    let Ok(text) = from_utf8(bytes) else {
        return Ok(None);
    };
    match text_batch(alloc, scratch, text) {
        Ok(tables) => Ok(Some(tables)),
        Err(Unread::Otherwise) => Ok(None),
        Err(Unread::NoMemory) => Err(NoMemory),
    }
}

/// The same of a text.
fn text_batch(
    alloc: Global,
    scratch: &mut Scratch<Global>,
    text: &str,
) -> Result<Vec<TableWrites>, Unread>
    ensures body { IfOk result (λ v. (ms : Members) × SaysObject text.now ms
        × IsBatchAhead ms v.items) }
{
    let mut reader = Reader::new(text, scratch)?;
    open_object(&mut reader)?;
    let tables = body_batch(alloc, &mut reader)?;
    if reader.next().is_some() {
        return Err(Unread::Otherwise);
    }
    Ok(tables)
}

/// The same of the tokens behind the first brace.
fn body_batch(alloc: Global, reader: &mut Reader<'_>) -> Result<Vec<TableWrites>, Unread>
    ensures body { IfOk result (λ v. (ms : Members)
        × (converted (λ os. of_members os no_members)
        (members (value 126) (length reader.old) reader.old) ≡ Some (ms, reader.new))
        × IsBatchAhead ms v.items) }
{
    let mut tables = None;
    'members: while let Some(name) = reader.next_key()? {
        member_batch(alloc, reader, name, &mut tables)?;
    }
    match tables {
        Some(tables) => Ok(tables),
        None => Err(Unread::Otherwise),
    }
}

/// Reads the tables, or reads past another member.
fn member_batch(
    alloc: Global,
    reader: &mut Reader<'_>,
    name: &str,
    tables: &mut Option<Vec<TableWrites>>,
) -> Result<(), Unread>
    ensures member { OnOk result ((d : Data)
        × (converted of_json (value 126 reader.old) ≡ Some (d, reader.new))
        × ((ms : Members) → IsBatchSoFar ms tables.old → IsBatchSoFar (put name.now d ms) tables.new)) }
    ensures shorter { OnOk result (length reader.new < length reader.old) }
{
    if name == "RequestItems" {
        open_object(reader)?;
        let read = tables_ahead(alloc, reader, LEVELS - 1)?;
        *tables = Some(read);
        return Ok(());
    }
    pass(reader, LEVELS)?;
    Ok(())
}

/// The tables of a batch behind their brace.
fn tables_ahead(
    alloc: Global,
    reader: &mut Reader<'_>,
    depth: usize,
) -> Result<Vec<TableWrites>, Unread>
    requires { 4 < depth }
    ensures tables { IfOk result (λ v. ReadsTables depth reader.old v.items reader.new) }
{
    let mut tables = Vec::new(alloc);
    'tables: while let Some(name) = reader.next_key()? {
        open_array(reader)?;
        let writes = writes_ahead(alloc, reader, depth - 1)?;
        let table = Text::new(alloc, name)?;
        put_table(&mut tables, TableWrites { table, writes })?;
    }
    Ok(tables)
}

/// Puts a table in its order among the others, where there aren't too many and none has its name.
fn put_table(tables: &mut Vec<TableWrites>, table: TableWrites) -> Result<(), Unread>
    ensures put { OnOk result (IsTablePut table tables.old.items tables.new.items) }
{
    if tables.len() >= MOST_TABLES {
        return Err(Unread::Otherwise);
    }
    match place_among(tables, table.table.as_str()) {
        Some(at) => {
            tables.insert(at, table)?;
            Ok(())
        }
        None => Err(Unread::Otherwise),
    }
}

/// Where a table of that name goes among others whose names rise, None where one of them has the name.
#[tactic(auto, using(crate::proofs::Batches::place_from))]
fn place_among(tables: &[TableWrites], name: &str) -> Option<usize>
    ensures place { result ≡ place_among name.now tables.now }
    ensures within { IfSome result (λ at. at ≤ length tables.now) }
{
    let mut at = 0;
    for table in tables {
        match name.cmp(table.table.as_str()) {
            Ordering::Less => return Some(at),
            Ordering::Equal => return None,
            Ordering::Greater => at += 1,
        }
    }
    Some(at)
}

/// The writes of a table behind their bracket.
fn writes_ahead(alloc: Global, reader: &mut Reader<'_>, depth: usize) -> Result<Vec<Write>, Unread>
    requires { 3 < depth }
    ensures writes { IfOk result (λ v. ReadsWrites depth reader.old v.items reader.new) }
{
    let mut writes = Vec::new(alloc);
    'writes: while !reader.take_end_array() {
        let write = write_ahead(alloc, reader, depth)?;
        writes.push(write)?;
    }
    Ok(writes)
}

/// A write, of which nothing else is said.
fn write_ahead(alloc: Global, reader: &mut Reader<'_>, depth: usize) -> Result<Write, Unread>
    requires { 3 < depth }
    ensures write { IfOk result (λ w. ReadsWrite depth reader.old w reader.new) }
{
    open_object(reader)?;
    let request = name(reader)?;
    let write = request_ahead(alloc, reader, depth - 1, request)?;
    close_object(reader)?;
    Ok(write)
}

/// A write, of which the name was passed.
fn request_ahead(
    alloc: Global,
    reader: &mut Reader<'_>,
    depth: usize,
    request: &str,
) -> Result<Write, Unread>
    requires { 2 < depth }
    ensures write { IfOk result (λ w. (d : Data)
        × (converted of_json (value depth reader.old) ≡ Some (d, reader.new))
        × SaysWrite (alone request.now d) w) }
{
    match request {
        "PutRequest" => match item_alone(alloc, reader, depth, "Item") {
            Ok(item) => Ok(Write::Put(item)),
            Err(unread) => Err(unread),
        },
        "DeleteRequest" => match item_alone(alloc, reader, depth, "Key") {
            Ok(key) => Ok(Write::Delete(key)),
            Err(unread) => Err(unread),
        },
        _ => Err(Unread::Otherwise),
    }
}

/// The item of an object that has that member alone.
fn item_alone(
    alloc: Global,
    reader: &mut Reader<'_>,
    depth: usize,
    member: &str,
) -> Result<Item, Unread>
    requires { 1 < depth }
    ensures item { IfOk result (λ i. ReadsRequest depth member.now reader.old i reader.new) }
{
    open_object(reader)?;
    if name(reader)? != member {
        return Err(Unread::Otherwise);
    }
    let item = item_ahead(alloc, reader, depth - 1)?;
    close_object(reader)?;
    Ok(item)
}
