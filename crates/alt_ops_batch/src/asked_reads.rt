//! The reads that a BatchGetItem asks for, table by table.

ghost use Rattle.std.specs.Prelude.{◌≡◌, All, IfOk, map as each};
ghost use Rattle.std.specs.List.{list_any};
ghost use Rattle.serde_json.specs.View.{view, items_view, members_view};
ghost use Rattle.alt_machine.specs.Batches as machine;
ghost use Rattle.alt_machine.specs.Lists.{is_given};
ghost use Rattle.alt_machine.specs.Ops.BatchGetItem as get;
ghost use Rattle.alt_machine.specs.Refusals.{first_answer, unless_answer};
ghost use Rattle.alt_ops_batch.specs.private.Batches.{keys_read, keys_said, reads_of, table_projection, HasPlainNames};
ghost use Rattle.alt_request.specs.Steps.{Comes};
ghost use Rattle.alt_request.specs.Words.{given_of, AreFreshWords};
ghost use Rattle.alt_request.specs.TablesStands.{catalog_of};

use crate::keys::{KeysRead, KeysSaid};
use crate::members::{
    Inside, all_are_names, elements_of, has_repeat, is_sized, known, place_all, table_named,
    tables_asked,
};
use alt_base::NoMemory;
use alt_expr::Paths;
use alt_machine::{BatchMember, Expressions, MOST_KEYS, PlacedMember, Sought};
use alt_request::{Given, Stop, Tables, Texts, expressions, given_at, item_of};
use alt_shape::{Refusal, bodies, given};
use alt_value::Text;
use serde_json::{Map, Value};
use std::alloc::Global;

/// The keys that are read in a table with their places, what is asked of them, and what of their items is shown.
#[derive(Drop)]
pub struct TableReads<'b> {
    pub table: Text,
    pub body: &'b Map<String, Value>,
    pub projection: Option<Paths>,
    pub keys: Vec<PlacedMember>,
}

/// The reads that a BatchGetItem asks for, where nothing refuses them. Each step is made over all of them before the next one.
#[tactic(auto, unfolding(alt_machine::specs::Ops::BatchGetItem::reads_asked))]
pub fn reads_asked<'b>(
    alloc: Global,
    tables: &Tables,
    body: &'b Map<String, Value>,
) -> Result<Vec<TableReads<'b>>, Stop>
    ensures asked { Comes (λ v. each reads_of v.items) (get.reads_asked (catalog_of tables.now)
        (members_view body.now.entries)) result }
    ensures plain { IfOk result (λ v. All HasPlainNames v.items) }
{
    let asked = tables_taken(body)?;
    let read = read_all(alloc, asked)?;
    known(tables, asked)?;
    let said = said_all(alloc, tables, read)?;
    let there = placed_tables(alloc, tables, said)?;
    if any_repeat(alloc, &there)? {
        return Err(Stop::Refused(Refusal::BAD_BATCH));
    }
    Ok(there)
}

/// The tables of a body that nothing refuses by itself.
fn tables_taken(body: &Map<String, Value>) -> Result<&Map<String, Value>, Stop>
    ensures taken { Comes (λ m. machine.pairs_in (members_view m.now.entries)) (unless_answer
        (first_answer (get.of_body (members_view body.now.entries)))
        (machine.tables_asked (members_view body.now.entries))) result }
{
    if let Some(broken) = bodies::batch_get_item(body) {
        return Err(Stop::Refused(Refusal::from(broken)));
    }
    let Some(tables) = tables_asked(body) else {
        return Err(Stop::Refused(Refusal::BAD_BATCH));
    };
    if some_give(tables, "AttributesToGet") && some_give(tables, "ProjectionExpression") {
        return Err(Stop::Refused(Refusal::NOT_TOGETHER));
    }
    if !is_sized(Inside::Keys, MOST_KEYS, tables) {
        return Err(Stop::Refused(Refusal::BAD_BATCH));
    }
    if !all_are_names(tables) {
        return Err(Stop::Refused(Refusal::BAD_NAME));
    }
    Ok(tables)
}

/// Whether one of the tables gives a member.
fn some_give(tables: &Map<String, Value>, name: &str) -> bool
    ensures { result ≡ get.some_give name.now
        (machine.pairs_in (members_view tables.now.entries)) }
{
    for (_, value) in tables {
        if gives(value, name) {
            return true;
        }
    }
    false
}

fn gives(value: &Value, name: &str) -> bool
    ensures { result ≡ is_given name.now (machine.members_in (view value.now)) }
{
    match value.as_object() {
        Some(asked) => given(asked, name).is_some(),
        None => false,
    }
}

/// The keys of each table and the names that are given there.
#[tactic(auto, using(crate::proofs::Founds::founds))]
fn read_all<'b>(alloc: Global, tables: &'b Map<String, Value>) -> Result<Vec<KeysRead<'b>>, Stop>
    ensures read { Comes (λ v. each keys_read v.items) (machine.each_found get.read_table
        (machine.pairs_in (members_view tables.now.entries))) result }
{
    let mut read = Vec::with_capacity(alloc, tables.len())?;
    for (name, value) in tables {
        read.push(read_table(alloc, name.as_str(), value)?)?;
    }
    Ok(read)
}

#[tactic(auto, using(crate::proofs::Plain::names_plain))]
fn read_table<'b>(alloc: Global, name: &str, value: &'b Value) -> Result<KeysRead<'b>, Stop>
    ensures read { Comes keys_read (get.read_table (name.now, view value.now)) result }
{
    let Some(body) = value.as_object() else {
        return Err(Stop::Refused(Refusal::UNREADABLE));
    };
    let keys = read_keys(alloc, name, value)?;
    let given = given_at(alloc, &Texts::PROJECTING, body)?;
    let table = Text::new(alloc, name)?;
    Ok(KeysRead {
        table,
        body,
        given,
        keys,
    })
}

fn read_keys(alloc: Global, name: &str, value: &Value) -> Result<Vec<BatchMember>, Stop>
    ensures read { Comes (λ v. v.items) (machine.each_found (get.read_batch_key name.now)
        (get.keys_in (view value.now))) result }
{
    match elements_of(Inside::Keys, value) {
        Some(elements) => each_key(alloc, name, elements),
        None => Ok(Vec::new(alloc)),
    }
}

#[tactic(auto, using(crate::proofs::Founds::founds, crate::proofs::Founds::elements_from))]
fn each_key(alloc: Global, name: &str, elements: &[Value]) -> Result<Vec<BatchMember>, Stop>
    ensures read { Comes (λ v. v.items) (machine.each_found (get.read_batch_key name.now)
        (machine.array_elements (items_view elements.now))) result }
{
    let mut keys = Vec::with_capacity(alloc, elements.len())?;
    for element in elements {
        keys.push(read_key(alloc, name, element)?)?;
    }
    Ok(keys)
}

fn read_key(alloc: Global, name: &str, value: &Value) -> Result<BatchMember, Stop>
    ensures read { Comes (λ m. m) (get.read_batch_key name.now (view value.now)) result }
{
    let item = item_of(alloc, value)?;
    let table = Text::new(alloc, name)?;
    Ok(BatchMember {
        table,
        sought: Sought::Key,
        item,
    })
}

/// What the projection of each table says.
#[tactic(auto, using(crate::proofs::Founds::founds))]
fn said_all<'b>(
    alloc: Global,
    tables: &Tables,
    read: Vec<KeysRead<'b>>,
) -> Result<Vec<KeysSaid<'b>>, Stop>
    ensures said { Comes (λ v. each keys_said v.items) (machine.each_found
        (get.projection_said (catalog_of tables.now)) (each keys_read read.entry.items)) result }
{
    let mut said = Vec::with_capacity(alloc, read.len())?;
    for keys in read {
        said.push(said_in(alloc, tables, keys)?)?;
    }
    Ok(said)
}

#[tactic(auto, using(crate::proofs::AskedReads::unshown, crate::proofs::AskedReads::shown_so, crate::proofs::Plain::parts_plain))]
fn said_in<'b>(alloc: Global, tables: &Tables, keys: KeysRead<'b>) -> Result<KeysSaid<'b>, Stop>
    ensures said { Comes keys_said
        (get.projection_said (catalog_of tables.now) (keys_read keys.entry)) result }
{
    let KeysRead {
        table,
        body,
        given,
        keys,
    } = keys;
    let projection = shown_in(alloc, tables, table.as_str(), body, given)?;
    Ok(KeysSaid {
        table,
        body,
        projection,
        keys,
    })
}

/// What the projection of a table shows.
fn shown_in(
    alloc: Global,
    tables: &Tables,
    table: &str,
    body: &Map<String, Value>,
    given: Given,
) -> Result<Option<Paths>, Stop>
    requires fresh { AreFreshWords (members_view body.now.entries) given }
    ensures shown { Comes (λ p. p) (table_projection (catalog_of tables.now) table.now
        (members_view body.now.entries) (given_of given)) result }
{
    let schema = table_named(tables, table)?;
    let said = expressions(alloc, &Texts::PROJECTING, schema, body, given)?;
    Ok(projection_of(said))
}

fn projection_of(said: Expressions) -> Option<Paths>
    ensures { result ≡ said.projection }
{
    let Expressions { projection, .. } = said;
    projection
}

/// The places of the keys of each table.
#[tactic(auto, using(crate::proofs::Founds::founds))]
fn placed_tables<'b>(
    alloc: Global,
    tables: &Tables,
    said: Vec<KeysSaid<'b>>,
) -> Result<Vec<TableReads<'b>>, Stop>
    ensures placed { Comes (λ v. each reads_of v.items) (machine.each_found
        (get.placed_all (catalog_of tables.now)) (each keys_said said.entry.items)) result }
    ensures plain { IfOk result (λ v. All HasPlainNames v.items) }
{
    let mut there = Vec::with_capacity(alloc, said.len())?;
    for keys in said {
        there.push(placed_table(alloc, tables, keys)?)?;
    }
    Ok(there)
}

fn placed_table<'b>(
    alloc: Global,
    tables: &Tables,
    said: KeysSaid<'b>,
) -> Result<TableReads<'b>, Stop>
    ensures placed { Comes reads_of (get.placed_all (catalog_of tables.now) (keys_said said.entry))
        result }
    ensures plain { IfOk result HasPlainNames }
{
    let KeysSaid {
        table,
        body,
        projection,
        keys,
    } = said;
    let keys = place_all(alloc, tables, keys)?;
    Ok(TableReads {
        table,
        body,
        projection,
        keys,
    })
}

/// Whether a key stands twice in one of the tables.
fn any_repeat(alloc: Global, there: &[TableReads<'_>]) -> Result<bool, NoMemory>
    ensures { IfOk result (λ repeat. repeat
        ≡ list_any (λ r. machine.has_repeat r.keys.items) there.now) }
{
    for reads in there {
        if has_repeat(alloc, &reads.keys)? {
            return Ok(true);
        }
    }
    Ok(false)
}
