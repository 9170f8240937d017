//! What an UpdateTable asks of its table, where nothing refuses it.

ghost use Rattle.std.specs.Prelude.{◌≡◌, ℕ, true, false, None, Some, codes, is_some};
ghost use Rattle.std.specs.List.{list_any};
ghost use Rattle.serde_json.specs.View.{members_view};
ghost use Rattle.alt_backfill.specs.private.Asked.{IsAlteringOrRefused, IsAskedOf, first_asked, stop_of_schema_fault};
ghost use Rattle.alt_machine.specs.Building.{building_in, is_building};
ghost use Rattle.alt_machine.specs.Members.{may_name};
ghost use Rattle.alt_machine.specs.Ops.UpdateTable.{acts, are_single, changes, of_body};
ghost use Rattle.alt_machine.specs.Refusals.{first_answer};
ghost use Rattle.alt_request.specs.Steps.{Tested};
ghost use Rattle.alt_schema.specs.Altered.{is_none_of};
ghost use Rattle.alt_schema.specs.Indexes.{is_named};

use crate::changes::{are_single, first_asked, index_name, names_fit};
use alt_request::{Stop, TableFault, Tables, table_name};
use alt_schema::{
    IndexSchema, SchemaFault, TableSchema, copied_schema, fits_definitions, is_name, with_index,
    without_index,
};
use alt_shape::{Refusal, bodies, text_at};
use serde_json::{Map, Value};
use std::alloc::Global;

/// The description of a table then, and whether an index comes or goes.
#[derive(Drop)]
pub(crate) struct Later {
    pub(crate) schema: TableSchema,
    pub(crate) alters: bool,
}

/// The description of the table then, where nothing refuses the request.
pub(crate) fn asked(
    alloc: Global,
    tables: &Tables,
    body: &Map<String, Value>,
) -> Result<Later, Stop>
    ensures asked { IsAlteringOrRefused tables.now (members_view body.now.entries) result }
{
    unfit(body)?;
    let Some(schema) = tables.table(table_name(body)) else {
        return Err(Stop::Refused(Refusal::NOT_FOUND));
    };
    // A table stands under its own name. On a disk that doesn't tell its contents it might not.
    if schema.name.as_str() != table_name(body) {
        return Err(Stop::Refused(Refusal::NOT_FOUND));
    }
    match asked_here(alloc, schema, body, tables.next_family()) {
        Ok(later) => Ok(later),
        Err(stop) => Err(stop),
    }
}

/// The same of a table at hand, whose next index gets that family.
fn asked_here(
    alloc: Global,
    schema: &TableSchema,
    body: &Map<String, Value>,
    family: u32,
) -> Result<Later, Stop>
    requires tested { first_answer (of_body (members_view body.now.entries)) ≡ None }
    ensures asked { IsAskedOf schema.now (members_view body.now.entries) family result }
{
    if let Some(create) = first_asked(body, "Create") {
        return coming(alloc, schema, body, create, family);
    }
    if let Some(gone) = first_asked(body, "Delete") {
        return going(alloc, schema, body, gone);
    }
    as_it_is(alloc, schema, body)
}

/// Why the body alone is refused, before its table is looked for.
fn unfit(body: &Map<String, Value>) -> Result<(), Stop>
    ensures tested { Tested (of_body (members_view body.now.entries)) result }
{
    if let Some(broken) = bodies::update_table(body) {
        return Err(Stop::Refused(Refusal::from(broken)));
    }
    if !are_single(body) {
        return Err(Stop::Refused(Refusal::BAD_INDEX_UPDATE));
    }
    if !may_name(body) || !names_fit(body) {
        return Err(Stop::Refused(Refusal::BAD_NAME));
    }
    Ok(())
}

/// Whether the name of the table, where it is there, is good.
fn may_name(body: &Map<String, Value>) -> bool
    ensures { result ≡ may_name (members_view body.now.entries) (codes "TableName") }
{
    match text_at(body, "TableName") {
        Some(name) => is_name(name),
        None => true,
    }
}

/// With an index that comes. None comes while another is being built.
fn coming(
    alloc: Global,
    schema: &TableSchema,
    body: &Map<String, Value>,
    create: &Map<String, Value>,
    family: u32,
) -> Result<Later, Stop>
    requires single { are_single (members_view body.now.entries) ≡ true }
    requires first { first_asked (codes "Create") (members_view body.now.entries)
        ≡ Some (members_view create.now.entries) }
    ensures asked { IsAskedOf schema.now (members_view body.now.entries) family result }
{
    let later = match with_index(alloc, schema, body, create, family) {
        Ok(later) => later,
        Err(fault) => return Err(stop_of(fault)),
    };
    if is_building(schema) {
        return Err(Stop::Refused(Refusal::BAD_INDEX_UPDATE));
    }
    Ok(Later {
        schema: later,
        alters: true,
    })
}

/// Without one that goes.
fn going(
    alloc: Global,
    schema: &TableSchema,
    body: &Map<String, Value>,
    gone: &Map<String, Value>,
) -> Result<Later, Stop>
    requires single { are_single (members_view body.now.entries) ≡ true }
    requires none { first_asked (codes "Create") (members_view body.now.entries) ≡ None }
    requires first { first_asked (codes "Delete") (members_view body.now.entries)
        ≡ Some (members_view gone.now.entries) }
    ensures asked { (family : ℕ) → IsAskedOf schema.now (members_view body.now.entries) family
        result }
{
    let name = index_name(gone);
    if is_none_of(schema, name) {
        return Err(Stop::Refused(Refusal::NO_SUCH_INDEX));
    }
    let later = match without_index(alloc, schema, body, name) {
        Ok(later) => later,
        Err(fault) => return Err(stop_of(fault)),
    };
    Ok(Later {
        schema: later,
        alters: true,
    })
}

/// As it is, where none does.
fn as_it_is(alloc: Global, schema: &TableSchema, body: &Map<String, Value>) -> Result<Later, Stop>
    requires none_comes { first_asked (codes "Create") (members_view body.now.entries) ≡ None }
    requires none_goes { first_asked (codes "Delete") (members_view body.now.entries) ≡ None }
    requires none_acts { list_any acts (changes (members_view body.now.entries)) ≡ false }
    ensures asked { (family : ℕ) → IsAskedOf schema.now (members_view body.now.entries) family
        result }
{
    let Ok(fits) = fits_definitions(alloc, schema, body) else {
        return Err(Stop::Fault(TableFault::NoMemory));
    };
    if !fits {
        return Err(Stop::Refused(Refusal::BAD_KEY_SCHEMA));
    }
    let Ok(schema) = copied_schema(alloc, schema) else {
        return Err(Stop::Fault(TableFault::NoMemory));
    };
    Ok(Later {
        schema,
        alters: false,
    })
}

/// What a fault of a description stops a request with.
fn stop_of(fault: SchemaFault) -> Stop
    ensures { result ≡ stop_of_schema_fault fault }
{
    match fault {
        SchemaFault::NoMemory => Stop::Fault(TableFault::NoMemory),
        SchemaFault::Refused(refusal) => Stop::Refused(refusal),
    }
}

/// Whether no global index has that name.
fn is_none_of(schema: &TableSchema, name: &str) -> bool
    ensures { result ≡ is_none_of schema.now name.now }
{
    !is_named(schema.globals.as_slice(), name)
}

fn is_named(indexes: &[IndexSchema], name: &str) -> bool
    ensures { result ≡ list_any (is_named name.now) indexes.now }
{
    indexes.iter().any(|index| index.name.as_str() == name)
}

/// Whether an index of the table is being built.
#[tactic(auto, using(crate::proofs::Walks::any_found))]
pub(crate) fn is_building(schema: &TableSchema) -> bool
    ensures { result ≡ is_some (building_in schema.now) }
{
    any_building(schema.globals.as_slice())
}

fn any_building(indexes: &[IndexSchema]) -> bool
    ensures { result ≡ list_any is_building indexes.now }
{
    indexes.iter().any(|index| !index.built.is_whole())
}
