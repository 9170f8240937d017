//! UpdateTimeToLive.

ghost use Rattle.std.specs.Prelude.{◌≡◌, false, map as each, codes, option_map, IfOk, IfErr};
ghost use Rattle.serde_json.specs.View.{view, members_view};
ghost use Rattle.serde_json.specs.Written.{has_float};
ghost use Rattle.alt_machine.specs.Ops.UpdateTimeToLive.{attribute, enables, is_barred, is_no_name, may_change, shape, specified, time_json, time_left, update_time_to_live};
ghost use Rattle.alt_machine.specs.Replies.{answers};
ghost use Rattle.alt_ttl.specs.private.Timed.{IsTimed};
ghost use Rattle.alt_request.specs.Carried.{Carries, Moves};
ghost use Rattle.alt_request.specs.Steps.{IsMemory};
ghost use Rattle.alt_shape.specs.Body.{body_json};
ghost use Rattle.alt_shape.specs.Refusals.{answer_of};
ghost use Rattle.alt_shape.specs.Shape.{demand_of, first_unmet};
ghost use Rattle.alt_request.specs.TablesStands.{AreReady, Stands, bounds_of, catalog_of};

use crate::replies::shown;
use alt_base::NoMemory;
use alt_disk::Disk;
use alt_request::{Rules, Stop, TableFault, Tables, table_name, table_target};
use alt_schema::TableSchema;
use alt_shape::{Broken, Kind, Refusal, Reply, Rule, check, object_at, text_at, truth_at};
use alt_value::Text;
use serde_json::{Map, Value, json};
use std::alloc::Global;

static RULES: Rules = Rules {
    legacy: &[],
    texts: &[],
    joined: &[],
    named: &["TableName"],
};

/// The members of the body.
const MEMBERS: [Rule; 2] = [
    Rule {
        name: "TableName",
        kind: Kind::Text,
        must: true,
    },
    Rule {
        name: "TimeToLiveSpecification",
        kind: Kind::Object,
        must: true,
    },
];

/// What is said of the attribute.
const SPECIFICATION: [Rule; 2] = [
    Rule {
        name: "AttributeName",
        kind: Kind::Text,
        must: true,
    },
    Rule {
        name: "Enabled",
        kind: Kind::Truth,
        must: true,
    },
];

/// The longest name of an attribute, in bytes.
const LONGEST_NAME: usize = 255;

/// Says which attribute of a table's items tells when their time is over, or that it no longer does (API Reference,
/// "UpdateTimeToLive"). The refusals are those of docs/API.md.
pub fn update_time_to_live<D: Disk>(
    alloc: Global,
    tables: &mut Tables,
    disk: &mut D,
    body: &Map<String, Value>,
    moment: u64,
) -> Result<Reply, Stop>
    requires ready { AreReady (D.state disk.old) tables.old }
    ensures carried { Carries (bounds_of tables.old).file (λ s. update_time_to_live s (members_view body.now.entries))
        (Stands (D.state disk.old) tables.old) (Stands (D.state disk.new) tables.new) result }
    ensures limits { bounds_of tables.new ≡ bounds_of tables.old }
    ensures moves { Moves (λ s. update_time_to_live s (members_view body.now.entries))
        (Stands (D.state disk.old) tables.old) (D.state disk.old) (D.state disk.new) result }
{
    let _ = moment;
    asked(tables, body)?;
    let reply = said(alloc, attribute(body), enables(body))?;
    tables.set_ttl(disk, table_name(body), left(body))?;
    Ok(reply)
}

/// Whether the table may have what is asked, where nothing else refuses the request.
fn asked(tables: &Tables, body: &Map<String, Value>) -> Result<(), Stop>
    ensures asked { IsTimed (catalog_of tables.now) (members_view body.now.entries) result }
{
    let schema = table_target(tables, body, broken(body), &RULES)?;
    if is_barred(body, schema) {
        return Err(Stop::Refused(Refusal::BAD_TIME_TO_LIVE));
    }
    Ok(())
}

/// Whether the name is none, or that can't be done with the table's attribute.
fn is_barred(body: &Map<String, Value>, schema: &TableSchema) -> bool
    ensures { result ≡ is_barred (members_view body.now.entries) schema.now }
{
    let name = attribute(body);
    is_no_name(name) || !may_change(enables(body), name, &schema.ttl)
}

/// How the body first breaks its shape.
fn broken(body: &Map<String, Value>) -> Option<Broken>
    ensures { result ≡ shape (members_view body.now.entries) }
{
    first_broken(&MEMBERS, body).or_else(|| broken_inside(body))
}

/// What is said of the attribute.
fn broken_inside(body: &Map<String, Value>) -> Option<Broken>
    ensures { result ≡ specified (members_view body.now.entries) }
{
    match object_at(body, "TimeToLiveSpecification") {
        Some(said) => first_broken(&SPECIFICATION, said),
        None => None,
    }
}

/// How an object breaks the first rule of a table that it breaks.
fn first_broken(rules: &[Rule], body: &Map<String, Value>) -> Option<Broken>
    ensures { result ≡ first_unmet (each demand_of rules.now) (members_view body.now.entries) }
{
    match check(rules, body) {
        Ok(()) => None,
        Err(fault) => Some(fault.broken),
    }
}

/// The name of the attribute.
fn attribute(body: &Map<String, Value>) -> &str
    ensures { result.now ≡ attribute (members_view body.now.entries) }
{
    match object_at(body, "TimeToLiveSpecification") {
        Some(said) => text_at(said, "AttributeName").unwrap_or(""),
        None => "",
    }
}

/// Whether it is to tell the time, or no longer.
fn enables(body: &Map<String, Value>) -> bool
    ensures { result ≡ enables (members_view body.now.entries) }
{
    match object_at(body, "TimeToLiveSpecification") {
        Some(said) => truth_at(said, "Enabled").unwrap_or(false),
        None => false,
    }
}

/// Whether no attribute has that name.
fn is_no_name(name: &str) -> bool
    ensures { result ≡ is_no_name name.now }
{
    name.is_empty() || name.len() > LONGEST_NAME
}

/// Whether the attribute may be told to do so, or no longer, where the table has that one, or none.
fn may_change(enables: bool, name: &str, ttl: &Option<Text>) -> bool
    ensures { result ≡ may_change enables name.now ttl.now }
{
    match ttl {
        Some(own) => !enables && own.as_str() == name,
        None => enables,
    }
}

/// The attribute that tells the time then.
fn left(body: &Map<String, Value>) -> Option<&str>
    ensures { option_map (λ n. n.now) result ≡ time_left (members_view body.now.entries) }
{
    if enables(body) {
        Some(attribute(body))
    } else {
        None
    }
}

/// The reply: what was said.
fn said(alloc: Global, name: &str, enables: bool) -> Result<Reply, Stop>
    ensures reply { IfOk result (λ reply. answer_of reply
        ≡ answers (codes "TimeToLiveSpecification") (time_json name.now enables)) }
    ensures plain { IfOk result (λ reply. has_float (body_json reply.body) ≡ false) }
    ensures cause { IfErr result IsMemory }
{
    let Ok(value) = time_json(alloc, name, enables) else {
        return Err(Stop::Fault(TableFault::NoMemory));
    };
    shown(alloc, "TimeToLiveSpecification", value)
}

/// What was said, as it is answered.
fn time_json(alloc: Global, name: &str, enables: bool) -> Result<Value, NoMemory>
    ensures json { IfOk result (λ v. view v ≡ time_json name.now enables) }
    ensures plain { IfOk result (λ v. has_float (view v) ≡ false) }
{
    Ok(json!(in alloc; {"AttributeName": name, "Enabled": enables})?)
}
