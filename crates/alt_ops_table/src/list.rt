//! ListTables.

ghost use Rattle.std.specs.Prelude.{◌≡◌, take, length, nat_lt, false, None, option_map, if◌then◌else◌, IfOk};
ghost use Rattle.std.specs.List.{last_or};
ghost use Rattle.serde_json.specs.View.{items_view, members_view};
ghost use Rattle.serde_json.specs.Written.{has_float};
ghost use Rattle.alt_codec.specs.Writing.{strings};
ghost use Rattle.alt_machine.specs.Ops.ListTables.{of_body, start_name, page_length, names_after, listed, table_names_page, list_tables};
ghost use Rattle.alt_request.specs.Carried.{Carries, Moves};
ghost use Rattle.alt_request.specs.Steps.{Tested};
ghost use Rattle.alt_shape.specs.Body.{body_json};
ghost use Rattle.alt_shape.specs.Refusals.{answer_of};
ghost use Rattle.alt_request.specs.TablesStands.{Stands, catalog_of, bounds_of};

use alt_base::NoMemory;
use alt_disk::Disk;
use alt_machine::PAGE_LENGTH;
use alt_request::{Rules, Stop, TableFault, Tables, body_refusal};
use alt_shape::{Reply, bodies, text_at, whole_at};
use alt_value::Text;
use serde_json::{Map, Value};
use std::alloc::Global;

static RULES: Rules = Rules {
    legacy: &[],
    texts: &[],
    joined: &[],
    named: &["ExclusiveStartTableName"],
};

/// Names of tables in order, and whether a table stands after the last of them.
#[derive(Drop)]
struct Page {
    names: Vec<Text>,
    more: bool,
}

/// Answers the names of tables after a name, in the order of their bytes, as many as a page takes (API Reference,
/// "ListTables"). It names the last of them as the place to go on from exactly where a table stands after it. The refusals are
/// those of docs/API.md.
pub fn list_tables<D: Disk>(
    alloc: Global,
    tables: &mut Tables,
    disk: &mut D,
    body: &Map<String, Value>,
    moment: u64,
) -> Result<Reply, Stop>
    ensures carried { Carries (bounds_of tables.old).file
        (λ s. list_tables s (members_view body.now.entries))
        (Stands (D.state disk.old) tables.old) (Stands (D.state disk.new) tables.new) result }
    ensures limits { bounds_of tables.new ≡ bounds_of tables.old }
    ensures moves { Moves (λ s. list_tables s (members_view body.now.entries))
        (Stands (D.state disk.old) tables.old) (D.state disk.old) (D.state disk.new) result }
    ensures disk { D.state disk.new ≡ D.state disk.old }
{
    let _ = disk;
    let _ = moment;
    unfit(body)?;
    match answer_of_page(alloc, tables, body) {
        Ok(reply) => Ok(reply),
        Err(_) => Err(Stop::Fault(TableFault::NoMemory)),
    }
}

/// Why the request is refused. The tables have no part in it.
fn unfit(body: &Map<String, Value>) -> Result<(), Stop>
    ensures tested { Tested (of_body (members_view body.now.entries)) result }
{
    body_refusal(bodies::list_tables(body), &RULES, body)
}

/// The page that is asked for.
fn answer_of_page(
    alloc: Global,
    tables: &Tables,
    body: &Map<String, Value>,
) -> Result<Reply, NoMemory>
    ensures reply { IfOk result (λ reply. answer_of reply
        ≡ table_names_page (page_length (members_view body.now.entries))
        (names_after (start_name (members_view body.now.entries)) (catalog_of tables.now))) }
    ensures plain { IfOk result (λ reply. has_float (body_json reply.body) ≡ false) }
{
    let page = page_after(alloc, tables, start_name(body), page_length(body))?;
    listed(alloc, &page)
}

/// The name to start after, the empty one where none is given.
fn start_name(body: &Map<String, Value>) -> &str
    ensures { result.now ≡ start_name (members_view body.now.entries) }
{
    text_at(body, "ExclusiveStartTableName").unwrap_or("")
}

/// How many names are on the page at most.
fn page_length(body: &Map<String, Value>) -> u64
    ensures { result ≡ page_length (members_view body.now.entries) }
{
    whole_at(body, "Limit").unwrap_or(PAGE_LENGTH)
}

/// The first `most` names after that one, each found from the one before.
fn page_after(alloc: Global, tables: &Tables, start: &str, most: u64) -> Result<Page, NoMemory>
    ensures names { IfOk result (λ p. p.names.items
        ≡ take most (names_after start.now (catalog_of tables.now))) }
    ensures more { IfOk result (λ p. p.more ≡ nat_lt most
        (length (names_after start.now (catalog_of tables.now)))) }
{
    let mut names = Vec::new(alloc);
    let mut last = start;
    for _ in 0..most {
        let Some(schema) = tables.table_after(last) else {
            break;
        };
        last = schema.name.as_str();
        names.push(Text::new(alloc, last)?)?;
    }
    let more = tables.table_after(last).is_some();
    Ok(Page { names, more })
}

/// The last name of a page, where it isn't the last of all.
#[tactic(auto, using(alt_base::proofs::Lists::last_get))]
fn last_name(page: &Page) -> Option<&str>
    ensures { option_map (λ s. s.now) result ≡ (if page.now.more then last_or None
        page.now.names.items else None) }
{
    if !page.more {
        return None;
    }
    Some(page.names.last()?.as_str())
}

/// The reply of a page.
fn listed(alloc: Global, page: &Page) -> Result<Reply, NoMemory>
    ensures reply { IfOk result (λ reply. answer_of reply
        ≡ listed (if page.now.more then last_or None page.now.names.items else None)
        page.now.names.items) }
{
    let names = json_of_texts(alloc, page.names.as_slice())?;
    let mut members = Map::new(alloc);
    if let Some(last) = last_name(page) {
        let last = Value::String(String::from_str(alloc, last)?);
        serde_json::put(&mut members, alloc, "LastEvaluatedTableName", last)?;
    }
    serde_json::put(&mut members, alloc, "TableNames", Value::Array(names))?;
    Ok(Reply::answered(members))
}

/// Texts as strings, in their order.
fn json_of_texts(alloc: Global, texts: &[Text]) -> Result<Vec<Value>, NoMemory>
    ensures { IfOk result (λ vs. items_view vs.items ≡ strings texts.now) }
{
    let mut values = Vec::new(alloc);
    for text in texts {
        values.push(Value::String(String::from_str(alloc, text.as_str())?))?;
    }
    Ok(values)
}
