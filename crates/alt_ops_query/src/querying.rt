//! Query.

ghost use Rattle.std.specs.Prelude.{◌≡◌, ◌<◌, List, IfOk, IfSome, OnOk, option_map};
ghost use Rattle.serde_json.specs.View.{members_view};
ghost use Rattle.alt_expr.specs.KeyForm.{meets};
ghost use Rattle.alt_expr.specs.Pages.{passes};
ghost use Rattle.alt_keycond.specs.Asked.{answer_asks};
ghost use Rattle.alt_keycond.specs.KeysAsked.{AsksKeys};
ghost use Rattle.alt_keyorder.specs.KeyBytes.{IsKey};
ghost use Rattle.alt_machine.specs.Ops.Query.{query, goes_forward, key_asked, key_of as machine_key};
ghost use Rattle.alt_machine.specs.Sources.{index_at, hash_of, range_of};
ghost use Rattle.alt_machine.specs.State.{State};
ghost use Rattle.alt_ops_query.specs.PageReads.{ReadsQuery};
ghost use Rattle.alt_ops_query.specs.private.Asked.{AreHeld, IsRangeAskedOrRefused, Places};
ghost use Rattle.alt_request.specs.Carried.{Carries, Moves};
ghost use Rattle.alt_request.specs.Steps.{Comes};
ghost use Rattle.alt_request.specs.TablesStands.{AreReady, Reads, Stands, bounds_of};
ghost use Rattle.alt_value.specs.Item.{at_name};
ghost use Rattle.alt_value.specs.Stands.{tree_of};
ghost use Rattle.alt_value.specs.Tree.{Pair};
ghost use Rattle.alt_value.specs.Values.{IsValue};
ghost use Rattle.alt_views.specs.Readable.{CanRead};

use crate::pages::page_of_range;
use crate::places::{beyond, walk_start};
use crate::selecting::is_mismatched;
use crate::sources::{hash_of, index_of, range_of};
use alt_disk::Disk;
use alt_expr::Cond;
use alt_keycond::{KeyAsk, KeyCondFault, RangeAsk, key_ask, key_range};
use alt_keyorder::KeyRange;
use alt_request::{ListTarget, Rules, Stop, TableFault, Tables, Texts, list_target};
use alt_schema::{IndexSchema, TableSchema};
use alt_shape::{Refusal, Reply, bodies, truth_at};
use alt_value::{Item, held};
use serde_json::{Map, Value};
use std::alloc::Global;

static RULES: Rules = Rules {
    legacy: &["KeyConditions", "QueryFilter", "AttributesToGet"],
    texts: &[
        "KeyConditionExpression",
        "FilterExpression",
        "ProjectionExpression",
    ],
    joined: &["QueryFilter"],
    named: &["TableName", "IndexName"],
};

/// Answers a page of the items of one HASH value, by their RANGE values, in a table or in one of its indexes (API Reference, "Query"). The
/// refusals are those of docs/API.md.
pub fn query<D: Disk>(
    alloc: Global,
    tables: &mut Tables,
    disk: &mut D,
    body: &Map<String, Value>,
    moment: u64,
) -> Result<Reply, Stop>
    requires ready { AreReady (D.state disk.old) tables.old }
    ensures carried { Carries (bounds_of tables.old).file
        (λ s. query s (members_view body.now.entries))
        (Stands (D.state disk.old) tables.old) (Stands (D.state disk.new) tables.new) result }
    ensures limits { bounds_of tables.new ≡ bounds_of tables.old }
    ensures moves { Moves (λ s. query s (members_view body.now.entries))
        (Stands (D.state disk.old) tables.old) (D.state disk.old) (D.state disk.new) result }
    ensures disk { Reads (D.state disk.old) (D.state disk.new) }
    // The device is read no more often than the row files and the versions in them that the page passes ask for.
    ensures reads { (s : State) → Stands (D.state disk.old) tables.old s
        → OnOk result (ReadsQuery s (members_view body.now.entries) (D.state disk.old)
        (D.state disk.new)) }
{
    let _ = moment;
    let broken = bodies::query(body);
    let mismatched = is_mismatched(body);
    let target = list_target(
        alloc,
        tables,
        body,
        broken,
        mismatched,
        &RULES,
        &Texts::QUERYING,
    )?;
    let ListTarget {
        schema,
        index,
        start,
        said,
    } = target;
    let forward = goes_forward(body);
    match asked_range(alloc, schema, index, &said.key_condition, &start, forward) {
        Ok(range) => page_of_range(alloc, tables, disk, body, said, index, range, forward),
        Err(stop) => {
            drop(said);
            Err(stop)
        }
    }
}

/// Whether the items rise by their RANGE values.
fn goes_forward(body: &Map<String, Value>) -> bool
    ensures { result ≡ goes_forward (members_view body.now.entries) }
{
    truth_at(body, "ScanIndexForward").unwrap_or(true)
}

/// The places of the items of which a key condition holds, in the table or in its index of that number, beyond the start key, if one is
/// given.
fn asked_range(
    alloc: Global,
    schema: &TableSchema,
    number: Option<usize>,
    condition: &Option<Cond>,
    start: &Option<Item>,
    forward: bool,
) -> Result<KeyRange, Stop>
    requires index { IfSome number (λ n. CanRead schema.now n) }
    ensures asks { IsRangeAskedOrRefused schema.now (index_at schema.now number) condition.now start.now forward
        result }
{
    let index = index_of(schema, number);
    match key_asked(schema, index, condition) {
        Ok(ask) => range_of_ask(alloc, schema, index, &ask, start, forward),
        Err(stop) => Err(stop),
    }
}

/// The places of the items with what is asked, beyond the start key, if one is given.
fn range_of_ask(
    alloc: Global,
    schema: &TableSchema,
    index: Option<&IndexSchema>,
    ask: &KeyAsk,
    start: &Option<Item>,
    forward: bool,
) -> Result<KeyRange, Stop>
    requires hash { IsKey (tree_of ask.now.hash) }
    requires range { AsksKeys ask.now.range }
    ensures places { Places schema.now (option_map (λ i. i.now) index.entry) ask.now start.now
        forward result }
    ensures hash { IsValue (tree_of ask.now.hash) }
    ensures held { AreHeld ask.now.range }
{
    held(&ask.hash);
    range_held(&ask.range);
    let place = walk_start(alloc, schema, index, Some(&ask.hash), start)?;
    let range = key_range(alloc, ask)?;
    Ok(beyond(alloc, range, place, forward)?)
}

/// What a key condition asks, where it has the form of one.
fn key_asked(
    schema: &TableSchema,
    index: Option<&IndexSchema>,
    condition: &Option<Cond>,
) -> Result<KeyAsk, Stop>
    ensures asked { Comes answer_asks
        (key_asked schema.now (option_map (λ i. i.now) index.entry) condition.now) result }
    ensures holds { IfOk result (λ ask. (item : List Pair) → passes condition.now item ≡ meets
        (machine_key (hash_of schema.now (option_map (λ i. i.now) index.entry)))
        (option_map machine_key (range_of schema.now (option_map (λ i. i.now) index.entry)))
        (answer_asks ask) (λ name. at_name name item)) }
    ensures keys { IfOk result (λ ask. IsKey (tree_of ask.hash) × AsksKeys ask.range) }
{
    let Some(condition) = condition else {
        return Err(Stop::Refused(Refusal::BAD_KEY_CONDITION));
    };
    match key_ask(condition, hash_of(schema, index), range_of(schema, index)) {
        Ok(ask) => Ok(ask),
        Err(KeyCondFault::NotKey) => Err(Stop::Refused(Refusal::BAD_KEY_CONDITION)),
        Err(KeyCondFault::NoMemory) => Err(Stop::Fault(TableFault::NoMemory)),
    }
}

/// Each value that is asked of a RANGE attribute is one of the program. The call does nothing.
fn range_held(range: &RangeAsk)
    ensures held { AreHeld range.now }
{
    match range {
        RangeAsk::All => {}
        RangeAsk::Eq(value) => held(value),
        RangeAsk::Lt(value) => held(value),
        RangeAsk::Le(value) => held(value),
        RangeAsk::Gt(value) => held(value),
        RangeAsk::Ge(value) => held(value),
        RangeAsk::Between(low, high) => {
            held(low);
            held(high);
        }
        RangeAsk::Begins(value) => held(value),
    }
}
