//! Scan.

ghost use Rattle.std.specs.Prelude.{◌≡◌, ◌||◌, ◌+◌, ◌^◌, ◌<◌, ◌≤◌, [], false, None, IfOk, IfSome, OnOk, option_map};
ghost use Rattle.serde_json.specs.View.{members_view};
ghost use Rattle.alt_machine.specs.Lists.{is_mismatched};
ghost use Rattle.alt_machine.specs.Ops.Scan as machine;
ghost use Rattle.alt_machine.specs.Ops.Scan.{scan, is_segment_odd};
ghost use Rattle.alt_machine.specs.Sources.{index_at};
ghost use Rattle.alt_machine.specs.State.{State};
ghost use Rattle.alt_ops_query.specs.PageReads.{ReadsScan};
ghost use Rattle.alt_ops_query.specs.private.Asked.{Segments};
ghost use Rattle.alt_ops_query.specs.private.Tokens.{machine_segment, first_token, token_bytes, end_token};
ghost use Rattle.alt_request.specs.Carried.{Carries, Moves};
ghost use Rattle.alt_request.specs.TablesStands.{AreReady, Reads, Stands, bounds_of};
ghost use Rattle.alt_views.specs.Readable.{CanRead};

use crate::pages::page_of_range;
use crate::places::{beyond, walk_start};
use crate::selecting::is_mismatched;
use crate::sources::index_of;
use alt_base::NoMemory;
use alt_disk::Disk;
use alt_fields::Bytes;
use alt_keyorder::KeyRange;
use alt_request::{ListTarget, Rules, Stop, Tables, Texts, list_target};
use alt_schema::TableSchema;
use alt_shape::{Reply, bodies, whole_at};
use alt_value::Item;
use serde_json::{Map, Value};
use std::alloc::Global;

static RULES: Rules = Rules {
    legacy: &["ScanFilter", "AttributesToGet"],
    texts: &["FilterExpression", "ProjectionExpression"],
    joined: &["ScanFilter"],
    named: &["TableName", "IndexName"],
};

/// How many tokens there are.
const TOKENS: u128 = 18_446_744_073_709_551_616;

/// One of so many segments, numbered from 0.
#[derive(Clone, Copy)]
struct Segment {
    number: u64,
    total: u64,
}

/// Answers a page of all items of a table or of one of its indexes, or of one segment of them, in the order of their places (API
/// Reference, "Scan"). The refusals are those of docs/API.md.
pub fn scan<D: Disk>(
    alloc: Global,
    tables: &mut Tables,
    disk: &mut D,
    body: &Map<String, Value>,
    moment: u64,
) -> Result<Reply, Stop>
    requires ready { AreReady (D.state disk.old) tables.old }
    ensures carried { Carries (bounds_of tables.old).file
        (λ s. scan s (members_view body.now.entries))
        (Stands (D.state disk.old) tables.old) (Stands (D.state disk.new) tables.new) result }
    ensures limits { bounds_of tables.new ≡ bounds_of tables.old }
    ensures moves { Moves (λ s. scan s (members_view body.now.entries))
        (Stands (D.state disk.old) tables.old) (D.state disk.old) (D.state disk.new) result }
    ensures disk { Reads (D.state disk.old) (D.state disk.new) }
    // The device is read no more often than the row files and the versions in them that the page passes ask for.
    ensures reads { (s : State) → Stands (D.state disk.old) tables.old s
        → OnOk result (ReadsScan s (members_view body.now.entries) (D.state disk.old)
        (D.state disk.new)) }
{
    let _ = moment;
    let broken = bodies::scan(body);
    let mismatched = are_odd(body);
    let target = list_target(
        alloc,
        tables,
        body,
        broken,
        mismatched,
        &RULES,
        &Texts::SCANNING,
    )?;
    let ListTarget {
        schema,
        index,
        start,
        said,
    } = target;
    let segment = segment_of(body);
    match segment_range(alloc, schema, index, segment, &start) {
        Ok(range) => page_of_range(alloc, tables, disk, body, said, index, range, true),
        Err(stop) => {
            drop(said);
            Err(stop)
        }
    }
}

/// Whether members of a body don't go together.
fn are_odd(body: &Map<String, Value>) -> bool
    ensures odd { result ≡ (is_mismatched (members_view body.now.entries)
        || is_segment_odd (members_view body.now.entries)) }
{
    is_mismatched(body) || is_segment_odd(body)
}

/// Whether Segment and TotalSegments don't stand together, or the segment isn't one of so many.
fn is_segment_odd(body: &Map<String, Value>) -> bool
    ensures { result ≡ is_segment_odd (members_view body.now.entries) }
{
    match (whole_at(body, "Segment"), whole_at(body, "TotalSegments")) {
        (None, None) => false,
        (Some(number), Some(total)) => number >= total,
        _ => true,
    }
}

/// The segment that is asked for, if one is.
fn segment_of(body: &Map<String, Value>) -> Option<Segment>
    ensures segment { is_segment_odd (members_view body.now.entries) ≡ false
        → option_map machine_segment result ≡ machine.segment_of (members_view body.now.entries) }
    ensures below { IfSome result (λ s. s.number < s.total) }
{
    match (whole_at(body, "Segment"), whole_at(body, "TotalSegments")) {
        (Some(number), Some(total)) if number < total => Some(Segment { number, total }),
        _ => None,
    }
}

/// The places of the items of a segment, or of all items, in the table or in its index of that number, beyond the start key, if one is
/// given.
fn segment_range(
    alloc: Global,
    schema: &TableSchema,
    number: Option<usize>,
    segment: Option<Segment>,
    start: &Option<Item>,
) -> Result<KeyRange, Stop>
    requires below { IfSome segment (λ s. s.number < s.total) }
    requires index { IfSome number (λ n. CanRead schema.now n) }
    ensures segments { Segments schema.now (index_at schema.now number)
        (option_map machine_segment segment) start.now result }
{
    let place = walk_start(alloc, schema, index_of(schema, number), None, start)?;
    let range = match segment {
        Some(segment) => tokens_of(alloc, segment)?,
        None => whole_range(alloc),
    };
    Ok(beyond(alloc, range, place, true)?)
}

/// All places.
fn whole_range(alloc: Global) -> KeyRange
    ensures from { result.from ≡ [] }
    ensures to { result.to ≡ None }
{
    KeyRange {
        from: Bytes::from_vec(Vec::new(alloc)),
        to: None,
    }
}

/// The places whose tokens are in a segment.
fn tokens_of(alloc: Global, segment: Segment) -> Result<KeyRange, NoMemory>
    requires below { segment.number < segment.total }
    ensures tokens { IfOk result
        (λ r. (r.from ≡ token_bytes (first_token segment.number segment.total))
        × (r.to ≡ end_token (first_token (segment.number + 1) segment.total))) }
    ensures few { segment.total ≤ 2 ^ 64 }
{
    let Segment { number, total } = segment;
    let from = first_token(number, total) as u64;
    let to = match u64::try_from(first_token(number + 1, total)) {
        Ok(token) => Some(token_bytes(alloc, token)?),
        Err(_) => None,
    };
    Ok(KeyRange {
        from: token_bytes(alloc, from)?,
        to,
    })
}

/// The least number that, times `total` and divided by 2^64, is at least `number`: the first token of a segment. That of the segment
/// behind the last is 2^64.
fn first_token(number: u64, total: u64) -> u128
    requires below { number ≤ total }
    requires some { 0 < total }
    ensures first { result ≡ first_token number total }
    ensures fits { number < total → result < 2 ^ 64 }
{
    let total = u128::from(total);
    (u128::from(number) * TOKENS + (total - 1)) / total
}

fn token_bytes(alloc: Global, token: u64) -> Result<Bytes, NoMemory>
    ensures bytes { IfOk result (λ b. b ≡ token_bytes token) }
{
    Bytes::new(alloc, &token.to_be_bytes())
}
