//! The page of a range of a table, or of one of its indexes.

ghost use Rattle.std.specs.Prelude.{◌≡◌, ◌<◌, ◌≤◌, ◌+◌, true, false, List, Some, IfOk, IfErr, IfSome, OnOk, codes};
ghost use Rattle.std.specs.FinMap as map;
ghost use Rattle.serde_json.specs.View.{members_view};
ghost use Rattle.serde_json.specs.Written.{has_float};
ghost use Rattle.alt_base.specs.Counts.{Rose};
ghost use Rattle.alt_cells.specs.Walks.{RowMap};
ghost use Rattle.alt_machine.specs.Lists.{page_asked, pages};
ghost use Rattle.alt_machine.specs.Members.{table_name};
ghost use Rattle.alt_machine.specs.Outcomes.{says};
ghost use Rattle.alt_machine.specs.Sources.{index_at, selects};
ghost use Rattle.alt_machine.specs.State.{State, Table};
ghost use Rattle.alt_machine.specs.Walks.{items_between};
ghost use Rattle.alt_ops_query.specs.PageReads.{most_reads_of_page};
ghost use Rattle.alt_ops_query.specs.private.Paged.{AnswersPage, HasLimit, answer_with};
ghost use Rattle.alt_paging.specs.Offered.{asked_of_page};
ghost use Rattle.alt_request.specs.Carried.{FollowsOutcome, IsPlainResult, IfFailed};
ghost use Rattle.alt_request.specs.Steps.{IsMemory};
ghost use Rattle.alt_schema.specs.declared.schema.TableSchema.{TableSchema};
ghost use Rattle.alt_shape.specs.Body.{body_json};
ghost use Rattle.alt_shape.specs.Refusals.{answer_of};
ghost use Rattle.alt_request.specs.TablesReading.{HasRowFiles, family_read};
ghost use Rattle.alt_request.specs.TablesStands.{AreReady, Reads, Stands, catalog_of, bounds_of};
ghost use Rattle.alt_views.specs.Readable.{CanRead};

use crate::asking::page_ask;
use crate::replies::page_reply;
use crate::sources::index_of;
use crate::walking::fill;
use alt_disk::Disk;
use alt_keyorder::KeyRange;
use alt_machine::Expressions;
use alt_paging::{PageAsk, Pager};
use alt_request::{Stop, TableFault, Tables, table_name};
use alt_schema::TableSchema;
use alt_shape::Reply;
use serde_json::{Map, Value};
use std::alloc::Global;

/// Answers the page of the items of a range in the table that a body names, or in its index of that number.
pub(crate) fn page_of_range<D: Disk>(
    alloc: Global,
    tables: &mut Tables,
    disk: &mut D,
    body: &Map<String, Value>,
    said: Expressions,
    index: Option<usize>,
    range: KeyRange,
    forward: bool,
) -> Result<Reply, Stop>
    requires ready { AreReady (D.state disk.old) tables.old }
    requires there { map.contains_key (catalog_of tables.old)
        (table_name (members_view body.now.entries)) ≡ true }
    requires index { (d : TableSchema) → map.get (catalog_of tables.old)
        (table_name (members_view body.now.entries)) ≡ Some d
        → IfSome index (λ n. CanRead d n) }
    requires limit { HasLimit (members_view body.now.entries) }
    ensures does { (s : State) (t : Table) → Stands (D.state disk.old) tables.old s
        → map.get s.tables (table_name (members_view body.now.entries)) ≡ Some t
        → FollowsOutcome (bounds_of tables.old).file
        (Stands (D.state disk.new) tables.new) s (pages t.description
        (index_at t.description index) (members_view body.now.entries) said
        (items_between t (index_at t.description index) range.from range.to forward)) result }
    ensures reads { (s : State) (t : Table) (maps : List RowMap)
        → Stands (D.state disk.old) tables.old s
        → map.get s.tables (table_name (members_view body.now.entries)) ≡ Some t
        → HasRowFiles (D.state disk.old).file
        (family_read t.description (index_at t.description index)) maps
        → OnOk result ((D.state disk.new).reads ≤ (D.state disk.old).reads
        + most_reads_of_page t (index_at t.description index) forward range.from range.to
        (page_asked (members_view body.now.entries) said)
        (items_between t (index_at t.description index) range.from range.to forward) maps) }
    ensures plain { IsPlainResult result }
    ensures disk { Reads (D.state disk.old) (D.state disk.new) }
    ensures failed { IfFailed result (Rose (D.state disk.old).faults (D.state disk.new).faults) }
    ensures limits { bounds_of tables.new ≡ bounds_of tables.old }
{
    let Expressions {
        condition,
        projection,
        ..
    } = said;
    let ask = page_ask(body, condition, projection);
    page_of_ask(alloc, tables, disk, body, ask, index, range, forward)
}

/// Answers the page that is asked for.
fn page_of_ask<D: Disk>(
    alloc: Global,
    tables: &mut Tables,
    disk: &mut D,
    body: &Map<String, Value>,
    ask: PageAsk,
    index: Option<usize>,
    range: KeyRange,
    forward: bool,
) -> Result<Reply, Stop>
    requires ready { AreReady (D.state disk.old) tables.old }
    requires there { map.contains_key (catalog_of tables.old)
        (table_name (members_view body.now.entries)) ≡ true }
    requires index { (d : TableSchema) → map.get (catalog_of tables.old)
        (table_name (members_view body.now.entries)) ≡ Some d
        → IfSome index (λ n. CanRead d n) }
    requires limit { IfSome ask.limit (λ most. 0 < most) }
    requires counts { ask.count_only ≡ selects (codes "COUNT") (members_view body.now.entries) }
    ensures does { (s : State) (t : Table) → Stands (D.state disk.old) tables.old s
        → map.get s.tables (table_name (members_view body.now.entries)) ≡ Some t
        → FollowsOutcome (bounds_of tables.old).file
        (Stands (D.state disk.new) tables.new) s (says (answer_with t.description
        (index_at t.description index) (members_view body.now.entries) ask
        (items_between t (index_at t.description index) range.from range.to forward))) result }
    ensures reads { (s : State) (t : Table) (maps : List RowMap)
        → Stands (D.state disk.old) tables.old s
        → map.get s.tables (table_name (members_view body.now.entries)) ≡ Some t
        → HasRowFiles (D.state disk.old).file
        (family_read t.description (index_at t.description index)) maps
        → OnOk result ((D.state disk.new).reads ≤ (D.state disk.old).reads
        + most_reads_of_page t (index_at t.description index) forward range.from range.to (asked_of_page ask)
        (items_between t (index_at t.description index) range.from range.to forward) maps) }
    ensures plain { IsPlainResult result }
    ensures disk { Reads (D.state disk.old) (D.state disk.new) }
    ensures failed { IfFailed result (Rose (D.state disk.old).faults (D.state disk.new).faults) }
    ensures limits { bounds_of tables.new ≡ bounds_of tables.old }
{
    let name = table_name(body);
    let mut pager = Pager::new(alloc, ask);
    fill(alloc, tables, disk, name, index, range, forward, &mut pager)?;
    answered(alloc, tables, body, index, pager)
}

/// The reply with the page that was filled.
fn answered(
    alloc: Global,
    tables: &Tables,
    body: &Map<String, Value>,
    index: Option<usize>,
    pager: Pager,
) -> Result<Reply, Stop>
    requires there { map.contains_key (catalog_of tables.now)
        (table_name (members_view body.now.entries)) ≡ true }
    requires index { (d : TableSchema) → map.get (catalog_of tables.now)
        (table_name (members_view body.now.entries)) ≡ Some d
        → IfSome index (λ n. CanRead d n) }
    ensures reply { IfOk result (λ reply. (d : TableSchema)
        → map.get (catalog_of tables.now) (table_name (members_view body.now.entries)) ≡ Some d
        → AnswersPage d (index_at d index) (members_view body.now.entries) pager
        (answer_of reply)) }
    ensures plain { IfOk result (λ reply. has_float (body_json reply.body) ≡ false) }
    ensures cause { IfErr result IsMemory }
{
    let Some(schema) = tables.table(table_name(body)) else {
        unreachable!();
    };
    filled_reply(alloc, schema, index, body, pager)
}

/// The reply with the page that was filled from a table of that description.
fn filled_reply(
    alloc: Global,
    schema: &TableSchema,
    index: Option<usize>,
    body: &Map<String, Value>,
    pager: Pager,
) -> Result<Reply, Stop>
    requires index { IfSome index (λ n. CanRead schema.now n) }
    ensures reply { IfOk result (λ reply. AnswersPage schema.now (index_at schema.now index)
        (members_view body.now.entries) pager (answer_of reply)) }
    ensures plain { IfOk result (λ reply. has_float (body_json reply.body) ≡ false) }
    ensures cause { IfErr result IsMemory }
{
    let page = pager.finish();
    match page_reply(alloc, schema, index_of(schema, index), body, page) {
        Ok(reply) => Ok(reply),
        Err(_) => Err(Stop::Fault(TableFault::NoMemory)),
    }
}
