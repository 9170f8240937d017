//! A walk over the items of a table, or of one of its indexes, that ends with a page. It asks for no more items than are certain to be
//! examined, so it reads no row beyond the last of them.

ghost use Rattle.std.specs.Prelude.{◌≡◌, ◌≢◌, ◌++◌, ◌+◌, ◌≤◌, ◌∷◌, [], not, true, false, List, Some, None, All, IfOk, IfErr, IfSome, OnOk, ◌<◌};
ghost use Rattle.std.specs.FinMap as map;
ghost use Rattle.alt_base.specs.Counts.{Rose};
ghost use Rattle.alt_cells.specs.Walks.{RowMap};
ghost use Rattle.alt_expr.specs.Pages.{ends_early};
ghost use Rattle.alt_machine.specs.Sources.{index_at};
ghost use Rattle.alt_machine.specs.State.{State, Table};
ghost use Rattle.alt_machine.specs.Walks.{items_between};
ghost use Rattle.alt_ops_query.specs.PageReads.{most_reads_of_page};
ghost use Rattle.alt_ops_query.specs.private.Filled.{HasFilled, Examines, Steps};
ghost use Rattle.alt_ops_query.specs.private.Stops.{IsFault, IfErrFailed};
ghost use Rattle.alt_paging.specs.Offered.{WasOffered, asked_of_page, has_ended};
ghost use Rattle.alt_paging.specs.declared.ask.PageAsk.{PageAsk};
ghost use Rattle.alt_request.specs.Steps.{IsMemory};
ghost use Rattle.alt_schema.specs.declared.schema.TableSchema.{TableSchema};
ghost use Rattle.alt_request.specs.TablesLooking.{OnlyReads};
ghost use Rattle.alt_request.specs.TablesReading.{HasRowFiles, family_read};
ghost use Rattle.alt_request.specs.TablesStands.{AreReady, Stands, catalog_of};
ghost use Rattle.alt_value.specs.Tree.{Pair};
ghost use Rattle.alt_views.specs.Readable.{CanRead};

use crate::places::beyond;
use alt_disk::Disk;
use alt_keyorder::KeyRange;
use alt_paging::Pager;
use alt_request::{Stop, TableFault, Tables};
use alt_value::Item;
use std::alloc::Global;

/// How many items a step asks for at most, however small they are, since those in hand are in memory.
const ITEMS_AT_ONCE: u32 = 4096;

/// Examines the items of a table, or of its index of that number, in a range, from its front on or from its end down, until the page ends
/// or the range does.
pub(crate) fn fill<D: Disk>(
    alloc: Global,
    tables: &mut Tables,
    disk: &mut D,
    table: &str,
    index: Option<usize>,
    range: KeyRange,
    forward: bool,
    pager: &mut Pager,
) -> Result<(), Stop>
    requires ready { AreReady (D.state disk.old) tables.old }
    requires there { map.contains_key (catalog_of tables.old) table.now ≡ true }
    requires index { (d : TableSchema) → map.get (catalog_of tables.old) table.now ≡ Some d
        → IfSome index (λ n. CanRead d n) }
    requires going { has_ended pager.old ≡ false }
    ensures filled { (s : State) (t : Table) (ask : PageAsk)
        → Stands (D.state disk.old) tables.old s
        → map.get s.tables table.now ≡ Some t → WasOffered pager.old ask []
        → OnOk result (HasFilled pager.new ask
        (items_between t (index_at t.description index) range.from range.to forward)) }
    ensures reads { (s : State) (t : Table) (ask : PageAsk) (maps : List RowMap)
        → Stands (D.state disk.old) tables.old s
        → map.get s.tables table.now ≡ Some t → WasOffered pager.old ask []
        → HasRowFiles (D.state disk.old).file
        (family_read t.description (index_at t.description index)) maps
        → OnOk result ((D.state disk.new).reads ≤ (D.state disk.old).reads
        + most_reads_of_page t (index_at t.description index) forward range.from range.to (asked_of_page ask)
        (items_between t (index_at t.description index) range.from range.to forward) maps) }
    ensures only { OnlyReads (D.state disk.old) (D.state disk.new) tables.old tables.new }
    ensures fault { (s : State) (t : Table) (ask : PageAsk) → Stands (D.state disk.old) tables.old s
        → map.get s.tables table.now ≡ Some t → WasOffered pager.old ask []
        → IfErr result IsFault }
    ensures failed { IfErrFailed result (Rose (D.state disk.old).faults (D.state disk.new).faults) }
{
    let mut range = range;
    'steps: for _ in 0..u64::MAX {
        match step(alloc, tables, disk, table, index, range, forward, pager) {
            Ok(Some(rest)) => range = rest,
            Ok(None) => return Ok(()),
            Err(stop) => return Err(stop),
        }
    }
    Err(Stop::Fault(TableFault::NoMemory))
}

/// One step of a walk, which asks for as many items as are certain to be examined: the rest of the range, `None` where the page or the
/// range has ended.
fn step<D: Disk>(
    alloc: Global,
    tables: &mut Tables,
    disk: &mut D,
    table: &str,
    index: Option<usize>,
    range: KeyRange,
    forward: bool,
    pager: &mut Pager,
) -> Result<Option<KeyRange>, Stop>
    requires ready { AreReady (D.state disk.old) tables.old }
    requires there { map.contains_key (catalog_of tables.old) table.now ≡ true }
    requires index { (d : TableSchema) → map.get (catalog_of tables.old) table.now ≡ Some d
        → IfSome index (λ n. CanRead d n) }
    requires going { has_ended pager.old ≡ false }
    ensures steps { (s : State) (t : Table) (ask : PageAsk) (seen : List (List Pair))
        → Stands (D.state disk.old) tables.old s → map.get s.tables table.now ≡ Some t
        → WasOffered pager.old ask seen → IfOk result
        (Steps (D.state disk.old) (D.state disk.new) t (index_at t.description index) forward ask
        seen pager.new range) }
    ensures going { IfOk result (λ rest. IfSome rest
        (λ r. has_ended pager.new ≡ false)) }
    ensures only { OnlyReads (D.state disk.old) (D.state disk.new) tables.old tables.new }
    ensures fault { (s : State) (t : Table) (ask : PageAsk) (seen : List (List Pair))
        → Stands (D.state disk.old) tables.old s → map.get s.tables table.now ≡ Some t
        → WasOffered pager.old ask seen → IfErr result IsFault }
    ensures failed { IfErrFailed result (Rose (D.state disk.old).faults (D.state disk.new).faults) }
{
    let largest = tables.largest();
    let most = pager.certain(largest).min(ITEMS_AT_ONCE);
    let mut items = Vec::new(alloc);
    let last = tables.rows(disk, table, index, &range, forward, most, &mut items)?;
    let got = items.len();
    let more = examine(pager, items)?;
    if !more || got < most as usize {
        return Ok(None);
    }
    Ok(Some(beyond(alloc, range, last, forward)?))
}

/// Examines these items in their order, until one of them ends the page: whether it goes on.
fn examine(pager: &mut Pager, items: Vec<Item>) -> Result<bool, Stop>
    requires going { has_ended pager.old ≡ false }
    ensures examines { IfOk result (λ more. (ask : PageAsk) (seen : List (List Pair))
        → WasOffered pager.old ask seen → All (λ i. i ≢ []) items.items
        → Examines pager.new ask seen items.items more) }
    ensures ended { IfOk result (λ more. has_ended pager.new ≡ not more) }
    ensures cause { IfErr result IsMemory }
{
    for item in items {
        if !offered(pager, item)? {
            return Ok(false);
        }
    }
    Ok(true)
}

/// Examines the next item, which is moved: whether the page goes on. No item is empty on a disk that keeps what was written.
fn offered(pager: &mut Pager, item: Item) -> Result<bool, Stop>
    requires going { has_ended pager.old ≡ false }
    ensures examines { IfOk result (λ more. (ask : PageAsk) (seen : List (List Pair))
        → WasOffered pager.old ask seen → item ≢ []
        → WasOffered pager.new ask (seen ++ item ∷ [])
        × (more ≡ not (ends_early ask.limit (seen ++ item ∷ [])))) }
    ensures ended { IfOk result (λ more. has_ended pager.new ≡ not more) }
    ensures cause { IfErr result IsMemory }
{
    if item.len() == 0 {
        return Ok(true);
    }
    match pager.offer(item) {
        Ok(more) => Ok(more),
        Err(_) => Err(Stop::Fault(TableFault::NoMemory)),
    }
}
