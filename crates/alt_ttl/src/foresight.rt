//! The first expired items by the list of the items that are due next, which tells where to look: no search is needed where it suffices.

ghost use Rattle.std.specs.Prelude.{◌≡◌, true, false, IfOk, IfSome, OnOk, is_some};
ghost use Rattle.std.specs.FinMap as map;
ghost use Rattle.alt_due.specs.Due.{FindsNext, IsRipe};
ghost use Rattle.alt_machine.specs.Expiry.{expiring};
ghost use Rattle.alt_machine.specs.State.{State};
ghost use Rattle.alt_request.specs.TablesForeseen.{Foresees};
ghost use Rattle.alt_request.specs.TablesLooking.{FailsReading, OnlyReads};
ghost use Rattle.alt_request.specs.TablesStands.{AreReady, Stands, catalog_of};
ghost use Rattle.alt_ttl.specs.private.Foresight.{PutsOver, ListSuffices, is_over_at, spot_at};
ghost use Rattle.alt_ttl.specs.private.Searched.{StandingTablesAreThere};

use crate::settling::{may_expire, settle};
use crate::survey::survey;
use alt_base::NoMemory;
use alt_disk::Disk;
use alt_due::{Due, Spot};
use alt_fields::Bytes;
use alt_machine::{MOST_EXPIRED, Standing};
use alt_request::{TableFault, Tables};
use std::alloc::Global;

/// Where the first expired items stand, `None` where the list doesn't tell.
pub(crate) fn foreseen<D: Disk>(
    alloc: Global,
    tables: &mut Tables,
    disk: &mut D,
    moment: u64,
) -> Result<Option<Vec<Standing>>, TableFault>
    requires ready { AreReady (D.state disk.old) tables.old }
    ensures standings { (s : State) → Stands (D.state disk.old) tables.old s
        → IfOk result (λ o. IfSome o (λ v. v.items ≡ expiring s moment)) }
    ensures named { IfOk result (λ o. IfSome o (λ v.
        StandingTablesAreThere (catalog_of tables.old) v.items)) }
    ensures only { OnlyReads (D.state disk.old) (D.state disk.new) tables.old tables.new }
    ensures fails { FailsReading (D.state disk.old) (D.state disk.new) tables.old result }
{
    if tables.due().due_none(moment) {
        return Ok(Some(Vec::new(alloc)));
    }
    let mut due = match taken(alloc, tables, disk, moment) {
        Ok(due) => due,
        Err(fault) => return Err(fault),
    };
    if !due.advance(moment) {
        return Ok(None);
    }
    match ripe(alloc, tables, disk, moment, &mut due) {
        Ok(Some(standings)) => {
            let _empty = tables.exchange_due(due);
            Ok(Some(standings))
        }
        // It ran out: the next call makes another one.
        Ok(None) => Ok(None),
        Err(fault) => Err(fault),
    }
}

/// The list of the tables, which have one that covers nothing then; or one that is made by a walk, where theirs doesn't cover the moment.
fn taken<D: Disk>(
    alloc: Global,
    tables: &mut Tables,
    disk: &mut D,
    moment: u64,
) -> Result<Due, TableFault>
    requires ready { AreReady (D.state disk.old) tables.old }
    ensures known { (s : State) → Stands (D.state disk.old) tables.old s
        → IfOk result (Foresees s.tables) }
    ensures only { OnlyReads (D.state disk.old) (D.state disk.new) tables.old tables.new }
    ensures fails { FailsReading (D.state disk.old) (D.state disk.new) tables.old result }
{
    if tables.due().covers(moment) {
        return Ok(tables.exchange_due(Due::new(alloc)));
    }
    survey(alloc, tables, disk, moment)
}

/// Where the first expired items stand, by those that are ready.
fn ripe<D: Disk>(
    alloc: Global,
    tables: &mut Tables,
    disk: &mut D,
    moment: u64,
    due: &mut Due,
) -> Result<Option<Vec<Standing>>, TableFault>
    requires ready { AreReady (D.state disk.old) tables.old }
    requires ripe { IsRipe moment due.old }
    ensures standings { (s : State) → Stands (D.state disk.old) tables.old s
        → Foresees s.tables due.old
        → IfOk result (λ o. IfSome o (λ v. v.items ≡ expiring s moment)) }
    ensures named { IfOk result (λ o. IfSome o (λ v.
        StandingTablesAreThere (catalog_of tables.old) v.items)) }
    ensures known { (s : State) → Stands (D.state disk.old) tables.old s
        → Foresees s.tables due.old → OnOk result (Foresees s.tables due.new) }
    ensures only { OnlyReads (D.state disk.old) (D.state disk.new) tables.old tables.new }
    ensures fails { FailsReading (D.state disk.old) (D.state disk.new) tables.old result }
{
    let mut out = Vec::new(alloc);
    let mut after = None;
    'places: for _ in 0..u64::MAX {
        if out.len() >= MOST_EXPIRED {
            return Ok(Some(out));
        }
        if !suffices(due, moment) {
            return Ok(None);
        }
        let Some(spot) = next_ready(alloc, due, &after)? else {
            return Ok(all_of(due, out));
        };
        let over = match look(alloc, tables, disk, moment, due, &spot) {
            Ok(over) => over,
            Err(fault) => return Err(fault),
        };
        put_over(alloc, over, &spot, &mut out)?;
        after = Some(spot);
    }
    Ok(None)
}

/// Whether a list begins at the moment and covers it.
fn suffices(due: &Due, moment: u64) -> bool
    ensures { result ≡ true → ListSuffices due.now moment }
{
    due.since() == moment && due.covers(moment)
}

/// The first place that is ready, behind that one where there is one.
fn next_ready(alloc: Global, due: &Due, after: &Option<Spot>) -> Result<Option<Spot>, NoMemory>
    ensures { IfOk result (FindsNext due.now after.now) }
{
    match due.next(after.as_ref()) {
        Some(spot) => Ok(Some(copied(alloc, spot)?)),
        None => Ok(None),
    }
}

/// A copy of a place.
fn copied(alloc: Global, spot: &Spot) -> Result<Spot, NoMemory>
    ensures { IfOk result (λ copy. copy ≡ spot.now) }
{
    Ok(Spot {
        table: spot.table.copy()?,
        place: Bytes::new(alloc, spot.place.as_slice())?,
    })
}

/// Puts a place behind the others, where what stands there has expired.
fn put_over(alloc: Global, over: bool, spot: &Spot, out: &mut Vec<Standing>) -> Result<(), NoMemory>
    ensures { OnOk result (PutsOver over spot.now out.old.items out.new.items) }
{
    if over {
        out.push(standing_at(alloc, spot)?)?;
    }
    Ok(())
}

/// Where that is, in words of the machine.
fn standing_at(alloc: Global, spot: &Spot) -> Result<Standing, NoMemory>
    ensures { IfOk result (λ e. spot_at e ≡ spot.now) }
{
    Ok(Standing {
        table: spot.table.copy()?,
        place: Bytes::new(alloc, spot.place.as_slice())?,
    })
}

/// What was found, where the list has no end.
fn all_of(due: &Due, out: Vec<Standing>) -> Option<Vec<Standing>>
    ensures { IfSome result (λ v. (v.items ≡ out.items)
        × (is_some due.now.end ≡ false)) }
{
    if due.end().is_some() {
        return None;
    }
    Some(out)
}

/// Whether what stands at a place that is ready has expired. Where it hasn't, the list is told from which moment on it has.
fn look<D: Disk>(
    alloc: Global,
    tables: &mut Tables,
    disk: &mut D,
    moment: u64,
    due: &mut Due,
    spot: &Spot,
) -> Result<bool, TableFault>
    requires ready { AreReady (D.state disk.old) tables.old }
    requires since { due.old.since ≡ moment }
    ensures over { (s : State) → Stands (D.state disk.old) tables.old s
        → IfOk result (λ over. over ≡ is_over_at s moment spot.now) }
    ensures named { IfOk result (λ over. over ≡ true
        → map.contains_key (catalog_of tables.old) spot.now.table ≡ true) }
    ensures known { (s : State) → Stands (D.state disk.old) tables.old s
        → Foresees s.tables due.old → OnOk result (Foresees s.tables due.new) }
    ensures ripe { IsRipe moment due.old → OnOk result (IsRipe moment due.new) }
    ensures only { OnlyReads (D.state disk.old) (D.state disk.new) tables.old tables.new }
    ensures fails { FailsReading (D.state disk.old) (D.state disk.new) tables.old result }
{
    if !may_expire(tables, spot.table.as_str()) {
        due.drop_ready(spot);
        return Ok(false);
    }
    let place = Bytes::new(alloc, spot.place.as_slice())?;
    let found = match tables.find(disk, spot.table.as_str(), place) {
        Ok(found) => found,
        Err(fault) => return Err(fault),
    };
    Ok(settle(tables, moment, due, spot, &found.item))
}
