//! The search for expired items: all tables by their names, and in each all its items by their places, until there are as many as an
//! ExpireItems deletes.

ghost use Rattle.std.specs.Prelude.{◌≡◌, ◌≤◌, ◌++◌, ◌∷◌, [], is_some, true, Some, None, length, map as each, take, IfOk, OnOk};
ghost use Rattle.std.specs.FinMap as map;
ghost use Rattle.alt_machine.specs.declared.TheConstants.{MOST_EXPIRED};
ghost use Rattle.alt_machine.specs.Expiry.{expired_in, expiring, gone_at};
ghost use Rattle.alt_machine.specs.Ops.ListTables.{names_after};
ghost use Rattle.alt_machine.specs.State.{State, Table};
ghost use Rattle.alt_schema.specs.declared.schema.TableSchema.{TableSchema};
ghost use Rattle.alt_request.specs.TablesLooking.{FailsReading, OnlyReads};
ghost use Rattle.alt_request.specs.TablesSeveral.{AreAllApart, Every, IsFound, MayWrite, written_at};
ghost use Rattle.alt_request.specs.TablesStands.{AreReady, Stands, catalog_of};
ghost use Rattle.alt_ttl.specs.private.Searched.{StandingTablesAreThere, left_in, standings_left};

use crate::foresight::foreseen;
use crate::standings::{has_twice, put_expired};
use alt_base::NoMemory;
use alt_disk::Disk;
use alt_fields::Bytes;
use alt_keyorder::KeyRange;
use alt_machine::{MOST_EXPIRED, MOST_TABLES, Standing};
use alt_request::{ItemChange, TableFault, Tables};
use alt_value::Text;
use std::alloc::Global;

/// The most items that are read at once.
pub(crate) const PAGE: u32 = 64;

/// The deletions of the first expired items, with what stands at their places.
pub(crate) fn deletions<D: Disk>(
    alloc: Global,
    tables: &mut Tables,
    disk: &mut D,
    moment: u64,
) -> Result<Vec<ItemChange>, TableFault>
    requires ready { AreReady (D.state disk.old) tables.old }
    ensures written { (s : State) → Stands (D.state disk.old) tables.old s
        → IfOk result (λ v. each written_at v.items ≡ each gone_at (expiring s moment)) }
    ensures may { IfOk result (λ v. Every (MayWrite (catalog_of tables.old))
        (each written_at v.items)) }
    ensures apart { IfOk result (λ v. AreAllApart (each written_at v.items)) }
    ensures found { (s : State) → Stands (D.state disk.old) tables.old s
        → IfOk result (λ v. Every (IsFound s) v.items) }
    ensures only { OnlyReads (D.state disk.old) (D.state disk.new) tables.old tables.new }
    ensures fails { FailsReading (D.state disk.old) (D.state disk.new) tables.old result }
{
    let standings = match expiring(alloc, tables, disk, moment) {
        Ok(standings) => standings,
        Err(fault) => return Err(fault),
    };
    // No rows that stand for a state have two items at one place.
    if has_twice(standings.as_slice()) {
        return Err(TableFault::NoMemory);
    }
    match find_all(alloc, tables, disk, standings) {
        Ok(changes) => Ok(changes),
        Err(fault) => Err(fault),
    }
}

/// Where the first expired items stand: by the list of those that are due next, and else by a search.
fn expiring<D: Disk>(
    alloc: Global,
    tables: &mut Tables,
    disk: &mut D,
    moment: u64,
) -> Result<Vec<Standing>, TableFault>
    requires ready { AreReady (D.state disk.old) tables.old }
    ensures standings { (s : State) → Stands (D.state disk.old) tables.old s
        → IfOk result (λ v. v.items ≡ expiring s moment) }
    ensures named { IfOk result (λ v. StandingTablesAreThere (catalog_of tables.old) v.items) }
    ensures only { OnlyReads (D.state disk.old) (D.state disk.new) tables.old tables.new }
    ensures fails { FailsReading (D.state disk.old) (D.state disk.new) tables.old result }
{
    match foreseen(alloc, tables, disk, moment) {
        Ok(Some(standings)) => Ok(standings),
        Ok(None) => searched(alloc, tables, disk, moment),
        Err(fault) => Err(fault),
    }
}

/// The same by a search.
fn searched<D: Disk>(
    alloc: Global,
    tables: &mut Tables,
    disk: &mut D,
    moment: u64,
) -> Result<Vec<Standing>, TableFault>
    requires ready { AreReady (D.state disk.old) tables.old }
    ensures standings { (s : State) → Stands (D.state disk.old) tables.old s
        → IfOk result (λ v. v.items ≡ expiring s moment) }
    ensures named { IfOk result (λ v. StandingTablesAreThere (catalog_of tables.old) v.items) }
    ensures only { OnlyReads (D.state disk.old) (D.state disk.new) tables.old tables.new }
    ensures fails { FailsReading (D.state disk.old) (D.state disk.new) tables.old result }
{
    let names = names(alloc, tables)?;
    let mut out = Vec::new(alloc);
    for name in names {
        match search_table(alloc, tables, disk, name.as_str(), moment, &mut out) {
            Ok(()) => {}
            Err(fault) => return Err(fault),
        }
    }
    Ok(out)
}

/// The names of the tables, each found from the one before.
pub(crate) fn names(alloc: Global, tables: &Tables) -> Result<Vec<Text>, NoMemory>
    ensures names { IfOk result (λ v. v.items
        ≡ take MOST_TABLES (names_after [] (catalog_of tables.now))) }
{
    let mut names = Vec::new(alloc);
    let mut last = "";
    for _ in 0..MOST_TABLES {
        let Some(schema) = tables.table_after(last) else {
            break;
        };
        last = schema.name.as_str();
        names.push(Text::new(alloc, last)?)?;
    }
    Ok(names)
}

/// Puts where the expired items of a table stand behind the others, as long as there are fewer than an ExpireItems deletes.
fn search_table<D: Disk>(
    alloc: Global,
    tables: &mut Tables,
    disk: &mut D,
    name: &str,
    moment: u64,
    out: &mut Vec<Standing>,
) -> Result<(), TableFault>
    requires ready { AreReady (D.state disk.old) tables.old }
    requires there { map.contains_key (catalog_of tables.old) name.now ≡ true }
    requires few { length out.old.items ≤ MOST_EXPIRED }
    requires named { StandingTablesAreThere (catalog_of tables.old) out.old.items }
    ensures found { (s : State) (t : Table) → Stands (D.state disk.old) tables.old s
        → map.get s.tables name.now ≡ Some t → OnOk result (out.new.items
        ≡ take MOST_EXPIRED (out.old.items ++ expired_in moment name.now t)) }
    ensures few { OnOk result (length out.new.items ≤ MOST_EXPIRED) }
    ensures named { OnOk result (StandingTablesAreThere (catalog_of tables.old) out.new.items) }
    ensures only { OnlyReads (D.state disk.old) (D.state disk.new) tables.old tables.new }
    ensures fails { FailsReading (D.state disk.old) (D.state disk.new) tables.old result }
{
    if !has_time(tables, name) {
        return Ok(());
    }
    let mut from = Bytes::new(alloc, &[])?;
    'pages: for _ in 0..u64::MAX {
        match search_page(alloc, tables, disk, name, moment, from, out) {
            Ok(Some(next)) => from = next,
            Ok(None) => return Ok(()),
            Err(fault) => return Err(fault),
        }
    }
    Err(TableFault::NoMemory)
}

/// Whether the items of a table that is there have a time to live.
pub(crate) fn has_time(tables: &Tables, name: &str) -> bool
    requires there { map.contains_key (catalog_of tables.now) name.now ≡ true }
    ensures { (d : TableSchema) → map.get (catalog_of tables.now) name.now ≡ Some d
        → result ≡ is_some d.ttl }
{
    let Some(schema) = tables.table(name) else {
        unreachable!();
    };
    schema.ttl.is_some()
}

/// The same of the first items of a table from a place on: from where to go on, `None` where nothing is left to look for.
fn search_page<D: Disk>(
    alloc: Global,
    tables: &mut Tables,
    disk: &mut D,
    name: &str,
    moment: u64,
    from: Bytes,
    out: &mut Vec<Standing>,
) -> Result<Option<Bytes>, TableFault>
    requires ready { AreReady (D.state disk.old) tables.old }
    requires there { map.contains_key (catalog_of tables.old) name.now ≡ true }
    requires few { length out.old.items ≤ MOST_EXPIRED }
    requires named { StandingTablesAreThere (catalog_of tables.old) out.old.items }
    ensures left { (s : State) (t : Table) → Stands (D.state disk.old) tables.old s
        → map.get s.tables name.now ≡ Some t → IfOk result (λ next.
        standings_left name.now t moment out.new.items next
        ≡ left_in name.now t moment out.old.items from) }
    ensures few { OnOk result (length out.new.items ≤ MOST_EXPIRED) }
    ensures named { OnOk result (StandingTablesAreThere (catalog_of tables.old) out.new.items) }
    ensures only { OnlyReads (D.state disk.old) (D.state disk.new) tables.old tables.new }
    ensures fails { FailsReading (D.state disk.old) (D.state disk.new) tables.old result }
{
    if out.len() >= MOST_EXPIRED {
        return Ok(None);
    }
    let mut items = Vec::new(alloc);
    let range = KeyRange { from, to: None };
    let last = match tables.rows(disk, name, None, &range, true, PAGE, &mut items) {
        Ok(last) => last,
        Err(fault) => return Err(fault),
    };
    let got = items.len();
    let Some(schema) = tables.table(name) else {
        unreachable!();
    };
    put_expired(alloc, schema, name, moment, items, out)?;
    if got < PAGE as usize {
        return Ok(None);
    }
    match last {
        Some(place) => Ok(Some(behind(alloc, place.as_slice())?)),
        None => Ok(None),
    }
}

/// The first bytes behind a place.
pub(crate) fn behind(alloc: Global, place: &[u8]) -> Result<Bytes, NoMemory>
    ensures { IfOk result (λ next. next ≡ place.now ++ 0 ∷ []) }
{
    let mut next = Vec::from_slice(alloc, place)?;
    next.push(0)?;
    Ok(Bytes::from_vec(next))
}

/// What stands at these places, where nothing is to be left.
fn find_all<D: Disk>(
    alloc: Global,
    tables: &mut Tables,
    disk: &mut D,
    standings: Vec<Standing>,
) -> Result<Vec<ItemChange>, TableFault>
    requires ready { AreReady (D.state disk.old) tables.old }
    requires named { StandingTablesAreThere (catalog_of tables.old) standings.items }
    ensures written { IfOk result (λ v. each written_at v.items ≡ each gone_at standings.items) }
    ensures found { (s : State) → Stands (D.state disk.old) tables.old s
        → IfOk result (λ v. Every (IsFound s) v.items) }
    ensures only { OnlyReads (D.state disk.old) (D.state disk.new) tables.old tables.new }
    ensures fails { FailsReading (D.state disk.old) (D.state disk.new) tables.old result }
{
    let mut changes = Vec::with_capacity(alloc, standings.len())?;
    for standing in standings {
        changes.push(find(tables, disk, standing)?)?;
    }
    Ok(changes)
}

/// What stands at one of them.
fn find<D: Disk>(
    tables: &mut Tables,
    disk: &mut D,
    standing: Standing,
) -> Result<ItemChange, TableFault>
    requires ready { AreReady (D.state disk.old) tables.old }
    requires there { map.contains_key (catalog_of tables.old) standing.table ≡ true }
    ensures written { IfOk result (λ c. written_at c ≡ gone_at standing) }
    ensures found { (s : State) → Stands (D.state disk.old) tables.old s
        → IfOk result (IsFound s) }
    ensures only { OnlyReads (D.state disk.old) (D.state disk.new) tables.old tables.new }
    ensures fails { FailsReading (D.state disk.old) (D.state disk.new) tables.old result }
{
    let Standing { table, place } = standing;
    let found = tables.find(disk, table.as_str(), place)?;
    Ok(ItemChange {
        table,
        found,
        new: None,
    })
}
