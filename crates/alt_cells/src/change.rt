//! The cells that a row change makes, and the change that turns one row into another.

ghost use Rattle.std.specs.Prelude.{◌≡◌, ◌++◌, ◌∷◌, [], ◌<◌, IfOk, OnOk, IsTrue, T, None, Some, not, length, map, option_map};
ghost use Rattle.std.specs.FinMap.{entries, get};
ghost use Rattle.std.specs.FinMap.Entries.{is_sorted};
ghost use Rattle.alt_cells.specs.Keys.{key_cmp};
ghost use Rattle.alt_cells.specs.Changes.{cell_at, cells_given, row_of_change, with_value, differs, changed_cells, gone_cells, cells_between, change_between, ShowsChanges, StaysBelow, TurnsRows, written, as_shown, value_given, values_given, IsRowBelow};
ghost use Rattle.alt_cells.specs.Shown.{row_shown};

use crate::{Cell, CellList, CellMap, RowCells, RowChange, ShownRow};
use alt_base::NoMemory;
use alt_fields::Bytes;
use std::alloc::Global;

impl RowCells {
    /// The row that the write of that number joins to what is there: the change's cells, of several of
    /// one name the winner, and the write as row tombstone where it clears.
    pub fn of_change(alloc: Global, number: u64, change: &RowChange) -> Result<RowCells, NoMemory>
        ensures { IfOk result (λ row. row ≡ row_of_change number change.now) }
    {
        let cells = cells_given(alloc, number, change.cells.as_slice())?;
        let gone = if change.clear { Some(number) } else { None };
        Ok(RowCells { gone, cells })
    }
}

/// The cells of a write, joined. Names that rise are copied as they stand; else it joins two halves.
fn cells_given(
    alloc: Global,
    number: u64,
    given: &[(Bytes, Option<Bytes>)],
) -> Result<CellMap, NoMemory>
    ensures { IfOk result (λ cells. cells ≡ cells_given number given.now) }
{
    if is_rising(given) {
        return rising_cells(alloc, number, given);
    }
    let (front, back) = given.split_at(given.len() / 2);
    let mut cells = cells_given(alloc, number, front)?;
    let more = cells_given(alloc, number, back)?;
    cells.absorb(more)?;
    Ok(cells)
}

/// Whether each name is above the one before it.
fn is_rising(given: &[(Bytes, Option<Bytes>)]) -> bool
    ensures rising { IsTrue result → T (is_sorted key_cmp given.now) }
    ensures short { length given.now < 2 → IsTrue result }
{
    for at in 1..given.len() {
        if !given[at - 1].0.cmp(&given[at].0).is_lt() {
            return false;
        }
    }
    true
}

fn rising_cells(
    alloc: Global,
    number: u64,
    given: &[(Bytes, Option<Bytes>)],
) -> Result<CellMap, NoMemory>
    requires { T (is_sorted key_cmp given.now) }
    ensures { IfOk result (λ cells. cells ≡ cells_given number given.now) }
{
    let mut cells = Vec::with_capacity(alloc, given.len())?;
    for (name, value) in given {
        let entry = (name.copy()?, cell_of(number, value)?);
        cells.push(entry)?;
    }
    Ok(CellMap::from_rising(cells))
}

fn cell_of(number: u64, value: &Option<Bytes>) -> Result<Cell, NoMemory>
    ensures { IfOk result (λ cell. cell ≡ cell_at number value.now) }
{
    let value = match value {
        Some(bytes) => Some(bytes.copy()?),
        None => None,
    };
    Ok(Cell { at: number, value })
}

impl RowChange {
    /// What a change makes of a row that is shown, whatever the numbers of its cells, as long as they
    /// are of earlier writes.
    pub fn laws()
        ensures shown { ShowsChanges }
        ensures below { StaysBelow }
        ensures turns { TurnsRows }
    {}

    /// What the row shows after the change, by what it showed.
    pub fn shown_after(
        &self,
        alloc: Global,
        before: Option<&ShownRow>,
    ) -> Result<Option<ShownRow>, NoMemory>
        ensures { IfOk result (λ row. row
            ≡ written self.now (option_map (λ r. r.now) before.entry)) }
    {
        match before {
            Some(row) => {
                if self.clear {
                    return self.shown_alone(alloc);
                }
                let given = RowCells::of_change(alloc, 1, self)?;
                let mut cells = cells_of(alloc, row)?;
                cells.absorb(given)?;
                cells.into_shown(alloc)
            }
            None => self.shown_alone(alloc),
        }
    }

    /// What the change shows where there is nothing else. Where the names rise no cells are made.
    fn shown_alone(&self, alloc: Global) -> Result<Option<ShownRow>, NoMemory>
        ensures { IfOk result (λ row. row ≡ row_shown (row_of_change 1 self.now)) }
    {
        let given = self.cells.as_slice();
        if is_rising(given) {
            let entries = values_given(alloc, given)?;
            return Ok(ShownRow::of_rising(entries));
        }
        let row = RowCells::of_change(alloc, 1, self)?;
        row.shown()
    }

    /// The change that makes a row where none is shown. Its columns are moved.
    pub fn made(
        alloc: Global,
        family: u32,
        key: Bytes,
        row: ShownRow,
    ) -> Result<RowChange, NoMemory>
        ensures { IfOk result (λ change. change ≡ change_between family key None (Some row)) }
    {
        let cells = cells_made(alloc, row)?;
        Ok(RowChange {
            family,
            key,
            clear: true,
            cells,
        })
    }

    /// The change that turns a row from what it shows into what it is to show; a row that isn't shown
    /// is none. A row that comes or goes is cleared; of another only what differs is written.
    pub fn between(
        alloc: Global,
        family: u32,
        key: Bytes,
        old: Option<&ShownRow>,
        new: Option<&ShownRow>,
    ) -> Result<RowChange, NoMemory>
        ensures { IfOk result (λ change. change ≡ change_between family key
            (option_map (λ r. r.now) old.entry) (option_map (λ r. r.now) new.entry)) }
    {
        let cells = cells_between(alloc, old, new)?;
        let clear = old.is_some() != new.is_some();
        Ok(RowChange {
            family,
            key,
            clear,
            cells,
        })
    }
}

/// The columns that are given a value, with it.
fn values_given(
    alloc: Global,
    given: &[(Bytes, Option<Bytes>)],
) -> Result<Vec<(Bytes, Bytes)>, NoMemory>
    ensures { IfOk result (λ out. out.items ≡ values_given given.now) }
{
    let mut out = Vec::with_capacity(alloc, given.len())?;
    for (name, value) in given {
        take_value(&mut out, name, value)?;
    }
    Ok(out)
}

fn take_value(
    out: &mut Vec<(Bytes, Bytes)>,
    name: &Bytes,
    value: &Option<Bytes>,
) -> Result<(), NoMemory>
    ensures { OnOk result (out.new.items
        ≡ out.old.items ++ value_given (name.now, value.now)) }
{
    if let Some(value) = value {
        let entry = (name.copy()?, value.copy()?);
        out.push(entry)?;
    }
    Ok(())
}

/// The columns of a row, each given its value.
fn cells_made(alloc: Global, row: ShownRow) -> Result<CellList, NoMemory>
    ensures { IfOk result (λ cells. cells ≡ map with_value (entries row)) }
{
    let columns = row.into_entries();
    let mut cells = CellList::with_capacity(alloc, columns.len())?;
    for (name, value) in columns {
        cells.push(name, Some(value))?;
    }
    Ok(cells)
}

/// What a row shows, as the cells of a write before any other.
fn cells_of(alloc: Global, row: &ShownRow) -> Result<RowCells, NoMemory>
    ensures below { IfOk result (IsRowBelow 1) }
    ensures shown { IfOk result (λ cells. row_shown cells ≡ as_shown row.now) }
{
    let cells = column_cells(alloc, row.as_slice())?;
    Ok(RowCells {
        gone: Some(0),
        cells,
    })
}

/// Columns whose names rise, as the cells that the first write of all gives.
fn column_cells(alloc: Global, columns: &[(Bytes, Bytes)]) -> Result<CellMap, NoMemory>
    requires { T (is_sorted key_cmp columns.now) }
    ensures { IfOk result (λ cells. cells ≡ cells_given 0 (map with_value columns.now)) }
{
    let mut cells = Vec::with_capacity(alloc, columns.len())?;
    for (name, value) in columns {
        let cell = Cell {
            at: 0,
            value: Some(value.copy()?),
        };
        cells.push((name.copy()?, cell))?;
    }
    Ok(CellMap::from_rising(cells))
}

fn cells_between(
    alloc: Global,
    old: Option<&ShownRow>,
    new: Option<&ShownRow>,
) -> Result<CellList, NoMemory>
    ensures { IfOk result (λ cells. cells
        ≡ cells_between (option_map (λ r. r.now) old.entry) (option_map (λ r. r.now) new.entry)) }
{
    let mut cells = CellList::new(alloc);
    match (old, new) {
        (_, None) => Ok(cells),
        (None, Some(new)) => {
            give_all(&mut cells, new)?;
            Ok(cells)
        }
        (Some(old), Some(new)) => {
            give_changed(&mut cells, old, new)?;
            remove_gone(&mut cells, old, new)?;
            Ok(cells)
        }
    }
}

/// Puts each column of a row at the end, with its value.
fn give_all(cells: &mut CellList, new: &ShownRow) -> Result<(), NoMemory>
    ensures { OnOk result (cells.new ≡ cells.old ++ map with_value (entries new.now)) }
{
    for (name, value) in new.as_slice() {
        give(cells, name, Some(value))?;
    }
    Ok(())
}

/// Puts each column at the end whose value isn't that of the old row.
fn give_changed(cells: &mut CellList, old: &ShownRow, new: &ShownRow) -> Result<(), NoMemory>
    ensures { OnOk result (cells.new ≡ cells.old ++ changed_cells old.now new.now) }
{
    for (name, value) in new.as_slice() {
        if !has_value(old, name, value) {
            give(cells, name, Some(value))?;
        }
    }
    Ok(())
}

/// Puts one column at the end, with a value or as removed.
fn give(cells: &mut CellList, name: &Bytes, value: Option<&Bytes>) -> Result<(), NoMemory>
    ensures { OnOk result
        (cells.new ≡ cells.old ++ (name.now, option_map (λ v. v.now) value.entry) ∷ []) }
{
    let value = match value {
        Some(bytes) => Some(bytes.copy()?),
        None => None,
    };
    cells.push(name.copy()?, value)
}

/// Whether a row shows that value at that column.
fn has_value(row: &ShownRow, name: &Bytes, value: &Bytes) -> bool
    ensures { not result ≡ differs (get row.now name.now) value.now }
{
    match row.get(name.as_slice()) {
        Some(shown) => shown == value,
        None => false,
    }
}

/// Puts a removal at the end for each column that the new row lacks.
fn remove_gone(cells: &mut CellList, old: &ShownRow, new: &ShownRow) -> Result<(), NoMemory>
    ensures { OnOk result (cells.new ≡ cells.old ++ gone_cells old.now new.now) }
{
    for (name, _) in old.as_slice() {
        if new.get(name.as_slice()).is_none() {
            give(cells, name, None)?;
        }
    }
    Ok(())
}
