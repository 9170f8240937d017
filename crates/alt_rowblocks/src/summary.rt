//! What a row file in hand keeps of its rows, so that nobody walks over them to learn it.

ghost use Rattle.std.specs.Prelude.{◌≡◌, ◌∷◌, [], Option, is_none, IfOk};
ghost use Rattle.std.specs.List.{list_any};
ghost use Rattle.alt_rowblocks.specs.Summaries.{any_tombstone, has_tombstone, joined_summary, last_key, joined_last_key, latest_of, row_latest, summary_of};

use alt_base::NoMemory;
use alt_cells::{Cell, RowCells};
use alt_fields::Bytes;

/// The greatest timestamp of rows, 0 where they have none, whether they have a tombstone, and the key of the last one.
#[derive(Drop)]
pub struct Summary {
    pub latest: u64,
    pub tombstone: bool,
    pub last: Option<Bytes>,
}

impl Summary {
    /// Of no rows.
    pub fn new() -> Summary
        ensures { result ≡ summary_of [] }
    {
        Summary {
            latest: 0,
            tombstone: false,
            last: None,
        }
    }

    /// Of rows.
    pub(crate) fn of_rows(rows: &[(Bytes, RowCells)]) -> Result<Summary, NoMemory>
        ensures { IfOk result (λ s. s ≡ summary_of rows.now) }
    {
        Ok(Summary {
            latest: latest_of(rows),
            tombstone: any_tombstone(rows),
            last: last_of(rows)?,
        })
    }

    /// Takes that of further rows in.
    pub(crate) fn join(&mut self, more: Summary)
        ensures { self.new ≡ joined_summary self.old more }
    {
        let Summary {
            latest,
            tombstone,
            last,
        } = more;
        self.latest = self.latest.max(latest);
        self.tombstone = self.tombstone || tombstone;
        put_last(&mut self.last, last);
    }

    /// Takes a further row in.
    pub fn add(&mut self, key: Bytes, row: &RowCells)
        ensures { self.new ≡ joined_summary self.old (summary_of ((key, row.now) ∷ [])) }
    {
        self.join(Summary {
            latest: row_latest(row),
            tombstone: has_tombstone(row),
            last: Some(key),
        });
    }
}

fn put_last(last: &mut Option<Bytes>, more: Option<Bytes>)
    ensures { last.new ≡ joined_last_key last.old more }
{
    if more.is_some() {
        *last = more;
    }
}

fn last_of(rows: &[(Bytes, RowCells)]) -> Result<Option<Bytes>, NoMemory>
    ensures { IfOk result (λ last. last ≡ last_key rows.now) }
{
    match rows.last() {
        Some(last) => Ok(Some(last.0.copy()?)),
        None => Ok(None),
    }
}

fn latest_of(rows: &[(Bytes, RowCells)]) -> u64
    ensures { result ≡ latest_of rows.now }
{
    let mut latest = 0;
    for entry in rows {
        latest = latest.max(row_latest(&entry.1));
    }
    latest
}

fn row_latest(row: &RowCells) -> u64
    ensures { result ≡ row_latest row.now }
{
    let mut latest = row.gone.unwrap_or(0);
    for cell in row.cells.as_slice() {
        latest = latest.max(cell.1.at);
    }
    latest
}

fn any_tombstone(rows: &[(Bytes, RowCells)]) -> bool
    ensures { result ≡ any_tombstone rows.now }
{
    rows.iter().any(|e| has_tombstone(&e.1))
}

fn has_tombstone(row: &RowCells) -> bool
    ensures { result ≡ has_tombstone row.now }
{
    row.gone.is_some() || has_none(row.cells.as_slice())
}

fn has_none(cells: &[(Bytes, Cell)]) -> bool
    ensures { result ≡ list_any (λ e. is_none e.1.value) cells.now }
{
    cells.iter().any(|e| e.1.value.is_none())
}
