//! The change whose row this is.

ghost use Rattle.std.specs.Prelude.{◌≡◌, ◌<◌, ◌^◌, ℕ, Err, IfOk, IfSome, codes, option_map};
ghost use Rattle.std.specs.FinMap.{entries, get};
ghost use Rattle.std.specs.Int.{w64, to_be_bytes};
ghost use Rattle.std.specs.List.{list_all};
ghost use Rattle.alt_changes.specs.ChangeRows.{IsReadChange, IsReadItem, change_columns, change_in, item_bytes, writer_cell};
ghost use Rattle.alt_changes.specs.NoChange.{IsBadChangeAt, IsBadItem, IsBadMoment, IsBadWriter, NoItem, NoMoment, NoneIs, is_column, is_map};
ghost use Rattle.alt_machine.specs.State as machine;

use crate::changes::{Change, EXPIRED, MAP, MOMENT, NEW, OLD};
use alt_cellbytes::attr_within;
use alt_cells::ShownRow;
use alt_codec::Writer;
use alt_fields::{BytesFault, take_u64};
use alt_value::{Attr, Item};
use std::alloc::Global;

/// The most lists and maps around a value of an item, and the item itself.
const DEEPEST: usize = 33;

/// The change of a number, from 1 on, whose row this is. Else `Bad`: at the place within its first bad cell by name, or 0 where no cell is bad
/// and one is missing or too many.
pub fn change_of(alloc: Global, number: u64, row: &ShownRow) -> Result<Change, BytesFault>
    requires number { 0 < number }
    ensures change { IfOk result (λ c. (c.number ≡ number) × IsReadChange (change_in c)
        × (row.now ≡ change_columns (change_in c))) }
    ensures none { (at : ℕ) → result ≡ Err (BytesFault.Bad at)
        → (c : machine.Change) → IsReadChange c → row.now ≡ change_columns c → ⊥ }
    ensures place { (at : ℕ) → result ≡ Err (BytesFault.Bad at) → IsBadChangeAt row.now at }
{
    let moment = moment_in(row)?;
    let new = item_in(alloc, row, NEW)?;
    let old = item_in(alloc, row, OLD)?;
    let by = writer_in(row)?;
    let Some(moment) = moment else {
        return Err(BytesFault::Bad { at: 0 });
    };
    if !has_no_others(row) {
        return Err(BytesFault::Bad { at: 0 });
    }
    Ok(Change {
        number,
        moment,
        old,
        new,
        by,
    })
}

/// The moment that a row tells, if it tells one.
fn moment_in(row: &ShownRow) -> Result<Option<u64>, BytesFault>
    ensures moment { IfOk result (λ moment. IfSome moment (λ n. n < 2 ^ 64)
        × (get row.now (codes "m") ≡ option_map (to_be_bytes w64) moment)) }
    ensures bad { (at : ℕ) → result ≡ Err (BytesFault.Bad at) → IsBadMoment row.now at }
{
    match row.get(MOMENT) {
        Some(bytes) => Ok(Some(moment_of(bytes.as_slice())?)),
        None => Ok(None),
    }
}

/// The moment whose 8 bytes these are.
fn moment_of(bytes: &[u8]) -> Result<u64, BytesFault>
    ensures moment { IfOk result (λ n. (n < 2 ^ 64) × (bytes.now ≡ to_be_bytes w64 n)) }
    ensures bad { (at : ℕ) → result ≡ Err (BytesFault.Bad at) → NoMoment bytes.now at }
{
    match take_u64(bytes, 0) {
        Ok((moment, end)) if end == bytes.len() => Ok(moment),
        Ok((_, end)) => Err(BytesFault::Bad { at: end }),
        Err(short) => Err(BytesFault::Bad { at: short.at }),
    }
}

/// The item in a column of a row, if the row has the column.
fn item_in(alloc: Global, row: &ShownRow, name: &[u8]) -> Result<Option<Item>, BytesFault>
    ensures item { IfOk result (λ item. IfSome item IsReadItem
        × (get row.now name.now ≡ option_map item_bytes item)) }
    ensures bad { (at : ℕ) → result ≡ Err (BytesFault.Bad at) → IsBadItem row.now name.now at }
{
    match row.get(name) {
        Some(bytes) => Ok(Some(item_of(alloc, bytes.as_slice())?)),
        None => Ok(None),
    }
}

/// Who wrote the change, by the cell of a row that tells it, which is empty.
fn writer_in(row: &ShownRow) -> Result<Writer, BytesFault>
    ensures writer { IfOk result (λ by. get row.now (codes "u") ≡ writer_cell by) }
    ensures bad { (at : ℕ) → result ≡ Err (BytesFault.Bad at) → IsBadWriter row.now at }
{
    match row.get(EXPIRED) {
        Some(bytes) if bytes.as_slice().is_empty() => Ok(Writer::Expiry),
        Some(_) => Err(BytesFault::Bad { at: 0 }),
        None => Ok(Writer::User),
    }
}

/// The item whose cell bytes, as a map, these are.
fn item_of(alloc: Global, bytes: &[u8]) -> Result<Item, BytesFault>
    ensures item { IfOk result (λ item. IsReadItem item × (bytes.now ≡ item_bytes item)) }
    ensures bad { (at : ℕ) → result ≡ Err (BytesFault.Bad at)
        → NoItem bytes.now at × NoneIs bytes.now }
{
    if !is_map(bytes) {
        return Err(BytesFault::Bad { at: 0 });
    }
    match attr_within(alloc, bytes, DEEPEST)? {
        Attr::M(item) => Ok(item),
        _ => unreachable!(),
    }
}

/// Whether the bytes begin as those of a map.
fn is_map(bytes: &[u8]) -> bool
    ensures { result ≡ is_map bytes.now }
{
    match bytes {
        [first, ..] => *first == MAP,
        [] => false,
    }
}

/// Whether a row has the columns of a change alone.
fn has_no_others(row: &ShownRow) -> bool
    ensures { result ≡ list_all (λ e. is_column e.0) (entries row.now) }
{
    row.as_slice()
        .iter()
        .all(|column| is_column(column.0.as_slice()))
}

/// Whether a column has the name of one of a change.
fn is_column(name: &[u8]) -> bool
    ensures { result ≡ is_column name.now }
{
    name == MOMENT || name == NEW || name == OLD || name == EXPIRED
}
