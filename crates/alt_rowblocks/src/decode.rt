//! The rows of a block, read from its bytes.

ghost use Rattle.std.specs.Prelude.{◌≡◌, ◌<◌, ◌^◌, ◌++◌, ℕ, List, ◌↔◌, length, IsTrue, IfOk, IfSome, IfNone};
ghost use Rattle.alt_fields.specs.Field.{field};
ghost use Rattle.alt_rowblocks.specs.Format.{Entry, row_entry_bytes, rows_bytes, IsHeldEntry};
ghost use Rattle.alt_rowblocks.specs.Decoding.{AreRows, IsNextKey, StandBefore, NoRows};

use alt_base::NoMemory;
use alt_cells::{RowCells, row_of};
use alt_fields::{Bytes, BytesFault, take_bytes};
use std::alloc::Global;

/// The rows of a block, and how many bytes stand before the last of them.
#[derive(Drop)]
pub(crate) struct Decoded {
    pub(crate) rows: Vec<(Bytes, RowCells)>,
    pub(crate) before: usize,
}

/// The rows whose bytes the bytes are; none where they are not those of rows with rising keys.
pub(crate) fn decode(alloc: Global, bytes: &[u8]) -> Result<Option<Decoded>, NoMemory>
    ensures some { IfOk result
        (λ o. IfSome o (λ d. AreRows d.rows.items × (bytes.now ≡ rows_bytes d.rows.items)
        × StandBefore d.before d.rows.items)) }
    ensures none { IfOk result (λ o. IfNone o (NoRows bytes.now)) }
{
    let mut rows = Vec::new(alloc);
    let mut rest = bytes;
    let mut before = 0;
    'rows: while !rest.is_empty() {
        match take_entry(alloc, rest)? {
            Some((key, row, behind)) => {
                if !is_next_key(&rows, &key) {
                    return Ok(None);
                }
                before = bytes.len() - rest.len();
                rows.push((key, row))?;
                rest = behind;
            }
            None => return Ok(None),
        }
    }
    Ok(Some(Decoded { rows, before }))
}

fn is_next_key(rows: &[(Bytes, RowCells)], key: &Bytes) -> bool
    requires { AreRows rows.now }
    ensures { IsTrue result ↔ IsNextKey rows.now key.now }
{
    match rows.last() {
        Some(last) => last.0.as_slice().cmp(key.as_slice()).is_lt(),
        None => true,
    }
}

/// The key and the row at the front of the bytes, and what follows them.
pub(crate) fn take_entry(
    alloc: Global,
    bytes: &[u8],
) -> Result<Option<(Bytes, RowCells, &[u8])>, NoMemory>
    ensures some { IfOk result
        (λ o. IfSome o (λ p. IsHeldEntry (p.0, p.1)
        × (bytes.now ≡ row_entry_bytes (p.0, p.1) ++ p.2.now))) }
    ensures none { IfOk result
        (λ o. IfNone o ((e : Entry) (x : List ℕ) → IsHeldEntry e → bytes.now ≡ row_entry_bytes e ++ x
        → ⊥)) }
{
    match take_field(bytes) {
        Some((key, behind)) => match take_field(behind) {
            Some((row, rest)) => match row_of(alloc, row) {
                Ok(row) => Ok(Some((Bytes::new(alloc, key)?, row, rest))),
                Err(BytesFault::Bad { at: _ }) => Ok(None),
                Err(BytesFault::NoMemory) => Err(NoMemory),
            },
            None => Ok(None),
        },
        None => Ok(None),
    }
}

// The content of the field at the front of the bytes, and what follows it.
pub(crate) fn take_field(bytes: &[u8]) -> Option<(&[u8], &[u8])>
    ensures some { IfSome result (λ p. (length p.0.now < 2 ^ 64)
        × (bytes.now ≡ field p.0.now ++ p.1.now)) }
    ensures none { IfNone result ((s x : List ℕ) → length s < 2 ^ 64 → bytes.now ≡ field s ++ x
        → ⊥) }
{
    match take_bytes(bytes, 0) {
        Ok((content, end)) => {
            let (_, rest) = bytes.split_at(end);
            Some((content, rest))
        }
        Err(_) => None,
    }
}

/// What the one field holds that the bytes are, to their end.
pub(crate) fn whole_field(bytes: &[u8]) -> Option<&[u8]>
    ensures some { IfSome result (λ s. (length s.now < 2 ^ 64) × (bytes.now ≡ field s.now)) }
    ensures none { IfNone result ((s : List ℕ) → length s < 2 ^ 64 → bytes.now ≡ field s → ⊥) }
{
    match take_field(bytes) {
        Some((content, rest)) => { if rest.is_empty() { Some(content) } else { None } }
        None => None,
    }
}
