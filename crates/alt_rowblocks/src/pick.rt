//! The row of a key, read from the bytes of a block. Of the other rows no cell is read: the lengths of their keys and of their bytes are
//! tested, up to the end of the block, and that the keys rise.

ghost use Rattle.std.specs.Prelude.{◌≡◌, ◌++◌, ℕ, List, Option, Some, cond, IsTrue, ◌↔◌, IfOk, IfSome, IfNone};
ghost use Rattle.std.specs.Option.{option_copied};
ghost use Rattle.std.specs.Ordering.{is_eq};
ghost use Rattle.std.specs.FinMap.Entries.{find};
ghost use Rattle.alt_cells.specs.Keys.{key_cmp};
ghost use Rattle.alt_rowblocks.specs.Blocks.{IsAbove};
ghost use Rattle.alt_rowblocks.specs.Decoding.{AreRows, NoRows};
ghost use Rattle.alt_rowblocks.specs.Format.{Entry, rows_bytes};
ghost use Rattle.alt_rowblocks.specs.Picking.{Piece, piece_bytes, IsShortPiece, HasPieces, IsPicked, NoPieces, Picks};

use crate::decode::take_field;
use alt_base::NoMemory;
use alt_cells::{RowCells, row_of};
use alt_fields::BytesFault;
use std::alloc::Global;

/// What rows have at a key; none where their bytes are not those of rows.
pub(crate) fn pick(
    alloc: Global,
    bytes: &[u8],
    key: &[u8],
) -> Result<Option<Option<RowCells>>, NoMemory>
    ensures row { (rows : List Entry) → AreRows rows → bytes.now ≡ rows_bytes rows
        → IfOk result (λ o. IfSome o (λ row. row ≡ find key_cmp key.now rows)) }
    ensures tested { IfOk result (λ o. IfSome o (λ row. HasPieces bytes.now)) }
    ensures found { IfOk result (λ o. IfSome o (IsPicked bytes.now key.now)) }
    ensures none { IfOk result (λ o. IfNone o (NoRows bytes.now)) }
{
    match bytes_at_key(bytes, key) {
        Some(Some(row)) => match row_of(alloc, row) {
            Ok(row) => Ok(Some(Some(row))),
            Err(BytesFault::Bad { at: _ }) => Ok(None),
            Err(BytesFault::NoMemory) => Err(NoMemory),
        },
        Some(None) => Ok(Some(None)),
        None => Ok(None),
    }
}

// What pieces have at a key; none where the bytes are not those of pieces with rising keys.
fn bytes_at_key<'a>(bytes: &'a [u8], key: &[u8]) -> Option<Option<&'a [u8]>>
    ensures some { IfSome result (λ o. Picks bytes.now key.now (option_copied o)) }
    ensures none { IfNone result (NoPieces bytes.now) }
{
    let mut rest = bytes;
    let mut last: Option<&[u8]> = None;
    let mut found: Option<&[u8]> = None;
    'pieces: while !rest.is_empty() {
        match take_piece(rest) {
            Some((next, row, behind)) => {
                if !is_above(last, next) {
                    return None;
                }
                found = one_more(found, key, next, row);
                last = Some(next);
                rest = behind;
            }
            None => return None,
        }
    }
    Some(found)
}

// What there is at a key, with one piece more.
fn one_more<'a>(found: Option<&'a [u8]>, key: &[u8], next: &[u8], row: &'a [u8]) -> Option<&'a [u8]>
    ensures { option_copied result
        ≡ cond (is_eq (key_cmp key.now next.now)) (Some row.now) (option_copied found.entry) }
{
    if key.cmp(next).is_eq() {
        Some(row)
    } else {
        found
    }
}

fn is_above(last: Option<&[u8]>, next: &[u8]) -> bool
    ensures { IsTrue result ↔ IsAbove (option_copied last.entry) next.now }
{
    match last {
        Some(last) => last.cmp(next).is_lt(),
        None => true,
    }
}

/// The key and the row's bytes at the front, and what follows them.
pub(crate) fn take_piece(bytes: &[u8]) -> Option<(&[u8], &[u8], &[u8])>
    ensures some { IfSome result (λ p. IsShortPiece (p.0.now, p.1.now)
        × (bytes.now ≡ piece_bytes (p.0.now, p.1.now) ++ p.2.now)) }
    ensures none { IfNone result ((p : Piece) (x : List ℕ) → IsShortPiece p
        → bytes.now ≡ piece_bytes p ++ x → ⊥) }
{
    match take_field(bytes) {
        Some((key, behind)) => match take_field(behind) {
            Some((row, rest)) => Some((key, row, rest)),
            None => None,
        },
        None => None,
    }
}
