//! A whole block, by its bytes: whether they are one, and the row of a key in it.

ghost use Rattle.std.specs.Prelude.{◌≡◌, true, List, IfOk, IfSome, IfNone, T};
ghost use Rattle.std.specs.FinMap.Entries.{find, is_sorted};
ghost use Rattle.alt_cells.specs.Keys.{key_cmp};
ghost use Rattle.alt_rowblocks.specs.Format.{Entry, block_bytes, IsHeldBlock};
ghost use Rattle.alt_rowblocks.specs.Taken.{IsFoundIn};

use crate::decode::{decode, whole_field};
use crate::pick::pick;
use alt_base::NoMemory;
use alt_cells::RowCells;
use std::alloc::Global;

/// Whether these are the bytes of a block: of a field to their end, of rows with rising keys. It decodes each of them, and memory may be
/// refused.
pub fn are_rows(alloc: Global, bytes: &[u8]) -> Result<bool, NoMemory>
    ensures { (b : List Entry) → IsHeldBlock b → T (is_sorted key_cmp b)
        → bytes.now ≡ block_bytes b → IfOk result (λ are. are ≡ true) }
{
    match whole_field(bytes) {
        Some(block) => {
            let decoded = decode(alloc, block)?;
            Ok(decoded.is_some())
        }
        None => Ok(false),
    }
}

/// What the block whose bytes these are has at a key; none where they are no block's. It decodes that row alone, for which memory may be
/// refused.
pub fn row_at(alloc: Global, bytes: &[u8], key: &[u8]) -> Result<Option<Option<RowCells>>, NoMemory>
    ensures some { (b : List Entry) → IsHeldBlock b → T (is_sorted key_cmp b)
        → bytes.now ≡ block_bytes b
        → IfOk result (λ o. IfSome o (λ row. row ≡ find key_cmp key.now b)) }
    ensures none { (b : List Entry) → IsHeldBlock b → T (is_sorted key_cmp b)
        → bytes.now ≡ block_bytes b → IfOk result (λ o. IfNone o ⊥) }
    ensures found { IfOk result (λ o. IfSome o (IsFoundIn bytes.now key.now)) }
{
    match whole_field(bytes) {
        Some(block) => pick(alloc, block, key),
        None => Ok(None),
    }
}
