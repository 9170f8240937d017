//! The rows of the changes that a stream keeps.

ghost use Rattle.std.specs.Prelude.{◌≡◌, ◌<◌, ◌^◌, ℕ, Err, Some, IfOk, IfSome};
ghost use Rattle.alt_changes.specs.ChangeRows.{change_in, row_key};
ghost use Rattle.alt_machine.specs.State as machine;
ghost use Rattle.alt_tablerows.specs.StreamRows.{IsChangeAt};

use alt_cells::ShownRow;
use alt_changes::{Change, change_of};
use alt_fields::{Bytes, BytesFault, take_u64};
use alt_views::Unread;
use std::alloc::Global;

/// The change whose row stands at a key of the family of a stream.
pub fn change_at(alloc: Global, key: &Bytes, row: &ShownRow) -> Result<Change, Unread>
    ensures change { IfOk result (λ c. IsChangeAt key.now row.now (change_in c)) }
    ensures none { result ≡ Err Unread.Bad → (c : machine.Change)
        → IsChangeAt key.now row.now c → ⊥ }
{
    let Some(number) = number_of(key.as_slice()) else {
        return Err(Unread::Bad);
    };
    if number == 0 {
        return Err(Unread::Bad);
    }
    match change_of(alloc, number, row) {
        Ok(change) => Ok(change),
        Err(BytesFault::Bad { .. }) => Err(Unread::Bad),
        Err(BytesFault::NoMemory) => Err(Unread::NoMemory),
    }
}

/// The number whose key this is.
pub fn number_of(key: &[u8]) -> Option<u64>
    ensures number { IfSome result (λ n. (n < 2 ^ 64) × (key.now ≡ row_key n)) }
    ensures none { (n : ℕ) → n < 2 ^ 64 → key.now ≡ row_key n → result ≡ Some n }
{
    match take_u64(key, 0) {
        Ok((number, end)) if end == key.len() => Some(number),
        _ => None,
    }
}
