//! Families with so many bytes in memory that they are flushed.

ghost use Rattle.std.specs.Prelude.{◌≡◌, ◌<◌, ◌≤◌, ℕ, IfSome, None, false};
ghost use Rattle.std.specs.BTreeMap.{get};
ghost use Rattle.std.specs.Ordering.{nat_cmp};
ghost use Rattle.alt_manifest.specs.Versions.{IsIn, RiseFrom};
ghost use Rattle.alt_families.specs.Memory.{AreChanged, IsChanged};
ghost use Rattle.alt_drafts.specs.InHand.{AreBelow, bytes_in_memory};

use alt_cells::{Batch, RowChange};
use alt_families::Family;
use std::collections::BTreeMap;

/// The first of these families with that many bytes in memory, None exactly where there is none.
pub fn first_full(families: &BTreeMap<u32, Family>, live: &[u32], flush: u64) -> Option<u32>
    requires { RiseFrom 0 live.now }
    ensures lives { IfSome result (IsIn live.now) }
    ensures full { IfSome result (λ family.
        flush ≤ bytes_in_memory (get nat_cmp families.now family)) }
    ensures first { IfSome result (λ family. (other : ℕ) → IsIn live.now other → other < family
        → flush ≤ bytes_in_memory (get nat_cmp families.now other) → ⊥) }
    ensures none { result ≡ None → (other : ℕ) → IsIn live.now other
        → flush ≤ bytes_in_memory (get nat_cmp families.now other) → ⊥ }
{
    for family in live {
        if bytes_of(families, *family) >= flush {
            return Some(*family);
        }
    }
    None
}

/// How many bytes were put into the rows that a family has in memory.
fn bytes_of(families: &BTreeMap<u32, Family>, family: u32) -> u64
    ensures { result ≡ bytes_in_memory (get nat_cmp families.now family) }
{
    match families.get(&family) {
        Some(found) => found.table.bytes(),
        None => 0,
    }
}

/// Whether a family has that many bytes in memory.
pub fn has_full(families: &BTreeMap<u32, Family>, flush: u64) -> bool
    ensures { result ≡ false → AreBelow flush families.now }
{
    if flush == 0 {
        return true;
    }
    for family in families.values() {
        if family.table.bytes() >= flush {
            return true;
        }
    }
    false
}

/// Whether a family may have that many bytes in memory after these batches, where one may have had them before or none had.
pub fn full_after(
    before: bool,
    families: &BTreeMap<u32, Family>,
    batches: &[Batch],
    flush: u64,
) -> bool
    ensures before { result ≡ false → before ≡ false }
    ensures changed { result ≡ false → (family : ℕ) → AreChanged batches.now family
        → bytes_in_memory (get nat_cmp families.now family) < flush }
{
    if before {
        return true;
    }
    for batch in batches {
        if fills(families, batch.as_slice(), flush) {
            return true;
        }
    }
    false
}

/// Whether a family that these changes are of has that many bytes in memory.
fn fills(families: &BTreeMap<u32, Family>, changes: &[RowChange], flush: u64) -> bool
    ensures { result ≡ false → (family : ℕ) → IsChanged changes.now family
        → bytes_in_memory (get nat_cmp families.now family) < flush }
{
    for change in changes {
        if bytes_of(families, change.family) >= flush {
            return true;
        }
    }
    false
}
