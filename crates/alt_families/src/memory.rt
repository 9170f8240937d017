//! The rows in memory, and the changes of a write joined to them.

ghost use Rattle.std.specs.Prelude.{◌≡◌, ◌∷◌, ◌≤◌, ◌+◌, ◌-◌, ◌^◌, [], ℕ, OnOk, length, min};
ghost use Rattle.std.specs.BTreeMap.{get};
ghost use Rattle.std.specs.Ordering.{nat_cmp};
ghost use Rattle.alt_memtable.specs.Rows.{most_bytes};
ghost use Rattle.alt_families.specs.Memory.{AreChanged, AreWrittenTo, IsChanged, IsWrittenTo};
ghost use Rattle.alt_writes.specs.Writes.{numbered};

use crate::family::Family;
use alt_base::NoMemory;
use alt_cells::{Batch, RowCells, RowChange};
use alt_memtable::Memtable;
use std::alloc::Global;
use std::collections::BTreeMap;

/// A count of bytes that stops.
const MOST: u64 = 1 << 62;

/// Joins the changes of batches to the rows of their families, each as a write; they are numbered in order from this number on. Where
/// memory is wanting, some may be joined and others not.
pub fn put_batches(
    alloc: Global,
    families: &mut BTreeMap<u32, Family>,
    number: u64,
    batches: &[Batch],
) -> Result<(), NoMemory>
    requires { number + length batches.now ≤ 2 ^ 62 - 1 }
    ensures written { OnOk result
        (AreWrittenTo families.old families.new (numbered number batches.now)) }
    ensures others { OnOk result ((family : ℕ) → (AreChanged batches.now family → ⊥)
        → get nat_cmp families.new family ≡ get nat_cmp families.old family) }
{
    let mut next = number;
    for batch in batches {
        put_changes(alloc, families, next, batch.as_slice())?;
        next += 1;
    }
    Ok(())
}

/// Joins the changes of a write to the rows of their families. Where memory is wanting, some may be joined and others not.
pub fn put_changes(
    alloc: Global,
    families: &mut BTreeMap<u32, Family>,
    number: u64,
    changes: &[RowChange],
) -> Result<(), NoMemory>
    ensures written { OnOk result
        (IsWrittenTo families.old families.new number changes.now) }
    ensures others { OnOk result ((family : ℕ) → (IsChanged changes.now family → ⊥)
        → get nat_cmp families.new family ≡ get nat_cmp families.old family) }
{
    for change in changes {
        put_one(alloc, families, number, change)?;
    }
    Ok(())
}

fn put_one(
    alloc: Global,
    families: &mut BTreeMap<u32, Family>,
    number: u64,
    change: &RowChange,
) -> Result<(), NoMemory>
    ensures written { OnOk result
        (IsWrittenTo families.old families.new number (change.now ∷ [])) }
    ensures others { OnOk result ((family : ℕ) → (family ≡ change.now.family → ⊥)
        → get nat_cmp families.new family ≡ get nat_cmp families.old family) }
{
    let row = RowCells::of_change(alloc, number, change)?;
    match families.get_mut(&change.family) {
        Some(family) => {
            family.table.put(change.key.as_slice(), row)?;
            Ok(())
        }
        None => {
            let mut table = Memtable::new(alloc);
            table.put(change.key.as_slice(), row)?;
            let family = Family {
                table,
                files: Vec::new(alloc),
            };
            families.insert(change.family, family)?;
            Ok(())
        }
    }
}

/// A count with so many more, up to 2^62.
pub fn with_more(count: u64, more: usize) -> u64
    ensures { result ≡ min (count + more) most_bytes }
{
    if count >= MOST {
        return MOST;
    }
    if more as u64 >= MOST - count {
        MOST
    } else {
        count + more as u64
    }
}
