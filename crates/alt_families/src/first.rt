//! The least family that shows a row.

ghost use Rattle.std.specs.Prelude.{◌≡◌, ℕ, option_and_then, IfOk, IfErr, IsErrOf, IsTrue};
ghost use Rattle.std.specs.BTreeMap.{get as tree_get};
ghost use Rattle.std.specs.FinMap.{get};
ghost use Rattle.std.specs.Ordering.{nat_cmp};
ghost use Rattle.alt_base.specs.Counts.{Rose};
ghost use Rattle.alt_cells.specs.Shown.{row_shown};
ghost use Rattle.alt_disk.specs.Disk.{Goes};
ghost use Rattle.alt_disk.specs.Runs.{Quiet};
ghost use Rattle.alt_layout.specs.Layout.{FindsFirst, RowMap};
ghost use Rattle.alt_families.specs.First.{FindsKey};
ghost use Rattle.alt_families.specs.Opened.{FamilyReads, SourceFaultIsUndamaged};

use crate::family::Family;
use crate::rows::shown_rows;
use alt_cells::SourceFault;
use alt_disk::Disk;
use alt_fields::Bytes;
use alt_keyorder::KeyRange;
use std::alloc::Global;
use std::collections::BTreeMap;

/// The least family from that one on that shows a row, with the first key that it shows. None exactly where there is none.
pub fn first_shown<D: Disk>(
    alloc: Global,
    disk: &mut D,
    families: &BTreeMap<u32, Family>,
    family: u32,
) -> Result<Option<(u32, Bytes)>, SourceFault>
    ensures first { IsTrue (D.state disk.old).tells → (rows : ℕ → RowMap)
        → ((f : ℕ) → FamilyReads (D.state disk.old) (tree_get nat_cmp families.now f) (rows f))
        → IfOk result (FindsFirst (λ f key. option_and_then row_shown (get (rows f) key)) family) }
    ensures undamaged { IsTrue (D.state disk.old).tells → (rows : ℕ → RowMap)
        → ((f : ℕ) → FamilyReads (D.state disk.old) (tree_get nat_cmp families.now f) (rows f))
        → IfErr result SourceFaultIsUndamaged }
    ensures quiet { IsTrue (D.state disk.old).tells
        → Quiet (D.state disk.old) (D.state disk.new) }
    ensures goes { Goes (D.state disk.old) (D.state disk.new) }
    ensures cause { IsErrOf result SourceFault.Failed
        → Rose (D.state disk.old).faults (D.state disk.new).faults }
    ensures well { (IsErrOf result SourceFault.Failed → ⊥)
        → (D.state disk.new).faults ≡ (D.state disk.old).faults }
{
    let mut ahead = families.range(family..);
    while let Some((number, _found)) = ahead.next() {
        match first_key(alloc, disk, families, *number) {
            Ok(Some(key)) => return Ok(Some((*number, key))),
            Ok(None) => {}
            Err(fault) => return Err(fault),
        }
    }
    Ok(None)
}

/// The first key at which a family shows a row.
fn first_key<D: Disk>(
    alloc: Global,
    disk: &mut D,
    families: &BTreeMap<u32, Family>,
    family: u32,
) -> Result<Option<Bytes>, SourceFault>
    ensures first { IsTrue (D.state disk.old).tells → (rows : RowMap)
        → FamilyReads (D.state disk.old) (tree_get nat_cmp families.now family) rows
        → IfOk result (FindsKey (λ key. option_and_then row_shown (get rows key))) }
    ensures undamaged { IsTrue (D.state disk.old).tells → (rows : RowMap)
        → FamilyReads (D.state disk.old) (tree_get nat_cmp families.now family) rows
        → IfErr result SourceFaultIsUndamaged }
    ensures quiet { IsTrue (D.state disk.old).tells
        → Quiet (D.state disk.old) (D.state disk.new) }
    ensures goes { Goes (D.state disk.old) (D.state disk.new) }
    ensures cause { IsErrOf result SourceFault.Failed
        → Rose (D.state disk.old).faults (D.state disk.new).faults }
    ensures well { (IsErrOf result SourceFault.Failed → ⊥)
        → (D.state disk.new).faults ≡ (D.state disk.old).faults }
{
    let all = KeyRange {
        from: Bytes::new(alloc, &[])?,
        to: None,
    };
    let mut rows = Vec::new(alloc);
    match shown_rows(alloc, disk, families, family, &all, true, 1, &mut rows) {
        Ok(()) => {}
        Err(fault) => return Err(fault),
    }
    match rows.pop() {
        Some((key, _)) => Ok(Some(key)),
        None => Ok(None),
    }
}
