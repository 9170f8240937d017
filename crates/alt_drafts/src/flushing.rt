//! Rows in memory that become files of a draft of the next version.

ghost use Rattle.std.specs.Prelude.{◌≡◌, ◌≢◌, ◌++◌, ◌∷◌, ◌+◌, [], ℕ, List, IfOk, IfErr, OnOk, IsErrOf, ⊤};
ghost use Rattle.std.specs.BTreeMap.{get};
ghost use Rattle.std.specs.FinMap.{empty, entries};
ghost use Rattle.std.specs.Option.{IsSome};
ghost use Rattle.std.specs.Ordering.{nat_cmp};
ghost use Rattle.alt_base.specs.Counts.{Rose};
ghost use Rattle.alt_disk.specs.Disk.{IsTrusted, Goes};
ghost use Rattle.alt_disk.specs.Runs.{Spans};
ghost use Rattle.alt_flush.specs.Drafts.{From};
ghost use Rattle.alt_flush.specs.Laws.{DropsOnly};
ghost use Rattle.alt_layout.specs.Families.{files_of};
ghost use Rattle.alt_layout.specs.Layout.{Layout};
ghost use Rattle.alt_manifest.specs.Versions.{IsIn, RiseFrom};
ghost use Rattle.alt_writes.specs.Writes.{Write};
ghost use Rattle.alt_families.specs.Families.{rows_in, files_in};
ghost use Rattle.alt_drafts.specs.Drafting.{IsLeftOut, MemoryIsFlushed, IsSpentFor, Makes, files_for, files_needed};
ghost use Rattle.alt_drafts.specs.Carrying.{CarriesDraft};

use crate::dead::has_rows;
use crate::fault::EngineFault;
use alt_base::NoMemory;
use alt_disk::Disk;
use alt_families::Family;
use alt_flush::{with_flush, write_rows};
use alt_manifest::Version;
use alt_rowfile::RowFile;
use std::alloc::Global;
use std::collections::BTreeMap;

/// Puts the rows in memory of each of these families that has some into a file of its own, of this draft. Spent is told where a file
/// would be of number 2^32 - 1. After an Err the families are spent.
pub fn flush_each<D: Disk>(
    alloc: Global,
    disk: &mut D,
    families: &mut BTreeMap<u32, Family>,
    live: &[u32],
    draft: Version,
) -> Result<Version, EngineFault>
    requires makes { IsTrusted (D.state disk.old) → (parts : List (List Write)) × (l : Layout)
        × Makes (D.state disk.old) draft families.old parts l }
    requires rising { RiseFrom 0 live.now }
    ensures makes { IfOk result (λ u. IsTrusted (D.state disk.old) → (parts : List (List Write))
        (l : Layout) → Makes (D.state disk.old) draft families.old parts l
        → Makes (D.state disk.new) u families.new parts l) }
    ensures file { IfOk result (λ u. u.next_file
        ≡ draft.next_file + files_needed families.old live.now) }
    ensures segments { IfOk result (λ u. u.segments ≡ draft.segments) }
    ensures flushed { OnOk result ((family : ℕ) → IsIn live.now family
        → MemoryIsFlushed (get nat_cmp families.old family) (get nat_cmp families.new family)) }
    ensures others { OnOk result ((family : ℕ) → (IsIn live.now family → ⊥)
        → get nat_cmp families.new family ≡ get nat_cmp families.old family) }
    ensures drops { IfOk result (λ u. DropsOnly draft u []) }
    ensures apart { IfOk result (λ u. (family : ℕ) → (IsIn live.now family → ⊥)
        → files_of u.families family ≡ files_of draft.families family) }
    ensures carries { IfOk result (λ u. IsTrusted (D.state disk.old) → (parts : List (List Write))
        (l : Layout) → Makes (D.state disk.old) draft families.old parts l → (family : ℕ)
        → CarriesDraft (D.state disk.old) (D.state disk.new) draft u
        (get nat_cmp families.old family) (get nat_cmp families.new family) family) }
    ensures spans { IsTrusted (D.state disk.old) → Spans (D.state disk.old) (D.state disk.new)
        (From draft.next_file) (λ _ _. ⊤) }
    ensures spent { IfErr result
        (IsSpentFor (draft.next_file + files_needed families.old live.now)) }
    ensures goes { Goes (D.state disk.old) (D.state disk.new) }
    ensures cause { IsErrOf result EngineFault.Failed
        → Rose (D.state disk.old).faults (D.state disk.new).faults }
    ensures well { OnOk result ((D.state disk.new).faults ≡ (D.state disk.old).faults) }
{
    let mut draft = draft;
    for family in live {
        draft = flush_rows(alloc, disk, families, *family, draft)?;
    }
    Ok(draft)
}

/// Puts the rows in memory of a family into the draft's next file, where it has some. It fails as `flush_each`, and after an Err the
/// families are spent.
pub fn flush_rows<D: Disk>(
    alloc: Global,
    disk: &mut D,
    families: &mut BTreeMap<u32, Family>,
    family: u32,
    draft: Version,
) -> Result<Version, EngineFault>
    requires makes { IsTrusted (D.state disk.old) → (parts : List (List Write)) × (l : Layout)
        × Makes (D.state disk.old) draft families.old parts l }
    ensures makes { IfOk result (λ u. IsTrusted (D.state disk.old) → (parts : List (List Write))
        (l : Layout) → Makes (D.state disk.old) draft families.old parts l
        → Makes (D.state disk.new) u families.new parts l) }
    ensures file { IfOk result (λ u. u.next_file ≡ draft.next_file
        + files_for (entries (rows_in (get nat_cmp families.old family)))) }
    ensures segments { IfOk result (λ u. u.segments ≡ draft.segments) }
    ensures flushed { OnOk result
        (MemoryIsFlushed (get nat_cmp families.old family) (get nat_cmp families.new family)) }
    ensures others { OnOk result ((other : ℕ) → other ≢ family
        → get nat_cmp families.new other ≡ get nat_cmp families.old other) }
    ensures drops { IfOk result (λ u. DropsOnly draft u []) }
    ensures apart { IfOk result (λ u. (other : ℕ) → other ≢ family
        → files_of u.families other ≡ files_of draft.families other) }
    ensures past { IfOk result (λ u. (other flushed : ℕ) → other ≢ family
        → IsLeftOut draft other flushed → IsLeftOut u other flushed) }
    ensures carries { IfOk result (λ u. IsTrusted (D.state disk.old) → (parts : List (List Write))
        (l : Layout) → Makes (D.state disk.old) draft families.old parts l → (other : ℕ)
        → CarriesDraft (D.state disk.old) (D.state disk.new) draft u
        (get nat_cmp families.old other) (get nat_cmp families.new other) other) }
    ensures spans { IsTrusted (D.state disk.old) → Spans (D.state disk.old) (D.state disk.new)
        (From draft.next_file) (λ _ _. ⊤) }
    ensures spent { IfErr result (IsSpentFor (draft.next_file
        + files_for (entries (rows_in (get nat_cmp families.old family))))) }
    ensures goes { Goes (D.state disk.old) (D.state disk.new) }
    ensures cause { IsErrOf result EngineFault.Failed
        → Rose (D.state disk.old).faults (D.state disk.new).faults }
    ensures well { OnOk result ((D.state disk.new).faults ≡ (D.state disk.old).faults) }
{
    let made = match families.get(&family) {
        Some(found) => {
            if !has_rows(&found.table) {
                return Ok(draft);
            }
            if draft.next_file == u32::MAX {
                return Err(EngineFault::Spent {
                    number: draft.next_file as u64,
                });
            }
            write_rows(alloc, disk, draft.next_file, &found.table)?
        }
        None => return Ok(draft),
    };
    let next = with_flush(alloc, &draft, family)?;
    put_file(families, family, made)?;
    Ok(next)
}

/// Puts a file behind those of a family in hand, and clears its table.
fn put_file(
    families: &mut BTreeMap<u32, Family>,
    family: u32,
    made: RowFile,
) -> Result<(), NoMemory>
    requires { IsSome (get nat_cmp families.old family) }
    ensures rows { OnOk result (rows_in (get nat_cmp families.new family) ≡ empty) }
    ensures files { OnOk result (files_in (get nat_cmp families.new family)
        ≡ files_in (get nat_cmp families.old family) ++ made ∷ []) }
    ensures others { OnOk result ((other : ℕ) → other ≢ family
        → get nat_cmp families.new other ≡ get nat_cmp families.old other) }
{
    match families.get_mut(&family) {
        Some(found) => {
            found.files.push(made)?;
            found.table.clear();
            Ok(())
        }
        None => Ok(()),
    }
}
