//! The end of a merge of a family's files, as a draft and the families in hand have it.

ghost use Rattle.std.specs.Prelude.{◌≡◌, ◌≢◌, ◌∷◌, ℕ, List, IfOk, OnOk, drop, take};
ghost use Rattle.std.specs.BTreeMap.{get};
ghost use Rattle.std.specs.Option.{IsSome};
ghost use Rattle.std.specs.Ordering.{nat_cmp};
ghost use Rattle.alt_disk.specs.Disk.{DiskState};
ghost use Rattle.alt_flush.specs.Laws.{DropsOnly};
ghost use Rattle.alt_layout.specs.Families.{files_of};
ghost use Rattle.alt_layout.specs.Layout.{Layout};
ghost use Rattle.alt_layout.specs.Merged.{ShowsSame};
ghost use Rattle.alt_manifest.specs.Versions.{IsIn};
ghost use Rattle.alt_rowfile.specs.InHand.{file_of as row_file};
ghost use Rattle.alt_writes.specs.Writes.{Write};
ghost use Rattle.alt_families.specs.Families.{files_in, rows_in};
ghost use Rattle.alt_drafts.specs.Drafting.{IsLeftOut, Makes};
ghost use Rattle.alt_drafts.specs.Merging.{IsMadeOf, MayEnd};

use alt_base::NoMemory;
use alt_families::Family;
use alt_flush::with_merge;
use alt_manifest::{FamilyVersion, Version};
use alt_rowfile::RowFile;
use std::alloc::Global;
use std::collections::BTreeMap;

/// The draft in which what was made stands in the place of the first `taken` files of a family, and the families in hand likewise. After
/// an Err those in hand are spent.
pub fn merged(
    alloc: Global,
    families: &mut BTreeMap<u32, Family>,
    alive: Version,
    family: u32,
    taken: usize,
    file: u32,
    made: RowFile,
) -> Result<Version, NoMemory>
    ensures makes { IfOk result (λ u. (s : DiskState) (parts : List (List Write)) (l : Layout)
        (number : ℕ) → Makes s alive families.old parts l
        → MayEnd s alive (files_in (get nat_cmp families.old family)) family taken number file
        → row_file made ≡ file
        → IsMadeOf s (take taken (files_in (get nat_cmp families.old family))) made
        → (m : Layout) × Makes s u families.new parts m × ShowsSame l m) }
    ensures file { IfOk result (λ u. u.next_file ≡ alive.next_file) }
    ensures segments { IfOk result (λ u. u.segments ≡ alive.segments) }
    ensures files { OnOk result (IsSome (get nat_cmp families.old family)
        → files_in (get nat_cmp families.new family)
        ≡ made ∷ drop taken (files_in (get nat_cmp families.old family))) }
    ensures others { OnOk result ((other : ℕ) → other ≢ family
        → get nat_cmp families.new other ≡ get nat_cmp families.old other) }
    ensures rows { OnOk result (rows_in (get nat_cmp families.new family)
        ≡ rows_in (get nat_cmp families.old family)) }
    ensures drops { IfOk result (λ u. DropsOnly alive u (files_of alive.families family)) }
    ensures past { IfOk result (λ u. (other flushed : ℕ) → other ≢ family
        → IsLeftOut alive other flushed → IsLeftOut u other flushed) }
{
    let draft = with_merge(alloc, &alive, family, taken, file)?;
    put_made(families, family, taken, made)?;
    Ok(draft)
}

/// Puts a file in the place of the first `taken` ones of a family in hand.
fn put_made(
    families: &mut BTreeMap<u32, Family>,
    family: u32,
    taken: usize,
    made: RowFile,
) -> Result<(), NoMemory>
    ensures rows { OnOk result (rows_in (get nat_cmp families.new family)
        ≡ rows_in (get nat_cmp families.old family)) }
    ensures files { OnOk result (IsSome (get nat_cmp families.old family)
        → files_in (get nat_cmp families.new family)
        ≡ made ∷ drop taken (files_in (get nat_cmp families.old family))) }
    ensures others { OnOk result ((other : ℕ) → other ≢ family
        → get nat_cmp families.new other ≡ get nat_cmp families.old other) }
{
    match families.get_mut(&family) {
        Some(found) => replace_first(&mut found.files, taken, made),
        None => Ok(()),
    }
}

/// Puts a file in the place of the first `taken` ones.
fn replace_first(files: &mut Vec<RowFile>, taken: usize, made: RowFile) -> Result<(), NoMemory>
    ensures { OnOk result (files.new.items ≡ made ∷ drop taken files.old.items) }
{
    let at = if taken <= files.len() {
        taken
    } else {
        files.len()
    };
    let mut since = files.split_off(at)?;
    files.clear();
    files.push(made)?;
    files.append(&mut since)?;
    Ok(())
}

/// Puts the files that a version names for a family at the end of the list. Where memory is refused some may be there.
pub fn put_files_of(
    families: &[FamilyVersion],
    family: u32,
    files: &mut Vec<u32>,
) -> Result<(), NoMemory>
    ensures own { OnOk result ((f : ℕ) → IsIn (files_of families.now family) f
        → IsIn files.new.items f) }
    ensures kept { OnOk result ((f : ℕ) → IsIn files.old.items f → IsIn files.new.items f) }
{
    for found in families {
        put_if_own(found, family, files)?;
    }
    Ok(())
}

/// Puts the files of a family at the end of the list where it has this number.
fn put_if_own(found: &FamilyVersion, family: u32, files: &mut Vec<u32>) -> Result<(), NoMemory>
    ensures own { OnOk result (found.now.family ≡ family → (f : ℕ) → IsIn found.now.files f
        → IsIn files.new.items f) }
    ensures kept { OnOk result ((f : ℕ) → IsIn files.old.items f → IsIn files.new.items f) }
{
    if found.family == family {
        files.extend_from_slice(found.files.as_slice())?;
    }
    Ok(())
}
