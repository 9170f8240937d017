//! Families that aren't live, left out of a draft of the next version.

ghost use Rattle.std.specs.Prelude.{◌≡◌, ◌⊎◌, ◌-◌, [], ℕ, List, OnOk, IfOk, None, is_some};
ghost use Rattle.std.specs.BTreeMap.{get};
ghost use Rattle.std.specs.FinMap.{empty, entries};
ghost use Rattle.std.specs.Ordering.{eq_by_cmp, nat_cmp};
ghost use Rattle.std.specs.Set.{is_member};
ghost use Rattle.alt_disk.specs.Disk.{DiskState};
ghost use Rattle.alt_flush.specs.Laws.{DropsOnly};
ghost use Rattle.alt_layout.specs.Families.{files_of};
ghost use Rattle.alt_layout.specs.Layout.{Layout};
ghost use Rattle.alt_manifest.specs.Versions.{IsIn, numbers_of, row_files};
ghost use Rattle.alt_writes.specs.Writes.{Write};
ghost use Rattle.alt_families.specs.Families.{rows_in};
ghost use Rattle.alt_drafts.specs.Carrying.{CarriesDraft};
ghost use Rattle.alt_drafts.specs.Drafting.{AreDead, Empties, IsLeftOut, IsThere, Makes, is_some_row, without_families};

use alt_base::NoMemory;
use alt_families::Family;
use alt_flush::{has, without};
use alt_manifest::{FamilyVersion, Version};
use alt_memtable::Memtable;
use std::alloc::Global;
use std::collections::BTreeMap;

/// Leaves the families out of a draft that aren't live, and out of those in hand: they have no files then, and no write so far counts
/// for them. Their files are put at the end of the list. After an Err families and list are spent.
pub fn leave_dead(
    alloc: Global,
    families: &mut BTreeMap<u32, Family>,
    draft: Version,
    live: &[u32],
    left: &mut Vec<u32>,
) -> Result<Version, NoMemory>
    ensures makes { IfOk result (λ u. (s : DiskState) (parts : List (List Write)) (l : Layout)
        → Makes s draft families.old parts l
        → (m : Layout) × Makes s u families.new parts m × Empties live.now l m) }
    ensures version { IfOk result (λ u. (dead : List ℕ) × AreDead live.now dead
        × (u ≡ without_families draft dead)) }
    ensures file { IfOk result (λ u. u.next_file ≡ draft.next_file) }
    ensures segments { IfOk result (λ u. u.segments ≡ draft.segments) }
    ensures lives { OnOk result ((family : ℕ) → IsIn live.now family
        → get nat_cmp families.new family ≡ get nat_cmp families.old family) }
    ensures rest { OnOk result ((family : ℕ) → IsIn live.now family
        ⊎ (rows_in (get nat_cmp families.new family) ≡ empty)) }
    ensures carries { IfOk result (λ u. (s : DiskState) (family : ℕ) → IsIn live.now family
        → CarriesDraft s s draft u (get nat_cmp families.old family)
        (get nat_cmp families.new family) family) }
    ensures left { OnOk result ((f : ℕ) → IsIn left.new.items f
        → IsIn left.old.items f ⊎ IsIn (row_files draft.families) f) }
    ensures kept { OnOk result ((f : ℕ) → IsIn left.old.items f → IsIn left.new.items f) }
    ensures drops { IfOk result (λ u. DropsOnly draft u left.new.items) }
    ensures bare { IfOk result (λ u. (family : ℕ) → (IsIn live.now family → ⊥)
        → files_of u.families family ≡ []) }
    ensures past { IfOk result (λ u. (family : ℕ) → (IsIn live.now family → ⊥)
        → IsThere draft (get nat_cmp families.old family) family
        → IsLeftOut u family (draft.next_number - 1)) }
    ensures same { IfOk result (λ u. (family : ℕ) → IsIn live.now family
        → files_of u.families family ≡ files_of draft.families family) }
{
    let dead = dead_of(alloc, &draft, families, live, left)?;
    drop_all(alloc, families, draft, dead.as_slice())
}

/// The families that aren't live, and that the version names or that have rows in memory. The files of those are put at the end of
/// the list.
fn dead_of(
    alloc: Global,
    version: &Version,
    families: &BTreeMap<u32, Family>,
    live: &[u32],
    files: &mut Vec<u32>,
) -> Result<Vec<u32>, NoMemory>
    ensures dead { IfOk result (λ dead. AreDead live.now dead.items) }
    ensures named { IfOk result (λ dead. (family : ℕ)
        → IsIn (numbers_of version.now.families) family
        → IsIn live.now family ⊎ IsIn dead.items family) }
    ensures rest { IfOk result (λ dead. (family : ℕ) → IsIn live.now family
        ⊎ (IsIn dead.items family ⊎ (rows_in (get nat_cmp families.now family) ≡ empty))) }
    ensures left { OnOk result ((f : ℕ) → IsIn files.new.items f
        → IsIn files.old.items f ⊎ IsIn (row_files version.now.families) f) }
    ensures files { OnOk result ((family : ℕ) → (IsIn live.now family → ⊥) → (f : ℕ)
        → IsIn (files_of version.now.families family) f → IsIn files.new.items f) }
    ensures kept { OnOk result ((f : ℕ) → IsIn files.old.items f → IsIn files.new.items f) }
{
    let mut dead = Vec::new(alloc);
    put_named(version.families.as_slice(), live, &mut dead, files)?;
    let mut numbers = Vec::new(alloc);
    put_numbers(families, &mut numbers)?;
    put_hidden(numbers.as_slice(), families, live, &mut dead)?;
    Ok(dead)
}

/// Puts those of the families that aren't live at the end of one list, and their files at the end of the other.
fn put_named(
    families: &[FamilyVersion],
    live: &[u32],
    dead: &mut Vec<u32>,
    files: &mut Vec<u32>,
) -> Result<(), NoMemory>
    requires { AreDead live.now dead.old.items }
    ensures dead { OnOk result (AreDead live.now dead.new.items) }
    ensures named { OnOk result ((family : ℕ) → IsIn (numbers_of families.now) family
        → IsIn live.now family ⊎ IsIn dead.new.items family) }
    ensures left { OnOk result ((f : ℕ) → IsIn files.new.items f
        → IsIn files.old.items f ⊎ IsIn (row_files families.now) f) }
    ensures files { OnOk result ((family : ℕ) → (IsIn live.now family → ⊥) → (f : ℕ)
        → IsIn (files_of families.now family) f → IsIn files.new.items f) }
    ensures kept { OnOk result ((f : ℕ) → IsIn files.old.items f → IsIn files.new.items f) }
{
    for family in families {
        put_if_dead(family, live, dead, files)?;
    }
    Ok(())
}

/// Puts a family that isn't live at the end of one list, and its files at the end of the other.
fn put_if_dead(
    family: &FamilyVersion,
    live: &[u32],
    dead: &mut Vec<u32>,
    files: &mut Vec<u32>,
) -> Result<(), NoMemory>
    requires { AreDead live.now dead.old.items }
    ensures dead { OnOk result (AreDead live.now dead.new.items) }
    ensures more { OnOk result ((other : ℕ) → IsIn dead.old.items other
        → IsIn dead.new.items other) }
    ensures one { OnOk result (IsIn live.now family.now.family
        ⊎ IsIn dead.new.items family.now.family) }
    ensures left { OnOk result ((f : ℕ) → IsIn files.new.items f
        → IsIn files.old.items f ⊎ IsIn family.now.files f) }
    ensures files { OnOk result ((IsIn live.now family.now.family → ⊥) → (f : ℕ)
        → IsIn family.now.files f → IsIn files.new.items f) }
    ensures kept { OnOk result ((f : ℕ) → IsIn files.old.items f → IsIn files.new.items f) }
{
    if has(live, family.family) {
        return Ok(());
    }
    dead.push(family.family)?;
    files.extend_from_slice(family.files.as_slice())?;
    Ok(())
}

/// Puts the numbers of all families in hand into an empty list.
fn put_numbers(families: &BTreeMap<u32, Family>, out: &mut Vec<u32>) -> Result<(), NoMemory>
    requires { out.old.items ≡ [] }
    ensures { OnOk result ((family : ℕ) → is_some (get nat_cmp families.now family)
        ≡ is_member (eq_by_cmp nat_cmp) out.new.items family) }
{
    for family in families.keys() {
        out.push(*family)?;
    }
    Ok(())
}

/// Puts those of the numbers at the end of the list whose families have rows in memory and aren't live.
fn put_hidden(
    numbers: &[u32],
    families: &BTreeMap<u32, Family>,
    live: &[u32],
    dead: &mut Vec<u32>,
) -> Result<(), NoMemory>
    requires { AreDead live.now dead.old.items }
    ensures dead { OnOk result (AreDead live.now dead.new.items) }
    ensures more { OnOk result ((family : ℕ) → IsIn dead.old.items family
        → IsIn dead.new.items family) }
    ensures rest { OnOk result ((family : ℕ) → IsIn numbers.now family → IsIn live.now family
        ⊎ (IsIn dead.new.items family ⊎ (rows_in (get nat_cmp families.now family) ≡ empty))) }
{
    for number in numbers {
        put_if_hidden(*number, families, live, dead)?;
    }
    Ok(())
}

/// Puts a number at the end of the list whose family has rows in memory and isn't live.
fn put_if_hidden(
    number: u32,
    families: &BTreeMap<u32, Family>,
    live: &[u32],
    dead: &mut Vec<u32>,
) -> Result<(), NoMemory>
    requires { AreDead live.now dead.old.items }
    ensures dead { OnOk result (AreDead live.now dead.new.items) }
    ensures more { OnOk result ((family : ℕ) → IsIn dead.old.items family
        → IsIn dead.new.items family) }
    ensures one { OnOk result (IsIn live.now number
        ⊎ (IsIn dead.new.items number ⊎ (rows_in (get nat_cmp families.now number) ≡ empty))) }
{
    if has(live, number) {
        return Ok(());
    }
    match families.get(&number) {
        Some(found) => {
            if has_rows(&found.table) {
                dead.push(number)?;
            }
            Ok(())
        }
        None => Ok(()),
    }
}

/// Whether a table has rows.
pub(crate) fn has_rows(table: &Memtable) -> bool
    ensures { result ≡ is_some_row (entries table.now.0) }
{
    table.rows().next().is_some()
}

/// Leaves families out of a draft, and out of those in hand.
fn drop_all(
    alloc: Global,
    families: &mut BTreeMap<u32, Family>,
    draft: Version,
    dead: &[u32],
) -> Result<Version, NoMemory>
    ensures makes { IfOk result (λ u. (s : DiskState) (parts : List (List Write)) (l : Layout)
        (live : List ℕ) → AreDead live dead.now → Makes s draft families.old parts l
        → (m : Layout) × Makes s u families.new parts m × Empties live l m) }
    ensures version { IfOk result (λ u. u ≡ without_families draft dead.now) }
    ensures gone { OnOk result ((family : ℕ) → IsIn dead.now family
        → get nat_cmp families.new family ≡ None) }
    ensures others { OnOk result ((family : ℕ) → (IsIn dead.now family → ⊥)
        → get nat_cmp families.new family ≡ get nat_cmp families.old family) }
{
    let mut draft = draft;
    for family in dead {
        draft = without(alloc, &draft, *family)?;
        families.remove(family);
    }
    Ok(draft)
}
