//! The step of a merge to a draft of the next version.

ghost use Rattle.std.specs.Prelude.{◌≡◌, ◌++◌, ◌∷◌, [], IfOk, OnOk, drop};
ghost use Rattle.alt_layout.specs.Merged.{version_made, with_made};

use crate::lists::{copy_files, put_copies, put_copy};
use alt_base::NoMemory;
use alt_manifest::{FamilyList, FamilyVersion, FileList, Version};
use std::alloc::Global;

/// The draft in which a file stands in the place of the first `taken` ones of a family.
pub fn with_merge(
    alloc: Global,
    old: &Version,
    family: u32,
    taken: usize,
    made: u32,
) -> Result<Version, NoMemory>
    ensures { IfOk result (λ v. v ≡ version_made old.now family taken (made ∷ [])) }
{
    let segments = copy_files(alloc, old.segments.as_slice())?;
    let families = with_made(alloc, old.families.as_slice(), family, taken, made)?;
    Ok(Version {
        next_file: old.next_file,
        next_number: old.next_number,
        segments,
        families,
    })
}

/// Families of which one has that file in the place of its first.
fn with_made(
    alloc: Global,
    families: &[FamilyVersion],
    family: u32,
    taken: usize,
    made: u32,
) -> Result<FamilyList, NoMemory>
    ensures { IfOk result (λ list. list ≡ with_made family taken (made ∷ []) families.now) }
{
    let mut out = FamilyList::new(alloc);
    for i in 0..families.len() {
        let first = &families[i];
        if first.family == family {
            put_made(alloc, &mut out, first, taken, made)?;
            put_copies(alloc, &mut out, &families[i + 1..])?;
            return Ok(out);
        }
        put_copy(alloc, &mut out, first)?;
    }
    Ok(out)
}

/// Puts a family with that file in the place of its first ones at the end.
fn put_made(
    alloc: Global,
    out: &mut FamilyList,
    old: &FamilyVersion,
    taken: usize,
    made: u32,
) -> Result<(), NoMemory>
    ensures { OnOk result (out.new ≡ out.old ++ (record {
      family = old.now.family;
      flushed = old.now.flushed;
      files = made ∷ drop taken old.now.files;
    }) ∷ []) }
{
    let mut files = FileList::new(alloc);
    files.push(made)?;
    put_rest(&mut files, old.files.as_slice(), taken)?;
    out.push(FamilyVersion {
        family: old.family,
        flushed: old.flushed,
        files,
    })
}

/// Puts the files behind the first `taken` ones at the end.
fn put_rest(files: &mut FileList, old: &[u32], taken: usize) -> Result<(), NoMemory>
    ensures { OnOk result (files.new ≡ files.old ++ drop taken old.now) }
{
    let since = behind(old, taken);
    for file in since {
        files.push(*file)?;
    }
    Ok(())
}

/// What stands behind the first `taken` ones.
fn behind(files: &[u32], taken: usize) -> &[u32]
    ensures { result.now ≡ drop taken files.now }
{
    if taken <= files.len() {
        &files[taken..]
    } else {
        &[]
    }
}
