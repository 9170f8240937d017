//! Families of a version with one of them changed, as lists of their own.

ghost use Rattle.std.specs.Prelude.{◌≡◌, ◌≤◌, ◌++◌, ◌∷◌, [], IfOk, OnOk};
ghost use Rattle.alt_layout.specs.Flushes.{with_file};
ghost use Rattle.alt_flush.specs.Drafts.{with_files, with_none};

use alt_base::NoMemory;
use alt_manifest::{FamilyList, FamilyVersion, FileList};
use std::alloc::Global;

/// Families of which one has a file more, up to that number.
pub(crate) fn with_file(
    alloc: Global,
    families: &[FamilyVersion],
    family: u32,
    flushed: u64,
    file: u32,
) -> Result<FamilyList, NoMemory>
    ensures { IfOk result (λ list. list ≡ with_file family flushed file families.now) }
{
    let mut out = FamilyList::new(alloc);
    for i in 0..families.len() {
        let first = &families[i];
        if family <= first.family {
            put_with(
                alloc,
                &mut out,
                first,
                &families[i + 1..],
                family,
                flushed,
                file,
            )?;
            return Ok(out);
        }
        put_copy(alloc, &mut out, first)?;
    }
    put_new(alloc, &mut out, family, flushed, file)?;
    Ok(out)
}

/// Puts the families from the family's place on at the end, with the file.
fn put_with(
    alloc: Global,
    out: &mut FamilyList,
    first: &FamilyVersion,
    rest: &[FamilyVersion],
    family: u32,
    flushed: u64,
    file: u32,
) -> Result<(), NoMemory>
    requires { family ≤ first.now.family }
    ensures { OnOk result (out.new
        ≡ out.old ++ with_file family flushed file (first.now ∷ rest.now)) }
{
    if first.family == family {
        put_more(alloc, out, first, flushed, file)?;
        return put_copies(alloc, out, rest);
    }
    put_new(alloc, out, family, flushed, file)?;
    put_copy(alloc, out, first)?;
    put_copies(alloc, out, rest)
}

/// Families of which one has no files, up to that number.
pub(crate) fn with_none(
    alloc: Global,
    families: &[FamilyVersion],
    family: u32,
    flushed: u64,
) -> Result<FamilyList, NoMemory>
    ensures { IfOk result (λ list. list ≡ with_none family flushed families.now) }
{
    let mut out = FamilyList::new(alloc);
    for i in 0..families.len() {
        let first = &families[i];
        if family <= first.family {
            put_none(alloc, &mut out, family, flushed)?;
            if first.family < family || first.family > family {
                put_copy(alloc, &mut out, first)?;
            }
            put_copies(alloc, &mut out, &families[i + 1..])?;
            return Ok(out);
        }
        put_copy(alloc, &mut out, first)?;
    }
    put_none(alloc, &mut out, family, flushed)?;
    Ok(out)
}

/// Those of the families that have files.
pub(crate) fn with_files(alloc: Global, families: &[FamilyVersion]) -> Result<FamilyList, NoMemory>
    ensures { IfOk result (λ list. list ≡ with_files families.now) }
{
    let mut out = FamilyList::new(alloc);
    for family in families {
        put_if_files(alloc, &mut out, family)?;
    }
    Ok(out)
}

/// Puts a family at the end where it has files.
fn put_if_files(alloc: Global, out: &mut FamilyList, old: &FamilyVersion) -> Result<(), NoMemory>
    ensures { OnOk result (out.new ≡ out.old ++ with_files (old.now ∷ [])) }
{
    if old.files.as_slice().is_empty() {
        return Ok(());
    }
    put_copy(alloc, out, old)
}

/// Puts a family of one file at the end.
fn put_new(
    alloc: Global,
    out: &mut FamilyList,
    family: u32,
    flushed: u64,
    file: u32,
) -> Result<(), NoMemory>
    ensures { OnOk result (out.new ≡ out.old
        ++ (record { family = family; flushed = flushed; files = file ∷ [] }) ∷ []) }
{
    let mut files = FileList::new(alloc);
    files.push(file)?;
    out.push(FamilyVersion {
        family,
        flushed,
        files,
    })
}

/// Puts a family without files at the end.
fn put_none(alloc: Global, out: &mut FamilyList, family: u32, flushed: u64) -> Result<(), NoMemory>
    ensures { OnOk result (out.new ≡ out.old
        ++ (record { family = family; flushed = flushed; files = [] }) ∷ []) }
{
    out.push(FamilyVersion {
        family,
        flushed,
        files: FileList::new(alloc),
    })
}

/// Puts a family with one file more at the end.
fn put_more(
    alloc: Global,
    out: &mut FamilyList,
    old: &FamilyVersion,
    flushed: u64,
    file: u32,
) -> Result<(), NoMemory>
    ensures { OnOk result (out.new ≡ out.old ++ (record {
      family = old.now.family;
      flushed = flushed;
      files = old.now.files ++ file ∷ [];
    }) ∷ []) }
{
    let mut files = copy_files(alloc, old.files.as_slice())?;
    files.push(file)?;
    out.push(FamilyVersion {
        family: old.family,
        flushed,
        files,
    })
}

pub(crate) fn put_copy(
    alloc: Global,
    out: &mut FamilyList,
    old: &FamilyVersion,
) -> Result<(), NoMemory>
    ensures { OnOk result (out.new ≡ out.old ++ old.now ∷ []) }
{
    let files = copy_files(alloc, old.files.as_slice())?;
    out.push(FamilyVersion {
        family: old.family,
        flushed: old.flushed,
        files,
    })
}

pub(crate) fn put_copies(
    alloc: Global,
    out: &mut FamilyList,
    rest: &[FamilyVersion],
) -> Result<(), NoMemory>
    ensures { OnOk result (out.new ≡ out.old ++ rest.now) }
{
    for family in rest {
        put_copy(alloc, out, family)?;
    }
    Ok(())
}

pub(crate) fn copy_files(alloc: Global, files: &[u32]) -> Result<FileList, NoMemory>
    ensures { IfOk result (λ list. list ≡ files.now) }
{
    let mut list = FileList::new(alloc);
    for file in files {
        list.push(*file)?;
    }
    Ok(list)
}
