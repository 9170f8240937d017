//! The steps by which a draft of the next version comes from the last one.

ghost use Rattle.std.specs.Prelude.{◌≡◌, ◌<◌, ◌+◌, ◌-◌, ◌^◌, IfOk};
ghost use Rattle.alt_flush.specs.Drafts.{over_new_log, renumbered, with_flush, with_segment, without_family};

use crate::lists::{copy_files, put_copies, with_file, with_files, with_none};
use alt_base::NoMemory;
use alt_manifest::{FamilyList, FileList, Version};
use std::alloc::Global;

/// The version with other numbers of the next file and the next write.
pub fn renumbered(
    alloc: Global,
    old: &Version,
    next_file: u32,
    next_number: u64,
) -> Result<Version, NoMemory>
    ensures { IfOk result (λ v. v ≡ renumbered old.now next_file next_number) }
{
    let segments = copy_files(alloc, old.segments.as_slice())?;
    let mut families = FamilyList::new(alloc);
    put_copies(alloc, &mut families, old.families.as_slice())?;
    Ok(Version {
        next_file,
        next_number,
        segments,
        families,
    })
}

/// The draft in which a family's rows in memory are in its next file.
pub fn with_flush(alloc: Global, old: &Version, family: u32) -> Result<Version, NoMemory>
    requires room { old.now.next_file + 1 < 2 ^ 32 }
    ensures { IfOk result (λ v. v ≡ with_flush old.now family) }
{
    let segments = copy_files(alloc, old.segments.as_slice())?;
    let families = with_file(
        alloc,
        old.families.as_slice(),
        family,
        before(old.next_number),
        old.next_file,
    )?;
    Ok(Version {
        next_file: old.next_file + 1,
        next_number: old.next_number,
        segments,
        families,
    })
}

/// The draft in which a family has no files, and no write so far counts for it.
pub fn without(alloc: Global, old: &Version, family: u32) -> Result<Version, NoMemory>
    ensures { IfOk result (λ v. v ≡ without_family old.now family) }
{
    let segments = copy_files(alloc, old.segments.as_slice())?;
    let families = with_none(
        alloc,
        old.families.as_slice(),
        family,
        before(old.next_number),
    )?;
    Ok(Version {
        next_file: old.next_file,
        next_number: old.next_number,
        segments,
        families,
    })
}

/// The draft over a new segment alone, its next file. Families without files are left out.
pub fn over_new_log(alloc: Global, old: &Version) -> Result<Version, NoMemory>
    requires room { old.now.next_file + 1 < 2 ^ 32 }
    ensures { IfOk result (λ v. v ≡ over_new_log old.now) }
{
    let mut segments = FileList::new(alloc);
    segments.push(old.next_file)?;
    let families = with_files(alloc, old.families.as_slice())?;
    Ok(Version {
        next_file: old.next_file + 1,
        next_number: old.next_number,
        segments,
        families,
    })
}

/// The draft with one segment more behind the others, its next file.
pub fn with_segment(alloc: Global, old: &Version) -> Result<Version, NoMemory>
    requires room { old.now.next_file + 1 < 2 ^ 32 }
    ensures { IfOk result (λ v. v ≡ with_segment old.now) }
{
    let mut segments = copy_files(alloc, old.segments.as_slice())?;
    segments.push(old.next_file)?;
    let mut families = FamilyList::new(alloc);
    put_copies(alloc, &mut families, old.families.as_slice())?;
    Ok(Version {
        next_file: old.next_file + 1,
        next_number: old.next_number,
        segments,
        families,
    })
}

/// The number before, and 0 before 0.
fn before(number: u64) -> u64
    ensures { result ≡ number - 1 }
{
    if number == 0 { 0 } else { number - 1 }
}
