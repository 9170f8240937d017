//! Whether numbers that were read are a version (docs/formats/versions.md): what rises, what differs, what is below what.

ghost use Rattle.std.specs.Prelude.{◌≡◌, ◌<◌, ◌++◌, true, IfOk, OnOk};
ghost use Rattle.std.specs.List.{AllByRecursion};
ghost use Rattle.alt_manifest.specs.Versions.{AreDistinct, IsFamily, IsHeldFamily, IsHeldVersion, IsVersion, RiseFrom, row_files};
ghost use Rattle.alt_manifest.specs.Rules.{Reflects, AreFamilies};

use crate::version::{FamilyVersion, Version};
use alt_base::NoMemory;
use std::alloc::Global;

/// The greatest number that the next write may have: 2^62 - 1.
const LAST_NUMBER: u64 = 4_611_686_018_427_387_903;

/// Whether what was read is a version.
pub(crate) fn is_version(alloc: Global, version: &Version) -> Result<bool, NoMemory>
    requires { IsHeldVersion version.now }
    ensures { IfOk result (λ b. Reflects b (IsVersion version.now)) }
{
    let segments = version.segments.as_slice();
    let families = version.families.as_slice();
    if version.next_number < 1 || version.next_number > LAST_NUMBER {
        return Ok(false);
    }
    if segments.is_empty() {
        return Ok(false);
    }
    if !rises(segments, 2) {
        return Ok(false);
    }
    if !are_families(families, version.next_number) {
        return Ok(false);
    }
    let mut files = Vec::new(alloc);
    put_all(&mut files, segments)?;
    put_row_files(&mut files, families)?;
    let named = files.as_slice();
    if !are_below(named, version.next_file) {
        return Ok(false);
    }
    are_distinct(files)
}

/// Appends numbers of files.
fn put_all(out: &mut Vec<u32>, files: &[u32]) -> Result<(), NoMemory>
    ensures { OnOk result (out.new.items ≡ out.old.items ++ files.now) }
{
    out.extend_from_slice(files)?;
    Ok(())
}

/// Appends the row files of families.
fn put_row_files(out: &mut Vec<u32>, families: &[FamilyVersion]) -> Result<(), NoMemory>
    ensures { OnOk result (out.new.items ≡ out.old.items ++ row_files families.now) }
{
    for family in families {
        put_all(out, family.files.as_slice())?;
    }
    Ok(())
}

/// Whether numbers rise strictly, and the first one is at least `least`.
fn rises(numbers: &[u32], least: u64) -> bool
    ensures { Reflects result (RiseFrom least numbers.now) }
{
    let mut next = least;
    for n in numbers {
        if (*n as u64) < next {
            return false;
        }
        next = *n as u64 + 1;
    }
    true
}

/// Whether these are the families of a version whose next write has this number.
fn are_families(families: &[FamilyVersion], next: u64) -> bool
    requires { AllByRecursion IsHeldFamily families.now }
    ensures { Reflects result (AreFamilies next 0 families.now) }
{
    let mut least = 0;
    for family in families {
        if (family.family as u64) < least || !is_family(family, next) {
            return false;
        }
        least = family.family as u64 + 1;
    }
    true
}

/// Whether this is a family of such a version.
fn is_family(family: &FamilyVersion, next: u64) -> bool
    requires { IsHeldFamily family.now }
    ensures { Reflects result (IsFamily next family.now) }
{
    family.flushed < next && rises(family.files.as_slice(), 2)
}

/// Whether all numbers are below a bound.
fn are_below(numbers: &[u32], bound: u32) -> bool
    ensures { Reflects result (AllByRecursion (λ n. n < bound) numbers.now) }
{
    for n in numbers {
        if *n >= bound {
            return false;
        }
    }
    true
}

/// Whether no number stands twice. They are put in order first: a version that was made up may name many files.
fn are_distinct(numbers: Vec<u32>) -> Result<bool, NoMemory>
    ensures { IfOk result (λ b. Reflects b (AreDistinct numbers.items)) }
{
    let mut sorted = numbers;
    sorted.sort()?;
    Ok(rises(sorted.as_slice(), 0))
}
