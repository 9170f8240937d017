//! Writing a version: its bytes (docs/formats/versions.md).

ghost use Rattle.std.specs.Prelude.{◌≡◌, ◌++◌, IfOk, OnOk};
ghost use Rattle.std.specs.List.{flat_map};
ghost use Rattle.alt_manifest.specs.Versions.{file_bytes, files_bytes, family_bytes, version_bytes};

use crate::version::{FamilyVersion, Version};
use alt_base::NoMemory;
use alt_fields::{put_u32, put_u64};
use std::alloc::Global;

/// The bytes of a version.
pub(crate) fn bytes_of(alloc: Global, version: &Version) -> Result<Vec<u8>, NoMemory>
    ensures bytes { IfOk result (λ bytes. bytes.items ≡ version_bytes version.now) }
{
    let mut bytes = Vec::new(alloc);
    put_version(&mut bytes, version)?;
    Ok(bytes)
}

/// Appends the bytes of a version.
fn put_version(out: &mut Vec<u8>, version: &Version) -> Result<(), NoMemory>
    ensures appended { OnOk result (out.new.items ≡ out.old.items ++ version_bytes version.now) }
{
    put_u32(out, version.next_file)?;
    put_u64(out, version.next_number)?;
    put_files(out, version.segments.as_slice())?;
    let families = version.families.as_slice();
    put_u64(out, families.len() as u64)?;
    put_families(out, families)
}

/// Appends families, one behind another.
fn put_families(out: &mut Vec<u8>, families: &[FamilyVersion]) -> Result<(), NoMemory>
    ensures appended { OnOk result
        (out.new.items ≡ out.old.items ++ flat_map family_bytes families.now) }
{
    for family in families {
        put_family(out, family)?;
    }
    Ok(())
}

/// Appends a family.
fn put_family(out: &mut Vec<u8>, family: &FamilyVersion) -> Result<(), NoMemory>
    ensures appended { OnOk result (out.new.items ≡ out.old.items ++ family_bytes family.now) }
{
    put_u32(out, family.family)?;
    put_u64(out, family.flushed)?;
    put_files(out, family.files.as_slice())
}

/// Appends numbers of files behind their count.
fn put_files(out: &mut Vec<u8>, files: &[u32]) -> Result<(), NoMemory>
    ensures appended { OnOk result (out.new.items ≡ out.old.items ++ files_bytes files.now) }
{
    put_u64(out, files.len() as u64)?;
    put_numbers(out, files)
}

/// Appends numbers of files.
fn put_numbers(out: &mut Vec<u8>, files: &[u32]) -> Result<(), NoMemory>
    ensures appended { OnOk result
        (out.new.items ≡ out.old.items ++ flat_map file_bytes files.now) }
{
    for file in files {
        put_u32(out, *file)?;
    }
    Ok(())
}
