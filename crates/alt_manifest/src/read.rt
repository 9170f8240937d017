//! Reading a version back from its bytes: first its numbers, whatever they say, then whether they are a version.

ghost use Rattle.std.specs.Prelude.{◌≡◌, ◌<◌, ◌^◌, ◌++◌, IfOk, IfErr, length};
ghost use Rattle.std.specs.List.{AllByRecursion, flat_map};
ghost use Rattle.std.specs.Int.{w64, to_be_bytes};
ghost use Rattle.alt_fields.specs.Bytes.{IsShort};
ghost use Rattle.alt_manifest.specs.Versions.{IsFile, IsHeldFamily, IsHeldVersion, IsVersion, file_bytes, files_bytes, family_bytes, version_bytes};
ghost use Rattle.alt_manifest.specs.Reading.{BadMeans, NoNumber, NoFile, NoFiles, NoList, NoFamily, NoFamilies, NoHeld, NoVersion};

use crate::rules::is_version;
use crate::version::{FamilyList, FamilyVersion, FileList, Version};
use alt_base::NoMemory;
use alt_fields::{take_u32, take_u64};
use std::alloc::Global;

/// Why nothing was read: the bytes are none of what was to be read, or memory was wanting.
#[derive(Clone, Copy, Debug, PartialEq, Eq, Drop)]
pub(crate) enum Stop {
    Bad,
    NoMemory,
}

impl From<NoMemory> for Stop {
    ghost use Rattle.std.specs.Prelude.{◌≡◌};
    ghost use Rattle.alt_manifest.specs.declared.read.Stop.TheVariants as stop;

    ghost from_gives = { λ _ s. s ≡ stop.NoMemory };

    fn from(_: NoMemory) -> Self {
        Stop::NoMemory
    }
}

/// The version whose bytes the bytes are, Bad exactly where they are none's.
pub(crate) fn version_of_bytes(alloc: Global, bytes: &[u8]) -> Result<Version, Stop>
    ensures is { IfOk result (λ v. IsVersion v) }
    ensures bytes { IfOk result (λ v. bytes.now ≡ version_bytes v) }
    ensures none { IfErr result (BadMeans (NoVersion bytes.now)) }
{
    match take_version(alloc, bytes) {
        Ok(version) => {
            if is_version(alloc, &version)? {
                Ok(version)
            } else {
                Err(Stop::Bad)
            }
        }
        Err(stop) => Err(stop),
    }
}

/// What was written as a version, whatever it says.
fn take_version(alloc: Global, bytes: &[u8]) -> Result<Version, Stop>
    ensures held { IfOk result (λ v. IsHeldVersion v) }
    ensures bytes { IfOk result (λ v. bytes.now ≡ version_bytes v) }
    ensures none { IfErr result (BadMeans (NoHeld bytes.now)) }
{
    let (next_file, numbered) = take_file(bytes)?;
    let (next_number, listed) = take_number(numbered)?;
    let (segments, counted) = take_files(alloc, listed)?;
    let (count, rest) = take_number(counted)?;
    match take_families(alloc, count, rest) {
        Ok((families, behind)) => {
            if behind.is_empty() {
                Ok(Version {
                    next_file,
                    next_number,
                    segments,
                    families,
                })
            } else {
                Err(Stop::Bad)
            }
        }
        Err(stop) => Err(stop),
    }
}

/// So many families, and what follows them.
fn take_families(alloc: Global, count: u64, bytes: &[u8]) -> Result<(FamilyList, &[u8]), Stop>
    ensures families { IfOk result (λ p. (length p.0 ≡ count) × AllByRecursion IsHeldFamily p.0
        × (bytes.now ≡ flat_map family_bytes p.0 ++ p.1.now)) }
    ensures none { IfErr result (BadMeans (NoFamilies count bytes.now)) }
{
    let mut families = FamilyList::new(alloc);
    let mut rest = bytes;
    for _done in 0..count {
        match take_family(alloc, rest) {
            Ok((family, behind)) => {
                families.push(family)?;
                rest = behind;
            }
            Err(stop) => return Err(stop),
        }
    }
    Ok((families, rest))
}

/// A family, and what follows it.
fn take_family(alloc: Global, bytes: &[u8]) -> Result<(FamilyVersion, &[u8]), Stop>
    ensures family { IfOk result (λ p. IsHeldFamily p.0
        × (bytes.now ≡ family_bytes p.0 ++ p.1.now)) }
    ensures none { IfErr result (BadMeans (NoFamily bytes.now)) }
{
    let (family, numbered) = take_file(bytes)?;
    let (flushed, listed) = take_number(numbered)?;
    match take_files(alloc, listed) {
        Ok((files, rest)) => Ok((
            FamilyVersion {
                family,
                flushed,
                files,
            },
            rest,
        )),
        Err(stop) => Err(stop),
    }
}

/// Numbers of files behind their count, and what follows them.
fn take_files(alloc: Global, bytes: &[u8]) -> Result<(FileList, &[u8]), Stop>
    ensures files { IfOk result (λ p. IsShort p.0 × AllByRecursion IsFile p.0
        × (bytes.now ≡ files_bytes p.0 ++ p.1.now)) }
    ensures none { IfErr result (BadMeans (NoList bytes.now)) }
{
    let (count, rest) = take_number(bytes)?;
    take_so_many(alloc, count, rest)
}

/// So many numbers of files, and what follows them.
fn take_so_many(alloc: Global, count: u64, bytes: &[u8]) -> Result<(FileList, &[u8]), Stop>
    ensures files { IfOk result (λ p. (length p.0 ≡ count) × AllByRecursion IsFile p.0
        × (bytes.now ≡ flat_map file_bytes p.0 ++ p.1.now)) }
    ensures none { IfErr result (BadMeans (NoFiles count bytes.now)) }
{
    let mut files = FileList::new(alloc);
    let mut rest = bytes;
    for _done in 0..count {
        match take_file(rest) {
            Ok((file, behind)) => {
                files.push(file)?;
                rest = behind;
            }
            Err(stop) => return Err(stop),
        }
    }
    Ok((files, rest))
}

/// A number of four bytes, and what follows it.
fn take_file(bytes: &[u8]) -> Result<(u32, &[u8]), Stop>
    ensures file { IfOk result (λ p. IsFile p.0 × (bytes.now ≡ file_bytes p.0 ++ p.1.now)) }
    ensures none { IfErr result (BadMeans (NoFile bytes.now)) }
{
    match take_u32(bytes, 0) {
        Ok((number, end)) => {
            let (_, rest) = bytes.split_at(end);
            Ok((number, rest))
        }
        Err(_) => Err(Stop::Bad),
    }
}

/// A number, and what follows it.
fn take_number(bytes: &[u8]) -> Result<(u64, &[u8]), Stop>
    ensures number { IfOk result (λ p. (p.0 < 2 ^ 64)
        × (bytes.now ≡ to_be_bytes w64 p.0 ++ p.1.now)) }
    ensures none { IfErr result (BadMeans (NoNumber bytes.now)) }
{
    match take_u64(bytes, 0) {
        Ok((number, end)) => {
            let (_, rest) = bytes.split_at(end);
            Ok((number, rest))
        }
        Err(_) => Err(Stop::Bad),
    }
}
