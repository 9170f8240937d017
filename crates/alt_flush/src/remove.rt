//! Files that a version doesn't name any more, removed.

ghost use Rattle.std.specs.Prelude.{◌≡◌, ℕ, None, OnOk, OnErr, IsTrue, ⊤};
ghost use Rattle.alt_base.specs.Counts.{Rose};
ghost use Rattle.alt_disk.specs.Disk.{IsTrusted, Goes};
ghost use Rattle.alt_disk.specs.Runs.{Spans};
ghost use Rattle.alt_manifest.specs.Rules.{Reflects};
ghost use Rattle.alt_manifest.specs.Versions.{IsIn, row_files};
ghost use Rattle.alt_layout.specs.Files.{IsOf};
ghost use Rattle.alt_flush.specs.Drafts.{IsLeftOver};

use alt_disk::{Disk, Failed};
use alt_manifest::{FamilyVersion, Version};

/// The file of the versions.
const VERSIONS: u32 = 1;

/// Removes those of the files that don't belong to the store of this version. Each file is looked for among all that it names.
pub fn remove_left_over<D: Disk>(
    disk: &mut D,
    files: &[u32],
    version: &Version,
) -> Result<(), Failed>
    ensures spans { IsTrusted (D.state disk.old) → Spans (D.state disk.old) (D.state disk.new)
        (IsLeftOver files.now version.now) (λ _ _. ⊤) }
    ensures gone { OnOk result (IsTrue (D.state disk.old).tells → (f : ℕ)
        → IsLeftOver files.now version.now f → (D.state disk.new).file f ≡ None) }
    ensures kept { IsTrue (D.state disk.old).tells → (f : ℕ) → IsOf version.now f
        → (D.state disk.new).file f ≡ (D.state disk.old).file f }
    ensures none { IsTrue (D.state disk.old).tells → (f : ℕ)
        → (D.state disk.old).file f ≡ None → (D.state disk.new).file f ≡ None }
    ensures goes { Goes (D.state disk.old) (D.state disk.new) }
    ensures cause { OnErr result (Rose (D.state disk.old).faults (D.state disk.new).faults) }
    ensures well { OnOk result ((D.state disk.new).faults ≡ (D.state disk.old).faults) }
{
    for file in files {
        remove_one(disk, *file, version)?;
    }
    Ok(())
}

/// Removes a file where it doesn't belong to the store of this version.
fn remove_one<D: Disk>(disk: &mut D, file: u32, version: &Version) -> Result<(), Failed>
    ensures spans { IsTrusted (D.state disk.old) → Spans (D.state disk.old) (D.state disk.new)
        (λ g. (g ≡ file) × (IsOf version.now g → ⊥)) (λ _ _. ⊤) }
    ensures gone { OnOk result (IsTrue (D.state disk.old).tells → (IsOf version.now file → ⊥)
        → (D.state disk.new).file file ≡ None) }
    ensures kept { IsTrue (D.state disk.old).tells → (g : ℕ) → IsOf version.now g
        → (D.state disk.new).file g ≡ (D.state disk.old).file g }
    ensures none { IsTrue (D.state disk.old).tells → (g : ℕ)
        → (D.state disk.old).file g ≡ None → (D.state disk.new).file g ≡ None }
    ensures goes { Goes (D.state disk.old) (D.state disk.new) }
    ensures cause { OnErr result (Rose (D.state disk.old).faults (D.state disk.new).faults) }
    ensures well { OnOk result ((D.state disk.new).faults ≡ (D.state disk.old).faults) }
{
    if is_of(version, file) {
        return Ok(());
    }
    disk.remove(file)
}

/// Whether the file belongs to the store of this version.
fn is_of(version: &Version, file: u32) -> bool
    ensures { Reflects result (IsOf version.now file) }
{
    if file == VERSIONS {
        return true;
    }
    if has(version.segments.as_slice(), file) {
        return true;
    }
    has_row_file(version.families.as_slice(), file)
}

fn has_row_file(families: &[FamilyVersion], file: u32) -> bool
    ensures { Reflects result (IsIn (row_files families.now) file) }
{
    for family in families {
        if has(family.files.as_slice(), file) {
            return true;
        }
    }
    false
}

/// Whether the number is among these.
pub fn has(numbers: &[u32], number: u32) -> bool
    ensures { Reflects result (IsIn numbers.now number) }
{
    for n in numbers {
        if *n == number {
            return true;
        }
    }
    false
}
