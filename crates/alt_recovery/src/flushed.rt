//! Up to which write each family's row files hold its rows.

ghost use Rattle.std.specs.Prelude.{◌≡◌, ℕ, IfOk};
ghost use Rattle.alt_layout.specs.Families.{flushed_of};
ghost use Rattle.alt_recovery.specs.Flushed.{flushed_in};

use alt_base::NoMemory;
use alt_manifest::FamilyVersion;
use std::alloc::Global;
use std::collections::BTreeMap;

/// The flushed number of each family that is named.
pub fn flushed_numbers(
    alloc: Global,
    families: &[FamilyVersion],
) -> Result<BTreeMap<u32, u64>, NoMemory>
    ensures { IfOk result (λ numbers. (family : ℕ)
        → flushed_in numbers family ≡ flushed_of families.now family) }
{
    let mut numbers = BTreeMap::new(alloc);
    for i in 0..families.len() {
        // From the last one back, as the first one of a number counts.
        let family = &families[families.len() - 1 - i];
        numbers.insert(family.family, family.flushed)?;
    }
    Ok(numbers)
}
