//! Families with many files.

ghost use Rattle.std.specs.Prelude.{◌≡◌, ℕ, false};
ghost use Rattle.alt_manifest.specs.Rules.{Reflects};
ghost use Rattle.alt_hand.specs.Merging.{AreMany, FindsMany, HasMany};

use crate::hand::Hand;

impl Hand {
    /// The first of these families whose files are so many that they are merged, None exactly where there is none.
    pub fn first_many(&self, live: &[u32]) -> Option<u32>
        ensures { FindsMany live.now self.now result }
    {
        for family in live {
            if self.has_many(*family) {
                return Some(*family);
            }
        }
        None
    }

    /// Whether any family has so many files.
    pub fn any_many(&self) -> bool
        ensures { result ≡ false → (family : ℕ) → HasMany self.now family → ⊥ }
    {
        for family in self.families.values() {
            if is_many(family.files.len(), self.limits.merge) {
                return true;
            }
        }
        false
    }

    /// Whether the family's files are so many.
    fn has_many(&self, family: u32) -> bool
        ensures { Reflects result (HasMany self.now family) }
    {
        is_many(self.files(family).len(), self.limits.merge)
    }
}

/// Whether so many files are merged, where that many are.
fn is_many(count: usize, merge: u32) -> bool
    ensures { Reflects result (AreMany merge count) }
{
    count != 0 && count as u64 >= merge as u64
}
