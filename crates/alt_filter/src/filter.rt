//! A filter of keys: 256 bits, of which each key that was added has set three.

ghost use Rattle.std.specs.Prelude.{◌≡◌, length};

use crate::hash::hash_of;

/// 256 bits, and no key.
#[derive(Clone, Copy)]
pub struct Filter {
    pub(crate) bits: [u64; 4],
    ghost four: { length bits ≡ 4 },
}

impl Filter {
    ghost use Rattle.std.specs.Prelude.{◌≢◌, ◌↔◌, ℕ, List, IsTrue};
    ghost use Rattle.alt_filter.specs.Filters.{Holds, IsSet};

    /// Of no keys: no bit is set.
    pub fn new() -> Filter
        ensures { (place : ℕ) → IsSet result place → ⊥ }
    {
        Filter { bits: [0; 4] }
    }

    /// Takes a key in.
    #[tactic(auto, unfolding(crate::specs::Filters::Holds, crate::specs::Filters::places))]
    pub fn add(&mut self, key: &[u8])
        ensures added { Holds self.new key.now }
        ensures kept { (before : List ℕ) → Holds self.old before → Holds self.new before }
    {
        let [first, second, third, _, _, _, _, _] = hash_of(key).to_be_bytes();
        self.set(first);
        self.set(second);
        self.set(third);
    }

    /// Whether all bits of a key are set: false for none that was added.
    #[tactic(auto, unfolding(crate::specs::Filters::Holds, crate::specs::Filters::places))]
    pub fn may_have(&self, key: &[u8]) -> bool
        ensures { IsTrue result ↔ Holds self.now key.now }
    {
        let [first, second, third, _, _, _, _, _] = hash_of(key).to_be_bytes();
        self.is_set(first) && self.is_set(second) && self.is_set(third)
    }

    fn set(&mut self, place: u8)
        ensures same { IsSet self.new place }
        ensures other { (other : ℕ) → other ≢ place
            → (IsSet self.new other ↔ IsSet self.old other) }
    {
        self.bits[(place / 64) as usize] |= 1 << (place % 64);
    }

    fn is_set(&self, place: u8) -> bool
        ensures { IsTrue result ↔ IsSet self.now place }
    {
        (self.bits[(place / 64) as usize] >> (place % 64)) & 1 == 1
    }
}
