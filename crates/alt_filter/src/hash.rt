//! One hash of all bytes of a key: FNV-1a, and at its end its two halves mixed.

ghost use Rattle.std.specs.Prelude.{◌≡◌};
ghost use Rattle.alt_filter.specs.Filters.{fnv, key_hash};

/// The hash of a key.
#[tactic(auto, unfolding(crate::specs::Filters::key_hash))]
pub(crate) fn hash_of(key: &[u8]) -> u64
    ensures { result ≡ key_hash key.now }
{
    let hash = fnv(key);
    (hash ^ (hash >> 32)).wrapping_mul(0x9e37_79b9_7f4a_7c15)
}

fn fnv(key: &[u8]) -> u64
    ensures { result ≡ fnv key.now }
{
    let mut hash: u64 = 0xcbf2_9ce4_8422_2325;
    for byte in key {
        hash = (hash ^ (*byte as u64)).wrapping_mul(0x100_0000_01b3);
    }
    hash
}
