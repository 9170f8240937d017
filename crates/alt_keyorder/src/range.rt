//! Ranges of keys in the order of their bytes.

ghost use Rattle.std.specs.Prelude.{◌↔◌, List, ℕ, IfOk, IfSome, IsTrue, IsNone, MatchOption};
ghost use Rattle.alt_base.specs.Prefix.{IsPrefix};
ghost use Rattle.alt_keyorder.specs.Range.{IsByteString, IsBelow, IsBoundOf, AreHighestBytes, IsInRange, IsUpTo};

use alt_base::NoMemory;
use alt_fields::Bytes;
use std::alloc::Global;

/// The keys from one on and, where there is an end, below it.
#[derive(Debug, Drop)]
pub struct KeyRange {
    pub from: Bytes,
    pub to: Option<Bytes>,
}

impl KeyRange {
    /// Whether the key is in the range.
    pub fn holds(&self, key: &[u8]) -> bool
        ensures holds { IsTrue result ↔ IsInRange self.now.from self.now.to key.now }
    {
        if self.from.as_slice().cmp(key).is_gt() {
            return false;
        }
        match &self.to {
            Some(to) => key.cmp(to.as_slice()).is_lt(),
            None => true,
        }
    }
}

/// The least bytes above all that begin with the prefix, None exactly where all its bytes are 255.
pub fn after_all(alloc: Global, prefix: &[u8]) -> Result<Option<Bytes>, NoMemory>
    ensures none { IfOk result (λ r. IsNone r ↔ AreHighestBytes prefix.now) }
    // The keys under the prefix are those from the prefix on and, where there is a bound, below it.
    ensures keys { IfOk result (λ r. (k : List ℕ) → IsByteString k
        → IsPrefix prefix.now k ↔ IsInRange prefix.now r k) }
    ensures least { IfOk result (λ r. IfSome r (λ b. (c : List ℕ) → IsByteString c
        → ((k : List ℕ) → IsPrefix prefix.now k → IsBelow k c) → IsUpTo b c)) }
{
    match bound_of(prefix) {
        Some((front, last)) => {
            let mut bound = Vec::from_slice(alloc, front)?;
            bound.push(last + 1)?;
            Ok(Some(Bytes::from_vec(bound)))
        }
        None => Ok(None),
    }
}

/// The last byte below 255 and what stands before it.
fn bound_of(prefix: &[u8]) -> Option<(&[u8], u8)>
    ensures { MatchOption result (AreHighestBytes prefix.now) (λ p. IsBoundOf p.0.now p.1 prefix.now) }
{
    let mut front = prefix;
    while let Some((last, before)) = front.split_last() {
        if *last < 255 {
            return Some((before, *last));
        }
        front = before;
    }
    None
}
