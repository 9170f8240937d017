//! Values gathered by their keys.

ghost use Rattle.std.specs.Prelude.{◌≡◌, [], map, filter, IfOk};
ghost use Rattle.std.specs.Option.{option_map_or};
ghost use Rattle.std.specs.Ordering.{eq_by_cmp};
ghost use Rattle.std.specs.BTreeMap.{get, IsOrdered};
ghost use Rattle.std.specs.List.Sorted.{IsStrictlySortedBy};
ghost use Rattle.std.specs.Map.{lookup, keys_of};

use alt_base::NoMemory;
use std::alloc::Global;
use std::collections::BTreeMap;

/// For each key, the values that come with it, in their order.
pub fn gathered<K: Ord + Drop, T: Drop>(
    alloc: Global,
    pairs: Vec<(K, T)>,
) -> Result<BTreeMap<K, Vec<T>>, NoMemory>
    ensures ordered { IfOk result (λ m. IsOrdered K.cmp m) }
    ensures groups { IfOk result (λ m. (q : K) → option_map_or (λ g. g.items) (get K.cmp m q) []
        ≡ map (λ p. p.1) (filter (λ p. eq_by_cmp K.cmp p.0 q) pairs.items)) }
{
    let mut groups: BTreeMap<K, Vec<T>> = BTreeMap::new(alloc);
    for (key, value) in pairs {
        let mut group = match groups.remove(&key) {
            Some(group) => group,
            None => Vec::new(alloc),
        };
        group.push(value)?;
        groups.insert(key, group)?;
    }
    Ok(groups)
}

/// The same, in the order of the keys.
pub fn groups<K: Ord + Drop, T: Drop>(
    alloc: Global,
    pairs: Vec<(K, T)>,
) -> Result<Vec<(K, Vec<T>)>, NoMemory>
    ensures rising { IfOk result (λ v. IsStrictlySortedBy K.cmp (keys_of v.items)) }
    ensures groups { IfOk result (λ v. (q : K)
        → option_map_or (λ g. g.items) (lookup (eq_by_cmp K.cmp q) v.items) []
        ≡ map (λ p. p.1) (filter (λ p. eq_by_cmp K.cmp p.0 q) pairs.items)) }
{
    let by_key = gathered(alloc, pairs)?;
    let groups = by_key.into_iter().collect(alloc)?;
    Ok(groups)
}
