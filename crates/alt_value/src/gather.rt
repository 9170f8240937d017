//! Members in any order, made the members of a set: sorted once, in place of put in one by one.

ghost use Rattle.std.specs.Prelude.{◌≡◌, Some, None, if◌then◌else◌};
ghost use Rattle.std.specs.FinMap.{IsAntisymmetric};
ghost use Rattle.std.specs.List.{IsAllAdjacentAnswer};
ghost use Rattle.std.specs.Ordering.{is_lt};
ghost use Rattle.alt_value.specs.Members.{set_of};

/// Brings the members into value order. True exactly where no two are equal.
pub(crate) fn gather<K: Ord>(members: &mut Vec<K>) -> bool
    requires { IsAntisymmetric K.cmp }
    ensures { set_of K.cmp members.old.items ≡ (if result then Some members.new.items else None) }
{
    members.sort_unstable();
    rise(members.as_slice())
}

/// Each is below the next.
fn rise<K: Ord>(members: &[K]) -> bool
    ensures { IsAllAdjacentAnswer (λ x y b. b ≡ is_lt (K.cmp x y)) members.now result }
{
    members.is_sorted_by(|a, b| a.cmp(b).is_lt())
}
