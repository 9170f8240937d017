//! The order of numbers.

ghost use Rattle.std.specs.Prelude.{Some, ◌≡◌, ◌+◌, ◌*◌, ◌^◌, ◌<◌, ◌≤◌};
ghost use Rattle.std.proofs.Common.{rules};
ghost use Rattle.std.specs.Cmp.Rules.{comparing};
ghost use Rattle.std.specs.Ordering.{int_cmp, int_eq, nat_cmp};

use crate::{Decimal, digits};
use std::cmp::Ordering;

impl Decimal {
    /// The order of the two numbers, Equal exactly where they are one number.
    pub fn order(&self, other: &Decimal) -> Ordering
        ensures { result ≡ int_cmp self.now other.now }
    {
        match (self.negative, other.negative) {
            (false, true) => Ordering::Greater,
            (true, false) => Ordering::Less,
            (false, false) => {
                magnitude_order(self.coefficient, self.zeros, other.coefficient, other.zeros)
            }
            (true, true) => {
                magnitude_order(other.coefficient, other.zeros, self.coefficient, self.zeros)
            }
        }
    }
}

impl PartialEq for Decimal {
    ghost eq = { int_eq };

    ghost laws = { Prim.search (comparing, rules) };

    fn eq(&self, other: &Decimal) -> bool {
        self.order(other) == Ordering::Equal
    }
}

impl Eq for Decimal {
    ghost laws = { Prim.search rules };
}

impl PartialOrd for Decimal {
    ghost partial_cmp = { λ x y. Some (int_cmp x y) };

    ghost laws = { Prim.search (comparing, rules) };

    fn partial_cmp(&self, other: &Decimal) -> Option<Ordering> {
        Some(self.order(other))
    }
}

impl Ord for Decimal {
    ghost cmp = { int_cmp };

    ghost total = { Prim.search rules };

    ghost matches_partial_cmp = { Prim.search rules };

    ghost matches_eq = { Prim.search rules };

    fn cmp(&self, other: &Decimal) -> Ordering {
        self.order(other)
    }
}

// The order of a * 10^i and b * 10^j. Only where their first digits stand at one place are the digits compared.
fn magnitude_order(a: u128, i: u32, b: u128, j: u32) -> Ordering
    requires few_a { a < 10 ^ 38 }
    requires few_b { b < 10 ^ 38 }
    requires zeros_a { i ≤ 293 }
    requires zeros_b { j ≤ 293 }
    // zero has no zeros behind it
    requires zero_a { a ≡ 0 → i ≡ 0 }
    requires zero_b { b ≡ 0 → j ≡ 0 }
    ensures { result ≡ nat_cmp (a * 10 ^ i) (b * 10 ^ j) }
{
    let first_a = digits::width(a) + i;
    let first_b = digits::width(b) + j;
    if first_a < first_b {
        Ordering::Less
    } else if first_b < first_a {
        Ordering::Greater
    } else if j <= i {
        digits::filled(a, i - j).cmp(&b)
    } else {
        a.cmp(&digits::filled(b, j - i))
    }
}
