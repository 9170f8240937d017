//! Counts as numbers.

ghost use Rattle.std.specs.Prelude.{◌≡◌};
ghost use Rattle.alt_decimal.specs.Number.{units_in};

use crate::{Decimal, digits};

impl Decimal {
    /// The whole number n.
    pub fn from_count(n: u64) -> Decimal
        ensures units { result ≡ units_in n }
    {
        if n == 0 {
            return Decimal {
                negative: false,
                coefficient: 0,
                zeros: 0,
            };
        }
        let (coefficient, behind) = digits::stripped(n as u128);
        Decimal {
            negative: false,
            coefficient,
            zeros: behind + 167,
        }
    }
}
