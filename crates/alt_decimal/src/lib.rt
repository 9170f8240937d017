//! Exact decimal numbers of 38 digits: their texts, their order, their sums and their spelling in bytes.
#![tactic(auto)]

mod digits;
mod fault;
mod order;
mod print;
mod read;
mod spell;
mod sum;
mod whole;

ghost use Rattle.std.specs.Prelude.{◌≡◌, nat_abs, ◌≤◌};
ghost use Rattle.alt_decimal.specs.Number.{FitsDecimal};
ghost use Rattle.alt_decimal.specs.Digits.{digit_count};

pub use fault::NumberFault;
pub use spell::spelling_order;
use std::marker::Model;

/// A number of at most 38 digits: zero, or of a magnitude from 1E-130 to 9.9999999999999999999999999999999999999E+125.
///
/// Contracts see it as one whole number, that of its units of 10^-167. No call takes memory.
#[derive(Clone, Copy, Debug)]
pub struct Decimal {
    negative: bool,
    coefficient: u128,
    zeros: u32,
}

impl Model for Decimal {
    ghost use Rattle.std.specs.Prelude.{ℤ};
    ghost use Rattle.std.specs.Coded.{coded_ℤ};

    ghost Value = { ℤ };

    ghost coded = { coded_ℤ };

    ghost use Rattle.alt_decimal.specs.Form.{units_of, IsNormal, decimal_fields};
    ghost use Rattle.alt_decimal.specs.Normal.{fields_of-units_of};

    ghost view = { units_of };

    ghost invariant = { IsNormal };

    ghost inverse = { decimal_fields };

    ghost inverse_ok = { fields_of-units_of };
}

impl Decimal {
    /// How many digits the number has between its leading and trailing zeros, 1 for zero.
    pub fn digits(&self) -> u32
        ensures count { result ≡ digit_count (nat_abs self.now) }
        ensures few { result ≤ 38 }
        // What is true of each `Decimal`.
        ensures fits { FitsDecimal self.now }
    {
        if self.coefficient == 0 {
            1
        } else {
            digits::width(self.coefficient)
        }
    }

    /// What is true of each `Decimal`. The call does nothing: a caller makes it where a proof needs the fact.
    pub fn held(&self)
        ensures fits { FitsDecimal self.now }
    {
        let _coefficient = self.coefficient;
    }
}
