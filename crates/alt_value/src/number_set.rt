//! Sets of numbers.

ghost use Rattle.std.specs.Prelude.{◌≡◌, not, slice_get, IfOk, OnOk, OnErr};
ghost use Rattle.std.specs.Ordering.{int_cmp};
ghost use Rattle.alt_value.specs.Members.{has_member, with_member};

use crate::set::{Member, Set};
use alt_base::NoMemory;
use alt_decimal::Decimal;

/// A set of numbers, in value order (DynamoDB API Reference, "AttributeValue", NS).
pub type NumberSet = Set<Decimal>;

impl Member for Decimal {
    ghost use Rattle.std.specs.FinMap.{int_cmp-IsAntisymmetric};
    ghost use Rattle.alt_decimal.specs.Number.{FitsDecimal};

    ghost IsMember = { FitsDecimal };

    fn member_held(&self) {
        self.held();
    }

    fn copy_member(&self) -> Result<Decimal, NoMemory> {
        Ok(*self)
    }

    ghost apart = { int_cmp-IsAntisymmetric };
}

impl Set<Decimal> {
    /// The member at that place in value order, None exactly past the last.
    pub fn get(&self, i: usize) -> Option<Decimal>
        ensures member { result ≡ slice_get self.now i }
    {
        self.as_slice().get(i).copied()
    }

    /// Puts a member in at its place. False exactly where it was there, and then the set stays.
    pub fn add(&mut self, m: &Decimal) -> Result<bool, NoMemory>
        ensures fresh { IfOk result (λ fresh. fresh ≡ not (has_member int_cmp m.now self.old)) }
        ensures ok { OnOk result (self.new ≡ with_member int_cmp m.now self.old) }
        ensures err { OnErr result (self.new ≡ self.old) }
    {
        self.put(*m)
    }
}
