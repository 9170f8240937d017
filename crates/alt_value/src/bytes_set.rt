//! Sets of byte strings.

ghost use Rattle.std.specs.Prelude.{◌≡◌, not, slice_get, option_map, IfOk, OnOk, OnErr};
ghost use Rattle.alt_value.specs.Members.{has_member, with_member, text_order};

use crate::set::{Member, Set};
use alt_base::NoMemory;
use alt_fields::Bytes;

/// A set of byte strings, in value order (DynamoDB API Reference, "AttributeValue", BS).
pub type BytesSet = Set<Bytes>;

impl Member for Bytes {
    ghost use Rattle.alt_fields.specs.Bytes.{IsBytes};
    ghost use Rattle.std.specs.FinMap.{slice_cmp-IsAntisymmetric, nat_cmp-IsAntisymmetric};

    ghost IsMember = { IsBytes };

    fn member_held(&self) {
        let _count = self.len();
    }

    fn copy_member(&self) -> Result<Bytes, NoMemory> {
        self.copy()
    }

    ghost apart = { slice_cmp-IsAntisymmetric nat_cmp-IsAntisymmetric };
}

impl Set<Bytes> {
    /// The member at that place in value order, None exactly past the last.
    pub fn get(&self, i: usize) -> Option<&[u8]>
        ensures member { option_map (λ m. m.now) result ≡ slice_get self.now i }
    {
        match self.as_slice().get(i) {
            Some(member) => Some(member.as_slice()),
            None => None,
        }
    }

    /// Puts a member in at its place. False exactly where it was there, and then the set stays.
    pub fn add(&mut self, m: &[u8]) -> Result<bool, NoMemory>
        ensures fresh { IfOk result (λ fresh. fresh ≡ not (has_member text_order m.now self.old)) }
        ensures ok { OnOk result (self.new ≡ with_member text_order m.now self.old) }
        ensures err { OnErr result (self.new ≡ self.old) }
    {
        let member = Bytes::new(self.alloc(), m)?;
        self.put(member)
    }
}
