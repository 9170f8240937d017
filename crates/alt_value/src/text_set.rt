//! Sets of texts.

ghost use Rattle.std.specs.Prelude.{◌≡◌, not, slice_get, option_map, IfOk, OnOk, OnErr};
ghost use Rattle.alt_value.specs.Members.{has_member, with_member, text_order};

use crate::Text;
use crate::set::{Member, Set};
use alt_base::NoMemory;

/// A set of texts, in value order (DynamoDB API Reference, "AttributeValue", SS).
pub type TextSet = Set<Text>;

impl Member for Text {
    ghost use Rattle.alt_value.specs.Values.{IsText};
    ghost use Rattle.std.specs.FinMap.{slice_cmp-IsAntisymmetric, nat_cmp-IsAntisymmetric};

    ghost IsMember = { IsText };

    fn member_held(&self) {
        let _count = self.len();
    }

    fn copy_member(&self) -> Result<Text, NoMemory> {
        self.copy()
    }

    ghost apart = { slice_cmp-IsAntisymmetric nat_cmp-IsAntisymmetric };
}

impl Set<Text> {
    /// The member at that place in value order, None exactly past the last.
    pub fn get(&self, i: usize) -> Option<&str>
        ensures member { option_map (λ m. m.now) result ≡ slice_get self.now i }
    {
        match self.as_slice().get(i) {
            Some(member) => Some(member.as_str()),
            None => None,
        }
    }

    /// Whether that text is a member.
    pub fn contains(&self, m: &str) -> bool
        ensures has { result ≡ has_member text_order m.now self.now }
    {
        self.as_slice()
            .binary_search_by(|member| member.as_str().cmp(m))
            .is_ok()
    }

    /// Puts a member in at its place. False exactly where it was there, and then the set stays.
    pub fn add(&mut self, m: &str) -> Result<bool, NoMemory>
        ensures fresh { IfOk result (λ fresh. fresh ≡ not (has_member text_order m.now self.old)) }
        ensures ok { OnOk result (self.new ≡ with_member text_order m.now self.old) }
        ensures err { OnErr result (self.new ≡ self.old) }
    {
        let member = Text::new(self.alloc(), m)?;
        self.put(member)
    }
}
