//! A text of its own, seen as the list of its bytes in UTF-8.

ghost use Rattle.std.specs.Prelude.{◌≡◌, length, IfOk, IfSome, IfNone};
ghost use Rattle.std.specs.Str.{IsUtf8};
ghost use Rattle.alt_value.specs.Values.{IsText};

use alt_base::NoMemory;
use alt_fields::Bytes;
use std::alloc::Global;
use std::cmp::Ordering;
use std::marker::Model;

/// A text that owns its bytes.
#[derive(Debug, Drop)]
pub struct Text {
    inner: String,
}

impl Model for Text {
    ghost use Rattle.std.specs.Prelude.{ℕ, List, string_bytes};

    ghost Value = { List ℕ };

    ghost view = { λ t. string_bytes t.inner };
}

impl Text {
    /// A copy of the text.
    pub fn new(alloc: Global, text: &str) -> Result<Text, NoMemory>
        ensures copied { IfOk result (λ t. t ≡ text.now) }
    {
        let inner = String::from_str(alloc, text)?;
        Ok(Text { inner })
    }

    /// The text with these bytes, which are moved and not copied; None where they are not UTF-8.
    pub fn from_bytes(bytes: Bytes) -> Option<Text>
        ensures same { IfSome result (λ t. t ≡ bytes) }
        ensures none { IfNone result (IsUtf8 bytes → ⊥) }
    {
        match String::from_utf8(bytes.into_vec()) {
            Ok(inner) => Some(Text { inner }),
            Err(_) => None,
        }
    }

    pub fn copy(&self) -> Result<Text, NoMemory>
        ensures same { IfOk result (λ t. t ≡ self.now) }
    {
        Text::new(*self.inner.allocator(), self.as_str())
    }

    pub fn as_str(&self) -> &str
        ensures same { result.now ≡ self.now }
    {
        self.inner.as_str()
    }

    /// How many bytes the text has.
    pub fn len(&self) -> usize
        ensures count { result ≡ length self.now }
        // What is true of each text.
        ensures text { IsText self.now }
    {
        let text = self.as_str();
        text.len()
    }
}

impl PartialEq for Text {
    ghost use Rattle.std.specs.Prelude.{nat_eq};
    ghost use Rattle.std.specs.Cmp.Lexicographic.{pointwise};
    ghost use Rattle.std.specs.Cmp.{partial_equiv_from_equiv};
    ghost use Rattle.std.specs.Cmp.Lexicographic.{nat_list_eq_equiv};

    ghost eq = { pointwise nat_eq };

    ghost laws = { partial_equiv_from_equiv nat_list_eq_equiv };

    fn eq(&self, other: &Text) -> bool {
        self.as_str() == other.as_str()
    }
}

impl Eq for Text {
    ghost use Rattle.std.specs.Cmp.Lexicographic.{nat_list_eq_equiv};

    ghost laws = { nat_list_eq_equiv };
}

impl PartialOrd for Text {
    ghost use Rattle.std.specs.Prelude.{Some};
    ghost use Rattle.std.specs.Ordering.{nat_cmp};
    ghost use Rattle.std.specs.Cmp.Lexicographic.{slice_cmp, texts_po};

    ghost partial_cmp = { λ x y. Some (slice_cmp nat_cmp x y) };

    ghost laws = { texts_po };

    fn partial_cmp(&self, other: &Text) -> Option<Ordering> {
        Some(self.cmp(other))
    }
}

impl Ord for Text {
    ghost use Rattle.std.specs.Prelude.{refl};
    ghost use Rattle.std.specs.Ordering.{nat_cmp};
    ghost use Rattle.std.specs.Cmp.Lexicographic.{slice_cmp, nat_list_cmp_total, texts_ties};

    ghost cmp = { slice_cmp nat_cmp };

    ghost total = { nat_list_cmp_total };

    ghost matches_partial_cmp = { λ x y. refl };

    ghost matches_eq = { λ x y. texts_ties x y };

    fn cmp(&self, other: &Text) -> Ordering {
        self.as_str().cmp(other.as_str())
    }
}
