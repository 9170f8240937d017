//! A byte string of its own, seen as the list of its bytes, in their lexicographic order.

ghost use Rattle.std.specs.Prelude.{◌≡◌, length as count, IfOk};
ghost use Rattle.alt_fields.specs.Bytes.{IsBytes};

use alt_base::NoMemory;
use std::alloc::Global;
use std::cmp::Ordering;
use std::marker::Model;

/// Why bytes were not read: they are no spelling of what was to be read, and this is the first place
/// where they can't go on as one; or memory was wanting.
#[derive(Clone, Copy, Debug, PartialEq, Eq)]
pub enum BytesFault {
    Bad { at: usize },
    NoMemory,
}

/// A byte string that owns its bytes.
#[derive(Debug, Drop)]
pub struct Bytes {
    items: Vec<u8>,
}

impl Model for Bytes {
    ghost use Rattle.std.specs.Prelude.{ℕ, List};

    ghost Value = { List ℕ };

    ghost view = { λ b. b.items.items };
}

impl Bytes {
    /// A copy of the bytes.
    pub fn new(alloc: Global, bytes: &[u8]) -> Result<Bytes, NoMemory>
        ensures copied { IfOk result (λ b. b ≡ bytes.now) }
    {
        let items = Vec::from_slice(alloc, bytes)?;
        Ok(Bytes { items })
    }

    /// The bytes of a vector, which is moved and not copied.
    pub fn from_vec(items: Vec<u8>) -> Bytes
        ensures same { result ≡ items.items }
    {
        Bytes { items }
    }

    /// The vector of the bytes, which is moved and not copied.
    pub fn into_vec(self) -> Vec<u8>
        ensures same { result.items ≡ self }
    {
        let Bytes { items } = self;
        items
    }

    pub fn copy(&self) -> Result<Bytes, NoMemory>
        ensures same { IfOk result (λ b. b ≡ self.now) }
    {
        Bytes::new(*self.items.allocator(), self.as_slice())
    }

    pub fn as_slice(&self) -> &[u8]
        ensures same { result.now ≡ self.now }
    {
        self.items.as_slice()
    }

    /// How many bytes there are.
    pub fn len(&self) -> usize
        ensures count { result ≡ count self.now }
        // What is true of each byte string.
        ensures bytes { IsBytes self.now }
    {
        length(self.as_slice())
    }
}

fn length(bytes: &[u8]) -> usize
    ensures count { result ≡ count bytes.now }
    ensures bytes { IsBytes bytes.now }
{
    bytes.len()
}

impl PartialEq for Bytes {
    ghost use Rattle.std.specs.Prelude.{nat_eq};
    ghost use Rattle.std.specs.Cmp.Lexicographic.{pointwise};
    ghost use Rattle.std.specs.Cmp.{partial_equiv_from_equiv};
    ghost use Rattle.std.specs.Cmp.Lexicographic.{nat_list_eq_equiv};

    ghost eq = { pointwise nat_eq };

    ghost laws = { partial_equiv_from_equiv nat_list_eq_equiv };

    fn eq(&self, other: &Bytes) -> bool {
        self.as_slice() == other.as_slice()
    }
}

impl Eq for Bytes {
    ghost use Rattle.std.specs.Cmp.Lexicographic.{nat_list_eq_equiv};

    ghost laws = { nat_list_eq_equiv };
}

impl PartialOrd for Bytes {
    ghost use Rattle.std.specs.Prelude.{Some};
    ghost use Rattle.std.specs.Ordering.{nat_cmp};
    ghost use Rattle.std.specs.Cmp.Lexicographic.{slice_cmp, texts_po};

    ghost partial_cmp = { λ x y. Some (slice_cmp nat_cmp x y) };

    ghost laws = { texts_po };

    fn partial_cmp(&self, other: &Bytes) -> Option<Ordering> {
        Some(self.cmp(other))
    }
}

impl Ord for Bytes {
    ghost use Rattle.std.specs.Prelude.{refl};
    ghost use Rattle.std.specs.Ordering.{nat_cmp};
    ghost use Rattle.std.specs.Cmp.Lexicographic.{slice_cmp, nat_list_cmp_total, texts_ties};

    ghost cmp = { slice_cmp nat_cmp };

    ghost total = { nat_list_cmp_total };

    ghost matches_partial_cmp = { λ x y. refl };

    ghost matches_eq = { λ x y. texts_ties x y };

    fn cmp(&self, other: &Bytes) -> Ordering {
        self.as_slice().cmp(other.as_slice())
    }
}
