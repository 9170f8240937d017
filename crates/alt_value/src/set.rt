//! Sets: members in value order, without repeats.

ghost use Rattle.std.specs.Prelude.{◌≡◌, [], ◌++◌, length, not, IfOk, OnOk, OnErr};
ghost use Rattle.std.specs.List.{AllByRecursion};
ghost use Rattle.std.specs.FinMap.{IsAntisymmetric};
ghost use Rattle.alt_value.specs.Members.{IsSet, has_member, with_member, with_members, without_members, set_of};
ghost use Rattle.alt_value.specs.Values.{AreMembers};

use crate::gather::gather;
use crate::merge::{merged, parted};
use alt_base::NoMemory;
use std::alloc::Global;
use std::marker::Model;

/// What a set has as members: they have an order in which ties are equal, and can be copied.
pub trait Member: Ord + Drop {
    ghost IsMember: { Self → Type 0 };

    /// What is true of each member. The call does nothing: a caller makes it where a proof needs the fact.
    fn member_held(&self)
        ensures { IsMember self.now };

    /// A copy of the member.
    fn copy_member(&self) -> Result<Self, NoMemory>
        ensures { IfOk result (λ m. m ≡ self.now) };

    ghost apart: { IsAntisymmetric Self.cmp };
}

/// A set, in value order. Contracts see the list of its members, which rise.
#[derive(Drop)]
pub struct Set<K: Member> {
    members: Vec<K>,
}

impl<K: Member> Model for Set<K> {
    ghost use Rattle.std.specs.Prelude.{List};
    ghost use Rattle.alt_value.specs.Values.{AreMembers};

    ghost Value = { List K };

    ghost view = { λ s. s.members.items };

    ghost invariant = { λ s. AreMembers K.IsMember K.cmp s.members.items };
}

impl<K: Member> Set<K> {
    /// The empty set.
    pub fn new(alloc: Global) -> Self
        ensures empty { result ≡ [] }
    {
        Set {
            members: Vec::new(alloc),
        }
    }

    /// The set of those members, which come in any order. None exactly where two of them are equal. It sorts once, where `add`
    /// makes room for each.
    pub fn from_members(members: Vec<K>) -> Option<Set<K>>
        ensures set { result ≡ set_of K.cmp members.items }
    {
        let mut members = members;
        let risen = gather(&mut members);
        each_held(members.as_slice());
        if risen { Some(Set { members }) } else { None }
    }

    /// How many members there are.
    pub fn len(&self) -> usize
        ensures count { result ≡ length self.now }
        // What is true of each set.
        ensures rising { IsSet K.cmp self.now }
        ensures members { AreMembers K.IsMember K.cmp self.now }
    {
        self.members.len()
    }

    /// Where the set's memory comes from.
    pub(crate) fn alloc(&self) -> Global {
        *self.members.allocator()
    }

    pub(crate) fn as_slice(&self) -> &[K]
        ensures same { result.now ≡ self.now }
        ensures members { AreMembers K.IsMember K.cmp self.now }
    {
        self.members.as_slice()
    }

    /// Whether that is a member.
    pub fn has(&self, m: &K) -> bool
        ensures has { result ≡ has_member K.cmp m.now self.now }
    {
        self.members.binary_search(m).is_ok()
    }

    /// Puts a member in at its place. False exactly where it was there, and then the set stays.
    pub(crate) fn put(&mut self, m: K) -> Result<bool, NoMemory>
        ensures fresh { IfOk result (λ fresh. fresh ≡ not (has_member K.cmp m self.old)) }
        ensures ok { OnOk result (self.new ≡ with_member K.cmp m self.old) }
        ensures err { OnErr result (self.new ≡ self.old) }
    {
        m.member_held();
        match self.members.binary_search(&m) {
            Ok(_) => Ok(false),
            Err(place) => {
                self.members.insert(place, m)?;
                let _count = self.members.len();
                Ok(true)
            }
        }
    }

    /// The members of both sets, by one walk through both.
    pub fn union(&self, other: &Set<K>) -> Result<Set<K>, NoMemory>
        ensures union { IfOk result (λ s. s ≡ with_members K.cmp other.now self.now) }
    {
        let members = merged(*self.members.allocator(), other.as_slice(), self.as_slice())?;
        let _count = members.len();
        Ok(Set { members })
    }

    /// The members that the other set doesn't have, by one walk through both.
    pub fn without(&self, other: &Set<K>) -> Result<Set<K>, NoMemory>
        ensures rest { IfOk result (λ s. s ≡ without_members K.cmp other.now self.now) }
    {
        let members = parted(*self.members.allocator(), other.as_slice(), self.as_slice())?;
        let _count = members.len();
        Ok(Set { members })
    }

    /// A copy of the set.
    pub fn copy(&self) -> Result<Set<K>, NoMemory>
        ensures same { IfOk result (λ s. s ≡ self.now) }
    {
        let mut members = Vec::with_capacity(*self.members.allocator(), self.members.len())?;
        put_copies(&mut members, self.members.as_slice())?;
        Ok(Set { members })
    }
}

/// What is true of each of them.
fn each_held<K: Member>(members: &[K])
    ensures { AllByRecursion K.IsMember members.now }
{
    for member in members {
        member.member_held();
    }
}

/// Appends copies of members.
pub(crate) fn put_copies<K: Member>(out: &mut Vec<K>, members: &[K]) -> Result<(), NoMemory>
    ensures { OnOk result (out.new.items ≡ out.old.items ++ members.now) }
{
    for member in members {
        out.push(member.copy_member()?)?;
    }
    Ok(())
}
