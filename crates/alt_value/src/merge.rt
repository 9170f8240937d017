//! Two sets at one walk through both: what both have together, and what one has alone.

ghost use Rattle.std.specs.Prelude.{◌≡◌, IfOk};
ghost use Rattle.alt_value.specs.Members.{IsSet, with_members, without_members};

use crate::set::{Member, put_copies};
use alt_base::NoMemory;
use std::alloc::Global;
use std::cmp::Ordering;

/// The set with each of those members more, which rise too.
pub(crate) fn merged<K: Member>(alloc: Global, more: &[K], set: &[K]) -> Result<Vec<K>, NoMemory>
    requires { IsSet K.cmp more.now × IsSet K.cmp set.now }
    ensures { IfOk result (λ out. out.items ≡ with_members K.cmp more.now set.now) }
{
    let mut out = Vec::with_capacity(alloc, set.len())?;
    let mut i = 0;
    let mut j = 0;
    while i < more.len() && j < set.len() {
        match more[i].cmp(&set[j]) {
            Ordering::Less => {
                out.push(more[i].copy_member()?)?;
                i += 1;
            }
            Ordering::Equal => i += 1,
            Ordering::Greater => {
                out.push(set[j].copy_member()?)?;
                j += 1;
            }
        }
    }
    put_copies(&mut out, &more[i..])?;
    put_copies(&mut out, &set[j..])?;
    Ok(out)
}

/// The set without those of its members that are among these, which rise too.
pub(crate) fn parted<K: Member>(alloc: Global, taken: &[K], set: &[K]) -> Result<Vec<K>, NoMemory>
    requires { IsSet K.cmp taken.now × IsSet K.cmp set.now }
    ensures { IfOk result (λ out. out.items ≡ without_members K.cmp taken.now set.now) }
{
    let mut out = Vec::new(alloc);
    let mut i = 0;
    let mut j = 0;
    while i < taken.len() && j < set.len() {
        match taken[i].cmp(&set[j]) {
            Ordering::Less => i += 1,
            Ordering::Equal => j += 1,
            Ordering::Greater => {
                out.push(set[j].copy_member()?)?;
                j += 1;
            }
        }
    }
    put_copies(&mut out, &set[j..])?;
    Ok(out)
}
