//! All of a row file before its digest: what a writer makes of its rows, and nothing else. It is read piece by piece, and the index is
//! never taken from the file: it is made of the blocks, and compared.

ghost use Rattle.std.specs.Prelude.{◌≡◌, ◌≢◌, true, false, ◌<◌, ◌≤◌, ◌-◌, ℕ, List, length, take, drop, IfOk, IfSome, IfNone, OnErr, IsErrOf, IsTrue, is_ok};
ghost use Rattle.std.specs.Int.{w64, to_be_bytes};
ghost use Rattle.alt_base.specs.Counts.{Rose};
ghost use Rattle.alt_disk.specs.Disk.{Goes, contents};
ghost use Rattle.alt_disk.specs.Runs.{Quiet};
ghost use Rattle.alt_rowblocks.specs.Format.{Entry, front, row_file_header, marks_from, rows_of, tail_bytes};
ghost use Rattle.alt_rowblocks.specs.Blocks.{IsBody};
ghost use Rattle.alt_rowblocks.specs.Filtering.{AreFilters};
ghost use Rattle.alt_rowblocks.specs.Summaries.{summary_of};

use crate::blocks::{Found, read_blocks};
use crate::pieces::{bytes_at, fill, number_of};
use crate::tail::tail_of;
use alt_disk::{Disk, DiskFault, Failed};
use std::alloc::Global;

/// What was found of the blocks, and the place of the index, where the first `size` bytes of the file are a body; none
/// where no writer makes them. `Failed` where the disk fails, with its count of faults risen; `NoMemory` where memory is refused.
pub fn body_of<D: Disk>(
    alloc: Global,
    disk: &mut D,
    f: u32,
    size: u64,
) -> Result<Option<(Found, u64)>, DiskFault>
    ensures some { IsTrue (D.state disk.old).tells → size ≤ length (contents (D.state disk.old) f)
        → IfOk result (λ o. IfSome o (λ p. (blocks : List (List Entry))
        × IsBody blocks (take size (contents (D.state disk.old) f))
        × (p.0.marks.items ≡ marks_from 8 blocks) × (p.1 ≡ length (front blocks))
        × (p.0.summary ≡ summary_of (rows_of blocks)) × AreFilters p.0.filters.items blocks)) }
    ensures none { IsTrue (D.state disk.old).tells → size ≤ length (contents (D.state disk.old) f)
        → IfOk result (λ o. IfNone o ((blocks : List (List Entry))
        → IsBody blocks (take size (contents (D.state disk.old) f)) → ⊥)) }
    ensures quiet { IsTrue (D.state disk.old).tells
        → Quiet (D.state disk.old) (D.state disk.new) }
    ensures goes { Goes (D.state disk.old) (D.state disk.new) }
    ensures cause { IsErrOf result DiskFault.Failed
        → Rose (D.state disk.old).faults (D.state disk.new).faults }
    ensures well { (IsErrOf result DiskFault.Failed → ⊥)
        → (D.state disk.new).faults ≡ (D.state disk.old).faults }
{
    match index_place(disk, f, size)? {
        Some(end) => match read_blocks(alloc, disk, f, end)? {
            Some(found) => {
                if is_tail(alloc, disk, f, end, size, &found)? {
                    Ok(Some((found, end)))
                } else {
                    Ok(None)
                }
            }
            None => Ok(None),
        },
        None => Ok(None),
    }
}

// Whether the index of these blocks stands from a place on up to another.
fn is_tail<D: Disk>(
    alloc: Global,
    disk: &mut D,
    f: u32,
    at: u64,
    end: u64,
    found: &Found,
) -> Result<bool, DiskFault>
    requires { at ≤ end }
    ensures yes { IsTrue (D.state disk.old).tells → end ≤ length (contents (D.state disk.old) f)
        → IfOk result (λ b. b ≡ true → tail_bytes found.now.marks.items found.now.rows at
        ≡ drop at (take end (contents (D.state disk.old) f))) }
    ensures no { IsTrue (D.state disk.old).tells → end ≤ length (contents (D.state disk.old) f)
        → IfOk result (λ b. b ≡ false → tail_bytes found.now.marks.items found.now.rows at
        ≢ drop at (take end (contents (D.state disk.old) f))) }
    ensures quiet { IsTrue (D.state disk.old).tells
        → Quiet (D.state disk.old) (D.state disk.new) }
    ensures goes { Goes (D.state disk.old) (D.state disk.new) }
    ensures cause { IsErrOf result DiskFault.Failed
        → Rose (D.state disk.old).faults (D.state disk.new).faults }
    ensures well { (IsErrOf result DiskFault.Failed → ⊥)
        → (D.state disk.new).faults ≡ (D.state disk.old).faults }
{
    match tail_of(alloc, &found.marks, found.rows, at) {
        Ok(made) => stands_at(alloc, disk, f, at, end, &made),
        Err(_) => Err(DiskFault::NoMemory),
    }
}

// The place of the index, which the last eight bytes tell, behind a header.
fn index_place<D: Disk>(disk: &mut D, f: u32, size: u64) -> Result<Option<u64>, Failed>
    ensures some { IsTrue (D.state disk.old).tells → size ≤ length (contents (D.state disk.old) f)
        → IfOk result (λ o. IfSome o (λ p.
        (take 8 (take size (contents (D.state disk.old) f)) ≡ row_file_header)
        × (drop (size - 8) (take size (contents (D.state disk.old) f)) ≡ to_be_bytes w64 p))) }
    ensures bounds { IfOk result (λ o. IfSome o (λ p. (8 ≤ p) × (p ≤ size))) }
    ensures none { IsTrue (D.state disk.old).tells → size ≤ length (contents (D.state disk.old) f)
        → IfOk result (λ o. IfNone o ((blocks : List (List Entry))
        → IsBody blocks (take size (contents (D.state disk.old) f)) → ⊥)) }
    ensures quiet { IsTrue (D.state disk.old).tells
        → Quiet (D.state disk.old) (D.state disk.new) }
    ensures goes { Goes (D.state disk.old) (D.state disk.new) }
    ensures cause { OnErr result (Rose (D.state disk.old).faults (D.state disk.new).faults) }
    ensures well { is_ok result ≡ true
        → (D.state disk.new).faults ≡ (D.state disk.old).faults }
{
    if size < 32 {
        return Ok(None);
    }
    let mut head = [0u8; 8];
    if !fill(disk, f, 0, &mut head)? {
        return Ok(None);
    }
    let mut last = [0u8; 8];
    if !fill(disk, f, size - 8, &mut last)? {
        return Ok(None);
    }
    Ok(place_in(&head, &last, size))
}

// The place that the last eight bytes tell, where it can be one and the first eight are the header.
fn place_in(head: &[u8], last: &[u8], size: u64) -> Option<u64>
    requires { length last.now ≡ 8 }
    ensures some { IfSome result (λ p. (head.now ≡ row_file_header) × (last.now ≡ to_be_bytes w64 p)) }
    ensures bounds { IfSome result (λ p. (8 ≤ p) × (p ≤ size)) }
    ensures none { IfNone result ((bytes : List ℕ) → size ≡ length bytes
        → head.now ≡ take 8 bytes → last.now ≡ drop (size - 8) bytes
        → (blocks : List (List Entry)) → IsBody blocks bytes → ⊥) }
{
    if !is_header(head) {
        return None;
    }
    let place = number_of(last);
    if place < 8 {
        return None;
    }
    if place > size {
        return None;
    }
    Some(place)
}

// Whether these bytes stand from a place on up to another.
fn stands_at<D: Disk>(
    alloc: Global,
    disk: &mut D,
    f: u32,
    at: u64,
    end: u64,
    made: &[u8],
) -> Result<bool, DiskFault>
    requires { at ≤ end }
    ensures yes { IsTrue (D.state disk.old).tells → end ≤ length (contents (D.state disk.old) f)
        → IfOk result (λ b. b ≡ true
        → made.now ≡ drop at (take end (contents (D.state disk.old) f))) }
    ensures no { IsTrue (D.state disk.old).tells → end ≤ length (contents (D.state disk.old) f)
        → IfOk result (λ b. b ≡ false
        → made.now ≢ drop at (take end (contents (D.state disk.old) f))) }
    ensures quiet { IsTrue (D.state disk.old).tells
        → Quiet (D.state disk.old) (D.state disk.new) }
    ensures goes { Goes (D.state disk.old) (D.state disk.new) }
    ensures cause { IsErrOf result DiskFault.Failed
        → Rose (D.state disk.old).faults (D.state disk.new).faults }
    ensures well { (IsErrOf result DiskFault.Failed → ⊥)
        → (D.state disk.new).faults ≡ (D.state disk.old).faults }
{
    if made.len() as u64 != end - at {
        return Ok(false);
    }
    match bytes_at(alloc, disk, f, at, made.len())? {
        Some(there) => Ok(is_same(made, &there)),
        None => Ok(false),
    }
}

/// Whether two byte strings are the same.
pub fn is_same(left: &[u8], right: &[u8]) -> bool
    ensures yes { result ≡ true → left.now ≡ right.now }
    ensures no { result ≡ false → left.now ≢ right.now }
{
    left == right
}

// Whether these bytes are the header of a row file.
fn is_header(head: &[u8]) -> bool
    ensures yes { result ≡ true → head.now ≡ row_file_header }
    ensures no { result ≡ false → head.now ≢ row_file_header }
{
    head == b"ALTROW01".as_slice()
}
