//! The blocks of a row file, read one behind another: what a writer would have made of their rows, and nothing else.

ghost use Rattle.std.specs.Prelude.{◌≡◌, ◌<◌, ◌≤◌, ◌+◌, ◌^◌, ◌++◌, ℕ, List, true, Some, Option, length, take, drop, IfOk, IfSome, IfNone, OnErr, IsErrOf, IsTrue, is_ok, ◌↔◌};
ghost use Rattle.std.specs.Int.{w64, to_be_bytes};
ghost use Rattle.alt_base.specs.Counts.{Rose};
ghost use Rattle.alt_fields.specs.Field.{field};
ghost use Rattle.alt_disk.specs.Disk.{Goes, contents};
ghost use Rattle.alt_disk.specs.Runs.{Quiet};
ghost use Rattle.alt_rowblocks.specs.Format.{Entry};
ghost use Rattle.alt_rowblocks.specs.Blocks.{BeginsWithNextBlock, IsNextBlock, IsReadBlock, AreBlocksOf, IsFoundAs, IsAbove};

use crate::decode::decode;
use crate::filters::filter_of;
use crate::pieces::{bytes_at, fill, number_of};
use crate::summary::Summary;
use alt_base::NoMemory;
use alt_disk::{Disk, DiskFault, Failed};
use alt_fields::Bytes;
use alt_filter::Filter;
use std::alloc::Global;

/// What stands of a block in the index, its last key, how many rows it has, their summary, and the filter of their keys.
#[derive(Drop)]
pub(crate) struct BlockRead {
    pub(crate) first: Bytes,
    pub(crate) last: Bytes,
    pub(crate) rows: u64,
    pub(crate) summary: Summary,
    pub(crate) filter: Filter,
}

/// The places and first keys of blocks, how many rows they have, their summary, and a filter for each block.
#[derive(Drop)]
pub struct Found {
    pub marks: Vec<(u64, Bytes)>,
    pub rows: u64,
    pub summary: Summary,
    pub filters: Vec<Filter>,
}

/// The blocks of a file behind its header, up to a place; none where no writer makes them. It holds one of them at a time.
pub(crate) fn read_blocks<D: Disk>(
    alloc: Global,
    disk: &mut D,
    f: u32,
    end: u64,
) -> Result<Option<Found>, DiskFault>
    requires { 8 ≤ end }
    ensures some { IsTrue (D.state disk.old).tells → end ≤ length (contents (D.state disk.old) f)
        → IfOk result (λ o. IfSome o (λ found. (blocks : List (List Entry))
        × AreBlocksOf blocks (drop 8 (take end (contents (D.state disk.old) f)))
        × IsFoundAs found.marks.items found.rows found.summary found.filters.items blocks)) }
    ensures none { IsTrue (D.state disk.old).tells → end ≤ length (contents (D.state disk.old) f)
        → IfOk result (λ o. IfNone o ((blocks : List (List Entry))
        → AreBlocksOf blocks (drop 8 (take end (contents (D.state disk.old) f))) → ⊥)) }
    ensures quiet { IsTrue (D.state disk.old).tells
        → Quiet (D.state disk.old) (D.state disk.new) }
    ensures goes { Goes (D.state disk.old) (D.state disk.new) }
    ensures cause { IsErrOf result DiskFault.Failed
        → Rose (D.state disk.old).faults (D.state disk.new).faults }
    ensures well { (IsErrOf result DiskFault.Failed → ⊥)
        → (D.state disk.new).faults ≡ (D.state disk.old).faults }
{
    let mut marks = Vec::new(alloc);
    let mut rows: u64 = 0;
    let mut summary = Summary::new();
    let mut filters = Vec::new(alloc);
    let mut at: u64 = 8;
    let mut after: Option<Bytes> = None;
    'each: while at < end {
        match next_block(alloc, disk, f, at, end, &after)? {
            Some((read, next)) => {
                let BlockRead {
                    first,
                    last,
                    rows: count,
                    summary: more,
                    filter,
                } = read;
                marks.push((at, first))?;
                filters.push(filter)?;
                rows += count;
                summary.join(more);
                after = Some(last);
                at = next;
            }
            None => return Ok(None),
        }
    }
    Ok(Some(Found {
        marks,
        rows,
        summary,
        filters,
    }))
}

// The block at a place, and the place behind it.
fn next_block<D: Disk>(
    alloc: Global,
    disk: &mut D,
    f: u32,
    at: u64,
    end: u64,
    after: &Option<Bytes>,
) -> Result<Option<(BlockRead, u64)>, DiskFault>
    requires { at ≤ end }
    ensures some { IsTrue (D.state disk.old).tells → end ≤ length (contents (D.state disk.old) f)
        → IfOk result (λ o. IfSome o (λ p. (b : List Entry)
        × BeginsWithNextBlock after.now (drop at (take end (contents (D.state disk.old) f)))
        (drop p.1 (take end (contents (D.state disk.old) f))) b
        × IsReadBlock p.0.first p.0.last p.0.rows p.0.summary p.0.filter b)) }
    ensures none { IsTrue (D.state disk.old).tells → end ≤ length (contents (D.state disk.old) f)
        → IfOk result (λ o. IfNone o ((b : List Entry) (behind : List ℕ)
        → BeginsWithNextBlock after.now (drop at (take end (contents (D.state disk.old) f))) behind b → ⊥)) }
    ensures place { IfOk result (λ o. IfSome o (λ p. (at + 8 + p.0.rows ≤ p.1) × (p.1 ≤ end))) }
    ensures quiet { IsTrue (D.state disk.old).tells
        → Quiet (D.state disk.old) (D.state disk.new) }
    ensures goes { Goes (D.state disk.old) (D.state disk.new) }
    ensures cause { IsErrOf result DiskFault.Failed
        → Rose (D.state disk.old).faults (D.state disk.new).faults }
    ensures well { (IsErrOf result DiskFault.Failed → ⊥)
        → (D.state disk.new).faults ≡ (D.state disk.old).faults }
{
    match length_at(disk, f, at, end)? {
        Some(count) => match bytes_at(alloc, disk, f, at + 8, count as usize)? {
            Some(block) => {
                let next = at + 8 + count;
                match read_block(alloc, &block, after, next == end) {
                    Ok(Some(read)) => Ok(Some((read, next))),
                    Ok(None) => Ok(None),
                    Err(_) => Err(DiskFault::NoMemory),
                }
            }
            None => Ok(None),
        },
        None => Ok(None),
    }
}

// The length that stands at a place, where so many bytes stand behind it. It is tested before memory is taken for them.
fn length_at<D: Disk>(disk: &mut D, f: u32, at: u64, end: u64) -> Result<Option<u64>, Failed>
    requires { at ≤ end }
    ensures some { IsTrue (D.state disk.old).tells → end ≤ length (contents (D.state disk.old) f)
        → IfOk result (λ o. IfSome o (λ n.
        take 8 (drop at (contents (D.state disk.old) f)) ≡ to_be_bytes w64 n)) }
    ensures room { IfOk result (λ o. IfSome o (λ n. at + 8 + n ≤ end)) }
    ensures none { IsTrue (D.state disk.old).tells → end ≤ length (contents (D.state disk.old) f)
        → IfOk result (λ o. IfNone o ((s behind : List ℕ) → length s < 2 ^ 64
        → drop at (take end (contents (D.state disk.old) f)) ≡ field s ++ behind → ⊥)) }
    ensures quiet { IsTrue (D.state disk.old).tells
        → Quiet (D.state disk.old) (D.state disk.new) }
    ensures goes { Goes (D.state disk.old) (D.state disk.new) }
    ensures cause { OnErr result (Rose (D.state disk.old).faults (D.state disk.new).faults) }
    ensures well { is_ok result ≡ true
        → (D.state disk.new).faults ≡ (D.state disk.old).faults }
{
    if end - at < 8 {
        return Ok(None);
    }
    let mut head = [0u8; 8];
    if !fill(disk, f, at, &mut head)? {
        return Ok(None);
    }
    let count = number_of(&head);
    if count > end - at - 8 {
        return Ok(None);
    }
    Ok(Some(count))
}

/// The block of these rows, behind rows of which the last has this key; none where no writer makes it.
pub(crate) fn read_block(
    alloc: Global,
    bytes: &[u8],
    after: &Option<Bytes>,
    is_last: bool,
) -> Result<Option<BlockRead>, NoMemory>
    ensures some { IfOk result
        (λ o. IfSome o (λ r. (b : List Entry) × IsNextBlock after.now is_last bytes.now b
        × IsReadBlock r.first r.last r.rows r.summary r.filter b)) }
    ensures none { IfOk result
        (λ o. IfNone o ((b : List Entry) → IsNextBlock after.now is_last bytes.now b → ⊥)) }
{
    match decode(alloc, bytes)? {
        Some(decoded) => {
            if decoded.before >= 4096 {
                return Ok(None);
            }
            if !is_last && bytes.len() < 4096 {
                return Ok(None);
            }
            let rows = decoded.rows.len() as u64;
            let summary = Summary::of_rows(&decoded.rows)?;
            let filter = filter_of(&decoded.rows);
            match decoded.rows.first() {
                Some(first) => match decoded.rows.last() {
                    Some(last) => {
                        if !is_above(after, &first.0) {
                            return Ok(None);
                        }
                        let first = first.0.copy()?;
                        let last = last.0.copy()?;
                        Ok(Some(BlockRead {
                            first,
                            last,
                            rows,
                            summary,
                            filter,
                        }))
                    }
                    None => Ok(None),
                },
                None => Ok(None),
            }
        }
        None => Ok(None),
    }
}

fn is_above(after: &Option<Bytes>, key: &Bytes) -> bool
    ensures { IsTrue result ↔ IsAbove after.now key.now }
{
    match after {
        Some(last) => last.as_slice().cmp(key.as_slice()).is_lt(),
        None => true,
    }
}
