//! Where a walk begins: in the block at which a key is.

ghost use Rattle.std.specs.Prelude.{◌≡◌, ◌≤◌, ◌+◌, List, Some, IfOk, IfErr, IsErrOf, IsTrue};
ghost use Rattle.std.specs.Option.{option_copied};
ghost use Rattle.alt_base.specs.Counts.{Rose};
ghost use Rattle.alt_disk.specs.Disk.{Goes};
ghost use Rattle.alt_disk.specs.Runs.{Quiet};
ghost use Rattle.alt_cells.specs.Walks.{IsDamaged};
ghost use Rattle.alt_rowblocks.specs.Format.{Entry};
ghost use Rattle.alt_rowfile.specs.Damage.{IsDamageIn};
ghost use Rattle.alt_rowfile.specs.Given.{IsSought};
ghost use Rattle.alt_rowfile.specs.InHand.{ReadsRows};
ghost use Rattle.alt_rowfile.specs.Reading.{ReadsAtMostABlock};
ghost use Rattle.alt_rowfile.specs.Walking.{RowsAreLeft, list_from};

use crate::load::load;
use crate::rowfile::RowFile;
use alt_cells::SourceFault;
use alt_disk::Disk;
use alt_rowblocks::{Hand, blocks_up_to};

/// Where a walk in a direction begins: the blocks that are still to be read, as a walk counts them, and what is in hand. It reads one block
/// at most.
pub(crate) fn start<D: Disk>(
    file: &RowFile,
    disk: &mut D,
    from: Option<&[u8]>,
    forward: bool,
) -> Result<(usize, Hand), SourceFault>
    ensures left { IsTrue (D.state disk.old).tells
        → (rows : List Entry) → ReadsRows (D.state disk.old) file.now rows
        → IfOk result (λ p. RowsAreLeft (D.state disk.new) file.now forward p.0 p.1
        (list_from rows (option_copied from.entry) forward)) }
    ensures given { IfOk result (λ p. IsSought (D.state disk.old) (D.state disk.new) file.now
        (option_copied from.entry) forward p.0 p.1) }
    ensures undamaged { IsTrue (D.state disk.old).tells
        → (rows : List Entry) → ReadsRows (D.state disk.old) file.now rows
        → IfErr result (λ fault. IsDamaged fault → ⊥) }
    ensures damage { IfErr result (IsDamageIn (D.state disk.old) file.now) }
    ensures quiet { IsTrue (D.state disk.old).tells
        → Quiet (D.state disk.old) (D.state disk.new) }
    ensures goes { Goes (D.state disk.old) (D.state disk.new) }
    ensures cause { IsErrOf result SourceFault.Failed
        → Rose (D.state disk.old).faults (D.state disk.new).faults }
    ensures well { (IsErrOf result SourceFault.Failed → ⊥)
        → (D.state disk.new).faults ≡ (D.state disk.old).faults }
    ensures one_block { ReadsAtMostABlock (D.state disk.old) (D.state disk.new) file.now }
    ensures reads { (D.state disk.new).reads ≤ (D.state disk.old).reads + 1 }
{
    match from {
        Some(key) => start_at(file, disk, key, forward),
        None => {
            let hand = Hand::empty(file.alloc);
            if forward {
                Ok((0, hand))
            } else {
                Ok((file.marks.len(), hand))
            }
        }
    }
}

// The same from a key on.
fn start_at<D: Disk>(
    file: &RowFile,
    disk: &mut D,
    key: &[u8],
    forward: bool,
) -> Result<(usize, Hand), SourceFault>
    ensures left { IsTrue (D.state disk.old).tells
        → (rows : List Entry) → ReadsRows (D.state disk.old) file.now rows
        → IfOk result (λ p. RowsAreLeft (D.state disk.new) file.now forward p.0 p.1
        (list_from rows (Some key.now) forward)) }
    ensures given { IfOk result (λ p. IsSought (D.state disk.old) (D.state disk.new) file.now
        (Some key.now) forward p.0 p.1) }
    ensures undamaged { IsTrue (D.state disk.old).tells
        → (rows : List Entry) → ReadsRows (D.state disk.old) file.now rows
        → IfErr result (λ fault. IsDamaged fault → ⊥) }
    ensures damage { IfErr result (IsDamageIn (D.state disk.old) file.now) }
    ensures quiet { IsTrue (D.state disk.old).tells
        → Quiet (D.state disk.old) (D.state disk.new) }
    ensures goes { Goes (D.state disk.old) (D.state disk.new) }
    ensures cause { IsErrOf result SourceFault.Failed
        → Rose (D.state disk.old).faults (D.state disk.new).faults }
    ensures well { (IsErrOf result SourceFault.Failed → ⊥)
        → (D.state disk.new).faults ≡ (D.state disk.old).faults }
    ensures one_block { ReadsAtMostABlock (D.state disk.old) (D.state disk.new) file.now }
    ensures reads { (D.state disk.new).reads ≤ (D.state disk.old).reads + 1 }
{
    let count = blocks_up_to(&file.marks, key);
    if count == 0 {
        return Ok((0, Hand::empty(file.alloc)));
    }
    match load(file, disk, count - 1, Some(key), forward) {
        Ok(hand) => {
            if forward {
                Ok((count, hand))
            } else {
                Ok((count - 1, hand))
            }
        }
        Err(fault) => Err(fault),
    }
}
