//! A walk over the rows of a file, in either direction, with one block in hand, of which a row is decoded when it is given.

ghost use Rattle.std.specs.Prelude.{◌≡◌, ◌<◌, ◌≤◌, ◌+◌, ◌^◌, [], List, IfOk, IfErr, IfSome, IfNone, OnOk, IsErrOf, IsTrue};
ghost use Rattle.alt_base.specs.Counts.{Rose};
ghost use Rattle.alt_disk.specs.Disk.{Goes};
ghost use Rattle.alt_disk.specs.Runs.{Quiet};
ghost use Rattle.alt_cells.specs.Walks.{Gives, IsDamaged, RowList, answered_by};
ghost use Rattle.alt_rowfile.specs.Damage.{IsDamageIn};
ghost use Rattle.alt_rowblocks.specs.Format.{Entry};
ghost use Rattle.alt_rowblocks.specs.Taken.{HandGives};
ghost use Rattle.alt_rowfile.specs.Given.{GivesBeyondHand};
ghost use Rattle.alt_rowblocks.specs.Holding.{IsInHand};
ghost use Rattle.alt_rowfile.specs.InHand.{ReadsRows, block_count};
ghost use Rattle.alt_rowfile.specs.Reading.{ReadsAtMostABlock};
ghost use Rattle.alt_rowfile.specs.Walking.{IsEnd, IsNext, IsUnreadIn, LeftAs, place_behind_block, walk_file, walk_left};

use crate::load::{damaged, load, test};
use crate::rowfile::RowFile;
use crate::seek::start;
use alt_cells::{RowCells, RowSource, SourceFault};
use alt_disk::Disk;
use alt_fields::{Bytes, BytesFault};
use alt_rowblocks::Hand;

/// A walk. Forward, `next` is the first block that is still to be read; backward, it is how many blocks are.
#[derive(Drop)]
pub struct RowFileWalk<'a> {
    pub(crate) file: &'a RowFile,
    pub(crate) forward: bool,
    pub(crate) next: usize,
    pub(crate) hand: Hand,
}

impl<'a, D: Disk> RowSource<D> for RowFileWalk<'a> {
    ghost use Rattle.std.specs.Prelude.{IfOk};
    ghost use Rattle.std.specs.Option.{option_copied};
    ghost use Rattle.alt_cells.specs.Walks.{RowMap, RowList, rows_from, Gives, KeepsSource, Fails};
    ghost use Rattle.alt_rowfile.specs.Given.{walk_nexts, walk_seeks};
    ghost use Rattle.alt_rowfile.specs.Walking.{walk_reads, walk_width, walk_holds, walk_left, walk_holds_on, walk_left_on};

    ghost reads = { walk_reads };

    ghost width = { walk_width };

    ghost seeks = { walk_seeks };

    ghost nexts = { walk_nexts };

    ghost holds = { walk_holds };

    ghost left = { walk_left };

    ghost holds_on = { walk_holds_on };

    ghost left_on = { walk_left_on };

    fn seek(&mut self, disk: &mut D, from: Option<&[u8]>, forward: bool) -> Result<(), SourceFault>
        ensures sought { IsTrue (D.state disk.old).tells
            → (rows : RowMap) → walk_holds (D.state disk.old) self.old rows
            → OnOk result (walk_left (D.state disk.new) self.new
            (rows_from rows (option_copied from.entry) forward)) }
        ensures given { OnOk result (walk_seeks (D.state disk.old) (D.state disk.new) self.old
            (option_copied from.entry) forward self.new) }
        ensures keeps { KeepsSource walk_holds walk_reads (D.state disk.old) (D.state disk.new)
            self.old self.new }
        ensures reads { (D.state disk.new).reads ≤ (D.state disk.old).reads + walk_width self.old }
        ensures width { walk_width self.new ≡ walk_width self.old }
        ensures well { IsTrue (answered_by result)
            → (D.state disk.new).faults ≡ (D.state disk.old).faults }
        ensures fails { IfErr result
            (Fails walk_holds walk_reads (D.state disk.old) (D.state disk.new) self.old) }
        ensures damage { IfErr result (IsDamageIn (D.state disk.old) (walk_file self.old)) }
        ensures one_block { ReadsAtMostABlock (D.state disk.old) (D.state disk.new)
            (walk_file self.old) }
    {
        match start(self.file, disk, from, forward) {
            Ok((next, hand)) => {
                self.forward = forward;
                self.next = next;
                self.hand = hand;
                Ok(())
            }
            Err(stop) => Err(stop),
        }
    }

    fn next(&mut self, disk: &mut D) -> Result<Option<(Bytes, RowCells)>, SourceFault>
        ensures gives { IsTrue (D.state disk.old).tells
            → (rows : RowList) → walk_left (D.state disk.old) self.old rows
            → IfOk result (Gives (walk_left (D.state disk.new) self.new) rows) }
        ensures given { IfOk result (λ row. walk_nexts (D.state disk.old) (D.state disk.new) self.old
            row self.new) }
        ensures keeps { KeepsSource walk_holds walk_reads (D.state disk.old) (D.state disk.new)
            self.old self.new }
        ensures reads { (D.state disk.new).reads ≤ (D.state disk.old).reads + walk_width self.old }
        ensures width { walk_width self.new ≡ walk_width self.old }
        ensures well { IsTrue (answered_by result)
            → (D.state disk.new).faults ≡ (D.state disk.old).faults }
        ensures fails { IfErr result
            (Fails walk_holds walk_reads (D.state disk.old) (D.state disk.new) self.old) }
        ensures damage { IfErr result (IsDamageIn (D.state disk.old) (walk_file self.old)) }
        ensures one_block { ReadsAtMostABlock (D.state disk.old) (D.state disk.new)
            (walk_file self.old) }
    {
        match self.hand.take(self.file.alloc, self.forward) {
            Ok(Some(row)) => Ok(Some(row)),
            Ok(None) => self.go_on(disk),
            Err(BytesFault::Bad { at: _ }) => match self.test_held(disk) {
                Ok(()) => Err(SourceFault::NoMemory),
                Err(fault) => Err(fault),
            },
            Err(BytesFault::NoMemory) => Err(SourceFault::NoMemory),
        }
    }
}

impl<'a> RowFileWalk<'a> {
    // Reads the next block, if there is one, and gives its first row.
    fn go_on<D: Disk>(&mut self, disk: &mut D) -> Result<Option<(Bytes, RowCells)>, SourceFault>
        ensures file { self.new.file ≡ self.old.file }
        ensures gives { IsTrue (D.state disk.old).tells → (rows : RowList)
            → IsInHand self.old.hand self.old.forward []
            → LeftAs (D.state disk.old) self.old.file.now self.old.forward self.old.next [] rows
            → IfOk result (Gives (walk_left (D.state disk.new) self.new) rows) }
        ensures forward { self.new.forward ≡ self.old.forward }
        ensures given { IfOk result (λ row. GivesBeyondHand (D.state disk.old) (D.state disk.new) self.old
            row self.new) }
        ensures undamaged { IsTrue (D.state disk.old).tells
            → (rows : List Entry) → ReadsRows (D.state disk.old) self.old.file.now rows
            → IfErr result (λ fault. IsDamaged fault → ⊥) }
        ensures damage { IfErr result (IsDamageIn (D.state disk.old) (walk_file self.old)) }
        ensures quiet { IsTrue (D.state disk.old).tells
            → Quiet (D.state disk.old) (D.state disk.new) }
        ensures goes { Goes (D.state disk.old) (D.state disk.new) }
        ensures cause { IsErrOf result SourceFault.Failed
            → Rose (D.state disk.old).faults (D.state disk.new).faults }
        ensures well { (IsErrOf result SourceFault.Failed → ⊥)
            → (D.state disk.new).faults ≡ (D.state disk.old).faults }
        ensures one_block { ReadsAtMostABlock (D.state disk.old) (D.state disk.new)
            (walk_file self.old) }
        ensures reads { (D.state disk.new).reads ≤ (D.state disk.old).reads + 1 }
    {
        match following(self.forward, self.next, self.file.marks.len()) {
            Some(i) => match load(self.file, disk, i, None, self.forward) {
                Ok(hand) => self.begin(i, hand),
                Err(unread) => Err(unread),
            },
            None => Ok(None),
        }
    }

    // Takes a block in hand, and gives its first row.
    fn begin(&mut self, i: usize, hand: Hand) -> Result<Option<(Bytes, RowCells)>, SourceFault>
        requires { i < block_count (walk_file self.old) }
        ensures file { self.new.file ≡ self.old.file }
        ensures forward { self.new.forward ≡ self.old.forward }
        ensures next { self.new.next ≡ place_behind_block self.old.forward i }
        ensures gives { (rows : List Entry) → IsInHand hand self.old.forward rows
            → IfOk result (Gives (IsInHand self.new.hand self.old.forward) rows) }
        ensures given { IfOk result (λ row. HandGives hand self.old.forward row self.new.hand) }
        ensures fault { IfErr result (IsUnreadIn (walk_file self.old) i self.old.forward hand) }
    {
        self.next = passed(self.forward, i);
        self.hand = hand;
        match self.hand.take(self.file.alloc, self.forward) {
            Ok(row) => Ok(row),
            Err(BytesFault::Bad { at: _ }) => Err(damaged(self.file, i)),
            Err(BytesFault::NoMemory) => Err(SourceFault::NoMemory),
        }
    }

    // Where what is in hand is no row, its block is read again: a disk that tells what it has gives the same bytes.
    fn test_held<D: Disk>(&self, disk: &mut D) -> Result<(), SourceFault>
        ensures undamaged { IsTrue (D.state disk.old).tells
            → (rows : List Entry) → ReadsRows (D.state disk.old) self.now.file.now rows
            → IfErr result (λ fault. IsDamaged fault → ⊥) }
        ensures damage { IfErr result (IsDamageIn (D.state disk.old) (walk_file self.now)) }
        ensures quiet { IsTrue (D.state disk.old).tells
            → Quiet (D.state disk.old) (D.state disk.new) }
        ensures goes { Goes (D.state disk.old) (D.state disk.new) }
        ensures cause { IsErrOf result SourceFault.Failed
            → Rose (D.state disk.old).faults (D.state disk.new).faults }
        ensures well { (IsErrOf result SourceFault.Failed → ⊥)
            → (D.state disk.new).faults ≡ (D.state disk.old).faults }
        ensures one_block { ReadsAtMostABlock (D.state disk.old) (D.state disk.new)
            (walk_file self.now) }
        ensures reads { (D.state disk.new).reads ≤ (D.state disk.old).reads + 1 }
    {
        let i = if self.forward {
            self.next.saturating_sub(1)
        } else {
            self.next
        };
        if i < self.file.marks.len() {
            test(self.file, disk, i)
        } else {
            Ok(())
        }
    }
}

// The next one of so many behind a place, in a direction, if there is one. Before the place lie `at` of them.
fn following(forward: bool, at: usize, count: usize) -> Option<usize>
    ensures some { IfSome result (IsNext forward at count) }
    ensures none { IfNone result (IsEnd forward at count) }
{
    if !forward {
        return at.min(count).checked_sub(1);
    }
    if at < count { Some(at) } else { None }
}

// The place behind one of them.
fn passed(forward: bool, i: usize) -> usize
    requires { i + 1 < 2 ^ 64 }
    ensures { result ≡ place_behind_block forward i }
{
    if forward { i + 1 } else { i }
}
