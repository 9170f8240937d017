//! What a walk has in hand of a block: its bytes, of which a row is decoded when it is given.

ghost use Rattle.std.specs.Prelude.{◌≡◌, ◌≤◌, ◌++◌, ◌∷◌, [], true, false, ℕ, List, T, Bool, length, ◌↔◌, IsTrue, IfOk, IfErr, IfSome, IfNone};
ghost use Rattle.std.specs.FinMap.Entries.{is_sorted};
ghost use Rattle.std.specs.Option.{option_copied};
ghost use Rattle.alt_cells.specs.Keys.{key_cmp};
ghost use Rattle.alt_cells.specs.Walks.{Gives};
ghost use Rattle.alt_rowblocks.specs.Cut.{IsPassed};
ghost use Rattle.alt_rowblocks.specs.Decoding.{AreRows, NoRows};
ghost use Rattle.alt_rowblocks.specs.Format.{Entry, row_entry_bytes, rows_bytes, block_bytes, IsHeldEntry, IsHeldBlock};
ghost use Rattle.alt_rowblocks.specs.Taken.{HandGives, IsBegun, IsBegunIn, IsPassedBy};
ghost use Rattle.alt_rowblocks.specs.Holding.{IsCutBlock, IsCutIn, IsInHand, IsUnread, StandAt};

use crate::decode::{take_entry, whole_field};
use crate::pick::take_piece;
use alt_base::NoMemory;
use alt_cells::RowCells;
use alt_fields::{Bytes, BytesFault};
use std::alloc::Global;

/// The bytes of a block, a place in it, and where the rows before that place begin. A walk upwards needs none of these.
#[derive(Drop)]
pub struct Hand {
    pub bytes: Vec<u8>,
    pub before: Vec<usize>,
    pub at: usize,
}

impl Hand {
    /// Nothing in hand.
    pub fn empty(alloc: Global) -> Hand
        ensures { (forward : Bool) → IsInHand result forward [] }
    {
        Hand {
            bytes: Vec::new(alloc),
            before: Vec::new(alloc),
            at: 0,
        }
    }

    /// The block of these bytes, at the place where a walk begins in it; none where they are no block's. Of the rows that are passed the
    /// lengths are tested. Memory may be refused for their places.
    pub fn of_block(
        alloc: Global,
        bytes: Vec<u8>,
        from: Option<&[u8]>,
        forward: bool,
    ) -> Result<Option<Hand>, NoMemory>
        ensures some { (b : List Entry) → IsHeldBlock b → T (is_sorted key_cmp b)
            → bytes.items ≡ block_bytes b → IfOk result (λ o. IfSome o (λ hand.
            IsCutBlock hand (option_copied from.entry) forward b)) }
        ensures none { (b : List Entry) → IsHeldBlock b → T (is_sorted key_cmp b)
            → bytes.items ≡ block_bytes b → IfOk result (λ o. IfNone o ⊥) }
        ensures given { IfOk result (λ o. IfSome o (λ hand. hand.bytes.items ≡ bytes.items)) }
        ensures begun { IfOk result (λ o. IfSome o (λ hand.
            IsBegun hand (option_copied from.entry) forward)) }
    {
        match cut_in(alloc, &bytes, from, forward)? {
            Some((before, at)) => Ok(Some(Hand { bytes, before, at })),
            None => Ok(None),
        }
    }

    /// Gives the next row in hand, in a direction, if there is one. `Bad` where the bytes that stand there are no row's, and `NoMemory`
    /// where memory is refused for it.
    pub fn take(
        &mut self,
        alloc: Global,
        forward: bool,
    ) -> Result<Option<(Bytes, RowCells)>, BytesFault>
        ensures gives { (rows : List Entry) → IsInHand self.old forward rows
            → IfOk result (Gives (IsInHand self.new forward) rows) }
        ensures read { (rows : List Entry) → IsInHand self.old forward rows
            → IfErr result (λ fault. IsUnread fault → ⊥) }
        ensures given { IfOk result (λ row. HandGives self.old forward row self.new) }
    {
        if forward {
            self.take_behind(alloc)
        } else {
            self.take_before(alloc)
        }
    }

    // The row behind the place.
    fn take_behind(&mut self, alloc: Global) -> Result<Option<(Bytes, RowCells)>, BytesFault>
        ensures gives { (rows : List Entry) → IsInHand self.old true rows
            → IfOk result (Gives (IsInHand self.new true) rows) }
        ensures read { (rows : List Entry) → IsInHand self.old true rows
            → IfErr result (λ fault. IsUnread fault → ⊥) }
        ensures given { IfOk result (λ row. HandGives self.old true row self.new) }
    {
        if self.at >= self.bytes.len() {
            return Ok(None);
        }
        let (_, rest) = self.bytes.split_at(self.at);
        match take_entry(alloc, rest) {
            Ok(Some((key, row, behind))) => {
                self.at = self.bytes.len() - behind.len();
                Ok(Some((key, row)))
            }
            Ok(None) => Err(BytesFault::Bad { at: self.at }),
            Err(_) => Err(BytesFault::NoMemory),
        }
    }

    // The row before the place.
    fn take_before(&mut self, alloc: Global) -> Result<Option<(Bytes, RowCells)>, BytesFault>
        ensures gives { (rows : List Entry) → IsInHand self.old false rows
            → IfOk result (Gives (IsInHand self.new false) rows) }
        ensures read { (rows : List Entry) → IsInHand self.old false rows
            → IfErr result (λ fault. IsUnread fault → ⊥) }
        ensures given { IfOk result (λ row. HandGives self.old false row self.new) }
    {
        let count = self.before.len();
        if count == 0 {
            return Ok(None);
        }
        let place = self.before[count - 1];
        match entry_at(alloc, &self.bytes, place) {
            Ok(Some(entry)) => {
                self.before.truncate(count - 1);
                Ok(Some(entry))
            }
            Ok(None) => Err(BytesFault::Bad { at: place }),
            Err(_) => Err(BytesFault::NoMemory),
        }
    }
}

// Where a walk begins in the block whose bytes these are: the places of the rows before, and its own; none where they are no block's.
fn cut_in(
    alloc: Global,
    bytes: &[u8],
    from: Option<&[u8]>,
    forward: bool,
) -> Result<Option<(Vec<usize>, usize)>, NoMemory>
    ensures some { (b : List Entry) → IsHeldBlock b → T (is_sorted key_cmp b)
        → bytes.now ≡ block_bytes b → IfOk result (λ o. IfSome o (λ p.
        IsCutIn bytes.now p.0.items p.1 (option_copied from.entry) forward b)) }
    ensures none { (b : List Entry) → IsHeldBlock b → T (is_sorted key_cmp b)
        → bytes.now ≡ block_bytes b → IfOk result (λ o. IfNone o ⊥) }
    ensures begun { IfOk result (λ o. IfSome o (λ p.
        IsBegunIn bytes.now p.0.items p.1 (option_copied from.entry) forward)) }
{
    match whole_field(bytes) {
        Some(rows) => match from {
            Some(key) => pass(alloc, bytes, rows, Some(key)),
            None => {
                if forward {
                    Ok(Some((Vec::new(alloc), bytes.len() - rows.len())))
                } else {
                    pass(alloc, bytes, rows, None)
                }
            }
        },
        None => Ok(None),
    }
}

// The places of the rows below a key, or of all where there is none, in the bytes at whose end they stand, and that behind them; none where
// what is passed is not the bytes of rows.
fn pass(
    alloc: Global,
    bytes: &[u8],
    all: &[u8],
    to: Option<&[u8]>,
) -> Result<Option<(Vec<usize>, usize)>, NoMemory>
    requires { length all.now ≤ length bytes.now }
    ensures passed { (front : List ℕ) (b : List Entry) → AreRows b → all.now ≡ rows_bytes b
        → bytes.now ≡ front ++ all.now → IfOk result (λ o. IfSome o (λ p.
        IsCutIn bytes.now p.0.items p.1 (option_copied to.entry) false b)) }
    ensures begun { (front : List ℕ) → bytes.now ≡ front ++ all.now → IfOk result (λ o. IfSome o
        (λ p. IsPassedBy bytes.now all.now (option_copied to.entry) p.0.items p.1)) }
    ensures none { IfOk result (λ o. IfNone o (NoRows all.now)) }
{
    let mut places = Vec::new(alloc);
    let mut rest = all;
    'passed: while !rest.is_empty() {
        match take_piece(rest) {
            Some((key, _, behind)) => {
                let place = bytes.len() - rest.len();
                if !is_passed(to, key) {
                    return Ok(Some((places, place)));
                }
                places.push(place)?;
                rest = behind;
            }
            None => return Ok(None),
        }
    }
    Ok(Some((places, bytes.len())))
}

// Whether a row of a key is passed on the way to another key, or to the end.
fn is_passed(to: Option<&[u8]>, key: &[u8]) -> bool
    ensures { IsTrue result ↔ IsPassed (option_copied to.entry) key.now }
{
    match to {
        Some(to) => key.cmp(to).is_lt(),
        None => true,
    }
}

// The row that begins at a place; none where no row does.
fn entry_at(
    alloc: Global,
    bytes: &[u8],
    place: usize,
) -> Result<Option<(Bytes, RowCells)>, NoMemory>
    ensures some { (e : Entry) → IsHeldEntry e → StandAt row_entry_bytes bytes.now (place ∷ []) (e ∷ [])
        → IfOk result (λ o. IfSome o (λ given. given ≡ e)) }
    ensures none { (e : Entry) → IsHeldEntry e → StandAt row_entry_bytes bytes.now (place ∷ []) (e ∷ [])
        → IfOk result (λ o. IfNone o ⊥) }
    ensures given { IfOk result (λ o. IfSome o (λ row. IsHeldEntry row
        × StandAt row_entry_bytes bytes.now (place ∷ []) (row ∷ []))) }
{
    if place > bytes.len() {
        return Ok(None);
    }
    let (_, rest) = bytes.split_at(place);
    match take_entry(alloc, rest)? {
        Some((key, row, _)) => Ok(Some((key, row))),
        None => Ok(None),
    }
}
