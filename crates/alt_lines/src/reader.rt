//! A reader of lines. It keeps what was given and not given out yet, but of a line that is too long only that it is.

ghost use Rattle.std.specs.Prelude.{◌≡◌, ◌≢◌, ℕ, ◌≤◌, ◌<◌, ◌+◌, ◌*◌, length, slice_index};

use crate::feed::{Cut, line_feed, read};
use alt_base::NoMemory;
use std::alloc::Global;

/// The most bytes of a line that the program takes: those of a body of 16 MB, and 64 for the name before it.
pub const LONGEST_LINE: usize = 16_777_280;

/// Lines of an input of which pieces are given. It takes time in proportion to the bytes given, however they are cut.
#[derive(Debug, Drop)]
pub struct Lines {
    most: usize,
    held: Vec<u8>,
    // Where the first line begins that isn't given out yet.
    start: usize,
    // No line feed stands between `start` and this place.
    seen: usize,
    // That line is too long already, and its bytes before `start` were dropped.
    past: bool,
    ended: bool,
    ghost in_order: { start ≤ seen },
    ghost within: { seen ≤ length held.items },
    ghost searched: { (k : ℕ) → start ≤ k → k < seen → slice_index held.items k ≢ 10 },
}

impl Lines {
    ghost use Rattle.std.specs.Prelude.{◌≡◌, ◌<◌, ◌≤◌, ◌++◌, length, drop, slice_range, [], false, true, OnOk, OnErr, IfOk, IfSome, IfNone, IsSomeAnd, if◌then◌else◌};
    ghost use Rattle.alt_lines.specs.Feeds.{AllPlain};
    ghost use Rattle.alt_lines.specs.Lines.{Line, too_long, read_line};
    ghost use Rattle.alt_lines.specs.Reader.{held_by, unread};
    ghost use Rattle.alt_lines.specs.Unread.{HasNone, TakesLine, TellsLine};

    /// Nothing was given yet. A line may have `most` bytes before its line feed.
    pub fn new(alloc: Global, most: usize) -> Lines
        ensures { unread result ≡ record { most = most; bytes = []; ended = false } }
    {
        Lines {
            most,
            held: Vec::new(alloc),
            start: 0,
            seen: 0,
            past: false,
            ended: false,
        }
    }

    /// Takes the next bytes of the input, which are copied.
    pub fn give(&mut self, piece: &[u8]) -> Result<(), NoMemory>
        ensures ok { OnOk result
            (unread self.new
            ≡ record (unread self.old) { bytes = (unread self.old).bytes ++ piece.now }) }
        ensures err { OnErr result (unread self.new ≡ unread self.old) }
        // It keeps no more than twice what isn't given out, besides the piece.
        ensures keeps { held_by self.new
            ≤ 2 * length (unread self.old).bytes + length piece.now }
    {
        self.forget();
        match self.held.extend_from_slice(piece) {
            Ok(()) => Ok(()),
            Err(_) => Err(NoMemory),
        }
    }

    /// Drops the lines that were given out, once they are half of what is held: so each byte is moved at most once for a byte
    /// that is dropped.
    fn forget(&mut self)
        ensures same { unread self.new ≡ unread self.old }
        ensures keeps { held_by self.new ≤ 2 * length (unread self.old).bytes }
    {
        let kept = self.held.len() - self.start;
        if self.start < kept || self.start == 0 {
            return;
        }
        self.held.copy_within(self.start.., 0);
        self.held.truncate(kept);
        self.seen -= self.start;
        self.start = 0;
    }

    /// Tells that the input has ended: its last bytes are a line then, unless there are none.
    pub fn end(&mut self)
        ensures { unread self.new ≡ record (unread self.old) { ended = true } }
    {
        self.ended = true;
    }

    /// Takes the next line. It answers `None` where no further line is whole, and appends nothing then.
    pub fn line(&mut self, out: &mut Vec<u8>) -> Result<Option<Cut>, NoMemory>
        ensures some { IfOk result (λ found. IfSome found (λ cut. (line : Line)
            × TellsLine line cut out.old.items out.new.items
            × TakesLine line (unread self.old) (unread self.new))) }
        ensures none { IfOk result (λ found. IfNone found
            ((out.new.items ≡ out.old.items) × HasNone (unread self.old) (unread self.new))) }
        ensures err { OnErr result
            ((out.new.items ≡ out.old.items) × (unread self.new ≡ unread self.old)) }
        // Of a line that is too long nothing is kept, and otherwise no more than before.
        ensures keeps { held_by self.new ≤ held_by self.old }
        ensures drops { IfOk result (λ found. IfNone found
            ((unread self.old).most < length (unread self.old).bytes
            → held_by self.new ≡ 0)) }
    {
        match line_feed(&self.held[self.seen..]) {
            Some(place) => {
                let end = self.seen + place;
                self.take(end, end + 1, out)
            }
            None => self.rest(out),
        }
    }

    /// What is given out where no line feed stands in the bytes: the last line, once the input has ended.
    fn rest(&mut self, out: &mut Vec<u8>) -> Result<Option<Cut>, NoMemory>
        requires { AllPlain (drop self.old.start self.old.held.items) }
        ensures some { IfOk result (λ found. IfSome found (λ cut. (line : Line)
            × TellsLine line cut out.old.items out.new.items
            × TakesLine line (unread self.old) (unread self.new))) }
        ensures none { IfOk result (λ found. IfNone found
            ((out.new.items ≡ out.old.items) × HasNone (unread self.old) (unread self.new))) }
        ensures err { OnErr result
            ((out.new.items ≡ out.old.items) × (unread self.new ≡ unread self.old)) }
        ensures keeps { held_by self.new ≤ held_by self.old }
        ensures drops { IfOk result (λ found. IfNone found
            ((unread self.old).most < length (unread self.old).bytes
            → held_by self.new ≡ 0)) }
    {
        let end = self.held.len();
        if self.ended && (self.past || self.start < end) {
            return self.take(end, end, out);
        }
        self.wait();
        Ok(None)
    }

    /// Looks no more at the bytes that are held. Where they are too many for a line, they are dropped.
    fn wait(&mut self)
        requires plain { AllPlain (drop self.old.start self.old.held.items) }
        requires going { self.old.ended ≡ true
            → (self.old.past ≡ false) × (length self.old.held.items ≤ self.old.start) }
        ensures none { HasNone (unread self.old) (unread self.new) }
        ensures keeps { held_by self.new ≤ held_by self.old }
        ensures drops { (unread self.old).most < length (unread self.old).bytes
            → held_by self.new ≡ 0 }
    {
        let end = self.held.len();
        if self.past || end - self.start > self.most {
            self.held.clear();
            self.start = 0;
            self.seen = 0;
            self.past = true;
        } else {
            self.seen = end;
        }
    }

    /// Gives out the bytes before `end` as a line, and goes on at `next`.
    fn take(&mut self, end: usize, next: usize, out: &mut Vec<u8>) -> Result<Option<Cut>, NoMemory>
        requires in_order { self.old.start ≤ end }
        requires behind { end ≤ next }
        requires within { next ≤ length self.old.held.items }
        ensures told { IfOk result (λ found. IsSomeAnd found (λ cut.
            TellsLine (if self.old.past then too_long
            else read_line self.old.most (slice_range self.old.held.items self.old.start end))
            cut out.old.items out.new.items)) }
        ensures moved { OnOk result (unread self.new ≡ record {
          most = self.old.most;
          bytes = drop next self.old.held.items;
          ended = self.old.ended;
        }) }
        ensures err { OnErr result
            ((out.new.items ≡ out.old.items) × (unread self.new ≡ unread self.old)) }
        ensures keeps { held_by self.new ≡ held_by self.old }
    {
        match read(self.past, self.most, &self.held[self.start..end], out) {
            Ok(cut) => {
                self.past = false;
                self.start = next;
                self.seen = next;
                Ok(Some(cut))
            }
            Err(fault) => Err(fault),
        }
    }
}
