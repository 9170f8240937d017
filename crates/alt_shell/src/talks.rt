//! The streams of a shell in memory: the standard streams, and the connections: those that will come, the talk at hand, and what was said
//! on the talks that are over.

ghost use Rattle.std.specs.Prelude.{◌≡◌, ◌≤◌, ◌+◌, length, if◌then◌else◌};
ghost use Rattle.std.specs.Vec.{vec_capacity};

use crate::kept::Stream;
use crate::pieces::Pieces;
use crate::wire::Wire;
use alt_base::NoMemory;
use std::alloc::Global;
use std::collections::VecDeque;
use std::mem;

/// The standard streams and the connections, with the count of the takes and says in talks, those of them that are to fail, and how many failed: in all, and of
/// each kind in the talk at hand or the last one.
#[derive(Drop)]
pub(crate) struct Talks {
    pub(crate) alloc: Global,
    pub(crate) standard: Wire,
    pub(crate) coming: VecDeque<Pieces>,
    pub(crate) talk: Wire,
    pub(crate) past: Vec<Vec<u8>>,
    pub(crate) talking: bool,
    pub(crate) calls: u64,
    pub(crate) to_fail: Vec<u64>,
    pub(crate) faults: u64,
    pub(crate) takes: u64,
    pub(crate) says: u64,
    ghost room: { length past.items + length coming.items + (if talking then 1 else 0)
        ≤ vec_capacity past },
}

impl Talks {
    ghost use Rattle.std.specs.Prelude.{ℕ, List, ◌≢◌, ◌<◌, [], ◌∷◌, ◌++◌, drop, Some, true, false, MatchResult, OnOk, OnErr, IfOk};
    ghost use Rattle.alt_base.specs.Counts.{Rose, next_moment};
    ghost use Rattle.alt_shell.specs.Log.{talk_head, accepted, hung_up};
    ghost use Rattle.alt_shell.specs.Pieces.{bytes_given_by_take, front_of, replaced, with_more, sent_last, sent_here};
    ghost use Rattle.alt_shell.specs.Streams.{untouched, said_on, is_none, on_hand, after_take, after_say, after_event};
    ghost use Rattle.alt_shell.specs.States.{heard_by, streams_by, pieces_at_hand, pieces_aside};
    ghost use Rattle.alt_shell.specs.Waiting.{pieces_of};
    ghost use Rattle.alt_shell.specs.States.{coming_of, added_to, is_to_fail, head_of_talk, missed_by, KeepsHead, KeepsList};
    ghost use Rattle.alt_shell.specs.Kept.{other_of};

    /// No connections.
    pub(crate) fn new(alloc: Global) -> Self
        ensures head { head_of_talk result ≡ talk_head false 0 0 0 }
        ensures coming { coming_of result ≡ [] }
        ensures pieces { (pieces_of result.standard.pieces ≡ [])
            × (pieces_of result.talk.pieces ≡ []) }
        ensures streams { streams_by result ≡ untouched }
        ensures calls { result.calls ≡ 0 }
        ensures none_fails { (n : ℕ) → is_to_fail result n ≡ false }
    {
        Talks {
            alloc,
            standard: Wire::new(alloc, Pieces::new(alloc)),
            coming: VecDeque::new(alloc),
            talk: Wire::new(alloc, Pieces::new(alloc)),
            past: Vec::new(alloc),
            talking: false,
            calls: 0,
            to_fail: Vec::new(alloc),
            faults: 0,
            takes: 0,
            says: 0,
        }
    }

    /// Adds a piece of standard input; one behind an end that was taken is none.
    pub(crate) fn input(&mut self, piece: &[u8]) -> Result<(), NoMemory>
        ensures ok { IfOk result (λ _. pieces_of self.new.standard.pieces
            ≡ with_more self.old.standard.over (pieces_of self.old.standard.pieces) piece.now) }
        ensures err { OnErr result (pieces_of self.new.standard.pieces
            ≡ pieces_of self.old.standard.pieces) }
        ensures heard { heard_by self.new.standard ≡ heard_by self.old.standard }
        ensures stays { self.new ≡ record self.old { standard = self.new.standard } }
    {
        self.standard.add(self.alloc, piece)
    }

    /// Adds a connection.
    pub(crate) fn add(&mut self) -> Result<(), NoMemory>
        ensures ok { OnOk result (coming_of self.new ≡ coming_of self.old ++ [] ∷ []) }
        ensures added { OnOk result (added_to self.new ≡ added_to self.old + 1) }
        ensures err { OnErr result (coming_of self.new ≡ coming_of self.old) }
        ensures streams { streams_by self.new ≡ streams_by self.old }
        ensures pieces { (self.new.standard.pieces ≡ self.old.standard.pieces)
            × (self.new.talk.pieces ≡ self.old.talk.pieces) }
        ensures head { KeepsHead self.old self.new }
        ensures list { KeepsList self.old self.new }
    {
        let Some(room) = self.coming.len().checked_add(2) else {
            return Err(NoMemory);
        };
        self.past.reserve(room)?;
        self.coming.push_back(Pieces::new(self.alloc))?;
        Ok(())
    }

    /// Adds a piece on the connection added last, which may be the one at hand; on one that was hung up it is none.
    pub(crate) fn send(&mut self, piece: &[u8]) -> Result<(), NoMemory>
        ensures ok { IfOk result (λ _. (coming_of self.new
            ≡ sent_last (coming_of self.old) piece.now)
            × (pieces_of self.new.talk.pieces
            ≡ sent_here (coming_of self.old) self.old.talking self.old.talk.over
            (pieces_of self.old.talk.pieces) piece.now)) }
        ensures err { OnErr result ((coming_of self.new ≡ coming_of self.old)
            × (pieces_of self.new.talk.pieces ≡ pieces_of self.old.talk.pieces)) }
        ensures added { added_to self.new ≡ added_to self.old }
        ensures streams { streams_by self.new ≡ streams_by self.old }
        ensures pieces { self.new.standard.pieces ≡ self.old.standard.pieces }
        ensures head { KeepsHead self.old self.new }
        ensures list { KeepsList self.old self.new }
    {
        if let Some(last) = self.coming.back_mut() {
            return last.add(self.alloc, piece);
        }
        if !self.talking {
            return Ok(());
        }
        self.talk.add(self.alloc, piece)
    }

    /// Lets the call of this number fail, of the takes and says in talks.
    pub(crate) fn fail(&mut self, call: u64) -> Result<(), NoMemory>
        ensures ok { OnOk result (is_to_fail self.new call ≡ true) }
        ensures others { (n : ℕ) → n ≢ call → is_to_fail self.new n ≡ is_to_fail self.old n }
        ensures err { OnErr result ((n : ℕ) → is_to_fail self.new n ≡ is_to_fail self.old n) }
        ensures stays { self.new ≡ record self.old { to_fail = self.new.to_fail } }
    {
        self.to_fail.push(call)?;
        Ok(())
    }

    /// What was said, with `None` on standard output, else on the talk of that number; on one that wasn't nothing.
    pub(crate) fn said(&self, talk: Option<usize>) -> &[u8]
        ensures { result.now ≡ said_on (streams_by self.now) talk }
    {
        match talk {
            None => &self.standard.said,
            Some(talk) => self.said_in_talk(talk),
        }
    }

    // What was said on the talk of this number.
    fn said_in_talk(&self, talk: usize) -> &[u8]
        ensures { result.now ≡ said_on (streams_by self.now) (Some talk) }
    {
        if talk == self.past.len() {
            return &self.talk.said;
        }
        match self.past.get(talk) {
            Some(said) => said,
            None => &[],
        }
    }

    /// The bytes to give of the first piece at hand, and those that it has left.
    pub(crate) fn parts(&self, most: usize) -> Result<(Vec<u8>, Vec<u8>), NoMemory>
        ensures { IfOk result (λ p. (p.0.items ≡ bytes_given_by_take (pieces_at_hand self.now) most)
            × (p.1.items ≡ drop most (front_of (pieces_at_hand self.now)))) }
    {
        if self.talking {
            self.talk.pieces.parts(self.alloc, most)
        } else {
            self.standard.pieces.parts(self.alloc, most)
        }
    }

    /// Leaves the rest of the piece at hand of which bytes were given. Where they were none the end was taken.
    pub(crate) fn advance(&mut self, none: bool, rest: Vec<u8>)
        requires { none ≡ true → pieces_at_hand self.old ≡ [] }
        ensures pieces { pieces_at_hand self.new ≡ replaced (pieces_at_hand self.old) rest.items }
        ensures aside { pieces_aside self.new ≡ pieces_aside self.old }
        ensures streams { (bytes : List ℕ) → is_none bytes ≡ none
            → streams_by self.new ≡ on_hand self.old.talking (after_take bytes) (streams_by self.old) }
        ensures stays { self.new ≡ record self.old { standard = self.new.standard; talk = self.new.talk } }
    {
        if self.talking {
            self.talk.advance(none, rest);
        } else {
            self.standard.advance(none, rest);
        }
    }

    /// Says these bytes on the stream at hand. After an error none were said.
    pub(crate) fn say(&mut self, bytes: &[u8]) -> Result<(), NoMemory>
        ensures streams { MatchResult result
            (λ _. streams_by self.new
            ≡ on_hand self.old.talking (after_say bytes.now) (streams_by self.old))
            (λ _. streams_by self.new ≡ streams_by self.old) }
        ensures pieces { (self.new.standard.pieces ≡ self.old.standard.pieces)
            × (self.new.talk.pieces ≡ self.old.talk.pieces) }
        ensures stays { self.new ≡ record self.old { standard = self.new.standard; talk = self.new.talk } }
    {
        if self.talking {
            self.talk.say(bytes)
        } else {
            self.standard.say(bytes)
        }
    }

    /// Begins a talk on the first connection, in which nothing failed yet.
    pub(crate) fn begin(&mut self)
        requires quiet { self.old.talking ≡ false }
        requires comes { 0 < length self.old.coming.items }
        ensures coming { coming_of self.old
            ≡ pieces_of self.new.talk.pieces ∷ coming_of self.new }
        ensures added { added_to self.new ≡ added_to self.old }
        ensures streams { streams_by self.new ≡ after_event (Some accepted) (streams_by self.old) }
        ensures pieces { self.new.standard.pieces ≡ self.old.standard.pieces }
        ensures talking { self.new.talking ≡ true }
        ensures missed { (self.new.takes ≡ 0) × (self.new.says ≡ 0) }
        ensures faults { self.new.faults ≡ self.old.faults }
        ensures list { KeepsList self.old self.new }
    {
        if let Some(pieces) = self.coming.pop_front() {
            self.talk = Wire::new(self.alloc, pieces);
        }
        self.talking = true;
        self.takes = 0;
        self.says = 0;
    }

    /// Ends the talk. What its client sent and wasn't taken is dropped.
    pub(crate) fn end(&mut self)
        requires { self.old.talking ≡ true }
        ensures streams { streams_by self.new ≡ after_event (Some hung_up) (streams_by self.old) }
        ensures added { added_to self.new ≡ added_to self.old }
        ensures dropped { pieces_of self.new.talk.pieces ≡ [] }
        ensures pieces { self.new.standard.pieces ≡ self.old.standard.pieces }
        ensures coming { coming_of self.new ≡ coming_of self.old }
        ensures talking { self.new.talking ≡ false }
        ensures missed { (self.new.takes ≡ self.old.takes) × (self.new.says ≡ self.old.says) }
        ensures faults { self.new.faults ≡ self.old.faults }
        ensures list { KeepsList self.old self.new }
    {
        let none = Wire::new(self.alloc, Pieces::new(self.alloc));
        let over = mem::replace(&mut self.talk, none);
        self.past.push_reserved(over.said);
        self.talking = false;
    }

    /// Counts a take or a say in a talk, and says whether it is to fail.
    pub(crate) fn count(&mut self) -> bool
        ensures to_fail { result ≡ is_to_fail self.old self.old.calls }
        ensures counted { self.new.calls ≡ next_moment self.old.calls }
        ensures stays { self.new ≡ record self.old { calls = self.new.calls } }
    {
        let to_fail = self.to_fail.as_slice().contains(&self.calls);
        self.calls = self.calls.saturating_add(1);
        to_fail
    }

    /// Whether a call of this kind failed in the talk.
    pub(crate) fn missed(&self, stream: Stream) -> bool
        ensures { result ≡ missed_by stream self.now }
    {
        match stream {
            Stream::Input => self.takes > 0,
            Stream::Output => self.says > 0,
        }
    }

    /// Counts a failure in a talk.
    pub(crate) fn miss(&mut self, stream: Stream)
        ensures rose { Rose self.old.faults self.new.faults }
        ensures later { self.old.faults ≤ self.new.faults }
        ensures missed { missed_by stream self.new ≡ true }
        ensures other { missed_by (other_of stream) self.new ≡ missed_by (other_of stream) self.old }
        ensures stays { self.new ≡ record self.old { faults = self.new.faults; takes = self.new.takes; says = self.new.says } }
    {
        self.faults = self.faults.saturating_add(1);
        match stream {
            Stream::Input => self.takes = self.takes.saturating_add(1),
            Stream::Output => self.says = self.says.saturating_add(1),
        }
    }
}
