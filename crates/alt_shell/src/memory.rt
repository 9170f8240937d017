//! A shell in memory, for tests: pieces of input, connections, moments to tell, and a list of what was done. It tells everything.

ghost use Rattle.std.specs.Prelude.{◌≡◌, ◌<◌, ◌≤◌, ◌^◌, ◌++◌, ◌∷◌, [], length, true, false, IfOk, OnOk, OnErr};
ghost use Rattle.alt_shell.specs.declared.shell.TheConstants.{CLOCK_END};
ghost use Rattle.alt_shell.specs.Kept.{promised};
ghost use Rattle.alt_shell.specs.Log.{taken};
ghost use Rattle.alt_shell.specs.States.{kept_entries, streams_by};
ghost use Rattle.alt_shell.specs.Streams.{streams_of};

use crate::clock::Clock;
use crate::kept::Kept;
use crate::shell::CLOCK_END;
use crate::talks::Talks;
use alt_base::NoMemory;
use alt_disk::MemoryDisk;
use std::alloc::Global;

/// The most bytes that a shell gives over its life.
pub(crate) const LIFE: u64 = 1 << 62;

/// A shell whose streams, connections and clock lie in memory. It counts its faults itself, since a call in a talk raises none.
#[derive(Drop)]
pub struct MemoryShell {
    pub(crate) alloc: Global,
    pub(crate) disk: MemoryDisk,
    pub(crate) faults: u64,
    pub(crate) talks: Talks,
    pub(crate) clock: Clock,
    pub(crate) kept: Kept,
    pub(crate) given: u64,
    pub(crate) noted: Vec<u8>,
    pub(crate) tells_notes: bool,
    ghost heard: { streams_by talks ≡ streams_of (kept_entries kept) },
    ghost counted: { given ≡ length (taken (kept_entries kept)) },
    ghost lives: { given ≤ 2 ^ 62 },
    ghost room: { promised talks.talking talks.takes talks.says ≤ kept.spare },
}

impl MemoryShell {
    ghost use Rattle.std.specs.Prelude.{ℕ, ◌≢◌, ◌+◌, IfSome};
    ghost use Rattle.alt_shell.specs.Memory.{log_of, pieces, clock_left, last_moment, disk_in, streams, connections_coming};
    ghost use Rattle.alt_shell.specs.Memory.{connections_added, talk_pieces, talk_calls, fails_talk, SameInput, SameTalk};
    ghost use Rattle.alt_shell.specs.Pieces.{with_more, sent_last, sent_here};
    ghost use Rattle.alt_shell.specs.Streams.{said_on};
    ghost use Rattle.alt_shell.specs.Log.{log, notes_of, talk_head};

    /// A shell over this disk, without input, connections and moments, that has said and noted nothing.
    pub fn new(alloc: Global, disk: MemoryDisk) -> Self
        ensures disk { disk_in result ≡ disk }
        ensures log { log_of result ≡ log (talk_head false 0 0 0) (1, []) (1, []) [] }
        ensures input { pieces result ≡ [] }
        ensures clock { clock_left result ≡ [] }
        ensures last { last_moment result ≡ 0 }
        ensures connections_coming { connections_coming result ≡ [] }
        ensures calls { talk_calls result ≡ 0 }
        ensures none_fails { (call : ℕ) → fails_talk result call ≡ false }
    {
        MemoryShell {
            alloc,
            disk,
            faults: 0,
            talks: Talks::new(alloc),
            clock: Clock::new(alloc),
            kept: Kept::new(alloc),
            given: 0,
            noted: Vec::new(alloc),
            tells_notes: true,
        }
    }

    /// Adds a piece of standard input. A take gives bytes of one piece alone; an empty piece is none, and so is one behind an end that
    /// was taken.
    pub fn input(&mut self, piece: &[u8]) -> Result<(), NoMemory>
        ensures ok { IfOk result (λ _. pieces self.new
            ≡ with_more (streams self.old).standard.over (pieces self.old) piece.now) }
        ensures err { OnErr result (pieces self.new ≡ pieces self.old) }
        ensures log { log_of self.new ≡ log_of self.old }
        ensures disk { disk_in self.new ≡ disk_in self.old }
        ensures clock { clock_left self.new ≡ clock_left self.old }
        ensures last { last_moment self.new ≡ last_moment self.old }
        ensures talk { SameTalk self.old self.new }
    {
        self.talks.input(piece)
    }

    /// Adds a connection: one more will be accepted, behind those added before.
    pub fn connection(&mut self) -> Result<(), NoMemory>
        ensures ok { OnOk result (connections_coming self.new ≡ connections_coming self.old ++ [] ∷ []) }
        ensures connections_added { OnOk result (connections_added self.new ≡ connections_added self.old + 1) }
        ensures err { OnErr result (connections_coming self.new ≡ connections_coming self.old) }
        ensures log { log_of self.new ≡ log_of self.old }
        ensures disk { disk_in self.new ≡ disk_in self.old }
        ensures input { SameInput self.old self.new }
        ensures talk { talk_pieces self.new ≡ talk_pieces self.old }
        ensures calls { talk_calls self.new ≡ talk_calls self.old }
        ensures fails { (call : ℕ) → fails_talk self.new call ≡ fails_talk self.old call }
    {
        self.talks.add()
    }

    /// Adds a piece on the connection added last, which may be the one at hand; an empty piece is none, and so is one behind an end
    /// that was taken, or on a connection that was hung up.
    pub fn send(&mut self, piece: &[u8]) -> Result<(), NoMemory>
        requires { 0 < connections_added self.old }
        ensures ok { IfOk result (λ _. (connections_coming self.new ≡ sent_last (connections_coming self.old) piece.now)
            × (talk_pieces self.new ≡ sent_here (connections_coming self.old) (streams self.old).talking
            (streams self.old).talk.over (talk_pieces self.old) piece.now)) }
        ensures err { OnErr result ((connections_coming self.new ≡ connections_coming self.old)
            × (talk_pieces self.new ≡ talk_pieces self.old)) }
        ensures connections_added { connections_added self.new ≡ connections_added self.old }
        ensures log { log_of self.new ≡ log_of self.old }
        ensures disk { disk_in self.new ≡ disk_in self.old }
        ensures input { SameInput self.old self.new }
        ensures calls { talk_calls self.new ≡ talk_calls self.old }
        ensures fails { (call : ℕ) → fails_talk self.new call ≡ fails_talk self.old call }
    {
        self.talks.send(piece)
    }

    /// Adds a moment to tell. Where none is left the last one is told again, 0 where none was given.
    pub fn clock(&mut self, moment: u64) -> Result<(), NoMemory>
        requires { moment < CLOCK_END }
        ensures ok { IfOk result (λ _. clock_left self.new ≡ clock_left self.old ++ moment ∷ []) }
        ensures err { OnErr result (clock_left self.new ≡ clock_left self.old) }
        ensures log { log_of self.new ≡ log_of self.old }
        ensures disk { disk_in self.new ≡ disk_in self.old }
        ensures input { pieces self.new ≡ pieces self.old }
        ensures last { last_moment self.new ≡ last_moment self.old }
        ensures talk { SameTalk self.old self.new }
    {
        self.clock.add(moment)
    }

    /// Lets the take or say in a talk fail that has this number, counted over all talks from 0.
    pub fn fail_talk(&mut self, call: u64) -> Result<(), NoMemory>
        ensures ok { OnOk result (fails_talk self.new call ≡ true) }
        ensures others { (n : ℕ) → n ≢ call → fails_talk self.new n ≡ fails_talk self.old n }
        ensures err { OnErr result ((n : ℕ) → fails_talk self.new n ≡ fails_talk self.old n) }
        ensures log { log_of self.new ≡ log_of self.old }
        ensures disk { disk_in self.new ≡ disk_in self.old }
        ensures input { SameInput self.old self.new }
        ensures connections_coming { connections_coming self.new ≡ connections_coming self.old }
        ensures connections_added { connections_added self.new ≡ connections_added self.old }
        ensures talk { talk_pieces self.new ≡ talk_pieces self.old }
        ensures calls { talk_calls self.new ≡ talk_calls self.old }
    {
        self.talks.fail(call)
    }

    /// The bytes said, with `None` on standard output, else on the talk of that number, from 0; of a talk that wasn't they are none.
    pub fn said(&self, talk: Option<usize>) -> &[u8]
        ensures { result.now ≡ said_on (streams self.now) talk }
    {
        self.talks.said(talk)
    }

    /// The bytes noted, as far as there was memory for them.
    pub fn noted(&self) -> &[u8]
        ensures { IfSome (notes_of (log_of self.now)) (λ notes. result.now ≡ notes) }
    {
        &self.noted
    }

    /// The disk as it stands. In a talk its own list may raise its own count of faults.
    pub fn disk(&self) -> &MemoryDisk
        ensures { result.now ≡ disk_in self.now }
    {
        &self.disk
    }
}
