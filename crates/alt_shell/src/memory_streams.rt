//! The streams, the connections and the clock of a shell in memory, as a run sees them.

ghost use Rattle.std.specs.Prelude.{◌≡◌, ◌<◌, ◌≤◌, ◌∷◌, [], take, drop, length, true, false, IfOk, OnErr, MatchResult};
ghost use Rattle.alt_shell.specs.declared.shell.TheConstants.{CLOCK_END};
ghost use Rattle.alt_shell.specs.Log.{taken};

use crate::kept::{Act, Call, Stream};
use crate::memory::MemoryShell;
use crate::shell::{CLOCK_END, Shell};
use alt_disk::Failed;

impl Shell for MemoryShell {
    ghost use Rattle.std.specs.Prelude.{ℕ, is_ok, ◌↔◌, OnErr};
    ghost use Rattle.alt_disk.specs.MemoryState.{fails_at};
    ghost use Rattle.alt_shell.specs.Calls.{ShellCall, Aside, Takes, Says, Accepts, Adds, StaysIn};
    ghost use Rattle.alt_shell.specs.Log.{Grows, StillGrows, TellsMoments, notes_of, moments_of, has_input_ended, WithinLife};
    ghost use Rattle.alt_shell.specs.Log.{hung_up, talk_of, talks, talk_faults, takes_missed, says_missed};
    ghost use Rattle.alt_shell.specs.Pieces.{bytes_given_by_take, pieces_behind, next_told_moment};
    ghost use Rattle.alt_shell.specs.Memory.{shell_state, pieces, talk_pieces, at_hand, aside, connections_coming, streams, clock_left, last_moment};
    ghost use Rattle.alt_shell.specs.Memory.{connections_added, fails_now, CallCounted, SameInput, SameComing, SameTalk, SameList, NextOf};

    fn take(&mut self, buf: &mut [u8]) -> Result<usize, Failed>
        requires { 0 < length buf.old }
        ensures count { IfOk result (λ n. n ≤ length buf.new) }
        ensures taken { Takes (shell_state self.old) (shell_state self.new) result buf.new }
        ensures over { talks (shell_state self.old).beside ≡ false
            → has_input_ended (shell_state self.old).beside ≡ true → IfOk result (λ n. n ≡ 0) }
        ensures talk { StaysIn (shell_state self.old) (shell_state self.new) (is_ok result)
            takes_missed says_missed }
        ensures life { WithinLife (shell_state self.old).beside
            → WithinLife (shell_state self.new).beside }
        ensures call { ShellCall (shell_state self.old) (shell_state self.new) (is_ok result) }
        ensures notes { notes_of (shell_state self.new).beside
            ≡ notes_of (shell_state self.old).beside }
        ensures moments { moments_of (shell_state self.new).beside
            ≡ moments_of (shell_state self.old).beside }

        // It gives bytes of the first piece at hand alone, and nothing exactly where no piece is left.
        ensures gives { MatchResult result
            (λ n. (take n buf.new ≡ bytes_given_by_take (at_hand self.old) (length buf.old))
            × (at_hand self.new ≡ pieces_behind (at_hand self.old) (length buf.old)))
            (λ _. at_hand self.new ≡ at_hand self.old) }
        ensures end { IfOk result (λ n. (n ≡ 0) ↔ (at_hand self.old ≡ [])) }
        ensures aside { aside self.new ≡ aside self.old }
        ensures connections_coming { SameComing self.old self.new }
        ensures clock { (clock_left self.new ≡ clock_left self.old)
            × (last_moment self.new ≡ last_moment self.old) }
        ensures calls { CallCounted self.old self.new }
        ensures to_fail { fails_now self.old ≡ true → is_ok result ≡ false }
        ensures fails { (t : ℕ) → fails_at self.new.disk t ≡ fails_at self.old.disk t }
    {
        let (before, _) = self.disk.counts();
        match self.try_take(buf) {
            Some(count) => Ok(count),
            None => Err(self.fail(Stream::Input, before == u64::MAX)),
        }
    }

    fn say(&mut self, bytes: &[u8]) -> Result<(), Failed>
        ensures said { Says (shell_state self.old) (shell_state self.new) result bytes.now }
        ensures talk { StaysIn (shell_state self.old) (shell_state self.new) (is_ok result)
            says_missed takes_missed }
        ensures life { WithinLife (shell_state self.old).beside
            → WithinLife (shell_state self.new).beside }
        ensures call { ShellCall (shell_state self.old) (shell_state self.new) (is_ok result) }
        ensures notes { notes_of (shell_state self.new).beside
            ≡ notes_of (shell_state self.old).beside }
        ensures moments { moments_of (shell_state self.new).beside
            ≡ moments_of (shell_state self.old).beside }

        // One that fails says nothing.
        ensures err { OnErr result (streams self.new ≡ streams self.old) }
        ensures input { SameInput self.old self.new }
        ensures pieces { talk_pieces self.new ≡ talk_pieces self.old }
        ensures connections_coming { SameComing self.old self.new }
        ensures calls { CallCounted self.old self.new }
        ensures to_fail { fails_now self.old ≡ true → is_ok result ≡ false }
        ensures fails { (t : ℕ) → fails_at self.new.disk t ≡ fails_at self.old.disk t }
    {
        let (before, _) = self.disk.counts();
        match self.try_say(bytes) {
            Some(()) => Ok(()),
            None => Err(self.fail(Stream::Output, before == u64::MAX)),
        }
    }

    fn accept(&mut self) -> Result<bool, Failed>
        requires { talks (shell_state self.old).beside ≡ false }
        ensures accepted { Accepts (shell_state self.old) (shell_state self.new) result }
        ensures call { ShellCall (shell_state self.old) (shell_state self.new) (is_ok result) }
        ensures life { WithinLife (shell_state self.old).beside
            → WithinLife (shell_state self.new).beside }
        ensures notes { notes_of (shell_state self.new).beside
            ≡ notes_of (shell_state self.old).beside }
        ensures moments { moments_of (shell_state self.new).beside
            ≡ moments_of (shell_state self.old).beside }

        // It answers true exactly where a connection is left, which is then the one at hand.
        ensures next { MatchResult result (λ came. NextOf (connections_coming self.old) self.old self.new came)
            (λ _. (connections_coming self.new ≡ connections_coming self.old)
            × (talk_pieces self.new ≡ talk_pieces self.old)) }
        ensures connections_added { connections_added self.new ≡ connections_added self.old }
        ensures input { SameInput self.old self.new }
        ensures list { SameList self.old self.new }
        ensures to_fail { fails_at self.old.disk (shell_state self.old).moment ≡ true
            → is_ok result ≡ false }
        ensures fails { (t : ℕ) → fails_at self.new.disk t ≡ fails_at self.old.disk t }
    {
        match self.try_accept() {
            Some(came) => Ok(came),
            None => Err(self.fault()),
        }
    }

    fn hang_up(&mut self)
        ensures hung { talks (shell_state self.old).beside ≡ true
            → Adds (shell_state self.old) (shell_state self.new) hung_up }
        ensures idle { talks (shell_state self.old).beside ≡ false
            → (shell_state self.new).beside ≡ (shell_state self.old).beside }
        ensures quiet { talks (shell_state self.new).beside ≡ false }
        ensures faults { talk_faults (shell_state self.new).beside
            ≡ talk_faults (shell_state self.old).beside }
        ensures call { Aside (shell_state self.old) (shell_state self.new) }
        ensures life { WithinLife (shell_state self.old).beside
            → WithinLife (shell_state self.new).beside }
        ensures notes { notes_of (shell_state self.new).beside
            ≡ notes_of (shell_state self.old).beside }
        ensures moments { moments_of (shell_state self.new).beside
            ≡ moments_of (shell_state self.old).beside }

        // It takes no memory. What the client sent and wasn't taken is dropped.
        ensures dropped { talks (shell_state self.old).beside ≡ true → talk_pieces self.new ≡ [] }
        ensures connections_added { connections_added self.new ≡ connections_added self.old }
        ensures input { SameInput self.old self.new }
        ensures connections_coming { connections_coming self.new ≡ connections_coming self.old }
        ensures list { SameList self.old self.new }
        ensures disk { self.new.disk ≡ self.old.disk }
    {
        if !self.talks.talking {
            return;
        }
        let (moment, _) = self.disk.counts();
        let told = self.clock.count;
        self.kept.push_spare(Call {
            moment,
            told,
            act: Act::HungUp,
        });
        self.talks.end();
    }

    fn note(&mut self, bytes: &[u8])
        ensures noted { StillGrows (notes_of (shell_state self.old).beside)
            (notes_of (shell_state self.new).beside) bytes.now }
        ensures log { Grows (shell_state self.old).beside (shell_state self.new).beside [] }
        ensures talk { talk_of (shell_state self.new).beside
            ≡ talk_of (shell_state self.old).beside }
        ensures call { Aside (shell_state self.old) (shell_state self.new) }
        ensures moments { moments_of (shell_state self.new).beside
            ≡ moments_of (shell_state self.old).beside }
        ensures input { SameInput self.old self.new }
        ensures same { SameTalk self.old self.new }
        ensures disk { self.new.disk ≡ self.old.disk }
    {
        if self.noted.extend_from_slice(bytes).is_err() {
            self.tells_notes = false;
        }
    }

    fn now(&mut self) -> u64
        ensures range { result < CLOCK_END }
        ensures told { TellsMoments (moments_of (shell_state self.old).beside)
            (moments_of (shell_state self.new).beside) (result ∷ []) }
        ensures log { Grows (shell_state self.old).beside (shell_state self.new).beside [] }
        ensures talk { talk_of (shell_state self.new).beside
            ≡ talk_of (shell_state self.old).beside }
        ensures call { Aside (shell_state self.old) (shell_state self.new) }
        ensures notes { notes_of (shell_state self.new).beside
            ≡ notes_of (shell_state self.old).beside }

        // It tells the first moment that is left, and where none is the last one again.
        ensures moment { result ≡ next_told_moment (clock_left self.old) (last_moment self.old) }
        ensures left { clock_left self.new ≡ drop 1 (clock_left self.old) }
        ensures last { last_moment self.new ≡ result }
        ensures pieces { pieces self.new ≡ pieces self.old }
        ensures same { SameTalk self.old self.new }
        ensures disk { self.new.disk ≡ self.old.disk }
    {
        self.clock.tell()
    }
}
