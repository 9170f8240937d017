//! The calls of a shell in memory, step by step: each starts, takes effect where it may, and else is told as failed.

ghost use Rattle.std.specs.Prelude.{◌≡◌, ◌<◌, ◌≤◌, ◌^◌, ◌++◌, ◌∷◌, [], take, length, true, false, IfOk, MatchResult};
ghost use Rattle.alt_base.specs.Counts.{Rose};
ghost use Rattle.alt_disk.specs.MemoryState.{state_of};
ghost use Rattle.alt_shell.specs.Log.{taken};

use crate::kept::{Act, Call, Missed, Stream};
use crate::memory::{LIFE, MemoryShell};
use alt_base::NoMemory;
use alt_disk::Failed;

impl MemoryShell {
    ghost use Rattle.std.specs.Prelude.{ℕ, ◌⊎◌, ◌↔◌, ◌-◌, None, MatchOption, IfSome, if◌then◌else◌};
    ghost use Rattle.alt_disk.specs.MemoryState.{fails_at};
    ghost use Rattle.alt_shell.specs.Calls.{ShellCall, Adds, Accepted};
    ghost use Rattle.alt_shell.specs.Kept.{failed_of, fails_of};
    ghost use Rattle.alt_shell.specs.Log.{entry, took, said, none_came, accepted, talk_head};
    ghost use Rattle.alt_shell.specs.Pieces.{bytes_given_by_take, pieces_behind};
    ghost use Rattle.alt_shell.specs.Memory.{shell_state, pieces, connections_coming, talk_pieces, at_hand, aside, entries_by, streams};
    ghost use Rattle.alt_shell.specs.Memory.{connections_added, talk_calls, fails_now, CallCounted, SameNotes, SameRest, SameList, Unmoved, NextOf};
    ghost use Rattle.alt_shell.specs.States.{told_by, head_of_talk};
    ghost use Rattle.alt_shell.specs.Steps.{Starts, CallFails};

    // Takes the moment of a call, and says whether it may go on. In a talk the list of talk calls alone decides, else that of the disk.
    fn start(&mut self) -> bool
        ensures starts { Starts (shell_state self.old) (shell_state self.new) }
        ensures last { 2 ^ 64 - 1 ≤ (state_of self.old.disk).moment → result ≡ false }
        ensures talks { self.new.talks ≡ record self.old.talks { calls = self.new.talks.calls } }
        ensures stays { (self.new.kept ≡ self.old.kept) × (self.new.clock ≡ self.old.clock) × (self.new.noted ≡ self.old.noted)
            × (self.new.tells_notes ≡ self.old.tells_notes) }
        ensures calls { CallCounted self.old self.new }
        ensures to_fail { fails_now self.old ≡ true → result ≡ false }
        ensures fails { (t : ℕ) → fails_at self.new.disk t ≡ fails_at self.old.disk t }
    {
        let (before, _) = self.disk.counts();
        let ticked = self.disk.tick();
        if self.talks.talking {
            let to_fail = self.talks.count();
            return before < u64::MAX && !to_fail;
        }
        ticked.is_ok()
    }

    // Takes from the stream at hand. Where it may not, or where there is no memory, nothing happens but the start of the call.
    pub(crate) fn try_take(&mut self, buf: &mut [u8]) -> Option<usize>
        requires { 0 < length buf.old }
        ensures call { MatchOption result (Starts (shell_state self.old) (shell_state self.new))
            (λ n. ShellCall (shell_state self.old) (shell_state self.new) true
            × Adds (shell_state self.old) (shell_state self.new) (took (take n buf.new))) }
        ensures head { head_of_talk self.new.talks ≡ head_of_talk self.old.talks }
        ensures rest { SameRest self.old self.new }
        ensures count { IfSome result (λ n. n ≤ length buf.new) }
        ensures gives { MatchOption result (at_hand self.new ≡ at_hand self.old)
            (λ n. (take n buf.new ≡ bytes_given_by_take (at_hand self.old) (length buf.old))
            × (at_hand self.new ≡ pieces_behind (at_hand self.old) (length buf.old))) }
        ensures aside { aside self.new ≡ aside self.old }
        ensures end { IfSome result (λ n. (n ≡ 0) ↔ (at_hand self.old ≡ [])) }
        ensures life { length (taken (entries_by self.new)) ≤ 2 ^ 62 }
        ensures to_fail { fails_now self.old ≡ true → result ≡ None }
        ensures last { 2 ^ 64 - 1 ≤ (state_of self.old.disk).moment → result ≡ None }
        ensures calls { CallCounted self.old self.new }
        ensures fails { (t : ℕ) → fails_at self.new.disk t ≡ fails_at self.old.disk t }
    {
        if !self.start() {
            return None;
        }
        self.give(buf).ok()
    }

    // Gives bytes of the first piece at hand, and keeps the call. After an error nothing has changed.
    fn give(&mut self, buf: &mut [u8]) -> Result<usize, NoMemory>
        requires { 0 < length buf.old }
        ensures disk { self.new.disk ≡ self.old.disk }
        ensures faults { self.new.faults ≡ self.old.faults }
        ensures head { head_of_talk self.new.talks ≡ head_of_talk self.old.talks }
        ensures calls { talk_calls self.new ≡ talk_calls self.old }
        ensures rest { SameRest self.old self.new }
        ensures count { IfOk result (λ n. n ≤ length buf.new) }
        ensures log { MatchResult result
            (λ n. entries_by self.new ≡ entries_by self.old
            ++ entry (state_of self.old.disk).moment (length (told_by self.old.clock))
            (took (take n buf.new)) ∷ [])
            (λ _. entries_by self.new ≡ entries_by self.old) }
        ensures life { length (taken (entries_by self.new)) ≤ 2 ^ 62 }
        ensures gives { MatchResult result
            (λ n. (take n buf.new ≡ bytes_given_by_take (at_hand self.old) (length buf.old))
            × (at_hand self.new ≡ pieces_behind (at_hand self.old) (length buf.old)))
            (λ _. at_hand self.new ≡ at_hand self.old) }
        ensures aside { aside self.new ≡ aside self.old }
        ensures end { IfOk result (λ n. (n ≡ 0) ↔ (at_hand self.old ≡ [])) }
    {
        let (bytes, rest) = self.talks.parts(buf.len())?;
        let count = bytes.len();
        if count as u64 > LIFE - self.given {
            return Err(NoMemory);
        }
        buf[..count].copy_from_slice(&bytes);
        let (moment, _) = self.disk.counts();
        let told = self.clock.count;
        self.kept.push(Call {
            moment,
            told,
            act: Act::Took(bytes),
        })?;
        self.given += count as u64;
        self.talks.advance(count == 0, rest);
        Ok(count)
    }

    // Says the bytes on the stream at hand. Where it may not, or where there is no memory, nothing happens but the start of the call.
    pub(crate) fn try_say(&mut self, bytes: &[u8]) -> Option<()>
        ensures call { MatchOption result (Starts (shell_state self.old) (shell_state self.new))
            (λ _. ShellCall (shell_state self.old) (shell_state self.new) true
            × Adds (shell_state self.old) (shell_state self.new) (said bytes.now)) }
        ensures head { head_of_talk self.new.talks ≡ head_of_talk self.old.talks }
        ensures rest { SameRest self.old self.new }
        ensures pieces { (pieces self.new ≡ pieces self.old)
            × (talk_pieces self.new ≡ talk_pieces self.old) }
        ensures streams { result ≡ None → streams self.new ≡ streams self.old }
        ensures life { length (taken (entries_by self.new)) ≤ 2 ^ 62 }
        ensures to_fail { fails_now self.old ≡ true → result ≡ None }
        ensures last { 2 ^ 64 - 1 ≤ (state_of self.old.disk).moment → result ≡ None }
        ensures calls { CallCounted self.old self.new }
        ensures fails { (t : ℕ) → fails_at self.new.disk t ≡ fails_at self.old.disk t }
    {
        if !self.start() {
            return None;
        }
        self.keep(bytes).ok()
    }

    // Says the bytes, and keeps the call. After an error nothing has changed.
    pub(crate) fn keep(&mut self, bytes: &[u8]) -> Result<(), NoMemory>
        ensures disk { self.new.disk ≡ self.old.disk }
        ensures faults { self.new.faults ≡ self.old.faults }
        ensures head { head_of_talk self.new.talks ≡ head_of_talk self.old.talks }
        ensures calls { talk_calls self.new ≡ talk_calls self.old }
        ensures rest { SameRest self.old self.new }
        ensures log { MatchResult result
            (λ _. entries_by self.new ≡ entries_by self.old
            ++ entry (state_of self.old.disk).moment (length (told_by self.old.clock))
            (said bytes.now) ∷ [])
            (λ _. entries_by self.new ≡ entries_by self.old) }
        ensures pieces { (pieces self.new ≡ pieces self.old)
            × (talk_pieces self.new ≡ talk_pieces self.old) }
        ensures life { length (taken (entries_by self.new)) ≤ 2 ^ 62 }
    {
        let act = Act::Said(Vec::from_slice(self.alloc, bytes)?);
        let (moment, _) = self.disk.counts();
        let told = self.clock.count;
        self.kept.reserve()?;
        self.talks.say(bytes)?;
        self.kept.push_spare(Call { moment, told, act });
        Ok(())
    }

    // Fails a call of this kind, which was begun at the last moment or not.
    pub(crate) fn fail(&mut self, stream: Stream, last: bool) -> Failed
        ensures fails { CallFails (shell_state self.old) (shell_state self.new) last stream }
        ensures stays { Unmoved self.old self.new }
    {
        if self.talks.talking {
            self.miss_in_talk(stream);
            return Failed;
        }
        if !last {
            self.miss(stream);
        }
        self.fault()
    }

    // Tells that a call of this kind failed in the talk, where it is the first, and counts it.
    fn miss_in_talk(&mut self, stream: Stream)
        requires { self.old.talks.talking ≡ true }
        ensures fails { CallFails (shell_state self.old) (shell_state self.new) false stream }
        ensures fails_last { CallFails (shell_state self.old) (shell_state self.new) true stream }
        ensures stays { Unmoved self.old self.new }
    {
        let (moment, _) = self.disk.counts();
        let told = self.clock.count;
        if self.talks.missed(stream) {
            self.talks.miss(stream);
            return;
        }
        self.kept.push_spare(Call {
            moment,
            told,
            act: Act::Failed(stream),
        });
        self.talks.miss(stream);
    }

    // Tells that a call of this kind failed on a standard stream, where it is the first.
    fn miss(&mut self, stream: Stream)
        requires { self.old.talks.talking ≡ false }
        ensures told { (entries_by self.new ≡ entries_by self.old
            ++ entry (state_of self.old.disk).moment (length (told_by self.old.clock))
            (failed_of stream) ∷ [])
            ⊎ ((fails_of stream (entries_by self.old) ≡ true)
            × (entries_by self.new ≡ entries_by self.old)) }
        ensures stays { Unmoved self.old self.new }
        ensures talks { self.new.talks ≡ self.old.talks }
        ensures faults { self.new.faults ≡ self.old.faults }
    {
        let (moment, _) = self.disk.counts();
        let told = self.clock.count;
        self.kept.miss(Missed {
            moment,
            told,
            stream,
        });
    }

    // A fault, and nothing else.
    pub(crate) fn fault(&mut self) -> Failed
        ensures stays { self.new ≡ record self.old { faults = self.new.faults } }
        ensures later { self.old.faults ≤ self.new.faults }
        ensures rose { Rose self.old.faults self.new.faults }
    {
        self.faults = raised(self.faults);
        Failed
    }

    // Waits for a connection. Where it may not, or where there is no memory, nothing happens but the start of the call.
    pub(crate) fn try_accept(&mut self) -> Option<bool>
        requires { self.old.talks.talking ≡ false }
        ensures call { MatchOption result (Starts (shell_state self.old) (shell_state self.new))
            (λ came. ShellCall (shell_state self.old) (shell_state self.new) true
            × Accepted (shell_state self.old) (shell_state self.new) came) }
        ensures none { result ≡ None → head_of_talk self.new.talks ≡ head_of_talk self.old.talks }
        ensures next { MatchOption result ((connections_coming self.new ≡ connections_coming self.old)
            × (talk_pieces self.new ≡ talk_pieces self.old))
            (λ came. NextOf (connections_coming self.old) self.old self.new came) }
        ensures connections_added { connections_added self.new ≡ connections_added self.old }
        ensures pieces { pieces self.new ≡ pieces self.old }
        ensures clock { self.new.clock ≡ self.old.clock }
        ensures notes { SameNotes self.old self.new }
        ensures list { SameList self.old self.new }
        ensures life { length (taken (entries_by self.new)) ≤ 2 ^ 62 }
        ensures to_fail { fails_now self.old ≡ true → result ≡ None }
        ensures last { 2 ^ 64 - 1 ≤ (state_of self.old.disk).moment → result ≡ None }
        ensures fails { (t : ℕ) → fails_at self.new.disk t ≡ fails_at self.old.disk t }
    {
        if !self.start() {
            return None;
        }
        self.greet().ok()
    }

    // Begins a talk on the first connection, or tells that none will come. After an error nothing has changed.
    fn greet(&mut self) -> Result<bool, NoMemory>
        requires { self.old.talks.talking ≡ false }
        ensures disk { self.new.disk ≡ self.old.disk }
        ensures faults { self.new.faults ≡ self.old.faults }
        ensures log { MatchResult result
            (λ came. entries_by self.new ≡ entries_by self.old
            ++ entry (state_of self.old.disk).moment (length (told_by self.old.clock))
            (if came then accepted else none_came) ∷ [])
            (λ _. entries_by self.new ≡ entries_by self.old) }
        ensures head { MatchResult result
            (λ came. head_of_talk self.new.talks ≡ (if came then talk_head true self.old.talks.faults 0 0
            else head_of_talk self.old.talks))
            (λ _. head_of_talk self.new.talks ≡ head_of_talk self.old.talks) }
        ensures next { MatchResult result
            (λ came. NextOf (connections_coming self.old) self.old self.new came)
            (λ _. (connections_coming self.new ≡ connections_coming self.old)
            × (talk_pieces self.new ≡ talk_pieces self.old)) }
        ensures connections_added { connections_added self.new ≡ connections_added self.old }
        ensures pieces { pieces self.new ≡ pieces self.old }
        ensures clock { self.new.clock ≡ self.old.clock }
        ensures notes { SameNotes self.old self.new }
        ensures list { SameList self.old self.new }
        ensures life { length (taken (entries_by self.new)) ≤ 2 ^ 62 }
    {
        let came = !self.talks.coming.is_empty();
        let (moment, _) = self.disk.counts();
        let told = self.clock.count;
        let act = if came { Act::Accepted } else { Act::NoneCame };
        self.kept.push(Call { moment, told, act })?;
        if came {
            self.talks.begin();
        }
        Ok(came)
    }
}

// A count of faults after one more.
pub(crate) fn raised(faults: u64) -> u64
    ensures rose { Rose faults result }
    ensures later { faults ≤ result }
{
    faults.saturating_add(1)
}
