//! The calls that a shell in memory keeps. The first failed call of each standard stream takes no memory: it stands in a field of its own,
//! between the calls before it and those behind it. A talk keeps room free for the calls that are to take none in it.

ghost use Rattle.std.specs.Prelude.{◌≡◌, ◌||◌, true, false, length, is_some};
ghost use Rattle.alt_shell.specs.Log.{takes_failed, says_failed};
ghost use Rattle.alt_shell.specs.Kept.{call_entries, last_part, CallsHaveRoom};

use alt_base::NoMemory;
use std::alloc::Global;

/// What a call did.
#[derive(Drop)]
pub(crate) enum Act {
    Took(Vec<u8>),
    Said(Vec<u8>),
    Failed(Stream),
    Accepted,
    NoneCame,
    HungUp,
}

/// A call, with the moment at which it ended and how many moments had been told.
#[derive(Drop)]
pub(crate) struct Call {
    pub(crate) moment: u64,
    pub(crate) told: u64,
    pub(crate) act: Act,
}

/// Which way the bytes of a stream go.
#[derive(Clone, Copy, Drop)]
pub(crate) enum Stream {
    Input,
    Output,
}

/// A call of a standard stream that failed, with the moment at which it ended and how many moments had been told.
#[derive(Clone, Copy, Drop)]
pub(crate) struct Missed {
    pub(crate) moment: u64,
    pub(crate) told: u64,
    pub(crate) stream: Stream,
}

/// The calls in the order in which they were made: those before the first failure of a standard stream, that failure, those up to the
/// first failure of the other one, that failure, and those behind it. `spare` calls more can be kept without memory.
#[derive(Drop)]
pub(crate) struct Kept {
    pub(crate) before: Vec<Call>,
    pub(crate) first: Option<Missed>,
    pub(crate) between: Vec<Call>,
    pub(crate) second: Option<Missed>,
    pub(crate) behind: Vec<Call>,
    pub(crate) take_failed: bool,
    pub(crate) say_failed: bool,
    pub(crate) spare: usize,
    ghost one_first: { is_some first ≡ false → length between.items ≡ 0 },
    ghost then_other: { is_some first ≡ false → is_some second ≡ false },
    ghost none_behind: { is_some second ≡ false → length behind.items ≡ 0 },
    ghost has_first: { is_some first ≡ true → (take_failed || say_failed) ≡ true },
    ghost no_third: { is_some second ≡ true → (take_failed ≡ true) × (say_failed ≡ true) },
    ghost takes: { take_failed ≡ true → takes_failed
        (call_entries before.items first between.items second behind.items) ≡ true },
    ghost says: { say_failed ≡ true → says_failed
        (call_entries before.items first between.items second behind.items) ≡ true },
    ghost room: { CallsHaveRoom spare (last_part before first between second behind) },
}

impl Kept {
    ghost use Rattle.std.specs.Prelude.{◌<◌, ◌+◌, [], ◌∷◌, ◌++◌, ◌⊎◌, MatchResult, OnOk, OnErr};
    ghost use Rattle.alt_shell.specs.Kept.{call_entry, entry_of_missed, fails_of};
    ghost use Rattle.alt_shell.specs.States.{kept_entries};

    /// No calls.
    pub(crate) fn new(alloc: Global) -> Self
        ensures entries { kept_entries result ≡ [] }
        ensures spare { result.spare ≡ 0 }
    {
        Kept {
            before: Vec::new(alloc),
            first: None,
            between: Vec::new(alloc),
            second: None,
            behind: Vec::new(alloc),
            take_failed: false,
            say_failed: false,
            spare: 0,
        }
    }

    /// Adds a call. After an error nothing was added, else three are spare, as many as a talk may need.
    pub(crate) fn push(&mut self, call: Call) -> Result<(), NoMemory>
        ensures ok { OnOk result (kept_entries self.new
            ≡ kept_entries self.old ++ call_entry call ∷ []) }
        ensures err { OnErr result (kept_entries self.new ≡ kept_entries self.old) }
        ensures spare { MatchResult result (λ _. self.new.spare ≡ 3)
            (λ _. self.new.spare ≡ self.old.spare) }
    {
        self.reserve()?;
        self.push_spare(call);
        Ok(())
    }

    /// Takes the memory for one call and for the three that a talk may need without: its first failed take, its first failed say, and
    /// its end.
    pub(crate) fn reserve(&mut self) -> Result<(), NoMemory>
        ensures entries { kept_entries self.new ≡ kept_entries self.old }
        ensures spare { MatchResult result (λ _. self.new.spare ≡ 4)
            (λ _. self.new.spare ≡ self.old.spare) }
    {
        if self.second.is_some() {
            self.behind.reserve(4)?;
        } else if self.first.is_some() {
            self.between.reserve(4)?;
        } else {
            self.before.reserve(4)?;
        }
        self.spare = 4;
        Ok(())
    }

    /// Adds a call by one that was spare.
    pub(crate) fn push_spare(&mut self, call: Call)
        requires { 0 < self.old.spare }
        ensures entries { kept_entries self.new ≡ kept_entries self.old ++ call_entry call ∷ [] }
        ensures spare { self.new.spare + 1 ≡ self.old.spare }
    {
        self.spare -= 1;
        if self.second.is_some() {
            self.behind.push_reserved(call);
        } else if self.first.is_some() {
            self.between.push_reserved(call);
        } else {
            self.before.push_reserved(call);
        }
    }

    /// Adds a call that failed, where it is the first of its standard stream. It takes no memory.
    pub(crate) fn miss(&mut self, missed: Missed)
        ensures { (kept_entries self.new ≡ kept_entries self.old ++ entry_of_missed missed ∷ [])
            ⊎ ((fails_of missed.stream (kept_entries self.old) ≡ true)
            × (kept_entries self.new ≡ kept_entries self.old)) }
    {
        let seen = match missed.stream {
            Stream::Input => self.take_failed,
            Stream::Output => self.say_failed,
        };
        if seen {
            return;
        }
        match missed.stream {
            Stream::Input => self.take_failed = true,
            Stream::Output => self.say_failed = true,
        }
        self.spare = 0;
        if self.first.is_none() {
            self.first = Some(missed);
        } else {
            self.second = Some(missed);
        }
    }
}
