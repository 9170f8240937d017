//! A clock in memory: moments to tell, and those that it told, as runs of one moment, so that it takes no memory to tell one.

ghost use Rattle.std.specs.Prelude.{◌≡◌, ◌<◌, ◌≤◌, ◌+◌, length};
ghost use Rattle.std.specs.List.{All};
ghost use Rattle.std.specs.Vec.{vec_capacity};
ghost use Rattle.alt_shell.specs.declared.shell.TheConstants.{CLOCK_END};
ghost use Rattle.alt_shell.specs.Told.{told_in};

use crate::shell::CLOCK_END;
use alt_base::NoMemory;
use std::alloc::Global;
use std::collections::VecDeque;

/// A moment, and how often in a row it was told.
#[derive(Drop)]
pub struct Told {
    pub moment: u64,
    pub times: u64,
}

/// The moments to tell, the last one told and how often it was told, and those told before it.
#[derive(Drop)]
pub struct Clock {
    pub(crate) past: Vec<Told>,
    pub(crate) times: u64,
    pub(crate) last: u64,
    pub(crate) count: u64,
    pub(crate) ahead: VecDeque<u64>,
    ghost below: { last < CLOCK_END },
    ghost all_below: { All (λ t. t < CLOCK_END) ahead.items },
    ghost room: { length past.items + length ahead.items ≤ vec_capacity past },
    ghost counted: { count ≡ length (told_in past.items times last) },
}

impl Clock {
    ghost use Rattle.std.specs.Prelude.{[], ◌∷◌, ◌++◌, drop, IfOk, OnErr};
    ghost use Rattle.alt_shell.specs.Pieces.{next_told_moment};
    ghost use Rattle.alt_shell.specs.States.{told_by};
    ghost use Rattle.alt_shell.specs.Log.{with_told};

    /// A clock without moments.
    pub(crate) fn new(alloc: Global) -> Self
        ensures told { told_by result ≡ [] }
        ensures ahead { result.ahead.items ≡ [] }
        ensures last { result.last ≡ 0 }
    {
        Clock {
            past: Vec::new(alloc),
            times: 0,
            last: 0,
            count: 0,
            ahead: VecDeque::new(alloc),
        }
    }

    /// Adds a moment to tell.
    pub(crate) fn add(&mut self, moment: u64) -> Result<(), NoMemory>
        requires { moment < CLOCK_END }
        ensures ok { IfOk result (λ _. self.new.ahead.items ≡ self.old.ahead.items ++ moment ∷ []) }
        ensures err { OnErr result (self.new.ahead.items ≡ self.old.ahead.items) }
        ensures told { told_by self.new ≡ told_by self.old }
        ensures last { self.new.last ≡ self.old.last }
    {
        let Some(room) = self.ahead.len().checked_add(1) else {
            return Err(NoMemory);
        };
        self.past.reserve(room)?;
        self.ahead.push_back(moment)?;
        Ok(())
    }

    /// Tells the first moment that is left, and where none is the last one again.
    pub(crate) fn tell(&mut self) -> u64
        ensures moment { result ≡ next_told_moment self.old.ahead.items self.old.last }
        ensures left { self.new.ahead.items ≡ drop 1 self.old.ahead.items }
        ensures last { self.new.last ≡ result }
        ensures told { told_by self.new ≡ with_told (told_by self.old) (result ∷ []) }
        ensures range { result < CLOCK_END }
    {
        let more = (u64::MAX - self.count).min(1);
        self.count += more;
        let Some(moment) = self.ahead.pop_front() else {
            self.times += more;
            return self.last;
        };
        self.past.push_reserved(Told {
            moment: self.last,
            times: self.times,
        });
        self.last = moment;
        self.times = more;
        moment
    }
}
