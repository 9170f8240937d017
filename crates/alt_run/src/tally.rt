//! What is counted of the replies of a trial.

ghost use Rattle.std.specs.Prelude.{◌≡◌, ◌≤◌, ◌<◌, ◌+◌, ◌^◌, ◌-◌, ◌++◌, ◌∷◌, [], List, length, nat_eq, IfOk, string_bytes};
ghost use Rattle.std.specs.List.{starts_with};
ghost use Rattle.alt_run.specs.Trials.{IsSummary, beginning, summary};
ghost use Rattle.alt_run.specs.private.Tallies.{IsTally};
ghost use Rattle.alt_talks.specs.Turns.{Turn};

use alt_base::NoMemory;
use sha2::{Digest, Sha256};
use std::alloc::Global;

/// How many replies had the statuses 200 and 400, and the hasher that holds the lines of all.
#[derive(Drop)]
pub(crate) struct Tally {
    pub(crate) good: u32,
    pub(crate) bad: u32,
    pub(crate) hasher: Sha256,
}

fn begins(line: &[u8], front: &[u8]) -> bool
    ensures { result ≡ starts_with nat_eq line.now front.now }
{
    line.starts_with(front)
}

/// How many lines begin so, with one line more.
fn counted(line: &[u8], front: &[u8], count: u32) -> u32
    requires { count < 2 ^ 32 - 1 }
    ensures counted { (ts : List Turn) (t : Turn) → line.now ≡ t.text
        → count ≡ length (beginning front.now ts)
        → result ≡ length (beginning front.now (ts ++ t ∷ [])) }
    ensures few { result ≤ count + 1 }
{
    if begins(line, front) {
        count + 1
    } else {
        count
    }
}

impl Tally {
    /// Nothing was counted yet.
    pub(crate) fn new() -> Tally
        ensures none { IsTally result [] }
        ensures good { result.good ≡ 0 }
        ensures bad { result.bad ≡ 0 }
    {
        Tally {
            good: 0,
            bad: 0,
            hasher: Sha256::new(),
        }
    }

    /// Counts a reply by its line, which begins with the status and a space.
    pub(crate) fn count(&mut self, line: &[u8])
        requires good { self.old.good < 2 ^ 32 - 1 }
        requires bad { self.old.bad < 2 ^ 32 - 1 }
        ensures counted { (ts : List Turn) (t : Turn) → line.now ≡ t.text → IsTally self.old ts
            → IsTally self.new (ts ++ t ∷ []) }
        ensures good { self.new.good ≤ self.old.good + 1 }
        ensures bad { self.new.bad ≤ self.old.bad + 1 }
    {
        self.good = counted(line, b"200 ", self.good);
        self.bad = counted(line, b"400 ", self.bad);
        self.hasher.update(line);
    }

    /// The four lines that sum up so many requests.
    pub(crate) fn summary(self, alloc: Global, count: u32) -> Result<String, NoMemory>
        ensures counted { (ts : List Turn) → IsTally self ts
            → IfOk result (λ text. string_bytes text ≡ summary count ts) }
        ensures form { IfOk result (λ text. IsSummary count (string_bytes text)) }
    {
        let Tally { good, bad, hasher } = self;
        let digest = hasher.finalize();
        let replies = hex::encode(alloc, digest)?;
        Ok(format!(in alloc; "requests {count}\n200 {good}\n400 {bad}\nreplies {replies}\n")?)
    }
}
