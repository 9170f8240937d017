//! A trial: the requests that a seed makes are carried out one after another, and their replies summed up in four lines
//! (docs/formats/trial.md).

ghost use Rattle.std.specs.Prelude.{◌≡◌, ◌≤◌, ◌<◌, ◌+◌, ◌^◌, ◌-◌, ◌∷◌, [], ℕ, false, IfErr, OnOk, IsErrOf, MatchResult};
ghost use Rattle.std.specs.List.{before_first, after_first};
ghost use Rattle.alt_base.specs.Counts.{Rose};
ghost use Rattle.alt_disk.specs.Disk.{DiskState, Goes};
ghost use Rattle.alt_lines.specs.Trial.{generator, after_line, next_line};
ghost use Rattle.alt_machine.specs.State.{State};
ghost use Rattle.alt_shell.specs.Log.{talks};
ghost use Rattle.alt_tables.specs.FilesLeft.{most_files};
ghost use Rattle.alt_tables.specs.Stands.{AreReady, Stands, bounds_of, limits_of_tables};
ghost use Rattle.alt_talks.specs.Runs.{Stretch, Passes};
ghost use Rattle.alt_talks.specs.Works.{HasFewEntries};
ghost use Rattle.alt_run.specs.Behind.{SaysSummary};
ghost use Rattle.alt_run.specs.Trials.{trial_asks, Tries, TriesSome};
ghost use Rattle.alt_run.specs.private.Tallies.{IsTally, Counted, CountedSome};
ghost use Rattle.alt_run.specs.Turns.{request, asked_by, is_space};

use crate::lines::parts;
use crate::reply::reply_text;
use crate::tally::Tally;
use alt_disk::Disk;
use alt_lines::Trial;
use alt_shell::Shell;
use alt_tables::Tables;
use alt_talks::{RunFault, follow};
use json::Scratch;
use std::alloc::Global;

/// The moment of each request, in seconds since 1970 began in UTC.
const MOMENT: u64 = 1_700_000_000;

/// The next line of the generator, in the emptied buffer.
fn next(trial: &mut Trial, line: &mut Vec<u8>) -> Result<(), RunFault>
    ensures line { OnOk result (line.new.items ≡ next_line (generator trial.old)) }
    ensures next { OnOk result (generator trial.new ≡ after_line (generator trial.old)) }
    ensures err { IfErr result (λ fault. fault ≡ RunFault.NoMemory) }
{
    line.clear();
    match trial.request(line) {
        Ok(()) => Ok(()),
        Err(_) => Err(RunFault::NoMemory),
    }
}

/// One request is carried out, and its reply counted. Then come the server's own requests and one step of work.
fn ask<D: Disk>(
    alloc: Global,
    scratch: &mut Scratch<Global>,
    tables: &mut Tables,
    name: &[u8],
    body: &[u8],
    tally: &mut Tally,
    disk: &mut D,
) -> Result<(), RunFault>
    requires ready { AreReady (D.state disk.old) tables.old }
    requires good { tally.old.good < 2 ^ 32 - 1 }
    requires bad { tally.old.bad < 2 ^ 32 - 1 }
    ensures counted { (s : State) → Stands (D.state disk.old) tables.old s → MatchResult result
        (λ _. Counted s (request name.now body.now ∷ []) tally.old tally.new
        (D.state disk.old) (D.state disk.new) tables.new)
        (λ f. CountedSome f (bounds_of tables.old).file s (request name.now body.now ∷ [])
        (D.state disk.old) (D.state disk.new)) }
    ensures good { OnOk result (tally.new.good ≤ tally.old.good + 1) }
    ensures bad { OnOk result (tally.new.bad ≤ tally.old.bad + 1) }
    ensures limits { limits_of_tables tables.new ≡ limits_of_tables tables.old }
    ensures files { (s : State) → Stands (D.state disk.old) tables.old s → OnOk result
        ((bounds_of tables.new).file ≤ (bounds_of tables.old).file + most_files) }
    ensures few { OnOk result (HasFewEntries (limits_of_tables tables.old).flush (D.state disk.new)) }
    ensures cause { IsErrOf result RunFault.Failed
        → Rose (D.state disk.old).faults (D.state disk.new).faults }
    ensures goes { Goes (D.state disk.old) (D.state disk.new) }
{
    match reply_text(alloc, scratch, tables, disk, name, body, MOMENT) {
        Ok(text) => tally.count(text.as_bytes()),
        Err(fault) => return Err(fault),
    }
    match follow(tables, disk, true) {
        Ok(()) => Ok(()),
        Err(fault) => Err(fault),
    }
}

/// So is the request of a line.
fn ask_line<D: Disk>(
    alloc: Global,
    scratch: &mut Scratch<Global>,
    tables: &mut Tables,
    line: &[u8],
    tally: &mut Tally,
    disk: &mut D,
) -> Result<(), RunFault>
    requires ready { AreReady (D.state disk.old) tables.old }
    requires good { tally.old.good < 2 ^ 32 - 1 }
    requires bad { tally.old.bad < 2 ^ 32 - 1 }
    ensures counted { (s : State) → Stands (D.state disk.old) tables.old s → MatchResult result
        (λ _. Counted s
        (request (before_first is_space line.now) (after_first is_space line.now) ∷ [])
        tally.old tally.new (D.state disk.old) (D.state disk.new) tables.new)
        (λ f. CountedSome f (bounds_of tables.old).file s
        (request (before_first is_space line.now) (after_first is_space line.now) ∷ [])
        (D.state disk.old) (D.state disk.new)) }
    ensures good { OnOk result (tally.new.good ≤ tally.old.good + 1) }
    ensures bad { OnOk result (tally.new.bad ≤ tally.old.bad + 1) }
    ensures limits { limits_of_tables tables.new ≡ limits_of_tables tables.old }
    ensures files { (s : State) → Stands (D.state disk.old) tables.old s → OnOk result
        ((bounds_of tables.new).file ≤ (bounds_of tables.old).file + most_files) }
    ensures few { OnOk result (HasFewEntries (limits_of_tables tables.old).flush (D.state disk.new)) }
    ensures cause { IsErrOf result RunFault.Failed
        → Rose (D.state disk.old).faults (D.state disk.new).faults }
    ensures goes { Goes (D.state disk.old) (D.state disk.new) }
{
    let (name, body) = parts(line);
    ask(alloc, scratch, tables, name, body, tally, disk)
}

/// The next request of the generator is carried out, and its reply counted.
fn step<D: Disk>(
    alloc: Global,
    scratch: &mut Scratch<Global>,
    tables: &mut Tables,
    trial: &mut Trial,
    line: &mut Vec<u8>,
    tally: &mut Tally,
    disk: &mut D,
) -> Result<(), RunFault>
    requires ready { AreReady (D.state disk.old) tables.old }
    requires good { tally.old.good < 2 ^ 32 - 1 }
    requires bad { tally.old.bad < 2 ^ 32 - 1 }
    ensures counted { (s : State) → Stands (D.state disk.old) tables.old s → MatchResult result
        (λ _. Counted s (asked_by (next_line (generator trial.old)) ∷ []) tally.old tally.new
        (D.state disk.old) (D.state disk.new) tables.new)
        (λ f. CountedSome f (bounds_of tables.old).file s
        (asked_by (next_line (generator trial.old)) ∷ [])
        (D.state disk.old) (D.state disk.new)) }
    ensures next { OnOk result (generator trial.new ≡ after_line (generator trial.old)) }
    ensures good { OnOk result (tally.new.good ≤ tally.old.good + 1) }
    ensures bad { OnOk result (tally.new.bad ≤ tally.old.bad + 1) }
    ensures limits { limits_of_tables tables.new ≡ limits_of_tables tables.old }
    ensures files { (s : State) → Stands (D.state disk.old) tables.old s → OnOk result
        ((bounds_of tables.new).file ≤ (bounds_of tables.old).file + most_files) }
    ensures few { OnOk result (HasFewEntries (limits_of_tables tables.old).flush (D.state disk.new)) }
    ensures cause { IsErrOf result RunFault.Failed
        → Rose (D.state disk.old).faults (D.state disk.new).faults }
    ensures goes { Goes (D.state disk.old) (D.state disk.new) }
{
    match next(trial, line) {
        Ok(()) => ask_line(alloc, scratch, tables, line, tally, disk),
        Err(fault) => Err(fault),
    }
}

/// So many requests of a seed are carried out, and their replies counted. The clock isn't asked.
fn requests<D: Disk>(
    alloc: Global,
    tables: &mut Tables,
    seed: u64,
    count: u32,
    disk: &mut D,
) -> Result<Tally, RunFault>
    requires ready { AreReady (D.state disk.old) tables.old }
    ensures counted { (s : State) → Stands (D.state disk.old) tables.old s → MatchResult result
        (λ tally. (none : Tally) × IsTally none [] × Counted s (trial_asks seed count) none tally
        (D.state disk.old) (D.state disk.new) tables.new)
        (λ f. CountedSome f (bounds_of tables.old).file s (trial_asks seed count)
        (D.state disk.old) (D.state disk.new)) }
    ensures few { 0 < count
        → OnOk result (HasFewEntries (limits_of_tables tables.old).flush (D.state disk.new)) }
    ensures cause { IsErrOf result RunFault.Failed
        → Rose (D.state disk.old).faults (D.state disk.new).faults }
    ensures goes { Goes (D.state disk.old) (D.state disk.new) }
{
    let mut trial = Trial::new(seed);
    let mut line = Vec::new(alloc);
    let mut tally = Tally::new();
    let mut scratch = Scratch::new(alloc);
    'requests: for _ in 0..count {
        match step(
            alloc,
            &mut scratch,
            tables,
            &mut trial,
            &mut line,
            &mut tally,
            disk,
        ) {
            Ok(()) => {}
            Err(fault) => return Err(fault),
        }
    }
    Ok(tally)
}

/// The four lines that sum up so many requests are said.
fn tell<S: Shell>(alloc: Global, tally: Tally, count: u32, shell: &mut S) -> Result<(), RunFault>
    requires quiet { talks (S.state shell.old).beside ≡ false }
    ensures told { (old : DiskState) (s : State) (seed : ℕ) (tables : Tables) (none : Tally)
        (next : ℕ) → IsTally none [] → Goes old (S.state shell.old)
        → Counted s (trial_asks seed count) none tally old (S.state shell.old) tables
        → MatchResult result
        (λ _. Stretch old (S.state shell.new) (Tries s seed count))
        (λ f. Stretch old (S.state shell.new) (TriesSome f next s seed count)) }
    ensures said { OnOk result (SaysSummary count (S.state shell.old) (S.state shell.new)) }
    ensures few { (flush : ℕ) → HasFewEntries flush (S.state shell.old)
        → OnOk result (HasFewEntries flush (S.state shell.new)) }
    ensures cause { IsErrOf result RunFault.Failed
        → Rose (S.state shell.old).faults (S.state shell.new).faults }
    ensures passes { Passes (S.state shell.old) (S.state shell.new) }
{
    let Ok(text) = tally.summary(alloc, count) else {
        return Err(RunFault::NoMemory);
    };
    match shell.say(text.as_bytes()) {
        Ok(()) => Ok(()),
        Err(_) => Err(RunFault::Failed),
    }
}

/// A trial over the tables of an open store: so many requests of a seed, and then the four lines that sum up their replies.
pub(crate) fn carry_out_trial<S: Shell>(
    alloc: Global,
    tables: &mut Tables,
    seed: u64,
    count: u32,
    shell: &mut S,
) -> Result<(), RunFault>
    requires ready { AreReady (S.state shell.old) tables.old }
    requires quiet { talks (S.state shell.old).beside ≡ false }
    ensures tried { (s : State) → Stands (S.state shell.old) tables.old s → MatchResult result
        (λ _. Stretch (S.state shell.old) (S.state shell.new) (Tries s seed count))
        (λ f. Stretch (S.state shell.old) (S.state shell.new)
        (TriesSome f (bounds_of tables.old).file s seed count)) }
    ensures said { OnOk result (SaysSummary count (S.state shell.old) (S.state shell.new)) }
    ensures few { 0 < count
        → OnOk result (HasFewEntries (limits_of_tables tables.old).flush (S.state shell.new)) }
    ensures cause { IsErrOf result RunFault.Failed
        → Rose (S.state shell.old).faults (S.state shell.new).faults }
    ensures passes { Passes (S.state shell.old) (S.state shell.new) }
{
    match requests(alloc, tables, seed, count, shell) {
        Ok(tally) => tell(alloc, tally, count, shell),
        Err(fault) => Err(fault),
    }
}
