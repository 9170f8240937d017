//! A run of the program, but for what `main` takes off the front.

ghost use Rattle.std.specs.Prelude.{◌≡◌, ◌≢◌, ◌⊎◌, ◌↔◌, ◌<◌, ℕ, List, Option, true, false, Some, None, length, IsTrue, IfOk, OnOk, IsErrOf, MatchResult};
ghost use Rattle.alt_base.specs.Counts.{Rose};
ghost use Rattle.alt_disk.specs.Disk.{IsTrusted};
ghost use Rattle.alt_disk.specs.Runs.{Quiet};
ghost use Rattle.alt_machine.specs.State.{State};
ghost use Rattle.alt_shell.specs.Log.{talks};
ghost use Rattle.alt_tables.specs.FilesLeft.{IsFirstGiven};
ghost use Rattle.alt_tables.specs.Stands.{AreReady, Stands, bounds_of, limits_of_tables};
ghost use Rattle.alt_run.specs.Endings.{Ended, HasDone, HasRun, Done, Broken, IsReadable, LacksNumber};
ghost use Rattle.alt_run.specs.Faults.{IsUnreadable};
ghost use Rattle.alt_run.specs.Behind.{AfterJob, ComesWithin, LastLine};
ghost use Rattle.alt_talks.specs.Arrivals.{CameAll, CameAtMost};
ghost use Rattle.alt_talks.specs.Runs.{Stretch, Passes};
ghost use Rattle.alt_run.specs.Runs.{AnswersAllLines, AnswersSomeLines, IsOpening, Opened};
ghost use Rattle.alt_talks.specs.TalkRules.{talk_rules};
ghost use Rattle.alt_talks.specs.TalkStops.{LeavesNow, ServedOn, ServedSomeOn};
ghost use Rattle.alt_run.specs.Wholes.{StaysWhole};
ghost use Rattle.alt_run.specs.Words.{command_of, bytes_of, IsServable};
ghost use Rattle.alt_run.specs.declared.ending.Ending.{Ending as RunEnding};
ghost use Rattle.alt_run.specs.declared.ending.Ending.TheVariants.{Whole};
ghost use Rattle.alt_talks.specs.declared.fault.RunFault.TheVariants.{Failed};
ghost use Rattle.alt_run.specs.declared.words.Job.{Job as RunJob};
ghost use Rattle.alt_run.specs.declared.words.Command.TheVariants.{Init, Over};
ghost use Rattle.alt_tables.specs.HandDeclaredLimits.{Limits as EngineLimits};

use crate::ending::{Ending, noted, status_of};
use crate::ending_of::ending_of;
use crate::init::init;
use crate::open::open;
use crate::serve::pull;
use crate::trial::carry_out_trial;
use crate::words::{Command, Job, command_of};
use alt_base::NoMemory;
use alt_lines::{LONGEST_LINE, Lines};
use alt_shell::Shell;
use alt_tables::{Limits, Tables};
use alt_talks::{RunFault, connections};
use json::Scratch;
use std::alloc::Global;
use std::mem::forget;

/// How many bytes are taken at a time at most.
const TAKE: usize = 65_536;

/// The buffer for the bytes that are taken.
fn buffer(alloc: Global) -> Result<Vec<u8>, NoMemory>
    ensures { IfOk result (λ buf. 0 < length buf.items) }
{
    Ok(vec![in alloc; 0u8; TAKE]?)
}

/// Requests as lines of the input, of which a buffer's length is taken at a time at most.
fn pulls<S: Shell>(
    alloc: Global,
    tables: &mut Tables,
    limits: Limits,
    buf: &mut [u8],
    shell: &mut S,
) -> Result<(), RunFault>
    requires ready { AreReady (S.state shell.old) tables.old }
    requires known { limits_of_tables tables.old ≡ limits }
    requires room { 0 < length buf.old }
    requires quiet { talks (S.state shell.old).beside ≡ false }
    ensures answered { (s : State) → Stands (S.state shell.old) tables.old s → MatchResult result
        (λ _. Stretch (S.state shell.old) (S.state shell.new) (AnswersAllLines s))
        (λ f. Stretch (S.state shell.old) (S.state shell.new)
        (AnswersSomeLines f (bounds_of tables.old).file s)) }
    ensures last { OnOk result (LastLine limits.flush (S.state shell.old) (S.state shell.new)) }
    ensures cause { IsErrOf result RunFault.Failed
        → Rose (S.state shell.old).faults (S.state shell.new).faults }
    ensures passes { Passes (S.state shell.old) (S.state shell.new) }
{
    let mut lines = Lines::new(alloc, LONGEST_LINE);
    let mut line = Vec::new(alloc);
    let mut scratch = Scratch::new(alloc);
    'pulls: loop {
        match pull(
            alloc,
            &mut scratch,
            tables,
            limits,
            &mut lines,
            &mut line,
            buf,
            shell,
        ) {
            Ok(true) => {}
            Ok(false) => return Ok(()),
            Err(fault) => return Err(fault),
        }
    }
}

/// Requests as lines of the input, over the tables of an open store.
fn replay<S: Shell>(
    alloc: Global,
    tables: &mut Tables,
    limits: Limits,
    shell: &mut S,
) -> Result<(), RunFault>
    requires ready { AreReady (S.state shell.old) tables.old }
    requires known { limits_of_tables tables.old ≡ limits }
    requires quiet { talks (S.state shell.old).beside ≡ false }
    ensures answered { (s : State) → Stands (S.state shell.old) tables.old s → MatchResult result
        (λ _. Stretch (S.state shell.old) (S.state shell.new) (AnswersAllLines s))
        (λ f. Stretch (S.state shell.old) (S.state shell.new)
        (AnswersSomeLines f (bounds_of tables.old).file s)) }
    ensures last { OnOk result (LastLine limits.flush (S.state shell.old) (S.state shell.new)) }
    ensures cause { IsErrOf result RunFault.Failed
        → Rose (S.state shell.old).faults (S.state shell.new).faults }
    ensures passes { Passes (S.state shell.old) (S.state shell.new) }
{
    let Ok(mut buf) = buffer(alloc) else {
        return Err(RunFault::NoMemory);
    };
    pulls(alloc, tables, limits, &mut buf, shell)
}

/// Requests on connections, over the tables of an open store.
fn serve<S: Shell>(
    alloc: Global,
    tables: &mut Tables,
    per: u32,
    count: u32,
    shell: &mut S,
) -> Result<(), RunFault>
    requires ready { AreReady (S.state shell.old) tables.old }
    requires some { 0 < per }
    requires quiet { talks (S.state shell.old).beside ≡ false }
    ensures served { (s : State) → Stands (S.state shell.old) tables.old s → MatchResult result
        (λ _. Stretch (S.state shell.old) (S.state shell.new)
        (λ a b es ms. (t : State) × ServedOn talk_rules per count s t a b es ms × LeavesNow b t))
        (λ f. Stretch (S.state shell.old) (S.state shell.new)
        (ServedSomeOn talk_rules per count f (bounds_of tables.old).file s)) }
    ensures came { OnOk result (CameAll count (S.state shell.old) (S.state shell.new)) }
    ensures most { CameAtMost count (S.state shell.old) (S.state shell.new) }
    ensures cause { IsErrOf result RunFault.Failed
        → Rose (S.state shell.old).faults (S.state shell.new).faults }
    ensures passes { Passes (S.state shell.old) (S.state shell.new) }
{
    let Ok(mut buf) = buffer(alloc) else {
        return Err(RunFault::NoMemory);
    };
    connections(alloc, tables, per, count, &mut buf, shell)
}

/// A job over the tables of an open store.
fn carry_out<S: Shell>(
    alloc: Global,
    tables: &mut Tables,
    job: Job,
    limits: Limits,
    shell: &mut S,
) -> Result<(), RunFault>
    requires ready { AreReady (S.state shell.old) tables.old }
    requires known { limits_of_tables tables.old ≡ limits }
    requires quiet { talks (S.state shell.old).beside ≡ false }
    requires some { IsServable job }
    ensures done { (files : ℕ → Option (List ℕ)) → IsFirstGiven files (bounds_of tables.old).file
        → (s : State) → Stands (S.state shell.old) tables.old s → MatchResult result
        (λ _. Done job s (S.state shell.old) (S.state shell.new))
        (λ f. Broken files f job s (S.state shell.old) (S.state shell.new)) }
    ensures after { OnOk result (AfterJob job limits.flush (S.state shell.old)
        (S.state shell.new)) }
    ensures most { ComesWithin job (S.state shell.old) (S.state shell.new) }
    ensures cause { IsErrOf result RunFault.Failed
        → Rose (S.state shell.old).faults (S.state shell.new).faults }
    ensures passes { Passes (S.state shell.old) (S.state shell.new) }
{
    match job {
        Job::Replay => replay(alloc, tables, limits, shell),
        Job::Serve { per, connections } => serve(alloc, tables, per, connections, shell),
        Job::Trial { seed, count } => carry_out_trial(alloc, tables, seed, count, shell),
    }
}

/// A job over the store that lies on the disk.
fn over_store<S: Shell>(
    alloc: Global,
    job: Job,
    limits: Limits,
    shell: &mut S,
) -> Result<(), RunFault>
    requires quiet { talks (S.state shell.old).beside ≡ false }
    requires some { IsServable job }
    ensures done { IsTrusted (S.state shell.old) → MatchResult result
        (λ _. Opened (S.state shell.old) (S.state shell.new) (Done job))
        (λ f. (IsOpening (S.state shell.old) (S.state shell.new)
        × IsUnreadable (S.state shell.old).file f)
        ⊎ Opened (S.state shell.old) (S.state shell.new)
        (Broken (S.state shell.old).file f job)) }
    ensures readable { IsTrue (S.state shell.old).tells → MatchResult result
        (λ _. IsReadable (S.state shell.old).file)
        (λ f. (IsOpening (S.state shell.old) (S.state shell.new)
        × IsUnreadable (S.state shell.old).file f)
        ⊎ IsReadable (S.state shell.old).file) }
    ensures after { OnOk result (AfterJob job limits.flush (S.state shell.old)
        (S.state shell.new)) }
    ensures most { ComesWithin job (S.state shell.old) (S.state shell.new) }
    ensures cause { IsErrOf result RunFault.Failed
        → Rose (S.state shell.old).faults (S.state shell.new).faults }
    ensures passes { Passes (S.state shell.old) (S.state shell.new) }
{
    match open(alloc, shell, limits) {
        Ok(mut tables) => {
            let done = carry_out(alloc, &mut tables, job, limits, shell);
            // The process ends here, and the system takes all of its memory back at once.
            forget(tables);
            done
        }
        Err(fault) => Err(fault),
    }
}

/// How a run over a store ends.
fn finished<S: Shell>(alloc: Global, job: Job, limits: Limits, shell: &mut S) -> Ending
    requires quiet { talks (S.state shell.old).beside ≡ false }
    requires some { IsServable job }
    ensures done { HasRun job result (S.state shell.old) (S.state shell.new) }
    ensures after { result ≡ Whole
        → AfterJob job limits.flush (S.state shell.old) (S.state shell.new) }
    ensures most { ComesWithin job (S.state shell.old) (S.state shell.new) }
    ensures passes { Passes (S.state shell.old) (S.state shell.new) }
{
    match over_store(alloc, job, limits, shell) {
        Ok(()) => Ending::Whole,
        Err(fault) => ending_of(fault),
    }
}

/// A run up to its note.
fn ended<S: Shell>(alloc: Global, words: &[String], shell: &mut S) -> Ending
    requires quiet { talks (S.state shell.old).beside ≡ false }
    ensures done { HasDone (command_of (bytes_of words.now)) result (S.state shell.old)
        (S.state shell.new) }
    ensures untouched { command_of (bytes_of words.now) ≡ Some Init
        → IsTrue (S.state shell.old).tells → (f : ℕ) → (S.state shell.old).file f ≢ None
        → Quiet (S.state shell.old) (S.state shell.new) }
    ensures after { (job : RunJob) (limits : EngineLimits)
        → command_of (bytes_of words.now) ≡ Some (Over job limits) → result ≡ Whole
        → AfterJob job limits.flush (S.state shell.old) (S.state shell.new) }
    ensures most { (job : RunJob) (limits : EngineLimits)
        → command_of (bytes_of words.now) ≡ Some (Over job limits)
        → ComesWithin job (S.state shell.old) (S.state shell.new) }
    ensures passes { Passes (S.state shell.old) (S.state shell.new) }
{
    match command_of(words) {
        None => Ending::Words,
        Some(Command::Init) => init(alloc, shell),
        Some(Command::Over { job, limits }) => finished(alloc, job, limits, shell),
    }
}

/// A run of the words behind folder and port, which answers its status: 0 done, 1 the words are wrong, 2 a file is there already,
/// 3 the files are those of no store, 4 the device failed, 5 memory was refused, 6 the numbers of writes, the families of tables or the
/// numbers of files are spent. The words are `init`, `replay FLUSH MERGE`, `serve PER CONNECTIONS FLUSH MERGE` and
/// `trial SEED COUNT FLUSH MERGE`.
pub fn run<S: Shell>(alloc: Global, words: &[String], shell: &mut S) -> u8
    requires quiet { talks (S.state shell.old).beside ≡ false }
    // It ends in one of nine ways, each with its status, its note, and what it has done by then. With 0 a replay read its input to
    // its end and said all of its Out, each request at a moment of its own, and whatever a stop at any moment left stands for the state
    // behind a prefix of its requests that contains every one that was answered by then; and a serve has served as many connections as it
    // was to, or none came any more; and a trial has carried out all its requests, of which a stop leaves a prefix until it says something,
    // and then all, and has said its four lines. FLUSH and MERGE change nothing of that.
    ensures ended { (ending : RunEnding) × Ended (command_of (bytes_of words.now)) ending result
        (S.state shell.old) (S.state shell.new) }

    // 1 comes exactly where the words are wrong.
    ensures words { (result ≡ 1) ↔ (command_of (bytes_of words.now) ≡ None) }

    // Where the files are those of a store and no device fails, all is done, or memory was refused, or a number was wanted that is never
    // given out. What fails on a connection is no failure of a device.
    ensures complete { (job : RunJob) (limits : EngineLimits)
        → command_of (bytes_of words.now) ≡ Some (Over job limits) → IsTrusted (S.state shell.old) → IsReadable (S.state shell.old).file
        → ¬ (Rose (S.state shell.old).faults (S.state shell.new).faults)
        → ((result ≡ 0) × Opened (S.state shell.old) (S.state shell.new) (Done job))
        ⊎ (result ≡ 5)
        ⊎ ((result ≡ 6) × LacksNumber job (S.state shell.old) (S.state shell.new)) }

    // And where there was no file, a store is made, or memory was refused.
    ensures made { command_of (bytes_of words.now) ≡ Some Init → IsTrusted (S.state shell.old)
        → ((f : ℕ) → (S.state shell.old).file f ≡ None)
        → ¬ (Rose (S.state shell.old).faults (S.state shell.new).faults)
        → (result ≡ 0) ⊎ (result ≡ 5) }

    // Where a replay ended with 0 the disk is as its last line promises. Behind `@flush` the segments that the last version names have
    // no entries, and behind a request or `@step` these are shorter than 16 times FLUSH, as they are behind a trial. Behind `@merge`
    // each live family has one row file at most, without tombstones and hidden cells. Behind `@reopen` the files stand for a state, as
    // they read on any disk that tells them, also on one that changed them by itself: they were read again. A trial that ended with 0
    // said its four lines whole, and a serve was told of as many connections as it was to serve, or that none will come, whatever disk
    // it is.
    ensures after { (job : RunJob) (limits : EngineLimits)
        → command_of (bytes_of words.now) ≡ Some (Over job limits) → result ≡ 0
        → AfterJob job limits.flush (S.state shell.old) (S.state shell.new) }

    // However a serve ended, and whatever disk it is, it was told of no more connections than it was to serve.
    ensures most { (job : RunJob) (limits : EngineLimits)
        → command_of (bytes_of words.now) ≡ Some (Over job limits)
        → ComesWithin job (S.state shell.old) (S.state shell.new) }

    // Where a file is there, `init` leaves all files, in reads and in what a stop leaves at each moment, whatever its status.
    ensures untouched { command_of (bytes_of words.now) ≡ Some Init
        → IsTrue (S.state shell.old).tells → (f : ℕ) → (S.state shell.old).file f ≢ None
        → Quiet (S.state shell.old) (S.state shell.new) }

    // Where a disk can be relied on, and whatever a stop leaves of it as the run begins stands for a state, that is so at each moment of
    // the run, whatever its status and its words; and so it is of the disk that the next program finds behind a stop at that moment. So
    // all of this holds of a chain of runs and stops, and each keeps what was answered in those before it (`chains`).
    ensures whole { StaysWhole (S.state shell.old) (S.state shell.new) }

    // Each connection was hung up.
    ensures quiet { talks (S.state shell.new).beside ≡ false }
{
    let ending = noted(alloc, ended(alloc, words, shell), shell);
    status_of(&ending)
}
