//! Serving lines: from the bytes taken to the replies said. Each function says of the calls that it made which lines they
//! served, or where among them it broke off, so that a run is put together from them.

ghost use Rattle.std.specs.Prelude.{◌≡◌, ◌<◌, ◌≤◌, ◌+◌, ◌*◌, ◌^◌, ◌-◌, ◌∷◌, [], ℕ, true, false, Some, None, length, IfOk, IfErr, IfSome, IfNone, OnOk, IsErrOf, MatchResult};
ghost use Rattle.alt_base.specs.Counts.{Rose};
ghost use Rattle.alt_disk.specs.Disk.{Goes, IsTrusted};
ghost use Rattle.alt_lines.specs.Lines.{Line};
ghost use Rattle.alt_lines.specs.Reader.{unread};
ghost use Rattle.alt_lines.specs.Unread.{HasNone, TakesLine, TellsLine};
ghost use Rattle.alt_machine.specs.State.{State};
ghost use Rattle.alt_shell.specs.Log.{talks};
ghost use Rattle.alt_tables.specs.FilesLeft.{most_files};
ghost use Rattle.alt_tables.specs.Images.{StandsFor};
ghost use Rattle.alt_tables.specs.Stands.{AreReady, Stands, bounds_of, limits_of_tables};
ghost use Rattle.alt_talks.specs.Faults.{IsCausedBy};
ghost use Rattle.alt_talks.specs.Runs.{Stretch, Passes, Leads};
ghost use Rattle.alt_talks.specs.Works.{WorksOnStore};
ghost use Rattle.alt_run.specs.Behind.{AreReadable, Behind};
ghost use Rattle.alt_run.specs.private.Brought.{BringsAtHand, BringsOn};
ghost use Rattle.alt_run.specs.private.Rungs.{IsControlFault, ServesAtHand, BreaksAtHand, HandsOut, GoesOrEnds, ServesSomeInput, asked_now};
ghost use Rattle.alt_run.specs.Turns.{request, control, unread as no_request, asked_by, asked_of, tasks};

use crate::lines::{Control, control_of, parts};
use crate::open::open;
use crate::reply::reply_text;
use alt_disk::Disk;
use alt_lines::{Cut, Lines};
use alt_shell::Shell;
use alt_tables::{Limits, Tables, Task};
use alt_talks::{RunFault, follow, work};
use json::Scratch;
use std::alloc::Global;

/// One request: it is answered at the moment that the clock tells. Behind its reply come the server's own requests and one step of work.
fn answer_request<S: Shell>(
    alloc: Global,
    scratch: &mut Scratch<Global>,
    tables: &mut Tables,
    name: &[u8],
    body: &[u8],
    shell: &mut S,
) -> Result<(), RunFault>
    requires ready { AreReady (S.state shell.old) tables.old }
    requires quiet { talks (S.state shell.old).beside ≡ false }
    ensures served { (s : State) → Stands (S.state shell.old) tables.old s → MatchResult result
        (λ _. Leads (S.state shell.old) (S.state shell.new) tables.new
        (ServesAtHand s (request name.now body.now ∷ [])))
        (λ f. Stretch (S.state shell.old) (S.state shell.new)
        (BreaksAtHand f (bounds_of tables.old).file s (request name.now body.now ∷ []))) }
    ensures brings { OnOk result (BringsAtHand (limits_of_tables tables.old).flush
        (request name.now body.now ∷ []) (S.state shell.old) (S.state shell.new)) }
    ensures files { (s : State) → Stands (S.state shell.old) tables.old s → OnOk result
        ((bounds_of tables.new).file ≤ (bounds_of tables.old).file + most_files) }
    ensures limits { limits_of_tables tables.new ≡ limits_of_tables tables.old }
    ensures cause { IsErrOf result RunFault.Failed
        → Rose (S.state shell.old).faults (S.state shell.new).faults }
    ensures passes { Passes (S.state shell.old) (S.state shell.new) }
{
    let moment = shell.now();
    let text = match reply_text(alloc, scratch, tables, shell, name, body, moment) {
        Ok(text) => text,
        Err(fault) => return Err(fault),
    };
    match shell.say(text.as_bytes()) {
        Ok(()) => {}
        Err(_) => return Err(RunFault::Failed),
    }
    match follow(tables, shell, true) {
        Ok(()) => Ok(()),
        Err(fault) => Err(fault),
    }
}

/// A line that is too long to be read: it is told so, at no moment.
fn turn_away<S: Shell>(tables: &Tables, shell: &mut S) -> Result<(), RunFault>
    requires quiet { talks (S.state shell.old).beside ≡ false }
    ensures served { (s : State) → Stands (S.state shell.old) tables.now s → MatchResult result
        (λ _. Leads (S.state shell.old) (S.state shell.new) tables.now
        (ServesAtHand s (no_request ∷ [])))
        (λ f. Stretch (S.state shell.old) (S.state shell.new)
        (BreaksAtHand f (bounds_of tables.now).file s (no_request ∷ []))) }
    ensures brings { OnOk result ((flush : ℕ) → BringsAtHand flush (no_request ∷ [])
        (S.state shell.old) (S.state shell.new)) }
    ensures cause { IsErrOf result RunFault.Failed
        → Rose (S.state shell.old).faults (S.state shell.new).faults }
    ensures passes { Passes (S.state shell.old) (S.state shell.new) }
{
    match shell.say(b"413 {\"message\":\"request too long\"}\n") {
        Ok(()) => Ok(()),
        Err(_) => Err(RunFault::Failed),
    }
}

/// The store is opened again. What the disk holds counts from then on.
fn reopen<D: Disk>(
    alloc: Global,
    tables: &mut Tables,
    limits: Limits,
    disk: &mut D,
) -> Result<(), RunFault>
    ensures stands { (s : State) → Stands (D.state disk.old) tables.old s
        → OnOk result (Stands (D.state disk.new) tables.new s) }
    // The tables are those of the files, whatever was in hand before.
    ensures opened { OnOk result (IsTrusted (D.state disk.old) → (r : State)
        → StandsFor (D.state disk.old).file r → Stands (D.state disk.new) tables.new r) }
    // And the files stand for a state, as they read on any disk that tells them.
    ensures readable { OnOk result (AreReadable (D.state disk.new)) }
    ensures works { (s : State) → Stands (D.state disk.old) tables.old s
        → WorksOnStore (D.state disk.old) (D.state disk.new) s }
    ensures fault { (s : State) → Stands (D.state disk.old) tables.old s
        → IfErr result (IsCausedBy None) }
    // A segment that the first write makes may come before the first file of work.
    ensures files { (s : State) → Stands (D.state disk.old) tables.old s → OnOk result
        ((bounds_of tables.new).file ≤ (bounds_of tables.old).file + 1) }
    ensures known { OnOk result (limits_of_tables tables.new ≡ limits) }
    ensures goes { Goes (D.state disk.old) (D.state disk.new) }
    ensures cause { IsErrOf result RunFault.Failed
        → Rose (D.state disk.old).faults (D.state disk.new).faults }
{
    match open(alloc, disk, limits) {
        Ok(opened) => {
            *tables = opened;
            Ok(())
        }
        Err(fault) => Err(fault),
    }
}

/// What a word of control asks for. The state stays.
fn obey<D: Disk>(
    alloc: Global,
    tables: &mut Tables,
    limits: Limits,
    word: Control,
    disk: &mut D,
) -> Result<(), RunFault>
    requires ready { AreReady (D.state disk.old) tables.old }
    requires known { limits_of_tables tables.old ≡ limits }
    ensures stands { (s : State) → Stands (D.state disk.old) tables.old s
        → OnOk result (Stands (D.state disk.new) tables.new s) }
    ensures works { (s : State) → Stands (D.state disk.old) tables.old s
        → WorksOnStore (D.state disk.old) (D.state disk.new) s }
    ensures fault { (s : State) → Stands (D.state disk.old) tables.old s
        → IfErr result (IsControlFault (bounds_of tables.old).file word) }
    ensures behind { OnOk result (Behind limits.flush (Some (control word)) (D.state disk.new)) }
    ensures files { (s : State) → Stands (D.state disk.old) tables.old s → OnOk result
        ((bounds_of tables.new).file ≤ (bounds_of tables.old).file + most_files) }
    ensures known { OnOk result (limits_of_tables tables.new ≡ limits) }
    ensures goes { Goes (D.state disk.old) (D.state disk.new) }
    ensures cause { IsErrOf result RunFault.Failed
        → Rose (D.state disk.old).faults (D.state disk.new).faults }
{
    match word {
        Control::Flush => work(tables, disk, Task::FlushAll),
        Control::Merge => work(tables, disk, Task::MergeAll),
        Control::Step => work(tables, disk, Task::Step),
        Control::Reopen => reopen(alloc, tables, limits, disk),
    }
}

/// A line that is a word of control: once that is done, it is told so, at no moment.
fn answer_control<S: Shell>(
    alloc: Global,
    tables: &mut Tables,
    limits: Limits,
    word: Control,
    shell: &mut S,
) -> Result<(), RunFault>
    requires ready { AreReady (S.state shell.old) tables.old }
    requires known { limits_of_tables tables.old ≡ limits }
    requires quiet { talks (S.state shell.old).beside ≡ false }
    ensures served { (s : State) → Stands (S.state shell.old) tables.old s → MatchResult result
        (λ _. Leads (S.state shell.old) (S.state shell.new) tables.new
        (ServesAtHand s (control word ∷ [])))
        (λ f. Stretch (S.state shell.old) (S.state shell.new)
        (BreaksAtHand f (bounds_of tables.old).file s (control word ∷ []))) }
    ensures brings { OnOk result (BringsAtHand limits.flush (control word ∷ [])
        (S.state shell.old) (S.state shell.new)) }
    ensures files { (s : State) → Stands (S.state shell.old) tables.old s → OnOk result
        ((bounds_of tables.new).file ≤ (bounds_of tables.old).file + most_files) }
    ensures known { OnOk result (limits_of_tables tables.new ≡ limits) }
    ensures cause { IsErrOf result RunFault.Failed
        → Rose (S.state shell.old).faults (S.state shell.new).faults }
    ensures passes { Passes (S.state shell.old) (S.state shell.new) }
{
    match obey(alloc, tables, limits, word, shell) {
        Ok(()) => {}
        Err(fault) => return Err(fault),
    }
    match shell.say(b"ok\n") {
        Ok(()) => Ok(()),
        Err(_) => Err(RunFault::Failed),
    }
}

/// A line that is read: a word of control, or a request.
fn answer_whole<S: Shell>(
    alloc: Global,
    scratch: &mut Scratch<Global>,
    tables: &mut Tables,
    limits: Limits,
    line: &[u8],
    shell: &mut S,
) -> Result<(), RunFault>
    requires ready { AreReady (S.state shell.old) tables.old }
    requires known { limits_of_tables tables.old ≡ limits }
    requires quiet { talks (S.state shell.old).beside ≡ false }
    ensures served { (s : State) → Stands (S.state shell.old) tables.old s → MatchResult result
        (λ _. Leads (S.state shell.old) (S.state shell.new) tables.new
        (ServesAtHand s (asked_by line.now ∷ [])))
        (λ f. Stretch (S.state shell.old) (S.state shell.new)
        (BreaksAtHand f (bounds_of tables.old).file s (asked_by line.now ∷ []))) }
    ensures brings { OnOk result (BringsAtHand limits.flush (asked_by line.now ∷ [])
        (S.state shell.old) (S.state shell.new)) }
    ensures files { (s : State) → Stands (S.state shell.old) tables.old s → OnOk result
        ((bounds_of tables.new).file ≤ (bounds_of tables.old).file + most_files) }
    ensures known { OnOk result (limits_of_tables tables.new ≡ limits) }
    ensures cause { IsErrOf result RunFault.Failed
        → Rose (S.state shell.old).faults (S.state shell.new).faults }
    ensures passes { Passes (S.state shell.old) (S.state shell.new) }
{
    match control_of(line) {
        Some(word) => answer_control(alloc, tables, limits, word, shell),
        None => {
            let (name, body) = parts(line);
            answer_request(alloc, scratch, tables, name, body, shell)
        }
    }
}

/// A line that was taken from the reader.
fn answer_line<S: Shell>(
    alloc: Global,
    scratch: &mut Scratch<Global>,
    tables: &mut Tables,
    limits: Limits,
    cut: Cut,
    line: &[u8],
    shell: &mut S,
) -> Result<(), RunFault>
    requires ready { AreReady (S.state shell.old) tables.old }
    requires known { limits_of_tables tables.old ≡ limits }
    requires quiet { talks (S.state shell.old).beside ≡ false }
    ensures served { (taken : Line) → TellsLine taken cut [] line.now →
        (s : State) → Stands (S.state shell.old) tables.old s → MatchResult result
        (λ _. Leads (S.state shell.old) (S.state shell.new) tables.new
        (ServesAtHand s (asked_of taken ∷ [])))
        (λ f. Stretch (S.state shell.old) (S.state shell.new)
        (BreaksAtHand f (bounds_of tables.old).file s (asked_of taken ∷ []))) }
    ensures brings { OnOk result ((taken : Line) → TellsLine taken cut [] line.now
        → BringsAtHand limits.flush (asked_of taken ∷ []) (S.state shell.old)
        (S.state shell.new)) }
    ensures files { (taken : Line) → TellsLine taken cut [] line.now →
        (s : State) → Stands (S.state shell.old) tables.old s → OnOk result
        ((bounds_of tables.new).file ≤ (bounds_of tables.old).file
        + tasks (asked_of taken ∷ []) * most_files) }
    ensures known { OnOk result (limits_of_tables tables.new ≡ limits) }
    ensures cause { IsErrOf result RunFault.Failed
        → Rose (S.state shell.old).faults (S.state shell.new).faults }
    ensures passes { Passes (S.state shell.old) (S.state shell.new) }
{
    match cut {
        Cut::Whole => answer_whole(alloc, scratch, tables, limits, line, shell),
        Cut::TooLong => turn_away(tables, shell),
    }
}

/// The next line that is whole, in the emptied buffer.
fn next_line(lines: &mut Lines, line: &mut Vec<u8>) -> Result<Option<Cut>, RunFault>
    ensures some { IfOk result (λ found. IfSome found (λ cut. (taken : Line)
        × TellsLine taken cut [] line.new.items × TakesLine taken (unread lines.old)
        (unread lines.new))) }
    ensures none { IfOk result (λ found. IfNone found
        (HasNone (unread lines.old) (unread lines.new))) }
    ensures err { IfErr result (λ fault. fault ≡ RunFault.NoMemory) }
{
    line.clear();
    match lines.line(line) {
        Ok(found) => Ok(found),
        Err(_) => Err(RunFault::NoMemory),
    }
}

/// Serves the lines that are whole.
pub(crate) fn at_hand<S: Shell>(
    alloc: Global,
    scratch: &mut Scratch<Global>,
    tables: &mut Tables,
    limits: Limits,
    lines: &mut Lines,
    line: &mut Vec<u8>,
    shell: &mut S,
) -> Result<(), RunFault>
    requires ready { AreReady (S.state shell.old) tables.old }
    requires known { limits_of_tables tables.old ≡ limits }
    requires quiet { talks (S.state shell.old).beside ≡ false }
    ensures served { (s : State) → Stands (S.state shell.old) tables.old s → MatchResult result
        (λ _. Leads (S.state shell.old) (S.state shell.new) tables.new
        (ServesAtHand s (asked_now (unread lines.old))))
        (λ f. Stretch (S.state shell.old) (S.state shell.new)
        (BreaksAtHand f (bounds_of tables.old).file s (asked_now (unread lines.old)))) }
    ensures brings { OnOk result (BringsAtHand limits.flush (asked_now (unread lines.old))
        (S.state shell.old) (S.state shell.new)) }
    ensures files { (s : State) → Stands (S.state shell.old) tables.old s → OnOk result
        ((bounds_of tables.new).file ≤ (bounds_of tables.old).file
        + tasks (asked_now (unread lines.old)) * most_files) }
    ensures known { OnOk result (limits_of_tables tables.new ≡ limits) }
    ensures lines { OnOk result (HandsOut (unread lines.old) (unread lines.new)) }
    ensures cause { IsErrOf result RunFault.Failed
        → Rose (S.state shell.old).faults (S.state shell.new).faults }
    ensures passes { Passes (S.state shell.old) (S.state shell.new) }
{
    'lines: loop {
        match next_line(lines, line) {
            Ok(Some(cut)) => match answer_line(alloc, scratch, tables, limits, cut, line, shell) {
                Ok(()) => {}
                Err(fault) => return Err(fault),
            },
            Ok(None) => return Ok(()),
            Err(fault) => return Err(fault),
        }
    }
}

/// Takes more of the input, and serves the lines that are whole then. It answers whether there was more.
pub(crate) fn pull<S: Shell>(
    alloc: Global,
    scratch: &mut Scratch<Global>,
    tables: &mut Tables,
    limits: Limits,
    lines: &mut Lines,
    line: &mut Vec<u8>,
    buf: &mut [u8],
    shell: &mut S,
) -> Result<bool, RunFault>
    requires ready { AreReady (S.state shell.old) tables.old }
    requires known { limits_of_tables tables.old ≡ limits }
    requires quiet { talks (S.state shell.old).beside ≡ false }
    requires room { 0 < length buf.old }
    requires going { (unread lines.old).ended ≡ false }
    ensures went { (s : State) → Stands (S.state shell.old) tables.old s → MatchResult result
        (λ more. Leads (S.state shell.old) (S.state shell.new) tables.new
        (λ t. GoesOrEnds more (bounds_of tables.old).file s (unread lines.old)
        (bounds_of tables.new).file t (unread lines.new)))
        (λ f. Stretch (S.state shell.old) (S.state shell.new)
        (ServesSomeInput f (bounds_of tables.old).file s (unread lines.old))) }
    ensures brings { IfOk result (λ more. BringsOn limits.flush more (unread lines.old)
        (unread lines.new) (S.state shell.old) (S.state shell.new)) }
    ensures known { OnOk result (limits_of_tables tables.new ≡ limits) }
    ensures going { IfOk result (λ more. more ≡ true → (unread lines.new).ended ≡ false) }
    ensures time { OnOk result ((S.state shell.old).moment < (S.state shell.new).moment) }
    ensures within { OnOk result ((S.state shell.old).moment < 2 ^ 64 - 1) }
    ensures cause { IsErrOf result RunFault.Failed
        → Rose (S.state shell.old).faults (S.state shell.new).faults }
    ensures passes { Passes (S.state shell.old) (S.state shell.new) }
{
    let Ok(count) = shell.take(buf) else {
        return Err(RunFault::Failed);
    };
    if count == 0 {
        lines.end();
        return match at_hand(alloc, scratch, tables, limits, lines, line, shell) {
            Ok(()) => Ok(false),
            Err(fault) => Err(fault),
        };
    }
    let Ok(()) = lines.give(&buf[..count]) else {
        return Err(RunFault::NoMemory);
    };
    match at_hand(alloc, scratch, tables, limits, lines, line, shell) {
        Ok(()) => Ok(true),
        Err(fault) => Err(fault),
    }
}
