//! The turns at hand on a connection: a head at the front is refused, or its request is carried out where it is whole.

ghost use Rattle.std.specs.Prelude.{◌≡◌, ◌<◌, ◌≤◌, ◌+◌, ◌-◌, ◌==◌, ◌||◌, nat_le, if◌then◌else◌, take, drop, length, true, false, IfOk, OnOk, IsErrOf, MatchResult};
ghost use Rattle.alt_base.specs.Counts.{Rose};
ghost use Rattle.alt_machine.specs.State.{State};
ghost use Rattle.alt_shell.specs.Log.{talks, takes_missed, says_missed};
ghost use Rattle.alt_tables.specs.Stands.{AreReady, Stands, bounds_of};
ghost use Rattle.alt_http.specs.Reading.{scan_of};
ghost use Rattle.alt_talks.specs.Arrivals.{Came};
ghost use Rattle.alt_talks.specs.private.Rungs.{KnowsLastMoment};
ghost use Rattle.alt_talks.specs.private.HeadViews.{scan_in};
ghost use Rattle.alt_talks.specs.Runs.{LeadsOn, Passes, Stretch};
ghost use Rattle.alt_talks.specs.TalkRules.{talk_rules};
ghost use Rattle.alt_talks.specs.private.RungStops.{CarriesOn, CarriesSomeOn, MovesAllOn, MovesSomeOn, StepsOn};
ghost use Rattle.alt_talks.specs.private.InHand.{place_of_talk, head_in};

use crate::connection::Talk;
use crate::fault::RunFault;
use crate::front::Head;
use crate::saying::{hello, refuse, respond};
use alt_base::NoMemory;
use alt_http::Scan;
use alt_shell::Shell;
use alt_tables::Tables;
use json::Scratch;
use std::alloc::Global;

fn either(a: bool, b: bool) -> bool
    ensures { result ≡ (a || b) }
{
    a || b
}

/// Whether a body is whole behind its head.
fn is_whole(held: usize, taken: usize, body: u64) -> bool
    requires { taken ≤ held }
    ensures { result ≡ nat_le (taken + body) held }
{
    (held - taken) as u64 >= body
}

/// Whether a reply closes.
fn is_last(close: bool, left: u32) -> bool
    requires { 0 < left }
    ensures { result ≡ (close || (left - 1 == 0)) }
{
    close || left - 1 == 0
}

/// How many requests may come after one.
fn left_after(close: bool, left: u32) -> u32
    requires { 0 < left }
    ensures left { result ≡ (if close then 0 else left - 1) }
    ensures fewer { result < left }
{
    if close { 0 } else { left - 1 }
}

/// The body behind a head of so many bytes, up to where it ends.
fn body_in(front: &[u8], taken: usize, size: usize) -> &[u8]
    requires low { taken ≤ size }
    requires high { size ≤ length front.now }
    ensures { result.now ≡ take (size - taken) (drop taken front.now) }
{
    &front[taken..size]
}

/// A whole request at the front, whose client was let go on.
fn carry<S: Shell>(
    alloc: Global,
    scratch: &mut Scratch<Global>,
    tables: &mut Tables,
    head: &Head,
    talk: &mut Talk,
    shell: &mut S,
) -> Result<(), RunFault>
    requires ready { AreReady (S.state shell.old) tables.old }
    requires going { 0 < talk.old.left }
    requires whole { nat_le (head.now.taken + head.now.length)
        (length talk.old.front) ≡ true }
    requires talking { talks (S.state shell.old).beside ≡ true }
    requires hears { talk.old.mute ≡ false → says_missed (S.state shell.old).beside ≡ false }
    ensures carried { (s : State) → Stands (S.state shell.old) tables.old s → MatchResult result
        (λ _. LeadsOn (bounds_of tables.old).file (S.state shell.old)
        (S.state shell.new) tables.new
        (λ t. KnowsLastMoment talk.old.last talk.new.last
        (CarriesOn talk_rules (head_in head.now) (place_of_talk talk.old) s talk.old.mute
        (place_of_talk talk.new) t talk.new.mute)))
        (λ f. Stretch (S.state shell.old) (S.state shell.new)
        (CarriesSomeOn talk_rules f (bounds_of tables.old).file (head_in head.now) (place_of_talk talk.old) s
        talk.old.mute)) }
    ensures fewer { OnOk result (talk.new.left < talk.old.left) }
    ensures hears { talk.new.mute ≡ false → says_missed (S.state shell.new).beside ≡ false }
    ensures takes { takes_missed (S.state shell.new).beside
        ≡ takes_missed (S.state shell.old).beside }
    ensures cause { IsErrOf result RunFault.Failed
        → Rose (S.state shell.old).faults (S.state shell.new).faults }
    ensures none { Came 0 (S.state shell.old) (S.state shell.new) }
    ensures passes { Passes (S.state shell.old) (S.state shell.new) }
{
    let _held = talk.front.len();
    let size = head.taken + head.length as usize;
    let last = is_last(head.close, talk.left);
    match respond(
        alloc,
        scratch,
        tables,
        &head.target,
        body_in(talk.front.as_slice(), head.taken, size),
        last,
        &mut talk.mute,
        &mut talk.last,
        shell,
    ) {
        Ok(()) => {}
        Err(fault) => return Err(fault),
    }
    talk.front.pass(size);
    talk.greeted = false;
    talk.left = left_after(head.close, talk.left);
    Ok(())
}

/// A head at the front: the client is let go on where it waits for that, once, and the request is carried out where it is whole. It
/// answers whether it was.
fn found<S: Shell>(
    alloc: Global,
    scratch: &mut Scratch<Global>,
    tables: &mut Tables,
    head: Head,
    talk: &mut Talk,
    shell: &mut S,
) -> Result<bool, RunFault>
    requires ready { AreReady (S.state shell.old) tables.old }
    requires going { 0 < talk.old.left }
    requires head { scan_of talk.old.front ≡ scan_in head }
    requires lies { head.taken ≤ length talk.old.front }
    requires talking { talks (S.state shell.old).beside ≡ true }
    requires hears { talk.old.mute ≡ false → says_missed (S.state shell.old).beside ≡ false }
    ensures stepped { (s : State) → Stands (S.state shell.old) tables.old s → MatchResult result
        (λ more. LeadsOn (bounds_of tables.old).file (S.state shell.old)
        (S.state shell.new) tables.new
        (λ t. KnowsLastMoment talk.old.last talk.new.last
        (StepsOn talk_rules more (place_of_talk talk.old) s talk.old.mute
        (place_of_talk talk.new) t talk.new.mute)))
        (λ f. Stretch (S.state shell.old) (S.state shell.new)
        (MovesSomeOn talk_rules f (bounds_of tables.old).file (place_of_talk talk.old) s talk.old.mute)) }
    ensures fewer { IfOk result (λ more. more ≡ true → talk.new.left < talk.old.left) }
    ensures hears { talk.new.mute ≡ false → says_missed (S.state shell.new).beside ≡ false }
    ensures takes { takes_missed (S.state shell.new).beside
        ≡ takes_missed (S.state shell.old).beside }
    ensures cause { IsErrOf result RunFault.Failed
        → Rose (S.state shell.old).faults (S.state shell.new).faults }
    ensures none { Came 0 (S.state shell.old) (S.state shell.new) }
    ensures passes { Passes (S.state shell.old) (S.state shell.new) }
{
    hello(head.expect, talk.greeted, &mut talk.mute, shell);
    talk.greeted = either(talk.greeted, head.expect);
    if !is_whole(talk.front.len(), head.taken, head.length) {
        talk.front.keep(head);
        return Ok(false);
    }
    match carry(alloc, scratch, tables, &head, talk, shell) {
        Ok(()) => Ok(true),
        Err(fault) => Err(fault),
    }
}

/// One turn at the front, where one is at hand. It answers whether one was.
fn one<S: Shell>(
    alloc: Global,
    scratch: &mut Scratch<Global>,
    tables: &mut Tables,
    talk: &mut Talk,
    shell: &mut S,
) -> Result<bool, RunFault>
    requires ready { AreReady (S.state shell.old) tables.old }
    requires going { 0 < talk.old.left }
    requires talking { talks (S.state shell.old).beside ≡ true }
    requires hears { talk.old.mute ≡ false → says_missed (S.state shell.old).beside ≡ false }
    ensures stepped { (s : State) → Stands (S.state shell.old) tables.old s → MatchResult result
        (λ more. LeadsOn (bounds_of tables.old).file (S.state shell.old)
        (S.state shell.new) tables.new
        (λ t. KnowsLastMoment talk.old.last talk.new.last
        (StepsOn talk_rules more (place_of_talk talk.old) s talk.old.mute
        (place_of_talk talk.new) t talk.new.mute)))
        (λ f. Stretch (S.state shell.old) (S.state shell.new)
        (MovesSomeOn talk_rules f (bounds_of tables.old).file (place_of_talk talk.old) s talk.old.mute)) }
    ensures fewer { IfOk result (λ more. more ≡ true → talk.new.left < talk.old.left) }
    ensures hears { talk.new.mute ≡ false → says_missed (S.state shell.new).beside ≡ false }
    ensures takes { takes_missed (S.state shell.new).beside
        ≡ takes_missed (S.state shell.old).beside }
    ensures cause { IsErrOf result RunFault.Failed
        → Rose (S.state shell.old).faults (S.state shell.new).faults }
    ensures none { Came 0 (S.state shell.old) (S.state shell.new) }
    ensures passes { Passes (S.state shell.old) (S.state shell.new) }
{
    let scan = match talk.front.scan(alloc) {
        Ok(scan) => scan,
        Err(_) => return Err(RunFault::NoMemory),
    };
    match scan {
        Scan::More => Ok(false),
        Scan::Refused(number) => {
            match refuse(alloc, number, &mut talk.mute, &mut talk.last, shell) {
                Ok(()) => {}
                Err(fault) => return Err(fault),
            }
            talk.left = 0;
            Ok(true)
        }
        Scan::Head {
            taken,
            target,
            length,
            expect,
            close,
        } => {
            let head = Head {
                taken,
                target,
                length,
                expect,
                close,
            };
            found(alloc, scratch, tables, head, talk, shell)
        }
    }
}

/// The turns at hand.
pub(crate) fn at_hand<S: Shell>(
    alloc: Global,
    scratch: &mut Scratch<Global>,
    tables: &mut Tables,
    talk: &mut Talk,
    shell: &mut S,
) -> Result<(), RunFault>
    requires ready { AreReady (S.state shell.old) tables.old }
    requires talking { talks (S.state shell.old).beside ≡ true }
    requires hears { talk.old.mute ≡ false → says_missed (S.state shell.old).beside ≡ false }
    ensures moved { (s : State) → Stands (S.state shell.old) tables.old s → MatchResult result
        (λ _. LeadsOn (bounds_of tables.old).file (S.state shell.old)
        (S.state shell.new) tables.new
        (λ t. KnowsLastMoment talk.old.last talk.new.last
        (MovesAllOn talk_rules (place_of_talk talk.old) s talk.old.mute
        (place_of_talk talk.new) t talk.new.mute)))
        (λ f. Stretch (S.state shell.old) (S.state shell.new)
        (MovesSomeOn talk_rules f (bounds_of tables.old).file (place_of_talk talk.old) s talk.old.mute)) }
    ensures hears { talk.new.mute ≡ false → says_missed (S.state shell.new).beside ≡ false }
    ensures takes { takes_missed (S.state shell.new).beside
        ≡ takes_missed (S.state shell.old).beside }
    ensures cause { IsErrOf result RunFault.Failed
        → Rose (S.state shell.old).faults (S.state shell.new).faults }
    ensures none { Came 0 (S.state shell.old) (S.state shell.new) }
    ensures passes { Passes (S.state shell.old) (S.state shell.new) }
{
    while talk.left > 0 {
        match one(alloc, scratch, tables, talk, shell) {
            Ok(true) => {}
            Ok(false) => return Ok(()),
            Err(fault) => return Err(fault),
        }
    }
    Ok(())
}
