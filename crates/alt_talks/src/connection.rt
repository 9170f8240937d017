//! Serving connections: from the bytes taken to the replies said. Each function says of the calls that it made which turns of
//! the connection they did, or where among them it broke off, so that a run is put together from them.

ghost use Rattle.std.specs.Prelude.{◌≡◌, ◌<◌, ◌-◌, ◌^◌, length, true, false, IfOk, OnOk, IsErrOf, MatchResult};
ghost use Rattle.alt_base.specs.Counts.{Rose};
ghost use Rattle.alt_machine.specs.State.{State};
ghost use Rattle.alt_shell.specs.Log.{talks, takes_missed, says_missed};
ghost use Rattle.alt_tables.specs.Stands.{AreReady, Stands, bounds_of};
ghost use Rattle.alt_talks.specs.Arrivals.{Came, CameAll, CameAtMost};
ghost use Rattle.alt_talks.specs.private.Rungs.{CameOne, KnowsLastMoment, AtRest};
ghost use Rattle.alt_talks.specs.Runs.{LeadsOn, Passes, Stretch};
ghost use Rattle.alt_talks.specs.TalkRules.{talk_rules};
ghost use Rattle.alt_talks.specs.TalkStops.{ServedOn, ServedSomeOn};
ghost use Rattle.alt_talks.specs.private.RungStops.{ComesOn, ComesSomeOn, EndsOn, GoesOn, GoesSomeOn};
ghost use Rattle.alt_talks.specs.private.InHand.{place_of_talk};

use crate::fault::RunFault;
use crate::following::between;
use crate::front::Front;
use crate::turns::at_hand;
use alt_base::NoMemory;
use alt_shell::Shell;
use alt_tables::Tables;
use json::Scratch;
use std::alloc::Global;

/// A connection as it is served: the bytes taken that no turn has used, how many requests may come, whether the client of the head
/// in front was let go on, whether a say failed, and the last moment that was told in the run.
#[derive(Drop)]
pub(crate) struct Talk {
    pub(crate) front: Front,
    pub(crate) left: u32,
    pub(crate) greeted: bool,
    pub(crate) mute: bool,
    pub(crate) last: Option<u64>,
}

/// Takes more, and does the turns at hand then. It answers whether there was more.
fn pull<S: Shell>(
    alloc: Global,
    scratch: &mut Scratch<Global>,
    tables: &mut Tables,
    buf: &mut [u8],
    talk: &mut Talk,
    shell: &mut S,
) -> Result<bool, RunFault>
    requires ready { AreReady (S.state shell.old) tables.old }
    requires buffer { 0 < length buf.old }
    requires going { 0 < talk.old.left }
    requires heard { talk.old.mute ≡ false }
    requires talking { talks (S.state shell.old).beside ≡ true }
    requires hears { says_missed (S.state shell.old).beside ≡ false }
    requires taking { takes_missed (S.state shell.old).beside ≡ false }
    ensures turned { (s : State) → Stands (S.state shell.old) tables.old s
        → AtRest talk_rules (place_of_talk talk.old) → MatchResult result
        (λ more. LeadsOn (bounds_of tables.old).file (S.state shell.old)
        (S.state shell.new) tables.new
        (λ t. KnowsLastMoment talk.old.last talk.new.last
        (GoesOn talk_rules more (place_of_talk talk.old) s talk.old.mute
        (place_of_talk talk.new) t talk.new.mute)))
        (λ f. Stretch (S.state shell.old) (S.state shell.new)
        (GoesSomeOn talk_rules f (bounds_of tables.old).file (place_of_talk talk.old) s talk.old.mute)) }
    ensures hears { talk.new.mute ≡ false → says_missed (S.state shell.new).beside ≡ false }
    ensures taking { IfOk result (λ more. more ≡ true
        → takes_missed (S.state shell.new).beside ≡ false) }
    ensures time { IfOk result (λ more. more ≡ true
        → ((S.state shell.old).moment < 2 ^ 64 - 1)
        × ((S.state shell.old).moment < (S.state shell.new).moment)) }
    ensures cause { IsErrOf result RunFault.Failed
        → Rose (S.state shell.old).faults (S.state shell.new).faults }
    ensures none { Came 0 (S.state shell.old) (S.state shell.new) }
    ensures passes { Passes (S.state shell.old) (S.state shell.new) }
{
    match shell.take(buf) {
        Ok(count) => {
            if count == 0 {
                return Ok(false);
            }
            match talk.front.extend(&buf[..count]) {
                Ok(()) => {}
                Err(_) => return Err(RunFault::NoMemory),
            }
            match at_hand(alloc, scratch, tables, talk, shell) {
                Ok(()) => Ok(true),
                Err(fault) => Err(fault),
            }
        }
        Err(_) => Ok(false),
    }
}

/// Takes and turns until no more comes, a say failed, or the turns have ended.
fn pulls<S: Shell>(
    alloc: Global,
    scratch: &mut Scratch<Global>,
    tables: &mut Tables,
    buf: &mut [u8],
    talk: &mut Talk,
    shell: &mut S,
) -> Result<(), RunFault>
    requires ready { AreReady (S.state shell.old) tables.old }
    requires buffer { 0 < length buf.old }
    requires heard { talk.old.mute ≡ false }
    requires talking { talks (S.state shell.old).beside ≡ true }
    requires hears { says_missed (S.state shell.old).beside ≡ false }
    requires taking { takes_missed (S.state shell.old).beside ≡ false }
    requires rest { AtRest talk_rules (place_of_talk talk.old) }
    ensures ended { (s : State) → Stands (S.state shell.old) tables.old s → MatchResult result
        (λ _. LeadsOn (bounds_of tables.old).file (S.state shell.old)
        (S.state shell.new) tables.new
        (λ t. KnowsLastMoment talk.old.last talk.new.last
        (EndsOn talk_rules (place_of_talk talk.old) s talk.old.mute
        (place_of_talk talk.new) t talk.new.mute)))
        (λ f. Stretch (S.state shell.old) (S.state shell.new)
        (GoesSomeOn talk_rules f (bounds_of tables.old).file (place_of_talk talk.old) s talk.old.mute)) }
    ensures cause { IsErrOf result RunFault.Failed
        → Rose (S.state shell.old).faults (S.state shell.new).faults }
    ensures none { Came 0 (S.state shell.old) (S.state shell.new) }
    ensures passes { Passes (S.state shell.old) (S.state shell.new) }
{
    'pulls: loop {
        if talk.left == 0 {
            return Ok(());
        }
        if talk.mute {
            return Ok(());
        }
        match pull(alloc, scratch, tables, buf, talk, shell) {
            Ok(true) => {}
            Ok(false) => return Ok(()),
            Err(fault) => return Err(fault),
        }
    }
}

/// One connection: it is waited for, served and hung up. It answers whether one came.
fn connection<S: Shell>(
    alloc: Global,
    scratch: &mut Scratch<Global>,
    tables: &mut Tables,
    per: u32,
    buf: &mut [u8],
    last: &mut Option<u64>,
    shell: &mut S,
) -> Result<bool, RunFault>
    requires ready { AreReady (S.state shell.old) tables.old }
    requires buffer { 0 < length buf.old }
    requires some { 0 < per }
    requires quiet { talks (S.state shell.old).beside ≡ false }
    ensures served { (s : State) → Stands (S.state shell.old) tables.old s → MatchResult result
        (λ came. LeadsOn (bounds_of tables.old).file (S.state shell.old)
        (S.state shell.new) tables.new
        (λ t. KnowsLastMoment last.old last.new (ComesOn talk_rules per came s t)))
        (λ f. Stretch (S.state shell.old) (S.state shell.new)
        (ComesSomeOn talk_rules per f (bounds_of tables.old).file s)) }
    ensures cause { IsErrOf result RunFault.Failed
        → Rose (S.state shell.old).faults (S.state shell.new).faults }
    ensures came { MatchResult result
        (λ came. CameOne came (S.state shell.old) (S.state shell.new))
        (λ _. CameAtMost 1 (S.state shell.old) (S.state shell.new)) }
    ensures passes { Passes (S.state shell.old) (S.state shell.new) }
{
    match shell.accept() {
        Ok(true) => {
            let mut talk = Talk {
                front: Front::new(alloc),
                left: per,
                greeted: false,
                mute: false,
                last: *last,
            };
            let served = pulls(alloc, scratch, tables, buf, &mut talk, shell);
            shell.hang_up();
            *last = talk.last;
            match served {
                Ok(()) => Ok(true),
                Err(fault) => Err(fault),
            }
        }
        Ok(false) => Ok(false),
        Err(_) => Err(RunFault::Failed),
    }
}

/// Serves connections, one after another, so many at most, with so many requests at most on each, and does behind each what the server does
/// by itself. Bytes are taken into `buf`. It ends early where none comes any more, and with an Err where a request has no answer for a
/// reason that isn't its client's: then the connection at hand is hung up too.
pub fn connections<S: Shell>(
    alloc: Global,
    tables: &mut Tables,
    per: u32,
    count: u32,
    buf: &mut [u8],
    shell: &mut S,
) -> Result<(), RunFault>
    requires ready { AreReady (S.state shell.old) tables.old }
    requires buffer { 0 < length buf.old }
    requires some { 0 < per }
    requires quiet { talks (S.state shell.old).beside ≡ false }
    ensures served { (s : State) → Stands (S.state shell.old) tables.old s → MatchResult result
        (λ _. LeadsOn (bounds_of tables.old).file (S.state shell.old)
        (S.state shell.new) tables.new
        (λ t. ServedOn talk_rules per count s t))
        (λ f. Stretch (S.state shell.old) (S.state shell.new)
        (ServedSomeOn talk_rules per count f (bounds_of tables.old).file s)) }
    ensures cause { IsErrOf result RunFault.Failed
        → Rose (S.state shell.old).faults (S.state shell.new).faults }
    // On any disk: so many came, or fewer and then none will come; and never more.
    ensures came { OnOk result (CameAll count (S.state shell.old) (S.state shell.new)) }
    ensures most { CameAtMost count (S.state shell.old) (S.state shell.new) }
    ensures passes { Passes (S.state shell.old) (S.state shell.new) }
{
    let mut scratch = Scratch::new(alloc);
    let mut served: u32 = 0;
    let mut last = None;
    while served < count {
        match connection(alloc, &mut scratch, tables, per, buf, &mut last, shell) {
            Ok(true) => {}
            Ok(false) => return Ok(()),
            Err(fault) => return Err(fault),
        }
        served += 1;
        match between(alloc, tables, shell, served, last) {
            Ok(()) => {}
            Err(fault) => return Err(fault),
        }
    }
    Ok(())
}
