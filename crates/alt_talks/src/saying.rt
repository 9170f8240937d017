//! What is said on a connection, unless a say failed before: a refusal, the answer to a request, and that its client may go on.

ghost use Rattle.std.specs.Prelude.{◌≡◌, ◌≤◌, ℕ, Option, [], ◌∷◌, true, false, IsErrOf, MatchResult};
ghost use Rattle.alt_base.specs.Counts.{Rose};
ghost use Rattle.alt_machine.specs.State.{State};
ghost use Rattle.alt_shell.specs.Calls.{Keeps};
ghost use Rattle.alt_shell.specs.Log.{talks, takes_missed, says_missed};
ghost use Rattle.alt_tables.specs.Stands.{AreReady, Stands, bounds_of};
ghost use Rattle.alt_talks.specs.Arrivals.{Came};
ghost use Rattle.alt_talks.specs.private.Rungs.{KnowsLastMoment, Utters};
ghost use Rattle.alt_talks.specs.Runs.{LeadsOn, Passes, Stretch};
ghost use Rattle.alt_talks.specs.TalkRules.{talk_rules};
ghost use Rattle.alt_talks.specs.TalkStops.{LeavesNow};
ghost use Rattle.alt_talks.specs.private.RungStops.{AnswersOn, AnswersSomeOn};
ghost use Rattle.alt_talks.specs.private.InHand.{asking};
ghost use Rattle.alt_talks.specs.Talks.{asked, refused, greets};

use crate::fault::RunFault;
use crate::following::follow;
use crate::response::{refusal_text, response};
use alt_base::NoMemory;
use alt_fields::Bytes;
use alt_http::CONTINUE;
use alt_shell::Shell;
use alt_tables::Tables;
use json::Scratch;
use std::alloc::Global;

/// Says a text, unless a say failed before.
fn utter<S: Shell>(mute: &mut bool, text: &[u8], shell: &mut S)
    requires talking { talks (S.state shell.old).beside ≡ true }
    requires hears { mute.old ≡ false → says_missed (S.state shell.old).beside ≡ false }
    ensures said { Stretch (S.state shell.old) (S.state shell.new)
        (λ _ _. Utters mute.old text.now mute.new) }
    ensures hears { mute.new ≡ false → says_missed (S.state shell.new).beside ≡ false }
    ensures takes { takes_missed (S.state shell.new).beside
        ≡ takes_missed (S.state shell.old).beside }
    ensures keeps { Keeps (S.state shell.old) (S.state shell.new) }
    ensures none { Came 0 (S.state shell.old) (S.state shell.new) }
    ensures passes { Passes (S.state shell.old) (S.state shell.new) }
{
    if *mute {
        return;
    }
    match shell.say(text) {
        Ok(()) => {}
        Err(_) => {
            *mute = true;
        }
    }
}

/// A head that is refused. It takes a moment unless a say failed before.
pub(crate) fn refuse<S: Shell>(
    alloc: Global,
    number: u8,
    mute: &mut bool,
    last: &mut Option<u64>,
    shell: &mut S,
) -> Result<(), RunFault>
    requires low { 1 ≤ number }
    requires high { number ≤ 9 }
    requires talking { talks (S.state shell.old).beside ≡ true }
    requires hears { mute.old ≡ false → says_missed (S.state shell.old).beside ≡ false }
    ensures answered { (s : State) → LeavesNow (S.state shell.old) s → MatchResult result
        (λ _. Stretch (S.state shell.old) (S.state shell.new)
        (KnowsLastMoment last.old last.new
        (AnswersOn talk_rules s mute.old (refused number ∷ []) s mute.new)))
        (λ f. (next : ℕ) → Stretch (S.state shell.old) (S.state shell.new)
        (AnswersSomeOn talk_rules f next s mute.old (refused number ∷ []))) }
    ensures hears { mute.new ≡ false → says_missed (S.state shell.new).beside ≡ false }
    ensures takes { takes_missed (S.state shell.new).beside
        ≡ takes_missed (S.state shell.old).beside }
    ensures cause { IsErrOf result RunFault.Failed
        → Rose (S.state shell.old).faults (S.state shell.new).faults }
    ensures keeps { Keeps (S.state shell.old) (S.state shell.new) }
    ensures none { Came 0 (S.state shell.old) (S.state shell.new) }
    ensures passes { Passes (S.state shell.old) (S.state shell.new) }
{
    if *mute {
        return Ok(());
    }
    let moment = shell.now();
    *last = Some(moment);
    match refusal_text(alloc, number, moment) {
        Ok(text) => {
            utter(mute, &text, shell);
            Ok(())
        }
        Err(_) => Err(RunFault::NoMemory),
    }
}

/// A request: it is carried out at the moment that the clock tells, and answered unless a say failed before. Then comes what the server does
/// by itself behind it, and behind a reply that was said one step of work.
pub(crate) fn respond<S: Shell>(
    alloc: Global,
    scratch: &mut Scratch<Global>,
    tables: &mut Tables,
    target: &Option<Bytes>,
    body: &[u8],
    close: bool,
    mute: &mut bool,
    last: &mut Option<u64>,
    shell: &mut S,
) -> Result<(), RunFault>
    requires ready { AreReady (S.state shell.old) tables.old }
    requires talking { talks (S.state shell.old).beside ≡ true }
    requires hears { mute.old ≡ false → says_missed (S.state shell.old).beside ≡ false }
    ensures answered { (s : State) → Stands (S.state shell.old) tables.old s → MatchResult result
        (λ _. LeadsOn (bounds_of tables.old).file (S.state shell.old)
        (S.state shell.new) tables.new
        (λ t. KnowsLastMoment last.old last.new
        (AnswersOn talk_rules s mute.old (asked (asking target.now body.now close) ∷ []) t mute.new)))
        (λ f. Stretch (S.state shell.old) (S.state shell.new)
        (AnswersSomeOn talk_rules f (bounds_of tables.old).file s mute.old (asked (asking target.now body.now close) ∷ []))) }
    ensures hears { mute.new ≡ false → says_missed (S.state shell.new).beside ≡ false }
    ensures takes { takes_missed (S.state shell.new).beside
        ≡ takes_missed (S.state shell.old).beside }
    ensures cause { IsErrOf result RunFault.Failed
        → Rose (S.state shell.old).faults (S.state shell.new).faults }
    ensures none { Came 0 (S.state shell.old) (S.state shell.new) }
    ensures passes { Passes (S.state shell.old) (S.state shell.new) }
{
    let moment = shell.now();
    *last = Some(moment);
    let text = match response(alloc, scratch, tables, shell, target, body, close, moment) {
        Ok(text) => text,
        Err(fault) => return Err(fault),
    };
    utter(mute, &text, shell);
    match follow(tables, shell, !*mute) {
        Ok(()) => Ok(()),
        Err(fault) => Err(fault),
    }
}

/// Lets the client go on where it waits for that and wasn't let before.
pub(crate) fn hello<S: Shell>(expect: bool, greeted: bool, mute: &mut bool, shell: &mut S)
    requires talking { talks (S.state shell.old).beside ≡ true }
    requires hears { mute.old ≡ false → says_missed (S.state shell.old).beside ≡ false }
    ensures greeted { (s : State) (last : Option ℕ) → LeavesNow (S.state shell.old) s
        → Stretch (S.state shell.old) (S.state shell.new) (KnowsLastMoment last last
        (AnswersOn talk_rules s mute.old (greets greeted expect) s mute.new)) }
    ensures hears { mute.new ≡ false → says_missed (S.state shell.new).beside ≡ false }
    ensures takes { takes_missed (S.state shell.new).beside
        ≡ takes_missed (S.state shell.old).beside }
    ensures keeps { Keeps (S.state shell.old) (S.state shell.new) }
    ensures none { Came 0 (S.state shell.old) (S.state shell.new) }
    ensures passes { Passes (S.state shell.old) (S.state shell.new) }
{
    if !expect {
        return;
    }
    if greeted {
        return;
    }
    utter(mute, CONTINUE, shell)
}
