//! The texts that are said on a connection.

ghost use Rattle.std.specs.Prelude.{◌≡◌, ◌≤◌, ◌<◌, true, false, None, IfOk, IfErr, IsErrOf, OnOk, option_and_then};
ghost use Rattle.serde_json.specs.Written.{has_float};
ghost use Rattle.alt_base.specs.Counts.{Rose};
ghost use Rattle.alt_disk.specs.Disk.{Goes};
ghost use Rattle.alt_dispatch.specs.Targets.{operation_at};
ghost use Rattle.alt_http.specs.Replies.{reply_text, refusal_status, refusal_body};
ghost use Rattle.alt_machine.specs.Outcomes.{last_state};
ghost use Rattle.alt_machine.specs.State.{State};
ghost use Rattle.alt_machine.specs.Wanted.{wanted};
ghost use Rattle.alt_shape.specs.Body.{body_json};
ghost use Rattle.alt_shape.specs.Refusals.{answer_of};
ghost use Rattle.alt_tables.specs.Stands.{AreReady, Stands, bounds_of};
ghost use Rattle.alt_talks.specs.Faults.{IsAnswerFault};
ghost use Rattle.alt_talks.specs.Stops.{AtEach, IsUncut};
ghost use Rattle.alt_talks.specs.TalkRules.{outcome_of, http_text, status_said};
ghost use Rattle.alt_talks.specs.private.InHand.{asking};
ghost use Rattle.alt_talks.specs.declared.fault.RunFault.TheVariants.{Failed};

use crate::fault::RunFault;
use alt_base::NoMemory;
use alt_disk::Disk;
use alt_dispatch::{answer, operation_of};
use alt_fields::Bytes;
use alt_http::{refusal_body, refusal_status, reply};
use alt_machine::Operation;
use alt_shape::Reply;
use alt_tables::Tables;
use json::Scratch;
use std::alloc::Global;

/// The reply to a head that is refused.
pub(crate) fn refusal_text(alloc: Global, number: u8, moment: u64) -> Result<Vec<u8>, NoMemory>
    requires low { 1 ≤ number }
    requires high { number ≤ 9 }
    requires dated { moment < 253402300800 }
    ensures { IfOk result (λ text. text.items
        ≡ reply_text (refusal_status number) moment true (refusal_body number)) }
{
    let mut text = Vec::new(alloc);
    reply(
        refusal_status(number),
        moment,
        true,
        refusal_body(number),
        &mut text,
    )?;
    Ok(text)
}

/// The status with which an answer is told.
fn status_said(status: u16) -> u16
    ensures { result ≡ status_said status }
{
    if status == 200 { 200 } else { 400 }
}

/// The bytes of a reply.
fn text_of(alloc: Global, answer: &Reply, moment: u64, close: bool) -> Result<Vec<u8>, NoMemory>
    requires plain { has_float (body_json answer.now.body) ≡ false }
    requires dated { moment < 253402300800 }
    ensures { IfOk result (λ text. text.items ≡ http_text (answer_of answer.now) moment close) }
{
    let body = answer.body.to_string(alloc)?;
    let mut text = Vec::new(alloc);
    reply(
        status_said(answer.status),
        moment,
        close,
        body.as_bytes(),
        &mut text,
    )?;
    Ok(text)
}

/// The operation that a target names, if it names one.
fn operation_in(target: &Option<Bytes>) -> Option<Operation>
    ensures { result ≡ option_and_then operation_at target.now }
{
    match target {
        Some(target) => operation_of(target.as_slice()),
        None => None,
    }
}

/// Carries a request out at a moment, and gives the text of its reply.
pub(crate) fn response<D: Disk>(
    alloc: Global,
    scratch: &mut Scratch<Global>,
    tables: &mut Tables,
    disk: &mut D,
    target: &Option<Bytes>,
    body: &[u8],
    close: bool,
    moment: u64,
) -> Result<Vec<u8>, RunFault>
    requires ready { AreReady (D.state disk.old) tables.old }
    requires dated { moment < 253402300800 }
    ensures text { (s : State) → Stands (D.state disk.old) tables.old s → IfOk result
        (λ text. text.items ≡ http_text (outcome_of s (asking target.now body.now close)
        moment).answer moment close) }
    ensures state { (s : State) → Stands (D.state disk.old) tables.old s → OnOk result
        (Stands (D.state disk.new) tables.new
        (last_state s (outcome_of s (asking target.now body.now close) moment).atoms)) }
    ensures enough { (s : State) → Stands (D.state disk.old) tables.old s → OnOk result
        (wanted s (outcome_of s (asking target.now body.now close) moment) ≡ None) }
    ensures cause { (s : State) → Stands (D.state disk.old) tables.old s → IfErr result
        (IsAnswerFault (bounds_of tables.old).file (wanted s (outcome_of s (asking target.now body.now close) moment))
        (outcome_of s (asking target.now body.now close) moment).atoms) }
    ensures device { IsErrOf result Failed
        → Rose (D.state disk.old).faults (D.state disk.new).faults }
    ensures limits { bounds_of tables.new ≡ bounds_of tables.old }
    ensures goes { Goes (D.state disk.old) (D.state disk.new) }
    ensures leaves { (s : State) → Stands (D.state disk.old) tables.old s
        → AtEach (D.state disk.old) (D.state disk.new) (λ _ image. IsUncut image s
        (outcome_of s (asking target.now body.now close) moment).atoms) }
{
    match answer(
        alloc,
        scratch,
        tables,
        disk,
        operation_in(target),
        body,
        moment,
    ) {
        Ok(reply) => match text_of(alloc, &reply, moment, close) {
            Ok(text) => Ok(text),
            Err(_) => Err(RunFault::NoMemory),
        },
        Err(fault) => Err(RunFault::from(fault)),
    }
}
