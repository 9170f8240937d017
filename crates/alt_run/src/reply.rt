//! The text that answers a request.

ghost use Rattle.std.specs.Prelude.{◌≡◌, false, None, IfOk, IfErr, IsErrOf, OnOk, string_bytes};
ghost use Rattle.serde_json.specs.Written.{has_float};
ghost use Rattle.alt_base.specs.Counts.{Rose};
ghost use Rattle.alt_disk.specs.Disk.{Goes};
ghost use Rattle.alt_machine.specs.State.{State};
ghost use Rattle.alt_machine.specs.Wanted.{wanted};
ghost use Rattle.alt_shape.specs.Body.{body_json};
ghost use Rattle.alt_shape.specs.Refusals.{answer_of};
ghost use Rattle.alt_tables.specs.Stands.{AreReady, Stands, bounds_of};
ghost use Rattle.alt_talks.specs.Faults.{IsAnswerFault};
ghost use Rattle.alt_talks.specs.declared.fault.RunFault.TheVariants.{Failed};
ghost use Rattle.alt_talks.specs.Stops.{AtEach, IsUncut};
ghost use Rattle.alt_run.specs.Turns.{carried_out, line_of, outcome_by_name};
ghost use Rattle.alt_run.specs.private.Rungs.{left_by_named_request};

use alt_base::NoMemory;
use alt_disk::Disk;
use alt_shape::Reply;
use alt_tables::Tables;
use alt_talks::{RunFault, answer, operation_named};
use json::Scratch;
use std::alloc::Global;

/// The line of a reply.
fn line_of(alloc: Global, reply: &Reply) -> Result<String, NoMemory>
    requires { has_float (body_json reply.now.body) ≡ false }
    ensures { IfOk result (λ s. string_bytes s ≡ line_of (answer_of reply.now)) }
{
    let text = reply.body.to_string(alloc)?;
    let status = reply.status;
    Ok(format!(in alloc; "{status} {text}\n")?)
}

/// The text that answers a request, which is carried out at a moment.
pub(crate) fn reply_text<D: Disk>(
    alloc: Global,
    scratch: &mut Scratch<Global>,
    tables: &mut Tables,
    disk: &mut D,
    name: &[u8],
    body: &[u8],
    moment: u64,
) -> Result<String, RunFault>
    requires ready { AreReady (D.state disk.old) tables.old }
    ensures text { (s : State) → Stands (D.state disk.old) tables.old s → IfOk result
        (λ text. string_bytes text ≡ (carried_out s name.now body.now moment).text) }
    ensures state { (s : State) → Stands (D.state disk.old) tables.old s → OnOk result
        (Stands (D.state disk.new) tables.new
        (left_by_named_request s name.now body.now moment)) }
    ensures enough { (s : State) → Stands (D.state disk.old) tables.old s → OnOk result
        (wanted s (outcome_by_name s name.now body.now moment) ≡ None) }
    ensures cause { (s : State) → Stands (D.state disk.old) tables.old s → IfErr result
        (IsAnswerFault (bounds_of tables.old).file
        (wanted s (outcome_by_name s name.now body.now moment))
        (outcome_by_name s name.now body.now moment).atoms) }
    ensures device { IsErrOf result Failed
        → Rose (D.state disk.old).faults (D.state disk.new).faults }
    ensures limits { bounds_of tables.new ≡ bounds_of tables.old }
    ensures goes { Goes (D.state disk.old) (D.state disk.new) }
    ensures leaves { (s : State) → Stands (D.state disk.old) tables.old s
        → AtEach (D.state disk.old) (D.state disk.new)
        (λ _ image. IsUncut image s (carried_out s name.now body.now moment).atoms) }
{
    match answer(
        alloc,
        scratch,
        tables,
        disk,
        operation_named(name),
        body,
        moment,
    ) {
        Ok(reply) => match line_of(alloc, &reply) {
            Ok(text) => Ok(text),
            Err(_) => Err(RunFault::NoMemory),
        },
        Err(fault) => Err(RunFault::from(fault)),
    }
}
