//! Reads a log, gate by gate: the header, and nine bytes at the place of each gate.

ghost use Rattle.std.specs.Prelude.{◌≡◌, ◌≤◌, ◌+◌, ◌-◌, ◌^◌, ◌<◌, ℕ, List, IfOk, IfErr, IfSome, IfNone, OnOk, OnErr, IsErrOf, IsTrue, is_ok, length, take};
ghost use Rattle.alt_base.specs.Counts.{Rose};
ghost use Rattle.alt_disk.specs.Disk.{Goes, ReadCall, contents};
ghost use Rattle.alt_disk.specs.Runs.{Quiet};
ghost use Rattle.alt_gatelog.specs.Log.{header, ExplainsLog};
ghost use Rattle.alt_gatelog.specs.InHand.{file_of_gate_log, form_of, IsReadAsLog};
ghost use Rattle.alt_gatelog.specs.Parse.{GateIs, HasRoom, IsCutAt, HasNoHeader};
ghost use Rattle.alt_gatelog.specs.declared.form.Form as forms;

use crate::fault::LogFault;
use crate::form::{Form, form_of_header};
use crate::frame::{Gate, gate_of};
use crate::gatelog::GateLog;
use alt_disk::{Disk, Failed};
use std::alloc::Global;

/// The size of a file that begins with a header, and the form that it names.
pub(crate) fn size_of_log<D: Disk>(disk: &mut D, f: u32) -> Result<(u64, Form), LogFault>
    ensures size { IsTrue (D.state disk.old).tells
        → IfOk result (λ p. p.0 ≡ length (contents (D.state disk.old) f)) }
    ensures header { IsTrue (D.state disk.old).tells
        → IfOk result (λ p. take 8 (contents (D.state disk.old) f) ≡ header p.1) }
    ensures bound { IfOk result (λ p. (8 ≤ p.0) × (p.0 ≤ 2 ^ 62)) }
    ensures damaged { IsTrue (D.state disk.old).tells
        → IfErr result (HasNoHeader f (contents (D.state disk.old) f)) }
    ensures quiet { IsTrue (D.state disk.old).tells
        → Quiet (D.state disk.old) (D.state disk.new) }
    ensures goes { Goes (D.state disk.old) (D.state disk.new) }
    ensures cause { IsErrOf result LogFault.Failed
        → Rose (D.state disk.old).faults (D.state disk.new).faults }
    ensures well { (IsErrOf result LogFault.Failed → ⊥)
        → (D.state disk.new).faults ≡ (D.state disk.old).faults }
{
    let size = disk.size(f)?;
    if size < 8 {
        return Err(LogFault::Damaged { file: f, at: 0 });
    }
    match form_at(disk, f)? {
        Some(form) => Ok((size, form)),
        None => Err(LogFault::Damaged { file: f, at: 0 }),
    }
}

// The form that a file's header names, however long the file is; none where it begins with no header.
fn form_at<D: Disk>(disk: &mut D, f: u32) -> Result<Option<Form>, Failed>
    ensures some { IsTrue (D.state disk.old).tells → IfOk result (λ o. IfSome o (λ form.
        take 8 (contents (D.state disk.old) f) ≡ header form)) }
    ensures none { IsTrue (D.state disk.old).tells → IfOk result (λ o. IfNone o
        ((form : forms.Form) → take 8 (contents (D.state disk.old) f) ≡ header form → ⊥)) }
    ensures read { ReadCall (D.state disk.old) (D.state disk.new) f 0 8 (is_ok result) }
    ensures quiet { IsTrue (D.state disk.old).tells
        → Quiet (D.state disk.old) (D.state disk.new) }
    ensures goes { Goes (D.state disk.old) (D.state disk.new) }
    ensures cause { OnErr result (Rose (D.state disk.old).faults (D.state disk.new).faults) }
    ensures well { OnOk result ((D.state disk.new).faults ≡ (D.state disk.old).faults) }
{
    let mut head = [0u8; 8];
    let count = disk.read(f, 0, &mut head)?;
    Ok(form_of_header(&head[..count]))
}

/// What stands at a gate's place in a file of this size.
pub(crate) fn gate_at<D: Disk>(disk: &mut D, f: u32, at: u64, size: u64) -> Result<Gate, LogFault>
    requires { at ≤ size }
    ensures gate { IsTrue (D.state disk.old).tells
        → size ≡ length (contents (D.state disk.old) f)
        → IfOk result (GateIs (contents (D.state disk.old) f) at) }
    ensures damaged { IsTrue (D.state disk.old).tells
        → size ≡ length (contents (D.state disk.old) f)
        → IfErr result (IsCutAt f at (contents (D.state disk.old) f)) }
    ensures room { IfOk result (HasRoom (size - at)) }
    ensures quiet { IsTrue (D.state disk.old).tells
        → Quiet (D.state disk.old) (D.state disk.new) }
    ensures goes { Goes (D.state disk.old) (D.state disk.new) }
    ensures cause { IsErrOf result LogFault.Failed
        → Rose (D.state disk.old).faults (D.state disk.new).faults }
    ensures well { (IsErrOf result LogFault.Failed → ⊥)
        → (D.state disk.new).faults ≡ (D.state disk.old).faults }
{
    let mut head = [0u8; 9];
    let count = disk.read(f, at, &mut head)?;
    match gate_of(&head[..count], size - at) {
        Some(gate) => Ok(gate),
        None => Err(LogFault::Damaged { file: f, at }),
    }
}

/// The log of a file of this size that begins with the header of a form.
pub(crate) fn walk<D: Disk>(
    alloc: Global,
    disk: &mut D,
    f: u32,
    size: u64,
    form: Form,
) -> Result<GateLog, LogFault>
    requires bound { (8 ≤ size) × (size ≤ 2 ^ 62) }
    requires size { IsTrue (D.state disk.old).tells
        → size ≡ length (contents (D.state disk.old) f) }
    requires header { IsTrue (D.state disk.old).tells
        → take 8 (contents (D.state disk.old) f) ≡ header form }
    ensures file { IfOk result (λ log. file_of_gate_log log ≡ f) }
    ensures form { IfOk result (λ log. form_of log ≡ form) }
    ensures reads { IfOk result (λ log. IsTrue (D.state disk.old).tells
        → (entries : List (List ℕ)) × IsReadAsLog (contents (D.state disk.old) f) log entries) }
    ensures damaged { IsTrue (D.state disk.old).tells
        → IfErr result (ExplainsLog f (contents (D.state disk.old) f)) }
    ensures quiet { IsTrue (D.state disk.old).tells
        → Quiet (D.state disk.old) (D.state disk.new) }
    ensures goes { Goes (D.state disk.old) (D.state disk.new) }
    ensures cause { IsErrOf result LogFault.Failed
        → Rose (D.state disk.old).faults (D.state disk.new).faults }
    ensures well { (IsErrOf result LogFault.Failed → ⊥)
        → (D.state disk.new).faults ≡ (D.state disk.old).faults }
{
    let mut places = Vec::new(alloc);
    let mut at = 8;
    'gates: loop {
        match gate_at(disk, f, at, size) {
            Ok(Gate::Closed) => break 'gates,
            Ok(Gate::Open(length)) => {
                places.push(at)?;
                at += 9 + length;
            }
            Err(fault) => return Err(fault),
        }
    }
    Ok(GateLog {
        alloc,
        form,
        file: f,
        gate: at,
        places,
    })
}
