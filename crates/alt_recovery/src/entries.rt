//! The entries of a segment, read as writes.

ghost use Rattle.std.specs.Prelude.{◌≡◌, ◌<◌, ℕ, List, [], IfOk, IfErr, IsErrOf, IsTrue, get_or, length};
ghost use Rattle.alt_base.specs.Counts.{Rose};
ghost use Rattle.alt_disk.specs.Disk.{Goes};
ghost use Rattle.alt_disk.specs.Runs.{Quiet};
ghost use Rattle.alt_gatelog.specs.InHand.{count_of, form_of, ReadsEntries};
ghost use Rattle.alt_gatelog.specs.declared.form.Form.TheVariants.{One};
ghost use Rattle.alt_layout.specs.Entries.{IsEntry, IsNoEntry};
ghost use Rattle.alt_writes.specs.Bytes.{AllHeld};
ghost use Rattle.alt_writes.specs.Reading.{IsNone, writes_of};
ghost use Rattle.alt_writes.specs.Writes.{AreRising};
ghost use Rattle.alt_recovery.specs.Entries.{ExplainsEntry, writes_in};

use alt_disk::Disk;
use alt_gatelog::{Form, GateLog, LogFault};
use alt_writes::{LoggedWrite, Stop, read_group, read_write};
use std::alloc::Global;

/// The writes of an entry as they were read, and how many bytes it has.
#[derive(Drop)]
pub struct LoggedEntry {
    pub writes: Vec<LoggedWrite>,
    pub length: usize,
}

/// The writes of an entry of the log of that file, whose numbers rise and aren't below the least.
pub fn read_entry<D: Disk>(
    alloc: Global,
    disk: &mut D,
    f: u32,
    log: &mut GateLog,
    i: usize,
    least: u64,
) -> Result<LoggedEntry, LogFault>
    requires { i < count_of log.old }
    ensures log { log.new ≡ log.old }
    ensures held { IfOk result (λ read. AllHeld (writes_in read)) }
    ensures rising { IfOk result (λ read. AreRising least (writes_in read)) }
    ensures length { IfOk result (λ read. IsTrue (D.state disk.old).tells
        → (entries : List (List ℕ)) → ReadsEntries (D.state disk.old) log.old entries
        → read.length ≡ length (get_or entries i [])) }
    ensures entry { IfOk result (λ read. IsTrue (D.state disk.old).tells
        → (entries : List (List ℕ)) → ReadsEntries (D.state disk.old) log.old entries
        → IsEntry (form_of log.old) (get_or entries i []) (writes_in read)) }
    ensures damaged { IsTrue (D.state disk.old).tells → (entries : List (List ℕ))
        → ReadsEntries (D.state disk.old) log.old entries
        → IfErr result (ExplainsEntry (form_of log.old) f entries i least) }
    ensures quiet { IsTrue (D.state disk.old).tells
        → Quiet (D.state disk.old) (D.state disk.new) }
    ensures goes { Goes (D.state disk.old) (D.state disk.new) }
    ensures cause { IsErrOf result LogFault.Failed
        → Rose (D.state disk.old).faults (D.state disk.new).faults }
    ensures well { (IsErrOf result LogFault.Failed → ⊥)
        → (D.state disk.new).faults ≡ (D.state disk.old).faults }
{
    let mut bytes = Vec::new(alloc);
    match log.entry(disk, i, &mut bytes) {
        Ok(()) => {}
        Err(fault) => return Err(fault),
    }
    match read_writes(alloc, log.form(), least, bytes.as_slice()) {
        Ok(writes) => Ok(LoggedEntry {
            writes,
            length: bytes.len(),
        }),
        Err(Stop::Bad) => Err(LogFault::Damaged {
            file: f,
            at: log.place(i),
        }),
        Err(Stop::NoMemory) => Err(LogFault::NoMemory),
    }
}

/// The writes that an entry of a log of this form holds.
fn read_writes(
    alloc: Global,
    form: Form,
    least: u64,
    bytes: &[u8],
) -> Result<Vec<LoggedWrite>, Stop>
    ensures held { IfOk result (λ reads. AllHeld (writes_of reads.items)) }
    ensures rising { IfOk result (λ reads. AreRising least (writes_of reads.items)) }
    ensures entry { IfOk result (λ reads. IsEntry form bytes.now (writes_of reads.items)) }
    ensures none { IfErr result (IsNone (IsNoEntry form least bytes.now)) }
{
    match form {
        Form::One => read_alone(alloc, least, bytes),
        Form::Two => read_group(alloc, least, bytes),
    }
}

/// The one write that an entry of the first form holds.
fn read_alone(alloc: Global, least: u64, bytes: &[u8]) -> Result<Vec<LoggedWrite>, Stop>
    ensures held { IfOk result (λ reads. AllHeld (writes_of reads.items)) }
    ensures rising { IfOk result (λ reads. AreRising least (writes_of reads.items)) }
    ensures entry { IfOk result (λ reads. IsEntry One bytes.now (writes_of reads.items)) }
    ensures none { IfErr result (IsNone (IsNoEntry One least bytes.now)) }
{
    match read_write(alloc, least, bytes) {
        Ok(read) => {
            let mut reads = Vec::new(alloc);
            match reads.push(read) {
                Ok(()) => Ok(reads),
                Err(_) => Err(Stop::NoMemory),
            }
        }
        Err(stop) => Err(stop),
    }
}
