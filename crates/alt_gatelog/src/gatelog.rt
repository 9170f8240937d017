//! The log in hand. An entry's gate stands closed on the disk before anything is written behind it, and is opened by a write of its
//! own, so that a stop leaves each entry whole or not at all.

ghost use Rattle.std.specs.Prelude.{◌≡◌, ◌<◌, ◌^◌};
ghost use Rattle.std.specs.List.{All};

use crate::durable::write_and_sync;
use crate::fault::LogFault;
use crate::form::{Form, empty_log};
use crate::frame::frame_of;
use crate::read::{size_of_log, walk};
use alt_disk::{Disk, DiskFault, Failed};
use std::alloc::{AllocError, Global};

/// A gated log: the places of its entries, which lie on the disk.
#[derive(Drop)]
pub struct GateLog {
    pub(crate) alloc: Global,
    pub(crate) form: Form,
    pub(crate) file: u32,
    pub(crate) gate: u64,
    pub(crate) places: Vec<u64>,
    ghost small: { gate < 2 ^ 62 },
    ghost within: { All (λ at. at < 2 ^ 62) places.items },
}

impl GateLog {
    ghost use Rattle.std.specs.Prelude.{ℕ, List, [], ◌∷◌, ◌++◌, None, Some, IfOk, IfErr, OnOk, OnErr, IsErrOf, IsTrue, ⊤, length, get_or, ◌+◌};
    ghost use Rattle.alt_base.specs.Counts.{Rose};
    ghost use Rattle.alt_disk.specs.Disk.{DiskState, IsTrusted, Goes, contents};
    ghost use Rattle.alt_disk.specs.Runs.{Run, Quiet};
    ghost use Rattle.alt_gatelog.specs.Log.{log_bytes, log_after, gate_place, BeforeOrAfter, ExplainsLog};
    ghost use Rattle.alt_gatelog.specs.InHand.{file_of_gate_log, form_of, count_of, end_of, HasPlace, HasRead, IsFramed, ReadsEntries, SameLog, StandsForEntries};
    ghost use Rattle.alt_gatelog.specs.Parse.{HasNoLog, IsNoDamage, IsDamageAt};

    /// Makes an empty log of a form in a missing file, which then has nine bytes.
    pub fn make<D: Disk>(
        alloc: Global,
        disk: &mut D,
        f: u32,
        form: Form,
    ) -> Result<GateLog, DiskFault>
        requires { IsTrusted (D.state disk.old) → (D.state disk.old).file f ≡ None }
        ensures file { IfOk result (λ log. file_of_gate_log log ≡ f) }
        ensures given { IfOk result (λ log. form_of log ≡ form) }
        ensures room { IfOk result HasPlace }
        ensures made { IfOk result (λ log. IsTrusted (D.state disk.old)
            → StandsForEntries (D.state disk.new) log []) }
        ensures bytes { IfOk result (λ log. IsTrusted (D.state disk.old)
            → (D.state disk.new).file f ≡ Some (log_bytes (form_of log) [] 0 [])) }
        ensures any_moment { IsTrusted (D.state disk.old)
            → Run (D.state disk.old) (D.state disk.new) f (λ _ _. ⊤) }
        ensures no_memory { IsErrOf result DiskFault.NoMemory
            → D.state disk.new ≡ D.state disk.old }
        ensures calls { OnOk result ((D.state disk.new).moment ≡ (D.state disk.old).moment + 2) }
        ensures goes { Goes (D.state disk.old) (D.state disk.new) }
        ensures cause { IsErrOf result DiskFault.Failed
            → Rose (D.state disk.old).faults (D.state disk.new).faults }
        ensures well { OnOk result ((D.state disk.new).faults ≡ (D.state disk.old).faults) }
    {
        let mut places = Vec::new(alloc);
        places.reserve(1)?;
        write_and_sync(disk, f, 0, &empty_log(form))?;
        Ok(GateLog {
            alloc,
            form,
            file: f,
            gate: 8,
            places,
        })
    }

    /// Adds an entry. At Ok a stop from then on leaves a file that has it. At Failed recover the log again before the next entry,
    /// since the file may read with the entry or without.
    pub fn append<D: Disk>(&mut self, disk: &mut D, bytes: &[u8]) -> Result<(), DiskFault>
        requires { IsTrusted (D.state disk.old)
            → (entries : List (List ℕ)) × ReadsEntries (D.state disk.old) self.old entries }
        ensures file { file_of_gate_log self.new ≡ file_of_gate_log self.old }
        ensures form { form_of self.new ≡ form_of self.old }

        // At Ok the list is the old one with the entry, as the disk reads and in what a stop leaves, and ends with the closed gate 00.
        ensures ok { OnOk result (IsTrusted (D.state disk.old) → (entries : List (List ℕ))
            → ReadsEntries (D.state disk.old) self.old entries
            → StandsForEntries (D.state disk.new) self.new (entries ++ bytes.now ∷ [])) }
        ensures bytes { OnOk result (IsTrusted (D.state disk.old) → (entries : List (List ℕ))
            → (reads : ReadsEntries (D.state disk.old) self.old entries)
            → (D.state disk.new).file (file_of_gate_log self.old)
            ≡ Some (log_after (form_of self.old) entries bytes.now reads.rest)) }
        ensures err { OnErr result (SameLog self.old self.new) }

        // Where a stop left the log so before, one at any moment of the call leaves the list from before it, or with the entry.
        ensures any_moment { IsTrusted (D.state disk.old) → (entries : List (List ℕ))
            → StandsForEntries (D.state disk.old) self.old entries
            → Run (D.state disk.old) (D.state disk.new) (file_of_gate_log self.old)
            (BeforeOrAfter (form_of self.old) entries bytes.now) }

        // Other files stay as they were, in reads and in what a stop leaves.
        ensures others { IsTrusted (D.state disk.old)
            → Run (D.state disk.old) (D.state disk.new) (file_of_gate_log self.old) (λ _ _. ⊤) }
        ensures no_memory { IsErrOf result DiskFault.NoMemory
            → D.state disk.new ≡ D.state disk.old }
        ensures calls { OnOk result ((D.state disk.new).moment ≡ (D.state disk.old).moment + 4) }
        ensures goes { Goes (D.state disk.old) (D.state disk.new) }
        ensures cause { IsErrOf result DiskFault.Failed
            → Rose (D.state disk.old).faults (D.state disk.new).faults }
        ensures well { OnOk result ((D.state disk.new).faults ≡ (D.state disk.old).faults) }
    {
        let block = frame_of(self.alloc, bytes)?;
        self.reserve()?;
        self.add(disk, block.as_slice())?;
        Ok(())
    }

    /// Takes the memory that an entry more wants beside its frame.
    pub fn reserve(&mut self) -> Result<(), AllocError>
        ensures same { SameLog self.old self.new }
        ensures room { OnOk result (HasPlace self.new) }
    {
        self.places.reserve(1)
    }

    /// Adds an entry by its frame, as `append` does. It takes no memory.
    pub fn add<D: Disk>(&mut self, disk: &mut D, block: &[u8]) -> Result<(), Failed>
        requires reads { IsTrusted (D.state disk.old)
            → (entries : List (List ℕ)) × ReadsEntries (D.state disk.old) self.old entries }
        requires room { HasPlace self.old }
        ensures file { file_of_gate_log self.new ≡ file_of_gate_log self.old }
        ensures form { form_of self.new ≡ form_of self.old }
        ensures ok { OnOk result (IsTrusted (D.state disk.old)
            → (entries : List (List ℕ)) (entry : List ℕ) → IsFramed block.now entry
            → ReadsEntries (D.state disk.old) self.old entries
            → StandsForEntries (D.state disk.new) self.new (entries ++ entry ∷ [])) }
        ensures bytes { OnOk result (IsTrusted (D.state disk.old)
            → (entries : List (List ℕ)) (entry : List ℕ) → IsFramed block.now entry
            → (reads : ReadsEntries (D.state disk.old) self.old entries)
            → (D.state disk.new).file (file_of_gate_log self.old)
            ≡ Some (log_after (form_of self.old) entries entry reads.rest)) }
        ensures err { OnErr result (SameLog self.old self.new) }
        ensures any_moment { IsTrusted (D.state disk.old)
            → (entries : List (List ℕ)) (entry : List ℕ) → IsFramed block.now entry
            → StandsForEntries (D.state disk.old) self.old entries
            → Run (D.state disk.old) (D.state disk.new) (file_of_gate_log self.old)
            (BeforeOrAfter (form_of self.old) entries entry) }
        ensures others { IsTrusted (D.state disk.old)
            → Run (D.state disk.old) (D.state disk.new) (file_of_gate_log self.old) (λ _ _. ⊤) }
        ensures calls { OnOk result ((D.state disk.new).moment ≡ (D.state disk.old).moment + 4) }
        ensures goes { Goes (D.state disk.old) (D.state disk.new) }
        ensures cause { OnErr result (Rose (D.state disk.old).faults (D.state disk.new).faults) }
        ensures well { OnOk result ((D.state disk.new).faults ≡ (D.state disk.old).faults) }
    {
        write_and_sync(disk, self.file, self.gate + 1, block)?;
        write_and_sync(disk, self.file, self.gate, &[1])?;
        self.places.push_reserved(self.gate);
        self.gate += block.len() as u64;
        Ok(())
    }

    /// The form that it was made in, or that its header names.
    pub fn form(&self) -> Form
        ensures { result ≡ form_of self.now }
    {
        self.form
    }

    /// How many entries there are.
    pub fn entries(&self) -> usize
        ensures count { result ≡ count_of self.now }
        ensures list { (s : DiskState) (entries : List (List ℕ)) → ReadsEntries s self.now entries
            → result ≡ length entries }
    {
        self.places.len()
    }

    /// The place of an entry's gate.
    pub fn place(&self, i: usize) -> u64
        requires { i < count_of self.now }
        ensures { (s : DiskState) (entries : List (List ℕ)) → ReadsEntries s self.now entries
            → result ≡ gate_place entries i }
    {
        self.places[i]
    }

    /// Reads the log of a file, of either form. It holds the places of the entries, and no entry.
    pub fn recover<D: Disk>(alloc: Global, disk: &mut D, f: u32) -> Result<GateLog, LogFault>
        ensures file { IfOk result (λ log. file_of_gate_log log ≡ f) }
        ensures reads { IfOk result (λ log. IsTrue (D.state disk.old).tells
            → (entries : List (List ℕ)) × ReadsEntries (D.state disk.new) log entries) }
        ensures damaged { IsTrue (D.state disk.old).tells
            → IfErr result (ExplainsLog f (contents (D.state disk.old) f)) }
        ensures no_log { IsTrue (D.state disk.old).tells
            → IfErr result (HasNoLog (contents (D.state disk.old) f)) }
        ensures quiet { IsTrue (D.state disk.old).tells
            → Quiet (D.state disk.old) (D.state disk.new) }
        ensures goes { Goes (D.state disk.old) (D.state disk.new) }
        ensures cause { IsErrOf result LogFault.Failed
            → Rose (D.state disk.old).faults (D.state disk.new).faults }
        ensures well { (IsErrOf result LogFault.Failed → ⊥)
            → (D.state disk.new).faults ≡ (D.state disk.old).faults }
    {
        match size_of_log(disk, f) {
            Ok((size, form)) => walk(alloc, disk, f, size, form),
            Err(fault) => Err(fault),
        }
    }

    /// Adds the bytes of an entry to `out`, which an error leaves as it was. It reads no other entry. They are as many as the entry
    /// has, by one read that gave them all, whatever the file has.
    pub fn entry<D: Disk>(
        &mut self,
        disk: &mut D,
        i: usize,
        out: &mut Vec<u8>,
    ) -> Result<(), LogFault>
        requires { i < count_of self.old }
        ensures ok { OnOk result (IsTrue (D.state disk.old).tells → (entries : List (List ℕ))
            → ReadsEntries (D.state disk.old) self.old entries
            → out.new.items ≡ out.old.items ++ get_or entries i []) }
        ensures given { OnOk result (HasRead (D.state disk.old) (D.state disk.new) self.old i
            out.old.items out.new.items) }
        ensures err { OnErr result (out.new.items ≡ out.old.items) }
        ensures undamaged { IsTrue (D.state disk.old).tells → (entries : List (List ℕ))
            → ReadsEntries (D.state disk.old) self.old entries → IfErr result IsNoDamage }
        ensures damaged { (s : DiskState) (entries : List (List ℕ)) → ReadsEntries s self.old entries
            → IfErr result (IsDamageAt (file_of_gate_log self.old)
            (gate_place entries i)) }
        ensures list { self.new ≡ self.old }
        ensures quiet { IsTrue (D.state disk.old).tells
            → Quiet (D.state disk.old) (D.state disk.new) }
        ensures goes { Goes (D.state disk.old) (D.state disk.new) }
        ensures cause { IsErrOf result LogFault.Failed
            → Rose (D.state disk.old).faults (D.state disk.new).faults }
        ensures well { (IsErrOf result LogFault.Failed → ⊥)
            → (D.state disk.new).faults ≡ (D.state disk.old).faults }
    {
        let at = self.places[i];
        let next = self.next_gate(i);
        let length = next.saturating_sub(at + 9) as usize;
        let start = out.len();
        out.resize(start + length, 0)?;
        match disk.read(self.file, at + 9, &mut out[start..]) {
            Ok(count) => {
                if count == length {
                    return Ok(());
                }
                out.truncate(start);
                Err(LogFault::Damaged {
                    file: self.file,
                    at,
                })
            }
            Err(_) => {
                out.truncate(start);
                Err(LogFault::Failed)
            }
        }
    }

    // The place of the gate behind an entry.
    fn next_gate(&self, i: usize) -> u64
        requires { i < count_of self.now }
        ensures next { result ≡ end_of self.now i }
        ensures bound { result < 2 ^ 62 }
    {
        if i + 1 == self.places.len() {
            self.gate
        } else {
            self.places[i + 1]
        }
    }
}
