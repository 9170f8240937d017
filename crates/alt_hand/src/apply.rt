//! Writes: batches that are one entry of the log.

ghost use Rattle.std.specs.Prelude.{ℕ, ◌≡◌, ◌⊎◌, ◌<◌, ◌≤◌, ◌+◌, ◌-◌, ◌^◌, Err, IfOk, IfErr, IfSome, None, OnOk, IsErrOf, length, max, ⊤};
ghost use Rattle.alt_base.specs.Counts.{Rose};
ghost use Rattle.alt_disk.specs.Disk.{IsTrusted, Goes};
ghost use Rattle.alt_disk.specs.Runs.{Spans};
ghost use Rattle.alt_gatelog.specs.declared.form.Form.TheVariants.{One};
ghost use Rattle.alt_layout.specs.Layout.{Layout};
ghost use Rattle.alt_layout.specs.Writes.{with_write, with_writes};
ghost use Rattle.alt_hand.specs.Adding.{IsBehind};
ghost use Rattle.alt_hand.specs.Carrying.{CarriesFamily};
ghost use Rattle.alt_hand.specs.Drafting.{EngineFaultIsOutside};
ghost use Rattle.alt_hand.specs.Merging.{files_at};
ghost use Rattle.alt_hand.specs.InHand.{BeforeOrAll, BeforeOrWith, IsSpentBy, HandStandsForLayout, WantsFile, WantsNumber, batch_write, batch_writes, files_made, last_form_of, limits_of, next_file_of, next_of, work_file_of};

use crate::hand::Hand;
use alt_cells::Batch;
use alt_disk::{Disk, Failed};
use alt_drafts::{EngineFault, full_after};
use alt_families::{put_batches, with_more};
use alt_gatelog::{Form, frame_of};
use alt_writes::group_of;

/// The number that no write takes: 2^62 - 1.
const LAST_NUMBER: u64 = 4_611_686_018_427_387_903;

impl Hand {
    /// Joins batches to the rows as one entry, each as a write, which are numbered in order from the next number on; the first one is
    /// answered. Behind a segment of the first form a new one is made before. After an Err the engine is spent, unless it is Spent.
    pub fn apply_all<D: Disk>(
        &mut self,
        disk: &mut D,
        batches: &[Batch],
    ) -> Result<u64, EngineFault>
        requires some { 0 < length batches.now }
        requires stands { IsTrusted (D.state disk.old)
            → (l : Layout) × HandStandsForLayout (D.state disk.old) self.old l }
        ensures ok { OnOk result (IsTrusted (D.state disk.old) → (l : Layout)
            → HandStandsForLayout (D.state disk.old) self.old l → HandStandsForLayout (D.state disk.new) self.new
            (with_writes l (batch_writes l batches.now))) }
        ensures number { IfOk result (λ n. n ≡ next_of self.old) }
        ensures next { OnOk result (next_of self.new ≡ next_of self.old + length batches.now) }
        ensures limits { limits_of self.new ≡ limits_of self.old }

        // At Ok the entry stands in a segment of the second form: in the last one, or in one that was made and named behind the others.
        ensures segment { OnOk result (IsBehind (last_form_of self.old) self.old self.new) }
        ensures most { next_file_of self.new
            ≤ next_file_of self.old + files_made (last_form_of self.old) }
        ensures least { next_file_of self.old ≤ next_file_of self.new }
        ensures given { work_file_of self.new ≡ work_file_of self.old }

        // The files of each family stay, and a merge of them under way stays one.
        ensures files { OnOk result ((family : ℕ)
            → files_at self.new family ≡ files_at self.old family) }
        ensures carries { OnOk result (IsTrusted (D.state disk.old) → (l : Layout)
            → HandStandsForLayout (D.state disk.old) self.old l → (family : ℕ)
            → CarriesFamily (D.state disk.old) (D.state disk.new) self.old self.new family) }

        // A stop at any moment of the call, also one that fails, leaves the rows from before it or with all batches.
        ensures any_moment { IsTrusted (D.state disk.old) → (l : Layout)
            → HandStandsForLayout (D.state disk.old) self.old l
            → Spans (D.state disk.old) (D.state disk.new) (λ _. ⊤) (BeforeOrAll l batches.now) }

        // A number is spent exactly where one of those that are wanted is 2^62 - 1, and else where the new segment wants file 2^32 - 1.
        ensures spent_number { 2 ^ 62 - 1 < next_of self.old + length batches.now
            → result ≡ Err (EngineFault.Spent (max (next_of self.old) (2 ^ 62 - 1))) }
        ensures spent_file { next_of self.old + length batches.now ≤ 2 ^ 62 - 1
            → last_form_of self.old ≡ One → 2 ^ 32 - 1 ≤ next_file_of self.old
            → result ≡ Err (EngineFault.Spent (next_file_of self.old)) }
        ensures cause_spent { IfErr result (IsSpentBy self.old (length batches.now)) }
        ensures unchanged { (number : ℕ) → IsErrOf result (EngineFault.Spent number)
            → D.state disk.new ≡ D.state disk.old }
        ensures same { (number : ℕ) → IsErrOf result (EngineFault.Spent number)
            → self.new ≡ self.old }
        ensures no_memory { IsErrOf result EngineFault.NoMemory
            → D.state disk.new ≡ D.state disk.old }
        ensures goes { Goes (D.state disk.old) (D.state disk.new) }
        ensures cause { IsErrOf result EngineFault.Failed
            → Rose (D.state disk.old).faults (D.state disk.new).faults }
        ensures well { OnOk result ((D.state disk.new).faults ≡ (D.state disk.old).faults) }
    {
        match self.wanting(batches.len()) {
            Some(number) => Err(EngineFault::Spent { number }),
            None => self.write(disk, batches),
        }
    }

    /// Joins a batch to the rows, as `apply_all` of it alone.
    pub fn apply<D: Disk>(&mut self, disk: &mut D, batch: &Batch) -> Result<u64, EngineFault>
        requires { IsTrusted (D.state disk.old)
            → (l : Layout) × HandStandsForLayout (D.state disk.old) self.old l }
        ensures ok { OnOk result (IsTrusted (D.state disk.old) → (l : Layout)
            → HandStandsForLayout (D.state disk.old) self.old l
            → HandStandsForLayout (D.state disk.new) self.new (with_write l (batch_write l batch.now))) }
        ensures number { IfOk result (λ n. n ≡ next_of self.old) }
        ensures next { OnOk result (next_of self.new ≡ next_of self.old + 1) }
        ensures limits { limits_of self.new ≡ limits_of self.old }
        ensures segment { OnOk result (IsBehind (last_form_of self.old) self.old self.new) }
        ensures most { next_file_of self.new
            ≤ next_file_of self.old + files_made (last_form_of self.old) }
        ensures least { next_file_of self.old ≤ next_file_of self.new }
        ensures given { work_file_of self.new ≡ work_file_of self.old }
        ensures files { OnOk result ((family : ℕ)
            → files_at self.new family ≡ files_at self.old family) }
        ensures carries { OnOk result (IsTrusted (D.state disk.old) → (l : Layout)
            → HandStandsForLayout (D.state disk.old) self.old l → (family : ℕ)
            → CarriesFamily (D.state disk.old) (D.state disk.new) self.old self.new family) }

        // A stop at any moment of the call, also one that fails, leaves the rows from before it or with the whole batch.
        ensures any_moment { IsTrusted (D.state disk.old) → (l : Layout)
            → HandStandsForLayout (D.state disk.old) self.old l
            → Spans (D.state disk.old) (D.state disk.new) (λ _. ⊤) (BeforeOrWith l batch.now) }

        // A number is spent exactly where the next one is 2^62 - 1, and else where the new segment wants file 2^32 - 1.
        ensures spent_number { 2 ^ 62 - 1 ≤ next_of self.old
            → result ≡ Err (EngineFault.Spent (next_of self.old)) }
        ensures spent_file { next_of self.old < 2 ^ 62 - 1 → last_form_of self.old ≡ One
            → 2 ^ 32 - 1 ≤ next_file_of self.old
            → result ≡ Err (EngineFault.Spent (next_file_of self.old)) }
        ensures cause_spent { IfErr result (IsSpentBy self.old 1) }
        ensures unchanged { (number : ℕ) → IsErrOf result (EngineFault.Spent number)
            → D.state disk.new ≡ D.state disk.old }
        ensures same { (number : ℕ) → IsErrOf result (EngineFault.Spent number)
            → self.new ≡ self.old }
        ensures no_memory { IsErrOf result EngineFault.NoMemory
            → D.state disk.new ≡ D.state disk.old }
        ensures goes { Goes (D.state disk.old) (D.state disk.new) }
        ensures cause { IsErrOf result EngineFault.Failed
            → Rose (D.state disk.old).faults (D.state disk.new).faults }
        ensures well { OnOk result ((D.state disk.new).faults ≡ (D.state disk.old).faults) }
    {
        self.apply_all(disk, std::slice::from_ref(batch))
    }

    /// The same where the numbers and the file are free.
    fn write<D: Disk>(&mut self, disk: &mut D, batches: &[Batch]) -> Result<u64, EngineFault>
        requires some { 0 < length batches.now }
        requires numbers { next_of self.old + length batches.now ≤ 2 ^ 62 - 1 }
        requires file { last_form_of self.old ≡ One → next_file_of self.old < 2 ^ 32 - 1 }
        requires stands { IsTrusted (D.state disk.old)
            → (l : Layout) × HandStandsForLayout (D.state disk.old) self.old l }
        ensures ok { OnOk result (IsTrusted (D.state disk.old) → (l : Layout)
            → HandStandsForLayout (D.state disk.old) self.old l → HandStandsForLayout (D.state disk.new) self.new
            (with_writes l (batch_writes l batches.now))) }
        ensures number { IfOk result (λ n. n ≡ next_of self.old) }
        ensures next { OnOk result (next_of self.new ≡ next_of self.old + length batches.now) }
        ensures limits { limits_of self.new ≡ limits_of self.old }
        ensures segment { OnOk result (IsBehind (last_form_of self.old) self.old self.new) }
        ensures most { next_file_of self.new
            ≤ next_file_of self.old + files_made (last_form_of self.old) }
        ensures least { next_file_of self.old ≤ next_file_of self.new }
        ensures given { work_file_of self.new ≡ work_file_of self.old }
        ensures files { OnOk result ((family : ℕ)
            → files_at self.new family ≡ files_at self.old family) }
        ensures carries { OnOk result (IsTrusted (D.state disk.old) → (l : Layout)
            → HandStandsForLayout (D.state disk.old) self.old l → (family : ℕ)
            → CarriesFamily (D.state disk.old) (D.state disk.new) self.old self.new family) }
        ensures any_moment { IsTrusted (D.state disk.old) → (l : Layout)
            → HandStandsForLayout (D.state disk.old) self.old l
            → Spans (D.state disk.old) (D.state disk.new) (λ _. ⊤) (BeforeOrAll l batches.now) }
        ensures unspent { IfErr result EngineFaultIsOutside }
        ensures no_memory { IsErrOf result EngineFault.NoMemory
            → D.state disk.new ≡ D.state disk.old }
        ensures goes { Goes (D.state disk.old) (D.state disk.new) }
        ensures cause { IsErrOf result EngineFault.Failed
            → Rose (D.state disk.old).faults (D.state disk.new).faults }
        ensures well { OnOk result ((D.state disk.new).faults ≡ (D.state disk.old).faults) }
    {
        // All memory is taken first, and the rows go into it, so that nothing but the disk can fail once the entry is on its way.
        let group = group_of(self.alloc, self.next, batches)?;
        let entry = frame_of(self.alloc, group.as_slice())?;
        let renewal = self.prepare()?;
        put_batches(self.alloc, &mut self.families, self.next, batches)?;
        self.full = full_after(self.full, &self.families, batches, self.limits.flush);
        self.renew(disk, renewal)?;
        match self.log.add(disk, entry.as_slice()) {
            Ok(()) => {}
            Err(Failed) => return Err(EngineFault::Failed),
        }
        self.length = with_more(self.length, group.len());
        let number = self.next;
        self.next = number + batches.len() as u64;
        Ok(number)
    }

    /// The number that so many writes want and can't have: 2^62 - 1, or else that of the file of the segment that they make.
    fn wanting(&self, count: usize) -> Option<u64>
        requires { 0 < count }
        ensures numbers { result ≡ None → next_of self.now + count ≤ 2 ^ 62 - 1 }
        ensures file { result ≡ None → last_form_of self.now ≡ One
            → next_file_of self.now < 2 ^ 32 - 1 }
        ensures number { IfSome result (λ n. WantsNumber (next_of self.now) count n
            ⊎ ((next_of self.now + count ≤ 2 ^ 62 - 1)
            × WantsFile (last_form_of self.now) (next_file_of self.now) n)) }
    {
        if self.next >= LAST_NUMBER {
            return Some(self.next);
        }
        if count as u64 > LAST_NUMBER - self.next {
            return Some(LAST_NUMBER);
        }
        self.wanting_file()
    }

    /// The number of the file that the segment of a write wants and can't have.
    pub fn wanting_file(&self) -> Option<u64>
        ensures none { result ≡ None → last_form_of self.now ≡ One
            → next_file_of self.now < 2 ^ 32 - 1 }
        ensures some { IfSome result (WantsFile (last_form_of self.now) (next_file_of self.now)) }
        ensures fits { next_file_of self.now < 2 ^ 32 }
    {
        let next = self.next_file;
        match self.log.form() {
            Form::Two => None,
            Form::One => {
                if next == u32::MAX {
                    return Some(next as u64);
                }
                None
            }
        }
    }
}
