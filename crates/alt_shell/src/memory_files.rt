//! The files of a shell in memory: those of its disk. It counts their faults itself.

ghost use Rattle.std.specs.Prelude.{◌≡◌, ◌<◌, ◌≤◌, ◌^◌, [], length, true, false, IfOk, OnOk, OnErr};
ghost use Rattle.alt_disk.specs.MemoryState.{state_of};

use crate::memory::MemoryShell;
use crate::memory_calls::raised;
use alt_disk::{Disk, DiskFault, Failed};

impl Disk for MemoryShell {
    ghost use Rattle.std.specs.Prelude.{ℕ, ◌≢◌, ◌+◌, ◌-◌, false, None, OnOk, OnErr, is_ok};
    ghost use Rattle.alt_disk.specs.Acted.{Acted};
    ghost use Rattle.alt_disk.specs.declared.made.Deed.TheVariants.{WriteFailed, RemoveFailed};
    ghost use Rattle.alt_disk.specs.Honest.{reads_as_image_of};
    ghost use Rattle.alt_disk.specs.Disk.{IsNames, contents, call_answered, Tick, ReadCall, Same, Written, Synced, Removed, Read};
    ghost use Rattle.alt_disk.specs.MemoryState.{fails_at};
    ghost use Rattle.alt_shell.specs.Memory.{shell_state};

    ghost state = { shell_state };

    ghost reads_as_image = { λ s trusted f. reads_as_image_of s.disk f };

    // Each of these calls is the disk's, and leaves all of the shell but its disk and the count of faults, and the disk's list of calls
    // that are to fail.

    fn names(&mut self, list: &mut Vec<u32>) -> Result<(), DiskFault>
        ensures names { OnOk result (IsNames list.new.items (shell_state self.old).file) }
        ensures emptied { OnErr result (list.new.items ≡ []) }
        ensures call { Tick (shell_state self.old) (shell_state self.new) (call_answered result) }
        ensures same { Same (shell_state self.old) (shell_state self.new) }
        ensures stays { self.new ≡ record self.old { disk = self.new.disk; faults = self.new.faults } }
        ensures to_fail { fails_at self.old.disk (shell_state self.old).moment ≡ true
            → call_answered result ≡ false }
        ensures fails { (t : ℕ) → fails_at self.new.disk t ≡ fails_at self.old.disk t }
    {
        let made = self.disk.names(list);
        if let Err(DiskFault::Failed) = made {
            self.faults = raised(self.faults);
        }
        made
    }

    fn size(&mut self, f: u32) -> Result<u64, Failed>
        ensures size { IfOk result (λ size. size ≡ length (contents (shell_state self.old) f)) }
        ensures bound { IfOk result (λ size. size ≤ 2 ^ 62) }
        ensures call { Tick (shell_state self.old) (shell_state self.new) (is_ok result) }
        ensures same { Same (shell_state self.old) (shell_state self.new) }
        ensures stays { self.new ≡ record self.old { disk = self.new.disk; faults = self.new.faults } }
        ensures to_fail { fails_at self.old.disk (shell_state self.old).moment ≡ true
            → is_ok result ≡ false }
        ensures fails { (t : ℕ) → fails_at self.new.disk t ≡ fails_at self.old.disk t }
    {
        match self.disk.size(f) {
            Ok(size) => Ok(size),
            Err(failed) => {
                self.faults = raised(self.faults);
                Err(failed)
            }
        }
    }

    fn read(&mut self, f: u32, at: u64, buf: &mut [u8]) -> Result<usize, Failed>
        ensures bytes { IfOk result (λ count.
            Read (contents (shell_state self.old) f) at buf.old buf.new count) }
        ensures bound { IfOk result (λ count. count ≤ length buf.old) }
        ensures call { ReadCall (shell_state self.old) (shell_state self.new) f at (length buf.old)
            (is_ok result) }
        ensures same { Same (shell_state self.old) (shell_state self.new) }
        ensures stays { self.new ≡ record self.old { disk = self.new.disk; faults = self.new.faults } }
        ensures to_fail { fails_at self.old.disk (shell_state self.old).moment ≡ true
            → is_ok result ≡ false }
        ensures fails { (t : ℕ) → fails_at self.new.disk t ≡ fails_at self.old.disk t }
    {
        match self.disk.read(f, at, buf) {
            Ok(count) => Ok(count),
            Err(failed) => {
                self.faults = raised(self.faults);
                Err(failed)
            }
        }
    }

    fn write_at(&mut self, f: u32, at: u64, bytes: &[u8]) -> Result<(), Failed>
        requires { at ≤ length (contents (shell_state self.old) f) }
        ensures written { Written (shell_state self.old) (shell_state self.new) f at bytes.now
            (is_ok result) }
        ensures fits { OnOk result (at + length bytes.now ≤ 2 ^ 62) }
        ensures call { Tick (shell_state self.old) (shell_state self.new) (is_ok result) }
        ensures listed { fails_at self.old.disk (state_of self.old.disk).moment ≡ true
            → (state_of self.old.disk).moment < 2 ^ 64 - 1
            → Acted (state_of self.old.disk) (state_of self.new.disk) f
            (WriteFailed at (length bytes.now)) }
        ensures unlisted { fails_at self.old.disk (state_of self.old.disk).moment ≡ false
            → at + length bytes.now ≤ 2 ^ 62
            → OnErr result (Same (state_of self.old.disk) (state_of self.new.disk)) }
        ensures stays { self.new ≡ record self.old { disk = self.new.disk; faults = self.new.faults } }
        ensures to_fail { fails_at self.old.disk (shell_state self.old).moment ≡ true
            → is_ok result ≡ false }
        ensures fails { (t : ℕ) → fails_at self.new.disk t ≡ fails_at self.old.disk t }
    {
        match self.disk.write_at(f, at, bytes) {
            Ok(()) => Ok(()),
            Err(failed) => {
                self.faults = raised(self.faults);
                Err(failed)
            }
        }
    }

    fn sync(&mut self, f: u32) -> Result<(), Failed>
        ensures synced { Synced (shell_state self.old) (shell_state self.new) f (is_ok result) }
        ensures missing { (shell_state self.old).file f ≡ None
            → Same (shell_state self.old) (shell_state self.new) }
        ensures call { Tick (shell_state self.old) (shell_state self.new) (is_ok result) }
        ensures same { (g : ℕ) → (shell_state self.new).file g ≡ (shell_state self.old).file g }
        ensures stays { self.new ≡ record self.old { disk = self.new.disk; faults = self.new.faults } }
        ensures to_fail { fails_at self.old.disk (shell_state self.old).moment ≡ true
            → is_ok result ≡ false }
        ensures fails { (t : ℕ) → fails_at self.new.disk t ≡ fails_at self.old.disk t }
    {
        match self.disk.sync(f) {
            Ok(()) => Ok(()),
            Err(failed) => {
                self.faults = raised(self.faults);
                Err(failed)
            }
        }
    }

    fn remove(&mut self, f: u32) -> Result<(), Failed>
        ensures gone { OnOk result ((shell_state self.new).file f ≡ None) }
        ensures removed { Removed (shell_state self.old) (shell_state self.new) f (is_ok result) }
        ensures missing { (shell_state self.old).file f ≡ None
            → Same (shell_state self.old) (shell_state self.new) }
        ensures call { Tick (shell_state self.old) (shell_state self.new) (is_ok result) }
        ensures others { (g : ℕ) → g ≢ f
            → (shell_state self.new).file g ≡ (shell_state self.old).file g }
        ensures listed { fails_at self.old.disk (state_of self.old.disk).moment ≡ true
            → (state_of self.old.disk).moment < 2 ^ 64 - 1
            → Acted (state_of self.old.disk) (state_of self.new.disk) f RemoveFailed }
        ensures unlisted { fails_at self.old.disk (state_of self.old.disk).moment ≡ false
            → OnErr result (Same (state_of self.old.disk) (state_of self.new.disk)) }
        ensures stays { self.new ≡ record self.old { disk = self.new.disk; faults = self.new.faults } }
        ensures to_fail { fails_at self.old.disk (shell_state self.old).moment ≡ true
            → is_ok result ≡ false }
        ensures fails { (t : ℕ) → fails_at self.new.disk t ≡ fails_at self.old.disk t }
    {
        match self.disk.remove(f) {
            Ok(()) => Ok(()),
            Err(failed) => {
                self.faults = raised(self.faults);
                Err(failed)
            }
        }
    }
}
