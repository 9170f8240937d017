//! A disk in memory. It keeps all writes, syncs and removals, so that each image that a stop may leave can be had of it.

ghost use Rattle.std.specs.Prelude.{◌≡◌, ◌≤◌, ◌+◌, length};
ghost use Rattle.std.specs.List.{All};
ghost use Rattle.std.specs.Vec.{vec_capacity};
ghost use Rattle.alt_disk.specs.Memory.{Timed, to_fail_from};

use crate::buffer::{copy_from, write_deed};
use crate::history::History;
use crate::made::{Deed, Made};
use crate::stopped::settle_image;
use crate::{Disk, DiskFault, Failed};
use alt_base::NoMemory;
use std::alloc::Global;

/// The most bytes of a file.
const MAX_SIZE: u64 = 1 << 62;

/// A disk in memory, for tests and trials of stops. It tells its contents and is honest.
#[derive(Drop)]
pub struct MemoryDisk {
    pub(crate) alloc: Global,
    pub(crate) history: History,
    pub(crate) fails: Vec<u64>,
    pub(crate) moment: u64,
    pub(crate) faults: u64,
    pub(crate) reads: u64,
    ghost timed: { All (Timed moment) history.calls.items },
    ghost room: { length history.calls.items + to_fail_from moment fails.items ≤ vec_capacity
        history.calls },
}

impl MemoryDisk {
    ghost use Rattle.std.specs.Prelude.{ℕ, ◌≢◌, ◌⊎◌, ◌-◌, ◌^◌, ◌<◌, true, false, None, IfOk, IfSome, OnOk, OnErr, is_ok};
    ghost use Rattle.alt_disk.specs.Fates.{missing};
    ghost use Rattle.alt_disk.specs.Disk.{Tick, Silent, Faulted, Same, now, IsImage};
    ghost use Rattle.alt_disk.specs.Stopped.{files_at_stop, picked_image, settled_fates};
    ghost use Rattle.alt_disk.specs.Memory.{WritesBytes, LeavesReads};
    ghost use Rattle.alt_disk.specs.MemoryState.{state_of, fails_at};
    ghost use Rattle.alt_disk.specs.Acted.{ActedSome, CountsAs, PushedSome, KeptSome};
    ghost use Rattle.alt_base.specs.Counts.{Rose, next_moment};

    /// An empty disk.
    pub fn new(alloc: Global) -> MemoryDisk
        ensures empty { (f : ℕ) → (state_of result).file f ≡ None }
        ensures images { (t f : ℕ) → (state_of result).fates t f ≡ missing }
        ensures counts { ((state_of result).moment ≡ 0) × ((state_of result).faults ≡ 0)
            × ((state_of result).reads ≡ 0) }
        ensures none_fails { (t : ℕ) → fails_at result t ≡ false }
    {
        MemoryDisk {
            alloc,
            history: History::new(alloc),
            fails: Vec::new(alloc),
            moment: 0,
            faults: 0,
            reads: 0,
        }
    }

    /// The disk's moment and how many of its calls were reads.
    pub fn counts(&self) -> (u64, u64)
        ensures { result ≡ ((state_of self.now).moment, (state_of self.now).reads) }
    {
        (self.moment, self.reads)
    }

    /// Lets the call that is made at this moment fail, and takes the memory that such a call will need.
    pub fn fail(&mut self, moment: u64) -> Result<(), NoMemory>
        ensures ok { OnOk result (fails_at self.new moment ≡ true) }
        ensures others { (t : ℕ) → t ≢ moment → fails_at self.new t ≡ fails_at self.old t }
        ensures stays { state_of self.new ≡ state_of self.old }
        ensures err { OnErr result ((t : ℕ) → fails_at self.new t ≡ fails_at self.old t) }
    {
        let Some(room) = self.fails.len().checked_add(1) else {
            return Err(NoMemory);
        };
        self.history.reserve(room)?;
        self.fails.push(moment)?;
        Ok(())
    }

    /// The disk that a stop at a past moment leaves where `choice` picks what is open, with zeros where it runs out. Its bytes are
    /// used file by file, in rising order of the files. Where it is open whether the file is there, one byte decides: 0 is
    /// missing, 2 the old one of a file that was removed and made again, any other byte the file as last made. Then, where the
    /// length is open, one byte decides: 1 is the length that a read of the picked file then gave or, where it had been removed,
    /// just before; any other byte is that many bytes past the synced end. Then each open byte, in order of place, is one byte.
    pub fn stopped(&self, moment: u64, choice: &[u8]) -> Result<MemoryDisk, NoMemory>
        requires { moment ≤ (state_of self.now).moment }
        ensures picked { IfOk result (λ d. (f : ℕ)
            → (state_of d).file f ≡ picked_image (files_at_stop self.now moment) choice.now f) }
        ensures image { IfOk result (λ d. IsImage (state_of self.now) moment (state_of d).file) }
        ensures synced { IfOk result (λ d. (f : ℕ)
            → now (state_of d) f ≡ settled_fates ((state_of d).file f)) }
        ensures counts { IfOk result (λ d. ((state_of d).moment ≡ 0)
            × ((state_of d).faults ≡ 0) × ((state_of d).reads ≡ 0)) }
        ensures none_fails { IfOk result (λ d. (t : ℕ) → fails_at d t ≡ false) }
    {
        let history = settle_image(self.alloc, self.history.calls.as_slice(), moment, choice)?;
        Ok(MemoryDisk {
            alloc: self.alloc,
            history,
            fails: Vec::new(self.alloc),
            moment: 0,
            faults: 0,
            reads: 0,
        })
    }

    /// A call that does nothing to the files: it takes its moment, and may be one that is to fail.
    pub fn tick(&mut self) -> Result<(), Failed>
        ensures call { Silent (state_of self.old) (state_of self.new) (is_ok result) }
        ensures to_fail { fails_at self.old (state_of self.old).moment ≡ true
            → is_ok result ≡ false }
        ensures fails { (t : ℕ) → fails_at self.new t ≡ fails_at self.old t }
    {
        if self.start()? {
            return Err(self.fault());
        }
        Ok(())
    }

    /// A fault that changes nothing but its count.
    pub fn fault(&mut self) -> Failed
        ensures call { Faulted (state_of self.old) (state_of self.new) }
        ensures fails { (t : ℕ) → fails_at self.new t ≡ fails_at self.old t }
    {
        self.faults = self.faults.saturating_add(1);
        Failed
    }

    // Counts a read, but at the last moment.
    fn count_read(&mut self)
        ensures stays { state_of self.new ≡ record (state_of self.old) { reads = self.new.reads } }
        ensures later { self.old.reads ≤ self.new.reads }
        ensures reads { self.new.reads ≤ self.old.reads + 1 }
        ensures counted { self.old.moment < 2 ^ 64 - 1
            → self.new.reads ≡ next_moment self.old.reads }
        ensures last { 2 ^ 64 - 1 ≤ self.old.moment → self.new.reads ≡ self.old.reads }
        ensures fails { self.new.fails.items ≡ self.old.fails.items }
    {
        if self.moment < u64::MAX {
            self.reads = self.reads.saturating_add(1);
        }
    }

    // Makes a call on a file. `done` is what it does, none where there was no memory for it, and `failed` what it counts as where
    // it is to fail, none where it then counts as nothing.
    fn make(&mut self, f: u32, done: Option<Deed>, failed: Option<Deed>) -> Result<(), Failed>
        requires bytes { IfSome done (λ deed. WritesBytes deed) }
        requires failed_bytes { IfSome failed (λ deed. WritesBytes deed) }
        requires reads { IfSome failed (λ deed. LeavesReads deed) }
        ensures ok { OnOk result (ActedSome (state_of self.old) (state_of self.new) f done) }
        ensures listed { fails_at self.old (state_of self.old).moment ≡ true
            → (state_of self.old).moment < 2 ^ 64 - 1
            → CountsAs (state_of self.old) (state_of self.new) f failed }
        ensures unlisted { fails_at self.old (state_of self.old).moment ≡ false
            → OnErr result (Same (state_of self.old) (state_of self.new)) }
        ensures err { OnErr result (Same (state_of self.old) (state_of self.new)
            ⊎ ActedSome (state_of self.old) (state_of self.new) f failed) }
        ensures call { Tick (state_of self.old) (state_of self.new) (is_ok result) }
        ensures to_fail { fails_at self.old (state_of self.old).moment ≡ true
            → is_ok result ≡ false }
        ensures fails { (t : ℕ) → fails_at self.new t ≡ fails_at self.old t }
    {
        if self.start()? {
            self.keep_failed(f, failed);
            return Err(self.fault());
        }
        self.keep(f, done)
    }

    // Keeps what a call counts as that failed at this moment by the list.
    fn keep_failed(&mut self, f: u32, failed: Option<Deed>)
        requires room { length self.old.history.calls.items
            + to_fail_from self.old.moment self.old.fails.items < vec_capacity
            self.old.history.calls }
        requires bytes { IfSome failed (λ deed. WritesBytes deed) }
        requires reads { IfSome failed (λ deed. LeavesReads deed) }
        ensures calls { KeptSome self.old.history.calls.items self.new.history.calls.items
            self.old.moment f failed }
        ensures moment { self.new.moment ≡ self.old.moment }
        ensures faults { self.new.faults ≡ self.old.faults }
        ensures reads { self.new.reads ≡ self.old.reads }
        ensures fails { self.new.fails.items ≡ self.old.fails.items }
    {
        if let Some(deed) = failed {
            let time = self.moment;
            self.history.add_reserved(Made {
                time,
                file: f,
                deed,
            });
        }
    }

    // Keeps what a call did at this moment.
    fn keep(&mut self, f: u32, deed: Option<Deed>) -> Result<(), Failed>
        requires { IfSome deed (λ deed. WritesBytes deed) }
        ensures ok { OnOk result (PushedSome self.old.history.calls.items
            self.new.history.calls.items
            self.old.moment f deed) }
        ensures err { OnErr result ((self.new.history.calls.items ≡ self.old.history.calls.items)
            × Rose self.old.faults self.new.faults) }
        ensures well { OnOk result (self.new.faults ≡ self.old.faults) }
        ensures later { self.old.faults ≤ self.new.faults }
        ensures moment { self.new.moment ≡ self.old.moment }
        ensures reads { self.new.reads ≡ self.old.reads }
        ensures fails { self.new.fails.items ≡ self.old.fails.items }
    {
        let Some(deed) = deed else {
            self.faults = self.faults.saturating_add(1);
            return Err(Failed);
        };
        let time = self.moment;
        let spare = self.fails.len();
        match self.history.add(
            Made {
                time,
                file: f,
                deed,
            },
            spare,
        ) {
            Ok(()) => Ok(()),
            Err(_) => {
                self.faults = self.faults.saturating_add(1);
                Err(Failed)
            }
        }
    }

    // Takes a call's moment, and says whether the call is to fail. At the last moment it fails.
    fn start(&mut self) -> Result<bool, Failed>
        ensures ok { IfOk result (λ to_fail. (to_fail ≡ fails_at self.old self.old.moment)
            × (self.old.moment < 2 ^ 64 - 1) × (self.new.moment ≡ self.old.moment + 1)
            × (self.new.faults ≡ self.old.faults)) }
        ensures room { IfOk result (λ to_fail. to_fail ≡ true → length self.new.history.calls.items
            + to_fail_from self.new.moment self.new.fails.items < vec_capacity
            self.new.history.calls) }
        ensures err { OnErr result ((self.new.moment ≡ self.old.moment)
            × (2 ^ 64 - 1 ≤ self.old.moment) × Rose self.old.faults self.new.faults) }
        ensures later { self.old.faults ≤ self.new.faults }
        ensures calls { self.new.history.calls.items ≡ self.old.history.calls.items }
        ensures reads { self.new.reads ≡ self.old.reads }
        ensures fails { self.new.fails.items ≡ self.old.fails.items }
    {
        if self.moment == u64::MAX {
            self.faults = self.faults.saturating_add(1);
            return Err(Failed);
        }
        let to_fail = self.fails.as_slice().contains(&self.moment);
        self.moment += 1;
        Ok(to_fail)
    }
}

impl Disk for MemoryDisk {
    ghost use Rattle.std.specs.Prelude.{ℕ, ◌≢◌, ◌+◌, ◌-◌, ◌<◌, ◌^◌, [], true, false, None, length, IfOk, OnOk, OnErr, is_ok};
    ghost use Rattle.alt_disk.specs.Disk.{IsNames, contents, call_answered, Tick, ReadCall, Same, Written, Synced, Removed, Read};
    ghost use Rattle.alt_disk.specs.Acted.{Acted};
    ghost use Rattle.alt_disk.specs.declared.made.Deed.TheVariants.{WriteFailed, RemoveFailed};
    ghost use Rattle.alt_disk.specs.MemoryState.{state_of, fails_at};
    ghost use Rattle.alt_disk.specs.Honest.{reads_as_image_of};
    ghost use Rattle.alt_base.specs.Counts.{next_moment};

    ghost state = { state_of };

    ghost reads_as_image = { λ d trusted f. reads_as_image_of d f };

    fn names(&mut self, list: &mut Vec<u32>) -> Result<(), DiskFault>
        ensures names { OnOk result (IsNames list.new.items (state_of self.old).file) }
        ensures emptied { OnErr result (list.new.items ≡ []) }
        ensures call { Tick (state_of self.old) (state_of self.new) (call_answered result) }
        ensures same { Same (state_of self.old) (state_of self.new) }
        ensures to_fail { fails_at self.old (state_of self.old).moment ≡ true
            → call_answered result ≡ false }
        ensures fails { (t : ℕ) → fails_at self.new t ≡ fails_at self.old t }
    {
        list.clear();
        self.tick()?;
        match self.history.names(list) {
            Ok(()) => Ok(()),
            Err(_) => {
                list.clear();
                Err(DiskFault::NoMemory)
            }
        }
    }

    fn size(&mut self, f: u32) -> Result<u64, Failed>
        ensures size { IfOk result (λ size. size ≡ length (contents (state_of self.old) f)) }
        ensures bound { IfOk result (λ size. size ≤ 2 ^ 62) }
        ensures call { Tick (state_of self.old) (state_of self.new) (is_ok result) }
        ensures same { Same (state_of self.old) (state_of self.new) }
        ensures to_fail { fails_at self.old (state_of self.old).moment ≡ true
            → is_ok result ≡ false }
        ensures fails { (t : ℕ) → fails_at self.new t ≡ fails_at self.old t }
    {
        self.tick()?;
        let size = self.history.bytes(f).len() as u64;
        if size > MAX_SIZE {
            return Err(self.fault());
        }
        Ok(size)
    }

    fn read(&mut self, f: u32, at: u64, buf: &mut [u8]) -> Result<usize, Failed>
        ensures bytes { IfOk result (λ count.
            Read (contents (state_of self.old) f) at buf.old buf.new count) }
        ensures bound { IfOk result (λ count. count ≤ length buf.old) }
        ensures call { ReadCall (state_of self.old) (state_of self.new) f at (length buf.old)
            (is_ok result) }
        ensures same { Same (state_of self.old) (state_of self.new) }
        ensures moment { (state_of self.new).moment ≡ next_moment (state_of self.old).moment }
        ensures counted { (state_of self.old).moment < 2 ^ 64 - 1
            → (state_of self.new).reads ≡ next_moment (state_of self.old).reads }
        ensures to_fail { fails_at self.old (state_of self.old).moment ≡ true
            → is_ok result ≡ false }
        ensures fails { (t : ℕ) → fails_at self.new t ≡ fails_at self.old t }
    {
        self.count_read();
        self.tick()?;
        Ok(copy_from(self.history.bytes(f), at, buf))
    }

    fn write_at(&mut self, f: u32, at: u64, bytes: &[u8]) -> Result<(), Failed>
        requires { at ≤ length (contents (state_of self.old) f) }
        ensures written { Written (state_of self.old) (state_of self.new) f at bytes.now
            (is_ok result) }
        ensures fits { OnOk result (at + length bytes.now ≤ 2 ^ 62) }
        ensures call { Tick (state_of self.old) (state_of self.new) (is_ok result) }

        // One that fails by the list counts as written, past the end of a file too. One that finds no memory changes nothing.
        ensures listed { fails_at self.old (state_of self.old).moment ≡ true
            → (state_of self.old).moment < 2 ^ 64 - 1
            → Acted (state_of self.old) (state_of self.new) f (WriteFailed at (length bytes.now)) }
        ensures unlisted { fails_at self.old (state_of self.old).moment ≡ false
            → at + length bytes.now ≤ 2 ^ 62
            → OnErr result (Same (state_of self.old) (state_of self.new)) }
        ensures to_fail { fails_at self.old (state_of self.old).moment ≡ true
            → is_ok result ≡ false }
        ensures fails { (t : ℕ) → fails_at self.new t ≡ fails_at self.old t }
    {
        let count = bytes.len() as u64;
        let failed = Some(Deed::WriteFailed { at, count });
        if at > MAX_SIZE || count > MAX_SIZE - at {
            self.make(f, Some(Deed::WriteFailed { at, count }), failed)?;
            return Err(self.fault());
        }
        let written = write_deed(self.alloc, at, bytes);
        self.make(f, written, failed)
    }

    fn sync(&mut self, f: u32) -> Result<(), Failed>
        ensures synced { Synced (state_of self.old) (state_of self.new) f (is_ok result) }
        ensures missing { (state_of self.old).file f ≡ None
            → Same (state_of self.old) (state_of self.new) }
        ensures call { Tick (state_of self.old) (state_of self.new) (is_ok result) }
        ensures same { (g : ℕ) → (state_of self.new).file g ≡ (state_of self.old).file g }
        ensures err { OnErr result (Same (state_of self.old) (state_of self.new)) }
        ensures to_fail { fails_at self.old (state_of self.old).moment ≡ true
            → is_ok result ≡ false }
        ensures fails { (t : ℕ) → fails_at self.new t ≡ fails_at self.old t }
    {
        self.make(f, Some(Deed::Sync), None)
    }

    fn remove(&mut self, f: u32) -> Result<(), Failed>
        ensures gone { OnOk result ((state_of self.new).file f ≡ None) }
        ensures removed { Removed (state_of self.old) (state_of self.new) f (is_ok result) }
        ensures missing { (state_of self.old).file f ≡ None
            → Same (state_of self.old) (state_of self.new) }
        ensures call { Tick (state_of self.old) (state_of self.new) (is_ok result) }
        ensures others { (g : ℕ) → g ≢ f → (state_of self.new).file g ≡ (state_of self.old).file g }

        // One that fails by the list may have been made or not. One that finds no memory changes nothing.
        ensures listed { fails_at self.old (state_of self.old).moment ≡ true
            → (state_of self.old).moment < 2 ^ 64 - 1
            → Acted (state_of self.old) (state_of self.new) f RemoveFailed }
        ensures unlisted { fails_at self.old (state_of self.old).moment ≡ false
            → OnErr result (Same (state_of self.old) (state_of self.new)) }
        ensures to_fail { fails_at self.old (state_of self.old).moment ≡ true
            → is_ok result ≡ false }
        ensures fails { (t : ℕ) → fails_at self.new t ≡ fails_at self.old t }
    {
        self.make(f, Some(Deed::Remove), Some(Deed::RemoveFailed))
    }
}
