//! A disk in memory that tells nothing but its counts: a writer over it asks nothing of its caller, so a test proves no more than that
//! it stops nowhere, and looks at the bytes.

use alt_disk::{Disk, DiskFault, Failed, MemoryDisk};
use std::alloc::Global;

#[derive(Drop)]
pub(crate) struct Doubted {
    pub(crate) disk: MemoryDisk,
    moment: u64,
    faults: u64,
}

impl Doubted {
    ghost use Rattle.std.specs.Prelude.{◌≡◌, ◌≤◌};
    ghost use Rattle.alt_base.specs.Counts.{Rose, next_moment};

    pub(crate) fn new(alloc: Global) -> Doubted {
        Doubted {
            disk: MemoryDisk::new(alloc),
            moment: 0,
            faults: 0,
        }
    }

    // Takes the moment of a call that fails.
    fn fails(&mut self) -> Failed
        ensures moment { self.new.moment ≡ next_moment self.old.moment }
        ensures later { self.old.faults ≤ self.new.faults }
        ensures rose { Rose self.old.faults self.new.faults }
    {
        self.moment = self.moment.saturating_add(1);
        self.faults = self.faults.saturating_add(1);
        Failed
    }
}

impl Disk for Doubted {
    ghost use Rattle.std.specs.Prelude.{false, None, []};
    ghost use Rattle.std.proofs.lemmas.Bool.{false≢true};
    ghost use Rattle.alt_disk.specs.Fates.{missing};

    ghost state = { λ d. record {
      tells = false;
      honest = false;
      file = λ f. None;
      fates = λ t f. missing;
      moment = d.moment;
      faults = d.faults;
      reads = 0;
      beside = [];
      cached = λ f at most. false;
      anchors = [];
    } };

    ghost reads_as_image = { λ d trusted f. absurd (false≢true trusted) };

    fn names(&mut self, list: &mut Vec<u32>) -> Result<(), DiskFault> {
        if self.moment == u64::MAX {
            list.clear();
            let _ = self.fails();
            return Err(DiskFault::Failed);
        }
        match self.disk.names(list) {
            Ok(()) => {
                self.moment += 1;
                Ok(())
            }
            Err(DiskFault::Failed) => {
                let _ = self.fails();
                Err(DiskFault::Failed)
            }
            Err(DiskFault::NoMemory) => {
                self.moment += 1;
                Err(DiskFault::NoMemory)
            }
        }
    }

    fn size(&mut self, f: u32) -> Result<u64, Failed> {
        if self.moment == u64::MAX {
            return Err(self.fails());
        }
        let Ok(size) = self.disk.size(f) else {
            return Err(self.fails());
        };
        self.moment += 1;
        Ok(size)
    }

    fn read(&mut self, f: u32, at: u64, buf: &mut [u8]) -> Result<usize, Failed> {
        if self.moment == u64::MAX {
            return Err(self.fails());
        }
        let Ok(count) = self.disk.read(f, at, buf) else {
            return Err(self.fails());
        };
        self.moment += 1;
        Ok(count)
    }

    // A write past the end is a fault here.
    fn write_at(&mut self, f: u32, at: u64, bytes: &[u8]) -> Result<(), Failed> {
        if self.moment == u64::MAX {
            return Err(self.fails());
        }
        let Ok(size) = self.disk.size(f) else {
            return Err(self.fails());
        };
        if at > size {
            return Err(self.fails());
        }
        let Ok(()) = self.disk.write_at(f, at, bytes) else {
            return Err(self.fails());
        };
        self.moment += 1;
        Ok(())
    }

    fn sync(&mut self, f: u32) -> Result<(), Failed> {
        if self.moment == u64::MAX {
            return Err(self.fails());
        }
        let Ok(()) = self.disk.sync(f) else {
            return Err(self.fails());
        };
        self.moment += 1;
        Ok(())
    }

    fn remove(&mut self, f: u32) -> Result<(), Failed> {
        if self.moment == u64::MAX {
            return Err(self.fails());
        }
        let Ok(()) = self.disk.remove(f) else {
            return Err(self.fails());
        };
        self.moment += 1;
        Ok(())
    }
}
