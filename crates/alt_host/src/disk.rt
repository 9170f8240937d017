//! The files of the folder as a disk.

ghost use Rattle.alt_host.specs.Host.{shell_by_counts};

use crate::shell::HostShell;
use alt_disk::{Disk, DiskFault, Failed};
use std::fs::File;
use std::io::ErrorKind;
use std::net::Net;
use std::rt::Runtime;

/// A file has at most 2^62 bytes.
const MOST_BYTES: u64 = 1 << 62;

impl<R: Runtime<File = File> + Net> Disk for HostShell<R> {
    ghost use Rattle.std.proofs.lemmas.Bool.{false≢true};

    ghost state = { λ s. shell_by_counts s.moment s.faults s.talking s.talk_faults s.takes_missed
        s.says_missed };

    ghost reads_as_image = { λ s trusted f. absurd (false≢true trusted) };

    fn names(&mut self, list: &mut Vec<u32>) -> Result<(), DiskFault> {
        list.clear();
        if self.moment == u64::MAX {
            let _ = self.fails();
            return Err(DiskFault::Failed);
        }
        match self.folder.names(&self.rt, list) {
            Ok(()) => {
                list.sort_unstable();
                self.moment += 1;
                Ok(())
            }
            Err(e) => {
                list.clear();
                if e.kind() == ErrorKind::OutOfMemory {
                    self.moment += 1;
                    return Err(DiskFault::NoMemory);
                }
                let _ = self.fails();
                Err(DiskFault::Failed)
            }
        }
    }

    fn size(&mut self, f: u32) -> Result<u64, Failed> {
        if self.moment == u64::MAX {
            return Err(self.fails());
        }
        match self.folder.size(&self.rt, f) {
            Ok(size) if size <= MOST_BYTES => {
                self.moment += 1;
                Ok(size)
            }
            _ => Err(self.fails()),
        }
    }

    fn read(&mut self, f: u32, at: u64, buf: &mut [u8]) -> Result<usize, Failed> {
        if self.moment == u64::MAX {
            return Err(self.fails());
        }
        let Ok(count) = self.folder.read(&self.rt, f, at, buf) else {
            return Err(self.fails());
        };
        self.moment += 1;
        Ok(count)
    }

    fn write_at(&mut self, f: u32, at: u64, bytes: &[u8]) -> Result<(), Failed> {
        if self.moment == u64::MAX || at > MOST_BYTES || bytes.len() as u64 > MOST_BYTES - at {
            return Err(self.fails());
        }
        let Ok(()) = self.folder.write(&self.rt, f, at, bytes) else {
            return Err(self.fails());
        };
        self.moment += 1;
        Ok(())
    }

    fn sync(&mut self, f: u32) -> Result<(), Failed> {
        if self.moment == u64::MAX {
            return Err(self.fails());
        }
        let Ok(()) = self.folder.sync(&self.rt, f) else {
            return Err(self.fails());
        };
        self.moment += 1;
        Ok(())
    }

    fn remove(&mut self, f: u32) -> Result<(), Failed> {
        if self.moment == u64::MAX {
            return Err(self.fails());
        }
        let Ok(()) = self.folder.remove(&self.rt, f) else {
            return Err(self.fails());
        };
        self.moment += 1;
        Ok(())
    }
}
