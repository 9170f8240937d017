//! A file that is written from its start to its end, with the digest of what it holds.

ghost use Rattle.std.specs.Prelude.{◌≡◌, ◌≤◌, ◌+◌, ◌^◌};

use alt_disk::{Disk, DiskFault, Failed};
use sha2::{Digest, Sha256};

/// A file so far: how many bytes it has, and the hasher that holds them.
#[derive(Drop)]
pub(crate) struct Sink {
    pub(crate) file: u32,
    pub(crate) at: u64,
    pub(crate) hasher: Sha256,
    ghost small: { at ≤ 2 ^ 62 },
}

impl Sink {
    ghost use Rattle.std.specs.Prelude.{ℕ, List, [], ◌++◌, None, OnOk, OnErr, IsErrOf, length, is_ok, true};
    ghost use Rattle.alt_base.specs.Counts.{Rose};
    ghost use Rattle.alt_disk.specs.Disk.{DiskState, IsTrusted, Goes};
    ghost use Rattle.alt_disk.specs.Runs.{Run};
    ghost use Rattle.sha2.specs.Sha256.{sha256};
    ghost use Rattle.alt_rowfile.specs.Sinks.{IsPut, Lasts, AnyFileContents};

    /// Nothing of a file yet.
    pub(crate) fn new(file: u32) -> Sink
        ensures file { result.file ≡ file }
        ensures begun { (s : DiskState) → s.file file ≡ None → IsPut s result [] }
    {
        Sink {
            file,
            at: 0,
            hasher: Sha256::new(),
        }
    }

    /// Adds bytes at the end.
    pub(crate) fn put<D: Disk>(&mut self, disk: &mut D, bytes: &[u8]) -> Result<(), Failed>
        requires { IsTrusted (D.state disk.old) → (done : List ℕ)
            × IsPut (D.state disk.old) self.old done }
        ensures put { OnOk result (IsTrusted (D.state disk.old) → (done : List ℕ)
            → IsPut (D.state disk.old) self.old done
            → IsPut (D.state disk.new) self.new (done ++ bytes.now)) }
        ensures place { OnOk result (self.new.at ≡ self.old.at + length bytes.now) }
        ensures still { OnErr result (self.new.at ≡ self.old.at) }
        ensures file { self.new.file ≡ self.old.file }
        ensures any_moment { IsTrusted (D.state disk.old)
            → Run (D.state disk.old) (D.state disk.new) self.old.file AnyFileContents }
        ensures goes { Goes (D.state disk.old) (D.state disk.new) }
        ensures cause { OnErr result (Rose (D.state disk.old).faults (D.state disk.new).faults) }
        ensures well { is_ok result ≡ true
            → (D.state disk.new).faults ≡ (D.state disk.old).faults }
    {
        disk.write_at(self.file, self.at, bytes)?;
        self.hasher.update(bytes);
        self.at += bytes.len() as u64;
        Ok(())
    }

    /// Adds the last bytes and the digest of all, and syncs the file. At Ok it lasts.
    pub(crate) fn close<D: Disk>(self, disk: &mut D, bytes: Vec<u8>) -> Result<(), DiskFault>
        requires { IsTrusted (D.state disk.old) → (done : List ℕ)
            × IsPut (D.state disk.old) self done }
        ensures lasts { OnOk result (IsTrusted (D.state disk.old) → (done : List ℕ)
            → IsPut (D.state disk.old) self done
            → Lasts (D.state disk.new) self.file
            ((done ++ bytes.items) ++ sha256 (done ++ bytes.items))) }
        ensures any_moment { IsTrusted (D.state disk.old)
            → Run (D.state disk.old) (D.state disk.new) self.file AnyFileContents }
        ensures goes { Goes (D.state disk.old) (D.state disk.new) }
        ensures cause { IsErrOf result DiskFault.Failed
            → Rose (D.state disk.old).faults (D.state disk.new).faults }
        ensures well { (IsErrOf result DiskFault.Failed → ⊥)
            → (D.state disk.new).faults ≡ (D.state disk.old).faults }
    {
        let Sink { file, at, hasher } = self;
        let mut hasher = hasher;
        let mut bytes = bytes;
        hasher.update(bytes.as_slice());
        bytes.extend_from_slice(&hasher.finalize())?;
        disk.write_at(file, at, bytes.as_slice())?;
        disk.sync(file)?;
        Ok(())
    }
}
