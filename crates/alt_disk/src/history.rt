//! The list of a memory disk's calls, which is what the disk is, and beside it the files as they read, so that no read has to go
//! through the list.

ghost use Rattle.std.specs.Prelude.{◌≡◌, ◌<◌, ◌≤◌, ◌+◌, ◌∷◌, ◌++◌, [], ℕ, OnOk, OnErr, length};
ghost use Rattle.std.specs.List.{All};
ghost use Rattle.std.specs.Vec.{vec_capacity};
ghost use Rattle.alt_disk.specs.Disk.{IsNames, bytes_or_none};
ghost use Rattle.alt_disk.specs.Files.{file_in};
ghost use Rattle.alt_disk.specs.Memory.{HasBytes, LeavesReads, replay, nothing};

use crate::files::apply;
use crate::made::Made;
use std::alloc::{AllocError, Global};
use std::collections::BTreeMap;

/// The calls that were made, oldest first.
#[derive(Drop)]
pub struct History {
    pub(crate) alloc: Global,
    pub(crate) calls: Vec<Made>,
    pub(crate) files: BTreeMap<u32, Vec<u8>>,
    ghost kept: { (f : ℕ) → file_in files f ≡ (replay f nothing calls.items).bytes },
    ghost written: { All HasBytes calls.items },
}

impl History {
    pub(crate) fn new(alloc: Global) -> History
        ensures { result.calls.items ≡ [] }
    {
        History {
            alloc,
            calls: Vec::new(alloc),
            files: BTreeMap::new(alloc),
        }
    }

    /// Adds a call, and leaves room for `spare` more. After an error nothing was added.
    pub(crate) fn add(&mut self, made: Made, spare: usize) -> Result<(), AllocError>
        requires { HasBytes made }
        ensures ok { OnOk result (self.new.calls.items ≡ self.old.calls.items ++ made ∷ []) }
        ensures err { OnErr result (self.new.calls.items ≡ self.old.calls.items) }
        ensures spare { OnOk result (length self.new.calls.items + spare ≤ vec_capacity
            self.new.calls) }
        ensures room { vec_capacity self.old.calls ≤ vec_capacity self.new.calls }
    {
        let Some(room) = spare.checked_add(1) else {
            return Err(AllocError);
        };
        self.calls.reserve(room)?;
        apply(self.alloc, &mut self.files, made.file, &made.deed)?;
        self.calls.push_reserved(made);
        Ok(())
    }

    /// Adds a call that leaves each file as it reads. It takes no memory.
    pub(crate) fn add_reserved(&mut self, made: Made)
        requires room { length self.old.calls.items < vec_capacity self.old.calls }
        requires bytes { HasBytes made }
        requires reads { LeavesReads made.deed }
        ensures calls { self.new.calls.items ≡ self.old.calls.items ++ made ∷ [] }
        ensures room { vec_capacity self.new.calls ≡ vec_capacity self.old.calls }
    {
        self.calls.push_reserved(made);
    }

    /// Takes the room for so many more calls.
    pub(crate) fn reserve(&mut self, spare: usize) -> Result<(), AllocError>
        ensures spare { OnOk result (length self.new.calls.items + spare ≤ vec_capacity
            self.new.calls) }
        ensures calls { self.new.calls.items ≡ self.old.calls.items }
        ensures room { vec_capacity self.old.calls ≤ vec_capacity self.new.calls }
    {
        self.calls.reserve(spare)
    }

    /// A file's bytes as reads give them, none where it is missing.
    pub(crate) fn bytes(&self, f: u32) -> &[u8]
        ensures { result.now ≡ bytes_or_none (replay f nothing self.now.calls.items).bytes }
    {
        match self.files.get(&f) {
            Some(bytes) => bytes.as_slice(),
            None => &[],
        }
    }

    /// Fills an empty list with the numbers of the files there, rising.
    pub(crate) fn names(&self, list: &mut Vec<u32>) -> Result<(), AllocError>
        requires { list.old.items ≡ [] }
        ensures { OnOk result (IsNames list.new.items
            (λ f. (replay f nothing self.now.calls.items).bytes)) }
    {
        for f in self.files.keys() {
            list.push(*f)?;
        }
        Ok(())
    }
}
