//! A disk over a disk and a cache of its reads.

ghost use Rattle.std.specs.Prelude.{◌≡◌, IsTrue};
ghost use Rattle.alt_blocks.specs.Places.{CacheAgrees};

use crate::cache::BlockCache;
use alt_disk::{Disk, DiskFault, Failed};

/// A disk whose reads give what its disk gives.
#[derive(Drop)]
pub struct Cached<'a, D: Disk> {
    pub(crate) disk: &'a mut D,
    pub(crate) cache: &'a mut BlockCache,
    ghost agrees: { IsTrue (D.state disk.now).tells → CacheAgrees (D.state disk.now) cache.now },
}

impl<'a, D: Disk> Cached<'a, D> {
    ghost use Rattle.std.specs.Prelude.{◌≡◌, IsTrue};
    ghost use Rattle.alt_blocks.specs.Behind.{disk_of, cache_of, names_of};

    /// The disk before the cache, of which each place holds what the disk gives there.
    pub fn new(disk: &'a mut D, cache: &'a mut BlockCache) -> Cached<'a, D>
        requires { IsTrue (D.state disk.old).tells → CacheAgrees (D.state disk.old) cache.old }
        ensures disk { disk_of result ≡ disk.old }
        ensures cache { cache_of result ≡ cache.old }
        ensures names { names_of result ≡ (disk.entry.ghost_name, cache.entry.ghost_name) }
    {
        Cached { disk, cache }
    }
}

impl<'a, D: Disk> Disk for Cached<'a, D> {
    ghost use Rattle.std.specs.Prelude.{◌≡◌, ◌≢◌, ◌≤◌, ◌+◌, ◌^◌, ℕ, None, [], length, take, IfOk, OnOk, OnErr, is_ok, true};
    ghost use Rattle.alt_disk.specs.Disk.{IsTrusted, IsNames, contents, call_answered, Tick, ReadCall, Same, Written, Removed, Read};
    ghost use Rattle.alt_blocks.specs.Behind.{state_of, cache_of, Uncounted};
    ghost use Rattle.alt_blocks.specs.Places.{IsEmpty, CacheAddsPlace, cache_has_place};

    ghost state = { state_of };

    ghost reads_as_image = { λ c trusted f. D.reads_as_image c.disk.now trusted f };

    // An opening begins with this call, so it reads what stands there now, also where something else changed it.
    fn names(&mut self, list: &mut Vec<u32>) -> Result<(), DiskFault>
        ensures cleared { IsEmpty (cache_of self.new) }
        ensures names { IsTrue (state_of self.old).tells
            → OnOk result (IsNames list.new.items (state_of self.old).file) }
        ensures emptied { OnErr result (list.new.items ≡ []) }
        ensures call { Tick (state_of self.old) (state_of self.new) (call_answered result) }
        ensures same { IsTrue (state_of self.old).tells
            → Same (state_of self.old) (state_of self.new) }
    {
        self.cache.clear();
        self.disk.names(list)
    }

    fn size(&mut self, f: u32) -> Result<u64, Failed> {
        self.disk.size(f)
    }

    // What the cache has is no call of the disk, and it learns no other place than this one.
    fn read(&mut self, f: u32, at: u64, buf: &mut [u8]) -> Result<usize, Failed>
        ensures kept { cache_has_place (cache_of self.old) f at (length buf.old) ≡ true
            → Uncounted (state_of self.old) (state_of self.new) (is_ok result) }
        ensures adds { IfOk result (λ count. CacheAddsPlace (cache_of self.old) (cache_of self.new)
            (f, at, length buf.old) (take count buf.new)) }
        ensures bytes { IsTrue (state_of self.old).tells → IfOk result
            (λ count. Read (contents (state_of self.old) f) at buf.old buf.new count) }
        ensures bound { IfOk result (λ count. count ≤ length buf.old) }
        ensures call { ReadCall (state_of self.old) (state_of self.new) f at (length buf.old)
            (is_ok result) }
        ensures same { IsTrue (state_of self.old).tells
            → Same (state_of self.old) (state_of self.new) }
    {
        match self.cache.recall(f, at, buf) {
            Some(count) => Ok(count),
            None => {
                let count = self.disk.read(f, at, buf)?;
                self.cache.keep(f, at, buf, count);
                Ok(count)
            }
        }
    }

    fn write_at(&mut self, f: u32, at: u64, bytes: &[u8]) -> Result<(), Failed>
        requires { IsTrusted (state_of self.old) → at ≤ length (contents (state_of self.old) f) }
        ensures emptied { IsEmpty (cache_of self.new) }
        ensures written { IsTrusted (state_of self.old)
            → Written (state_of self.old) (state_of self.new) f at bytes.now (is_ok result) }
        ensures fits { OnOk result (at + length bytes.now ≤ 2 ^ 62) }
        ensures call { Tick (state_of self.old) (state_of self.new) (is_ok result) }
    {
        self.cache.clear();
        self.disk.write_at(f, at, bytes)
    }

    fn sync(&mut self, f: u32) -> Result<(), Failed> {
        self.disk.sync(f)
    }

    fn remove(&mut self, f: u32) -> Result<(), Failed>
        ensures emptied { IsEmpty (cache_of self.new) }
        ensures gone { IsTrue (state_of self.old).tells
            → OnOk result ((state_of self.new).file f ≡ None) }
        ensures removed { IsTrusted (state_of self.old)
            → Removed (state_of self.old) (state_of self.new) f (is_ok result) }
        ensures missing { IsTrue (state_of self.old).tells → (state_of self.old).file f ≡ None
            → Same (state_of self.old) (state_of self.new) }
        ensures call { Tick (state_of self.old) (state_of self.new) (is_ok result) }
        ensures others { IsTrue (state_of self.old).tells → (g : ℕ) → g ≢ f
            → (state_of self.new).file g ≡ (state_of self.old).file g }
    {
        self.cache.clear();
        self.disk.remove(f)
    }
}
