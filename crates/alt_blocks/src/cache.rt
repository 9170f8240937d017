//! What reads gave, by file, place and length of the buffer; the places used last stay.

ghost use Rattle.std.specs.Prelude.{◌≡◌, ◌<◌, ◌≤◌, length, take, min, is_some, IfOk, IfSome, IfNone};
ghost use Rattle.alt_blocks.specs.Short.{AreShort};

use alt_base::NoMemory;
use alt_fields::Bytes;
use lru::LruCache;
use std::alloc::Global;
use std::num::NonZeroUsize;

/// How long a read may be that is kept, in bytes.
pub const LONGEST_KEPT: usize = 32_768;

/// A cache of so many reads at most, none of which is longer than `LONGEST_KEPT`.
#[derive(Drop)]
pub struct BlockCache {
    alloc: Global,
    places: LruCache<(u32, u64, usize), Bytes>,
    ghost short: { AreShort places.entries },
}

impl BlockCache {
    ghost use Rattle.alt_disk.specs.Disk.{DiskState, Read, contents};
    ghost use Rattle.alt_blocks.specs.Places.{CacheAgrees, CacheAddsPlace, HasNoNewPlace, IsEmpty, cache_has_place, room_of};

    /// An empty cache of `most` places, which is above 0.
    pub fn new(alloc: Global, most: usize) -> Result<BlockCache, NoMemory>
        requires { 0 < most }
        ensures empty { IfOk result IsEmpty }
        ensures room { IfOk result (λ c. room_of c ≡ most) }
    {
        match NonZeroUsize::new(most) {
            Some(most) => Ok(BlockCache {
                alloc,
                places: LruCache::new(alloc, most)?,
            }),
            None => Err(NoMemory),
        }
    }

    pub(crate) fn clear(&mut self)
        ensures empty { IsEmpty self.new }
    {
        self.places.clear();
    }

    /// Puts what a read of this file, place and length gave into the buffer's front, where it is here, and answers how many bytes.
    pub(crate) fn recall(&mut self, f: u32, at: u64, buf: &mut [u8]) -> Option<usize>
        ensures hit { (s : DiskState) → CacheAgrees s self.old → IfSome result
            (λ count. Read (contents s f) at buf.old buf.new count) }
        ensures found { is_some result ≡ cache_has_place self.old f at (length buf.old) }
        ensures miss { IfNone result (buf.new ≡ buf.old) }
        ensures within { HasNoNewPlace self.old self.new }
        ensures bound { IfSome result (λ count. count ≤ length buf.old) }
    {
        let place = (f, at, buf.len());
        match self.places.peek(&place) {
            Some(bytes) => {
                let count = copy_front(bytes.as_slice(), buf);
                self.places.promote(&place);
                Some(count)
            }
            None => None,
        }
    }

    /// Keeps the first `count` bytes of the buffer for such a read, unless it is too long or memory is wanting.
    pub(crate) fn keep(&mut self, f: u32, at: u64, buf: &[u8], count: usize)
        requires { count ≤ length buf.now }
        ensures adds { CacheAddsPlace self.old self.new (f, at, length buf.now) (take count buf.now) }
    {
        if buf.len() > LONGEST_KEPT {
            return;
        }
        match Bytes::new(self.alloc, &buf[..count]) {
            Ok(bytes) => match self.places.put((f, at, buf.len()), bytes) {
                Ok(_) => {}
                Err(_) => {}
            },
            Err(_) => {}
        }
    }
}

// Copies as many bytes as fit into the buffer's front, and answers how many.
fn copy_front(bytes: &[u8], buf: &mut [u8]) -> usize
    ensures count { result ≡ min (length buf.old) (length bytes.now) }
    ensures front { take result buf.new ≡ take result bytes.now }
{
    let count = buf.len().min(bytes.len());
    buf[..count].copy_from_slice(&bytes[..count]);
    count
}
