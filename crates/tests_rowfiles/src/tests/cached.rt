//! Reads through a cache: what it answers, when the disk is asked again, and that a write, a removal or the question for the files empties it.

use crate::tests::doubted::Doubted;
use alt_blocks::{BlockCache, Cached, LONGEST_KEPT};
use alt_disk::Disk;
use std::alloc::Global;

// `r` reads so many bytes of a file from a place, `w` writes `!` there, `d` removes the file, `n` asks which files there are, and `o` is
// another's write of `!`, past the cache. Then what was read, and how many reads the disk has counted.
static STEPS: [(u8, u32, u64, usize, &[u8], u64); 20] = [
    (b'r', 1, 0, 4, b"one ", 1),
    (b'r', 1, 0, 4, b"one ", 1),
    // Another length, another place, another file.
    (b'r', 1, 0, 3, b"one", 2),
    (b'r', 1, 4, 4, b"file", 3),
    (b'r', 2, 0, 4, b"othe", 4),
    (b'r', 2, 0, 4, b"othe", 4),
    (b'r', 1, 4, 4, b"file", 4),
    // The cache has three places, and the one used longest ago has gone.
    (b'r', 1, 0, 3, b"one", 4),
    (b'r', 1, 0, 4, b"one ", 5),
    // A write of another file empties it too.
    (b'w', 2, 0, 1, b"", 5),
    (b'r', 1, 0, 4, b"one ", 6),
    (b'r', 2, 0, 4, b"!the", 7),
    (b'd', 1, 0, 0, b"", 7),
    (b'r', 1, 0, 4, b"", 8),
    // A read that gives less than its buffer is kept as well.
    (b'r', 1, 0, 4, b"", 8),
    (b'r', 2, 3, 4, b"er", 9),
    // What another wrote is found behind that question, with which an opening begins, and not before.
    (b'o', 2, 3, 1, b"", 9),
    (b'r', 2, 3, 4, b"er", 9),
    (b'n', 0, 0, 0, b"", 9),
    (b'r', 2, 3, 4, b"!r", 10),
];

fn step(disk: &mut Cached<'_, Doubted>, kind: u8, f: u32, at: u64, n: usize, want: &[u8]) -> bool {
    if kind == b'w' {
        return disk.write_at(f, at, b"!").is_ok();
    }
    if kind == b'd' {
        return disk.remove(f).is_ok();
    }
    let mut buf = [0u8; 8];
    if n > 8 {
        return false;
    }
    match disk.read(f, at, &mut buf[..n]) {
        Ok(count) => count <= 8 && &buf[..count] == want,
        Err(_) => false,
    }
}

// The first step that isn't as it is to be.
fn first_wrong(alloc: Global) -> Option<usize> {
    let mut disk = Doubted::new(alloc);
    let (Ok(()), Ok(())) = (
        disk.write_at(1, 0, b"one file"),
        disk.write_at(2, 0, b"other"),
    ) else {
        return Some(0);
    };
    let Ok(mut cache) = BlockCache::new(alloc, 3) else {
        return Some(0);
    };
    for (i, (kind, f, at, n, want, reads)) in STEPS.iter().enumerate() {
        let right = match *kind {
            b'o' => disk.write_at(*f, *at, b"!").is_ok(),
            b'n' => {
                let mut list = Vec::new(alloc);
                Cached::new(&mut disk, &mut cache).names(&mut list).is_ok()
            }
            kind => {
                let mut cached = Cached::new(&mut disk, &mut cache);
                step(&mut cached, kind, *f, *at, *n, want)
            }
        };
        let (_, counted) = disk.disk.counts();
        if !right || counted != *reads {
            return Some(i);
        }
    }
    None
}

#[test]
fn a_cache_answers_what_the_disk_gives_and_a_write_empties_it(rt: HostRuntime) {
    let wrong = first_wrong(rt.alloc());
    assert!(rt; wrong.is_none(), "{wrong:?}");
}

// How many reads the disk has counted after two of so many bytes of a file through a cache.
fn reads_of(alloc: Global, n: usize) -> Option<u64> {
    let mut disk = Doubted::new(alloc);
    let mut buf = Vec::new(alloc);
    buf.resize(n, 0).ok()?;
    disk.write_at(1, 0, &buf).ok()?;
    let mut cache = BlockCache::new(alloc, 3).ok()?;
    let mut cached = Cached::new(&mut disk, &mut cache);
    for _ in 0..2u8 {
        cached.read(1, 0, &mut buf).ok()?;
    }
    let (_, counted) = disk.disk.counts();
    Some(counted)
}

#[test]
fn a_long_read_is_not_kept(rt: HostRuntime) {
    assert!(rt; reads_of(rt.alloc(), LONGEST_KEPT) == Some(1));
    assert!(rt; reads_of(rt.alloc(), LONGEST_KEPT + 1) == Some(2));
}
