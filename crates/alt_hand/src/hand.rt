//! The engine in hand over files.

ghost use Rattle.std.specs.Prelude.{◌≡◌};
ghost use Rattle.alt_disk.specs.Disk.{DiskState};
ghost use Rattle.alt_layout.specs.Layout.{Layout};
ghost use Rattle.alt_hand.specs.InHand.{next_of, HandReadsLayout};

use alt_families::Family;
use alt_gatelog::GateLog;
use alt_manifest::Manifest;
use std::alloc::Global;
use std::collections::BTreeMap;

/// From how many bytes on a family is flushed, and from how many files on merged.
#[derive(Clone, Copy, Debug, PartialEq, Eq, Drop)]
pub struct Limits {
    pub flush: u64,
    pub merge: u32,
}

/// The engine: the versions, the last segment, the bytes of all segments' entries, the numbers of the next write and of the next
/// file, the families, and whether one of them may have so many bytes in memory that it is flushed.
#[derive(Drop)]
pub struct Hand {
    pub(crate) alloc: Global,
    pub(crate) limits: Limits,
    pub(crate) manifest: Manifest,
    pub(crate) log: GateLog,
    pub(crate) length: u64,
    pub(crate) next: u64,
    pub(crate) next_file: u32,
    pub(crate) families: BTreeMap<u32, Family>,
    pub(crate) full: bool,
}

impl Hand {
    /// The number of the next write.
    pub fn next_number(&self) -> u64
        ensures next { result ≡ next_of self.now }
        ensures layout { (s : DiskState) (l : Layout) → HandReadsLayout s self.now l
            → result ≡ l.next_number }
    {
        self.next
    }
}
