//! The calls that a disk in memory keeps.

/// What a call did to its file.
#[derive(Drop)]
pub enum Deed {
    /// Wrote these bytes at a place.
    Write { at: u64, bytes: Vec<u8> },
    /// Failed to write so many bytes at a place.
    WriteFailed { at: u64, count: u64 },
    /// Made the file last.
    Sync,
    /// Removed the file.
    Remove,
    /// Failed to remove the file.
    RemoveFailed,
}

/// A call that was made.
#[derive(Drop)]
pub struct Made {
    /// The first moment at which it shows, the one after that at which it was made.
    pub time: u64,
    /// The file's number.
    pub file: u32,
    /// What it did.
    pub deed: Deed,
}
