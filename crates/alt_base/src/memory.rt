//! Want of memory, the one answer that no clause ties to a cause.

use std::alloc::{AllocError, AllocFailed};

/// The allocator refused to give memory. What the call's value is then, its contract says.
#[derive(Clone, Copy, Debug, PartialEq, Eq)]
pub struct NoMemory;

impl From<AllocError> for NoMemory {
    fn from(_: AllocError) -> Self {
        NoMemory
    }
}

impl<T: Drop> From<AllocFailed<T>> for NoMemory {
    fn from(_: AllocFailed<T>) -> Self {
        NoMemory
    }
}
