//! What the words of a text stand for.

use crate::names::Names;
use crate::values::Values;
use std::alloc::Global;

/// The given names and values, and the allocator of what is read.
#[derive(Drop)]
pub struct Lookups<'a> {
    pub alloc: Global,
    pub names: &'a Names,
    pub values: &'a Values,
}
