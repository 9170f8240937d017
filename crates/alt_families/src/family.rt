//! A family in hand.

use alt_memtable::Memtable;
use alt_rowfile::RowFile;

/// The rows in memory of one family, and its files.
#[derive(Drop)]
pub struct Family {
    pub table: Memtable,
    pub files: Vec<RowFile>,
}
