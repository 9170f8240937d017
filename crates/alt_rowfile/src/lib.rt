//! Row files: a sorted list of rows in one file, cut into blocks, with an index of the blocks and a digest of all.
#![tactic(auto)]

mod fault;
mod load;
mod recover;
mod rowfile;
mod seek;
mod sink;
mod walk;
mod writer;

pub use alt_rowblocks::one_list_of_rows;
pub use fault::RowFileFault;
pub use rowfile::RowFile;
pub use walk::RowFileWalk;
pub use writer::RowFileWriter;
