//! Tables of rows, with a helper for each kind of row.

mod cell_bytes;
mod cells;
mod changes;
mod keys;
