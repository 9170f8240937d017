//! The indexes of a table: which one has a name, which keys can be keys there, and what a row keeps of its item.

pub mod index;
pub mod projection;
