//! Cell bytes: the one spelling of each attribute value in bytes, written and read.
//!
//! The table of the encoding is docs/formats/cell-bytes.md.
#![tactic(auto)]

mod fault;
mod members;
mod pieces;
mod reading;
mod writing;

pub use reading::{attr_of, attr_within};
pub use writing::bytes_of;
