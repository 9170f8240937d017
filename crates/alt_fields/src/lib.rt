//! Fields of bytes: fixed-width big-endian numbers and byte strings behind their length, read exactly
//! as they were written; and `Bytes`, a byte string that contracts see as a list with its order.
//!
//! The table of the encoding is docs/formats/fields.md.
#![tactic(auto)]

mod bytes;
mod put;
mod take;

pub use bytes::{Bytes, BytesFault};
pub use put::{put_bytes, put_u32, put_u64};
pub use take::{Short, take_bytes, take_u32, take_u64};
