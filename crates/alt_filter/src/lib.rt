//! Small Bloom filters: which keys a group can have, told by 256 bits. A key that was added is never denied.
#![tactic(auto)]

mod filter;
mod hash;

pub use filter::Filter;
