//! A condition on the keys of a table or an index, read from its tree.
#![tactic(auto)]

mod ask;
mod key_test;
mod range;

pub use ask::{KeyAsk, KeyCondFault, RangeAsk, key_ask};
pub use range::key_range;
