//! Merges of families' files under way, a few rows at a time between other calls of the engine.
#![tactic(auto)]

mod complete;
mod each;
mod merging;

pub use alt_hand::{EngineFault, Hand, Limits, MakeFault, RecoverFault, make_store};
pub use each::merge_each;
pub use merging::Merging;
