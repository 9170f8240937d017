//! Several walks over rows as one.
#![tactic(auto)]

mod fill;
mod gather;
mod head;
mod merge;
mod passing;

pub use merge::Merge;
pub use passing::pass_over;
