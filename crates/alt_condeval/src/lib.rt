//! Whether a condition holds of an item, without memory and by looking only at what the condition names; and a condition for many
//! items, in which what names no attribute is decided once.
#![tactic(auto)]

mod compared;
mod contained;
mod copies;
mod denoted;
mod holding;
mod kinds;
mod settling;

pub use holding::holds;
pub use settling::settled;
