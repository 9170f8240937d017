//! Projections: the paths of a text, and what they choose of an item.
#![tactic(auto)]

mod behind;
mod choosing;
mod projection;
mod text;

pub use projection::{Projection, project};
pub use text::parse;
