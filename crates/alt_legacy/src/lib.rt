//! The conditions, updates, key conditions and projections of requests that name attributes by members of the older interface, and
//! not by expressions.
#![tactic(auto)]

mod condition;
mod entry;
mod fault;
mod fits;
mod key;
mod names;
mod operator;
mod reading;
mod tree;
mod update;
mod values;

pub use condition::{expected_of, filter_of};
pub use fault::LegacyFault;
pub use fits::values_fit;
pub use key::key_of;
pub use names::names_of;
pub use reading::Form;
pub use update::update_of;
