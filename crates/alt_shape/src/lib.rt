//! The shape of a request's body, and the refusals: which member breaks its rule first, and what a
//! refused client is told.
#![tactic(auto)]

pub mod bodies;
mod body;
mod checking;
mod fields;
mod inside;
mod object;
mod older;
mod refusal;
mod rule;
pub mod tables;

pub use body::{Body, Member, Part, TableItems};
pub use checking::{check, given};
pub use fields::{array_at, object_at, text_at, truth_at, whole_at};
pub use object::{Entry, Field, Inner, Leaf, Object};
pub use refusal::{Refusal, Reply, refuse, refuse_with};
pub use rule::{Broken, Kind, Rule, ShapeFault};
