//! The members of a body that an operation names, as JSON trees. The others are read past: they are tested as those of a tree are, and no tree
//! is made of them.
#![tactic(auto)]

mod named;
mod numbers;
mod passing;
mod trees;
mod unread;

pub use named::{is_among, read_named};
pub use passing::pass;
pub use trees::tree;
pub use unread::Unread;
