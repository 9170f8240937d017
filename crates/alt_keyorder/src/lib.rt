//! Keys as bytes: key parts, whose byte order is the order of keys, tokens, and ranges of keys.
#![tactic(auto)]

mod digest;
mod order;
mod part;
mod range;
mod take;

pub use digest::token;
pub use order::{key_laws, part_laws, part_order, place_laws};
pub use part::key_part;
pub use range::{KeyRange, after_all};
pub use take::take_part;
