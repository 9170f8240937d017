//! One request against the tables: `answer` is the machine's step.
#![tactic(auto)]

mod answers;
mod targets;

pub use alt_backfill::build;
pub use alt_ttl::expire;
pub use answers::{answer, operation_named};
pub use targets::operation_of;
