//! How an operation stops before its end, which `alt_said` has: crates above find it here.

pub use alt_said::Stop;
