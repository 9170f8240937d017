//! The tests of alt_due, in a crate above it, so that it is not proved again for them.
#![tactic(auto)]

#[cfg(test)]
mod tests;
