//! The tests of alt_shape, alt_schema and alt_schemabytes, in a crate above these, so that none is proved again for
//! them.
#![tactic(auto)]

#[cfg(test)]
mod tests;
