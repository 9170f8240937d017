//! The tests of alt_lines and of alt_http, in a crate above both, so that neither is proved again for them.
#![tactic(auto)]

#[cfg(test)]
mod tests;
