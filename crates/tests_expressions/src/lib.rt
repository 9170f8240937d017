//! The tests of expressions: their texts, what these mean, and what they ask of keys, in a crate above those, so that none of them is
//! proved again for them.
#![tactic(auto)]

#[cfg(test)]
mod tests;
