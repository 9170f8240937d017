//! The tests of members of the older interface: what their entries ask of an item, what they make of one, and what they show, in a crate above
//! alt_legacy, so that it isn't proved again for them.
#![tactic(auto)]

#[cfg(test)]
mod tests;
