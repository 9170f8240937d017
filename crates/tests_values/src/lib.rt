//! The tests of alt_fields, alt_decimal, alt_value and alt_codec, in a crate above them, so that none is
//! proved again for them.
#![tactic(auto)]

#[cfg(test)]
mod tests;
