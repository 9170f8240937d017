//! Tests of the engine, through its public calls alone.
#![tactic(auto)]

#[cfg(test)]
mod tests;
