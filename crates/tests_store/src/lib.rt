//! Tests of the disk in memory, of the shell in memory and of the gated log, through their public calls alone.
#![tactic(auto)]

#[cfg(test)]
mod tests;
