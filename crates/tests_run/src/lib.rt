//! Tests of whole runs, over the shell in memory.
#![tactic(auto)]

#[cfg(test)]
mod tests;
