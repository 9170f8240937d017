//! Tests of row files, of rows in memory and of walks over both, through public calls alone.
#![tactic(auto)]

#[cfg(test)]
mod tests;
