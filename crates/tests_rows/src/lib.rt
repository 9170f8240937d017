//! Tests of rows of cells, of key bytes and of cell bytes, as their format pages show them.
#![tactic(auto)]

#[cfg(test)]
mod tests;
