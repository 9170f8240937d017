//! Tests of requests over a store on the disk in memory: stops and failures at each of its calls.
#![tactic(auto)]

#[cfg(test)]
mod tests;
