//! What a fault tells, whichever crate's enum tells it: definitions and their laws. Nothing here is run.
#![tactic(auto)]
