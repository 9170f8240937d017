//! Lines of an input that comes in pieces, each of at most so many bytes; and the generator of requests.
//!
//! The tables of the generator are docs/formats/trial.md.
#![tactic(auto)]

mod feed;
mod generator;
mod pieces;
mod put;
mod reader;
mod requests;

pub use feed::Cut;
pub use generator::Trial;
pub use reader::{LONGEST_LINE, Lines};
