//! A merge of row files into a new one, kept between two calls while other files of the disk change.
#![tactic(auto)]

mod filemerge;

pub use filemerge::FileMerge;
