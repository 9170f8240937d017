//! The versions of a store, which say which files hold its rows, as a log in one file.
#![tactic(auto)]

mod format;
mod laws;
mod manifest;
mod read;
mod rules;
mod version;

pub use laws::version_laws;
pub use manifest::Manifest;
pub use version::{FamilyList, FamilyVersion, FileList, Version};
