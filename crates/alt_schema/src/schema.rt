//! The records of a description, which `alt_description` has: crates above find them here.

pub use alt_description::{Built, IndexSchema, KeyAttr, Projection, TableSchema, View};
