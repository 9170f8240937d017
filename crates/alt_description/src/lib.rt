//! What a table's description is: the records of its keys, its indexes and its stream; copies of it; and its JSON.
#![tactic(auto)]

mod copies;
mod json;
mod lists;
mod schema;

pub use copies::{
    built_copy, copied_index, copied_key, copied_keys, copied_schema, copied_texts, with_built,
};
pub use json::{json_of_schema, label, stream_arn, view_word};
pub use lists::{IndexList, KeyAttrList, TextList};
pub use schema::{Built, IndexSchema, KeyAttr, Projection, TableSchema, View};
