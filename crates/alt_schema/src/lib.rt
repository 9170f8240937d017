//! Descriptions of tables as requests make them: of a CreateTable, or of a description and an UpdateTable.
//!
//! `stated`, `reading`, `rules`, `named` and `described` make descriptions of requests; `altered` and `used` make others of them.
#![tactic(auto)]

mod altered;
mod described;
mod named;
mod reading;
mod rules;
pub mod schema;
mod stated;
mod used;

pub use alt_description::{
    IndexList, KeyAttrList, TextList, built_copy, copied_schema, json_of_schema, label, stream_arn,
    view_word, with_built,
};
pub use altered::{fits_definitions, with_index, without_index};
pub use described::{SchemaFault, schema_of_json};
pub use named::Definitions;
pub use rules::is_name;
pub use schema::{Built, IndexSchema, KeyAttr, Projection, TableSchema, View};
