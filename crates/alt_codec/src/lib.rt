//! Values and their JSON, both ways; and who writes them.
#![tactic(auto)]

mod fault;
mod flat;
mod reading;
mod scalars;
mod sets;
mod text;
mod writer;
mod writing;

pub use fault::ValueFault;
pub use reading::{attr_of_json, item_of_json};
pub use text::{write_attr, write_item};
pub use writer::Writer;
pub use writing::{json_of_attr, json_of_item};
