//! What every operation does with its body: what is refused before its own work begins, and how it stops.
#![tactic(auto)]

mod body;
mod deciding;
mod indexed;
mod items;
mod lists;
mod reads;
pub mod stop;
mod targets;
mod writes;

pub use alt_said::{
    Found, Given, ItemChange, Older, TableFault, Tables, Texts, asks, done, expires_from,
    expressions, given_at, item_member, item_of, number_refusal, one_member,
};
pub use body::{Rules, body_refusal, table_name};
pub use deciding::asked;
pub use items::{item_at, item_refusal};
pub use lists::{ListTarget, list_target};
pub use reads::{ItemRead, TableRead, read_item, read_table};
pub use stop::Stop;
pub use targets::{Target, fitting_place, item_target, table_target};
pub use writes::{ItemWrite, write_item};
