//! What the expressions of a body say, with its names and values, or members of the older interface in their place; and how a
//! request stops.
#![tactic(auto)]

mod key_update;
mod older;
mod replies;
mod stop;
mod texts;
mod values;
mod words;

pub use alt_tables::{Found, ItemChange, TableFault, Tables, expires_from};
pub use older::{Older, entries_read};
pub use replies::{asks, done, item_member, one_member};
pub use stop::Stop;
pub use values::{item_of, number_refusal};
pub use words::{Given, Texts, expressions, given_at, words_given};
