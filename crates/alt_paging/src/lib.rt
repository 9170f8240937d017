//! A page of a list of items: where it ends, and what it gives.
#![tactic(auto)]

mod ask;
mod look;
mod pager;

pub use ask::{ItemList, Page, PageAsk};
pub use pager::Pager;
