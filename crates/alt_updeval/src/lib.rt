//! What an update makes of an item: the attributes that change, or why the first refused action is.
#![tactic(auto)]

mod action;
mod fault;
mod made;
mod sets;
mod sketch;
mod standing;
mod stepping;
mod term;
mod update;
mod within;

pub use fault::UpdateFault;
pub use sketch::{Sketch, sketched};
pub use update::{AttrChange, changed};
