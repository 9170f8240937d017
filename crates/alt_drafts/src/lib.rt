//! Drafts of the next version, with the families in hand as they are by them; and the first version, that of a fresh store.
#![tactic(auto)]

mod dead;
mod fault;
mod flushing;
mod full;
mod make;
mod merge;

pub use dead::leave_dead;
pub use fault::EngineFault;
pub use flushing::{flush_each, flush_rows};
pub use full::{first_full, full_after, has_full};
pub use make::{MakeFault, VERSIONS, make_store};
pub use merge::{merged, put_files_of};
