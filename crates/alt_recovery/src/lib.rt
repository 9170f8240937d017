//! What a recovery reads of a store, piece by piece, and the removal of what its last version doesn't name.
#![tactic(auto)]

mod entries;
mod families;
mod flushed;
mod next;
mod open;
mod replay;

pub use entries::{LoggedEntry, read_entry};
pub use families::open_families;
pub use flushed::flushed_numbers;
pub use next::next_file;
pub use open::open_files;
pub use replay::{Replay, replay_segments};
