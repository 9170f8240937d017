//! The bytes of a row file: blocks of rows, an index of them and how they are read, tested and searched.
#![tactic(auto)]

mod blocks;
mod body;
mod decode;
mod digest;
mod filters;
mod hand;
mod law;
mod pick;
mod pieces;
mod search;
mod summary;
mod tail;
mod whole;

pub use blocks::Found;
pub use body::{body_of, is_same};
pub use digest::{digest_at, digest_up_to};
pub use filters::is_denied;
pub use hand::Hand;
pub use law::one_list_of_rows;
pub use pieces::bytes_at;
pub use search::{blocks_up_to, ends_below};
pub use summary::Summary;
pub use tail::tail_of;
pub use whole::{are_rows, row_at};
