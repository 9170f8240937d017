//! HTTP as far as the server speaks it: which head stands at the front of bytes, what it asks for, and the bytes of a reply.
//!
//! The rules are docs/formats/http.md.
#![tactic(auto)]

mod fields;
mod judging;
mod lengths;
mod outcome;
mod reading;
mod replying;
mod resuming;

pub use lengths::LONGEST_BODY;
pub use outcome::Scan;
pub use reading::{LONGEST_HEAD, is_still_more, scan};
pub use replying::{CONTINUE, refusal_body, refusal_status, reply};
pub use resuming::scan_more;
