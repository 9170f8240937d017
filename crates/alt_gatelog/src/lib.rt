//! A log of entries in one file of a disk. A stop at any moment leaves each entry whole or not at all.
#![tactic(auto)]

mod durable;
mod fault;
mod form;
mod frame;
mod gatelog;
mod laws;
mod read;

pub use fault::LogFault;
pub use form::Form;
pub use frame::frame_of;
pub use gatelog::GateLog;
pub use laws::log_laws;
