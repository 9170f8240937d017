//! Connections, one after another: from the bytes taken to the replies said, each request carried out by the tables.
#![tactic(auto)]

mod connection;
mod expiring;
mod fault;
mod following;
mod front;
mod response;
mod saying;
mod turns;
mod working;

pub use alt_dispatch::{answer, operation_named};
pub use connection::connections;
pub use fault::RunFault;
pub use following::follow;
pub use working::work;
