//! The tables with their items over the engine: what the machine's state stands for on a disk.
#![tactic(auto)]

mod altering;
mod build;
mod by_keys;
mod changes;
mod finding;
mod foresight;
mod items;
mod laws;
mod recover;
mod rows;
mod several;
mod tables;
mod trimming;
mod walk;
mod work;

pub use alt_rowchanges::{
    Limits, MakeFault, OpenFault, TableFault, Task, Worked, expires_from, make_store,
};
pub use by_keys::ItemWrite;
pub use finding::Found;
pub use laws::tables_laws;
pub use several::ItemChange;
pub use tables::Tables;
