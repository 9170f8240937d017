//! Opening a store: its files stand for a state of the machine, which its rows tell, or one of them is wrong.
//!
//! `recover` opens it. `opened` reads the catalog, `scan` the items of tables, `change_scan` the changes of streams and `index_scan`
//! the rows of indexes. `catalog` keeps descriptions by name, `live` the families of their tables and `trimmed` what was trimmed of their
//! changes. What one row tells is alt_tablerows'.
#![tactic(auto)]

mod catalog;
mod change_scan;
mod faults;
mod index_scan;
mod live;
mod opened;
mod recover;
mod scan;
mod trimmed;

pub use alt_engine::{Engine, EngineFault, Limits, MakeFault, Task, Worked, make_store};
pub use alt_tablerows::{
    CATALOG, change_at, number_of, row_of_family, row_of_schema, row_with_time, same,
};
pub use catalog::Catalog;
pub use faults::OpenFault;
pub use live::Live;
pub use recover::{Store, open_store};
pub use trimmed::{Trimmed, forget, renumber, trimmed_number};
