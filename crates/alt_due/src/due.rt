//! The list of the items that are due next: its bound and its fields.
//!
//! It lists each item that is due at a moment and a place that it covers, and maybe others. Where it would pass its bound, or where
//! memory is lacking, it covers less.

ghost use Rattle.std.specs.Prelude.{◌+◌, ◌≤◌};
ghost use Rattle.std.specs.BTreeSet.{btree_set_len};
ghost use Rattle.alt_due.specs.declared.due.TheConstants.{BOUND};

use crate::spot::{Spot, Term};
use std::alloc::Global;
use std::collections::BTreeSet;

/// The most entries of a list.
pub const BOUND: usize = 65_536;

/// The items that are due next. It covers the moments from `since` on and before `until`, at the places before `end`.
#[derive(Drop)]
pub struct Due {
    pub(crate) alloc: Global,
    pub(crate) since: u64,
    pub(crate) until: u64,
    pub(crate) end: Option<Spot>,
    // Those that are due later, each from a moment on.
    pub(crate) waiting: BTreeSet<Term>,
    // Those that were due at `since`.
    pub(crate) ready: BTreeSet<Spot>,
    ghost few: { btree_set_len waiting + btree_set_len ready ≤ BOUND },
}
