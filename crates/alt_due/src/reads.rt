//! What a list tells of itself.

ghost use Rattle.std.specs.Prelude.{◌≡◌, ◌≤◌, ◌↔◌, IsTrue};
ghost use Rattle.std.specs.Option.{option_copied};
ghost use Rattle.alt_due.specs.declared.due.TheConstants.{BOUND};
ghost use Rattle.alt_due.specs.Due.{entry_count, is_before, suffices_at, CoversAll, ListsNone, IsRipe, NoneDue};
ghost use Rattle.alt_due.specs.Order.{spot_of};

use crate::due::Due;
use crate::spot::{Spot, order};

impl Due {
    /// The moment from which on it covers.
    pub fn since(&self) -> u64
        ensures { result ≡ self.now.since }
    {
        self.since
    }

    /// Whether it covers a moment, at the places before the end.
    pub fn covers(&self, moment: u64) -> bool
        ensures { result ≡ suffices_at self.now moment }
    {
        self.since <= moment && moment < self.until
    }

    /// The first place that it doesn't cover, None where it covers each.
    pub fn end(&self) -> Option<&Spot>
        ensures { option_copied result ≡ self.now.end }
    {
        self.end.as_ref()
    }

    /// How many entries it has.
    pub fn count(&self) -> usize
        ensures count { result ≡ entry_count self.now }
        ensures few { result ≤ BOUND }
    {
        self.waiting.len() + self.ready.len()
    }

    /// Whether it tells, without a walk through it, that nothing is due at a moment.
    pub fn due_none(&self, moment: u64) -> bool
        ensures { IsTrue result ↔ NoneDue self.now moment }
    {
        self.covers_all(moment) && self.lists_none(moment)
    }

    /// Whether it covers a moment at each place.
    fn covers_all(&self, moment: u64) -> bool
        ensures { IsTrue result ↔ CoversAll self.now moment }
    {
        self.end.is_none() && self.covers(moment)
    }

    /// Whether it lists no place at a moment.
    fn lists_none(&self, moment: u64) -> bool
        ensures { IsTrue result ↔ ListsNone self.now moment }
    {
        self.ready.is_empty() && self.is_ripe(moment)
    }

    /// Whether a place is before the end.
    pub(crate) fn is_before_end(&self, table: &str, place: &[u8]) -> bool
        ensures { result ≡ is_before self.now.end (spot_of table.now place.now) }
    {
        match &self.end {
            Some(end) => order(table, place, end).is_lt(),
            None => true,
        }
    }

    /// Whether all that waits is due later.
    pub(crate) fn is_ripe(&self, moment: u64) -> bool
        ensures { IsTrue result ↔ IsRipe moment self.now }
    {
        match self.waiting.first() {
            Some(term) => moment < term.first,
            None => true,
        }
    }
}
