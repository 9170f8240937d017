//! A list is begun and forgotten, and takes note of items. Where it has no room for one more, or no memory, it covers less.

ghost use Rattle.std.specs.Prelude.{◌≡◌, ◌<◌, ◌-◌, ◌^◌, ℕ, false, None, OnOk};
ghost use Rattle.alt_due.specs.declared.due.TheConstants.{BOUND};
ghost use Rattle.alt_due.specs.Due.{entry_count, KnowsFrom, KeepsKnown, CoversNothing, IsRipe};
ghost use Rattle.alt_due.specs.Order.{spot_of};

use crate::due::{BOUND, Due};
use crate::spot::{Spot, Term};
use alt_base::NoMemory;
use alt_fields::Bytes;
use alt_value::Text;
use std::alloc::Global;
use std::collections::BTreeSet;

impl Due {
    /// A list that covers nothing.
    pub fn new(alloc: Global) -> Due
        ensures none { CoversNothing result }
        ensures empty { entry_count result ≡ 0 }
    {
        Due {
            alloc,
            since: 0,
            until: 0,
            end: None,
            waiting: BTreeSet::new(alloc),
            ready: BTreeSet::new(alloc),
        }
    }

    /// An empty list that covers all places from a moment on. It knows of no item yet: each that has a time is to be noted.
    pub fn begin(alloc: Global, moment: u64) -> Due
        ensures since { result.since ≡ moment }
        ensures until { result.until ≡ 2 ^ 64 - 1 }
        ensures end { result.end ≡ None }
        ensures empty { entry_count result ≡ 0 }
    {
        Due {
            alloc,
            since: moment,
            until: u64::MAX,
            end: None,
            waiting: BTreeSet::new(alloc),
            ready: BTreeSet::new(alloc),
        }
    }

    /// Drops all that is listed, and covers nothing.
    pub fn forget(&mut self)
        ensures none { CoversNothing self.new }
        ensures empty { entry_count self.new ≡ 0 }
        ensures since { self.new.since ≡ self.old.since }
    {
        self.until = 0;
        self.end = None;
        self.waiting.clear();
        self.ready.clear();
    }

    /// Notes that the item at a place is due from a moment on.
    pub fn note(&mut self, table: &str, place: &[u8], first: u64)
        ensures known { KnowsFrom first (spot_of table.now place.now) self.new }
        ensures keeps { KeepsKnown self.old self.new }
        // What waits is still due later than a moment, where the item is too.
        ensures ripe { (moment : ℕ) → moment < first → IsRipe moment self.old
            → IsRipe moment self.new }
        ensures since { self.new.since ≡ self.old.since }
    {
        if !self.reaches(table, place, first) {
            return;
        }
        self.make_room();
        match self.add(table, place, first) {
            Ok(()) => {}
            Err(NoMemory) => self.forget(),
        }
    }

    /// Drops the last entry where there is no room for one more, and covers only what comes before that one.
    fn make_room(&mut self)
        ensures room { entry_count self.new < BOUND }
        ensures stays { entry_count self.old < BOUND → self.new ≡ self.old }
        ensures keeps { KeepsKnown self.old self.new }
        ensures ripe { (moment : ℕ) → IsRipe moment self.old → IsRipe moment self.new }
        ensures since { self.new.since ≡ self.old.since }
    {
        if self.count() < BOUND {
            return;
        }
        if let Some(term) = self.waiting.pop_last() {
            if term.first < self.until {
                self.until = term.first;
            }
        } else if let Some(spot) = self.ready.pop_last() {
            if self.is_before_end(spot.table.as_str(), spot.place.as_slice()) {
                self.end = Some(spot);
            }
        }
    }

    /// Adds an entry.
    fn add(&mut self, table: &str, place: &[u8], first: u64) -> Result<(), NoMemory>
        requires room { entry_count self.old < BOUND }
        ensures known { OnOk result (KnowsFrom first (spot_of table.now place.now) self.new) }
        ensures keeps { OnOk result (KeepsKnown self.old self.new) }
        ensures ripe { OnOk result ((moment : ℕ) → moment < first → IsRipe moment self.old
            → IsRipe moment self.new) }
        ensures since { self.new.since ≡ self.old.since }
        ensures until { self.new.until ≡ self.old.until }
        ensures end { self.new.end ≡ self.old.end }
    {
        let at = Spot {
            table: Text::new(self.alloc, table)?,
            place: Bytes::new(self.alloc, place)?,
        };
        if first <= self.since {
            self.ready.insert(at)?;
        } else {
            self.waiting.insert(Term { first, at })?;
        }
        Ok(())
    }

    /// Whether it covers a place at a moment, from that moment on.
    fn reaches(&self, table: &str, place: &[u8], first: u64) -> bool
        ensures { result ≡ false → KnowsFrom first (spot_of table.now place.now) self.now }
    {
        first < self.until && self.since < self.until && self.is_before_end(table, place)
    }
}
