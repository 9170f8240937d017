//! The items that are due by now: how they come to be ready, and how one goes through them.

ghost use Rattle.std.specs.Prelude.{◌≡◌, ◌<◌, ℕ, false, OnOk, IfOk, IsTrue};
ghost use Rattle.std.specs.BTreeSet.{btree_set_len, contains};
ghost use Rattle.std.specs.Option.{option_copied};
ghost use Rattle.std.specs.Range.Bound.{bound_map};
ghost use Rattle.alt_due.specs.Due.{suffices_at, bound_behind, KeepsKnown, KeepsOthers, FindsNext, IsRipe};
ghost use Rattle.alt_due.specs.Order.{spot_cmp};

use crate::due::Due;
use crate::spot::Spot;
use alt_base::NoMemory;
use std::ops::Bound;

impl Due {
    /// Makes ready what is due by a moment. False where it doesn't cover that moment, or doesn't any more for want of memory.
    pub fn advance(&mut self, moment: u64) -> bool
        ensures within { result ≡ suffices_at self.new moment }
        ensures ripe { IsTrue result → IsRipe moment self.new }
        ensures keeps { KeepsKnown self.old self.new }
    {
        if !self.covers(moment) {
            return false;
        }
        self.since = moment;
        match self.ripen(moment) {
            Ok(()) => true,
            Err(NoMemory) => {
                self.forget();
                false
            }
        }
    }

    /// The first place that is ready, behind that one where one is given.
    pub fn next(&self, after: Option<&Spot>) -> Option<&Spot>
        ensures { FindsNext self.now (option_copied after.entry) (option_copied result) }
    {
        let found = self.ready.range((start(after), Bound::Unbounded)).next()?;
        if self.is_before_end(found.table.as_str(), found.place.as_slice()) {
            Some(found)
        } else {
            None
        }
    }

    /// Drops a place that is ready and whose item isn't due.
    pub fn drop_ready(&mut self, spot: &Spot)
        ensures dropped { contains spot_cmp self.new.ready spot.now ≡ false }
        ensures keeps { KeepsOthers spot.now self.old self.new }
        ensures ripe { (moment : ℕ) → IsRipe moment self.old → IsRipe moment self.new }
        ensures since { self.new.since ≡ self.old.since }
        ensures until { self.new.until ≡ self.old.until }
        ensures end { self.new.end ≡ self.old.end }
    {
        self.ready.remove(spot);
    }

    /// Makes ready all that is due by a moment.
    fn ripen(&mut self, moment: u64) -> Result<(), NoMemory>
        ensures ripe { OnOk result (IsRipe moment self.new) }
        ensures keeps { OnOk result (KeepsKnown self.old self.new) }
        ensures since { self.new.since ≡ self.old.since }
        ensures until { self.new.until ≡ self.old.until }
        ensures end { self.new.end ≡ self.old.end }
    {
        while self.ripen_first(moment)? {}
        Ok(())
    }

    /// Makes the first of what waits ready, where it is due by a moment. False where it isn't.
    fn ripen_first(&mut self, moment: u64) -> Result<bool, NoMemory>
        ensures ripe { IfOk result (λ more. more ≡ false → IsRipe moment self.new) }
        ensures fewer { IfOk result (λ more. IsTrue more
            → btree_set_len self.new.waiting < btree_set_len self.old.waiting) }
        ensures keeps { OnOk result (KeepsKnown self.old self.new) }
        ensures since { self.new.since ≡ self.old.since }
        ensures until { self.new.until ≡ self.old.until }
        ensures end { self.new.end ≡ self.old.end }
    {
        if self.is_ripe(moment) {
            return Ok(false);
        }
        let Some(term) = self.waiting.pop_first() else {
            return Ok(false);
        };
        if self.is_before_end(term.at.table.as_str(), term.at.place.as_slice()) {
            self.ready.insert(term.at)?;
        }
        Ok(true)
    }
}

/// Where a walk goes on behind a place.
fn start(after: Option<&Spot>) -> Bound<&Spot>
    ensures { bound_map (λ s. s.now) result ≡ bound_behind (option_copied after.entry) }
{
    match after {
        Some(spot) => Bound::Excluded(spot),
        None => Bound::Unbounded,
    }
}
