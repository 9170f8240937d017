//! What follows of layouts from their definitions, for the callers' proofs.

ghost use Rattle.alt_layout.specs.Laws.{OneLayout, ImagesArePast, SameAfter, ShowsBatch, FindsShown, FreshHasNone, Flushes, FlushesAll, FlushesOne, Merges, MergesOne, NamesMade, Compacts, InEachImage, LayoutStaysElsewhere, StaysByRemoval, TakesVersion, TakesWrites};

/// An image has one layout, past all its numbers. What is shown alike stays alike after later writes. A family that is flushed has the
/// rows that it had, and one that is merged shows what it showed.
pub fn layout_laws()
    ensures one_layout { OneLayout }
    ensures images_past { ImagesArePast }
    ensures same_after { SameAfter }
    ensures shows_batch { ShowsBatch }
    ensures finds { FindsShown }
    ensures fresh { FreshHasNone }
    ensures flushes { Flushes }
    ensures flushes_all { FlushesAll }
    ensures flushes_one { FlushesOne }
    ensures merges { Merges }
    ensures merges_one { MergesOne }
    ensures names_made { NamesMade }
    ensures compacts { Compacts }
{}

/// What calls on one file leave of a store: one that the last version doesn't name counts for nothing; a version more, or an entry with writes more,
/// is there or isn't in each image.
pub fn moment_laws()
    ensures in_each_image { InEachImage }
    ensures elsewhere { LayoutStaysElsewhere }
    ensures removal { StaysByRemoval }
    ensures version { TakesVersion }
    ensures writes { TakesWrites }
{}
