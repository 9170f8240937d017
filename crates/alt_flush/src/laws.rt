//! What follows of the steps of a draft from their definitions, for the callers' proofs.

ghost use Rattle.alt_flush.specs.Laws.{FlushDrops, FlushNames, LogDrops, LogNames, MergeDrops, SegmentDrops, WithoutDrops, WithoutNames};

/// Which files a draft names of each family after a step, and which it names no more.
pub fn draft_laws()
    ensures flush { FlushNames }
    ensures flush_drops { FlushDrops }
    ensures without { WithoutNames }
    ensures without_drops { WithoutDrops }
    ensures new_log { LogNames }
    ensures new_log_drops { LogDrops }
    ensures segment_drops { SegmentDrops }
    ensures merge_drops { MergeDrops }
{}
