//! What follows of gated logs from their definitions, for the callers' proofs.

ghost use Rattle.alt_gatelog.specs.Laws.{OneList, OneForm, DamagedIsNone, EachStopLeavesLog, StaysElsewhere, StaysQuiet};

/// A file is a log of one list and of one form at most, and of none where it is damaged. Where a log in hand stands each stop leaves its file with its
/// entries, and it stands on while other files change or nothing does.
pub fn log_laws()
    ensures one_list { OneList }
    ensures one_form { OneForm }
    ensures damaged { DamagedIsNone }
    ensures in_each_image { EachStopLeavesLog }
    ensures elsewhere { StaysElsewhere }
    ensures quiet { StaysQuiet }
{}
