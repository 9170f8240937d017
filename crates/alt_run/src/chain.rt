//! What runs and stops leave, one after another.

ghost use Rattle.alt_run.specs.Chains.{ChainsHold};

/// A law of the definitions, by what `run` has done: a chain of runs and stops that began on a whole disk leads to a whole disk. A stop there
/// leaves of each run all that was answered in it, over something that the runs before it may have left. It does nothing.
pub fn chains()
    ensures hold { ChainsHold }
{}
