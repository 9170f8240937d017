//! What follows of engines from what their calls promise.

ghost use Rattle.alt_engine.specs.Histories.{ShowsBatches};

/// After any calls of `apply_all`, `work` and `recover`, in any order, a family that every call of `work` named since its first row shows
/// what the batches give.
pub fn engine_laws()
    ensures batches { ShowsBatches }
{}
