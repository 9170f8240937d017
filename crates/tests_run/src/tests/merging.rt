//! The same while merges are under way.

use super::script::UNDER_WAY;
use super::stops::stops;

#[test]
fn a_stop_or_a_failure_within_a_merge_leaves_what_was_answered(rt: HostRuntime) {
    let found = stops(rt.alloc(), &UNDER_WAY, 200);
    assert!(rt; found == Some(None), "{found:?}");
}
